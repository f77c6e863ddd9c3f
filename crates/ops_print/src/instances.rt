//! Instantiations, and the lines that show them.
ghost use Rattle.std.specs.Prelude.{◌≡◌, ◌^◌, ◌<◌, ◌++◌, IsTrue, OnErr, false, codes, decimal};
ghost use Rattle.ops_io.specs.Ports.{port, PutsBytes};
ghost use Rattle.ops_meaning.specs.Layout.{rule_name, tags_text, inst_text, partial_text, line_at};

use crate::lines::fresh_line;
use crate::pieces::put_numbered;
use crate::symbols::put_symbol;
use ops_base::programs::Program;
use ops_base::rules::{Inst, Rule};
use ops_base::symbols::Names;
use ops_base::values::{NIL, Sym};
use ops_io::{Out, Sink, WriteFailed};

/// The name of the production with this number, or `nil` if there is none.
pub fn rule_name(rules: &[Rule], rule: usize) -> Sym
    ensures { result ≡ rule_name rules.now rule }
{
    match rules.get(rule) {
        Some(found) => found.name,
        None => NIL,
    }
}

/// Puts tags, each after a space.
fn put_tags<K: Sink>(out: &mut Out, sink: &mut K, tags: &[u64]) -> Result<(), WriteFailed>
    requires whole { IsTrue out.old.whole }
    requires faults { K.faults sink.old < 2 ^ 63 }
    ensures puts { PutsBytes result (port (K.taken sink.old) (K.faults sink.old) out.old)
        (port (K.taken sink.new) (K.faults sink.new) out.new) (tags_text tags.now) }
    ensures broken { OnErr result (out.new.whole ≡ false) }
{
    for tag in tags {
        put_numbered(out, sink, b" ", *tag, b"")?;
    }
    Ok(())
}

/// Puts an instantiation: the name of its production, and its tags. Allocates nothing.
pub fn put_inst<K: Sink>(
    out: &mut Out,
    sink: &mut K,
    names: &Names,
    program: &Program,
    item: &Inst,
) -> Result<(), WriteFailed>
    requires whole { IsTrue out.old.whole }
    requires faults { K.faults sink.old < 2 ^ 63 }
    ensures puts { PutsBytes result (port (K.taken sink.old) (K.faults sink.old) out.old)
        (port (K.taken sink.new) (K.faults sink.new) out.new) (inst_text names.now program.now.rules item.now) }
    ensures broken { OnErr result (out.new.whole ≡ false) }
{
    let name = rule_name(program.rules.as_slice(), item.rule);
    put_symbol(out, sink, names, &name)?;
    put_tags(out, sink, item.tags.as_slice())
}

/// Puts an instantiation on a line of its own. Allocates nothing.
pub fn put_inst_line<K: Sink>(
    out: &mut Out,
    sink: &mut K,
    names: &Names,
    program: &Program,
    item: &Inst,
) -> Result<(), WriteFailed>
    requires whole { IsTrue out.old.whole }
    requires faults { K.faults sink.old < 2 ^ 63 }
    ensures puts { PutsBytes result (port (K.taken sink.old) (K.faults sink.old) out.old)
        (port (K.taken sink.new) (K.faults sink.new) out.new)
        (line_at out.old.column (inst_text names.now program.now.rules item.now)) }
    ensures broken { OnErr result (out.new.whole ≡ false) }
{
    fresh_line(out, sink)?;
    put_inst(out, sink, names, program, item)?;
    out.put(sink, b"\n")
}

/// Puts a partial match on a line of its own: the name of its production, the number of parts that its elements meet,
/// and its tags. Allocates nothing.
pub fn put_partial_line<K: Sink>(
    out: &mut Out,
    sink: &mut K,
    names: &Names,
    name: &Sym,
    parts: usize,
    tags: &[u64],
) -> Result<(), WriteFailed>
    requires whole { IsTrue out.old.whole }
    requires faults { K.faults sink.old < 2 ^ 63 }
    ensures puts { PutsBytes result (port (K.taken sink.old) (K.faults sink.old) out.old)
        (port (K.taken sink.new) (K.faults sink.new) out.new)
        (line_at out.old.column (partial_text names.now name.now parts tags.now)) }
    ensures broken { OnErr result (out.new.whole ≡ false) }
{
    fresh_line(out, sink)?;
    put_symbol(out, sink, names, name)?;
    put_numbered(out, sink, b" ", parts as u64, b":")?;
    put_tags(out, sink, tags)?;
    out.put(sink, b"\n")
}

/// Puts the line of a firing: its number, and the instantiation that fires. Allocates nothing.
pub fn put_firing<K: Sink>(
    out: &mut Out,
    sink: &mut K,
    names: &Names,
    program: &Program,
    firing: u64,
    item: &Inst,
) -> Result<(), WriteFailed>
    requires whole { IsTrue out.old.whole }
    requires faults { K.faults sink.old < 2 ^ 63 }
    ensures puts { PutsBytes result (port (K.taken sink.old) (K.faults sink.old) out.old)
        (port (K.taken sink.new) (K.faults sink.new) out.new)
        (line_at out.old.column (decimal firing ++ codes ". " ++ inst_text names.now program.now.rules item.now)) }
    ensures broken { OnErr result (out.new.whole ≡ false) }
{
    fresh_line(out, sink)?;
    put_numbered(out, sink, b"", firing, b". ")?;
    put_inst(out, sink, names, program, item)?;
    out.put(sink, b"\n")
}
