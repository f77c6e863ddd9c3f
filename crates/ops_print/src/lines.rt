//! Output on lines of its own.
ghost use Rattle.std.specs.Prelude.{◌≡◌, ◌^◌, ◌<◌, ◌++◌, IsTrue, OnErr, false, decimal};
ghost use Rattle.ops_io.specs.Ports.{port, PutsBytes};
ghost use Rattle.ops_meaning.specs.Layout.{fresh_line, kept_line, line_at, symbol_text};

use crate::pieces::{put_numbered, put_three};
use crate::symbols::put_named;
use ops_base::symbols::Names;
use ops_base::values::Sym;
use ops_io::{Out, Sink, WriteFailed};

/// The bytes that start a fresh line if the output is at this column.
fn fresh_line_at(column: u64) -> &'static [u8]
    ensures { result.now ≡ fresh_line column }
{
    if column == 0 { &[] } else { b"\n" }
}

/// Puts an LF if the column is not 0.
pub fn fresh_line<K: Sink>(out: &mut Out, sink: &mut K) -> Result<(), WriteFailed>
    requires whole { IsTrue out.old.whole }
    requires faults { K.faults sink.old < 2 ^ 63 }
    ensures puts { PutsBytes result (port (K.taken sink.old) (K.faults sink.old) out.old)
        (port (K.taken sink.new) (K.faults sink.new) out.new) (fresh_line out.old.column) }
    ensures broken { OnErr result (out.new.whole ≡ false) }
{
    out.put(sink, fresh_line_at(out.column()))
}

/// Puts a line of its own, from its fresh line to its LF.
pub fn put_line<K: Sink>(out: &mut Out, sink: &mut K, text: &[u8]) -> Result<(), WriteFailed>
    requires whole { IsTrue out.old.whole }
    requires faults { K.faults sink.old < 2 ^ 63 }
    ensures puts { PutsBytes result (port (K.taken sink.old) (K.faults sink.old) out.old)
        (port (K.taken sink.new) (K.faults sink.new) out.new) (line_at out.old.column text.now) }
    ensures broken { OnErr result (out.new.whole ≡ false) }
{
    let fresh = fresh_line_at(out.column());
    put_three(out, sink, fresh, text, b"\n")
}

/// Puts a line of its own: these bytes, and a symbol as a program names it.
pub fn put_name_line<K: Sink>(
    out: &mut Out,
    sink: &mut K,
    names: &Names,
    before: &[u8],
    name: &Sym,
) -> Result<(), WriteFailed>
    requires whole { IsTrue out.old.whole }
    requires faults { K.faults sink.old < 2 ^ 63 }
    ensures puts { PutsBytes result (port (K.taken sink.old) (K.faults sink.old) out.old)
        (port (K.taken sink.new) (K.faults sink.new) out.new)
        (line_at out.old.column (before.now ++ symbol_text names.now name.now)) }
    ensures broken { OnErr result (out.new.whole ≡ false) }
{
    fresh_line(out, sink)?;
    put_named(out, sink, names, before, name, b"\n")
}

/// Puts a line of its own: these bytes, and a number.
pub fn put_number_line<K: Sink>(
    out: &mut Out,
    sink: &mut K,
    before: &[u8],
    number: u64,
) -> Result<(), WriteFailed>
    requires whole { IsTrue out.old.whole }
    requires faults { K.faults sink.old < 2 ^ 63 }
    ensures puts { PutsBytes result (port (K.taken sink.old) (K.faults sink.old) out.old)
        (port (K.taken sink.new) (K.faults sink.new) out.new) (line_at out.old.column (before.now ++ decimal number)) }
    ensures broken { OnErr result (out.new.whole ≡ false) }
{
    fresh_line(out, sink)?;
    put_numbered(out, sink, before, number, b"\n")
}

/// Puts the line which says how many firings are kept, if that is fewer than are to be undone.
pub fn put_kept_line<K: Sink>(out: &mut Out, sink: &mut K, kept: u64) -> Result<(), WriteFailed>
    requires whole { IsTrue out.old.whole }
    requires faults { K.faults sink.old < 2 ^ 63 }
    ensures puts { PutsBytes result (port (K.taken sink.old) (K.faults sink.old) out.old)
        (port (K.taken sink.new) (K.faults sink.new) out.new) (line_at out.old.column (kept_line kept)) }
    ensures broken { OnErr result (out.new.whole ≡ false) }
{
    fresh_line(out, sink)?;
    put_numbered(out, sink, b"back -- ", kept, b" firings kept\n")
}
