//! The line which reports how a run ended.
ghost use Rattle.std.specs.Prelude.{◌≡◌, ◌^◌, ◌<◌, [], ◌∷◌, ◌++◌, IsTrue, OnErr, false, codes, decimal};
ghost use Rattle.ops_io.specs.Ports.{port, PutsBytes};
ghost use Rattle.ops_meaning.specs.Layout.{act_fault_text, last_line, line_at, symbol_text};

use crate::lines::{fresh_line, put_line};
use crate::pieces::put_numbered;
use crate::symbols::put_symbol;
use ops_base::endings::{ActKind, Ending};
use ops_base::symbols::Names;
use ops_base::values::Sym;
use ops_io::{Out, Sink, WriteFailed};

/// What a firing could not do, and the end of the line.
fn act_fault_end(kind: ActKind) -> &'static [u8]
    ensures { result.now ≡ act_fault_text kind ++ 10 ∷ [] }
{
    match kind {
        ActKind::NotNumber => b"not a number\n",
        ActKind::ZeroDivisor => b"zero divisor\n",
        ActKind::Overflow => b"overflow\n",
        ActKind::TooManyFields => b"too many fields\n",
        ActKind::InputTooLong => b"input too long\n",
    }
}

/// Puts the line which reports what an action of the production with this name could not do.
fn put_act_fault<K: Sink>(
    out: &mut Out,
    sink: &mut K,
    names: &Names,
    name: Sym,
    firing: u64,
    action: usize,
    kind: ActKind,
) -> Result<(), WriteFailed>
    requires whole { IsTrue out.old.whole }
    requires faults { K.faults sink.old < 2 ^ 63 }
    ensures puts { PutsBytes result (port (K.taken sink.old) (K.faults sink.old) out.old)
        (port (K.taken sink.new) (K.faults sink.new) out.new)
        (line_at out.old.column (codes "ops: firing " ++ decimal firing ++ codes ": " ++ symbol_text names.now name
        ++ codes ": action " ++ decimal action ++ codes ": " ++ act_fault_text kind)) }
    ensures broken { OnErr result (out.new.whole ≡ false) }
{
    fresh_line(out, sink)?;
    put_numbered(out, sink, b"ops: firing ", firing, b": ")?;
    put_symbol(out, sink, names, &name)?;
    put_numbered(out, sink, b": action ", action as u64, b": ")?;
    out.put(sink, act_fault_end(kind))
}

/// Puts the line which reports that this many firings were reached.
fn put_limit<K: Sink>(out: &mut Out, sink: &mut K, firings: u64) -> Result<(), WriteFailed>
    requires whole { IsTrue out.old.whole }
    requires faults { K.faults sink.old < 2 ^ 63 }
    ensures puts { PutsBytes result (port (K.taken sink.old) (K.faults sink.old) out.old)
        (port (K.taken sink.new) (K.faults sink.new) out.new)
        (line_at out.old.column (codes "ops: limit of " ++ decimal firings ++ codes " firings reached")) }
    ensures broken { OnErr result (out.new.whole ≡ false) }
{
    fresh_line(out, sink)?;
    put_numbered(out, sink, b"ops: limit of ", firings, b" firings reached\n")
}

/// Puts the line which reports that the input failed.
fn put_unread<K: Sink>(out: &mut Out, sink: &mut K) -> Result<(), WriteFailed>
    requires whole { IsTrue out.old.whole }
    requires faults { K.faults sink.old < 2 ^ 63 }
    ensures puts { PutsBytes result (port (K.taken sink.old) (K.faults sink.old) out.old)
        (port (K.taken sink.new) (K.faults sink.new) out.new) (line_at out.old.column (codes "ops: cannot read the input")) }
    ensures broken { OnErr result (out.new.whole ≡ false) }
{
    put_line(out, sink, b"ops: cannot read the input")
}

/// Puts the line for an ending, from its fresh line to its LF, or nothing if the ending has no line.
pub fn put_fault<K: Sink>(
    out: &mut Out,
    sink: &mut K,
    names: &Names,
    item: &Ending,
) -> Result<(), WriteFailed>
    requires whole { IsTrue out.old.whole }
    requires faults { K.faults sink.old < 2 ^ 63 }
    ensures puts { PutsBytes result (port (K.taken sink.old) (K.faults sink.old) out.old)
        (port (K.taken sink.new) (K.faults sink.new) out.new)
        (last_line names.now out.old.column item.now) }
    ensures broken { OnErr result (out.new.whole ≡ false) }
{
    match *item {
        Ending::Act {
            firing,
            name,
            action,
            kind,
            ..
        } => put_act_fault(out, sink, names, name, firing, action, kind),
        Ending::Limit { firings } => put_limit(out, sink, firings),
        Ending::ReadFault => put_unread(out, sink),
        Ending::Done { .. } | Ending::WriteFault | Ending::OutOfMemory => Ok(()),
    }
}
