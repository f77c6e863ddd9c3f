//! Values as `write` prints them, and how they are separated from what was printed before.
ghost use Rattle.std.specs.Prelude.{◌≡◌, ◌^◌, ◌<◌, IsTrue, OnErr, false, length};
ghost use Rattle.ops_io.specs.Ports.{port, PutsBytes};
ghost use Rattle.ops_meaning.specs.Layout.{value_text, lead_bytes, tab_bytes};
ghost use Rattle.ops_print.specs.Leads.{lead_of};

use crate::pieces::put_spaces;
use itoa::Buffer;
use ops_base::symbols::Names;
use ops_base::values::Value;
use ops_io::{Out, Sink, WriteFailed};

/// How a value is separated from what was printed before it.
#[derive(Clone, Copy, Debug, PartialEq, Eq)]
pub enum Lead {
    /// By one space, except at column 0.
    Apart,
    /// Not at all.
    Close,
    /// Preceded by spaces, so that spaces and value have this many bytes together.
    RightIn(usize),
}

/// Puts a value as `write` spells it, without the bytes before it.
pub fn put_value<K: Sink>(
    out: &mut Out,
    sink: &mut K,
    names: &Names,
    item: &Value,
) -> Result<(), WriteFailed>
    requires whole { IsTrue out.old.whole }
    requires faults { K.faults sink.old < 2 ^ 63 }
    ensures puts { PutsBytes result (port (K.taken sink.old) (K.faults sink.old) out.old)
        (port (K.taken sink.new) (K.faults sink.new) out.new) (value_text names.now item.now) }
    ensures broken { OnErr result (out.new.whole ≡ false) }
{
    match *item {
        Value::Symbol(sym) => out.put(sink, names.text(sym)),
        Value::Whole(number) => out.put(sink, Buffer::new().format(number).as_bytes()),
    }
}

/// How many bytes `put_value` puts. To find that out for a number, it formats the number.
pub fn value_length(names: &Names, value: &Value) -> usize
    ensures { result ≡ length (value_text names.now value.now) }
{
    match *value {
        Value::Symbol(sym) => names.text(sym).len(),
        Value::Whole(number) => Buffer::new().format(number).len(),
    }
}

/// Puts the spaces before a value of `long` bytes.
pub fn put_lead<K: Sink>(
    out: &mut Out,
    sink: &mut K,
    lead: Lead,
    long: usize,
) -> Result<(), WriteFailed>
    requires whole { IsTrue out.old.whole }
    requires faults { K.faults sink.old < 2 ^ 63 }
    ensures puts { PutsBytes result (port (K.taken sink.old) (K.faults sink.old) out.old)
        (port (K.taken sink.new) (K.faults sink.new) out.new) (lead_bytes (lead_of lead) out.old.column long) }
    ensures broken { OnErr result (out.new.whole ≡ false) }
{
    match lead {
        Lead::Apart if out.column() == 0 => Ok(()),
        Lead::Apart => out.put(sink, b" "),
        Lead::Close => Ok(()),
        Lead::RightIn(width) => put_spaces(out, sink, width.saturating_sub(long)),
    }
}

/// Moves to the column before `n`, on a new line if the output is already at column `n` or beyond.
pub fn put_tab<K: Sink>(out: &mut Out, sink: &mut K, n: usize) -> Result<(), WriteFailed>
    requires whole { IsTrue out.old.whole }
    requires faults { K.faults sink.old < 2 ^ 63 }
    ensures puts { PutsBytes result (port (K.taken sink.old) (K.faults sink.old) out.old)
        (port (K.taken sink.new) (K.faults sink.new) out.new) (tab_bytes n out.old.column) }
    ensures broken { OnErr result (out.new.whole ≡ false) }
{
    let column = out.column();
    if n as u64 <= column {
        out.put(sink, b"\n")?;
        return put_spaces(out, sink, n.saturating_sub(1));
    }
    put_spaces(out, sink, n - 1 - column as usize)
}
