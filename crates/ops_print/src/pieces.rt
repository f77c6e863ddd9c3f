//! Bytes that are put piece by piece, and spaces.
ghost use Rattle.std.specs.Prelude.{◌≡◌, ◌^◌, ◌<◌, ◌≤◌, ◌++◌, IsTrue, OnErr, false, decimal};
ghost use Rattle.ops_io.specs.Ports.{port, PutsBytes};
ghost use Rattle.ops_meaning.specs.Layout.{spaces};

use itoa::Buffer;
use ops_io::{Out, Sink, WriteFailed};

/// The most spaces that are put into the buffer in one call.
const SPACES: [u8; 64] = [b' '; 64];

/// Puts these three pieces in order.
pub(crate) fn put_three<K: Sink>(
    out: &mut Out,
    sink: &mut K,
    first: &[u8],
    second: &[u8],
    third: &[u8],
) -> Result<(), WriteFailed>
    requires whole { IsTrue out.old.whole }
    requires faults { K.faults sink.old < 2 ^ 63 }
    ensures puts { PutsBytes result (port (K.taken sink.old) (K.faults sink.old) out.old)
        (port (K.taken sink.new) (K.faults sink.new) out.new) (first.now ++ second.now ++ third.now) }
    ensures broken { OnErr result (out.new.whole ≡ false) }
{
    out.put(sink, first)?;
    out.put(sink, second)?;
    out.put(sink, third)
}

/// Puts a number between two texts.
pub(crate) fn put_numbered<K: Sink>(
    out: &mut Out,
    sink: &mut K,
    before: &[u8],
    number: u64,
    after: &[u8],
) -> Result<(), WriteFailed>
    requires whole { IsTrue out.old.whole }
    requires faults { K.faults sink.old < 2 ^ 63 }
    ensures puts { PutsBytes result (port (K.taken sink.old) (K.faults sink.old) out.old)
        (port (K.taken sink.new) (K.faults sink.new) out.new) (before.now ++ decimal number ++ after.now) }
    ensures broken { OnErr result (out.new.whole ≡ false) }
{
    let mut buffer = Buffer::new();
    let number = buffer.format(number).as_bytes();
    put_three(out, sink, before, number, after)
}

fn some_spaces(count: usize) -> &'static [u8]
    requires { count ≤ 64 }
    ensures { result.now ≡ spaces count }
{
    &SPACES[..count]
}

/// Puts this many spaces, 64 at a time.
pub fn put_spaces<K: Sink>(out: &mut Out, sink: &mut K, count: usize) -> Result<(), WriteFailed>
    requires whole { IsTrue out.old.whole }
    requires faults { K.faults sink.old < 2 ^ 63 }
    ensures puts { PutsBytes result (port (K.taken sink.old) (K.faults sink.old) out.old)
        (port (K.taken sink.new) (K.faults sink.new) out.new) (spaces count) }
    ensures broken { OnErr result (out.new.whole ≡ false) }
{
    let mut left = count;
    while left > 0 {
        let next = left.min(SPACES.len());
        out.put(sink, some_spaces(next))?;
        left -= next;
    }
    Ok(())
}
