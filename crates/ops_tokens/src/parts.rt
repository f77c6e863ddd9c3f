//! The parts of what `accept` reads, which are taken of an input a byte at a time.
ghost use Rattle.std.specs.Prelude.{◌≡◌, ◌^◌, ◌<◌, ◌≤◌};
ghost use Rattle.ops_io.specs.Coming.{inlet};
ghost use Rattle.ops_tokens.specs.Accepting.{most_accepted};
ghost use Rattle.ops_tokens.specs.Taking.{is_of, TakesOne, SkipsSpace, ReadsPart};

use crate::accept::AcceptFault;
use crate::bytes::is_white;
use ops_io::{Input, Source};
use std::alloc::Global;

/// How many bytes one `accept` takes at most.
pub const LONGEST_ATOM: usize = 1_048_576;

/// What a byte may be part of.
#[derive(Clone, Copy)]
pub enum Part {
    /// The white space before an atom.
    Space,
    /// An atom without bars.
    Run,
    /// What stands between two bars.
    Quoted,
    /// A bar.
    Bar,
}

fn is_of(part: Part, byte: u8) -> bool
    ensures { result ≡ is_of part byte }
{
    match part {
        Part::Space => is_white(byte),
        Part::Run => !is_white(byte) && byte != b'|',
        Part::Quoted => byte != b'|',
        Part::Bar => byte == b'|',
    }
}

/// Takes the next byte where it is of the part, after `taken` others, and answers it. `None` where another byte stands
/// there, or the end.
pub fn take_of<I: Source>(
    part: Part,
    taken: usize,
    input: &mut Input,
    source: &mut I,
) -> Result<Option<u8>, AcceptFault>
    requires within { taken ≤ most_accepted }
    requires faults { I.faults source.old < 2 ^ 63 }
    ensures { TakesOne part taken result (inlet input.old (I.left source.old) (I.faults source.old))
        (inlet input.new (I.left source.new) (I.faults source.new)) }
{
    let Some(byte) = input.next(source)? else {
        return Ok(None);
    };
    if !is_of(part, byte) {
        return Ok(None);
    }
    if taken == LONGEST_ATOM {
        return Err(AcceptFault::TooLong);
    }
    input.take();
    Ok(Some(byte))
}

/// Takes the white space, and counts its bytes.
pub fn skip_space<I: Source>(input: &mut Input, source: &mut I) -> Result<usize, AcceptFault>
    requires { I.faults source.old < 2 ^ 63 }
    ensures { SkipsSpace result (inlet input.old (I.left source.old) (I.faults source.old))
        (inlet input.new (I.left source.new) (I.faults source.new)) }
{
    let mut count = 0;
    while take_of(Part::Space, count, input, source)?.is_some() {
        count += 1;
    }
    Ok(count)
}

/// Takes all bytes of the part, after `before` others.
pub fn read_part<I: Source>(
    alloc: Global,
    part: Part,
    before: usize,
    input: &mut Input,
    source: &mut I,
) -> Result<Vec<u8>, AcceptFault>
    requires within { before ≤ most_accepted }
    requires faults { I.faults source.old < 2 ^ 63 }
    ensures { ReadsPart part before result (inlet input.old (I.left source.old) (I.faults source.old))
        (inlet input.new (I.left source.new) (I.faults source.new)) }
{
    let mut bytes = Vec::new(alloc);
    while let Some(byte) = take_of(part, before + bytes.len(), input, source)? {
        bytes.push(byte)?;
    }
    Ok(bytes)
}
