//! The atoms that `accept` reads from an input.
ghost use Rattle.std.specs.Prelude.{◌≡◌, ◌^◌, ◌<◌, ◌≤◌, ◌&&◌, map, OnErr, SomeIff, IsTrue};
ghost use Rattle.ops_io.specs.Coming.{inlet};
ghost use Rattle.ops_tokens.specs.Accepting.{Accepts, Spelled, shown, most_accepted};
ghost use Rattle.ops_tokens.specs.Numbers.{whole_value, is_in_range};
ghost use Rattle.ops_tokens.specs.Spellings.{is_whole};
ghost use Rattle.ops_tokens.specs.Taking.{GoesOn, GivesAtom, AcceptsBehind};
ghost use Rattle.ops_tokens.specs.declared.accept.AcceptFault.TheVariants as fault;
ghost use Rattle.ops_tokens.specs.declared.parts.Part.TheVariants as part;

use crate::bytes::is_bad;
use crate::number::whole_of;
use crate::parts::{Part, read_part, skip_space, take_of};
use crate::whole_table::is_whole;
use ops_base::memory::OutOfMemory;
use ops_base::symbols::Names;
use ops_base::values::Value;
use ops_io::{Failed, Input, Source};
use std::alloc::{AllocError, AllocFailed, Global};
use thiserror::Error;

/// Why no atom was accepted.
#[derive(Clone, Copy, Debug, PartialEq, Eq, Error)]
pub enum AcceptFault {
    /// The white space before the atom and the atom with its bars have more than 1,048,576 bytes.
    #[error("input too long")]
    TooLong,
    /// The source failed.
    #[error("cannot read the input")]
    Read,
    /// Memory ran out.
    #[error("out of memory")]
    OutOfMemory,
}

impl From<Failed> for AcceptFault {
    ghost from_gives = { λ _ why. why ≡ fault.Read };

    fn from(_failed: Failed) -> Self {
        AcceptFault::Read
    }
}

impl From<OutOfMemory> for AcceptFault {
    ghost from_gives = { λ _ why. why ≡ fault.OutOfMemory };

    fn from(_error: OutOfMemory) -> Self {
        AcceptFault::OutOfMemory
    }
}

impl<T: Drop> From<AllocFailed<T>> for AcceptFault {
    ghost from_gives = { λ _ why. why ≡ fault.OutOfMemory };

    fn from(_error: AllocFailed<T>) -> Self {
        AcceptFault::OutOfMemory
    }
}

/// Reads one atom: white space is skipped, and the byte after an atom without bars is not taken. A whole number of 128
/// bits is that number, and any other atom a symbol, in which a byte that no text may have is shown as `?`. Where
/// nothing is left it is the symbol `end-of-file`. More than 1,048,576 bytes are too many, and a read that fails is
/// answered as that. Each byte takes constant time.
pub fn accept_atom<I: Source>(
    alloc: Global,
    names: &mut Names,
    input: &mut Input,
    source: &mut I,
) -> Result<Value, AcceptFault>
    requires faults { I.faults source.old < 2 ^ 63 }
    ensures accepts { Accepts result names.old names.new (inlet input.old (I.left source.old) (I.faults source.old))
        (inlet input.new (I.left source.new) (I.faults source.new)) }
    ensures names { OnErr result (names.new ≡ names.old) }
{
    let space = skip_space(input, source)?;
    match input.next(source)? {
        None => symbol(names, b"end-of-file"),
        Some(b'|') => quoted(alloc, names, space, input, source),
        Some(_) => run(alloc, names, space, input, source),
    }
}

// an atom without bars, after this many bytes of white space
fn run<I: Source>(
    alloc: Global,
    names: &mut Names,
    space: usize,
    input: &mut Input,
    source: &mut I,
) -> Result<Value, AcceptFault>
    requires within { space ≤ most_accepted }
    requires faults { I.faults source.old < 2 ^ 63 }
    requires first { GoesOn part.Run input.old }
    ensures accepts { AcceptsBehind space result names.old names.new (inlet input.old (I.left source.old) (I.faults source.old))
        (inlet input.new (I.left source.new) (I.faults source.new)) }
    ensures names { OnErr result (names.new ≡ names.old) }
{
    let mut bytes = read_part(alloc, Part::Run, space, input, source)?;
    if let Some(number) = number_of(&bytes) {
        return Ok(Value::Whole(number));
    }
    show(&mut bytes);
    symbol(names, &bytes)
}

// an atom that begins with a bar
fn quoted<I: Source>(
    alloc: Global,
    names: &mut Names,
    space: usize,
    input: &mut Input,
    source: &mut I,
) -> Result<Value, AcceptFault>
    requires within { space ≤ most_accepted }
    requires faults { I.faults source.old < 2 ^ 63 }
    requires first { GoesOn part.Bar input.old }
    ensures accepts { AcceptsBehind space result names.old names.new (inlet input.old (I.left source.old) (I.faults source.old))
        (inlet input.new (I.left source.new) (I.faults source.new)) }
    ensures names { OnErr result (names.new ≡ names.old) }
{
    take_of(Part::Bar, space, input, source)?;
    let mut bytes = read_part(alloc, Part::Quoted, space + 1, input, source)?;
    take_of(Part::Bar, space + 1 + bytes.len(), input, source)?;
    show(&mut bytes);
    symbol(names, &bytes)
}

// the number that a run is
fn number_of(run: &[u8]) -> Option<i128>
    ensures { SomeIff result (IsTrue (is_whole run.now && is_in_range (whole_value run.now))) (whole_value run.now) }
{
    if is_whole(run) { whole_of(run) } else { None }
}

fn symbol(names: &mut Names, spelling: &[u8]) -> Result<Value, AcceptFault>
    ensures { GivesAtom result names.old names.new (Spelled spelling.now) }
{
    Ok(Value::Symbol(names.intern(spelling)?))
}

fn show(bytes: &mut [u8])
    ensures { bytes.new ≡ map shown bytes.old }
{
    for byte in bytes.iter_mut() {
        *byte = shown(*byte);
    }
}

// how a byte stands in a symbol
fn shown(byte: u8) -> u8
    ensures { result ≡ shown byte }
{
    if is_bad(byte) { b'?' } else { byte }
}
