//! The first fault of a text, with the byte at which it is.
ghost use Rattle.std.specs.Prelude.{◌≡◌, ℕ, ◌+◌, ◌<◌, ◌≤◌, ◌^◌, ◌==◌, if◌then◌else◌, length, IfOk, IfSome, true, false};
ghost use Rattle.ops_grammar.specs.Places.{line_of, column_of};
ghost use Rattle.fault_search.specs.First.{fault_of_text};

use ops_base::endings::Fault;
use ops_base::memory::OutOfMemory;
use ops_check::{ProgramFault, read_program};
use ops_forms::Place;
use std::alloc::Global;

/// A fault of a text, and the byte at which it is.
#[derive(Clone, Copy, Debug, PartialEq, Eq)]
pub struct PlacedFault {
    pub fault: Fault,
    pub at: usize,
}

fn is_same(here: Place, place: Place) -> bool
    ensures same { result ≡ true → (here.line ≡ place.line) × (here.column ≡ place.column) }
    ensures other { result ≡ false → here.line ≡ place.line → here.column ≡ place.column → ⊥ }
{
    here.line == place.line && here.column == place.column
}

// the line and the column after this byte
fn place_past(here: Place, byte: u8) -> Place
    requires line { here.line < 2 ^ 63 }
    requires column { here.column < 2 ^ 63 }
    ensures line { result.line ≡ (if byte == 10 then here.line + 1 else here.line) }
    ensures column { result.column ≡ (if byte == 10 then 1 else here.column + 1) }
{
    if byte == b'\n' {
        Place {
            line: here.line + 1,
            column: 1,
        }
    } else {
        Place {
            line: here.line,
            column: here.column + 1,
        }
    }
}

// the byte with this line and this column
fn byte_at(text: &[u8], place: Place) -> usize
    ensures { (at : ℕ) → at ≤ length text.now → place.line ≡ line_of text.now at → place.column ≡ column_of text.now at → result ≡ at }
{
    let mut here = Place { line: 1, column: 1 };
    for (i, byte) in text.iter().enumerate() {
        if is_same(here, place) {
            return i;
        }
        here = place_past(here, *byte);
    }
    text.len()
}

/// The first fault of a text, or None if it is a program. Takes as much time and memory as reading the text.
pub fn first_fault(alloc: Global, text: &[u8]) -> Result<Option<PlacedFault>, OutOfMemory>
    ensures fault { IfOk result (λ found. found ≡ fault_of_text text.now) }
    ensures within { IfOk result (λ found. IfSome found (λ f. f.at ≤ length text.now)) }
{
    let copy = Vec::from_slice(alloc, text)?;
    match read_program(alloc, copy) {
        Ok(_read) => Ok(None),
        Err(
            ProgramFault::At {
                fault,
                line,
                column,
            },
        ) => {
            let at = byte_at(text, Place { line, column });
            Ok(Some(PlacedFault { fault, at }))
        }
        Err(ProgramFault::OutOfMemory) => Err(OutOfMemory),
    }
}
