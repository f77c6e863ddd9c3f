//! The search for all faults of a text.
ghost use Rattle.std.specs.Prelude.{◌≡◌, ◌+◌, ◌<◌, ◌≤◌, bytes_eq, length, All, IfOk, IfSome, option_map};
ghost use Rattle.fault_search.specs.Search.{declares, text_after, faults_of};

use crate::blank::blanked;
use crate::first::{PlacedFault, first_fault};
use crate::forms::form_at;
use ops_base::memory::OutOfMemory;
use ops_tokens::{Scanner, spelling_of};
use std::alloc::Global;

fn is(word: &[u8], other: &[u8]) -> bool
    ensures { result ≡ bytes_eq word.now other.now }
{
    word == other
}

fn declares(text: &[u8], first: usize) -> bool
    requires { first < length text.now }
    ensures { result ≡ declares text.now first }
{
    match Scanner::new().next_token(text, first + 1) {
        Ok(Some(token)) => {
            let word = spelling_of(text, &token);
            is(word, b"literalize") || is(word, b"vector-attribute")
        }
        _ => false,
    }
}

/// The text in which the search continues after a fault at this place.
fn text_after(alloc: Global, text: &[u8], at: usize) -> Result<Option<Vec<u8>>, OutOfMemory>
    requires { at ≤ length text.now }
    ensures text { IfOk result (λ next. option_map (λ v. v.items) next ≡ text_after text.now at) }
    ensures length { IfOk result (λ next. IfSome next (λ v. length v.items ≡ length text.now)) }
{
    let Some(form) = form_at(text, at) else {
        return Ok(None);
    };
    if declares(text, form.first) {
        return Ok(None);
    }
    Ok(Some(blanked(alloc, text, form)?))
}

/// The faults of a text, at most this many. After each fault, the form that contains it is blanked out, and the text
/// is read again: one fault takes as much time as reading the text, and memory in proportion to it.
pub fn all_faults(alloc: Global, text: &[u8], most: usize) -> Result<Vec<PlacedFault>, OutOfMemory>
    ensures faults { IfOk result (λ found. found.items ≡ faults_of most text.now) }
    ensures within { IfOk result (λ found. All (λ f. f.at ≤ length text.now) found.items) }
{
    let mut found = Vec::new(alloc);
    let mut left = Vec::from_slice(alloc, text)?;
    'faults: while found.len() < most {
        let rest = left.as_slice();
        let first = first_fault(alloc, rest)?;
        let fault = match first {
            Some(fault) => fault,
            None => return Ok(found),
        };
        found.push(fault)?;
        let next = text_after(alloc, rest, fault.at)?;
        match next {
            Some(text) => left = text,
            None => return Ok(found),
        }
    }
    Ok(found)
}
