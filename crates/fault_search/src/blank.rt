//! A text without one of its forms.
ghost use Rattle.std.specs.Prelude.{◌≡◌, ◌≤◌, length, map, IfOk};
ghost use Rattle.fault_search.specs.Blanks.{blank, blanked};

use crate::forms::Span;
use std::alloc::{AllocError, Global};

fn blank(byte: u8) -> u8
    ensures { result ≡ blank byte }
{
    if byte == b'\n' { b'\n' } else { b' ' }
}

fn blanks(alloc: Global, bytes: &[u8]) -> Result<Vec<u8>, AllocError>
    ensures { IfOk result (λ v. v.items ≡ map blank bytes.now) }
{
    bytes.iter().map(|byte| blank(*byte)).collect(alloc)
}

/// The text with each byte of this part replaced by a space, except ends of lines.
pub fn blanked(alloc: Global, text: &[u8], part: Span) -> Result<Vec<u8>, AllocError>
    requires ordered { part.first ≤ part.past }
    requires within { part.past ≤ length text.now }
    ensures { IfOk result (λ v. v.items ≡ blanked text.now part) }
{
    let mut left = Vec::from_slice(alloc, &text[..part.first])?;
    let spaces = blanks(alloc, &text[part.first..part.past])?;
    left.extend_from_slice(&spaces)?;
    left.extend_from_slice(&text[part.past..])?;
    Ok(left)
}
