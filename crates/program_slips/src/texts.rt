//! Texts that were met before, which can be looked up by hash.
ghost use Rattle.std.specs.Prelude.{◌≡◌, bytes_eq, IfOk, OnOk};
ghost use Rattle.ops_base.specs.Names.{spellings, is_held};
ghost use Rattle.program_slips.specs.Texts.{met_at, with_text};

use indexmap::IndexSet;
use ops_base::memory::OutOfMemory;

/// Adds a text.
fn add(texts: &mut IndexSet<Vec<u8>>, text: &[u8]) -> Result<(), OutOfMemory>
    ensures { OnOk result (spellings texts.new.keys ≡ with_text (spellings texts.old.keys) text.now) }
{
    let copy = Vec::from_slice(*texts.allocator(), text)?;
    texts.insert(copy)?;
    Ok(())
}

/// The place at which a text was met first, if it was met. A new text is appended.
pub(crate) fn meet(texts: &mut IndexSet<Vec<u8>>, text: &[u8]) -> Result<Option<usize>, OutOfMemory>
    ensures place { IfOk result (λ place. place ≡ met_at (spellings texts.old.keys) text.now) }
    ensures texts { OnOk result (spellings texts.new.keys ≡ with_text (spellings texts.old.keys) text.now) }
{
    match texts.get_index_of(text) {
        Some(place) => Ok(Some(place)),
        None => {
            add(texts, text)?;
            Ok(None)
        }
    }
}

/// Whether a text was met.
pub(crate) fn is_met(texts: &IndexSet<Vec<u8>>, text: &[u8]) -> bool
    ensures { result ≡ is_held (spellings texts.now.keys) text.now }
{
    texts.contains(text)
}
