//! The files of a program, as one text.
ghost use Rattle.std.specs.Prelude.{◌≡◌, ◌^◌, ◌<◌, ◌≤◌, ◌-◌, ◌++◌, ℕ, List, [], length, take, drop, vec_len, IfOk, IfErr, is_ok};
ghost use Rattle.ops_base.specs.Valid.{longest_list};
ghost use Rattle.ops_jobs.specs.Words.{word_bytes};
ghost use Rattle.ops_top.specs.Whole.{ends_in_line, text_of, gathered, readable, Joined};
ghost use Rattle.ops_top.specs.Calls.{OfContents, broken_load, AskedFor};
ghost use Rattle.ops_top.specs.Loads.{Fits, Adds, CountsUnread, AsksFor, ComesTo, IsOfLast};

use ops_base::memory::OutOfMemory;
use ops_check::LONGEST_TEXT;
use ops_io::{LoadError, Shelf};
use std::alloc::Global;

/// Why the files of a program are no text.
#[derive(Clone, Copy)]
pub(crate) enum FilesFault<'n> {
    /// The file of this name can't be read.
    Unread(&'n str),
    /// They are longer than a text may be.
    TooLong,
    /// Memory ran out.
    OutOfMemory,
}

fn ends_in_line(bytes: &[u8]) -> bool
    ensures { result ≡ ends_in_line bytes.now }
{
    match bytes.last() {
        Some(byte) => *byte == b'\n',
        None => true,
    }
}

/// Adds an LF where what stands from this place on lacks it, and answers whether that fits.
fn end_line(text: &mut Vec<u8>, from: usize) -> Result<bool, OutOfMemory>
    requires from { from ≤ vec_len text.old }
    requires fits { vec_len text.old ≤ longest_list }
    ensures { IfOk result (λ fits. Fits fits (take from text.old.items ++ text_of (drop from text.old.items)) text.new.items) }
{
    if ends_in_line(&text[from..]) {
        return Ok(true);
    }
    if text.len() == LONGEST_TEXT {
        return Ok(false);
    }
    text.push(b'\n')?;
    Ok(true)
}

/// Loads a file after a text, with an LF where its last line lacks it. It asks the shelf once, and takes memory in
/// proportion to what is added.
fn add_file<'n, H: Shelf>(
    name: &'n str,
    shelf: &mut H,
    text: &mut Vec<u8>,
) -> Result<(), FilesFault<'n>>
    requires shelf { H.faults shelf.old < 2 ^ 63 }
    requires loads { length (H.names shelf.old) < 2 ^ 64 - 1 }
    requires fits { vec_len text.old ≤ longest_list }
    ensures adds { Adds result (H.told shelf.old name.now) name.now text.old.items text.new.items }
    ensures cause { CountsUnread result (H.faults shelf.old) (H.faults shelf.new) }
    ensures names { AsksFor result name.now (H.names shelf.old) (H.names shelf.new) }
    ensures told { (n : List ℕ) → H.told shelf.new n ≡ H.told shelf.old n }
{
    let from = text.len();
    match shelf.load(name, LONGEST_TEXT - from, text) {
        Ok(true) => match end_line(text, from) {
            Ok(true) => Ok(()),
            Ok(false) => Err(FilesFault::TooLong),
            Err(OutOfMemory) => Err(FilesFault::OutOfMemory),
        },
        Ok(false) => Err(FilesFault::TooLong),
        Err(LoadError::Failed) => Err(FilesFault::Unread(name)),
        Err(LoadError::OutOfMemory) => Err(FilesFault::OutOfMemory),
    }
}

/// Loads the files of these names in their order, and asks the shelf no more once one can't be had.
pub(crate) fn load_files<'n, H: Shelf>(
    alloc: Global,
    names: &'n [String],
    shelf: &mut H,
) -> Result<Vec<u8>, FilesFault<'n>>
    requires shelf { H.faults shelf.old < 2 ^ 63 }
    requires loads { length (H.names shelf.old) < 2 ^ 63 }
    ensures text { IfOk result (λ text. OfContents (H.told shelf.old) (word_bytes names.now) (λ contents.
        gathered [] (word_bytes names.now) (readable contents
        (broken_load (H.names shelf.old) (H.names shelf.new) (H.faults shelf.old) (H.faults shelf.new))) ≡ Joined text.items)) }
    ensures fault { IfErr result (λ why. OfContents (H.told shelf.old) (word_bytes names.now) (λ contents. ComesTo why
        (gathered [] (word_bytes names.now) (readable contents
        (broken_load (H.names shelf.old) (H.names shelf.new) (H.faults shelf.old) (H.faults shelf.new)))))) }
    ensures last { IfErr result (λ why. IsOfLast why (H.names shelf.new)) }
    ensures cause { CountsUnread result (H.faults shelf.old) (H.faults shelf.new) }
    ensures names { AskedFor (is_ok result) (word_bytes names.now) (H.names shelf.old) (H.names shelf.new) }
    ensures told { (n : List ℕ) → H.told shelf.new n ≡ H.told shelf.old n }
{
    let mut text = Vec::new(alloc);
    for name in names {
        add_file(name.as_str(), shelf, &mut text)?;
    }
    Ok(text)
}
