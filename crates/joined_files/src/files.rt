//! The files that make up a text, joined.
ghost use Rattle.std.specs.Prelude.{◌≡◌, ◌^◌, ◌<◌, ◌≤◌, ◌-◌, ◌++◌, ℕ, List, [], length, take, drop, ◌∷◌, vec_len, IfOk, IfErr, OnOk, is_ok};
ghost use Rattle.ops_base.specs.Valid.{longest_list};
ghost use Rattle.ops_jobs.specs.Words.{word_bytes};
ghost use Rattle.joined_files.specs.Files.{ends_in_line, text_of, gathered_all, readable, Joined};
ghost use Rattle.joined_files.specs.Contents.{OfContents, broken_load};
ghost use Rattle.joined_files.specs.Loads.{Fits, Adds, CountsUnread, AsksFor, ComesTo, IsOfLast, AskedFor};

use crate::parts::Part;
use ops_base::memory::OutOfMemory;
use ops_io::{LoadError, Shelf};
use std::alloc::Global;

/// How many bytes a text may have.
const LONGEST_TEXT: usize = 16_777_216;

/// Why files do not make up a text.
#[derive(Clone, Copy)]
pub enum FilesFault<'n> {
    /// The file of this name can't be read.
    Unread(&'n str),
    /// With the file of this name, the text is longer than allowed.
    TooLong(&'n str),
    /// Memory ran out.
    OutOfMemory,
}

/// The text of files, and the parts of it that belong to each file.
#[derive(Drop)]
pub struct JoinedText {
    pub text: Vec<u8>,
    pub parts: Vec<Part>,
}

fn ends_in_line(bytes: &[u8]) -> bool
    ensures { result ≡ ends_in_line bytes.now }
{
    match bytes.last() {
        Some(byte) => *byte == b'\n',
        None => true,
    }
}

/// Adds an LF if the text from this byte on does not end in one, and returns whether that fits.
fn end_line(text: &mut Vec<u8>, from: usize) -> Result<bool, OutOfMemory>
    requires from { from ≤ vec_len text.old }
    requires fits { vec_len text.old ≤ longest_list }
    ensures { IfOk result (λ fits. Fits fits (take from text.old.items ++ text_of (drop from text.old.items)) text.new.items) }
{
    if ends_in_line(&text[from..]) {
        return Ok(true);
    }
    if text.len() == LONGEST_TEXT {
        return Ok(false);
    }
    text.push(b'\n')?;
    Ok(true)
}

/// Appends a file to a text, with an LF if its last line lacks one. It asks the shelf once, and takes memory in
/// proportion to what is added.
fn add_file<'n, H: Shelf>(
    name: &'n str,
    shelf: &mut H,
    text: &mut Vec<u8>,
) -> Result<(), FilesFault<'n>>
    requires shelf { H.faults shelf.old < 2 ^ 63 }
    requires loads { length (H.names shelf.old) < 2 ^ 64 - 1 }
    requires fits { vec_len text.old ≤ longest_list }
    ensures adds { Adds result (H.told shelf.old name.now) name.now text.old.items text.new.items }
    ensures cause { CountsUnread result (H.faults shelf.old) (H.faults shelf.new) }
    ensures names { AsksFor result name.now (H.names shelf.old) (H.names shelf.new) }
    ensures told { (n : List ℕ) → H.told shelf.new n ≡ H.told shelf.old n }
{
    let from = text.len();
    match shelf.load(name, LONGEST_TEXT - from, text) {
        Ok(true) => match end_line(text, from) {
            Ok(true) => Ok(()),
            Ok(false) => Err(FilesFault::TooLong(name)),
            Err(OutOfMemory) => Err(FilesFault::OutOfMemory),
        },
        Ok(false) => Err(FilesFault::TooLong(name)),
        Err(LoadError::Failed) => Err(FilesFault::Unread(name)),
        Err(LoadError::OutOfMemory) => Err(FilesFault::OutOfMemory),
    }
}

/// Adds a part that begins at this byte.
fn push_part(parts: &mut Vec<Part>, first: usize) -> Result<(), OutOfMemory>
    ensures { OnOk result (parts.new.items ≡ parts.old.items ++ record { file = length parts.old.items; first = first } ∷ []) }
{
    let file = parts.len();
    parts.push(Part { file, first })?;
    Ok(())
}

/// Loads the files of these names in order. Once a file can't be loaded, it does not ask the shelf again.
pub fn load_files<'n, H: Shelf>(
    alloc: Global,
    names: &'n [String],
    shelf: &mut H,
) -> Result<JoinedText, FilesFault<'n>>
    requires shelf { H.faults shelf.old < 2 ^ 63 }
    requires loads { length (H.names shelf.old) < 2 ^ 63 }
    ensures text { IfOk result (λ found. OfContents (H.told shelf.old) (word_bytes names.now) (λ contents.
        gathered_all (word_bytes names.now) (readable contents
        (broken_load (H.names shelf.old) (H.names shelf.new) (H.faults shelf.old) (H.faults shelf.new)))
        ≡ Joined found.text.items found.parts.items)) }
    ensures fault { IfErr result (λ why. OfContents (H.told shelf.old) (word_bytes names.now) (λ contents. ComesTo why
        (gathered_all (word_bytes names.now) (readable contents
        (broken_load (H.names shelf.old) (H.names shelf.new) (H.faults shelf.old) (H.faults shelf.new)))))) }
    ensures last { IfErr result (λ why. IsOfLast why (H.names shelf.new)) }
    ensures cause { CountsUnread result (H.faults shelf.old) (H.faults shelf.new) }
    ensures names { AskedFor (is_ok result) (word_bytes names.now) (H.names shelf.old) (H.names shelf.new) }
    ensures told { (n : List ℕ) → H.told shelf.new n ≡ H.told shelf.old n }
{
    let mut text = Vec::new(alloc);
    let mut parts = Vec::new(alloc);
    for name in names {
        if push_part(&mut parts, text.len()).is_err() {
            return Err(FilesFault::OutOfMemory);
        }
        add_file(name.as_str(), shelf, &mut text)?;
    }
    Ok(JoinedText { text, parts })
}
