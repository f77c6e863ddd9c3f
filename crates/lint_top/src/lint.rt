//! The top call.
ghost use Rattle.std.specs.Prelude.{◌≡◌, ◌^◌, ◌<◌, ℕ, List, length};
ghost use Rattle.std.specs.List.{list_all};
ghost use Rattle.ops_jobs.specs.Words.{word_bytes};
ghost use Rattle.joined_files.specs.Contents.{OfContents, broken_load};
ghost use Rattle.joined_files.specs.Files.{gathered_all, readable};
ghost use Rattle.joined_files.specs.Loads.{AskedFor, last_of};
ghost use Rattle.lint_top.specs.Whole.{is_file, are_files, answer_gathered, unread, whole};
ghost use Rattle.lint_top.specs.Calls.{Answers, Delivers, TellsLoads, status_after, has_text, AskedForWords};

use crate::saying::{say_report, say_usage, say_why, status_after};
use crate::statuses::LintStatus;
use joined_files::load_files;
use ops_io::{Shelf, Sink, Stop};
use std::alloc::Global;

fn is_file(word: &[u8]) -> bool
    ensures { result ≡ is_file word.now }
{
    word.is_empty() || word[0] != b'-'
}

fn all_files(words: &[String]) -> bool
    ensures { result ≡ list_all is_file (word_bytes words.now) }
{
    for word in words {
        if !is_file(word.as_bytes()) {
            return false;
        }
    }
    true
}

fn are_files(words: &[String]) -> bool
    ensures { result ≡ are_files (word_bytes words.now) }
{
    !words.is_empty() && all_files(words)
}

fn answer_files<H: Shelf, K: Sink>(
    alloc: Global,
    names: &[String],
    shelf: &mut H,
    sink: &mut K,
) -> Result<LintStatus, Stop>
    requires shelf { H.faults shelf.old < 2 ^ 63 }
    requires loads { length (H.names shelf.old) < 2 ^ 63 }
    requires sink { K.faults sink.old < 2 ^ 63 }
    ensures delivers { OfContents (H.told shelf.old) (word_bytes names.now) (λ contents.
        Delivers result (answer_gathered (word_bytes names.now) (gathered_all (word_bytes names.now) (readable contents
        (broken_load (H.names shelf.old) (H.names shelf.new) (H.faults shelf.old) (H.faults shelf.new)))))
        (K.taken sink.old) (K.faults sink.old) (K.taken sink.new) (K.faults sink.new)) }
    ensures loads { TellsLoads (status_after result) (H.faults shelf.old) (H.faults shelf.new) }
    ensures last { H.faults shelf.old < H.faults shelf.new → Delivers result (unread (last_of (H.names shelf.new)))
        (K.taken sink.old) (K.faults sink.old) (K.taken sink.new) (K.faults sink.new) }
    ensures names { AskedFor (has_text (status_after result)) (word_bytes names.now) (H.names shelf.old) (H.names shelf.new) }
    ensures told { (n : List ℕ) → H.told shelf.new n ≡ H.told shelf.old n }
{
    match load_files(alloc, names, shelf) {
        Ok(joined) => say_report(alloc, names, &joined, sink),
        Err(why) => say_why(alloc, why, sink),
    }
}

/// Reports the faults and the slips of the text that the files make up together, in their order. The words name the
/// files. Takes the time of reading the text for each fault that is found, and memory in proportion to the text.
pub fn lint_run<H: Shelf, K: Sink>(
    alloc: Global,
    words: &[String],
    shelf: &mut H,
    sink: &mut K,
) -> LintStatus
    requires shelf { H.faults shelf.old < 2 ^ 63 }
    requires loads { length (H.names shelf.old) < 2 ^ 63 }
    requires sink { K.faults sink.old < 2 ^ 63 }
    ensures answers { OfContents (H.told shelf.old) (word_bytes words.now) (λ contents. Answers result
        (whole (word_bytes words.now) contents
        (broken_load (H.names shelf.old) (H.names shelf.new) (H.faults shelf.old) (H.faults shelf.new)))
        (K.taken sink.old) (K.faults sink.old) (K.taken sink.new) (K.faults sink.new)) }
    ensures loads { TellsLoads result (H.faults shelf.old) (H.faults shelf.new) }
    ensures last { H.faults shelf.old < H.faults shelf.new → Answers result (unread (last_of (H.names shelf.new)))
        (K.taken sink.old) (K.faults sink.old) (K.taken sink.new) (K.faults sink.new) }
    ensures names { AskedForWords result (word_bytes words.now) (H.names shelf.old) (H.names shelf.new) }
    ensures told { (n : List ℕ) → H.told shelf.new n ≡ H.told shelf.old n }
{
    if are_files(words) {
        let answered = answer_files(alloc, words, shelf, sink);
        return status_after(answered);
    }
    let answered = say_usage(alloc, sink);
    status_after(answered)
}
