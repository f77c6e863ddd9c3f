//! The top calls.
ghost use Rattle.std.specs.Prelude.{◌≡◌, ◌^◌, ◌<◌, ◌⊎◌, ℕ, List, None, length, nat_lt, true, false, IfSome};
ghost use Rattle.std.specs.Io.KnownBytes.{prepend_known};
ghost use Rattle.ops_jobs.specs.Words.{word_bytes};
ghost use Rattle.ops_top.specs.Whole.{whole, unread, usage, Answers, GoesByConflictSetsAlone, ask_for_run, ask_to_wait, words_fit, files_of};
ghost use Rattle.ops_top.specs.Quiet.{words_ask};
ghost use Rattle.ops_top.specs.Calls.{OfContents, OfInput, broken_load, last_of, all_told, TellsFailedWrite, TellsFailedRead, TellsWords, AskedForWords, RunsThrough, is_refused};
ghost use Rattle.ops_top.specs.Codes.{code_of};

use crate::jobs::{asks_to_wait, run_job, run_still};
use crate::saying::{say_unfit, status_after};
use ops_io::{Gate, Shelf, Sink, Source};
use ops_meaning::Status;
use ops_words::read_words;
use std::alloc::Global;
use std::sync::Wait;
use std::thread::Threads;

/// The exit status of the program.
pub fn code(status: &Status) -> u8
    ensures { result ≡ code_of status.now }
{
    match status {
        Status::Done => 0,
        Status::Refused { .. } => 1,
        Status::Usage => 2,
        Status::ActFault { .. } => 3,
        Status::Limit => 4,
        Status::ReadFault => 5,
        Status::WriteFault => 6,
        Status::OutOfMemory => 7,
    }
}

/// Runs the program on the words of its command line, or tells its network, without waiting for the turns of another
/// thread. (Rounds wait for the end of the threads that they start.) It answers None where the words ask for a session
/// over the engine of free workers or the stealing one, and has then done nothing. The input is read where the program asks for an atom. An
/// engine over a network passes the gate before each activation.
pub fn still_run<R: Threads + Clone + Drop + Send + Sync, H: Shelf, I: Source, K: Sink, G: Gate>(
    rt: &R,
    alloc: Global,
    words: &[String],
    shelf: &mut H,
    input: &mut I,
    sink: &mut K,
    gate: &G,
) -> Option<Status>
    requires shelf { H.faults shelf.old < 2 ^ 63 }
    requires loads { length (H.names shelf.old) < 2 ^ 63 }
    requires input { I.faults input.old < 2 ^ 63 }
    requires sink { K.faults sink.old < 2 ^ 63 }
    ensures none { result ≡ None → ask_to_wait (word_bytes words.now) ≡ true }
    ensures some { IfSome result (λ status. ask_to_wait (word_bytes words.now) ≡ true → status ≡ Status.OutOfMemory) }
    ensures nothing { result ≡ None → (shelf.new ≡ shelf.old) × (input.new ≡ input.old) × (sink.new ≡ sink.old) }
    ensures answers { IfSome result (λ status. OfContents (H.told shelf.old) (files_of (word_bytes words.now)) (λ contents.
        OfInput (I.left input.old) (I.left input.new) (nat_lt (I.faults input.old) (I.faults input.new)) (λ coming.
        Answers status (whole (word_bytes words.now) contents
        (broken_load (H.names shelf.old) (H.names shelf.new) (H.faults shelf.old) (H.faults shelf.new)) coming)
        (K.taken sink.old) (K.taken sink.new)))) }
    ensures sets { GoesByConflictSetsAlone (word_bytes words.now) }
    ensures write { IfSome result (λ status. TellsFailedWrite status (K.faults sink.old) (K.faults sink.new)) }
    ensures reads { IfSome result (λ status.
        TellsFailedRead status (H.faults shelf.old) (H.faults shelf.new) (I.faults input.old) (I.faults input.new)) }
    ensures unread { IfSome result (λ status. H.faults shelf.old < H.faults shelf.new
        → Answers status (unread (last_of (H.names shelf.new))) (K.taken sink.old) (K.taken sink.new)) }
    ensures words { IfSome result (λ status. TellsWords status (words_fit (word_bytes words.now))) }
    ensures usage { IfSome result (λ status. words_fit (word_bytes words.now) ≡ false
        → Answers status usage (K.taken sink.old) (K.taken sink.new)) }
    ensures names { IfSome result (λ status. AskedForWords status (word_bytes words.now) (words_fit (word_bytes words.now)) (H.names shelf.old) (H.names shelf.new)) }
    ensures unasked { words_fit (word_bytes words.now) ≡ false → H.faults shelf.new ≡ H.faults shelf.old }
    ensures told { (n : List ℕ) → H.told shelf.new n ≡ H.told shelf.old n }
    ensures input { (got : List ℕ) × (I.left input.old ≡ prepend_known got (I.left input.new)) }
    // These are answered of the same contents: where they ask for no atom, the input is left as it was.
    ensures quiet { IfSome result (λ status. OfContents (H.told shelf.old) (files_of (word_bytes words.now)) (λ contents.
        OfInput (I.left input.old) (I.left input.new) (nat_lt (I.faults input.old) (I.faults input.new)) (λ coming.
        Answers status (whole (word_bytes words.now) contents
        (broken_load (H.names shelf.old) (H.names shelf.new) (H.faults shelf.old) (H.faults shelf.new)) coming)
        (K.taken sink.old) (K.taken sink.new))
        × (words_ask (word_bytes words.now) contents
        (broken_load (H.names shelf.old) (H.names shelf.new) (H.faults shelf.old) (H.faults shelf.new)) ≡ false
        → input.new ≡ input.old))) }
    ensures untouched { ask_for_run (word_bytes words.now) ≡ false → input.new ≡ input.old }
    ensures refused { IfSome result (λ status. is_refused status ≡ true → input.new ≡ input.old) }
    ensures unloaded { H.faults shelf.old < H.faults shelf.new → input.new ≡ input.old }
    ensures complete { IfSome result (λ status.
        RunsThrough (word_bytes words.now) (all_told (H.told shelf.old) (files_of (word_bytes words.now))) (I.left input.old)
        → H.faults shelf.new ≡ H.faults shelf.old → I.faults input.new ≡ I.faults input.old → K.faults sink.new ≡ K.faults sink.old
        → (status ≡ Status.Done) ⊎ (status ≡ Status.OutOfMemory)) }
{
    match read_words(alloc, words) {
        Ok(job) => {
            if asks_to_wait(&job) {
                return None;
            }
            let outcome = run_still(rt, alloc, &job, shelf, input, sink, gate);
            Some(status_after(outcome))
        }
        Err(fault) => Some(status_after(say_unfit(alloc, fault, sink))),
    }
}

/// Runs the program on the words of its command line, or tells its network. The input is read where the program asks
/// for an atom. An engine over a network passes the gate before each activation.
pub fn ops_run<
    R: Threads + Wait + Clone + Drop + Send + Sync,
    H: Shelf,
    I: Source,
    K: Sink,
    G: Gate,
>(
    rt: &R,
    alloc: Global,
    words: &[String],
    shelf: &mut H,
    input: &mut I,
    sink: &mut K,
    gate: &G,
) -> Status
    requires shelf { H.faults shelf.old < 2 ^ 63 }
    requires loads { length (H.names shelf.old) < 2 ^ 63 }
    requires input { I.faults input.old < 2 ^ 63 }
    requires sink { K.faults sink.old < 2 ^ 63 }
    ensures answers { OfContents (H.told shelf.old) (files_of (word_bytes words.now)) (λ contents.
        OfInput (I.left input.old) (I.left input.new) (nat_lt (I.faults input.old) (I.faults input.new)) (λ coming.
        Answers result (whole (word_bytes words.now) contents
        (broken_load (H.names shelf.old) (H.names shelf.new) (H.faults shelf.old) (H.faults shelf.new)) coming)
        (K.taken sink.old) (K.taken sink.new))) }
    ensures sets { GoesByConflictSetsAlone (word_bytes words.now) }
    ensures write { TellsFailedWrite result (K.faults sink.old) (K.faults sink.new) }
    ensures reads { TellsFailedRead result (H.faults shelf.old) (H.faults shelf.new) (I.faults input.old) (I.faults input.new) }
    ensures unread { H.faults shelf.old < H.faults shelf.new
        → Answers result (unread (last_of (H.names shelf.new))) (K.taken sink.old) (K.taken sink.new) }
    ensures words { TellsWords result (words_fit (word_bytes words.now)) }
    ensures usage { words_fit (word_bytes words.now) ≡ false → Answers result usage (K.taken sink.old) (K.taken sink.new) }
    ensures names { AskedForWords result (word_bytes words.now) (words_fit (word_bytes words.now)) (H.names shelf.old) (H.names shelf.new) }
    ensures unasked { words_fit (word_bytes words.now) ≡ false → H.faults shelf.new ≡ H.faults shelf.old }
    ensures told { (n : List ℕ) → H.told shelf.new n ≡ H.told shelf.old n }
    ensures input { (got : List ℕ) × (I.left input.old ≡ prepend_known got (I.left input.new)) }
    // These are answered of the same contents: where they ask for no atom, the input is left as it was.
    ensures quiet { OfContents (H.told shelf.old) (files_of (word_bytes words.now)) (λ contents.
        OfInput (I.left input.old) (I.left input.new) (nat_lt (I.faults input.old) (I.faults input.new)) (λ coming.
        Answers result (whole (word_bytes words.now) contents
        (broken_load (H.names shelf.old) (H.names shelf.new) (H.faults shelf.old) (H.faults shelf.new)) coming)
        (K.taken sink.old) (K.taken sink.new))
        × (words_ask (word_bytes words.now) contents
        (broken_load (H.names shelf.old) (H.names shelf.new) (H.faults shelf.old) (H.faults shelf.new)) ≡ false
        → input.new ≡ input.old)) }
    ensures untouched { ask_for_run (word_bytes words.now) ≡ false → input.new ≡ input.old }
    ensures refused { is_refused result ≡ true → input.new ≡ input.old }
    ensures unloaded { H.faults shelf.old < H.faults shelf.new → input.new ≡ input.old }
    ensures complete { RunsThrough (word_bytes words.now) (all_told (H.told shelf.old) (files_of (word_bytes words.now))) (I.left input.old)
        → H.faults shelf.new ≡ H.faults shelf.old → I.faults input.new ≡ I.faults input.old → K.faults sink.new ≡ K.faults sink.old
        → (result ≡ Status.Done) ⊎ (result ≡ Status.OutOfMemory) }
{
    match read_words(alloc, words) {
        Ok(job) => {
            let answered = run_job(rt, alloc, &job, shelf, input, sink, gate);
            status_after(answered)
        }
        Err(fault) => status_after(say_unfit(alloc, fault, sink)),
    }
}
