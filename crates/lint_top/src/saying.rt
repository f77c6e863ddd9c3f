//! Writing a reply.
ghost use Rattle.std.specs.Prelude.{◌≡◌, ◌^◌, ◌<◌, ℕ, List, IfOk};
ghost use Rattle.ops_jobs.specs.Words.{word_bytes};
ghost use Rattle.joined_files.specs.Files.{Gathered};
ghost use Rattle.joined_files.specs.Loads.{ComesTo};
ghost use Rattle.lint_top.specs.Whole.{answer_gathered, overlong, overlong_line, unread, unread_line, usage};
ghost use Rattle.lint_top.specs.Report.{report};
ghost use Rattle.lint_top.specs.Calls.{Delivers, status_after};

use crate::lines::{Files, add_line, error_text};
use crate::report::report;
use crate::statuses::LintStatus;
use joined_files::{FilesFault, JoinedText};
use ops_base::endings::Fault;
use ops_base::memory::OutOfMemory;
use ops_io::{Out, Sink, Stop};
use std::alloc::Global;

/// Writes these bytes, and returns the status.
fn say<K: Sink>(
    alloc: Global,
    bytes: &[u8],
    status: LintStatus,
    sink: &mut K,
) -> Result<LintStatus, Stop>
    requires faults { K.faults sink.old < 2 ^ 63 }
    ensures delivers { Delivers result (record { bytes = bytes.now; status = status })
        (K.taken sink.old) (K.faults sink.old) (K.taken sink.new) (K.faults sink.new) }
{
    let mut out = Out::new(alloc)?;
    out.put(sink, bytes)?;
    out.flush(sink)?;
    Ok(status)
}

/// Replies to words that name no files.
pub(crate) fn say_usage<K: Sink>(alloc: Global, sink: &mut K) -> Result<LintStatus, Stop>
    requires faults { K.faults sink.old < 2 ^ 63 }
    ensures delivers { Delivers result usage (K.taken sink.old) (K.faults sink.old) (K.taken sink.new) (K.faults sink.new) }
{
    say(alloc, b"usage: ops-lint FILE..\n", LintStatus::Usage, sink)
}

/// Replies to the joined text of files.
pub(crate) fn say_report<K: Sink>(
    alloc: Global,
    names: &[String],
    joined: &JoinedText,
    sink: &mut K,
) -> Result<LintStatus, Stop>
    requires faults { K.faults sink.old < 2 ^ 63 }
    ensures delivers { Delivers result (report (word_bytes names.now) joined.now.text.items joined.now.parts.items)
        (K.taken sink.old) (K.faults sink.old) (K.taken sink.new) (K.faults sink.new) }
{
    let files = Files {
        names,
        text: &joined.text,
        parts: &joined.parts,
    };
    let found = report(alloc, files)?;
    say(alloc, &found.bytes, found.status, sink)
}

fn unread_line(alloc: Global, name: &[u8]) -> Result<Vec<u8>, OutOfMemory>
    ensures { IfOk result (λ v. v.items ≡ unread_line name.now) }
{
    let mut line = Vec::from_slice(alloc, b"ops: cannot read ")?;
    line.extend_from_slice(name)?;
    line.push(b'\n')?;
    Ok(line)
}

fn overlong_line(alloc: Global, name: &[u8]) -> Result<Vec<u8>, OutOfMemory>
    ensures { IfOk result (λ v. v.items ≡ overlong_line name.now) }
{
    let what = error_text(alloc, Fault::TooLong)?;
    let mut line = Vec::new(alloc);
    add_line(&mut line, name, 1, 1, &what)?;
    Ok(line)
}

fn say_unread<K: Sink>(alloc: Global, name: &str, sink: &mut K) -> Result<LintStatus, Stop>
    requires faults { K.faults sink.old < 2 ^ 63 }
    ensures delivers { Delivers result (unread name.now) (K.taken sink.old) (K.faults sink.old) (K.taken sink.new) (K.faults sink.new) }
{
    let line = unread_line(alloc, name.as_bytes())?;
    say(alloc, &line, LintStatus::Unread, sink)
}

fn say_overlong<K: Sink>(alloc: Global, name: &str, sink: &mut K) -> Result<LintStatus, Stop>
    requires faults { K.faults sink.old < 2 ^ 63 }
    ensures delivers { Delivers result (overlong name.now) (K.taken sink.old) (K.faults sink.old) (K.taken sink.new) (K.faults sink.new) }
{
    let line = overlong_line(alloc, name.as_bytes())?;
    say(alloc, &line, LintStatus::Faulty, sink)
}

/// Replies to files that do not make up a text.
pub(crate) fn say_why<K: Sink>(
    alloc: Global,
    why: FilesFault<'_>,
    sink: &mut K,
) -> Result<LintStatus, Stop>
    requires faults { K.faults sink.old < 2 ^ 63 }
    ensures delivers { (names : List (List ℕ)) (found : Gathered) → ComesTo why.entry found
        → Delivers result (answer_gathered names found) (K.taken sink.old) (K.faults sink.old) (K.taken sink.new) (K.faults sink.new) }
{
    match why {
        FilesFault::Unread(name) => say_unread(alloc, name, sink),
        FilesFault::TooLong(name) => say_overlong(alloc, name, sink),
        FilesFault::OutOfMemory => Err(Stop::OutOfMemory),
    }
}

/// The status of a call that may have given up.
pub(crate) fn status_after(told: Result<LintStatus, Stop>) -> LintStatus
    ensures { result ≡ status_after told }
{
    match told {
        Ok(status) => status,
        Err(Stop::Write) => LintStatus::Unwritten,
        Err(Stop::OutOfMemory) => LintStatus::OutOfMemory,
    }
}
