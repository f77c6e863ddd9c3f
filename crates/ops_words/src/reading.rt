//! What the words ask for.
ghost use Rattle.std.specs.Prelude.{◌≡◌, Some, None, Err, IfOk};
ghost use Rattle.ops_jobs.specs.Words.{word_bytes};
ghost use Rattle.ops_jobs.specs.CommandLine.{job_by, job_of, workload_of};
ghost use Rattle.ops_jobs.specs.Laws.{KeepsLimits};

use crate::command::find_words;
use crate::faults::WordsFault;
use crate::files::files_of;
use crate::numbers::{number_of, options_of};
use ops_jobs::{FileList, GREATEST_SEED, GREATEST_SIZE, Job, Options};
use std::alloc::Global;

/// The workload of these options and names, where the names are a seed and a size and nothing else.
fn workload_of(options: Options, names: &[String]) -> Option<Job>
    ensures { result ≡ workload_of options (word_bytes names.now) }
{
    let [seed, size] = names else {
        return None;
    };
    let seed = number_of(seed, 0, GREATEST_SEED)?;
    let size = number_of(size, 1, GREATEST_SIZE)?;
    Some(Job::Gen {
        options,
        seed,
        size,
    })
}

/// The job of these flags, options and names.
fn job_by(
    generated: bool,
    network: bool,
    explained: bool,
    options: Options,
    names: FileList,
) -> Option<Job>
    ensures { result ≡ job_by generated network explained options names }
{
    match (generated, network, explained) {
        (false, false, false) => Some(Job::Run {
            options,
            files: names,
        }),
        (false, false, true) => Some(Job::Why {
            options,
            files: names,
        }),
        (false, true, false) => Some(Job::Net { files: names }),
        (true, false, false) => workload_of(options, names.as_slice()),
        _ => None,
    }
}

/// Reads the words of the command line, without the program's name. Any words may be answered as out of memory.
pub fn read_words(alloc: Global, words: &[String]) -> Result<Job, WordsFault>
    ensures fits { IfOk result (λ job. job_of (word_bytes words.now) ≡ Some job) }
    ensures limits { IfOk result KeepsLimits }
    ensures usage { result ≡ Err WordsFault.Usage → job_of (word_bytes words.now) ≡ None }
{
    let matches = find_words(alloc, words)?;
    let Some(options) = options_of(&matches, matches.get_flag("overlap")) else {
        return Err(WordsFault::Usage);
    };
    let names = files_of(alloc, &matches)?;
    match job_by(
        matches.get_flag("gen"),
        matches.get_flag("net"),
        matches.get_flag("why"),
        options,
        names,
    ) {
        Some(job) => Ok(job),
        None => Err(WordsFault::Usage),
    }
}
