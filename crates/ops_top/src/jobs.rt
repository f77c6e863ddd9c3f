//! A job of the command line: its program, and the answer to it.
ghost use Rattle.std.specs.Prelude.{◌≡◌, ◌^◌, ◌<◌, ℕ, List, Some, None, length, true, false, Ok, IfOk, IfErr, IfSome, is_ok, IsTrue};
ghost use Rattle.ops_base.specs.Symbols.{is_held};
ghost use Rattle.ops_grammar.specs.Reads.{reads};
ghost use Rattle.ops_io.specs.Coming.{Coming};
ghost use Rattle.ops_jobs.specs.Laws.{KeepsLimits, IsWithinLimits};
ghost use Rattle.ops_top.specs.Whole.{Joined, Reply, answer_gathered, files_in, gathered_for, is_run, is_waiting_run, may_wait, readable};
ghost use Rattle.ops_top.specs.Calls.{OfContents, AskedFor, broken_load};
ghost use Rattle.ops_top.specs.Loads.{ComesTo, CountsUnread, IsOfLast};
ghost use Rattle.ops_top.specs.Told.{Delivers};
ghost use Rattle.ops_top.specs.Answered.{devices};
ghost use Rattle.ops_top.specs.Jobs.{IsReplyTo, had_text, CountsLoads, IsOfLastLoad, IsPlanOf, IsRun, shelved};

use crate::engines::{Plan, answer_program, answer_still};
use crate::files::{FilesFault, load_files};
use crate::saying::{refuse, say_network, say_unread};
use ops_base::endings::Fault;
use ops_base::memory::OutOfMemory;
use ops_base::programs::Program;
use ops_base::symbols::Names;
use ops_check::{ProgramFault, read_program};
use ops_gen::gen_text;
use ops_io::{Gate, Shelf, Sink, Source, Stop};
use ops_jobs::{Engine, Job};
use ops_meaning::Status;
use std::alloc::Global;
use std::sync::Wait;
use std::thread::Threads;

/// Why a job has no program.
#[derive(Clone, Copy)]
pub(crate) enum NoProgram<'n> {
    /// Its files are no text.
    Files(FilesFault<'n>),
    /// Its text is no program.
    Text(ProgramFault),
}

/// Whether the workers of this engine wait for each other.
fn may_wait(engine: Engine) -> bool
    ensures { result ≡ may_wait engine }
{
    match engine {
        Engine::Free | Engine::Steal => true,
        Engine::Direct | Engine::Serial | Engine::Rounds => false,
    }
}

/// Whether a job asks for a session over the engine of free workers or the stealing one, whose workers wait for each
/// other.
pub(crate) fn asks_to_wait(job: &Job) -> bool
    ensures { result ≡ is_waiting_run job.now }
{
    match job {
        Job::Run { options, .. } => may_wait(options.engine),
        Job::Why { options, .. } => may_wait(options.engine),
        Job::Net { .. } => false,
        Job::Gen { options, .. } => may_wait(options.engine),
    }
}

/// The text of a job: that of its files, for which the shelf is asked, or that of its workload. It takes memory in
/// proportion to the text.
fn text_of_job<'n, H: Shelf>(
    alloc: Global,
    job: &'n Job,
    shelf: &mut H,
) -> Result<Vec<u8>, FilesFault<'n>>
    requires limits { KeepsLimits job.now }
    requires shelf { H.faults shelf.old < 2 ^ 63 }
    requires loads { length (H.names shelf.old) < 2 ^ 63 }
    ensures text { IfOk result (λ text. OfContents (H.told shelf.old) (files_in job.now) (λ contents.
        gathered_for job.now (readable contents
        (broken_load (H.names shelf.old) (H.names shelf.new) (H.faults shelf.old) (H.faults shelf.new))) ≡ Joined text.items)) }
    ensures fault { IfErr result (λ why. OfContents (H.told shelf.old) (files_in job.now) (λ contents. ComesTo why
        (gathered_for job.now (readable contents
        (broken_load (H.names shelf.old) (H.names shelf.new) (H.faults shelf.old) (H.faults shelf.new)))))) }
    ensures last { IfErr result (λ why. IsOfLast why (H.names shelf.new)) }
    ensures cause { CountsUnread result (H.faults shelf.old) (H.faults shelf.new) }
    ensures names { AskedFor (is_ok result) (files_in job.now) (H.names shelf.old) (H.names shelf.new) }
    ensures told { (n : List ℕ) → H.told shelf.new n ≡ H.told shelf.old n }
{
    match job {
        Job::Run { files, .. } => load_files(alloc, files.as_slice(), shelf),
        Job::Why { files, .. } => load_files(alloc, files.as_slice(), shelf),
        Job::Net { files } => load_files(alloc, files.as_slice(), shelf),
        Job::Gen { seed, size, .. } => match gen_text(alloc, *seed, *size) {
            Ok(text) => Ok(text),
            Err(OutOfMemory) => Err(FilesFault::OutOfMemory),
        },
    }
}

/// The program of a job and the names in it. Only the shelf is asked.
fn program_of_job<'n, H: Shelf>(
    alloc: Global,
    job: &'n Job,
    shelf: &mut H,
) -> Result<(Program, Names), NoProgram<'n>>
    requires limits { KeepsLimits job.now }
    requires shelf { H.faults shelf.old < 2 ^ 63 }
    requires loads { length (H.names shelf.old) < 2 ^ 63 }
    ensures text { IfOk result (λ r. OfContents (H.told shelf.old) (files_in job.now) (λ contents.
        gathered_for job.now (readable contents
        (broken_load (H.names shelf.old) (H.names shelf.new) (H.faults shelf.old) (H.faults shelf.new))) ≡ Joined r.0.text)) }
    ensures read { IfOk result (λ r. reads r.0.text ≡ Ok (record { classes = r.0.classes; rules = r.0.rules; templates = r.0.templates; commands = r.0.commands; names = r.1 })) }
    ensures held { IfOk result (λ r. IsTrue (is_held (length r.1.held) r.0.classes r.0.rules r.0.templates r.0.commands)) }
    ensures fault { IfErr result (λ why. OfContents (H.told shelf.old) (files_in job.now) (λ contents. (coming : Coming) → IsReplyTo why
        (answer_gathered job.now coming (gathered_for job.now (readable contents
        (broken_load (H.names shelf.old) (H.names shelf.new) (H.faults shelf.old) (H.faults shelf.new))))))) }
    ensures last { IfErr result (λ why. IsOfLastLoad why (H.names shelf.new)) }
    ensures cause { CountsLoads result (H.faults shelf.old) (H.faults shelf.new) }
    ensures names { AskedFor (had_text result) (files_in job.now) (H.names shelf.old) (H.names shelf.new) }
    ensures told { (n : List ℕ) → H.told shelf.new n ≡ H.told shelf.old n }
{
    match text_of_job(alloc, job, shelf) {
        Ok(text) => match read_program(alloc, text) {
            Ok(read) => Ok(read),
            Err(fault) => Err(NoProgram::Text(fault)),
        },
        Err(fault) => Err(NoProgram::Files(fault)),
    }
}

/// Answers a job that has no program.
fn say_why<K: Sink>(alloc: Global, why: NoProgram<'_>, sink: &mut K) -> Result<Status, Stop>
    requires faults { K.faults sink.old < 2 ^ 63 }
    ensures { (reply : Reply) → IsReplyTo why.entry reply
        → Delivers result reply (K.taken sink.old) (K.faults sink.old) (K.taken sink.new) (K.faults sink.new) }
{
    match why {
        NoProgram::Files(FilesFault::Unread(name)) => say_unread(alloc, name.as_bytes(), sink),
        NoProgram::Files(FilesFault::TooLong) => refuse(alloc, Fault::TooLong, 1, 1, sink),
        NoProgram::Files(FilesFault::OutOfMemory) => Err(Stop::OutOfMemory),
        NoProgram::Text(
            ProgramFault::At {
                fault,
                line,
                column,
            },
        ) => refuse(alloc, fault, line, column, sink),
        NoProgram::Text(ProgramFault::OutOfMemory) => Err(Stop::OutOfMemory),
    }
}

/// How the session of a job is run; None where the network is asked for.
fn plan_of(job: &Job) -> Option<Plan>
    requires limits { KeepsLimits job.now }
    ensures plan { IfSome result (IsPlanOf job.now) }
    ensures limits { IfSome result (λ plan. IsWithinLimits plan.options) }
    ensures none { result ≡ None → is_run job.now ≡ false }
{
    match job {
        Job::Run { options, .. } => Some(Plan {
            options: *options,
            is_explained: false,
            is_summed: false,
        }),
        Job::Why { options, .. } => Some(Plan {
            options: *options,
            is_explained: true,
            is_summed: false,
        }),
        Job::Net { .. } => None,
        Job::Gen { options, .. } => Some(Plan {
            options: *options,
            is_explained: false,
            is_summed: true,
        }),
    }
}

/// Runs a job whose engine waits for no turn of another thread.
pub(crate) fn run_still<R: Threads + Sync, H: Shelf, I: Source, K: Sink, G: Gate + Copy + Send>(
    rt: &R,
    alloc: Global,
    job: &Job,
    shelf: &mut H,
    input: &mut I,
    sink: &mut K,
    gate: G,
) -> Result<Status, Stop>
    requires still { is_waiting_run job.now ≡ false }
    requires limits { KeepsLimits job.now }
    requires shelf { H.faults shelf.old < 2 ^ 63 }
    requires loads { length (H.names shelf.old) < 2 ^ 63 }
    requires reads { I.faults input.old < 2 ^ 63 }
    requires faults { K.faults sink.old < 2 ^ 63 }
    ensures runs { IsRun (Some job.now) result (H.told shelf.old) (input.new ≡ input.old)
        (shelved (H.names shelf.old) (H.faults shelf.old)) (shelved (H.names shelf.new) (H.faults shelf.new))
        (devices (I.left input.old) (I.faults input.old) (K.taken sink.old) (K.faults sink.old))
        (devices (I.left input.new) (I.faults input.new) (K.taken sink.new) (K.faults sink.new)) }
    ensures told { (n : List ℕ) → H.told shelf.new n ≡ H.told shelf.old n }
{
    match program_of_job(alloc, job, shelf) {
        Ok((program, mut names)) => match plan_of(job) {
            Some(plan) => answer_still(rt, alloc, program, &mut names, plan, input, sink, gate),
            None => say_network(alloc, &program, sink),
        },
        Err(why) => say_why(alloc, why, sink),
    }
}

/// Runs a job over any engine.
pub(crate) fn run_job<
    R: Threads + Wait + Sync,
    H: Shelf,
    I: Source,
    K: Sink,
    G: Gate + Copy + Send,
>(
    rt: &R,
    alloc: Global,
    job: &Job,
    shelf: &mut H,
    input: &mut I,
    sink: &mut K,
    gate: G,
) -> Result<Status, Stop>
    requires limits { KeepsLimits job.now }
    requires shelf { H.faults shelf.old < 2 ^ 63 }
    requires loads { length (H.names shelf.old) < 2 ^ 63 }
    requires reads { I.faults input.old < 2 ^ 63 }
    requires faults { K.faults sink.old < 2 ^ 63 }
    ensures runs { IsRun (Some job.now) result (H.told shelf.old) (input.new ≡ input.old)
        (shelved (H.names shelf.old) (H.faults shelf.old)) (shelved (H.names shelf.new) (H.faults shelf.new))
        (devices (I.left input.old) (I.faults input.old) (K.taken sink.old) (K.faults sink.old))
        (devices (I.left input.new) (I.faults input.new) (K.taken sink.new) (K.faults sink.new)) }
    ensures told { (n : List ℕ) → H.told shelf.new n ≡ H.told shelf.old n }
{
    match program_of_job(alloc, job, shelf) {
        Ok((program, mut names)) => match plan_of(job) {
            Some(plan) => answer_program(rt, alloc, program, &mut names, plan, input, sink, gate),
            None => say_network(alloc, &program, sink),
        },
        Err(why) => say_why(alloc, why, sink),
    }
}
