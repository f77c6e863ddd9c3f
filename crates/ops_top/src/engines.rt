//! The engines over which a session can run, and what settles each of them.
ghost use Rattle.std.specs.Prelude.{◌≡◌, ◌^◌, ◌<◌, List, length, false, IfOk, IsTrue};
ghost use Rattle.ops_base.specs.declared.rules.Rule.{Rule};
ghost use Rattle.ops_base.specs.Symbols.{is_held};
ghost use Rattle.ops_base.specs.WorkingMemory.{Lawful, done, last_after};
ghost use Rattle.ops_jobs.specs.Laws.{IsWithinLimits};
ghost use Rattle.ops_meaning.specs.Running.{session_of};
ghost use Rattle.act_phase.specs.Asking.{session_asks};
ghost use Rattle.act_phase.specs.Outcomes.{setting_of};
ghost use Rattle.work_store.specs.Settling.{IsSettled};
ghost use Rattle.cycle.specs.Settles.{Settles};
ghost use Rattle.net_base.specs.Network.{NetOf};
ghost use Rattle.step_core.specs.Found.{found_over};
ghost use Rattle.ops_top.specs.Whole.{may_wait, told};
ghost use Rattle.ops_top.specs.Answered.{IsAnswered, devices};
ghost use Rattle.why_lines.specs.Explained.{explained_if};

use crate::answer::{Hands, answer_over};
use crate::makers::{DirectMaker, FreeMaker, RoundsMaker, SerialMaker, StealMaker};
use crate::overlapping::answer_overlapped;
use cycle::{InTurn, Maker};
use free_engine::FreeEngine;
use ops_base::elements::Change;
use ops_base::memory::OutOfMemory;
use ops_base::programs::Program;
use ops_base::symbols::Names;
use ops_io::{Gate, Sink, Source, Stop};
use ops_jobs::{Engine, Options};
use ops_meaning::Status;
use rounds_engine::RoundsEngine;
use std::alloc::Global;
use std::sync::Wait;
use std::thread::Threads;
use steal_engine::StealEngine;
use work_store::{Matcher, Settled};

/// How a session is run.
#[derive(Clone, Copy)]
pub(crate) struct Plan {
    pub(crate) options: Options,
    /// Whether its productions are explained at its end.
    pub(crate) is_explained: bool,
    /// Whether it is summed up at its end.
    pub(crate) is_summed: bool,
}

/// The answer to a program whose session runs over the matchers of this maker, which this closure settles after each
/// right side, and with `--overlap` while it waits for its input, too.
fn answer_by<
    R: Threads,
    M: Matcher + Send,
    B: Maker<M = M>,
    H: Fn(M, &[Change]) -> Result<Settled<M>, OutOfMemory> + Sync,
    I: Source,
    K: Sink,
>(
    rt: &R,
    alloc: Global,
    settle: &H,
    program: Program,
    names: &mut Names,
    maker: &B,
    plan: Plan,
    source: &mut I,
    sink: &mut K,
) -> Result<Status, Stop>
    requires settles { Settles M.stored M.found M.stands_for (λ m cs. H.pre settle.now m cs) (λ m cs r. H.post settle.now m cs r) }
    requires faults { K.faults sink.old < 2 ^ 63 }
    requires reads { I.faults source.old < 2 ^ 63 }
    requires some { 0 < length names.old.held }
    requires held { IsTrue (is_held (length names.old.held) program.classes program.rules program.templates program.commands) }
    ensures { IsAnswered result
        (λ coming. told plan.is_summed names.old
        (explained_if plan.is_explained program.classes
        (session_of (setting_of program 0) plan.options.limit program.commands names.old coming)))
        (session_asks program.rules program.templates program.commands) (source.new ≡ source.old)
        (devices (I.left source.old) (I.faults source.old) (K.taken sink.old) (K.faults sink.old))
        (devices (I.left source.new) (I.faults source.new) (K.taken sink.new) (K.faults sink.new)) }
{
    if plan.options.overlap {
        return answer_overlapped(rt, alloc, settle, program, names, maker, plan, source, sink);
    }
    let actor = InTurn::new(settle);
    let hands = Hands {
        settle,
        actor: &actor,
    };
    answer_over(alloc, &hands, program, names, maker, plan, source, sink)
}

/// The answer to a program whose session runs over matchers that settle on one thread alone.
fn answer_alone<
    R: Threads + Sync,
    M: Matcher<Hand = ()> + Send,
    B: Maker<M = M>,
    I: Source,
    K: Sink,
>(
    rt: &R,
    alloc: Global,
    program: Program,
    names: &mut Names,
    maker: &B,
    plan: Plan,
    source: &mut I,
    sink: &mut K,
) -> Result<Status, Stop>
    requires faults { K.faults sink.old < 2 ^ 63 }
    requires reads { I.faults source.old < 2 ^ 63 }
    requires some { 0 < length names.old.held }
    requires held { IsTrue (is_held (length names.old.held) program.classes program.rules program.templates program.commands) }
    ensures { IsAnswered result
        (λ coming. told plan.is_summed names.old
        (explained_if plan.is_explained program.classes
        (session_of (setting_of program 0) plan.options.limit program.commands names.old coming)))
        (session_asks program.rules program.templates program.commands) (source.new ≡ source.old)
        (devices (I.left source.old) (I.faults source.old) (K.taken sink.old) (K.faults sink.old))
        (devices (I.left source.new) (I.faults source.new) (K.taken sink.new) (K.faults sink.new)) }
{
    let hand = |matcher: M, changes: &[Change]| -> Result<Settled<M>, OutOfMemory>
        requires { Lawful (M.stored matcher).elements (M.stored matcher).last changes.now }
        ensures elements { IfOk result (λ s. (M.stored s.matcher).elements ≡ done (M.stored matcher).elements changes.now) }
        ensures last { IfOk result (λ s. (M.stored s.matcher).last ≡ last_after (M.stored matcher).last changes.now) }
        ensures settled { IfOk result (λ s. IsSettled (M.found matcher) (M.found s.matcher) s.gone.items s.come.items) }
        ensures stands { IfOk result (λ s. (rules : List Rule) → M.stands_for matcher rules → M.stands_for s.matcher rules) }
    { matcher.settle(alloc, &mut (), changes) };
    answer_by(rt, alloc, &hand, program, names, maker, plan, source, sink)
}

/// The answer to a program whose session runs over the engine of rounds, which shares its rounds among threads.
fn answer_in_rounds<R: Threads + Sync, I: Source, K: Sink, G: Gate + Copy + Send>(
    rt: &R,
    alloc: Global,
    program: Program,
    names: &mut Names,
    plan: Plan,
    source: &mut I,
    sink: &mut K,
    gate: G,
) -> Result<Status, Stop>
    requires limits { IsWithinLimits plan.options }
    requires faults { K.faults sink.old < 2 ^ 63 }
    requires reads { I.faults source.old < 2 ^ 63 }
    requires some { 0 < length names.old.held }
    requires held { IsTrue (is_held (length names.old.held) program.classes program.rules program.templates program.commands) }
    ensures { IsAnswered result
        (λ coming. told plan.is_summed names.old
        (explained_if plan.is_explained program.classes
        (session_of (setting_of program 0) plan.options.limit program.commands names.old coming)))
        (session_asks program.rules program.templates program.commands) (source.new ≡ source.old)
        (devices (I.left source.old) (I.faults source.old) (K.taken sink.old) (K.faults sink.old))
        (devices (I.left source.new) (I.faults source.new) (K.taken sink.new) (K.faults sink.new)) }
{
    let maker = RoundsMaker {
        lines: plan.options.lines,
        workers: plan.options.workers,
        gate,
    };
    let hand = |rounds: RoundsEngine<G>, changes: &[Change]| -> Result<
        Settled<RoundsEngine<G>>,
        OutOfMemory,
    >
        requires { Lawful rounds.store.elements rounds.store.last changes.now }
        ensures elements { IfOk result (λ s. s.matcher.store.elements ≡ done rounds.store.elements changes.now) }
        ensures last { IfOk result (λ s. s.matcher.store.last ≡ last_after rounds.store.last changes.now) }
        ensures settled { IfOk result (λ s. IsSettled (found_over rounds.net.alphas rounds.net.nodes rounds.store.elements) (found_over s.matcher.net.alphas s.matcher.net.nodes s.matcher.store.elements) s.gone.items s.come.items) }
        ensures stands { IfOk result (λ s. (rules : List Rule) → NetOf rounds.net rules → NetOf s.matcher.net rules) }
    { rounds.settle_in_rounds(rt, alloc, changes) };
    answer_by(rt, alloc, &hand, program, names, &maker, plan, source, sink)
}

/// The answer to a program whose session runs over the engine of free workers, which wait for each other.
fn answer_freely<R: Threads + Wait + Sync, I: Source, K: Sink, G: Gate + Copy + Send>(
    rt: &R,
    alloc: Global,
    program: Program,
    names: &mut Names,
    plan: Plan,
    source: &mut I,
    sink: &mut K,
    gate: G,
) -> Result<Status, Stop>
    requires limits { IsWithinLimits plan.options }
    requires faults { K.faults sink.old < 2 ^ 63 }
    requires reads { I.faults source.old < 2 ^ 63 }
    requires some { 0 < length names.old.held }
    requires held { IsTrue (is_held (length names.old.held) program.classes program.rules program.templates program.commands) }
    ensures { IsAnswered result
        (λ coming. told plan.is_summed names.old
        (explained_if plan.is_explained program.classes
        (session_of (setting_of program 0) plan.options.limit program.commands names.old coming)))
        (session_asks program.rules program.templates program.commands) (source.new ≡ source.old)
        (devices (I.left source.old) (I.faults source.old) (K.taken sink.old) (K.faults sink.old))
        (devices (I.left source.new) (I.faults source.new) (K.taken sink.new) (K.faults sink.new)) }
{
    let maker = FreeMaker {
        lines: plan.options.lines,
        workers: plan.options.workers,
        gate,
    };
    let hand = |free: FreeEngine<G>, changes: &[Change]| -> Result<
        Settled<FreeEngine<G>>,
        OutOfMemory,
    >
        requires { Lawful free.store.elements free.store.last changes.now }
        ensures elements { IfOk result (λ s. s.matcher.store.elements ≡ done free.store.elements changes.now) }
        ensures last { IfOk result (λ s. s.matcher.store.last ≡ last_after free.store.last changes.now) }
        ensures settled { IfOk result (λ s. IsSettled (found_over free.net.alphas free.net.nodes free.store.elements) (found_over s.matcher.net.alphas s.matcher.net.nodes s.matcher.store.elements) s.gone.items s.come.items) }
        ensures stands { IfOk result (λ s. (rules : List Rule) → NetOf free.net rules → NetOf s.matcher.net rules) }
    { free.settle_freely(rt, alloc, changes) };
    answer_by(rt, alloc, &hand, program, names, &maker, plan, source, sink)
}

/// The answer to a program whose session runs over the stealing engine, whose workers wait for each other.
fn answer_by_stealing<R: Threads + Wait + Sync, I: Source, K: Sink, G: Gate + Copy + Send>(
    rt: &R,
    alloc: Global,
    program: Program,
    names: &mut Names,
    plan: Plan,
    source: &mut I,
    sink: &mut K,
    gate: G,
) -> Result<Status, Stop>
    requires limits { IsWithinLimits plan.options }
    requires faults { K.faults sink.old < 2 ^ 63 }
    requires reads { I.faults source.old < 2 ^ 63 }
    requires some { 0 < length names.old.held }
    requires held { IsTrue (is_held (length names.old.held) program.classes program.rules program.templates program.commands) }
    ensures { IsAnswered result
        (λ coming. told plan.is_summed names.old
        (explained_if plan.is_explained program.classes
        (session_of (setting_of program 0) plan.options.limit program.commands names.old coming)))
        (session_asks program.rules program.templates program.commands) (source.new ≡ source.old)
        (devices (I.left source.old) (I.faults source.old) (K.taken sink.old) (K.faults sink.old))
        (devices (I.left source.new) (I.faults source.new) (K.taken sink.new) (K.faults sink.new)) }
{
    let maker = StealMaker {
        lines: plan.options.lines,
        workers: plan.options.workers,
        gate,
    };
    let hand = |steal: StealEngine<G>, changes: &[Change]| -> Result<
        Settled<StealEngine<G>>,
        OutOfMemory,
    >
        requires { Lawful steal.store.elements steal.store.last changes.now }
        ensures elements { IfOk result (λ s. s.matcher.store.elements ≡ done steal.store.elements changes.now) }
        ensures last { IfOk result (λ s. s.matcher.store.last ≡ last_after steal.store.last changes.now) }
        ensures settled { IfOk result (λ s. IsSettled (found_over steal.net.alphas steal.net.nodes steal.store.elements) (found_over s.matcher.net.alphas s.matcher.net.nodes s.matcher.store.elements) s.gone.items s.come.items) }
        ensures stands { IfOk result (λ s. (rules : List Rule) → NetOf steal.net rules → NetOf s.matcher.net rules) }
    { steal.settle_shared(rt, alloc, changes) };
    answer_by(rt, alloc, &hand, program, names, &maker, plan, source, sink)
}

/// The answer to a program whose session runs over the engine that the plan asks for, which waits for no turn of another
/// thread.
pub(crate) fn answer_still<R: Threads + Sync, I: Source, K: Sink, G: Gate + Copy + Send>(
    rt: &R,
    alloc: Global,
    program: Program,
    names: &mut Names,
    plan: Plan,
    source: &mut I,
    sink: &mut K,
    gate: G,
) -> Result<Status, Stop>
    requires still { may_wait plan.options.engine ≡ false }
    requires limits { IsWithinLimits plan.options }
    requires faults { K.faults sink.old < 2 ^ 63 }
    requires reads { I.faults source.old < 2 ^ 63 }
    requires some { 0 < length names.old.held }
    requires held { IsTrue (is_held (length names.old.held) program.classes program.rules program.templates program.commands) }
    ensures { IsAnswered result
        (λ coming. told plan.is_summed names.old
        (explained_if plan.is_explained program.classes
        (session_of (setting_of program 0) plan.options.limit program.commands names.old coming)))
        (session_asks program.rules program.templates program.commands) (source.new ≡ source.old)
        (devices (I.left source.old) (I.faults source.old) (K.taken sink.old) (K.faults sink.old))
        (devices (I.left source.new) (I.faults source.new) (K.taken sink.new) (K.faults sink.new)) }
{
    match plan.options.engine {
        Engine::Direct => {
            answer_alone(rt, alloc, program, names, &DirectMaker, plan, source, sink)
        }
        Engine::Serial => {
            let lines = plan.options.lines;
            let maker = SerialMaker { lines, gate };
            answer_alone(rt, alloc, program, names, &maker, plan, source, sink)
        }
        Engine::Rounds => { answer_in_rounds(rt, alloc, program, names, plan, source, sink, gate) }
        Engine::Free | Engine::Steal => unreachable!(),
    }
}

/// The answer to a program whose session runs over the engine that the plan asks for.
pub(crate) fn answer_program<R: Threads + Wait + Sync, I: Source, K: Sink, G: Gate + Copy + Send>(
    rt: &R,
    alloc: Global,
    program: Program,
    names: &mut Names,
    plan: Plan,
    source: &mut I,
    sink: &mut K,
    gate: G,
) -> Result<Status, Stop>
    requires limits { IsWithinLimits plan.options }
    requires faults { K.faults sink.old < 2 ^ 63 }
    requires reads { I.faults source.old < 2 ^ 63 }
    requires some { 0 < length names.old.held }
    requires held { IsTrue (is_held (length names.old.held) program.classes program.rules program.templates program.commands) }
    ensures { IsAnswered result
        (λ coming. told plan.is_summed names.old
        (explained_if plan.is_explained program.classes
        (session_of (setting_of program 0) plan.options.limit program.commands names.old coming)))
        (session_asks program.rules program.templates program.commands) (source.new ≡ source.old)
        (devices (I.left source.old) (I.faults source.old) (K.taken sink.old) (K.faults sink.old))
        (devices (I.left source.new) (I.faults source.new) (K.taken sink.new) (K.faults sink.new)) }
{
    match plan.options.engine {
        Engine::Free => answer_freely(rt, alloc, program, names, plan, source, sink, gate),
        Engine::Steal => { answer_by_stealing(rt, alloc, program, names, plan, source, sink, gate) }
        Engine::Direct | Engine::Serial | Engine::Rounds => {
            answer_still(rt, alloc, program, names, plan, source, sink, gate)
        }
    }
}
