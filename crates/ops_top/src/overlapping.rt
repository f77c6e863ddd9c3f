//! Sessions in which the match goes on while a right side waits for its input.
ghost use Rattle.std.specs.Prelude.{◌≡◌, ◌^◌, ◌<◌, length, IsTrue};
ghost use Rattle.ops_base.specs.Symbols.{is_held};
ghost use Rattle.ops_meaning.specs.Running.{session_of};
ghost use Rattle.act_phase.specs.Asking.{session_asks};
ghost use Rattle.act_phase.specs.Outcomes.{setting_of};
ghost use Rattle.cycle.specs.Settles.{Settles};
ghost use Rattle.feed_engine.specs.Lent.{ActsAs, ActsBy, MayAct, around, matching, streams};
ghost use Rattle.ops_top.specs.Whole.{told};
ghost use Rattle.ops_top.specs.Answered.{IsAnswered, devices};
ghost use Rattle.why_lines.specs.Explained.{explained_if};

use crate::answer::{Hands, answer_over};
use crate::engines::Plan;
use act_phase::{ActFault, Acted};
use cycle::Maker;
use feed_engine::{LentActor, act_overlapped};
use ops_base::elements::Change;
use ops_base::memory::OutOfMemory;
use ops_base::programs::Program;
use ops_base::rules::Inst;
use ops_base::symbols::Names;
use ops_io::{Input, Out, Sink, Source, Stop};
use ops_meaning::Status;
use std::alloc::Global;
use std::thread::Threads;
use work_store::Settled;

/// Does a right side, and settles a matcher of this maker beside it. A closure calls it, since the prover has no theorem
/// for a closure that passes on the drop of a type that a trait names, as `B::M`.
fn act_beside<
    R: Threads,
    B: Maker,
    H: Fn(B::M, &[Change]) -> Result<Settled<B::M>, OutOfMemory> + Sync,
    I: Source,
    K: Sink,
>(
    rt: &R,
    settle: &H,
    alloc: Global,
    program: &Program,
    names: &mut Names,
    matcher: B::M,
    inst: &Inst,
    watch: u8,
    input: &mut Input,
    source: &mut I,
    out: &mut Out,
    sink: &mut K,
) -> Result<(Acted, Settled<B::M>), ActFault>
where
    B::M: Send,
    requires settles { Settles B.M.stored B.M.found B.M.stands_for (λ m cs. H.pre settle.now m cs) (λ m cs r. H.post settle.now m cs r) }
    requires able { MayAct (matching B.M.stored B.M.found B.M.stands_for) (streams I.left I.faults K.taken K.faults) matcher
        (around names.old input.old source.old out.old sink.old) }
    ensures { ActsAs (matching B.M.stored B.M.found B.M.stands_for) (streams I.left I.faults K.taken K.faults) program.now matcher inst.now watch
        (around names.old input.old source.old out.old sink.old) (around names.new input.new source.new out.new sink.new) result }
{
    act_overlapped(
        rt, settle, alloc, program, names, matcher, inst, watch, input, source, out, sink,
    )
}

/// The answer to a program whose right sides are done by this closure.
fn answer_acted<
    B: Maker,
    H: Fn(B::M, &[Change]) -> Result<Settled<B::M>, OutOfMemory>,
    F: Fn(
        Global,
        &Program,
        &mut Names,
        B::M,
        &Inst,
        u8,
        &mut Input,
        &mut I,
        &mut Out,
        &mut K,
    ) -> Result<(Acted, Settled<B::M>), ActFault>,
    I: Source,
    K: Sink,
>(
    alloc: Global,
    settle: &H,
    act: &F,
    program: Program,
    names: &mut Names,
    maker: &B,
    plan: Plan,
    source: &mut I,
    sink: &mut K,
) -> Result<Status, Stop>
    requires settles { Settles B.M.stored B.M.found B.M.stands_for (λ m cs. H.pre settle.now m cs) (λ m cs r. H.post settle.now m cs r) }
    requires acts { ActsBy (matching B.M.stored B.M.found B.M.stands_for) (streams I.left I.faults K.taken K.faults)
        (λ alloc program names matcher inst watch input source out sink. F.pre act.now alloc program names matcher inst watch input source out sink)
        (λ alloc program names matcher inst watch input source out sink r names' input' source' out' sink'. F.post act.now alloc program names matcher inst watch input source out sink r names' input' source' out' sink') }
    requires faults { K.faults sink.old < 2 ^ 63 }
    requires reads { I.faults source.old < 2 ^ 63 }
    requires some { 0 < length names.old.held }
    requires held { IsTrue (is_held (length names.old.held) program.classes program.rules program.templates program.commands) }
    ensures { IsAnswered result
        (λ coming. told plan.is_summed names.old
        (explained_if plan.is_explained program.classes
        (session_of (setting_of program 0) plan.options.limit program.commands names.old coming)))
        (session_asks program.rules program.templates program.commands) (source.new ≡ source.old)
        (devices (I.left source.old) (I.faults source.old) (K.taken sink.old) (K.faults sink.old))
        (devices (I.left source.new) (I.faults source.new) (K.taken sink.new) (K.faults sink.new)) }
{
    let actor = LentActor::new(act);
    let hands = Hands {
        settle,
        actor: &actor,
    };
    answer_over(alloc, &hands, program, names, maker, plan, source, sink)
}

/// The answer to a program whose session runs over the matchers of this maker. What a right side changed before it waits
/// for input is settled meanwhile, on a thread of its own, if one can be made.
pub(crate) fn answer_overlapped<
    R: Threads,
    B: Maker,
    H: Fn(B::M, &[Change]) -> Result<Settled<B::M>, OutOfMemory> + Sync,
    I: Source,
    K: Sink,
>(
    rt: &R,
    alloc: Global,
    settle: &H,
    program: Program,
    names: &mut Names,
    maker: &B,
    plan: Plan,
    source: &mut I,
    sink: &mut K,
) -> Result<Status, Stop>
where
    B::M: Send,
    requires settles { Settles B.M.stored B.M.found B.M.stands_for (λ m cs. H.pre settle.now m cs) (λ m cs r. H.post settle.now m cs r) }
    requires faults { K.faults sink.old < 2 ^ 63 }
    requires reads { I.faults source.old < 2 ^ 63 }
    requires some { 0 < length names.old.held }
    requires held { IsTrue (is_held (length names.old.held) program.classes program.rules program.templates program.commands) }
    ensures { IsAnswered result
        (λ coming. told plan.is_summed names.old
        (explained_if plan.is_explained program.classes
        (session_of (setting_of program 0) plan.options.limit program.commands names.old coming)))
        (session_asks program.rules program.templates program.commands) (source.new ≡ source.old)
        (devices (I.left source.old) (I.faults source.old) (K.taken sink.old) (K.faults sink.old))
        (devices (I.left source.new) (I.faults source.new) (K.taken sink.new) (K.faults sink.new)) }
{
    let act = |alloc: Global, program: &Program, names: &mut Names, matcher: B::M, inst: &Inst, watch: u8, input: &mut Input, source: &mut I, out: &mut Out, sink: &mut K| -> Result<
        (Acted, Settled<B::M>),
        ActFault,
    >
        requires { Settles B.M.stored B.M.found B.M.stands_for (λ m cs. H.pre settle.now m cs) (λ m cs r. H.post settle.now m cs r)
            × MayAct (matching B.M.stored B.M.found B.M.stands_for) (streams I.left I.faults K.taken K.faults) matcher
            (around names.old input.old source.old out.old sink.old) }
        ensures { ActsAs (matching B.M.stored B.M.found B.M.stands_for) (streams I.left I.faults K.taken K.faults) program.now matcher inst.now watch
            (around names.old input.old source.old out.old sink.old) (around names.new input.new source.new out.new sink.new) result }
    {
        act_beside::<R, B, H, I, K>(
            rt, settle, alloc, program, names, matcher, inst, watch, input, source, out, sink,
        )
    };
    answer_acted(
        alloc, settle, &act, program, names, maker, plan, source, sink,
    )
}
