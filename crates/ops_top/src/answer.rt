//! The answer to a program, over the matchers of a maker.
ghost use Rattle.std.specs.Prelude.{◌≡◌, ◌^◌, ◌<◌, length, IsTrue};
ghost use Rattle.ops_base.specs.Symbols.{is_held};
ghost use Rattle.ops_meaning.specs.Running.{session_of};
ghost use Rattle.act_phase.specs.Asking.{session_asks};
ghost use Rattle.act_phase.specs.Outcomes.{setting_of};
ghost use Rattle.cycle.specs.Settles.{Settles};
ghost use Rattle.ops_top.specs.Whole.{status_of, told};
ghost use Rattle.ops_top.specs.Answered.{IsAnswered, devices};
ghost use Rattle.why_lines.specs.Explained.{explained_if};

use crate::closing::put_closing;
use crate::engines::Plan;
use cycle::{Actor, Maker};
use live_rules::Live;
use ops_base::elements::Change;
use ops_base::endings::Ending;
use ops_base::memory::OutOfMemory;
use ops_base::programs::Program;
use ops_base::symbols::Names;
use ops_io::{Input, Out, Sink, Source, Stop};
use ops_meaning::Status;
use session::{SessionContext, run_session};
use std::alloc::Global;
use std::mem;
use work_store::Settled;

/// What settles the matchers of a session, and what does its right sides.
#[derive(Clone, Copy)]
pub(crate) struct Hands<'a, H, A> {
    pub(crate) settle: &'a H,
    pub(crate) actor: &'a A,
}

fn status_of(ending: Ending) -> Status
    ensures { result ≡ status_of ending }
{
    match ending {
        Ending::Done { .. } => Status::Done,
        Ending::Act {
            firing,
            rule,
            name: _,
            action,
            kind,
        } => Status::ActFault {
            firing,
            rule,
            action,
            kind,
        },
        Ending::Limit { .. } => Status::Limit,
        Ending::ReadFault => Status::ReadFault,
        Ending::WriteFault => Status::WriteFault,
        Ending::OutOfMemory => Status::OutOfMemory,
    }
}

/// Runs the session of the program, and writes the line after it. The symbols of the program keep their spellings in the
/// session, so that the line is written with the names as they were.
fn answer_live<
    B: Maker,
    H: Fn(B::M, &[Change]) -> Result<Settled<B::M>, OutOfMemory>,
    A: Actor<B::M, I, K>,
    I: Source,
    K: Sink,
>(
    alloc: Global,
    hands: &Hands<'_, H, A>,
    live: &mut Live,
    names: &mut Names,
    maker: &B,
    plan: Plan,
    source: &mut I,
    sink: &mut K,
) -> Result<Status, Stop>
    requires settles { Settles B.M.stored B.M.found B.M.stands_for (λ m cs. H.pre hands.now.settle.now m cs) (λ m cs r. H.post hands.now.settle.now m cs r) }
    requires able { A.able hands.now.actor.now }
    requires faults { K.faults sink.old < 2 ^ 63 }
    requires reads { I.faults source.old < 2 ^ 63 }
    requires some { 0 < length names.old.held }
    requires held { IsTrue (is_held (length names.old.held) live.old.program.classes live.old.program.rules live.old.program.templates live.old.program.commands) }
    ensures { IsAnswered result
        (λ coming. told plan.is_summed names.old
        (explained_if plan.is_explained live.old.program.classes
        (session_of (setting_of live.old.program 0) plan.options.limit live.old.program.commands names.old coming)))
        (session_asks live.old.program.rules live.old.program.templates live.old.program.commands) (source.new ≡ source.old)
        (devices (I.left source.old) (I.faults source.old) (K.taken sink.old) (K.faults sink.old))
        (devices (I.left source.new) (I.faults source.new) (K.taken sink.new) (K.faults sink.new)) }
{
    let mut input = Input::new(alloc)?;
    let mut out = Out::new(alloc)?;
    let context = SessionContext {
        alloc,
        maker,
        settle: hands.settle,
        actor: hands.actor,
        limit: plan.options.limit,
        is_explained: plan.is_explained,
    };
    let ending = run_session(&context, live, names, &mut input, source, &mut out, sink)?;
    put_closing(alloc, names, &ending, plan.is_summed, &mut out, sink)?;
    out.flush(sink)?;
    Ok(status_of(ending))
}

/// The answer to a program whose session runs over the matchers of this maker: one for the productions at its start, and
/// one more where a phase or a look at the conflict set follows productions that came or went. The program in force is
/// not given back piece by piece, since `ops` is about to end.
pub(crate) fn answer_over<
    B: Maker,
    H: Fn(B::M, &[Change]) -> Result<Settled<B::M>, OutOfMemory>,
    A: Actor<B::M, I, K>,
    I: Source,
    K: Sink,
>(
    alloc: Global,
    hands: &Hands<'_, H, A>,
    program: Program,
    names: &mut Names,
    maker: &B,
    plan: Plan,
    source: &mut I,
    sink: &mut K,
) -> Result<Status, Stop>
    requires settles { Settles B.M.stored B.M.found B.M.stands_for (λ m cs. H.pre hands.now.settle.now m cs) (λ m cs r. H.post hands.now.settle.now m cs r) }
    requires able { A.able hands.now.actor.now }
    requires faults { K.faults sink.old < 2 ^ 63 }
    requires reads { I.faults source.old < 2 ^ 63 }
    requires some { 0 < length names.old.held }
    requires held { IsTrue (is_held (length names.old.held) program.classes program.rules program.templates program.commands) }
    ensures { IsAnswered result
        (λ coming. told plan.is_summed names.old
        (explained_if plan.is_explained program.classes
        (session_of (setting_of program 0) plan.options.limit program.commands names.old coming)))
        (session_asks program.rules program.templates program.commands) (source.new ≡ source.old)
        (devices (I.left source.old) (I.faults source.old) (K.taken sink.old) (K.faults sink.old))
        (devices (I.left source.new) (I.faults source.new) (K.taken sink.new) (K.faults sink.new)) }
{
    let mut live = Live::new(alloc, program);
    let answered = answer_live(alloc, hands, &mut live, names, maker, plan, source, sink);
    mem::forget(live);
    answered
}
