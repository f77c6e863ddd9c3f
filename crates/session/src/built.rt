//! The productions that a firing built. They are added after its phase, and the state follows them before the next turn.
ghost use Rattle.std.specs.Prelude.{◌≡◌, ℕ, List, [], Some, None, false, IfOk, OnOk};
ghost use Rattle.ops_base.specs.declared.rules.Rule.{Rule};
ghost use Rattle.ops_base.specs.Names.{Spellings};
ghost use Rattle.ops_io.specs.Coming.{Coming};
ghost use Rattle.ops_meaning.specs.Kept.{AreFilledFrom};
ghost use Rattle.ops_meaning.specs.Running.{all_added, place_after};
ghost use Rattle.act_phase.specs.Asking.{program_asks};
ghost use Rattle.cycle.specs.Settles.{Settles};
ghost use Rattle.live_rules.specs.Moves.{IsWith};
ghost use Rattle.session.specs.Courses.{IsOf};
ghost use Rattle.session.specs.Trailing.{IsNamedFrom, IsTrailed, IsUndoable, meant_with, ready_with};

use crate::context::{RunContext, SessionContext};
use crate::ready::settle_all;
use crate::session::Session;
use crate::undoable::{Undoable, add_late};
use cycle::Maker;
use live_rules::{Live, place_beside};
use ops_base::elements::Change;
use ops_base::list::Listed;
use ops_base::memory::OutOfMemory;
use ops_base::rules::Rule;
use std::alloc::Global;
use work_store::{Matcher, Settled};

/// The session as it stands between two commands, after a run that has come this far.
pub(crate) fn after_run<M: Matcher>(undoable: Undoable<M>) -> Undoable<M>
    requires none { undoable.session.pending ≡ [] }
    requires current { undoable.session.moved ≡ None }
    ensures meant { (rules : List Rule) (n : Spellings) (c : Coming) → ready_with M.stored rules undoable n c ≡ meant_with M.stored rules result n c }
    ensures undoable { (rules : List Rule) → IsOf M.stands_for rules undoable.session.state → IsTrailed M.stored rules undoable
        → IsUndoable M.stored M.stands_for rules result }
    ensures trail { result.trail ≡ undoable.trail }
{
    let Undoable { session, trail } = undoable;
    let last_tag = session.state.last_tag();
    let session = Session {
        last_tag,
        ran: true,
        ..session
    };
    Undoable { session, trail }
}

/// Adds the productions that a firing built, in their order, and returns the new number of the production that fired. No
/// firing before can be undone.
fn add_all<M: Matcher>(
    alloc: Global,
    live: &mut Live,
    undoable: Undoable<M>,
    built: Listed<Rule>,
    fired: usize,
) -> Result<(Undoable<M>, Option<usize>), OutOfMemory>
    requires undoable { IsUndoable M.stored M.stands_for live.old.program.rules undoable }
    requires filled { AreFilledFrom live.old.program.templates built }
    ensures meant { IfOk result (λ r. (n : Spellings) (c : Coming) → meant_with M.stored live.new.program.rules r.0 n c
        ≡ all_added built (meant_with M.stored live.old.program.rules undoable n c)) }
    ensures place { IfOk result (λ r. r.1 ≡ place_after live.old.program.rules built (Some fired)) }
    ensures undoable { IfOk result (λ r. IsUndoable M.stored M.stands_for live.new.program.rules r.0) }
    ensures named { IfOk result (λ r. (least : ℕ) (n : Spellings) → IsNamedFrom least n undoable.trail → IsNamedFrom least n r.0.trail) }
    ensures program { OnOk result (IsWith live.new.program.rules live.old.program.commands live.old.program live.new.program) }
    ensures quiet { OnOk result (program_asks live.old.program.rules ≡ false → program_asks live.old.program.templates ≡ false
        → program_asks live.new.program.rules ≡ false) }
{
    let mut undoable = undoable;
    let mut place = Some(fired);
    for rule in built.into_vec() {
        place = place_beside(live.program.rules.as_slice(), &rule, place);
        undoable = add_late(alloc, live, undoable, rule)?;
    }
    Ok((undoable, place))
}

/// After the phase of a firing that built productions: adds them, and makes the state follow them. If none of them took
/// the place of another, the matcher grows by them. Otherwise its cost is that of one new matcher, however many were built.
pub(crate) fn follow_built<
    B: Maker,
    H: Fn(B::M, &[Change]) -> Result<Settled<B::M>, OutOfMemory>,
    A,
>(
    context: &SessionContext<'_, B, H, A>,
    live: &mut Live,
    undoable: Undoable<B::M>,
    built: Listed<Rule>,
    fired: usize,
) -> Result<(Undoable<B::M>, Option<usize>), OutOfMemory>
    requires settles { Settles B.M.stored B.M.found B.M.stands_for (λ m cs. H.pre context.now.settle.now m cs) (λ m cs r. H.post context.now.settle.now m cs r) }
    requires none { undoable.session.pending ≡ [] }
    requires current { undoable.session.moved ≡ None }
    requires of { IsOf B.M.stands_for live.old.program.rules undoable.session.state }
    requires trail { IsTrailed B.M.stored live.old.program.rules undoable }
    requires filled { AreFilledFrom live.old.program.templates built }
    ensures meant { IfOk result (λ r. (n : Spellings) (c : Coming) → ready_with B.M.stored live.new.program.rules r.0 n c
        ≡ all_added built (ready_with B.M.stored live.old.program.rules undoable n c)) }
    ensures place { IfOk result (λ r. r.1 ≡ place_after live.old.program.rules built (Some fired)) }
    ensures none { IfOk result (λ r. r.0.session.pending ≡ []) }
    ensures current { IfOk result (λ r. r.0.session.moved ≡ None) }
    ensures watch { IfOk result (λ r. r.0.session.watch ≡ undoable.session.watch) }
    ensures of { IfOk result (λ r. IsOf B.M.stands_for live.new.program.rules r.0.session.state) }
    ensures trail { IfOk result (λ r. IsTrailed B.M.stored live.new.program.rules r.0) }
    ensures named { IfOk result (λ r. (least : ℕ) (n : Spellings) → IsNamedFrom least n undoable.trail → IsNamedFrom least n r.0.trail) }
    ensures program { OnOk result (IsWith live.new.program.rules live.old.program.commands live.old.program live.new.program) }
    ensures quiet { OnOk result (program_asks live.old.program.rules ≡ false → program_asks live.old.program.templates ≡ false
        → program_asks live.new.program.rules ≡ false) }
{
    let undoable = after_run(undoable);
    let (undoable, place) = add_all(context.alloc, live, undoable, built, fired)?;
    let Undoable { session, trail } = undoable;
    let maker = context.maker;
    let context = RunContext {
        alloc: context.alloc,
        settle: context.settle,
        actor: context.actor,
        program: &live.program,
        limit: context.limit,
    };
    let session = settle_all(&context, maker, session)?;
    Ok((Undoable { session, trail }, place))
}
