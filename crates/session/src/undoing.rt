//! The command `back`.
ghost use Rattle.std.specs.Prelude.{◌≡◌, ℕ, ◌^◌, ◌<◌, ◌≤◌, length, false, IsTrue, IfOk};
ghost use Rattle.ops_base.specs.Names.{Spellings};
ghost use Rattle.ops_io.specs.Coming.{Coming};
ghost use Rattle.ops_io.specs.Ports.{port};
ghost use Rattle.ops_meaning.specs.Effects.{Performs, of_ending};
ghost use Rattle.ops_meaning.specs.Kept.{KeepsNames};
ghost use Rattle.ops_meaning.specs.Running.{back_given};
ghost use Rattle.cycle.specs.Settles.{Settles};
ghost use Rattle.session.specs.Courses.{ends_unread};
ghost use Rattle.session.specs.Trailing.{IsNamedFrom, IsUndoable, meant_with, states_of};

use crate::context::RunContext;
use crate::ready::settle_all;
use crate::session::Session;
use crate::undoable::Undoable;
use back_trail::Trail;
use cycle::Maker;
use ops_base::elements::Change;
use ops_base::endings::Ending;
use ops_base::memory::OutOfMemory;
use ops_base::symbols::Names;
use ops_io::{Out, Sink};
use ops_print::put_kept_line;
use work_store::{Matcher, Settled};

/// How many firings can be undone.
fn kept_firings(trail: &Option<Trail>) -> usize
    ensures { result ≡ length (states_of trail.now) }
{
    match trail {
        Some(trail) => trail.len(),
        None => 0,
    }
}

/// The command `back`: undoes the last firings, as many as it says. Where fewer are kept it tells how many, and undoes
/// none. It costs a new matcher, into which all elements are put.
pub(crate) fn go_back<
    B: Maker,
    H: Fn(B::M, &[Change]) -> Result<Settled<B::M>, OutOfMemory>,
    A,
    K: Sink,
>(
    context: &RunContext<'_, H, A>,
    maker: &B,
    names: &mut Names,
    undoable: Undoable<B::M>,
    count: u8,
    out: &mut Out,
    sink: &mut K,
) -> Result<Undoable<B::M>, Ending>
    requires settles { Settles B.M.stored B.M.found B.M.stands_for (λ m cs. H.pre context.now.settle.now m cs) (λ m cs r. H.post context.now.settle.now m cs r) }
    requires undoable { IsUndoable B.M.stored B.M.stands_for context.now.program.now.rules undoable }
    requires named { IsNamedFrom 1 names.old undoable.trail }
    requires whole { IsTrue out.old.whole }
    requires faults { K.faults sink.old < 2 ^ 63 }
    ensures performs { (c : Coming) → Performs (λ u. meant_with B.M.stored context.now.program.now.rules u names.new c) of_ending result
        (port (K.taken sink.old) (K.faults sink.old) out.old)
        (port (K.taken sink.new) (K.faults sink.new) out.new)
        (back_given out.old.column count (meant_with B.M.stored context.now.program.now.rules undoable names.old c)) }
    ensures reads { ends_unread result ≡ false }
    ensures undoable { IfOk result (IsUndoable B.M.stored B.M.stands_for context.now.program.now.rules) }
    ensures named { IfOk result (λ u. (least : ℕ) → 1 ≤ least → IsNamedFrom least names.old undoable.trail → IsNamedFrom least names.new u.trail) }
    ensures names { (first : Spellings) → KeepsNames first names.old → IsNamedFrom (length first.held) names.old undoable.trail → KeepsNames first names.new }
{
    let Undoable { session, trail } = undoable;
    let session = settle_all(context, maker, session)?;
    let kept = kept_firings(&trail);
    let count = usize::from(count);
    if kept < count {
        put_kept_line(out, sink, kept as u64)?;
        return Ok(Undoable { session, trail });
    }
    let Some(trail) = trail else {
        return Ok(Undoable {
            session,
            trail: None,
        });
    };
    if count == 0 {
        return Ok(Undoable {
            session,
            trail: Some(trail),
        });
    }
    let mut trail = trail;
    let Session {
        state,
        pending,
        last_tag: _,
        ran: _,
        watch,
        breaks,
        moved,
    } = session;
    let state = trail.back(maker, context.settle, state, context.program, names, count)?;
    let last_tag = state.last_tag();
    // a run was begun, as firings were kept
    let session = Session {
        state,
        pending,
        last_tag,
        ran: true,
        watch,
        breaks,
        moved,
    };
    Ok(Undoable {
        session,
        trail: Some(trail),
    })
}
