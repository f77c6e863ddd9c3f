//! Prepares a session for the next command: makes the phases that wait, and makes the state follow the productions in
//! force.
ghost use Rattle.std.specs.Prelude.{◌≡◌, [], None, true, IfOk};
ghost use Rattle.ops_base.specs.Names.{Spellings};
ghost use Rattle.ops_io.specs.Coming.{Coming};
ghost use Rattle.cycle.specs.Settles.{Settles};
ghost use Rattle.session.specs.Courses.{IsReadyFor, IsUnderWay, meant_by};

use crate::context::RunContext;
use crate::session::{Session, is_full, make_pending};
use cycle::Maker;
use live_rules::renew;
use ops_base::commands::Command;
use ops_base::elements::Change;
use ops_base::memory::OutOfMemory;
use work_store::{Matcher, Settled};

/// Makes the state follow the productions in force.
fn follow<B: Maker, H: Fn(B::M, &[Change]) -> Result<Settled<B::M>, OutOfMemory>, A>(
    context: &RunContext<'_, H, A>,
    maker: &B,
    session: Session<B::M>,
) -> Result<Session<B::M>, OutOfMemory>
    requires settles { Settles B.M.stored B.M.found B.M.stands_for (λ m cs. H.pre context.now.settle.now m cs) (λ m cs r. H.post context.now.settle.now m cs r) }
    requires under_way { IsUnderWay B.M.stored B.M.stands_for context.now.program.now.rules session }
    ensures meant { IfOk result (λ s. (n : Spellings) (c : Coming)
        → meant_by B.M.stored context.now.program.now.rules s n c ≡ meant_by B.M.stored context.now.program.now.rules session n c) }
    ensures under_way { IfOk result (IsUnderWay B.M.stored B.M.stands_for context.now.program.now.rules) }
    ensures current { IfOk result (λ s. s.moved ≡ None) }
    ensures ran { IfOk result (λ s. s.ran ≡ session.ran) }
{
    let Session {
        state,
        pending,
        last_tag,
        ran,
        watch,
        breaks,
        moved,
    } = session;
    let Some(moved) = moved else {
        return Ok(Session {
            state,
            pending,
            last_tag,
            ran,
            watch,
            breaks,
            moved: None,
        });
    };
    let state = renew(
        context.alloc,
        maker,
        context.settle,
        state,
        context.program,
        &moved,
    )?;
    Ok(Session {
        state,
        pending,
        last_tag,
        ran,
        watch,
        breaks,
        moved: None,
    })
}

/// Makes the state follow the productions in force, and makes the phases that wait.
pub(crate) fn settle_all<B: Maker, H: Fn(B::M, &[Change]) -> Result<Settled<B::M>, OutOfMemory>, A>(
    context: &RunContext<'_, H, A>,
    maker: &B,
    session: Session<B::M>,
) -> Result<Session<B::M>, OutOfMemory>
    requires settles { Settles B.M.stored B.M.found B.M.stands_for (λ m cs. H.pre context.now.settle.now m cs) (λ m cs r. H.post context.now.settle.now m cs r) }
    requires under_way { IsUnderWay B.M.stored B.M.stands_for context.now.program.now.rules session }
    ensures meant { IfOk result (λ s. (n : Spellings) (c : Coming)
        → meant_by B.M.stored context.now.program.now.rules s n c ≡ meant_by B.M.stored context.now.program.now.rules session n c) }
    ensures under_way { IfOk result (IsUnderWay B.M.stored B.M.stands_for context.now.program.now.rules) }
    ensures current { IfOk result (λ s. s.moved ≡ None) }
    ensures none_waits { IfOk result (λ s. s.pending ≡ []) }
{
    let session = follow(context, maker, session)?;
    let session = make_pending(context, session)?;
    Ok(session)
}

/// Makes the phases that wait. If none waits, the state stays as it is.
pub(crate) fn settle_pending<
    B: Maker,
    H: Fn(B::M, &[Change]) -> Result<Settled<B::M>, OutOfMemory>,
    A,
>(
    context: &RunContext<'_, H, A>,
    maker: &B,
    session: Session<B::M>,
) -> Result<Session<B::M>, OutOfMemory>
    requires settles { Settles B.M.stored B.M.found B.M.stands_for (λ m cs. H.pre context.now.settle.now m cs) (λ m cs r. H.post context.now.settle.now m cs r) }
    requires under_way { IsUnderWay B.M.stored B.M.stands_for context.now.program.now.rules session }
    ensures meant { IfOk result (λ s. (n : Spellings) (c : Coming)
        → meant_by B.M.stored context.now.program.now.rules s n c ≡ meant_by B.M.stored context.now.program.now.rules session n c) }
    ensures under_way { IfOk result (IsUnderWay B.M.stored B.M.stands_for context.now.program.now.rules) }
    ensures none_waits { IfOk result (λ s. s.pending ≡ []) }
{
    if session.pending.is_empty() {
        return Ok(session);
    }
    settle_all(context, maker, session)
}

/// Once a run was begun, makes the state follow the productions in force. Before that, makes wait; if many of them
/// wait, their phases are made.
fn make_room<B: Maker, H: Fn(B::M, &[Change]) -> Result<Settled<B::M>, OutOfMemory>, A>(
    context: &RunContext<'_, H, A>,
    maker: &B,
    session: Session<B::M>,
) -> Result<Session<B::M>, OutOfMemory>
    requires settles { Settles B.M.stored B.M.found B.M.stands_for (λ m cs. H.pre context.now.settle.now m cs) (λ m cs r. H.post context.now.settle.now m cs r) }
    requires under_way { IsUnderWay B.M.stored B.M.stands_for context.now.program.now.rules session }
    ensures meant { IfOk result (λ s. (n : Spellings) (c : Coming)
        → meant_by B.M.stored context.now.program.now.rules s n c ≡ meant_by B.M.stored context.now.program.now.rules session n c) }
    ensures under_way { IfOk result (IsUnderWay B.M.stored B.M.stands_for context.now.program.now.rules) }
    ensures current { IfOk result (λ s. s.ran ≡ true → s.moved ≡ None) }
{
    if session.ran {
        return follow(context, maker, session);
    }
    if is_full(&session) {
        return settle_all(context, maker, session);
    }
    Ok(session)
}

/// Prepares a session for a command. A command that changes productions needs no preparation. So the state follows many
/// of them at once, when something needs it.
pub(crate) fn make_ready<B: Maker, H: Fn(B::M, &[Change]) -> Result<Settled<B::M>, OutOfMemory>, A>(
    context: &RunContext<'_, H, A>,
    maker: &B,
    session: Session<B::M>,
    command: &Command,
) -> Result<Session<B::M>, OutOfMemory>
    requires settles { Settles B.M.stored B.M.found B.M.stands_for (λ m cs. H.pre context.now.settle.now m cs) (λ m cs r. H.post context.now.settle.now m cs r) }
    requires under_way { IsUnderWay B.M.stored B.M.stands_for context.now.program.now.rules session }
    ensures meant { IfOk result (λ s. (n : Spellings) (c : Coming)
        → meant_by B.M.stored context.now.program.now.rules s n c ≡ meant_by B.M.stored context.now.program.now.rules session n c) }
    ensures under_way { IfOk result (IsUnderWay B.M.stored B.M.stands_for context.now.program.now.rules) }
    ensures ready { IfOk result (IsReadyFor command.now) }
{
    match command {
        Command::Make { .. } => make_room(context, maker, session),
        Command::Remove { .. } | Command::RemoveAll | Command::Run { .. } | Command::Cs => {
            settle_all(context, maker, session)
        }
        Command::Wm { .. } | Command::Ppwm { .. } | Command::Matches { .. } => {
            settle_pending(context, maker, session)
        }
        Command::Pm { .. }
        | Command::Strategy { .. }
        | Command::Watch { .. }
        | Command::Pbreak { .. }
        | Command::Add { .. }
        | Command::Excise { .. }
        | Command::Back { .. }
        | Command::Exit => Ok(session),
    }
}
