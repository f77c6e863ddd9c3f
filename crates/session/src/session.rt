//! `Session`, a session between two of its commands, and the phases that wait in it.
ghost use Rattle.std.specs.Prelude.{◌≡◌, [], length, replicate, false, None, IfOk};
ghost use Rattle.ops_base.specs.Names.{Spellings};
ghost use Rattle.ops_io.specs.Coming.{Coming};
ghost use Rattle.ops_meaning.specs.Running.{begun};
ghost use Rattle.cycle.specs.Settles.{Settles};
ghost use Rattle.session.specs.Courses.{IsUnderWay, meant_by};

use crate::context::RunContext;
use cycle::State;
use live_rules::Moved;
use ops_base::elements::Change;
use ops_base::list::Listed;
use ops_base::memory::OutOfMemory;
use ops_base::programs::Program;
use std::alloc::Global;
use work_store::{Matcher, Settled};

/// When this many makes wait, or as many as working memory has elements if those are more, they are made as one phase.
/// So a network engine holds the entries of one such batch at a time, not those of all makes. The direct engine matches
/// the whole working memory in each phase: because working memory at least doubles from one batch to the next, all
/// batches together cost less than three times as much as a single phase for all makes.
const PENDING_LIMIT: usize = 1024;

/// A session between two of its commands. Before the first run, nothing is marked as fired, so no mark can be lost:
/// there top-level makes wait, and many of them are made in one phase, for which the conflict set is computed once.
#[derive(Drop)]
pub(crate) struct Session<M: Matcher> {
    pub(crate) state: State<M>,
    /// Top-level makes whose phases were not made yet. There are none after a run.
    pub(crate) pending: Listed<Change>,
    /// The last tag that was assigned, including those of the makes that wait. `State::last_tag` does not count those.
    pub(crate) last_tag: u64,
    /// Whether a run was begun.
    pub(crate) ran: bool,
    /// The trace level.
    pub(crate) watch: u8,
    /// Whether each production has a break.
    pub(crate) breaks: Listed<bool>,
    /// The new numbers of the productions of the state, if productions came or went since it was made.
    pub(crate) moved: Option<Moved>,
}

/// The breaks of a program in which no production has one.
fn no_breaks(alloc: Global, program: &Program) -> Result<Listed<bool>, OutOfMemory>
    ensures { IfOk result (λ breaks. breaks ≡ replicate (length program.now.rules) false) }
{
    let breaks = vec![in alloc; false; program.rules.len()]?;
    Ok(Listed::from_vec(breaks))
}

/// A session in which nothing was done yet.
pub(crate) fn start<M: Matcher>(
    alloc: Global,
    program: &Program,
    matcher: M,
) -> Result<Session<M>, OutOfMemory>
    requires stands { M.stands_for matcher program.now.rules }
    requires elements { (M.stored matcher).elements ≡ [] }
    requires last { (M.stored matcher).last ≡ 0 }
    ensures begun { IfOk result (λ s. (n : Spellings) (c : Coming) → meant_by M.stored program.now.rules s n c ≡ begun [] program.now.rules n c) }
    ensures under_way { IfOk result (IsUnderWay M.stored M.stands_for program.now.rules) }
{
    let breaks = no_breaks(alloc, program)?;
    let state = State::start(alloc, matcher)?;
    Ok(Session {
        state,
        pending: Listed::new(alloc),
        last_tag: 0,
        ran: false,
        watch: 0,
        breaks,
        moved: None,
    })
}

/// Makes the phases that wait, as one phase.
pub(crate) fn make_pending<M: Matcher, H: Fn(M, &[Change]) -> Result<Settled<M>, OutOfMemory>, A>(
    context: &RunContext<'_, H, A>,
    session: Session<M>,
) -> Result<Session<M>, OutOfMemory>
    requires settles { Settles M.stored M.found M.stands_for (λ m cs. H.pre context.now.settle.now m cs) (λ m cs r. H.post context.now.settle.now m cs r) }
    requires under_way { IsUnderWay M.stored M.stands_for context.now.program.now.rules session }
    requires current { session.moved ≡ None }
    ensures meant { IfOk result (λ s. (n : Spellings) (c : Coming)
        → meant_by M.stored context.now.program.now.rules s n c ≡ meant_by M.stored context.now.program.now.rules session n c) }
    ensures under_way { IfOk result (IsUnderWay M.stored M.stands_for context.now.program.now.rules) }
    ensures current { IfOk result (λ s. s.moved ≡ None) }
    ensures none_waits { IfOk result (λ s. s.pending ≡ []) }
{
    if session.pending.is_empty() {
        return Ok(session);
    }
    let state = session.state.change(context.settle, context.program, session.pending.as_slice())?;
    Ok(Session {
        state,
        pending: Listed::new(context.alloc),
        ..session
    })
}

/// Whether so many makes wait that their phases should be made.
pub(crate) fn is_full<M: Matcher>(session: &Session<M>) -> bool {
    let waiting = session.pending.len();
    waiting >= PENDING_LIMIT && waiting >= session.state.store().len()
}
