//! All workers of a shared phase at once.
ghost use Rattle.std.specs.Prelude.{◌≡◌, IfOk, length};
ghost use Rattle.turn_table.specs.Turns.{number};
ghost use Rattle.steal_engine.specs.Rows.{IsReady, rounds_in};
ghost use Rattle.steal_engine.specs.Seats.{AllCanBegin, AllHaveEnded, CanBegin, HasEnded};

use crate::phase::Phase;
use crate::rows::Row;
use crate::seats::{Seat, Worked};
use crate::working::work;
use ops_base::memory::OutOfMemory;
use ops_io::Gate;
use std::sync::Wait;
use std::thread::{Threads, map_vec};
use task_deque::Fitting;
use turn_table::Pass;

/// Runs all workers at once, each at its seat in a thread of its own, and one of them on the calling thread. If a
/// thread can't be started, its work is done on the thread that tried to start it. It waits for all of them.
pub(crate) fn work_all<R: Threads + Wait + Sync, G: Gate, J: Fitting + Send + Sync>(
    rt: &R,
    phase: &Phase<'_>,
    gate: &G,
    seats: Vec<Seat<J, Pass<Row>>>,
) -> Result<Vec<Worked<J, Pass<Row>>>, OutOfMemory>
    requires { AllCanBegin (IsReady J.fits phase.now.cells.now phase.now.net.now phase.now.store.now phase.now.lines) number rounds_in seats.items }
    ensures count { IfOk result (λ v. length v.items ≡ length seats.items) }
    ensures each { IfOk result (λ v. AllHaveEnded (IsReady J.fits phase.now.cells.now phase.now.net.now phase.now.store.now phase.now.lines) number rounds_in seats.items v.items) }
{
    let ended = map_vec(
        rt,
        seats,
        &|seat: Seat<J, Pass<Row>>| -> Worked<J, Pass<Row>>
            requires { CanBegin (IsReady J.fits phase.now.cells.now phase.now.net.now phase.now.store.now phase.now.lines) number rounds_in seat }
            ensures { HasEnded (IsReady J.fits phase.entry.now.cells.now phase.entry.now.net.now phase.entry.now.store.now phase.entry.now.lines) number rounds_in seat result }
        { work(rt, phase, gate, seat) },
    )?;
    Ok(ended)
}
