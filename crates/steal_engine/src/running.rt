//! All workers of a shared phase in a ring: each steals from the deque of the next.
ghost use Rattle.std.specs.Prelude.{◌≡◌, [], All, IfOk, OnOk, length};
ghost use Rattle.turn_table.specs.Turns.{IsFirstOf, knows, splits, split_off};
ghost use Rattle.steal_engine.specs.Logged.{AreJoined, AreNext, AreReadyFrom, Balanced};
ghost use Rattle.steal_engine.specs.Team.{IsFresh};

use crate::deques::{collect, lend_all};
use crate::phase::Phase;
use crate::ring::{part_all, seat_all, turn, turn_back};
use crate::rows::Row;
use crate::team::work_all;
use net_base::tasks::Task;
use ops_base::memory::OutOfMemory;
use ops_io::Gate;
use std::collections::VecDeque;
use std::sync::Wait;
use std::thread::Threads;
use task_deque::{Fitting, OwnEnd};
use turn_table::{Cells, Pass};

/// Joins all passes.
pub(crate) fn join_all(cells: &Cells<Row>, first: &mut Pass<Row>, passes: VecDeque<Pass<Row>>)
    requires first { IsFirstOf cells.now first.old }
    requires none { (knows first.old).joined ≡ [] }
    requires next { AreNext cells.now 1 passes.items }
    requires apart { split_off first.old ≡ length passes.items }
    ensures first { IsFirstOf cells.now first.new }
    ensures own { (knows first.new).own ≡ (knows first.old).own }
    ensures joined { AreJoined 1 passes.items (knows first.new).joined }
    ensures splits { splits first.new ≡ splits first.old }
    ensures apart { split_off first.new ≡ 0 }
{
    let mut left = passes;
    while let Some(pass) = left.pop_front() {
        cells.join(first, pass);
    }
}

/// Runs all workers at once, each with its own deque, and then collects what is left in the deques.
pub(crate) fn run_ring<R: Threads + Wait + Sync, G: Gate, J: Fitting + Send + Sync>(
    rt: &R,
    phase: &Phase<'_>,
    gate: &G,
    first: &mut Pass<Row>,
    passes: VecDeque<Pass<Row>>,
    owns: VecDeque<OwnEnd<J>>,
) -> Result<Vec<Task>, OutOfMemory>
    requires first { IsFirstOf phase.now.cells.now first.old }
    requires own { (knows first.old).own ≡ [] }
    requires none { (knows first.old).joined ≡ [] }
    requires splits { splits first.old ≡ length passes.items }
    requires apart { split_off first.old ≡ length passes.items }
    requires ready { AreReadyFrom J.fits phase.now.cells.now phase.now.net.now phase.now.store.now phase.now.lines 1 passes.items }
    requires fresh { All IsFresh owns.items }
    requires count { length owns.items ≡ length passes.items }
    ensures first { OnOk result (IsFirstOf phase.now.cells.now first.new) }
    ensures own { OnOk result ((knows first.new).own ≡ []) }
    ensures apart { OnOk result (split_off first.new ≡ 0) }
    ensures fit { IfOk result (λ v. All J.fits v.items) }
    ensures balanced { IfOk result (λ v. Balanced owns.items v.items (knows first.new)) }
{
    let (owns, thieves) = lend_all(phase.alloc, owns)?;
    let thieves = turn(thieves)?;
    let seats = seat_all(phase.alloc, passes, owns, thieves)?;
    let ended = work_all(rt, phase, gate, seats)?;
    let back = part_all(phase.alloc, ended)?;
    join_all(phase.cells, first, back.passes);
    if !back.whole {
        return Err(OutOfMemory);
    }
    let thieves = turn_back(back.thieves)?;
    collect(rt, phase.alloc, back.owns, thieves)
}
