//! What a worker does with the slot that it holds, and the turns that it takes.
ghost use Rattle.std.specs.Prelude.{◌≡◌, ◌<◌, List, [], ◌∷◌, ◌++◌, All, OnOk, OnErr, true, false, ℕ, ◌+◌, IsTrue};
ghost use Rattle.task_pool.specs.declared.pool.PoolEntry.TheVariants.{Finish as FinishEntry, Stop as StopEntry};
ghost use Rattle.task_pool.specs.Pools.{holds};
ghost use Rattle.free_engine.specs.declared.slots.SlotEntry.TheVariants.{OfPool, OfLine};
ghost use Rattle.work_store.specs.Stored.{held_of};
ghost use Rattle.token_line.specs.Held.{TaskFits};
ghost use Rattle.token_line.specs.Numbers.{code_of, line_number};
ghost use Rattle.free_engine.specs.Fitting.{TakenFits};
ghost use Rattle.free_engine.specs.Slots.{entries, name, first_in, pool_list, workers_in, nodes_in, store_in, IsPool, IsSlotFor, SlotTakes};
ghost use Rattle.net_base.specs.declared.tasks.Task.{Task};
ghost use Rattle.turn_table.specs.Turns.{IsPassOf, knows, number};
ghost use Rattle.free_engine.specs.Turns.{has_taken, a_row, PassTakes};

use crate::phase::Phase;
use crate::slots::Slot;
use net_base::net::Net;
use net_base::tasks::Task;
use ops_base::memory::OutOfMemory;
use ops_io::Gate;
use std::alloc::Global;
use std::sync::Wait;
use task_pool::Taken;
use token_line::place_of;
use turn_table::Pass;
use work_store::Store;

/// `Pool::take` on the pool in the slot, at the same cost.
pub(crate) fn take_in(slot: &mut Slot, worker: usize) -> Taken
    requires pool { IsPool slot.old }
    requires worker { worker < workers_in slot.old }
    requires free { holds worker (pool_list slot.old) ≡ false }
    ensures name { name slot.new ≡ name slot.old }
    ensures entries { SlotTakes worker (first_in slot.old) (entries slot.old) (entries slot.new) result }
    ensures fits { TakenFits (nodes_in slot.old) (store_in slot.old) result }
{
    match slot {
        Slot::Pool(cell) => cell.take(worker),
        Slot::Line(_) => unreachable!(),
    }
}

/// `Pool::finish` on the pool in the slot. If memory runs out, nothing has changed.
pub(crate) fn finish_in(
    slot: &mut Slot,
    alloc: Global,
    worker: usize,
    children: &mut Vec<Task>,
) -> Result<(), OutOfMemory>
    requires pool { IsPool slot.old }
    requires holds { holds worker (pool_list slot.old) ≡ true }
    requires fit { All (TaskFits (nodes_in slot.old) (store_in slot.old)) children.old.items }
    ensures name { name slot.new ≡ name slot.old }
    ensures ok { OnOk result (entries slot.new ≡ entries slot.old ++ OfPool (FinishEntry worker children.old.items) ∷ []) }
    ensures empty { OnOk result (children.new.items ≡ []) }
    ensures err { OnErr result (entries slot.new ≡ entries slot.old) }
{
    match slot {
        Slot::Pool(cell) => match cell.finish(alloc, worker, children) {
            Ok(()) => Ok(()),
            Err(failed) => Err(failed),
        },
        Slot::Line(_) => unreachable!(),
    }
}

/// `Pool::stop` on the pool in the slot. Takes no memory.
pub(crate) fn stop_in(slot: &mut Slot, worker: usize)
    requires pool { IsPool slot.old }
    requires holds { holds worker (pool_list slot.old) ≡ true }
    ensures name { name slot.new ≡ name slot.old }
    ensures entries { entries slot.new ≡ entries slot.old ++ OfPool (StopEntry worker) ∷ [] }
{
    match slot {
        Slot::Pool(cell) => cell.stop(worker),
        Slot::Line(_) => unreachable!(),
    }
}

/// Activates a task with this code on the line in the slot, at the cost of `activation::activate_coded`. If memory
/// runs out, nothing has changed.
pub(crate) fn activate_in(
    slot: &mut Slot,
    alloc: Global,
    net: &Net,
    store: &Store,
    task: &Task,
    code: u64,
    out: &mut Vec<Task>,
) -> Result<(), OutOfMemory>
    requires code { code ≡ code_of (held_of store.now) net.now.nodes task.now.node task.now.side task.now.token }
    requires line { IsSlotFor net.now store.now task.now slot.old }
    requires fits { TaskFits net.now.nodes store.now task.now }
    requires out { out.old.items ≡ [] }
    ensures name { name slot.new ≡ name slot.old }
    ensures ok { OnOk result (entries slot.new ≡ entries slot.old ++ OfLine (record { task = task.now; children = out.new.items }) ∷ []) }
    ensures fit { OnOk result (All (TaskFits net.now.nodes store.now) out.new.items) }
    ensures err { OnErr result (entries slot.new ≡ entries slot.old) }
{
    match slot {
        Slot::Line(cell) => match cell.activate(alloc, net, store, task, code, out) {
            Ok(()) => Ok(()),
            Err(failed) => Err(failed),
        },
        Slot::Pool(_) => unreachable!(),
    }
}

/// Takes a task from the pool. It waits for a turn of the pool.
pub(crate) fn take_task<R: Wait>(
    rt: &R,
    phase: &Phase<'_>,
    pass: Pass<Slot>,
    worker: usize,
) -> (Pass<Slot>, Taken)
    requires pass { IsPassOf phase.now.cells.now pass }
    requires number { number pass ≡ worker + 1 }
    requires worker { worker < phase.now.workers }
    requires free { has_taken worker (knows pass).own ≡ false }
    ensures pass { IsPassOf phase.now.cells.now result.0 }
    ensures number { number result.0 ≡ worker + 1 }
    ensures own { PassTakes worker phase.now.first.now.value.items (knows pass) (knows result.0) result.1 }
    ensures fits { TakenFits phase.now.net.now.nodes phase.now.store.now result.1 }
{
    let mut turn = phase.cells.claim(rt, pass, 0);
    match take_in(turn.value(), worker) {
        Taken::Task(task) => (phase.cells.give(turn), Taken::Task(task)),
        Taken::Again { unfinished } => (phase.cells.give_back(turn), Taken::Again { unfinished }),
        Taken::Quiet => (phase.cells.give_back(turn), Taken::Quiet),
        Taken::Stopped { by } => (phase.cells.give_back(turn), Taken::Stopped { by }),
    }
}

/// Performs a task on its line, after calling the gate, and returns whether there was enough memory. It waits for a
/// turn of the line.
pub(crate) fn do_task<R: Wait, G: Gate>(
    rt: &R,
    phase: &Phase<'_>,
    gate: &G,
    pass: Pass<Slot>,
    worker: usize,
    task: &Task,
    out: &mut Vec<Task>,
) -> (Pass<Slot>, bool)
    requires pass { IsPassOf phase.now.cells.now pass }
    requires number { number pass ≡ worker + 1 }
    requires fits { TaskFits phase.now.net.now.nodes phase.now.store.now task.now }
    requires out { out.old.items ≡ [] }
    ensures pass { IsPassOf phase.now.cells.now result.0 }
    ensures number { number result.0 ≡ worker + 1 }
    ensures below { line_number (held_of phase.now.store.now) phase.now.net.now.nodes phase.now.lines task.now.node task.now.side task.now.token < phase.now.lines }
    ensures own { IsTrue result.1 → (knows result.0).own ≡ (knows pass).own ++ a_row worker (line_number (held_of phase.now.store.now) phase.now.net.now.nodes phase.now.lines task.now.node task.now.side task.now.token + 1) (OfLine (record { task = task.now; children = out.new.items })) }
    ensures fit { IsTrue result.1 → All (TaskFits phase.now.net.now.nodes phase.now.store.now) out.new.items }
    ensures not_own { result.1 ≡ false → (knows result.0).own ≡ (knows pass).own }
{
    let place = place_of(phase.net, phase.store, task, phase.lines);
    let mut turn = phase.cells.claim(rt, pass, place.line + 1);
    gate.enter(worker, place.line);
    match activate_in(
        turn.value(),
        phase.alloc,
        phase.net,
        phase.store,
        task,
        place.code,
        out,
    ) {
        Ok(()) => (phase.cells.give(turn), true),
        Err(_) => (phase.cells.give_back(turn), false),
    }
}

/// Finishes the task that was taken last, and returns whether there was enough memory. It waits for a turn of the
/// pool.
pub(crate) fn finish_task<R: Wait>(
    rt: &R,
    phase: &Phase<'_>,
    pass: Pass<Slot>,
    worker: usize,
    children: &mut Vec<Task>,
) -> (Pass<Slot>, bool)
    requires pass { IsPassOf phase.now.cells.now pass }
    requires number { number pass ≡ worker + 1 }
    requires holds { has_taken worker (knows pass).own ≡ true }
    requires fit { All (TaskFits phase.now.net.now.nodes phase.now.store.now) children.old.items }
    ensures pass { IsPassOf phase.now.cells.now result.0 }
    ensures number { number result.0 ≡ worker + 1 }
    ensures own { IsTrue result.1 → (knows result.0).own ≡ (knows pass).own ++ a_row worker 0 (OfPool (FinishEntry worker children.old.items)) }
    ensures not_own { result.1 ≡ false → (knows result.0).own ≡ (knows pass).own }
{
    let mut turn = phase.cells.claim(rt, pass, 0);
    match finish_in(turn.value(), phase.alloc, worker, children) {
        Ok(()) => (phase.cells.give(turn), true),
        Err(_) => (phase.cells.give_back(turn), false),
    }
}

/// Records in the pool, for the other workers, that this worker is out of memory. It waits for a turn of the pool.
pub(crate) fn stop<R: Wait>(
    rt: &R,
    phase: &Phase<'_>,
    pass: Pass<Slot>,
    worker: usize,
) -> Pass<Slot>
    requires pass { IsPassOf phase.now.cells.now pass }
    requires number { number pass ≡ worker + 1 }
    requires holds { has_taken worker (knows pass).own ≡ true }
    ensures pass { IsPassOf phase.now.cells.now result }
    ensures number { number result ≡ worker + 1 }
    ensures own { (knows result).own ≡ (knows pass).own ++ a_row worker 0 (OfPool (StopEntry worker)) }
{
    let mut turn = phase.cells.claim(rt, pass, 0);
    stop_in(turn.value(), worker);
    phase.cells.give(turn)
}

/// How a round of a worker ended: a task was performed and finished; no task is waiting now; none ever will be; or
/// memory ran out, here or at another worker.
#[derive(Clone, Copy)]
pub(crate) enum RoundEnd {
    Done,
    Nothing,
    Quiet,
    Broken,
}
