//! The pool and the lines in the form in which a shared phase holds them, with the network and the store of the
//! phase.
ghost use Rattle.std.specs.Prelude.{◌≡◌, ℕ, List, [], ◌∷◌, ◌++◌, All, OnOk, OnErr, ◌<◌, true, false};
ghost use Rattle.task_pool.specs.declared.pool.PoolEntry.TheVariants.{Finish as FinishEntry, Stop as StopEntry};
ghost use Rattle.task_pool.specs.Pools.{holds, TakeSays};
ghost use Rattle.work_store.specs.Stored.{held_of};
ghost use Rattle.token_line.specs.Held.{TaskFits};
ghost use Rattle.token_line.specs.Numbers.{code_of, line_number};
ghost use Rattle.net_base.specs.declared.tasks.Side.{Side};
ghost use Rattle.activation.specs.Acting.{IsCounted};
ghost use Rattle.step_core.specs.Phases.{before};
ghost use Rattle.step_core.specs.Worlds.{seen};
ghost use Rattle.free_engine.specs.Fitting.{TakenFits};
ghost use Rattle.free_engine.specs.Phased.{KeepsPhase, phased_prop};

use activation::activate_coded;
use net_base::net::Net;
use net_base::tasks::Task;
use ops_base::memory::OutOfMemory;
use std::alloc::Global;
use std::snapshot::Snapshot;
use task_pool::{Pool, Taken};
use token_line::Line;
use work_store::Store;

/// A line, its state when its cell was made, and the network and the store of the phase. Only contracts can see the
/// latter three and the number of all lines.
#[derive(Drop)]
pub(crate) struct LineCell {
    pub(crate) line: Line,
    pub(crate) lines: usize,
    pub(crate) first: Snapshot<Line>,
    pub(crate) net: Snapshot<Net>,
    pub(crate) store: Snapshot<Store>,
    ghost counted: { IsCounted net.value.nodes store.value line },
    ghost begins: { (n : ℕ) (s : Side) (t : List ℕ) → before (seen line) n s t ≡ before (seen first.value) n s t },
    ghost phased: { KeepsPhase net.value.nodes store.value lines line.number first.value line } by { phased_prop net.value.nodes store.value lines line.number first.value line },
}

/// The pool, with the network and the store of the phase, which only contracts can see.
#[derive(Drop)]
pub(crate) struct PoolCell {
    pub(crate) pool: Pool,
    pub(crate) net: Snapshot<Net>,
    pub(crate) store: Snapshot<Store>,
    ghost fit: { All (TaskFits net.value.nodes store.value) pool.queue.items },
}

impl LineCell {
    /// Performs a task that belongs to this line and has this code: it becomes an entry, with the children that are
    /// put out. It costs what `activation::activate_coded` costs. If memory runs out, nothing has changed.
    pub(crate) fn activate(
        &mut self,
        alloc: Global,
        net: &Net,
        store: &Store,
        task: &Task,
        code: u64,
        out: &mut Vec<Task>,
    ) -> Result<(), OutOfMemory>
        requires net { self.old.net.value ≡ net.now }
        requires store { self.old.store.value ≡ store.now }
        requires fits { TaskFits net.now.nodes store.now task.now }
        requires here { line_number (held_of store.now) net.now.nodes self.old.lines task.now.node task.now.side task.now.token ≡ self.old.line.number }
        requires code { code ≡ code_of (held_of store.now) net.now.nodes task.now.node task.now.side task.now.token }
        requires out { out.old.items ≡ [] }
        ensures ok { OnOk result (self.new.line.entries.items ≡ self.old.line.entries.items ++ record { task = task.now; children = out.new.items } ∷ []) }
        ensures fit { OnOk result (All (TaskFits net.now.nodes store.now) out.new.items) }
        ensures err { OnErr result (self.new.line.entries.items ≡ self.old.line.entries.items) }
        ensures number { self.new.line.number ≡ self.old.line.number }
        ensures lines { self.new.lines ≡ self.old.lines }
        ensures first { self.new.first ≡ self.old.first }
        ensures net { self.new.net ≡ self.old.net }
        ensures store { self.new.store ≡ self.old.store }
    {
        match activate_coded(alloc, net, store, &mut self.line, task, code, out) {
            Ok(()) => Ok(()),
            Err(failed) => Err(failed),
        }
    }
}

impl PoolCell {
    /// Takes a task, which fits, at the cost of `Pool::take`.
    pub(crate) fn take(&mut self, worker: usize) -> Taken
        requires worker { worker < self.old.pool.workers.value }
        requires free { holds worker self.old.pool.entries.items ≡ false }
        ensures says { TakeSays worker self.old.pool.first.value.items self.old.pool.entries.items self.new.pool.entries.items result }
        ensures fits { TakenFits self.old.net.value.nodes self.old.store.value result }
        ensures first { self.new.pool.first ≡ self.old.pool.first }
        ensures workers { self.new.pool.workers ≡ self.old.pool.workers }
        ensures net { self.new.net ≡ self.old.net }
        ensures store { self.new.store ≡ self.old.store }
    {
        self.pool.take(worker)
    }

    /// Finishes the task that the worker holds. Its children fit. If memory runs out, nothing has changed.
    pub(crate) fn finish(
        &mut self,
        alloc: Global,
        worker: usize,
        children: &mut Vec<Task>,
    ) -> Result<(), OutOfMemory>
        requires holds { holds worker self.old.pool.entries.items ≡ true }
        requires fit { All (TaskFits self.old.net.value.nodes self.old.store.value) children.old.items }
        ensures entries { OnOk result (self.new.pool.entries.items ≡ self.old.pool.entries.items ++ FinishEntry worker children.old.items ∷ []) }
        ensures empty { OnOk result (children.new.items ≡ []) }
        ensures same { OnErr result (self.new.pool.entries.items ≡ self.old.pool.entries.items) }
        ensures first { self.new.pool.first ≡ self.old.pool.first }
        ensures workers { self.new.pool.workers ≡ self.old.pool.workers }
        ensures net { self.new.net ≡ self.old.net }
        ensures store { self.new.store ≡ self.old.store }
    {
        match self.pool.finish(alloc, worker, children) {
            Ok(()) => Ok(()),
            Err(failed) => Err(failed),
        }
    }

    /// The worker abandons the task that it holds, and no task is taken from then on. Takes no memory.
    pub(crate) fn stop(&mut self, worker: usize)
        requires holds { holds worker self.old.pool.entries.items ≡ true }
        ensures entries { self.new.pool.entries.items ≡ self.old.pool.entries.items ++ StopEntry worker ∷ [] }
        ensures first { self.new.pool.first ≡ self.old.pool.first }
        ensures workers { self.new.pool.workers ≡ self.old.pool.workers }
        ensures net { self.new.net ≡ self.old.net }
        ensures store { self.new.store ≡ self.old.store }
    {
        self.pool.stop(worker);
    }
}
