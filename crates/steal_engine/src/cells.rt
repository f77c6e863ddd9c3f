//! The lines in the form in which a shared phase holds them, with the network and the store of the phase.
ghost use Rattle.std.specs.Prelude.{◌≡◌, ℕ, List, [], ◌∷◌, ◌++◌, All, OnOk, OnErr, ◌<◌, true, false};
ghost use Rattle.work_store.specs.Stored.{held_of};
ghost use Rattle.token_line.specs.Held.{TaskFits};
ghost use Rattle.token_line.specs.Numbers.{code_of, line_number};
ghost use Rattle.net_base.specs.declared.tasks.Side.{Side};
ghost use Rattle.activation.specs.Acting.{IsCounted};
ghost use Rattle.step_core.specs.Phases.{before};
ghost use Rattle.step_core.specs.Worlds.{seen};
ghost use Rattle.steal_engine.specs.Phased.{Grows, KeepsPhase, phased_prop};

use activation::activate_coded;
use net_base::net::Net;
use net_base::tasks::Task;
use ops_base::memory::OutOfMemory;
use std::alloc::Global;
use std::snapshot::Snapshot;
use token_line::Line;
use work_store::Store;

/// A line, its state when its cell was made, and the network and the store of the phase. Only contracts can see the
/// latter three and the number of all lines.
#[derive(Drop)]
pub(crate) struct LineCell {
    pub(crate) line: Line,
    pub(crate) lines: usize,
    pub(crate) first: Snapshot<Line>,
    pub(crate) net: Snapshot<Net>,
    pub(crate) store: Snapshot<Store>,
    ghost counted: { IsCounted net.value.nodes store.value line },
    ghost begins: { (n : ℕ) (s : Side) (t : List ℕ) → before (seen line) n s t ≡ before (seen first.value) n s t },
    ghost phased: { KeepsPhase net.value.nodes store.value lines line.number first.value line } by { phased_prop net.value.nodes store.value lines line.number first.value line },
}

impl LineCell {
    /// Performs a task that belongs to this line and has this code: it becomes an entry, with the children that are
    /// put out. It costs what `activation::activate_coded` costs. If memory runs out, nothing has changed.
    pub(crate) fn activate(
        &mut self,
        alloc: Global,
        net: &Net,
        store: &Store,
        task: &Task,
        code: u64,
        out: &mut Vec<Task>,
    ) -> Result<(), OutOfMemory>
        requires net { self.old.net.value ≡ net.now }
        requires store { self.old.store.value ≡ store.now }
        requires fits { TaskFits net.now.nodes store.now task.now }
        requires here { line_number (held_of store.now) net.now.nodes self.old.lines task.now.node task.now.side task.now.token ≡ self.old.line.number }
        requires code { code ≡ code_of (held_of store.now) net.now.nodes task.now.node task.now.side task.now.token }
        ensures ok { OnOk result (Grows net.now.nodes store.now task.now self.old.line.entries.items self.new.line.entries.items out.old.items out.new.items) }
        ensures err { OnErr result (self.new.line.entries.items ≡ self.old.line.entries.items) }
        ensures number { self.new.line.number ≡ self.old.line.number }
        ensures lines { self.new.lines ≡ self.old.lines }
        ensures first { self.new.first ≡ self.old.first }
        ensures net { self.new.net ≡ self.old.net }
        ensures store { self.new.store ≡ self.old.store }
    {
        match activate_coded(alloc, net, store, &mut self.line, task, code, out) {
            Ok(()) => Ok(()),
            Err(failed) => Err(failed),
        }
    }
}
