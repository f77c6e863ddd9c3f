//! What a worker does with the line that it holds.
ghost use Rattle.std.specs.Prelude.{◌≡◌, OnOk, OnErr};
ghost use Rattle.work_store.specs.Stored.{held_of};
ghost use Rattle.token_line.specs.Held.{TaskFits};
ghost use Rattle.token_line.specs.Numbers.{code_of};
ghost use Rattle.steal_engine.specs.Phased.{Grows};
ghost use Rattle.steal_engine.specs.Rows.{IsLineFor, entries, name};

use crate::rows::Row;
use net_base::net::Net;
use net_base::tasks::Task;
use ops_base::memory::OutOfMemory;
use std::alloc::Global;
use work_store::Store;

/// Activates a task with this code on the line, at the cost of `activation::activate_coded`. If memory runs out,
/// nothing has changed.
pub(crate) fn activate_in(
    row: &mut Row,
    alloc: Global,
    net: &Net,
    store: &Store,
    task: &Task,
    code: u64,
    out: &mut Vec<Task>,
) -> Result<(), OutOfMemory>
    requires code { code ≡ code_of (held_of store.now) net.now.nodes task.now.node task.now.side task.now.token }
    requires line { IsLineFor net.now store.now task.now row.old }
    requires fits { TaskFits net.now.nodes store.now task.now }
    ensures name { name row.new ≡ name row.old }
    ensures ok { OnOk result (Grows net.now.nodes store.now task.now (entries row.old) (entries row.new) out.old.items out.new.items) }
    ensures err { OnErr result (entries row.new ≡ entries row.old) }
{
    match row.cell.activate(alloc, net, store, task, code, out) {
        Ok(()) => Ok(()),
        Err(failed) => Err(failed),
    }
}
