//! The data that all workers of a shared phase use.
ghost use Rattle.std.specs.Prelude.{◌<◌};
ghost use Rattle.turn_table.specs.Turns.{first_values};
ghost use Rattle.free_engine.specs.Turns.{IsSetUp};
ghost use Rattle.free_engine.specs.SetUp.{set_up_prop};

use crate::slots::Slot;
use net_base::net::Net;
use net_base::tasks::Task;
use std::alloc::Global;
use std::snapshot::Snapshot;
use turn_table::Cells;
use work_store::Store;

/// The data that all workers of a shared phase use: the cells, the network, the store, and the numbers of lines and
/// workers. Only contracts can see the tasks that the phase began with.
#[derive(Clone, Copy)]
pub(crate) struct Phase<'a> {
    pub(crate) alloc: Global,
    pub(crate) cells: &'a Cells<Slot>,
    pub(crate) net: &'a Net,
    pub(crate) store: &'a Store,
    pub(crate) first: &'a Snapshot<Vec<Task>>,
    pub(crate) lines: usize,
    pub(crate) workers: usize,
    // The pool is in cell 0, and line i in cell i + 1.
    ghost set_up: { IsSetUp net.now store.now lines workers first.now.value.items (first_values cells.now) } by { set_up_prop net.now store.now lines workers first.now.value.items (first_values cells.now) },
    // There is at least one line.
    ghost some: { 0 < lines },
}
