//! The cells of a shared phase: the pool in cell 0, and line i in cell i + 1, in one type that is a tag and a pointer
//! wide. And the lines taken out of the cells again.
ghost use Rattle.std.specs.Prelude.{◌≡◌, All, IfOk, length};
ghost use Rattle.token_line.specs.Held.{TaskFits};
ghost use Rattle.activation.specs.Acting.{IsCounted};
ghost use Rattle.step_core.specs.Worlds.{ArePartsReady};
ghost use Rattle.free_engine.specs.Openings.{IsOpened, IsRowOfLine, rows_in};
ghost use Rattle.free_engine.specs.Slots.{IsFresh};
ghost use Rattle.free_engine.specs.Turns.{HasPool};

use crate::cells::{LineCell, PoolCell};
use net_base::net::Net;
use net_base::tasks::Task;
use ops_base::memory::OutOfMemory;
use std::alloc::Global;
use std::snapshot::Snapshot;
use step_core::Parts;
use task_pool::{Pool, PoolEntry};
use token_line::{Entry, Line};
use turn_table::Kept;
use work_store::Store;

/// The content of a cell: the pool, or a line.
#[derive(Drop)]
pub(crate) enum Slot {
    Pool(Box<PoolCell>),
    Line(Box<LineCell>),
}

/// An entry of either. No value of this type is ever made.
pub(crate) enum SlotEntry {
    OfPool(PoolEntry),
    OfLine(Entry),
}

/// What no turn changes. No value of this type is ever made.
pub(crate) enum SlotName {
    PoolName {
        first: Snapshot<Vec<Task>>,
        workers: Snapshot<usize>,
        net: Snapshot<Net>,
        store: Snapshot<Store>,
    },
    LineName {
        number: usize,
        lines: usize,
        first: Snapshot<Line>,
        net: Snapshot<Net>,
        store: Snapshot<Store>,
    },
}

impl Kept for Slot {
    ghost use Rattle.free_engine.specs.Slots.{entries, name, signature};

    type Entry = SlotEntry;

    type Name = SlotName;

    ghost entries = { entries };

    ghost name = { name };

    ghost signature = { signature };

    fn count(&self) -> usize {
        match self {
            Slot::Pool(cell) => cell.pool.entries().len(),
            Slot::Line(cell) => cell.line.entries().len(),
        }
    }
}

/// A slot with a pool of these tasks for this many workers.
fn pool_slot(
    alloc: Global,
    net: &Net,
    store: &Store,
    tasks: Vec<Task>,
    workers: usize,
) -> Result<Slot, OutOfMemory>
    requires fit { All (TaskFits net.now.nodes store.now) tasks.items }
    ensures pool { IfOk result (λ x. HasPool net.now store.now workers tasks.items x) }
    ensures fresh { IfOk result (λ x. IsFresh x) }
{
    let pool = Pool::new(alloc, tasks, workers)?;
    let cell = PoolCell {
        pool,
        net: Snapshot::of(net),
        store: Snapshot::of(store),
    };
    Ok(Slot::Pool(Box::new(alloc, cell)?))
}

/// A slot with one of this many lines. It moves the line.
fn line_slot(
    alloc: Global,
    net: &Net,
    store: &Store,
    line: Line,
    lines: usize,
) -> Result<Slot, OutOfMemory>
    requires counted { IsCounted net.now.nodes store.now line }
    ensures row { IfOk result (λ x. IsRowOfLine net.now store.now lines line x) }
{
    let first = Snapshot::of(&line);
    let cell = LineCell {
        line,
        lines,
        first,
        net: Snapshot::of(net),
        store: Snapshot::of(store),
    };
    Ok(Slot::Line(Box::new(alloc, cell)?))
}

/// The pool of the tasks in flight, followed by the lines. It moves each line, and takes memory for each. If memory
/// runs out, the lines are dropped.
pub(crate) fn open(
    alloc: Global,
    net: &Net,
    store: &Store,
    parts: Parts,
    workers: usize,
) -> Result<Vec<Slot>, OutOfMemory>
    requires ready { ArePartsReady net.now.nodes store.now parts }
    ensures opened { IfOk result (λ v. IsOpened net.now store.now workers parts.flight.items (length parts.lines.items) parts.lines.items v.items) }
{
    let Parts { lines, flight } = parts;
    let count = lines.len();
    let pool = pool_slot(alloc, net, store, flight, workers)?;
    let mut rows = Vec::new(alloc);
    rows.push(pool)?;
    for line in lines {
        let row = line_slot(alloc, net, store, line, count)?;
        rows.push(row)?;
    }
    Ok(rows)
}

/// The lines in the slots, in their order. It moves each, and drops the pool.
pub(crate) fn lines_of(alloc: Global, slots: Vec<Slot>) -> Result<Vec<Line>, OutOfMemory>
    ensures { IfOk result (λ v. v.items ≡ rows_in slots.items) }
{
    let mut lines = Vec::new(alloc);
    for slot in slots {
        match slot {
            Slot::Pool(_) => (),
            Slot::Line(cell) => {
                let cell = Box::into_inner(cell);
                lines.push(cell.line)?;
            }
        }
    }
    Ok(lines)
}
