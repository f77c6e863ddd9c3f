//! The cells of a shared phase: line i in cell i, a pointer wide; and the lines taken out of them again.
ghost use Rattle.std.specs.Prelude.{◌≡◌, All, IfOk, length, map};
ghost use Rattle.activation.specs.Acting.{IsCounted};
ghost use Rattle.steal_engine.specs.Opened.{AreRows, IsRowOfLine, line_in};

use crate::cells::LineCell;
use net_base::net::Net;
use ops_base::memory::OutOfMemory;
use std::alloc::Global;
use std::snapshot::Snapshot;
use token_line::{Entry, Line};
use turn_table::Kept;
use work_store::Store;

/// A line in a cell.
#[derive(Drop)]
pub(crate) struct Row {
    pub(crate) cell: Box<LineCell>,
}

/// What no turn changes. No value of this type is ever made.
pub(crate) struct RowName {
    pub(crate) number: usize,
    pub(crate) lines: usize,
    pub(crate) first: Snapshot<Line>,
    pub(crate) net: Snapshot<Net>,
    pub(crate) store: Snapshot<Store>,
}

impl Kept for Row {
    ghost use Rattle.steal_engine.specs.Rows.{entries, name, signature};

    type Entry = Entry;

    type Name = RowName;

    ghost entries = { entries };

    ghost name = { name };

    ghost signature = { signature };

    fn count(&self) -> usize {
        self.cell.line.entries().len()
    }
}

/// A row with one of this many lines. It moves the line.
fn row_of(
    alloc: Global,
    net: &Net,
    store: &Store,
    line: Line,
    lines: usize,
) -> Result<Row, OutOfMemory>
    requires counted { IsCounted net.now.nodes store.now line }
    ensures row { IfOk result (λ x. IsRowOfLine net.now store.now lines line x) }
{
    let first = Snapshot::of(&line);
    let cell = LineCell {
        line,
        lines,
        first,
        net: Snapshot::of(net),
        store: Snapshot::of(store),
    };
    let cell = Box::new(alloc, cell)?;
    Ok(Row { cell })
}

/// Puts the lines into rows. It moves each line, and takes memory for each. If memory runs out, the lines are
/// dropped.
pub(crate) fn open(
    alloc: Global,
    net: &Net,
    store: &Store,
    lines: Vec<Line>,
) -> Result<Vec<Row>, OutOfMemory>
    requires counted { All (IsCounted net.now.nodes store.now) lines.items }
    ensures opened { IfOk result (λ v. AreRows net.now store.now (length lines.items) lines.items v.items) }
{
    let count = lines.len();
    let mut rows = Vec::new(alloc);
    for line in lines {
        let row = row_of(alloc, net, store, line, count)?;
        rows.push(row)?;
    }
    Ok(rows)
}

/// The lines in the cells, in their order. It moves each.
pub(crate) fn lines_of(alloc: Global, rows: Vec<Row>) -> Result<Vec<Line>, OutOfMemory>
    ensures { IfOk result (λ v. v.items ≡ map line_in rows.items) }
{
    let mut lines = Vec::new(alloc);
    for row in rows {
        let cell = Box::into_inner(row.cell);
        lines.push(cell.line)?;
    }
    Ok(lines)
}
