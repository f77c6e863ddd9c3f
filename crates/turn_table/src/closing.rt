//! How cells end.
ghost use Rattle.std.specs.Prelude.{◌≡◌, ℕ, ◌<◌, ◌≤◌, [], vec_len, vec_capacity, Some, IfOk, IfErr};
ghost use Rattle.std.specs.Mem.Slots.{IsFull, slots_items, slots_len};
ghost use Rattle.turn_table.specs.Log.{IsAt};
ghost use Rattle.turn_table.specs.Ends.{Accounts};
ghost use Rattle.turn_table.specs.Turns.{IsFirstOf, knows, split_off, rows};

use crate::cells::Cells;
use crate::kept::Kept;
use crate::passes::Pass;
use crate::plays::Read;
use crate::views::View;
use atomic_table::{Closed as ClosedTable, Seat};
use ops_base::memory::OutOfMemory;
use std::alloc::Global;
use std::snapshot::Snapshot;

/// Everything that was given to cells, one row for each entry. Only contracts can see it: it has no bytes.
#[derive(Drop)]
pub struct MadeLog<T: Kept> {
    pub(crate) seat: Snapshot<Seat<Option<T>, View<T, T::Entry>>>,
}

/// The values at the end, and the log of everything that was given.
#[derive(Drop)]
pub struct Closed<T: Kept> {
    pub cells: Vec<T>,
    pub made: MadeLog<T>,
}

// Takes the values out of their slots, into a list that has room for them.
fn taken<T: Kept>(mut closed: ClosedTable<Option<T>, Global>, mut cells: Vec<T>) -> Vec<T>
    requires full { IsFull closed.slots }
    requires home { (cell : ℕ) → cell < slots_len closed.slots → (value : T) × IsAt (slots_items closed.slots) cell (Some value) }
    requires empty { cells.items ≡ [] }
    requires room { slots_len closed.slots ≤ vec_capacity cells }
    ensures len { vec_len result ≡ slots_len closed.slots }
    ensures values { (cell : ℕ) (value : T) → IsAt (slots_items closed.slots) cell (Some value) → IsAt result.items cell value }
{
    for cell in 0..closed.slot_count() {
        let Some(value) = closed.take(cell) else {
            unreachable!()
        };
        cells.push_reserved(value);
    }
    closed.free();
    cells
}

impl<T: Kept> Cells<T> {
    /// The values, once each other pass was joined, and the log of everything that was given. If memory runs out, the
    /// cells and the pass are returned as they were.
    pub fn close(self, pass: Pass<T>) -> Result<Closed<T>, (Cells<T>, Pass<T>, OutOfMemory)>
        requires first { IsFirstOf self pass }
        requires all_joined { split_off pass ≡ 0 }
        ensures log { IfOk result (λ closed. Accounts T.entries T.name T.signature (knows pass) closed.cells.items (rows closed.made)) }
        ensures err { IfErr result (λ refused. (refused.0 ≡ self) × (refused.1 ≡ pass)) }
    {
        let Ok(cells) = Vec::with_capacity(self.alloc, self.table.slot_count()) else {
            return Err((self, pass, OutOfMemory));
        };
        let Cells { table, alloc: _ } = self;
        let Pass {
            mut seat,
            counts: _,
        } = pass;
        table.shared.load::<Read<T>>(&mut seat, 0);
        let made = MadeLog {
            seat: Snapshot::of(&seat),
        };
        Ok(Closed {
            cells: taken(table.close_with(seat), cells),
            made,
        })
    }
}
