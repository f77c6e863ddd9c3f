//! A turn: a cell's value, in the hands of the pass that holds the cell.
ghost use Rattle.std.specs.Prelude.{◌≡◌};
ghost use Rattle.std.specs.Borrow.{Lends, sem};
ghost use Rattle.turn_table.specs.contracts.turns.Turn.{the_row};
ghost use Rattle.turn_table.specs.Turns.{value, with_value};

use crate::kept::Kept;
use crate::passes::Counts;
use crate::views::View;
use atomic_table::Seat;
use std::snapshot::Snapshot;

/// A cell's value, in the hands of the pass that holds the cell. It has to be given or given back: it is not `Drop`,
/// so code that forgets it is rejected.
pub struct Turn<T: Kept> {
    pub(crate) seat: Seat<Option<T>, View<T, T::Entry>>,
    pub(crate) counts: Counts,
    pub(crate) cell: usize,
    // What the word of the cell was when it was claimed.
    pub(crate) word: u64,
    pub(crate) value: T,
    pub(crate) was: Snapshot<T>,
}

impl<T: Kept> Turn<T> {
    /// The value, for reading and changing. An error in the middle of a change must not leave by `?`, since the turn
    /// has to be given back first.
    pub fn value(&mut self) -> &mut T
        ensures* writes_back { sem 𝓛 (Lends (the_row T.row T.Entry.row T.Name.row) T.row self.entry result (with_value self.old)) }
        ensures value { result.now ≡ value self.old }
    {
        &mut self.value
    }
}
