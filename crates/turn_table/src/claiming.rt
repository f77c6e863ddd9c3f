//! Claiming a cell.
ghost use Rattle.std.specs.Prelude.{◌≡◌, ◌<◌, length, IfSome, IfNone};
ghost use Rattle.turn_table.specs.Log.{given_to, signed_by};
ghost use Rattle.turn_table.specs.Views.{after_claim};
ghost use Rattle.turn_table.specs.Steps.{Comes, Takes};
ghost use Rattle.turn_table.specs.Turns.{IsPassOf, IsTurnOf, IsIdle, first_values, knows, number, value, claimed_value, turn_cell, turn_knows, turn_number};

use crate::cells::Cells;
use crate::kept::Kept;
use crate::passes::Pass;
use crate::plays::Claim;
use crate::turns::Turn;
use crate::views::View;
use atomic_table::Seat;
use crossbeam_utils::Backoff;
use std::snapshot::Snapshot;
use std::sync::Wait;

impl<T: Kept> Cells<T> {
    // Takes the cell if its value is home, and then returns its word.
    fn try_claim(&self, seat: &mut Seat<Option<T>, View<T, T::Entry>>, cell: usize) -> Option<u64>
        requires table { seat.old.table_id ≡ self.now.table.shared.table_id }
        requires cell { cell < length (first_values self.now) }
        requires idle { IsIdle seat.old.me.0 }
        ensures table { seat.new.table_id ≡ seat.old.table_id }
        ensures took { IfSome result (λ word. Takes T.entries T.name T.signature cell word seat.old.me seat.new.me) }
        ensures same { IfNone result (seat.new.me ≡ seat.old.me) }
    {
        let word = self.table.shared.peek(cell);
        if word % 2 == 1 {
            return None;
        }
        let found = self
            .table
            .shared
            .compare_exchange::<Claim<T>>(seat, cell, word, word + 1);
        if found == word { Some(word) } else { None }
    }

    // Tries until it has the cell, and returns its word.
    fn take_cell<R: Wait>(
        &self,
        rt: &R,
        seat: &mut Seat<Option<T>, View<T, T::Entry>>,
        cell: usize,
    ) -> u64
        requires table { seat.old.table_id ≡ self.now.table.shared.table_id }
        requires cell { cell < length (first_values self.now) }
        requires idle { IsIdle seat.old.me.0 }
        ensures table { seat.new.table_id ≡ seat.old.table_id }
        ensures took { Takes T.entries T.name T.signature cell result seat.old.me seat.new.me }
    {
        let backoff = Backoff::new();
        for _ in rt.forever() {
            if let Some(word) = self.try_claim(seat, cell) {
                return word;
            }
            backoff.snooze();
        }
        unreachable!()
    }

    /// Waits until the cell's value is home, and takes it. If it is home and no other pass claims it at that moment,
    /// this takes two atomic steps; each further try takes one or two. It takes no memory. Nothing is promised about
    /// how long it waits: passes are served in no order, and one may wait for ever.
    pub fn claim<R: Wait>(&self, rt: &R, pass: Pass<T>, cell: usize) -> Turn<T>
        requires pass { IsPassOf self.now pass }
        requires cell { cell < length (first_values self.now) }
        ensures turn { IsTurnOf T.entries self.now result }
        ensures cell { turn_cell result ≡ cell }
        ensures number { turn_number result ≡ number pass }
        ensures knows { turn_knows result ≡ after_claim T.entries (knows pass) cell (value result) }
        ensures value { Comes T.entries T.name T.signature (knows pass) cell (value result) }
        ensures mine { signed_by T.signature (number pass) (T.entries (value result)) ≡ signed_by T.signature (number pass) (given_to cell (knows pass).own) }
        ensures claimed { claimed_value result ≡ value result }
    {
        let Pass { mut seat, counts } = pass;
        let word = self.take_cell(rt, &mut seat, cell);
        let Some(value) = self.table.shared.exchange(&mut seat, cell, None) else {
            unreachable!()
        };
        let was = Snapshot::of(&value);
        Turn {
            seat,
            counts,
            cell,
            word,
            value,
            was,
        }
    }
}
