//! Passes: they are split from the first one, and joined to it again.
ghost use Rattle.std.specs.Prelude.{◌≡◌, ◌+◌, ◌-◌, ◌<◌};
ghost use Rattle.turn_table.specs.Views.{after_split, newborn, after_join};
ghost use Rattle.turn_table.specs.Turns.{IsPassOf, IsFirstOf, knows, number, splits, split_off};

use crate::cells::Cells;
use crate::kept::Kept;
use crate::plays::Part;
use crate::views::View;
use atomic_table::Seat;

/// The counts of a pass.
#[derive(Clone, Copy)]
pub struct Counts {
    pub(crate) number: usize,
    pub(crate) splits: usize,
    pub(crate) apart: usize,
}

/// What a thread needs to claim cells. It can move to another thread.
#[derive(Drop)]
pub struct Pass<T: Kept> {
    pub(crate) seat: Seat<Option<T>, View<T, T::Entry>>,
    pub(crate) counts: Counts,
}

impl<T: Kept> Cells<T> {
    /// A further pass, with the next number. It takes one atomic step and no memory.
    pub fn split(&self, pass: &mut Pass<T>) -> Pass<T>
        requires first { IsFirstOf self.now pass.old }
        requires room { splits pass.old < 4294967296 }
        ensures first { IsFirstOf self.now pass.new }
        ensures knows { knows pass.new ≡ after_split (knows pass.old) }
        ensures splits { splits pass.new ≡ splits pass.old + 1 }
        ensures split_off { split_off pass.new ≡ split_off pass.old + 1 }
        ensures new { IsPassOf self.now result }
        ensures new_knows { knows result ≡ newborn (knows pass.old) }
        ensures new_number { number result ≡ splits pass.old + 1 }
    {
        let seat = self.table.shared.split_seat::<Part>(&mut pass.seat);
        pass.counts.splits += 1;
        pass.counts.apart += 1;
        Pass {
            seat,
            counts: Counts {
                number: pass.counts.splits,
                splits: 0,
                apart: 0,
            },
        }
    }

    /// The first pass takes over what the other pass gave and saw. It takes one atomic step and no memory.
    pub fn join(&self, first: &mut Pass<T>, pass: Pass<T>)
        requires first { IsFirstOf self.now first.old }
        requires pass { IsPassOf self.now pass }
        ensures first { IsFirstOf self.now first.new }
        ensures knows { knows first.new ≡ after_join (knows first.old) (knows pass) }
        ensures splits { splits first.new ≡ splits first.old }
        ensures split_off { split_off first.new ≡ split_off first.old - 1 }
    {
        let Pass { seat, counts: _ } = pass;
        self.table.shared.join_seat::<Part>(&mut first.seat, seat);
        first.counts.apart = first.counts.apart.saturating_sub(1);
    }
}

impl<T: Kept> Pass<T> {
    /// 0 for the first pass; otherwise the number of passes that had been split off by then, this one included.
    pub fn number(&self) -> usize
        ensures { result ≡ number self.now }
    {
        self.counts.number
    }

    /// How many passes were split from it and are not joined.
    pub fn split_off(&self) -> usize
        ensures { result ≡ split_off self.now }
    {
        self.counts.apart
    }
}
