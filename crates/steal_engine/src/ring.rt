//! Workers in a ring: each has a thief's end of the deque of the next.
ghost use Rattle.std.specs.Prelude.{◌≡◌, IfOk, IsTrue, All, length, map};
ghost use Rattle.steal_engine.specs.Ring.{turned};

use crate::seats::{Seat, Worked};
use ops_base::memory::OutOfMemory;
use std::alloc::Global;
use std::collections::VecDeque;
use task_deque::{Fitting, OwnEnd, ThiefEnd};

/// Moves the first thief behind the others.
pub(crate) fn turn<J: Fitting>(
    thieves: VecDeque<ThiefEnd<J>>,
) -> Result<VecDeque<ThiefEnd<J>>, OutOfMemory>
    ensures { IfOk result (λ v. v.items ≡ turned thieves.items) }
{
    let mut thieves = thieves;
    let Some(first) = thieves.pop_front() else {
        return Ok(thieves);
    };
    thieves.push_back(first)?;
    Ok(thieves)
}

/// Moves the last thief before the others.
pub(crate) fn turn_back<J: Fitting>(
    thieves: VecDeque<ThiefEnd<J>>,
) -> Result<VecDeque<ThiefEnd<J>>, OutOfMemory>
    ensures { IfOk result (λ v. turned v.items ≡ thieves.items) }
{
    let mut thieves = thieves;
    let Some(last) = thieves.pop_back() else {
        return Ok(thieves);
    };
    thieves.push_front(last)?;
    Ok(thieves)
}

/// A seat for each pass, with the owner and the thief at the same place.
pub(crate) fn seat_all<J: Fitting, P: Drop>(
    alloc: Global,
    passes: VecDeque<P>,
    owns: VecDeque<OwnEnd<J>>,
    thieves: VecDeque<ThiefEnd<J>>,
) -> Result<Vec<Seat<J, P>>, OutOfMemory>
    requires owns { length owns.items ≡ length passes.items }
    requires thieves { length thieves.items ≡ length passes.items }
    ensures passes { IfOk result (λ v. map (λ s. s.pass) v.items ≡ passes.items) }
    ensures owns { IfOk result (λ v. map (λ s. s.own) v.items ≡ owns.items) }
    ensures thieves { IfOk result (λ v. map (λ s. s.thief) v.items ≡ thieves.items) }
{
    let mut passes = passes;
    let mut owns = owns;
    let mut thieves = thieves;
    let mut seats = Vec::new(alloc);
    while let Some(pass) = passes.pop_front() {
        let Some(own) = owns.pop_front() else {
            unreachable!()
        };
        let Some(thief) = thieves.pop_front() else {
            unreachable!()
        };
        seats.push(Seat { pass, own, thief })?;
    }
    Ok(seats)
}

/// What all workers bring back. `whole` is true if none of them ran out of memory.
#[derive(Drop)]
pub(crate) struct Returned<J: Fitting, P> {
    pub(crate) passes: VecDeque<P>,
    pub(crate) owns: VecDeque<OwnEnd<J>>,
    pub(crate) thieves: VecDeque<ThiefEnd<J>>,
    pub(crate) whole: bool,
}

/// The passes, the owners and the thieves, each in the order of the workers.
pub(crate) fn part_all<J: Fitting, P: Drop>(
    alloc: Global,
    ended: Vec<Worked<J, P>>,
) -> Result<Returned<J, P>, OutOfMemory>
    ensures passes { IfOk result (λ r. r.passes.items ≡ map (λ e. e.pass) ended.items) }
    ensures owns { IfOk result (λ r. r.owns.items ≡ map (λ e. e.own) ended.items) }
    ensures thieves { IfOk result (λ r. r.thieves.items ≡ map (λ e. e.thief) ended.items) }
    ensures whole { IfOk result (λ r. IsTrue r.whole → All (λ e. IsTrue e.whole) ended.items) }
{
    let mut left = ended;
    let mut passes = VecDeque::new(alloc);
    let mut owns = VecDeque::new(alloc);
    let mut thieves = VecDeque::new(alloc);
    let mut whole = true;
    while let Some(worked) = left.pop() {
        let Worked {
            pass,
            own,
            thief,
            whole: one,
        } = worked;
        if !one {
            whole = false;
        }
        passes.push_front(pass)?;
        owns.push_front(own)?;
        thieves.push_front(thief)?;
    }
    Ok(Returned {
        passes,
        owns,
        thieves,
        whole,
    })
}
