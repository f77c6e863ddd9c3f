//! The deques of a team: tasks are dealt to them, and what is left in them is collected.
ghost use Rattle.std.specs.Prelude.{◌≡◌, ℕ, ◌+◌, ◌++◌, ◌∷◌, [], All, IfOk, OnOk, sum_by, length, vec_len};
ghost use Rattle.task_deque.specs.Ends.{IsWhole, of, pushed, popped, stolen, thief_of, thief_stolen, own_of};
ghost use Rattle.steal_engine.specs.Team.{AreOf, HasPoppedNone, HasStolenNone, IsFresh, weigh_popped, weigh_pushed, weigh_stolen};

use net_base::tasks::Task;
use ops_base::memory::OutOfMemory;
use std::alloc::Global;
use std::collections::VecDeque;
use std::sync::Wait;
use task_deque::{Fitting, OwnEnd, ThiefEnd};

/// How many tasks a deque has room for at first.
const ROOM: usize = 64;

/// This many deques, all empty.
pub(crate) fn deques<J: Fitting>(
    alloc: Global,
    count: usize,
) -> Result<VecDeque<OwnEnd<J>>, OutOfMemory>
    ensures fresh { IfOk result (λ v. All IsFresh v.items) }
    ensures none { IfOk result (λ v. (h : Task → ℕ) → weigh_pushed h v.items ≡ 0) }
    ensures count { IfOk result (λ v. length v.items ≡ count) }
{
    let mut owns = VecDeque::new(alloc);
    for _ in 0..count {
        owns.push_back(OwnEnd::new(alloc, ROOM)?)?;
    }
    Ok(owns)
}

/// Pushes a task to the first deque, and moves that deque behind the others.
fn deal_one<J: Fitting>(owns: &mut VecDeque<OwnEnd<J>>, task: Task) -> Result<(), OutOfMemory>
    requires fits { J.fits task }
    requires fresh { All IsFresh owns.old.items }
    ensures fresh { OnOk result (All IsFresh owns.new.items) }
    ensures more { OnOk result ((h : Task → ℕ) → weigh_pushed h owns.new.items ≡ weigh_pushed h owns.old.items + sum_by h (task ∷ [])) }
    ensures count { OnOk result (length owns.new.items ≡ length owns.old.items) }
{
    let Some(first) = owns.pop_front() else {
        return Err(OutOfMemory);
    };
    let mut own = first;
    match own.push(task) {
        Ok(()) => {
            owns.push_back(own)?;
            Ok(())
        }
        Err(_) => Err(OutOfMemory),
    }
}

/// Pushes the tasks to the deques in turn.
pub(crate) fn deal<J: Fitting>(
    owns: &mut VecDeque<OwnEnd<J>>,
    tasks: Vec<Task>,
) -> Result<(), OutOfMemory>
    requires fit { All J.fits tasks.items }
    requires fresh { All IsFresh owns.old.items }
    ensures fresh { OnOk result (All IsFresh owns.new.items) }
    ensures dealt { OnOk result ((h : Task → ℕ) → weigh_pushed h owns.new.items ≡ weigh_pushed h owns.old.items + sum_by h tasks.items) }
    ensures count { OnOk result (length owns.new.items ≡ length owns.old.items) }
{
    for task in tasks {
        deal_one(owns, task)?;
    }
    Ok(())
}

/// All deques with the thieves' ends, in the same order.
pub(crate) type Lent<J> = (VecDeque<OwnEnd<J>>, VecDeque<ThiefEnd<J>>);

/// Hands out each thief's end.
pub(crate) fn lend_all<J: Fitting>(
    alloc: Global,
    owns: VecDeque<OwnEnd<J>>,
) -> Result<Lent<J>, OutOfMemory>
    requires { All IsFresh owns.items }
    ensures of { IfOk result (λ r. AreOf r.0.items r.1.items) }
    ensures pushed { IfOk result (λ r. (h : Task → ℕ) → weigh_pushed h r.0.items ≡ weigh_pushed h owns.items) }
    ensures count { IfOk result (λ r. length r.0.items ≡ length owns.items) }
    ensures popped { IfOk result (λ r. All HasPoppedNone r.0.items) }
    ensures stolen { IfOk result (λ r. All HasStolenNone r.1.items) }
{
    let mut left = owns;
    let mut lent = VecDeque::new(alloc);
    let mut thieves = VecDeque::new(alloc);
    while let Some(first) = left.pop_front() {
        let mut own = first;
        let thief = own.lend()?;
        lent.push_back(own)?;
        thieves.push_back(thief)?;
    }
    Ok((lent, thieves))
}

/// Pops until there is no task.
fn drain<J: Fitting, R: Wait>(
    rt: &R,
    own: &mut OwnEnd<J>,
    left: &mut Vec<Task>,
) -> Result<(), OutOfMemory>
    requires whole { IsWhole own.old }
    requires fit { All J.fits left.old.items }
    ensures fit { OnOk result (All J.fits left.new.items) }
    ensures all { OnOk result ((h : Task → ℕ) → sum_by h (pushed own.old) + sum_by h left.old.items ≡ (sum_by h (popped own.old) + sum_by h (stolen own.old)) + sum_by h left.new.items) }
{
    for _ in rt.forever() {
        let Some(task) = own.pop() else {
            return Ok(());
        };
        left.push(task)?;
    }
    unreachable!()
}

/// Returns the end of the first thief to the first deque, and collects what is left in that deque.
fn take_in<J: Fitting, R: Wait>(
    rt: &R,
    own: OwnEnd<J>,
    thief: ThiefEnd<J>,
    left: &mut Vec<Task>,
) -> Result<(), OutOfMemory>
    requires of { thief_of thief ≡ of own }
    requires fit { All J.fits left.old.items }
    ensures fit { OnOk result (All J.fits left.new.items) }
    ensures all { OnOk result ((h : Task → ℕ) → sum_by h (pushed own) + sum_by h left.old.items ≡ (sum_by h (popped own) + sum_by h (thief_stolen thief)) + sum_by h left.new.items) }
{
    let mut own = own;
    own.take_back(thief);
    drain(rt, &mut own, left)
}

/// Collects what is left in all deques, once the ends of all thieves are back.
pub(crate) fn collect<J: Fitting, R: Wait>(
    rt: &R,
    alloc: Global,
    owns: VecDeque<OwnEnd<J>>,
    thieves: VecDeque<ThiefEnd<J>>,
) -> Result<Vec<Task>, OutOfMemory>
    requires of { AreOf owns.items thieves.items }
    ensures fit { IfOk result (λ v. All J.fits v.items) }
    ensures all { IfOk result (λ v. (h : Task → ℕ) → weigh_pushed h owns.items ≡ (weigh_popped h owns.items + weigh_stolen h thieves.items) + sum_by h v.items) }
{
    let mut left = Vec::new(alloc);
    let mut owns = owns;
    let mut thieves = thieves;
    while let Some(own) = owns.pop_front() {
        let Some(thief) = thieves.pop_front() else {
            unreachable!()
        };
        take_in(rt, own, thief, &mut left)?;
    }
    Ok(left)
}
