//! An owner and a thief, first one after the other, and then on two threads.
ghost use Rattle.std.specs.Prelude.{◌≡◌, IfOk};
ghost use Rattle.task_deque.specs.Ends.{IsWhole, own_of, thief_of};

use crate::{OwnEnd, ThiefEnd};
use net_base::tags::Tags;
use net_base::tasks::{Side, Task};
use ops_base::memory::OutOfMemory;
use std::alloc::Global;
use std::marker::Brand;
use std::test::Fail;
use std::thread::{Threads, join};

// a task at a node
fn task_at(alloc: Global, node: usize) -> Result<Task, OutOfMemory> {
    let token = Tags::from_slice(alloc, &[1])?;
    Ok(Task {
        node,
        side: Side::Right,
        plus: true,
        token,
    })
}

// a deque of tasks at this many nodes, starting with node 0
fn deque_of(alloc: Global, count: usize) -> Result<OwnEnd<Brand>, OutOfMemory>
    ensures { IfOk result (λ e. IsWhole e) }
{
    let mut owner = OwnEnd::<Brand>::new(alloc, 2)?;
    for node in 0..count {
        if owner.push(task_at(alloc, node)?).is_err() {
            return Err(OutOfMemory);
        }
    }
    Ok(owner)
}

// the node of a task that was taken
fn node_of(taken: Option<Task>) -> Option<usize> {
    match taken {
        Some(task) => Some(task.node),
        None => None,
    }
}

#[test]
fn the_first_task_is_taken_at_both_ends(rt: HostRuntime) -> Result<(), Fail> {
    let mut owner = deque_of(rt.alloc(), 5)?;
    assert_eq!(rt; owner.len(), 5);
    let mut thief = owner.lend()?;
    assert_eq!(rt; node_of(owner.pop()), Some(0));
    assert_eq!(rt; node_of(thief.steal()), Some(1));
    assert_eq!(rt; node_of(owner.pop()), Some(2));
    owner.take_back(thief);
    assert_eq!(rt; node_of(owner.pop()), Some(3));
    assert_eq!(rt; node_of(owner.pop()), Some(4));
    assert_eq!(rt; node_of(owner.pop()), None);
    Ok(())
}

// The owner pushes tasks at this many nodes and pops some. Returns its end, the sum of the nodes of the popped tasks,
// and whether there was enough memory.
fn push_and_pop(owner: OwnEnd<Brand>, alloc: Global, count: usize) -> (OwnEnd<Brand>, usize, bool)
    ensures { own_of result.0 ≡ own_of owner }
{
    let mut owner = owner;
    let mut sum = 0usize;
    for node in 0..count {
        let Ok(task) = task_at(alloc, node) else {
            return (owner, sum, false);
        };
        if owner.push(task).is_err() {
            return (owner, sum, false);
        }
        if node % 3 == 0 {
            if let Some(first) = owner.pop() {
                sum = sum.wrapping_add(first.node);
            }
        }
    }
    (owner, sum, true)
}

// The thief looks this many times. Returns its end, and the sum of the nodes of the tasks that it stole.
fn steal_some(thief: ThiefEnd<Brand>, looks: usize) -> (ThiefEnd<Brand>, usize)
    ensures { thief_of result.0 ≡ thief_of thief }
{
    let mut thief = thief;
    let mut sum = 0usize;
    for _ in 0..looks {
        if let Some(first) = thief.steal() {
            sum = sum.wrapping_add(first.node);
        }
    }
    (thief, sum)
}

// The sum of the nodes of all tasks taken from a deque of these tasks, by two threads and then by one.
fn sum_of_all<R: Threads + Sync>(
    rt: &R,
    alloc: Global,
    count: usize,
) -> Result<usize, OutOfMemory> {
    let mut owner = OwnEnd::<Brand>::new(alloc, 4)?;
    let thief = owner.lend()?;
    let ((owner, popped, whole), (thief, stolen)) = join(
        rt,
        move || -> (OwnEnd<Brand>, usize, bool)
            ensures { own_of result.0 ≡ own_of owner }
        { push_and_pop(owner, alloc, count) },
        move || -> (ThiefEnd<Brand>, usize)
            ensures { thief_of result.0 ≡ thief_of thief }
        { steal_some(thief, count) },
    );
    if !whole {
        return Err(OutOfMemory);
    }
    let mut owner = owner;
    owner.take_back(thief);
    let mut sum = popped.wrapping_add(stolen);
    for _ in 0..count {
        if let Some(first) = owner.pop() {
            sum = sum.wrapping_add(first.node);
        }
    }
    Ok(sum)
}

#[test]
fn each_task_comes_out_once(rt: HostRuntime) -> Result<(), Fail> {
    let sum = sum_of_all(&rt, rt.alloc(), 100_000)?;
    assert_eq!(rt; sum, 4_999_950_000);
    Ok(())
}
