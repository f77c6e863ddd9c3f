//! Two workers on a pool, with enough memory.
ghost use Rattle.std.specs.Prelude.{◌≡◌, [], IfOk};

use crate::{Pool, Taken};
use net_base::tags::Tags;
use net_base::tasks::{Side, Task};
use ops_base::memory::OutOfMemory;
use std::alloc::Global;
use std::test::Fail;

// the task of element 1 arriving at a node
fn task_at(alloc: Global, node: usize) -> Result<Task, OutOfMemory> {
    let token = Tags::from_slice(alloc, &[1])?;
    Ok(Task {
        node,
        side: Side::Right,
        plus: true,
        token,
    })
}

// tasks at nodes 4 and 5, for two workers
fn pool_of_two(alloc: Global) -> Result<Pool, OutOfMemory>
    ensures workers { IfOk result (λ p. p.workers.value ≡ 2) }
    ensures entries { IfOk result (λ p. p.entries.items ≡ []) }
{
    let mut tasks = Vec::new(alloc);
    tasks.push(task_at(alloc, 4)?)?;
    tasks.push(task_at(alloc, 5)?)?;
    Pool::new(alloc, tasks, 2)
}

// the node of the task that was taken
fn node_of(taken: &Taken) -> Option<usize> {
    match taken {
        Taken::Task(task) => Some(task.node),
        _ => None,
    }
}

#[test]
fn children_wait_after_all_others(rt: HostRuntime) -> Result<(), Fail> {
    let alloc = rt.alloc();
    let mut pool = pool_of_two(alloc)?;
    let Taken::Task(first) = pool.take(0) else {
        return Err(Fail::from("no such answer"));
    };
    let mut children = Vec::new(alloc);
    children.push(task_at(alloc, 6)?)?;
    pool.finish(alloc, 0, &mut children)?;
    assert_eq!(rt; (first.node, children.len()), (4, 0));
    let Taken::Task(second) = pool.take(1) else {
        return Err(Fail::from("no such answer"));
    };
    assert_eq!(rt; second.node, 5);
    let child = pool.take(0);
    assert_eq!(rt; node_of(&child), Some(6));
    assert_eq!(rt; pool.entries().len(), 4);
    Ok(())
}

#[test]
fn a_stop_ends_all(rt: HostRuntime) -> Result<(), Fail> {
    let mut pool = pool_of_two(rt.alloc())?;
    let Taken::Task(_) = pool.take(1) else {
        return Err(Fail::from("no such answer"));
    };
    pool.stop(1);
    let Taken::Stopped { by } = pool.take(0) else {
        return Err(Fail::from("no such answer"));
    };
    assert_eq!(rt; (by, pool.entries().len()), (1, 2));
    Ok(())
}
