//! Tasks that were performed and are not finished yet.
ghost use Rattle.std.specs.Prelude.{◌≡◌, ◌≤◌, ◌<◌, ◌+◌, ◌∷◌, ◌++◌, [], length, map, remove, set, slice_get, Some, vec_len, vec_capacity};
ghost use Rattle.net_base.specs.declared.tasks.Task.{Task};
ghost use Rattle.step_core.specs.inner.Doing.{entry_of};

use net_base::tags::Tags;
use net_base::tasks::{Side, Task};
use std::alloc::Global;
use std::mem;

/// A task that was performed, and the tasks that it created.
#[derive(Drop)]
pub(crate) struct Done {
    pub(crate) task: Task,
    pub(crate) children: Vec<Task>,
}

/// Takes the task at that place out of the flight and leaves a placeholder without tags in its place. Takes no
/// memory.
pub(crate) fn lift(flight: &mut Vec<Task>, alloc: Global, index: usize) -> Task
    requires { index < length flight.old.items }
    ensures task { slice_get flight.old.items index ≡ Some result }
    ensures rest { (blank : Task) × (flight.new.items ≡ set flight.old.items index blank) }
{
    let blank = Task {
        node: 0,
        side: Side::Left,
        plus: true,
        token: Tags::new(alloc),
    };
    mem::replace(&mut flight[index], blank)
}

/// Appends the tasks to a list that has room for them.
pub(crate) fn deliver(flight: &mut Vec<Task>, mut tasks: Vec<Task>)
    requires { vec_len flight.old + vec_len tasks ≤ vec_capacity flight.old }
    ensures { flight.new.items ≡ flight.old.items ++ tasks.items }
{
    let _moved = flight.append(&mut tasks);
}

/// Moves the task at that place out of the flight, and appends it with these children to the tasks that are done.
pub(crate) fn move_to_done(
    flight: &mut Vec<Task>,
    index: usize,
    children: Vec<Task>,
    done: &mut Vec<Done>,
)
    requires within { index < length flight.old.items }
    requires room { vec_len done.old < vec_capacity done.old }
    ensures flight { flight.new.items ≡ remove flight.old.items index }
    ensures count { length flight.new.items + length done.new.items ≡ length flight.old.items + length done.old.items }
    ensures done { (x : Task) → slice_get flight.old.items index ≡ Some x → map entry_of done.new.items ≡ map entry_of done.old.items ++ record { task = x; children = children.items } ∷ [] }
{
    let task = flight.remove(index);
    done.push_reserved(Done { task, children });
}
