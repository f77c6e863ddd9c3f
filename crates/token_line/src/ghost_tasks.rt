//! The tasks that a task created, visible only to contracts.
ghost use Rattle.std.specs.Prelude.{◌≡◌, [], drop};

use net_base::tasks::Task;
use std::alloc::Global;
use std::marker::Model;
use std::snapshot::Snapshot;

/// A zero-sized record of a list of tasks. The tasks themselves have been passed on: no code can read them from it.
#[derive(Drop)]
pub struct GhostTasks {
    all: Snapshot<Vec<Task>>,
    from: Snapshot<usize>,
}

impl Model for GhostTasks {
    ghost use Rattle.std.specs.Prelude.{List, drop};
    ghost use Rattle.net_base.specs.declared.tasks.Task.{Task};

    ghost Value = { List Task };

    ghost view = { λ c. drop c.from.value c.all.value.items };
}

impl GhostTasks {
    /// No tasks. Takes no memory.
    pub fn none(alloc: Global) -> GhostTasks
        ensures { result ≡ [] }
    {
        GhostTasks::since(&Vec::new(alloc), 0)
    }

    /// Records the tasks in the list from this index on. Takes no memory.
    pub fn since(all: &Vec<Task>, from: usize) -> GhostTasks
        ensures { result ≡ drop from all.now.items }
    {
        GhostTasks {
            all: Snapshot::of(all),
            from: Snapshot::of(&from),
        }
    }
}
