//! A task that was performed, visible only to contracts.
ghost use Rattle.std.specs.Prelude.{◌≡◌};

use net_base::tasks::Task;
use std::marker::Model;
use std::snapshot::Snapshot;

/// A zero-sized record of a task. No code can read the task from it.
#[derive(Drop)]
pub struct GhostTask {
    task: Snapshot<Task>,
}

impl Model for GhostTask {
    ghost use Rattle.net_base.specs.declared.tasks.Task.{Task};

    ghost Value = { Task };

    ghost view = { λ d. d.task.value };
}

impl GhostTask {
    /// Records that this task was performed. Takes no memory.
    pub fn of(task: &Task) -> GhostTask
        ensures { result ≡ task.now }
    {
        GhostTask {
            task: Snapshot::of(task),
        }
    }
}
