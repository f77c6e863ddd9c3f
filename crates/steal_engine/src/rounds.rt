//! A task that was performed.
use net_base::tasks::Task;
use std::collections::LinkedList;

/// A task that was performed, and the children that it created. No value of this type is ever made.
pub(crate) struct Round {
    pub(crate) task: Task,
    pub(crate) children: LinkedList<Task>,
}
