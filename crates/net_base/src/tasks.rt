//! Tasks: what is still to be done at the nodes of a network.
ghost use Rattle.std.specs.Prelude.{◌≡◌, IfOk};

use crate::tags::Tags;
use ops_base::memory::OutOfMemory;
use std::alloc::Global;

/// The side of a node at which a token is or arrives.
#[derive(Clone, Copy, Debug, PartialEq, Eq)]
pub enum Side {
    Left,
    Right,
}

/// A token arrives at one side of a node if `plus` is set, and leaves it otherwise. A right token is the tag of one
/// element, or at a group a token of its giver.
#[derive(Drop)]
pub struct Task {
    pub node: usize,
    pub side: Side,
    pub plus: bool,
    pub token: Tags,
}

impl Task {
    /// A copy of the task. Takes memory if the token has more than five tags.
    pub fn copy(&self, alloc: Global) -> Result<Task, OutOfMemory>
        ensures { IfOk result (λ t. t ≡ self.now) }
    {
        let token = self.token.copy(alloc)?;
        Ok(Task {
            node: self.node,
            side: self.side,
            plus: self.plus,
            token,
        })
    }
}
