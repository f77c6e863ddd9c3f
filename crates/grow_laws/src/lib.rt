//! Growing in place: the laws of lines that hold the tokens of a network from before nodes were appended to it, and the
//! tasks that are due then.
#![tactic(auto)]

mod due;
pub mod laws;

pub use crate::due::tasks_due;
