//! Reads the right side of a production: its actions, and what is in sight after them.
//!
//! The comment above a reading method is the grammar of what the method reads. If a method's name ends in `_from`, the
//! first word was already taken and is passed to it.
#![tactic(auto)]

mod actions;
mod bindings;
mod build;
mod cells;
mod designators;
mod expressions;
mod functions;
mod holes;
mod items;
mod puts;
mod reading;
mod right;
pub mod sides;
mod substr;
mod values;

pub use reading::{read_rhs, right_side};
pub use sides::{RightSide, Sight};
