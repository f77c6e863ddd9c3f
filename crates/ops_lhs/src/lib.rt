//! Reads the left side of a production: its conditions, and what they leave in sight.
//!
//! The comment above a reading method is the grammar of what the method reads. If a method's name ends in `_from`, the
//! first word was already taken and is passed to it.
#![tactic(auto)]

pub mod around;
mod conditions;
mod elements;
mod groups;
mod holes;
mod left;
mod patterns;
mod reading;
mod several;
pub mod sides;
mod sight;
mod specific;
mod testing;

pub use around::Around;
pub use reading::{left_from, left_side, read_lhs};
pub use sides::LeftSide;
pub use sight::{cells_of_conditions, classes_of_cells};
pub use specific::specificity;
