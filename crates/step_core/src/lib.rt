//! The world of a parallel match, its steps, and their laws: what every list of steps preserves, and what the lines
//! hold when nothing is pending.
#![tactic(auto)]

mod done;
mod feeding;
mod gathering;
pub mod laws;
mod start;
mod worked;
pub mod world;

pub use gathering::{Gathered, gather, gather_worked};
pub use world::{Parts, Step, World};
