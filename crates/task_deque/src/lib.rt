//! The deque of one worker: its owner pushes and pops tasks, one thief steals, and each task comes out once.
#![tactic(auto)]

mod ends;
mod handles;
mod plays;
#[cfg(test)]
mod tests;

pub use handles::{OwnEnd, ThiefEnd};
pub use plays::{Fair, Fitting, Known};
