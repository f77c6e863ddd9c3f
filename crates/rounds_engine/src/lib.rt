//! The engine of rounds: a matcher over a network whose shards of lines work in parallel.
#![tactic(auto)]

mod engine;
mod ground;
mod phases;
mod rounds;
mod shards;
#[cfg(test)]
mod tests;

pub use engine::RoundsEngine;
