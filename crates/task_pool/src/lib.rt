//! The queue of tasks of a phase, with an entry for everything that was taken from it and given to it.
#![tactic(auto)]

pub mod laws;
pub mod pool;
#[cfg(test)]
mod tests;

pub use pool::{Pool, PoolEntry, Taken};
