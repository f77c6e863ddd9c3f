//! The engine of free workers: a matcher over a network whose tasks are performed by several threads in any order.
#![tactic(auto)]

mod cells;
mod engine;
pub mod laws;
mod phase;
mod phases;
mod slots;
mod team;
mod turns;
mod working;

pub use engine::FreeEngine;
