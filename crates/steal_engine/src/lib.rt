//! The stealing engine: a matcher over a network whose tasks are performed by several threads, each with its own
//! deque.
#![tactic(auto)]

mod acts;
mod cells;
mod deques;
mod engine;
pub mod laws;
mod phase;
mod phases;
mod ring;
mod rounds;
mod rows;
mod running;
mod seats;
mod sharing;
mod team;
mod working;

pub use engine::StealEngine;
