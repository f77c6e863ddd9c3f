//! A phase that a team of workers may share: on the calling thread first, and then with help if that pays.
#![tactic(auto)]

mod help;
mod phases;

pub use help::Load;
pub use phases::{Sharing, run_phase};
