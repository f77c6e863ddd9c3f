//! The top call: from the words of the command line to the bytes that are written and the status.
#![tactic(auto)]

mod answer;
mod closing;
mod engines;
mod files;
mod jobs;
mod laws;
mod lines;
mod makers;
mod overlapping;
mod saying;
mod top;

pub use laws::firings_are_limited;
pub use ops_base::endings::{ActKind, Fault, Limit};
pub use ops_meaning::Status;
pub use top::{code, ops_run, still_run};
