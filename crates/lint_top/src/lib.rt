//! The faults and slips of a text that consists of files, one line for each: from the words of the command line to
//! the bytes that are written and the status.
#![tactic(auto)]

pub mod laws;
mod lines;
mod lint;
mod places;
pub mod remarks;
mod report;
mod saids;
mod saying;
mod statuses;
#[cfg(test)]
mod tests;

pub use laws::places_are_translated;
pub use lint::lint_run;
pub use remarks::MOST_WARNINGS;
pub use report::MOST_ERRORS;
pub use statuses::{LintStatus, code};
