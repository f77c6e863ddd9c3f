//! The words of the command line, read with `clap`.
#![tactic(auto)]

mod arguments;
mod command;
mod faults;
mod files;
mod numbers;
mod reading;
#[cfg(test)]
mod tests;

pub use arguments::words_after_name;
pub use faults::WordsFault;
pub use ops_jobs::{Engine, FileList, Job, Options};
pub use reading::read_words;
