//! The generated workload: the text of a program of any size, from a number.
#![tactic(auto)]

mod lines;
#[cfg(test)]
mod tests;
mod text;

pub use text::gen_text;
