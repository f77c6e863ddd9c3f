//! The tests of one condition: its normal form, and its alpha, which looks only at one element.
#![tactic(auto)]

pub mod alpha;
pub mod normal;
pub mod parts;
#[cfg(test)]
mod tests;
