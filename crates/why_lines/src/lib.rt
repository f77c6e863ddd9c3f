//! The lines that explain the productions in force: the instantiations of each, or where its match ends.
#![tactic(auto)]

mod lines;
mod pieces;
mod putting;
mod spots;

pub use putting::put_why;
