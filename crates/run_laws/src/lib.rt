//! Laws about what programs do, proved from the definitions alone.
#![tactic(auto)]

pub mod laws;
