//! Tables of states that accept prefixes of bytes: deterministic automata whose longest match is proved.
#![tactic(auto)]

pub mod dfa;

pub use dfa::Dfa;
