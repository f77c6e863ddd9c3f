//! Tests of the match, for what no clause says: what a line keeps, codes of tokens, and the calls of a gate.
#![tactic(auto)]

#[cfg(test)]
mod counting;
#[cfg(test)]
mod lines;
#[cfg(test)]
mod networks;
#[cfg(test)]
mod serial;
#[cfg(test)]
mod sharing;
