//! Tests of reading, of what no clause says: real files and streams, limits, and faults as they are shown.
#![tactic(auto)]

#[cfg(test)]
mod devices;
#[cfg(test)]
mod expressions;
#[cfg(test)]
mod limits;
