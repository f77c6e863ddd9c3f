//! The conflict set as an index: the members that have not fired, in the order of dominance, and those that have.
#![tactic(auto)]

mod index;
mod laws;
mod marks;
mod order;
mod rank;
mod standing;

pub use index::Index;
pub use laws::outranking_is_dominance;
pub use order::ByDominance;
