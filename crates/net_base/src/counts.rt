//! The size of a network.

/// The numbers of alphas and of nodes of each kind. A group is counted among the negated nodes.
#[derive(Clone, Copy, Debug, PartialEq, Eq)]
pub struct Counts {
    pub alpha: usize,
    pub join: usize,
    pub negated: usize,
    pub terminal: usize,
}
