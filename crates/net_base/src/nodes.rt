//! Nodes and alphas.

use ops_base::conditions::Test;
use ops_base::list::Listed;
use ops_base::values::Pred;

#[derive(Clone, Copy, Debug, PartialEq, Eq)]
pub enum Kind {
    /// For a positive condition or a member of a group: joins an element to a token.
    Join,
    /// For a negated condition: lets a token pass while no element matches it.
    Negated,
    /// For a group: lets a token pass while no token of its giver, the node of the group's last member, begins with
    /// that token. `width` is the number of tags of its left tokens, and a token of the giver has one more tag for
    /// each of the group's `members`.
    Group {
        giver: usize,
        width: usize,
        members: usize,
    },
    /// Below the last condition of a production.
    Terminal {
        rule: usize,
    },
}

/// Compares a field of the right element with the field `other` of the element at `place` of the left token.
#[derive(Clone, Copy, Debug, PartialEq, Eq)]
pub struct JoinTest {
    pub field: usize,
    pub pred: Pred,
    pub place: usize,
    pub other: usize,
}

/// A node. Its left tokens come from its parent, or from the root if it has none. The right tokens of a join or a
/// negated node are the elements that pass its alpha; those of a group are the tokens of its giver; a terminal has
/// none. The class and alpha of a group or a terminal are 0 and are not used, although an alpha 0 may exist: no
/// element goes to such a node.
#[derive(Drop)]
pub struct Node {
    pub kind: Kind,
    pub parent: Option<usize>,
    pub class: usize,
    pub alpha: usize,
    pub joins: Listed<JoinTest>,
    /// The nodes whose parent it is.
    pub children: Listed<usize>,
    /// The groups whose giver it is.
    pub rights: Listed<usize>,
    /// How many nodes a token passes from the root to here, including this one.
    pub depth: usize,
}

/// A class, and tests that look only at one element. A variable in such a test is a field of the same element.
#[derive(Drop)]
pub struct Alpha {
    pub class: usize,
    pub tests: Listed<Test>,
}
