//! The result of reading a left side.

use ops_base::actions::Hole;
use ops_base::conditions::Part;
use ops_forms::{Declared, Named};

/// The conditions and groups of a production, and what they leave in sight for its right side.
#[derive(Drop)]
pub struct LeftSide {
    pub conditions: Vec<Part>,
    /// The value variables that the positive conditions bind, with their numbers.
    pub values: Declared<Named>,
    /// The element variables, with their cells.
    pub elements: Declared<Named>,
    /// How many variables were given a number, including those of negated conditions and groups.
    pub variables: usize,
    /// How many constants they have.
    pub counted: usize,
    /// Those of them that are holes.
    pub holes: Vec<Hole>,
}
