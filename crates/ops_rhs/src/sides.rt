//! What is needed to read a right side, and the result of reading it.

use ops_base::actions::{Action, Hole};
use ops_base::list::Listed;
use ops_base::rules::Rule;
use ops_forms::{Declared, Named};

/// What is in sight at a right side.
#[derive(Drop)]
pub struct Sight {
    /// The value variables, with their numbers.
    pub values: Declared<Named>,
    /// The element variables, with their cells.
    pub elements: Declared<Named>,
    /// The class of each cell.
    pub cells: Listed<usize>,
    /// The cell of each part of the left side, `None` for a negated condition or a group.
    pub conditions: Listed<Option<usize>>,
    /// How many variables were given a number.
    pub variables: usize,
    /// How many constants were read.
    pub counted: usize,
    /// Those of them that are holes.
    pub holes: Vec<Hole>,
    /// The productions that actions build.
    pub templates: Vec<Rule>,
}

/// The actions of a production, and what is in sight after them.
#[derive(Drop)]
pub struct RightSide {
    pub actions: Vec<Action>,
    pub sight: Sight,
}
