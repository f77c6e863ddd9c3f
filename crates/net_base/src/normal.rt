//! Conditions in normal form: variables are replaced by what binds them, and tests that bind are left out.

use ops_base::list::Listed;
use ops_base::values::{Pred, Value};

/// A field of the element of a condition, which is identified by the number of positive conditions before it. For a
/// member of a group this number includes the members before it. For a positive condition or a member, the number is
/// the place of its element in a token; for a negated condition it refers to the element that is being tested.
#[derive(Clone, Copy, Debug, PartialEq, Eq)]
pub struct Origin {
    pub place: usize,
    pub field: usize,
}

/// What binds a variable.
#[derive(Clone, Copy, Debug, PartialEq, Eq)]
pub struct Binder {
    pub variable: usize,
    pub origin: Origin,
}

/// What a test compares a field with.
#[derive(Drop)]
pub enum NormalOperand {
    Constant(Value),
    OneOf(Listed<Value>),
    Bound(Origin),
}

/// A test that does not bind.
#[derive(Drop)]
pub struct NormalTest {
    pub field: usize,
    pub pred: Pred,
    pub operand: NormalOperand,
}

/// A condition without the tests that bind. A member of a group is not negated.
#[derive(Drop)]
pub struct NormalCondition {
    pub negated: bool,
    pub class: usize,
    pub tests: Listed<NormalTest>,
}

/// A part of a left side in normal form: a condition, or the members of a group.
#[derive(Drop)]
pub enum NormalPart {
    One(NormalCondition),
    Group(Listed<NormalCondition>),
}
