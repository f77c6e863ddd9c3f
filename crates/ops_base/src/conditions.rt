//! The left sides of productions.

use crate::list::Listed;
use crate::values::{Pred, Value};

#[derive(Debug, Drop)]
pub enum Operand {
    Constant(Value),
    /// A disjunction, which holds where the field equals one of these.
    OneOf(Listed<Value>),
    Variable(usize),
}

/// One test of a field. A test that binds puts the field's value at its variable.
#[derive(Debug, Drop)]
pub struct Test {
    pub field: usize,
    pub pred: Pred,
    pub operand: Operand,
    pub binds: bool,
}

/// A condition element: a class and the tests of its fields in text order.
#[derive(Debug, Drop)]
pub struct Condition {
    pub class: usize,
    pub negated: bool,
    pub tests: Listed<Test>,
}

/// A part of a left side: a condition, or a group.
#[derive(Debug, Drop)]
pub enum Part {
    One(Condition),
    /// Its members, two or more and none negated. A group holds if no list of elements, one for each member and the same
    /// one allowed twice, meets the members in order.
    Group(Listed<Condition>),
}
