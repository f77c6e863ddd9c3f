//! One element against one condition.
ghost use Rattle.std.specs.Prelude.{◌≡◌, if◌then◌else◌, IfOk, Some, None, option_map};
ghost use Rattle.std.specs.List.{list_any};
ghost use Rattle.ops_base.specs.Values.{are_same, holds_of};
ghost use Rattle.ops_base.specs.Matching.{value_of, operand_holds, after_test, match_of};

use crate::conditions::{Condition, Operand, Test};
use crate::elements::Element;
use crate::memory::OutOfMemory;
use crate::values::{Pred, Value};
use std::alloc::Global;

/// What a variable is bound to.
#[derive(Clone, Copy, Debug, PartialEq, Eq)]
pub struct Binding {
    pub variable: usize,
    pub value: Value,
}

fn is_below(a: Value, b: Value) -> bool
    ensures { result ≡ holds_of Pred.Lt a b }
{
    match (a, b) {
        (Value::Whole(x), Value::Whole(y)) => x < y,
        _ => false,
    }
}

fn is_at_most(a: Value, b: Value) -> bool
    ensures { result ≡ holds_of Pred.Le a b }
{
    match (a, b) {
        (Value::Whole(x), Value::Whole(y)) => x <= y,
        _ => false,
    }
}

/// Whether the predicate holds of a field's value and an operand's value. It takes no memory.
pub fn holds(pred: Pred, a: Value, b: Value) -> bool
    ensures { result ≡ holds_of pred a b }
{
    match pred {
        Pred::Eq => a == b,
        Pred::Ne => a != b,
        Pred::Lt => is_below(a, b),
        Pred::Le => is_at_most(a, b),
        Pred::Gt => is_below(b, a),
        Pred::Ge => is_at_most(b, a),
        Pred::SameKind => match (a, b) {
            (Value::Symbol(_), Value::Symbol(_)) => true,
            (Value::Whole(_), Value::Whole(_)) => true,
            _ => false,
        },
    }
}

/// What a variable was bound to last. Looks through the bindings from their end.
#[tactic(auto, using(crate::proofs::Bound::value_of_last))]
pub fn bound_value(bindings: &[Binding], variable: usize) -> Option<Value>
    ensures { result ≡ value_of bindings.now variable }
{
    let mut left = bindings;
    while let Some((last, before)) = left.split_last() {
        if last.variable == variable {
            return Some(last.value);
        }
        left = before;
    }
    None
}

fn is_one_of(values: &[Value], a: Value) -> bool
    ensures { result ≡ list_any (λ c. are_same a c) values.now }
{
    values.iter().any(|value| a == *value)
}

fn operand_meets(test: &Test, a: Value, bindings: &[Binding]) -> bool
    ensures { result ≡ operand_holds test.now.pred a test.now.operand bindings.now }
{
    match &test.operand {
        Operand::Constant(c) => holds(test.pred, a, *c),
        Operand::OneOf(values) => is_one_of(values.as_slice(), a),
        Operand::Variable(v) => match bound_value(bindings, *v) {
            Some(b) => holds(test.pred, a, b),
            None => false,
        },
    }
}

/// Does one test, and binds its variable if it binds. Answers whether the test holds.
fn pass(test: &Test, e: &Element, found: &mut Vec<Binding>) -> Result<bool, OutOfMemory>
    ensures { IfOk result (λ b. after_test test.now e.now found.old.items ≡ (if b then Some found.new.items else None)) }
{
    let value = e.field(test.field);
    if !test.binds {
        return Ok(operand_meets(test, value, found.as_slice()));
    }
    if let Operand::Variable(v) = &test.operand {
        found.push(Binding {
            variable: *v,
            value,
        })?;
    }
    Ok(true)
}

/// The bindings with which the element meets the condition, `None` where it does not meet it. For an element of another
/// class it looks at the class alone. Otherwise it copies the bindings and does the tests up to the first that fails,
/// and each test of a variable looks through the bindings so far.
pub fn matched(
    alloc: Global,
    condition: &Condition,
    e: &Element,
    bindings: &[Binding],
) -> Result<Option<Vec<Binding>>, OutOfMemory>
    ensures { IfOk result (λ o. option_map (λ v. v.items) o ≡ match_of condition.now e.now bindings.now) }
{
    if e.class != condition.class {
        return Ok(None);
    }
    let mut found = Vec::from_slice(alloc, bindings)?;
    for test in condition.tests.as_slice() {
        if !pass(test, e, &mut found)? {
            return Ok(None);
        }
    }
    Ok(Some(found))
}
