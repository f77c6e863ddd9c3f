//! One test of a condition, decided by a table.
#![tactic(auto)]

ghost use Rattle.std.specs.Prelude.{◌≡◌, List, IsTrue, IsSome, is_some};
ghost use Rattle.std.specs.List.{list_any};
ghost use Rattle.ops_base.specs.declared.elements.Element.{Element};
ghost use Rattle.ops_base.specs.declared.matching.Binding.{Binding};
ghost use Rattle.ops_base.specs.Values.{are_same, holds_of};
ghost use Rattle.ops_base.specs.WorkingMemory.{field_of};
ghost use Rattle.ops_base.specs.Matching.{after_test};
ghost use Rattle.test_table.specs.Passing.{compares_with_variable, passes_of, IsBoundIn};

mod decisions;
mod table;
#[cfg(test)]
mod tests;

use crate::decisions::{of_numbers, of_symbols};
use crate::table::{between_numbers, between_symbols, between_two_kinds};
use ops_base::conditions::{Operand, Test};
use ops_base::values::{Pred, Value};

fn compares(pred: Pred, field: Value, operand: Value) -> bool
    ensures { result ≡ holds_of pred field operand }
{
    match (field, operand) {
        (Value::Symbol(a), Value::Symbol(b)) => of_symbols(between_symbols(pred), a, b),
        (Value::Symbol(_), Value::Whole(_)) => between_two_kinds(pred),
        (Value::Whole(_), Value::Symbol(_)) => between_two_kinds(pred),
        (Value::Whole(x), Value::Whole(y)) => of_numbers(between_numbers(pred), x, y),
    }
}

// A disjunction uses the row of `=`, whatever the predicate.
fn is_one_of(values: &[Value], field: Value) -> bool
    ensures { result ≡ list_any (λ c. are_same field c) values.now }
{
    values.iter().any(|value| compares(Pred::Eq, field, *value))
}

fn passed(test: &Test, field: Value, bound: Option<Value>) -> bool
    requires { IsTrue (compares_with_variable test.now) → IsSome bound }
    ensures { result ≡ passes_of test.now field bound }
{
    if test.binds {
        return true;
    }
    match &test.operand {
        Operand::Constant(value) => compares(test.pred, field, *value),
        Operand::OneOf(values) => is_one_of(values.as_slice(), field),
        Operand::Variable(_) => compares(test.pred, field, bound.unwrap()),
    }
}

/// Whether a field's value passes one test. `bound` is the value that the test's variable is bound to, and is present
/// if the test compares with a variable. A test that binds passes for every value. A disjunction passes if one of its
/// constants is the same value. Any other test passes if its predicate holds against the constant or the variable's
/// value.
///
/// It takes no memory. A call reads one entry of the table and makes one comparison. A test that binds does neither,
/// and a disjunction does both for each constant up to the first that is the same.
pub fn passes(test: &Test, field: Value, bound: Option<Value>) -> bool
    requires { IsTrue (compares_with_variable test.now) → IsSome bound }
    ensures meaning { result ≡ passes_of test.now field bound }
    ensures goes_on { (e : Element) (bindings : List Binding)
        → field ≡ field_of e test.now.field → IsBoundIn bindings test.now.operand bound
        → result ≡ is_some (after_test test.now e bindings) }
{
    passed(test, field, bound)
}
