//! Conditions that no element can meet.
ghost use Rattle.std.specs.Prelude.{◌≡◌};
ghost use Rattle.std.specs.List.{list_any};
ghost use Rattle.ops_base.specs.Values.{are_same};
ghost use Rattle.program_slips.specs.Unmet.{passes_by, is_whole, is_order, are_crossed, are_crossed_values, are_of_two_kinds, exclude_constants, exclude_by, exclude, is_unmet};

use ops_base::conditions::{Condition, Operand, Test};
use ops_base::matching::holds;
use ops_base::values::{Pred, Value};

fn is_order(pred: Pred) -> bool
    ensures { result ≡ is_order pred }
{
    matches!(pred, Pred::Lt | Pred::Le | Pred::Gt | Pred::Ge)
}

fn is_whole(value: Value) -> bool
    ensures { result ≡ is_whole value }
{
    matches!(value, Value::Whole(_))
}

fn is_one_of(values: &[Value], value: Value) -> bool
    ensures { result ≡ list_any (λ c. are_same value c) values.now }
{
    values.iter().any(|each| value == *each)
}

fn passes_by(pred: Pred, operand: &Operand, value: Value) -> bool
    ensures { result ≡ passes_by pred operand.now value }
{
    match operand {
        Operand::Constant(constant) => holds(pred, value, *constant),
        Operand::OneOf(constants) => is_one_of(constants.as_slice(), value),
        Operand::Variable(_) => true,
    }
}

// whether the second number is at most one more than the first
fn is_next_or_less(low: i128, high: i128) -> bool
    ensures { result ≡ are_crossed Pred.Gt low Pred.Lt high }
{
    high <= low || high - 1 == low
}

fn are_crossed(lower: Pred, low: i128, upper: Pred, high: i128) -> bool
    ensures { result ≡ are_crossed lower low upper high }
{
    match (lower, upper) {
        (Pred::Gt, Pred::Lt) => is_next_or_less(low, high),
        (Pred::Gt, Pred::Le) => high <= low,
        (Pred::Ge, Pred::Lt) => high <= low,
        (Pred::Ge, Pred::Le) => high < low,
        _ => false,
    }
}

fn are_crossed_values(lower: Pred, low: Value, upper: Pred, high: Value) -> bool
    ensures { result ≡ are_crossed_values lower low upper high }
{
    match (low, high) {
        (Value::Whole(low), Value::Whole(high)) => are_crossed(lower, low, upper, high),
        _ => false,
    }
}

fn are_of_two_kinds(pred: Pred, value: Value, other: Pred, of: Value) -> bool
    ensures { result ≡ are_of_two_kinds pred value other of }
{
    match (pred, other) {
        (Pred::SameKind, Pred::SameKind) => is_whole(value) && !is_whole(of),
        (_, Pred::SameKind) => is_order(pred) && !is_whole(of),
        _ => false,
    }
}

fn exclude_constants(pred: Pred, value: Value, other: Pred, of: Value) -> bool
    ensures { result ≡ exclude_constants pred value other of }
{
    match pred {
        Pred::Eq => !holds(other, value, of),
        _ => {
            (is_order(pred) && !is_whole(value))
                || are_crossed_values(pred, value, other, of)
                || are_of_two_kinds(pred, value, other, of)
        }
    }
}

fn some_passes(values: &[Value], pred: Pred, operand: &Operand) -> bool
    ensures { result ≡ list_any (passes_by pred operand.now) values.now }
{
    values.iter().any(|value| passes_by(pred, operand, *value))
}

fn exclude_by(pred: Pred, operand: &Operand, other: Pred, of: &Operand) -> bool
    ensures { result ≡ exclude_by pred operand.now other of.now }
{
    match (operand, of) {
        (Operand::Constant(value), Operand::Constant(of)) => {
            exclude_constants(pred, *value, other, *of)
        }
        (Operand::OneOf(values), _) => !some_passes(values.as_slice(), other, of),
        _ => false,
    }
}

fn exclude(test: &Test, other: &Test) -> bool
    ensures { result ≡ exclude test.now other.now }
{
    !test.binds
        && !other.binds
        && test.field == other.field
        && exclude_by(test.pred, &test.operand, other.pred, &other.operand)
}

fn some_excludes(test: &Test, tests: &[Test]) -> bool
    ensures { result ≡ list_any (exclude test.now) tests.now }
{
    tests.iter().any(|other| exclude(test, other))
}

/// Whether two of its tests together, or one alone, let no value pass. Takes time in proportion to the square of the
/// tests of one condition.
pub(crate) fn is_unmet(condition: &Condition) -> bool
    ensures { result ≡ is_unmet condition.now }
{
    let tests = condition.tests.as_slice();
    tests.iter().any(|test| some_excludes(test, tests))
}
