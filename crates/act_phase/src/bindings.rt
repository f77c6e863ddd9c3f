//! What the variables of an instantiation are bound to.
ghost use Rattle.std.specs.Prelude.{◌≡◌, ◌++◌, IfOk, OnOk, Some, None, [], if◌then◌else◌, unwrap_or};
ghost use Rattle.std.specs.List.{list_any};
ghost use Rattle.ops_base.specs.Matching.{operand_holds, bound_to, after_test, after_tests};
ghost use Rattle.ops_base.specs.Values.{are_same};
ghost use Rattle.ops_base.specs.WorkingMemory.{field_of};
ghost use Rattle.ops_meaning.specs.Acting.{element_of, matched_by, bindings_of};

use ops_base::conditions::{Condition, Operand, Part, Test};
use ops_base::elements::Element;
use ops_base::matching::{Binding, bound_value, holds};
use ops_base::memory::OutOfMemory;
use ops_base::values::Value;
use std::alloc::Global;
use work_store::Store;

/// Whether a test of the condition binds a variable.
fn binds(condition: &Condition) -> bool
    ensures { result ≡ list_any (λ t. t.binds) condition.now.tests }
{
    condition.tests.as_slice().iter().any(|test| test.binds)
}

fn is_one_of(values: &[Value], value: Value) -> bool
    ensures { result ≡ list_any (λ c. are_same value c) values.now }
{
    values.iter().any(|each| value == *each)
}

/// Whether a test that binds nothing holds of a value.
fn meets(test: &Test, value: Value, bindings: &[Binding]) -> bool
    ensures { result ≡ operand_holds test.now.pred value test.now.operand bindings.now }
{
    match &test.operand {
        Operand::Constant(constant) => holds(test.pred, value, *constant),
        Operand::OneOf(values) => is_one_of(values.as_slice(), value),
        Operand::Variable(variable) => match bound_value(bindings, *variable) {
            Some(bound) => holds(test.pred, value, bound),
            None => false,
        },
    }
}

/// Performs one test, and adds the binding that it makes. Returns whether the test holds.
fn pass(test: &Test, e: &Element, bindings: &mut Vec<Binding>) -> Result<bool, OutOfMemory>
    ensures after { IfOk result (λ b. after_test test.now e.now bindings.old.items ≡ (if b then Some bindings.new.items else None)) }
    ensures adds { OnOk result (bindings.new.items
        ≡ bindings.old.items ++ (if test.now.binds then bound_to [] test.now.operand (field_of e.now test.now.field) else [])) }
{
    let value = e.field(test.field);
    if !test.binds {
        return Ok(meets(test, value, bindings.as_slice()));
    }
    if let Operand::Variable(variable) = &test.operand {
        let variable = *variable;
        bindings.push(Binding { variable, value })?;
    }
    Ok(true)
}

/// Performs tests up to the first that fails, and adds their bindings. If one fails, the bindings are truncated to what
/// they were before.
fn bind_tests(tests: &[Test], e: &Element, bindings: &mut Vec<Binding>) -> Result<(), OutOfMemory>
    ensures { OnOk result (bindings.new.items ≡ unwrap_or (after_tests tests.now e.now bindings.old.items) bindings.old.items) }
{
    let before = bindings.len();
    for test in tests {
        if !pass(test, e, bindings)? {
            bindings.truncate(before);
            return Ok(());
        }
    }
    Ok(())
}

#[tactic(auto, using(crate::proofs::Unbound::unbound))]
/// Adds the bindings that a condition makes from the element with this tag. If no test of the condition binds a
/// variable, it looks nothing up and allocates nothing.
fn bind_condition(
    condition: &Condition,
    store: &Store,
    tag: u64,
    bindings: &mut Vec<Binding>,
) -> Result<(), OutOfMemory>
    ensures { OnOk result (bindings.new.items ≡ matched_by condition.now (element_of store.now.elements tag) bindings.old.items) }
{
    if !binds(condition) {
        return Ok(());
    }
    let Some(e) = store.get(tag) else {
        return Ok(());
    };
    if e.class != condition.class {
        return Ok(());
    }
    bind_tests(condition.tests.as_slice(), e, bindings)
}

/// The bindings made from the elements with these tags, one tag for each positive condition, in a list with room for
/// `room`. An element is looked up by its tag and tested once more only if its condition binds a variable. No binding
/// is copied. A group has no tag and binds nothing.
pub(crate) fn bindings_of(
    alloc: Global,
    store: &Store,
    parts: &[Part],
    tags: &[u64],
    room: usize,
) -> Result<Vec<Binding>, OutOfMemory>
    ensures { IfOk result (λ v. v.items ≡ bindings_of store.now.elements parts.now tags.now []) }
{
    let mut bindings = Vec::with_capacity(alloc, room)?;
    let mut rest = tags;
    for part in parts {
        let Some((tag, after)) = rest.split_first() else {
            return Ok(bindings);
        };
        match part {
            Part::One(condition) if !condition.negated => {
                bind_condition(condition, store, *tag, &mut bindings)?;
                rest = after;
            }
            Part::One(_) | Part::Group(_) => {}
        }
    }
    Ok(bindings)
}
