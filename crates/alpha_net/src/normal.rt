//! Conditions with their variables replaced by what binds them.
ghost use Rattle.std.specs.Prelude.{◌≡◌, IfOk, OnOk, OnErr, length, take};
ghost use Rattle.net_base.specs.Normal.{origin_of, normal_operand, normal_tests, normal_of, binders_with, binders_after};

use net_base::normal::{Binder, NormalCondition, NormalOperand, NormalTest, Origin};
use ops_base::conditions::{Condition, Operand, Test};
use ops_base::list::Listed;
use ops_base::memory::OutOfMemory;
use std::alloc::Global;

/// What binds a variable: the last of several binders.
#[tactic(auto, using(crate::proofs::Origins::origin_of_last))]
fn origin_of(binders: &[Binder], variable: usize) -> Option<Origin>
    ensures { result ≡ origin_of binders.now variable }
{
    let mut left = binders;
    while let Some((last, before)) = left.split_last() {
        if last.variable == variable {
            return Some(last.origin);
        }
        left = before;
    }
    None
}

/// An operand with its variable replaced, none if nothing binds the variable.
fn normal_operand(
    alloc: Global,
    binders: &[Binder],
    operand: &Operand,
) -> Result<Option<NormalOperand>, OutOfMemory>
    ensures { IfOk result (λ o. o ≡ normal_operand binders.now operand.now) }
{
    match operand {
        Operand::Constant(value) => Ok(Some(NormalOperand::Constant(*value))),
        Operand::OneOf(values) => Ok(Some(NormalOperand::OneOf(values.copy(alloc)?))),
        Operand::Variable(variable) => match origin_of(binders, *variable) {
            Some(origin) => Ok(Some(NormalOperand::Bound(origin))),
            None => Ok(None),
        },
    }
}

fn bind(binders: &mut Vec<Binder>, operand: &Operand, origin: Origin) -> Result<(), OutOfMemory>
    ensures ok { OnOk result (binders.new.items ≡ binders_with binders.old.items operand.now origin) }
    ensures err { OnErr result (binders.new.items ≡ binders.old.items) }
{
    match operand {
        Operand::Constant(_) => Ok(()),
        Operand::OneOf(_) => Ok(()),
        Operand::Variable(variable) => {
            binders.push(Binder {
                variable: *variable,
                origin,
            })?;
            Ok(())
        }
    }
}

/// The tests that do not bind. The binders of the other tests are appended to those that were there, even if memory
/// runs out.
#[tactic(auto, using(crate::proofs::Binding::still_first))]
fn normal_tests(
    alloc: Global,
    place: usize,
    tests: &[Test],
    binders: &mut Vec<Binder>,
) -> Result<Vec<NormalTest>, OutOfMemory>
    ensures tests { IfOk result (λ v. v.items ≡ normal_tests place tests.now binders.old.items) }
    ensures binders { OnOk result (binders.new.items ≡ binders_after place tests.now binders.old.items) }
    ensures first { take (length binders.old.items) binders.new.items ≡ binders.old.items }
{
    let mut found = Vec::new(alloc);
    for test in tests {
        let field = test.field;
        if test.binds {
            bind(binders, &test.operand, Origin { place, field })?;
        } else if let Some(operand) = normal_operand(alloc, binders.as_slice(), &test.operand)? {
            found.push(NormalTest {
                field,
                pred: test.pred,
                operand,
            })?;
        }
    }
    Ok(found)
}

/// The normal form of a condition with this many positive conditions before it. What it binds is added to the
/// binders. For each test of a variable it looks back over the binders. If memory runs out, the binders are as
/// before.
pub fn normal_form(
    alloc: Global,
    place: usize,
    condition: &Condition,
    binders: &mut Vec<Binder>,
) -> Result<NormalCondition, OutOfMemory>
    ensures normal { IfOk result (λ c. c ≡ normal_of place condition.now binders.old.items) }
    ensures binders { OnOk result (binders.new.items ≡ binders_after place condition.now.tests binders.old.items) }
    ensures err { OnErr result (binders.new.items ≡ binders.old.items) }
{
    let known = binders.as_slice().len();
    match normal_tests(alloc, place, condition.tests.as_slice(), binders) {
        Ok(tests) => Ok(NormalCondition {
            negated: condition.negated,
            class: condition.class,
            tests: Listed::from_vec(tests),
        }),
        Err(error) => {
            binders.truncate(known);
            Err(error)
        }
    }
}
