//! The two groups of a condition's tests: those that look only at its element, and those that also look at others.
ghost use Rattle.std.specs.Prelude.{◌≡◌, IfOk};
ghost use Rattle.net_base.specs.Normal.{own_operand, joined_origin, alpha_tests, join_tests};

use net_base::nodes::JoinTest;
use net_base::normal::{NormalOperand, NormalTest, Origin};
use ops_base::conditions::{Operand, Test};
use ops_base::list::Listed;
use ops_base::memory::OutOfMemory;
use std::alloc::Global;

/// The operand of a test that looks only at the element at this place.
fn own_operand(
    alloc: Global,
    place: usize,
    operand: &NormalOperand,
) -> Result<Option<Operand>, OutOfMemory>
    ensures { IfOk result (λ o. o ≡ own_operand place operand.now) }
{
    match operand {
        NormalOperand::Constant(value) => Ok(Some(Operand::Constant(*value))),
        NormalOperand::OneOf(values) => Ok(Some(Operand::OneOf(values.copy(alloc)?))),
        NormalOperand::Bound(origin) => {
            if origin.place == place {
                Ok(Some(Operand::Variable(origin.field)))
            } else {
                Ok(None)
            }
        }
    }
}

/// What a test of another element compares with.
fn joined_origin(place: usize, operand: &NormalOperand) -> Option<Origin>
    ensures { result ≡ joined_origin place operand.now }
{
    match operand {
        NormalOperand::Constant(_) => None,
        NormalOperand::OneOf(_) => None,
        NormalOperand::Bound(origin) => {
            if origin.place == place {
                None
            } else {
                Some(*origin)
            }
        }
    }
}

/// The tests that look only at the element at this place, in order.
pub fn alpha_tests(
    alloc: Global,
    place: usize,
    tests: &[NormalTest],
) -> Result<Listed<Test>, OutOfMemory>
    ensures { IfOk result (λ v. v ≡ alpha_tests place tests.now) }
{
    let mut found = Vec::new(alloc);
    for test in tests {
        if let Some(operand) = own_operand(alloc, place, &test.operand)? {
            found.push(Test {
                field: test.field,
                pred: test.pred,
                operand,
                binds: false,
            })?;
        }
    }
    Ok(Listed::from_vec(found))
}

/// The other tests, in order.
pub fn join_tests(
    alloc: Global,
    place: usize,
    tests: &[NormalTest],
) -> Result<Listed<JoinTest>, OutOfMemory>
    ensures { IfOk result (λ v. v ≡ join_tests place tests.now) }
{
    let mut found = Vec::new(alloc);
    for test in tests {
        if let Some(origin) = joined_origin(place, &test.operand) {
            found.push(JoinTest {
                field: test.field,
                pred: test.pred,
                place: origin.place,
                other: origin.field,
            })?;
        }
    }
    Ok(Listed::from_vec(found))
}
