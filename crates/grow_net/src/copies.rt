//! Copies of alphas, each equal to its original.
ghost use Rattle.std.specs.Prelude.{◌≡◌, IfOk};

use net_base::nodes::Alpha;
use ops_base::conditions::{Operand, Test};
use ops_base::list::Listed;
use ops_base::memory::OutOfMemory;
use std::alloc::Global;

fn copy_of_operand(alloc: Global, operand: &Operand) -> Result<Operand, OutOfMemory>
    ensures { IfOk result (λ c. c ≡ operand.now) }
{
    Ok(match operand {
        Operand::Constant(value) => Operand::Constant(*value),
        Operand::OneOf(values) => Operand::OneOf(values.copy(alloc)?),
        Operand::Variable(variable) => Operand::Variable(*variable),
    })
}

fn copy_of_test(alloc: Global, test: &Test) -> Result<Test, OutOfMemory>
    ensures { IfOk result (λ c. c ≡ test.now) }
{
    Ok(Test {
        field: test.field,
        pred: test.pred,
        operand: copy_of_operand(alloc, &test.operand)?,
        binds: test.binds,
    })
}

fn copies_of_tests(alloc: Global, tests: &[Test]) -> Result<Vec<Test>, OutOfMemory>
    ensures { IfOk result (λ c. c.items ≡ tests.now) }
{
    let mut copies = Vec::new(alloc);
    for test in tests {
        copies.push(copy_of_test(alloc, test)?)?;
    }
    Ok(copies)
}

pub(crate) fn copy_of(alloc: Global, alpha: &Alpha) -> Result<Alpha, OutOfMemory>
    ensures { IfOk result (λ c. c ≡ alpha.now) }
{
    let tests = copies_of_tests(alloc, alpha.tests.as_slice())?;
    Ok(Alpha {
        class: alpha.class,
        tests: Listed::from_vec(tests),
    })
}
