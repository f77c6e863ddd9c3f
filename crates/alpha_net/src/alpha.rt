//! The alpha of a condition, and whether an element passes it.
ghost use Rattle.std.specs.Prelude.{◌≡◌, ℕ, List, IfOk};
ghost use Rattle.std.specs.List.{list_all};
ghost use Rattle.net_base.specs.declared.normal.Binder.{Binder};
ghost use Rattle.net_base.specs.Normal.{AreBelow, alpha_of, alpha_tests, normal_tests};
ghost use Rattle.net_base.specs.Tokens.{alpha_test_holds, passes_alpha};

use crate::normal::normal_form;
use crate::parts::alpha_tests;
use net_base::nodes::Alpha;
use ops_base::conditions::{Condition, Operand, Test};
use ops_base::elements::Element;
use ops_base::memory::OutOfMemory;
use std::alloc::Global;
use test_table::passes;

/// The class and the alpha tests of a condition, in text order. Alpha tests are the tests that neither bind nor
/// compare with a variable that is bound outside the condition. For each test of a variable it looks back over the
/// variables that the condition binds.
pub fn alpha_part(alloc: Global, condition: &Condition) -> Result<Alpha, OutOfMemory>
    ensures alone { IfOk result (λ a. a ≡ alpha_of condition.now) }

    // They are those of its normal form, whatever comes before it.
    ensures anywhere { IfOk result (λ a. (place : ℕ) (binders : List Binder)
        → AreBelow place binders → a.tests ≡ alpha_tests place (normal_tests place condition.now.tests binders)) }
{
    let mut binders = Vec::new(alloc);
    let normal = normal_form(alloc, 0, condition, &mut binders)?;
    let tests = alpha_tests(alloc, 0, normal.tests.as_slice())?;
    Ok(Alpha {
        class: condition.class,
        tests,
    })
}

/// Evaluates one test. A variable is a field of the element.
fn test_passes(test: &Test, e: &Element) -> bool
    ensures { result ≡ alpha_test_holds e.now test.now }
{
    let value = e.field(test.field);
    match &test.operand {
        Operand::Constant(_) => passes(test, value, None),
        Operand::OneOf(_) => passes(test, value, None),
        Operand::Variable(field) => passes(test, value, Some(e.field(*field))),
    }
}

fn tests_pass(tests: &[Test], e: &Element) -> bool
    ensures { result ≡ list_all (alpha_test_holds e.now) tests.now }
{
    tests.iter().all(|test| test_passes(test, e))
}

/// Whether the element is of the alpha's class and passes each of its tests. It evaluates the tests in order up to
/// the first that does not hold, and takes no memory.
pub fn alpha_passes(alpha: &Alpha, e: &Element) -> bool
    ensures { result ≡ passes_alpha alpha.now e.now }
{
    e.class == alpha.class && tests_pass(alpha.tests.as_slice(), e)
}
