//! The specificity of conditions.
ghost use Rattle.std.specs.Prelude.{◌+◌, not, count_by, SomeIff, ◌<◌, ◌^◌};
ghost use Rattle.ops_base.specs.Valid.{elements_in, specificity, specificity_of};

use ops_base::conditions::{Condition, Part};

/// The specificity of conditions: one per condition, including members of groups, and one per test that does not bind.
/// `None` if it exceeds a `u32`.
pub fn specificity(parts: &[Part]) -> Option<u32>
    ensures { SomeIff result (specificity parts.now < 2 ^ 32) (specificity parts.now) }
{
    let mut total: u32 = 0;
    for part in parts {
        total = total.checked_add(specificity_in(part)?)?;
    }
    Some(total)
}

fn specificity_in(part: &Part) -> Option<u32>
    ensures { SomeIff result (specificity_of (elements_in part.now) < 2 ^ 32) (specificity_of (elements_in part.now)) }
{
    match part {
        Part::One(condition) => specificity_of(condition),
        Part::Group(members) => specificity_of_all(members.as_slice()),
    }
}

fn specificity_of_all(conditions: &[Condition]) -> Option<u32>
    ensures { SomeIff result (specificity_of conditions.now < 2 ^ 32) (specificity_of conditions.now) }
{
    let mut total: u32 = 0;
    for condition in conditions {
        total = total.checked_add(specificity_of(condition)?)?;
    }
    Some(total)
}

fn specificity_of(condition: &Condition) -> Option<u32>
    ensures { SomeIff result (1 + count_by (λ t. not t.binds) condition.now.tests < 2 ^ 32) (1 + count_by (λ t. not t.binds) condition.now.tests) }
{
    let tests = condition.tests.as_slice();
    let tests = tests.iter().filter(|test| !test.binds).count();
    u32::try_from(tests).ok()?.checked_add(1)
}
