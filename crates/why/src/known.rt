//! What conditions put at variables, read from the elements that met them. None of this takes memory.
ghost use Rattle.std.specs.Prelude.{◌≡◌, ◌++◌, if◌then◌else◌, Some, None, fold, ◌==◌, option_map};
ghost use Rattle.std.specs.List.{list_any};
ghost use Rattle.ops_base.specs.ConflictSet.{some_meets, some_extend};
ghost use Rattle.ops_base.specs.Matching.{value_of, operand_holds, after_test, match_of};
ghost use Rattle.ops_base.specs.Values.{are_same};
ghost use Rattle.ops_base.specs.WorkingMemory.{shown};
ghost use Rattle.why.specs.Bindings.{values_in};
ghost use Rattle.why.specs.Checking.{variable_of, put_by, put_at, bindings_in, rest_after};

use ops_base::conditions::{Condition, Operand, Test};
use ops_base::elements::Element;
use ops_base::matching::holds;
use ops_base::values::Value;

/// The conditions that were met, the last one first, each with the element that met it.
#[derive(Clone, Copy)]
pub(crate) enum Known<'a> {
    Nothing,
    Met {
        before: &'a Known<'a>,
        tests: &'a [Test],
        element: &'a Element,
    },
}

/// The variable that a test binds.
pub fn variable_of(test: &Test) -> Option<usize>
    ensures { result ≡ variable_of test.now }
{
    match &test.operand {
        Operand::Variable(variable) if test.binds => Some(*variable),
        _ => None,
    }
}

/// What these tests put at a variable last, or else what it held before.
fn latest(tests: &[Test], e: &Element, variable: usize, before: Option<Value>) -> Option<Value>
    ensures { result ≡
        fold (λ found b. if b.variable == variable then Some b.value else found) before (put_at tests.now e.now) }
{
    let mut found = before;
    for test in tests {
        if let Some(bound) = variable_of(test)
            && bound == variable
        {
            found = Some(e.field(test.field));
        }
    }
    found
}

/// What a variable was bound to last. Looks at each test so far.
#[tactic(auto, using(crate::proofs::KnownLaws::value_of_joined))]
pub(crate) fn value(known: &Known, variable: usize) -> Option<Value>
    ensures { result ≡ value_of (bindings_in known.now) variable }
{
    match known {
        Known::Nothing => None,
        Known::Met {
            before,
            tests,
            element,
        } => latest(tests, element, variable, value(before, variable)),
    }
}

/// What is left of a list of values after those that these tests put at variables, `None` where the list does not begin
/// with them.
fn after_tests<'a>(tests: &[Test], e: &Element, bound: &'a [Value]) -> Option<&'a [Value]>
    ensures { option_map (λ r. r.now) result ≡ rest_after (values_in (put_at tests.now e.now)) bound.now }
{
    let mut left = bound;
    for test in tests {
        if variable_of(test).is_some() {
            let (first, rest) = left.split_first()?;
            if *first != e.field(test.field) {
                return None;
            }
            left = rest;
        }
    }
    Some(left)
}

/// What is left of a list of values after those that were put at variables, the first ones first, `None` where the list
/// does not begin with them.
#[tactic(auto, using(crate::proofs::KnownLaws::rest_after_joined))]
pub(crate) fn after<'a>(known: &Known, bound: &'a [Value]) -> Option<&'a [Value]>
    ensures { option_map (λ r. r.now) result ≡ rest_after (values_in (bindings_in known.now)) bound.now }
{
    match known {
        Known::Nothing => Some(bound),
        Known::Met {
            before,
            tests,
            element,
        } => after_tests(tests, element, after(before, bound)?),
    }
}

fn is_one_of(values: &[Value], a: Value) -> bool
    ensures { result ≡ list_any (λ c. are_same a c) values.now }
{
    values.iter().any(|value| a == *value)
}

fn operand_meets(test: &Test, a: Value, known: &Known) -> bool
    ensures { result ≡ operand_holds test.now.pred a test.now.operand (bindings_in known.now) }
{
    match &test.operand {
        Operand::Constant(c) => holds(test.pred, a, *c),
        Operand::OneOf(values) => is_one_of(values.as_slice(), a),
        Operand::Variable(v) => match value(known, *v) {
            Some(b) => holds(test.pred, a, b),
            None => false,
        },
    }
}

fn passes(test: &Test, e: &Element, known: &Known) -> bool
    ensures { after_test test.now e.now (bindings_in known.now) ≡
        (if result then Some (bindings_in known.now ++ put_by e.now test.now) else None) }
{
    if test.binds {
        return true;
    }
    operand_meets(test, e.field(test.field), known)
}

/// Whether the element meets the condition. For an element of another class it looks at the class alone. Otherwise it
/// does the tests up to the first that fails, and each test of a variable looks at each test so far.
pub(crate) fn meets<'a>(condition: &'a Condition, e: &'a Element, known: &'a Known<'a>) -> bool
    ensures { match_of condition.now e.now (bindings_in known.now) ≡
        (if result then Some (bindings_in known.now ++ put_at condition.now.tests e.now) else None) }
{
    if e.class != condition.class {
        return false;
    }
    let tests = condition.tests.as_slice();
    for (done, test) in tests.iter().enumerate() {
        let so_far = Known::Met {
            before: known,
            tests: &tests[..done],
            element: e,
        };
        if !passes(test, e, &so_far) {
            return false;
        }
    }
    true
}

pub(crate) fn some_element_meets<'a>(
    wm: &'a [&'a Element],
    condition: &'a Condition,
    known: &'a Known<'a>,
) -> bool
    ensures { result ≡ some_meets (shown wm.now) condition.now (bindings_in known.now) }
{
    for e in wm {
        if meets(condition, e, known) {
            return true;
        }
    }
    false
}

/// Whether there are elements, one for each condition, that meet the conditions in order, each under what those before
/// it put at variables. At worst it looks at as many lists of elements as there are.
pub(crate) fn some_extend<'a>(
    wm: &'a [&'a Element],
    conditions: &'a [Condition],
    known: &'a Known<'a>,
) -> bool
    ensures { result ≡ some_extend (shown wm.now) conditions.now (bindings_in known.now) }
{
    let Some((first, rest)) = conditions.split_first() else {
        return true;
    };
    for e in wm {
        if meets(first, e, known) {
            let next = Known::Met {
                before: &*known,
                tests: first.tests.as_slice(),
                element: e,
            };
            if some_extend(&*wm, rest, &next) {
                return true;
            }
        }
    }
    false
}
