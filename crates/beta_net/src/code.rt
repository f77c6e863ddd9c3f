//! Codes by which conditions, groups and alphas are looked up. Equal ones have the same code, and different ones
//! rarely do.
ghost use Rattle.std.specs.Prelude.{◌≡◌};
ghost use Rattle.net_base.specs.Counting.{pred_number};
ghost use Rattle.beta_net.specs.Codes.{mixed, value_code, values_code, operand_code, normal_operand_code, tests_code, normal_tests_code, parent_code, condition_code, members_code, part_code, alpha_code};

use net_base::normal::{NormalCondition, NormalOperand, NormalPart, NormalTest};
use ops_base::conditions::{Operand, Test};
use ops_base::values::{Pred, Value};

const FACTOR: u64 = 6_364_136_223_846_793_005;

// How many codes there are.
const CODES: u128 = 1 << 64;

#[tactic(auto, unfolding(crate::specs::Codes::mixed))]
fn mixed(code: u64, x: u64) -> u64
    ensures { result ≡ mixed code x }
{
    code.wrapping_mul(FACTOR).wrapping_add(x)
}

fn pred_number(pred: Pred) -> u64
    ensures { result ≡ pred_number pred }
{
    match pred {
        Pred::Eq => 0,
        Pred::Ne => 1,
        Pred::Lt => 2,
        Pred::Le => 3,
        Pred::Gt => 4,
        Pred::Ge => 5,
        Pred::SameKind => 6,
    }
}

fn value_code(code: u64, value: Value) -> u64
    ensures { result ≡ value_code code value }
{
    match value {
        Value::Symbol(symbol) => mixed(mixed(code, 1), symbol.0),
        Value::Whole(number) => { mixed(mixed(code, 2), (number.cast_unsigned() % CODES) as u64) }
    }
}

fn values_code(code: u64, values: &[Value]) -> u64
    ensures { result ≡ values_code code values.now }
{
    let mut all = code;
    for value in values {
        all = value_code(all, *value);
    }
    all
}

fn operand_code(code: u64, operand: &Operand) -> u64
    ensures { result ≡ operand_code code operand.now }
{
    match operand {
        Operand::Constant(value) => value_code(mixed(code, 3), *value),
        Operand::OneOf(values) => values_code(mixed(code, 4), values.as_slice()),
        Operand::Variable(variable) => mixed(mixed(code, 5), *variable as u64),
    }
}

fn normal_operand_code(code: u64, operand: &NormalOperand) -> u64
    ensures { result ≡ normal_operand_code code operand.now }
{
    match operand {
        NormalOperand::Constant(value) => value_code(mixed(code, 3), *value),
        NormalOperand::OneOf(values) => values_code(mixed(code, 4), values.as_slice()),
        NormalOperand::Bound(origin) => {
            mixed(
                mixed(mixed(code, 5), origin.place as u64),
                origin.field as u64,
            )
        }
    }
}

fn tests_code(code: u64, tests: &[Test]) -> u64
    ensures { result ≡ tests_code code tests.now }
{
    let mut all = code;
    for test in tests {
        all = operand_code(
            mixed(mixed(all, test.field as u64), pred_number(test.pred)),
            &test.operand,
        );
    }
    all
}

fn normal_tests_code(code: u64, tests: &[NormalTest]) -> u64
    ensures { result ≡ normal_tests_code code tests.now }
{
    let mut all = code;
    for test in tests {
        all = normal_operand_code(
            mixed(mixed(all, test.field as u64), pred_number(test.pred)),
            &test.operand,
        );
    }
    all
}

fn parent_code(parent: Option<usize>) -> u64
    ensures { result ≡ parent_code parent }
{
    match parent {
        None => 1,
        Some(p) => mixed(2, p as u64),
    }
}

fn condition_code(code: u64, condition: &NormalCondition) -> u64
    ensures { result ≡ condition_code code condition.now }
{
    let sign = if condition.negated { 1 } else { 0 };
    let start = mixed(mixed(code, sign), condition.class as u64);
    normal_tests_code(start, condition.tests.as_slice())
}

fn members_code(code: u64, members: &[NormalCondition]) -> u64
    ensures { result ≡ members_code code members.now }
{
    let mut all = code;
    for member in members {
        all = condition_code(all, member);
    }
    all
}

/// The code of a part after this parent.
pub(crate) fn part_code(parent: Option<usize>, part: &NormalPart) -> u64
    ensures { result ≡ part_code parent part.now }
{
    let code = parent_code(parent);
    match part {
        NormalPart::One(condition) => condition_code(mixed(code, 6), condition),
        NormalPart::Group(members) => members_code(mixed(code, 7), members.as_slice()),
    }
}

/// The code of an alpha.
pub(crate) fn alpha_code(class: usize, tests: &[Test]) -> u64
    ensures { result ≡ alpha_code class tests.now }
{
    tests_code(mixed(1, class as u64), tests)
}
