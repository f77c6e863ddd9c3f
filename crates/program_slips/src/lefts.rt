//! A left side as one text, in which classes, attributes, symbols and variables are represented by their numbers.
ghost use Rattle.std.specs.Prelude.{◌≡◌, ◌++◌, ◌∷◌, codes, decimal, flat_map, IfOk, OnOk};
ghost use Rattle.program_slips.specs.Alike.{value_text, pred_text, operand_text, test_text, sign_text, condition_text, part_text, left_text};

use itoa::Buffer;
use ops_base::conditions::{Condition, Operand, Part, Test};
use ops_base::memory::OutOfMemory;
use ops_base::rules::Rule;
use ops_base::values::{Pred, Value};
use std::alloc::Global;

fn add_number(text: &mut Vec<u8>, number: u64) -> Result<(), OutOfMemory>
    ensures { OnOk result (text.new.items ≡ text.old.items ++ decimal number) }
{
    let mut buffer = Buffer::new();
    text.extend_from_slice(buffer.format(number).as_bytes())?;
    Ok(())
}

fn add_value(text: &mut Vec<u8>, value: Value) -> Result<(), OutOfMemory>
    ensures { OnOk result (text.new.items ≡ text.old.items ++ value_text value) }
{
    let mut buffer = Buffer::new();
    match value {
        Value::Symbol(symbol) => {
            text.extend_from_slice(b"s")?;
            text.extend_from_slice(buffer.format(symbol.0).as_bytes())?;
        }
        Value::Whole(number) => {
            text.extend_from_slice(b"n")?;
            text.extend_from_slice(buffer.format(number).as_bytes())?;
        }
    }
    Ok(())
}

fn add_values(text: &mut Vec<u8>, values: &[Value]) -> Result<(), OutOfMemory>
    ensures { OnOk result (text.new.items ≡ text.old.items ++ flat_map value_text values.now) }
{
    for value in values {
        add_value(text, *value)?;
    }
    Ok(())
}

fn pred_text(pred: Pred) -> &'static [u8]
    ensures { result.now ≡ pred_text pred }
{
    match pred {
        Pred::Eq => b"=",
        Pred::Ne => b"<>",
        Pred::Lt => b"<",
        Pred::Le => b"<=",
        Pred::Gt => b">",
        Pred::Ge => b">=",
        Pred::SameKind => b"<=>",
    }
}

fn add_operand(text: &mut Vec<u8>, operand: &Operand) -> Result<(), OutOfMemory>
    ensures { OnOk result (text.new.items ≡ text.old.items ++ operand_text operand.now) }
{
    match operand {
        Operand::Constant(value) => add_value(text, *value),
        Operand::OneOf(values) => {
            text.extend_from_slice(b"{")?;
            add_values(text, values.as_slice())?;
            text.extend_from_slice(b"}")?;
            Ok(())
        }
        Operand::Variable(variable) => {
            text.extend_from_slice(b"v")?;
            add_number(text, *variable as u64)
        }
    }
}

fn add_test(text: &mut Vec<u8>, test: &Test) -> Result<(), OutOfMemory>
    ensures { OnOk result (text.new.items ≡ text.old.items ++ test_text test.now) }
{
    text.extend_from_slice(b"^")?;
    add_number(text, test.field as u64)?;
    text.extend_from_slice(pred_text(test.pred))?;
    add_operand(text, &test.operand)
}

fn add_tests(text: &mut Vec<u8>, tests: &[Test]) -> Result<(), OutOfMemory>
    ensures { OnOk result (text.new.items ≡ text.old.items ++ flat_map test_text tests.now) }
{
    for test in tests {
        add_test(text, test)?;
    }
    Ok(())
}

fn sign_text(condition: &Condition) -> &'static [u8]
    ensures { result.now ≡ sign_text condition.now }
{
    if condition.negated { b"-(" } else { b"(" }
}

fn add_condition(text: &mut Vec<u8>, condition: &Condition) -> Result<(), OutOfMemory>
    ensures { OnOk result (text.new.items ≡ text.old.items ++ condition_text condition.now) }
{
    text.extend_from_slice(sign_text(condition))?;
    add_number(text, condition.class as u64)?;
    add_tests(text, condition.tests.as_slice())?;
    text.extend_from_slice(b")")?;
    Ok(())
}

fn add_members(text: &mut Vec<u8>, members: &[Condition]) -> Result<(), OutOfMemory>
    ensures { OnOk result (text.new.items ≡ text.old.items ++ flat_map condition_text members.now) }
{
    for member in members {
        add_condition(text, member)?;
    }
    Ok(())
}

fn add_part(text: &mut Vec<u8>, part: &Part) -> Result<(), OutOfMemory>
    ensures { OnOk result (text.new.items ≡ text.old.items ++ part_text part.now) }
{
    match part {
        Part::One(condition) => add_condition(text, condition),
        Part::Group(members) => {
            text.extend_from_slice(b"[")?;
            add_members(text, members.as_slice())?;
            text.extend_from_slice(b"]")?;
            Ok(())
        }
    }
}

/// The text of a production's left side. Takes time in proportion to it.
pub(crate) fn left_text(alloc: Global, rule: &Rule) -> Result<Vec<u8>, OutOfMemory>
    ensures { IfOk result (λ v. v.items ≡ left_text rule.now) }
{
    let mut text = Vec::new(alloc);
    let parts = rule.conditions.as_slice();
    for part in parts {
        add_part(&mut text, part)?;
    }
    Ok(text)
}
