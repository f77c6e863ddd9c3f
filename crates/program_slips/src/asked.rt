//! What the conditions of a program ask for.
ghost use Rattle.std.specs.Prelude.{◌≡◌, ◌<◌, ◌+◌, ◌^◌, ◌++◌, map, flat_map, slice_get, IfOk, OnOk};
ghost use Rattle.ops_base.specs.WorkingMemory.{scalar_count};
ghost use Rattle.ops_base.specs.Valid.{class_of, elements_in};
ghost use Rattle.program_slips.specs.Asked.{ask_at, constants_by, asks_of_test, asks_of_condition, asks_of_parts, asks_of_class, asks_of_classes, asks_of_template, asks_of_action, asks_of_rule, asks_of_command, asks_of};

use crate::unmet::is_unmet;
use ops_base::actions::Action;
use ops_base::commands::Command;
use ops_base::conditions::{Condition, Operand, Part, Test};
use ops_base::elements::Class;
use ops_base::memory::OutOfMemory;
use ops_base::rules::Rule;
use ops_base::values::{Pred, Value};
use std::alloc::Global;
use std::slice;

/// What a condition asks for.
#[derive(Clone, Copy, Debug, PartialEq, Eq)]
pub enum What {
    /// An element of its class.
    Element,
    /// A constant in one of its attributes.
    Constant { field: usize, value: Value },
    /// Something that no element can meet.
    Unmet,
}

/// What is asked for, and by which condition: its number in its production, counted from 1 with a group as one, and
/// the byte of the text at which the production begins.
#[derive(Clone, Copy, Debug, PartialEq, Eq)]
pub struct Ask {
    pub at: usize,
    pub condition: usize,
    pub class: usize,
    pub what: What,
}

/// The constants one of which the attribute must have.
fn constants_by(pred: Pred, operand: &Operand) -> &[Value]
    ensures { result.now ≡ constants_by pred operand.now }
{
    match (pred, operand) {
        (Pred::Eq, Operand::Constant(value)) => slice::from_ref(value),
        (_, Operand::OneOf(values)) => values.as_slice(),
        _ => &[],
    }
}

/// A condition of a production: the byte at which the production begins, the number of the condition, and its class.
#[derive(Clone, Copy)]
struct Place {
    at: usize,
    number: usize,
    class: usize,
}

fn ask_at(place: Place, what: What) -> Ask
    ensures { result ≡ ask_at place.at place.number place.class what }
{
    Ask {
        at: place.at,
        condition: place.number,
        class: place.class,
        what,
    }
}

fn add_constants(
    asks: &mut Vec<Ask>,
    place: Place,
    field: usize,
    values: &[Value],
) -> Result<(), OutOfMemory>
    ensures { OnOk result (asks.new.items ≡ asks.old.items ++ map (λ v. ask_at place.at place.number place.class (What.Constant field v)) values.now) }
{
    for value in values {
        let value = *value;
        asks.push(ask_at(place, What::Constant { field, value }))?;
    }
    Ok(())
}

fn add_test(
    asks: &mut Vec<Ask>,
    place: Place,
    scalars: usize,
    test: &Test,
) -> Result<(), OutOfMemory>
    ensures { OnOk result (asks.new.items ≡ asks.old.items ++ asks_of_test place.at place.number place.class scalars test.now) }
{
    if test.field < scalars {
        add_constants(
            asks,
            place,
            test.field,
            constants_by(test.pred, &test.operand),
        )?;
    }
    Ok(())
}

fn add_tests(
    asks: &mut Vec<Ask>,
    place: Place,
    scalars: usize,
    tests: &[Test],
) -> Result<(), OutOfMemory>
    ensures { OnOk result (asks.new.items ≡ asks.old.items ++ flat_map (asks_of_test place.at place.number place.class scalars) tests.now) }
{
    for test in tests {
        add_test(asks, place, scalars, test)?;
    }
    Ok(())
}

fn scalars_of(classes: &[Class], class: usize) -> usize
    ensures { result ≡ scalar_count (class_of classes.now class) }
{
    match classes.get(class) {
        Some(class) => class.scalar_count(),
        None => 0,
    }
}

fn add_condition(
    asks: &mut Vec<Ask>,
    classes: &[Class],
    at: usize,
    number: usize,
    condition: &Condition,
) -> Result<(), OutOfMemory>
    ensures { OnOk result (asks.new.items ≡ asks.old.items ++ asks_of_condition classes.now at number condition.now) }
{
    let class = condition.class;
    let place = Place { at, number, class };
    asks.push(ask_at(place, What::Element))?;
    if is_unmet(condition) {
        asks.push(ask_at(place, What::Unmet))?;
    }
    let scalars = scalars_of(classes, class);
    add_tests(asks, place, scalars, condition.tests.as_slice())
}

fn members_of(part: &Part) -> &[Condition]
    ensures { result.now ≡ elements_in part.now }
{
    match part {
        Part::One(condition) => slice::from_ref(condition),
        Part::Group(members) => members.as_slice(),
    }
}

fn add_part(
    asks: &mut Vec<Ask>,
    classes: &[Class],
    at: usize,
    number: usize,
    part: &Part,
) -> Result<(), OutOfMemory>
    ensures { OnOk result (asks.new.items ≡ asks.old.items ++ flat_map (asks_of_condition classes.now at number) (elements_in part.now)) }
{
    let members = members_of(part);
    for condition in members {
        add_condition(asks, classes, at, number, condition)?;
    }
    Ok(())
}

fn add_parts(
    asks: &mut Vec<Ask>,
    classes: &[Class],
    at: usize,
    parts: &[Part],
) -> Result<(), OutOfMemory>
    ensures { OnOk result (asks.new.items ≡ asks.old.items ++ asks_of_parts classes.now at 0 parts.now) }
{
    for (before, part) in parts.iter().enumerate() {
        add_part(asks, classes, at, before + 1, part)?;
    }
    Ok(())
}

/// Adds an element of the class of each of these conditions.
fn add_elements(
    asks: &mut Vec<Ask>,
    at: usize,
    number: usize,
    members: &[Condition],
) -> Result<(), OutOfMemory>
    ensures { OnOk result (asks.new.items ≡ asks.old.items ++ map (asks_of_class at number) members.now) }
{
    for condition in members {
        let class = condition.class;
        asks.push(ask_at(Place { at, number, class }, What::Element))?;
    }
    Ok(())
}

fn add_classes(asks: &mut Vec<Ask>, at: usize, parts: &[Part]) -> Result<(), OutOfMemory>
    ensures { OnOk result (asks.new.items ≡ asks.old.items ++ asks_of_classes at 0 parts.now) }
{
    for (before, part) in parts.iter().enumerate() {
        add_elements(asks, at, before + 1, members_of(part))?;
    }
    Ok(())
}

fn add_template(asks: &mut Vec<Ask>, templates: &[Rule], template: usize) -> Result<(), OutOfMemory>
    ensures { OnOk result (asks.new.items ≡ asks.old.items ++ asks_of_template (slice_get templates.now template)) }
{
    match templates.get(template) {
        Some(rule) => add_classes(asks, rule.first, rule.conditions.as_slice()),
        None => Ok(()),
    }
}

/// Adds what is asked for by the production that an action builds.
fn add_action(asks: &mut Vec<Ask>, templates: &[Rule], action: &Action) -> Result<(), OutOfMemory>
    ensures { OnOk result (asks.new.items ≡ asks.old.items ++ asks_of_action templates.now action.now) }
{
    match action {
        Action::Build { template, .. } => add_template(asks, templates, *template),
        _ => Ok(()),
    }
}

fn add_actions(
    asks: &mut Vec<Ask>,
    templates: &[Rule],
    actions: &[Action],
) -> Result<(), OutOfMemory>
    ensures { OnOk result (asks.new.items ≡ asks.old.items ++ flat_map (asks_of_action templates.now) actions.now) }
{
    for action in actions {
        add_action(asks, templates, action)?;
    }
    Ok(())
}

fn add_rule(
    asks: &mut Vec<Ask>,
    classes: &[Class],
    templates: &[Rule],
    rule: &Rule,
) -> Result<(), OutOfMemory>
    ensures { OnOk result (asks.new.items ≡ asks.old.items ++ asks_of_rule classes.now templates.now rule.now) }
{
    add_parts(asks, classes, rule.first, rule.conditions.as_slice())?;
    add_actions(asks, templates, rule.actions.as_slice())
}

fn add_command(
    asks: &mut Vec<Ask>,
    classes: &[Class],
    templates: &[Rule],
    command: &Command,
) -> Result<(), OutOfMemory>
    ensures { OnOk result (asks.new.items ≡ asks.old.items ++ asks_of_command classes.now templates.now command.now) }
{
    match command {
        Command::Add { rule } => add_rule(asks, classes, templates, rule),
        _ => Ok(()),
    }
}

/// What the conditions of a program ask for, in text order.
pub(crate) fn asks_of(
    alloc: Global,
    classes: &[Class],
    rules: &[Rule],
    templates: &[Rule],
    commands: &[Command],
) -> Result<Vec<Ask>, OutOfMemory>
    ensures { IfOk result (λ v. v.items ≡ asks_of classes.now rules.now templates.now commands.now) }
{
    let mut asks = Vec::new(alloc);
    for rule in rules {
        add_rule(&mut asks, classes, templates, rule)?;
    }
    for command in commands {
        add_command(&mut asks, classes, templates, command)?;
    }
    Ok(asks)
}
