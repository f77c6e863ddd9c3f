//! What a program can put into working memory.
ghost use Rattle.std.specs.Prelude.{◌≡◌, ◌++◌, ◌∷◌, [], map, flat_map, IfOk, OnOk};
ghost use Rattle.ops_base.specs.Valid.{cells_of};
ghost use Rattle.program_slips.specs.Given.{given_by_terms, given_by_put, given_by_values, given_by_fixed, class_of_cell, given_by_action, cells_after, made_after, given_by_actions, given_by_rule, loosened, given_by_template, given_by_command, given_of};

use ops_base::actions::{Action, Put, Term};
use ops_base::commands::{Command, Fixed};
use ops_base::conditions::Part;
use ops_base::memory::OutOfMemory;
use ops_base::programs::Program;
use ops_base::rules::Rule;
use ops_base::values::Value;
use std::alloc::Global;

/// Something that can be put into working memory.
#[derive(Clone, Copy, Debug, PartialEq, Eq, Hash)]
pub enum Given {
    /// An element of this class.
    Class(usize),
    /// This constant, in an attribute of a class.
    Constant {
        class: usize,
        field: usize,
        value: Value,
    },
    /// A value that is not a single constant, in an attribute of a class.
    Other {
        class: usize,
        field: usize,
    },
    /// Puts nothing there: a condition asked for this class.
    Asked(usize),
}

fn given_by_put(class: usize, put: &Put) -> Given
    ensures { result ≡ given_by_put class put.now }
{
    let field = put.field;
    match put.terms.as_slice() {
        [Term::Constant(value)] => Given::Constant {
            class,
            field,
            value: *value,
        },
        _ => Given::Other { class, field },
    }
}

fn given_by_fixed(class: usize, put: &Fixed) -> Given
    ensures { result ≡ given_by_fixed class put.now }
{
    let field = put.field;
    match put.values.as_slice() {
        [value] => Given::Constant {
            class,
            field,
            value: *value,
        },
        _ => Given::Other { class, field },
    }
}

fn add_puts(given: &mut Vec<Given>, class: usize, puts: &[Put]) -> Result<(), OutOfMemory>
    ensures { OnOk result (given.new.items ≡ given.old.items ++ map (given_by_put class) puts.now) }
{
    for put in puts {
        given.push(given_by_put(class, put))?;
    }
    Ok(())
}

fn add_fixed(given: &mut Vec<Given>, class: usize, puts: &[Fixed]) -> Result<(), OutOfMemory>
    ensures { OnOk result (given.new.items ≡ given.old.items ++ map (given_by_fixed class) puts.now) }
{
    for put in puts {
        given.push(given_by_fixed(class, put))?;
    }
    Ok(())
}

fn class_of_cell(cells: &[usize], cell: usize) -> usize
    ensures { result ≡ class_of_cell cells.now cell }
{
    match cells.get(cell) {
        Some(class) => *class,
        None => 0,
    }
}

/// Adds what an action provides.
fn add_action(given: &mut Vec<Given>, cells: &[usize], action: &Action) -> Result<(), OutOfMemory>
    ensures { OnOk result (given.new.items ≡ given.old.items ++ given_by_action cells.now action.now) }
{
    match action {
        Action::Make { class, puts } => {
            given.push(Given::Class(*class))?;
            add_puts(given, *class, puts.as_slice())
        }
        Action::Modify { cell, puts } => {
            add_puts(given, class_of_cell(cells, *cell), puts.as_slice())
        }
        _ => Ok(()),
    }
}

/// Adds the cell of a `cbind`.
fn add_cell(cells: &mut Vec<usize>, made: usize, action: &Action) -> Result<(), OutOfMemory>
    ensures { OnOk result (cells.new.items ≡ cells_after cells.old.items made action.now) }
{
    if let Action::Cbind { .. } = action {
        cells.push(made)?;
    }
    Ok(())
}

fn made_after(cells: &[usize], made: usize, action: &Action) -> usize
    ensures { result ≡ made_after cells.now made action.now }
{
    match action {
        Action::Make { class, .. } => *class,
        Action::Modify { cell, .. } => class_of_cell(cells, *cell),
        _ => made,
    }
}

/// The classes of the positive conditions, in order.
fn cells_of(alloc: Global, conditions: &[Part]) -> Result<Vec<usize>, OutOfMemory>
    ensures { IfOk result (λ v. v.items ≡ cells_of conditions.now) }
{
    let mut cells = Vec::new(alloc);
    for part in conditions {
        if let Part::One(condition) = part {
            if !condition.negated {
                cells.push(condition.class)?;
            }
        }
    }
    Ok(cells)
}

/// Adds what the actions of a right side provide, if the cells have these classes at its start.
fn add_actions(
    given: &mut Vec<Given>,
    cells: &mut Vec<usize>,
    actions: &[Action],
) -> Result<(), OutOfMemory>
    ensures { OnOk result (given.new.items ≡ given.old.items ++ given_by_actions cells.old.items 0 actions.now) }
{
    let mut made = 0;
    for action in actions {
        add_action(given, cells, action)?;
        let next = made_after(cells, made, action);
        add_cell(cells, made, action)?;
        made = next;
    }
    Ok(())
}

fn add_rule(alloc: Global, given: &mut Vec<Given>, rule: &Rule) -> Result<(), OutOfMemory>
    ensures { OnOk result (given.new.items ≡ given.old.items ++ given_by_rule rule.now) }
{
    let mut cells = cells_of(alloc, rule.conditions.as_slice())?;
    add_actions(given, &mut cells, rule.actions.as_slice())
}

fn loosened(fact: Given) -> Given
    ensures { result ≡ loosened fact }
{
    match fact {
        Given::Constant { class, field, .. } => Given::Other { class, field },
        _ => fact,
    }
}

fn add_loosened(given: &mut Vec<Given>, facts: &[Given]) -> Result<(), OutOfMemory>
    ensures { OnOk result (given.new.items ≡ given.old.items ++ map loosened facts.now) }
{
    for fact in facts {
        given.push(loosened(*fact))?;
    }
    Ok(())
}

/// Adds what a production that is built provides.
fn add_template(alloc: Global, given: &mut Vec<Given>, rule: &Rule) -> Result<(), OutOfMemory>
    ensures { OnOk result (given.new.items ≡ given.old.items ++ given_by_template rule.now) }
{
    let mut facts = Vec::new(alloc);
    add_rule(alloc, &mut facts, rule)?;
    add_loosened(given, &facts)
}

fn add_command(alloc: Global, given: &mut Vec<Given>, command: &Command) -> Result<(), OutOfMemory>
    ensures { OnOk result (given.new.items ≡ given.old.items ++ given_by_command command.now) }
{
    match command {
        Command::Make { class, puts } => {
            given.push(Given::Class(*class))?;
            add_fixed(given, *class, puts.as_slice())
        }
        Command::Add { rule } => add_rule(alloc, given, rule),
        _ => Ok(()),
    }
}

/// What the productions and the commands of a program provide: in order, with those that are built before the commands.
pub(crate) fn given_of(
    alloc: Global,
    rules: &[Rule],
    templates: &[Rule],
    commands: &[Command],
) -> Result<Vec<Given>, OutOfMemory>
    ensures { IfOk result (λ v. v.items ≡ given_of rules.now templates.now commands.now) }
{
    let mut given = Vec::new(alloc);
    for rule in rules {
        add_rule(alloc, &mut given, rule)?;
    }
    for template in templates {
        add_template(alloc, &mut given, template)?;
    }
    for command in commands {
        add_command(alloc, &mut given, command)?;
    }
    Ok(given)
}
