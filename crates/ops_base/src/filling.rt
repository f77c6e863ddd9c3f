//! Productions with other constants in the place of some of their own.
ghost use Rattle.std.specs.Prelude.{◌≡◌, ◌+◌, IfOk, OnOk};
ghost use Rattle.ops_base.specs.Filling.{each, total, one, value_filled, in_operand, operand_filled, in_test, test_filled, in_condition, condition_filled, in_part, part_filled, in_term, term_filled, in_put, put_filled, in_item, item_filled, in_action, action_filled, rule_filled};

use crate::actions::{Action, Item, Put, Term};
use crate::conditions::{Condition, Operand, Part, Test};
use crate::list::Listed;
use crate::memory::OutOfMemory;
use crate::rules::Rule;
use crate::values::Value;
use std::alloc::Global;

/// What the constant of this number becomes.
#[derive(Clone, Copy, Debug, PartialEq, Eq)]
pub struct Filling {
    pub number: usize,
    pub value: Value,
}

/// What is copied with other constants, of which the first has the number that the counter shows.
trait Fills: Drop {
    ghost use Rattle.std.specs.Prelude.{List, ℕ};
    ghost use Rattle.ops_base.specs.declared.filling.Filling.{Filling};

    ghost count: { Self → ℕ };

    ghost filled: { List Filling → ℕ → Self → Self };

    fn fill(&self, alloc: Global, with: &[Filling], at: &mut usize) -> Result<Self, OutOfMemory>
        ensures filled { IfOk result (λ c. c ≡ filled with.now at.old self.now) }
        ensures counted { OnOk result (at.new ≡ at.old + count self.now) };
}

fn fill_each<T: Fills>(
    alloc: Global,
    with: &[Filling],
    at: &mut usize,
    items: &[T],
) -> Result<Listed<T>, OutOfMemory>
    ensures filled { IfOk result (λ c. c ≡ each T.count (T.filled with.now) at.old items.now) }
    ensures counted { OnOk result (at.new ≡ at.old + total T.count items.now) }
{
    let mut filled = Vec::new(alloc);
    for item in items {
        filled.push(item.fill(alloc, with, at)?)?;
    }
    Ok(Listed::from_vec(filled))
}

fn value_filled(with: &[Filling], number: usize, value: Value) -> Value
    ensures { result ≡ value_filled with.now number value }
{
    match with.iter().find(|filling| filling.number == number) {
        Some(filling) => filling.value,
        None => value,
    }
}

impl Fills for Value {
    ghost use Rattle.ops_base.specs.Filling.{one, value_filled};

    ghost count = { one };

    ghost filled = { value_filled };

    fn fill(&self, _alloc: Global, with: &[Filling], at: &mut usize) -> Result<Value, OutOfMemory> {
        let number = *at;
        *at = number.checked_add(1).ok_or(OutOfMemory)?;
        Ok(value_filled(with, number, *self))
    }
}

impl Fills for Operand {
    ghost use Rattle.ops_base.specs.Filling.{in_operand, operand_filled};

    ghost count = { in_operand };

    ghost filled = { operand_filled };

    fn fill(
        &self,
        alloc: Global,
        with: &[Filling],
        at: &mut usize,
    ) -> Result<Operand, OutOfMemory> {
        Ok(match self {
            Operand::Constant(value) => Operand::Constant(value.fill(alloc, with, at)?),
            Operand::OneOf(values) => Operand::OneOf(fill_each(
                alloc,
                with,
                at,
                values.as_slice(),
            )?),
            Operand::Variable(variable) => Operand::Variable(*variable),
        })
    }
}

impl Fills for Test {
    ghost use Rattle.ops_base.specs.Filling.{in_test, test_filled};

    ghost count = { in_test };

    ghost filled = { test_filled };

    fn fill(&self, alloc: Global, with: &[Filling], at: &mut usize) -> Result<Test, OutOfMemory> {
        Ok(Test {
            field: self.field,
            pred: self.pred,
            operand: self.operand.fill(alloc, with, at)?,
            binds: self.binds,
        })
    }
}

impl Fills for Condition {
    ghost use Rattle.ops_base.specs.Filling.{in_condition, condition_filled};

    ghost count = { in_condition };

    ghost filled = { condition_filled };

    fn fill(
        &self,
        alloc: Global,
        with: &[Filling],
        at: &mut usize,
    ) -> Result<Condition, OutOfMemory> {
        Ok(Condition {
            class: self.class,
            negated: self.negated,
            tests: fill_each(alloc, with, at, self.tests.as_slice())?,
        })
    }
}

impl Fills for Part {
    ghost use Rattle.ops_base.specs.Filling.{in_part, part_filled};

    ghost count = { in_part };

    ghost filled = { part_filled };

    fn fill(&self, alloc: Global, with: &[Filling], at: &mut usize) -> Result<Part, OutOfMemory> {
        Ok(match self {
            Part::One(condition) => Part::One(condition.fill(alloc, with, at)?),
            Part::Group(members) => Part::Group(fill_each(alloc, with, at, members.as_slice())?),
        })
    }
}

impl Fills for Term {
    ghost use Rattle.ops_base.specs.Filling.{in_term, term_filled};

    ghost count = { in_term };

    ghost filled = { term_filled };

    fn fill(&self, alloc: Global, with: &[Filling], at: &mut usize) -> Result<Term, OutOfMemory> {
        Ok(match self {
            Term::Constant(value) => Term::Constant(value.fill(alloc, with, at)?),
            Term::Variable(variable) => Term::Variable(*variable),
            Term::Compute(expr) => Term::Compute(expr.copy(alloc)?),
            Term::One { cell, field } => Term::One {
                cell: *cell,
                field: *field,
            },
            Term::Rest { cell } => Term::Rest { cell: *cell },
            Term::Fresh => Term::Fresh,
            Term::Accept => Term::Accept,
        })
    }
}

impl Fills for Put {
    ghost use Rattle.ops_base.specs.Filling.{in_put, put_filled};

    ghost count = { in_put };

    ghost filled = { put_filled };

    fn fill(&self, alloc: Global, with: &[Filling], at: &mut usize) -> Result<Put, OutOfMemory> {
        Ok(Put {
            field: self.field,
            terms: fill_each(alloc, with, at, self.terms.as_slice())?,
        })
    }
}

impl Fills for Item {
    ghost use Rattle.ops_base.specs.Filling.{in_item, item_filled};

    ghost count = { in_item };

    ghost filled = { item_filled };

    fn fill(&self, alloc: Global, with: &[Filling], at: &mut usize) -> Result<Item, OutOfMemory> {
        Ok(match self {
            Item::Print(term) => Item::Print(term.fill(alloc, with, at)?),
            Item::Crlf => Item::Crlf,
            Item::TabTo(column) => Item::TabTo(*column),
            Item::RightIn(column) => Item::RightIn(*column),
        })
    }
}

impl Fills for Action {
    ghost use Rattle.ops_base.specs.Filling.{in_action, action_filled};

    ghost count = { in_action };

    ghost filled = { action_filled };

    fn fill(&self, alloc: Global, with: &[Filling], at: &mut usize) -> Result<Action, OutOfMemory> {
        Ok(match self {
            Action::Make { class, puts } => Action::Make {
                class: *class,
                puts: fill_each(alloc, with, at, puts.as_slice())?,
            },
            Action::Modify { cell, puts } => Action::Modify {
                cell: *cell,
                puts: fill_each(alloc, with, at, puts.as_slice())?,
            },
            Action::Remove { cells } => Action::Remove {
                cells: cells.copy(alloc)?,
            },
            Action::Write { items } => Action::Write {
                items: fill_each(alloc, with, at, items.as_slice())?,
            },
            Action::Bind { variable, term } => Action::Bind {
                variable: *variable,
                term: term.fill(alloc, with, at)?,
            },
            Action::Cbind { cell } => Action::Cbind { cell: *cell },
            Action::Halt => Action::Halt,
            Action::Build { template, holes } => Action::Build {
                template: *template,
                holes: holes.copy(alloc)?,
            },
        })
    }
}

impl Rule {
    /// A copy in which the constants of these numbers are others.
    pub fn fill(&self, alloc: Global, with: &[Filling]) -> Result<Rule, OutOfMemory>
        ensures { IfOk result (λ c. c ≡ rule_filled with.now self.now) }
    {
        let mut at = 0;
        let conditions = fill_each(alloc, with, &mut at, self.conditions.as_slice())?;
        let actions = fill_each(alloc, with, &mut at, self.actions.as_slice())?;
        Ok(Rule {
            name: self.name,
            conditions,
            actions,
            specificity: self.specificity,
            variables: self.variables,
            cells: self.cells,
            first: self.first,
            past: self.past,
        })
    }
}
