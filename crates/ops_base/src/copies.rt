//! Copies of elements, instantiations and programs, each equal to what it was made of.
ghost use Rattle.std.specs.Prelude.{◌≡◌, IfOk};

use crate::actions::{Action, Item, Put, Term};
use crate::commands::{Command, Fixed};
use crate::conditions::{Condition, Operand, Part, Test};
use crate::elements::{Class, Element};
use crate::list::Listed;
use crate::memory::OutOfMemory;
use crate::programs::Program;
use crate::rules::{Inst, Rule};
use std::alloc::Global;

/// What stands in the lists of a program, and is copied with all that it holds.
trait Piece: Drop {
    fn copy(&self, alloc: Global) -> Result<Self, OutOfMemory>
        ensures { IfOk result (λ c. c ≡ self.now) };
}

fn copies<T: Piece>(alloc: Global, items: &[T]) -> Result<Listed<T>, OutOfMemory>
    ensures { IfOk result (λ c. c ≡ items.now) }
{
    let mut copies = Vec::new(alloc);
    for item in items {
        copies.push(item.copy(alloc)?)?;
    }
    Ok(Listed::from_vec(copies))
}

impl<T: Copy> Listed<T> {
    pub fn copy(&self, alloc: Global) -> Result<Listed<T>, OutOfMemory>
        ensures { IfOk result (λ c. c ≡ self.now) }
    {
        let items = Vec::from_slice(alloc, self.as_slice())?;
        Ok(Listed::from_vec(items))
    }
}

impl Element {
    pub fn copy(&self, alloc: Global) -> Result<Element, OutOfMemory>
        ensures { IfOk result (λ c. c ≡ self.now) }
    {
        Ok(Element {
            tag: self.tag,
            class: self.class,
            fields: self.fields.copy(alloc)?,
        })
    }
}

impl Inst {
    pub fn copy(&self, alloc: Global) -> Result<Inst, OutOfMemory>
        ensures { IfOk result (λ c. c ≡ self.now) }
    {
        Ok(Inst {
            rule: self.rule,
            tags: self.tags.copy(alloc)?,
        })
    }
}

impl Piece for Class {
    fn copy(&self, alloc: Global) -> Result<Class, OutOfMemory> {
        Ok(Class {
            name: self.name,
            attrs: self.attrs.copy(alloc)?,
            vector: self.vector,
        })
    }
}

impl Operand {
    fn copy(&self, alloc: Global) -> Result<Operand, OutOfMemory>
        ensures { IfOk result (λ c. c ≡ self.now) }
    {
        Ok(match self {
            Operand::Constant(value) => Operand::Constant(*value),
            Operand::OneOf(values) => Operand::OneOf(values.copy(alloc)?),
            Operand::Variable(variable) => Operand::Variable(*variable),
        })
    }
}

impl Piece for Test {
    fn copy(&self, alloc: Global) -> Result<Test, OutOfMemory> {
        Ok(Test {
            field: self.field,
            pred: self.pred,
            operand: self.operand.copy(alloc)?,
            binds: self.binds,
        })
    }
}

impl Piece for Condition {
    fn copy(&self, alloc: Global) -> Result<Condition, OutOfMemory> {
        Ok(Condition {
            class: self.class,
            negated: self.negated,
            tests: copies(alloc, self.tests.as_slice())?,
        })
    }
}

impl Piece for Part {
    fn copy(&self, alloc: Global) -> Result<Part, OutOfMemory> {
        Ok(match self {
            Part::One(condition) => Part::One(condition.copy(alloc)?),
            Part::Group(members) => Part::Group(copies(alloc, members.as_slice())?),
        })
    }
}

impl Piece for Term {
    fn copy(&self, alloc: Global) -> Result<Term, OutOfMemory> {
        Ok(match self {
            Term::Constant(value) => Term::Constant(*value),
            Term::Variable(variable) => Term::Variable(*variable),
            Term::Compute(expr) => Term::Compute(expr.copy(alloc)?),
            Term::One { cell, field } => Term::One {
                cell: *cell,
                field: *field,
            },
            Term::Rest { cell } => Term::Rest { cell: *cell },
            Term::Fresh => Term::Fresh,
            Term::Accept => Term::Accept,
        })
    }
}

impl Piece for Put {
    fn copy(&self, alloc: Global) -> Result<Put, OutOfMemory> {
        Ok(Put {
            field: self.field,
            terms: copies(alloc, self.terms.as_slice())?,
        })
    }
}

impl Piece for Item {
    fn copy(&self, alloc: Global) -> Result<Item, OutOfMemory> {
        Ok(match self {
            Item::Print(term) => Item::Print(term.copy(alloc)?),
            Item::Crlf => Item::Crlf,
            Item::TabTo(column) => Item::TabTo(*column),
            Item::RightIn(column) => Item::RightIn(*column),
        })
    }
}

impl Piece for Action {
    fn copy(&self, alloc: Global) -> Result<Action, OutOfMemory> {
        Ok(match self {
            Action::Make { class, puts } => Action::Make {
                class: *class,
                puts: copies(alloc, puts.as_slice())?,
            },
            Action::Modify { cell, puts } => Action::Modify {
                cell: *cell,
                puts: copies(alloc, puts.as_slice())?,
            },
            Action::Remove { cells } => Action::Remove {
                cells: cells.copy(alloc)?,
            },
            Action::Write { items } => Action::Write {
                items: copies(alloc, items.as_slice())?,
            },
            Action::Bind { variable, term } => Action::Bind {
                variable: *variable,
                term: term.copy(alloc)?,
            },
            Action::Cbind { cell } => Action::Cbind { cell: *cell },
            Action::Halt => Action::Halt,
            Action::Build { template, holes } => Action::Build {
                template: *template,
                holes: holes.copy(alloc)?,
            },
        })
    }
}

impl Rule {
    pub fn copy(&self, alloc: Global) -> Result<Rule, OutOfMemory>
        ensures { IfOk result (λ c. c ≡ self.now) }
    {
        Ok(Rule {
            name: self.name,
            conditions: copies(alloc, self.conditions.as_slice())?,
            actions: copies(alloc, self.actions.as_slice())?,
            specificity: self.specificity,
            variables: self.variables,
            cells: self.cells,
            first: self.first,
            past: self.past,
        })
    }
}

impl Piece for Rule {
    fn copy(&self, alloc: Global) -> Result<Rule, OutOfMemory> {
        Rule::copy(self, alloc)
    }
}

impl Piece for Fixed {
    fn copy(&self, alloc: Global) -> Result<Fixed, OutOfMemory> {
        Ok(Fixed {
            field: self.field,
            values: self.values.copy(alloc)?,
        })
    }
}

/// The class and the constants of a command `ppwm`.
fn copy_pattern(
    alloc: Global,
    pattern: &Option<(usize, Listed<Fixed>)>,
) -> Result<Option<(usize, Listed<Fixed>)>, OutOfMemory>
    ensures { IfOk result (λ c. c ≡ pattern.now) }
{
    match pattern {
        Some((class, puts)) => Ok(Some((*class, copies(alloc, puts.as_slice())?))),
        None => Ok(None),
    }
}

impl Piece for Command {
    fn copy(&self, alloc: Global) -> Result<Command, OutOfMemory> {
        Ok(match self {
            Command::Make { class, puts } => Command::Make {
                class: *class,
                puts: copies(alloc, puts.as_slice())?,
            },
            Command::Remove { tags } => Command::Remove {
                tags: tags.copy(alloc)?,
            },
            Command::RemoveAll => Command::RemoveAll,
            Command::Run { count } => Command::Run { count: *count },
            Command::Wm { tags } => Command::Wm {
                tags: tags.copy(alloc)?,
            },
            Command::Ppwm { pattern } => Command::Ppwm {
                pattern: copy_pattern(alloc, pattern)?,
            },
            Command::Cs => Command::Cs,
            Command::Pm { names } => Command::Pm {
                names: names.copy(alloc)?,
            },
            Command::Strategy { set } => Command::Strategy { set: *set },
            Command::Watch { set } => Command::Watch { set: *set },
            Command::Pbreak { names } => Command::Pbreak {
                names: names.copy(alloc)?,
            },
            Command::Add { rule } => Command::Add {
                rule: Rule::copy(rule, alloc)?,
            },
            Command::Excise { names } => Command::Excise {
                names: names.copy(alloc)?,
            },
            Command::Back { count } => Command::Back { count: *count },
            Command::Matches { names } => Command::Matches {
                names: names.copy(alloc)?,
            },
            Command::Exit => Command::Exit,
        })
    }
}

impl Program {
    pub fn copy(&self, alloc: Global) -> Result<Program, OutOfMemory>
        ensures { IfOk result (λ c. c ≡ self.now) }
    {
        let classes = copies(alloc, self.classes.as_slice())?;
        let rules = copies(alloc, self.rules.as_slice())?;
        let templates = copies(alloc, self.templates.as_slice())?;
        let commands = copies(alloc, self.commands.as_slice())?;
        let text = self.text.copy(alloc)?;
        Ok(Program::new(classes, rules, templates, commands, text))
    }
}
