//! What was read of a right side so far, and how it grows.
ghost use Rattle.std.specs.Prelude.{◌≡◌, None};
ghost use Rattle.ops_grammar.specs.Grammar.{nothing_read, right_begun, number_of, with_action, with_item, with_put, with_bind, with_constant, with_several, with_element, with_remove, with_write, put_action, InPut};
ghost use Rattle.ops_forms.specs.WordWalks.{Becomes};
ghost use Rattle.ops_rhs.specs.Taking.{view, target_of, with_term};

use ops_base::actions::{Action, Hole, Item, Put, Term};
use ops_base::list::Listed;
use ops_base::rules::Rule;
use ops_base::values::{NIL, Sym, Value};
use ops_forms::{Classes, Declared, Named, Refusal, number_of};
use std::alloc::Global;
use std::mem;

/// The surroundings of a right side: the declared classes, the variables in sight of the production that builds this
/// one, which are none if none builds it, whether one does, the class of the cell of each positive condition, and the
/// cell of each part of the left side, `None` for a negated condition or a group.
#[derive(Clone, Copy)]
pub struct Around<'a> {
    pub classes: &'a Classes,
    pub values: &'a Declared<Named>,
    pub built: bool,
    pub cells: &'a [usize],
    pub conditions: &'a [Option<usize>],
}

/// Where a value goes: to a scalar attribute, among the values of the vector attribute, to `write`, or to `bind`.
#[derive(Clone, Copy, Debug, PartialEq, Eq)]
pub enum Target {
    Put { field: usize },
    Terms,
    Item,
    Bind,
}

/// What a number of columns is for.
#[derive(Clone, Copy, Debug, PartialEq, Eq)]
pub enum Column {
    Tab,
    Right,
}

/// What was read of a right side so far. Its fields are those of the state of the definition's walk (`State` in
/// specs/Grammar.antt of ops_grammar). They carry values from one method to the next.
#[derive(Drop)]
pub struct Right {
    /// The class of the element that a `make` or a `modify` is about.
    pub class: usize,
    /// The values of the vector attribute that is being read.
    pub terms: Vec<Term>,
    /// The fields that a `make` or a `modify` gives values.
    pub puts: Vec<Put>,
    /// The cells that a `remove` names.
    pub cells: Vec<usize>,
    /// What a `write` prints.
    pub items: Vec<Item>,
    /// The value variables in sight, with their numbers.
    pub values: Declared<Named>,
    /// The element variables in sight, with their cells.
    pub elements: Declared<Named>,
    /// How many variables were given a number.
    pub variables: usize,
    pub actions: Vec<Action>,
    /// The first byte of the action that is being read.
    pub begun: usize,
    /// The cell that a `modify` names; `None` in a `make`.
    pub modified: Option<usize>,
    /// The class of the element that was made last.
    pub made: Option<usize>,
    /// The classes of the cells that `cbind` named.
    pub further: Vec<usize>,
    /// The variable of a `bind`.
    pub variable: Sym,
    /// The cell of a `substr`.
    pub source: usize,
    /// The field of a `substr`.
    pub source_field: usize,
    /// How many constants of the production were read.
    pub counted: usize,
    /// Those of them that are holes.
    pub holes: Vec<Hole>,
    /// The productions that actions build.
    pub templates: Vec<Rule>,
    pub alloc: Global,
}

impl Right {
    pub fn new(
        alloc: Global,
        values: Declared<Named>,
        elements: Declared<Named>,
        variables: usize,
        counted: usize,
        holes: Vec<Hole>,
        templates: Vec<Rule>,
    ) -> Right
        ensures { view result ≡ record (right_begun nothing_read) { values = values; elements = elements; variables = variables; counted = counted; holes = holes.items; templates = templates.items } }
    {
        Right {
            class: 0,
            terms: Vec::new(alloc),
            puts: Vec::new(alloc),
            cells: Vec::new(alloc),
            items: Vec::new(alloc),
            values,
            elements,
            variables,
            actions: Vec::new(alloc),
            begun: 0,
            modified: None,
            made: None,
            further: Vec::new(alloc),
            variable: NIL,
            source: 0,
            source_field: 0,
            counted,
            holes,
            templates,
            alloc,
        }
    }

    pub fn add_action(&mut self, action: Action) -> Result<(), Refusal>
        ensures { Becomes (view self.new) (with_action (view self.old) action) result }
    {
        self.actions.push(action)?;
        Ok(())
    }

    pub fn add_item(&mut self, item: Item) -> Result<(), Refusal>
        ensures { Becomes (view self.new) (with_item (view self.old) item) result }
    {
        self.items.push(item)?;
        Ok(())
    }
}

impl Right {
    // a constant is put where it belongs
    pub fn add_constant(&mut self, target: Target, value: Value) -> Result<(), Refusal>
        ensures { Becomes (view self.new) (with_constant (target_of target) (view self.old) value) result }
    {
        self.counted = self.counted.checked_add(1).ok_or(Refusal::OutOfMemory)?;
        self.add(target, Term::Constant(value))
    }

    // puts a value where it belongs
    pub fn add(&mut self, target: Target, term: Term) -> Result<(), Refusal>
        ensures { Becomes (view self.new) (with_term target (view self.old) term) result }
    {
        match target {
            Target::Put { field } => self.add_put(field, term),
            Target::Terms => {
                self.terms.push(term)?;
                Ok(())
            }
            Target::Item => self.add_item(Item::Print(term)),
            Target::Bind => self.add_bind(term),
        }
    }

    fn add_put(&mut self, field: usize, term: Term) -> Result<(), Refusal>
        ensures { Becomes (view self.new) (with_put (view self.old) field term) result }
    {
        let mut terms = Listed::new(self.alloc);
        terms.push(term)?;
        self.puts.push(Put { field, terms })?;
        Ok(())
    }

    // A variable that is in sight keeps its number when it is bound again.
    fn add_bind(&mut self, term: Term) -> Result<(), Refusal>
        ensures { Becomes (view self.new) (with_bind (number_of (view self.old).variable (view self.old).values) (view self.old) term) result }
    {
        match number_of(&self.values, self.variable) {
            Some(variable) => self.add_action(Action::Bind { variable, term }),
            None => self.add_first_bind(term),
        }
    }

    // A variable that is not in sight gets the next number.
    fn add_first_bind(&mut self, term: Term) -> Result<(), Refusal>
        ensures { Becomes (view self.new) (with_bind None (view self.old) term) result }
    {
        let number = self.variables;
        self.values.push(Named {
            name: self.variable,
            number,
        })?;
        self.variables = number.checked_add(1).ok_or(Refusal::OutOfMemory)?;
        self.add_action(Action::Bind {
            variable: number,
            term,
        })
    }
}

impl Right {
    // the values of the vector attribute are complete
    pub fn end_terms(&mut self, field: usize) -> Result<(), Refusal>
        ensures { Becomes (view self.new) (with_several InPut field (view self.old)) result }
    {
        let none = Vec::new(self.alloc);
        let terms = Listed::from_vec(mem::replace(&mut self.terms, none));
        self.puts.push(Put { field, terms })?;
        Ok(())
    }

    // a `make` or a `modify` is complete
    pub fn end_puts(&mut self) -> Result<(), Refusal>
        ensures { Becomes (view self.new) (with_element InPut (view self.old)) result }
    {
        let none = Vec::new(self.alloc);
        let puts = Listed::from_vec(mem::replace(&mut self.puts, none));
        let class = self.class;
        self.made = Some(class);
        self.add_action(put_action(self.modified, class, puts))
    }

    pub fn end_remove(&mut self) -> Result<(), Refusal>
        ensures { Becomes (view self.new) (with_remove (view self.old)) result }
    {
        let none = Vec::new(self.alloc);
        let cells = Listed::from_vec(mem::replace(&mut self.cells, none));
        self.add_action(Action::Remove { cells })
    }

    pub fn end_write(&mut self) -> Result<(), Refusal>
        ensures { Becomes (view self.new) (with_write (view self.old)) result }
    {
        let none = Vec::new(self.alloc);
        let items = Listed::from_vec(mem::replace(&mut self.items, none));
        self.add_action(Action::Write { items })
    }
}

// a `make` of this class, or a `modify` of this cell
fn put_action(modified: Option<usize>, class: usize, puts: Listed<Put>) -> Action
    ensures { result ≡ put_action modified class puts }
{
    match modified {
        None => Action::Make { class, puts },
        Some(cell) => Action::Modify { cell, puts },
    }
}
