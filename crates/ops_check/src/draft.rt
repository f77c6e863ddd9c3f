//! What was read of a program so far, and how it grows.
ghost use Rattle.std.specs.Prelude.{◌≡◌, ◌==◌, position, slice_get};
ghost use Rattle.ops_base.specs.Valid.{class_of, is_vector};
ghost use Rattle.ops_grammar.specs.Grammar.{nothing_read, is_class, is_rule, is_one_of, is_second, makes_second, may_declare, is_beginning, with_class, with_vector, with_fixed, with_constant, with_command, with_production, attributes_of};
ghost use Rattle.ops_forms.specs.WordWalks.{Becomes};
ghost use Rattle.ops_check.specs.Walks.{view, target_of};

use crate::given::GivenCommands;
use ops_base::commands::{Command, Fixed};
use ops_base::constants::Constants;
use ops_base::elements::Class;
use ops_base::list::Listed;
use ops_base::rules::Rule;
use ops_base::values::{NIL, Sym, Value};
use ops_forms::refusals::Refusal;
use ops_forms::vectors::{arranged, has_vector, is_one_of};
use ops_forms::{Classes, Declared, Named};
use std::alloc::Global;

/// Where a constant of a command goes: to a scalar attribute, or among the values of the vector attribute.
#[derive(Clone, Copy, Debug, PartialEq, Eq)]
pub(crate) enum Target {
    Fixed { field: usize },
    Constants,
}

/// What the tags of a command are for.
#[derive(Clone, Copy, Debug, PartialEq, Eq)]
pub(crate) enum TagUse {
    Remove,
    Show,
}

/// What the names of a command are for.
#[derive(Clone, Copy, Debug, PartialEq, Eq)]
pub(crate) enum NameUse {
    Print,
    Break,
    Excise,
    Match,
}

/// What the element of a command is for: it is made, or the elements that have its values are shown.
#[derive(Clone, Copy, Debug, PartialEq, Eq)]
pub(crate) enum ElementUse {
    Make,
    Show,
}

/// The classes, rules and commands that were read, and the parts of the form that is being read. The fields are those
/// of the state of the definition's walk (`State` in specs/Grammar.antt of ops_grammar). They carry values from one
/// method to the next.
#[derive(Drop)]
pub(crate) struct Draft {
    pub(crate) classes: Classes,
    /// The productions at the beginning. A later production is added by a command.
    pub(crate) rules: Declared<Rule>,
    /// The productions that actions build.
    pub(crate) templates: Vec<Rule>,
    pub(crate) commands: GivenCommands,
    /// The names of vector attributes.
    pub(crate) vectors: Declared<Sym>,
    /// The name of the class or the production that is being read.
    pub(crate) name: Sym,
    /// The first byte of the form that is being read.
    pub(crate) first: usize,
    /// The attributes of the class that is being read.
    pub(crate) attrs: Vec<Sym>,
    /// The class of the element of a command.
    pub(crate) class: usize,
    /// The values of the vector attribute that is being read in a command.
    pub(crate) constants: Vec<Value>,
    /// The fields of the element of a command, with their values.
    pub(crate) fixed: Vec<Fixed>,
    pub(crate) element_use: ElementUse,
    /// The tags of a command.
    pub(crate) tags: Vec<u64>,
    /// The names of a command.
    pub(crate) named: Vec<Sym>,
    /// The value variables that a production leaves in sight, until the next production begins.
    pub(crate) values: Declared<Named>,
    /// The element variables that it leaves in sight.
    pub(crate) elements: Declared<Named>,
    /// How many variables that production gave a number.
    pub(crate) variables: usize,
    pub(crate) alloc: Global,
}

impl Draft {
    pub(crate) fn new(alloc: Global) -> Draft
        ensures { view result ≡ nothing_read }
    {
        Draft {
            classes: Classes::new(alloc),
            rules: Declared::new(alloc),
            templates: Vec::new(alloc),
            commands: GivenCommands::new(alloc),
            vectors: Declared::new(alloc),
            name: NIL,
            first: 0,
            attrs: Vec::new(alloc),
            class: 0,
            constants: Vec::new(alloc),
            fixed: Vec::new(alloc),
            element_use: ElementUse::Make,
            tags: Vec::new(alloc),
            named: Vec::new(alloc),
            values: Declared::new(alloc),
            elements: Declared::new(alloc),
            variables: 0,
            alloc,
        }
    }

    // whether a class may still be declared: neither a production nor a command after which a declaration would be late
    // was read
    pub(crate) fn may_declare(&self) -> bool
        ensures { result ≡ may_declare (view self.now) }
    {
        self.rules.len() == 0 && self.commands.may_declare()
    }

    // whether a production at this point is one of those at the beginning: no `make` and no `run` was read
    fn is_beginning(&self) -> bool
        ensures { result ≡ is_beginning (view self.now) }
    {
        self.commands.is_beginning()
    }

    pub(crate) fn is_class(&self, name: Sym) -> bool
        ensures { result ≡ is_class (view self.now) name }
    {
        self.classes.place_of(name).is_some()
    }

    pub(crate) fn is_rule(&self, name: Sym) -> bool
        ensures { result ≡ is_rule (view self.now) name }
    {
        self.rules.place_of(name).is_some() || self.commands.adds(name)
    }

    pub(crate) fn is_attribute(&self, name: Sym) -> bool
        ensures { result ≡ is_one_of name (view self.now).attrs }
    {
        self.attrs.iter().any(|attr| *attr == name)
    }

    pub(crate) fn is_vector_name(&self, name: Sym) -> bool
        ensures { result ≡ is_one_of name (view self.now).vectors }
    {
        is_one_of(name, &self.vectors)
    }

    // whether this name would give the class that is being read a second vector attribute
    pub(crate) fn is_second(&self, name: Sym) -> bool
        ensures { result ≡ is_second name (view self.now) }
    {
        is_one_of(name, &self.vectors) && has_vector(&self.vectors, &self.attrs)
    }

    // whether this name would give a class a second vector attribute
    pub(crate) fn makes_second(&self, name: Sym) -> bool
        ensures { result ≡ makes_second name (view self.now).classes }
    {
        self.classes.makes_second(name)
    }

    pub(crate) fn class_of(&self, name: Sym) -> Option<usize>
        ensures { result ≡ position (λ c. c.name.0 == name.0) (view self.now).classes }
    {
        self.classes.place_of(name)
    }
}

impl Draft {
    pub(crate) fn end_class(&mut self) -> Result<(), Refusal>
        ensures { Becomes (view self.new) (with_class (view self.old)) result }
    {
        let attrs = arranged(self.alloc, &self.vectors, &self.attrs)?;
        let vector = has_vector(&self.vectors, &self.attrs);
        self.classes.push(Class {
            name: self.name,
            attrs: Listed::from_vec(attrs),
            vector,
        })?;
        self.attrs.clear();
        Ok(())
    }

    // Makes a name that of a vector attribute.
    pub(crate) fn add_vector(&mut self, name: Sym) -> Result<(), Refusal>
        ensures { Becomes (view self.new) (with_vector (view self.old) name) result }
    {
        self.vectors.push(name)?;
        self.classes.make_vector(name)?;
        Ok(())
    }

    fn add_fixed(&mut self, field: usize, value: Value) -> Result<(), Refusal>
        ensures { Becomes (view self.new) (with_fixed (view self.old) field value) result }
    {
        let values = Constants::one(value);
        self.fixed.push(Fixed { field, values })?;
        Ok(())
    }

    // A production at the beginning is put with the others; a later one is added by a command, at its place among the
    // commands.
    pub(crate) fn add_rule(&mut self, rule: Rule) -> Result<(), Refusal>
        ensures { Becomes (view self.new) (with_production (view self.old) rule) result }
    {
        if self.is_beginning() {
            self.rules.push(rule)?;
        } else {
            self.commands.push(Command::Add { rule })?;
        }
        Ok(())
    }

    pub(crate) fn add_command(&mut self, command: Command) -> Result<(), Refusal>
        ensures { Becomes (view self.new) (with_command (view self.old) command) result }
    {
        self.commands.push(command)?;
        Ok(())
    }
}

impl Draft {
    pub(crate) fn add_constant(&mut self, target: Target, value: Value) -> Result<(), Refusal>
        ensures { Becomes (view self.new) (with_constant (target_of target) (view self.old) value) result }
    {
        match target {
            Target::Fixed { field } => self.add_fixed(field, value),
            Target::Constants => {
                self.constants.push(value)?;
                Ok(())
            }
        }
    }

    // whether the field is the vector attribute of the class that was named. The definition is total: in fact the class
    // exists, because it was found by its name.
    pub(crate) fn is_vector(&self, field: usize) -> bool
        ensures { result ≡ is_vector (class_of (view self.now).classes (view self.now).class) field }
    {
        match self.classes.get(self.class) {
            Some(class) => class.is_vector(field),
            None => false,
        }
    }

    // the field of an attribute of the class that was named
    pub(crate) fn field_of(&self, name: Sym) -> Option<usize>
        ensures { result ≡ position (λ a. a.0 == name.0) (attributes_of (slice_get (view self.now).classes (view self.now).class)) }
    {
        self.classes.get(self.class)?.field_of(name)
    }
}
