//! What is in sight while a production is read.
ghost use Rattle.std.specs.Prelude.{◌≡◌, [], IfOk};
ghost use Rattle.ops_base.specs.Names.{only_nil};

use crate::classes::Classes;
use crate::declared::Declared;
use ops_base::actions::Hole;
use ops_base::list::Listed;
use ops_base::memory::OutOfMemory;
use ops_base::rules::Rule;
use ops_base::symbols::Names;
use ops_grammar::Named;
use std::alloc::Global;

/// The text and its names, the declared classes, and what is in sight while the two sides of a production are read.
#[derive(Drop)]
pub struct Scope {
    pub text: Vec<u8>,
    pub names: Names,
    pub classes: Classes,
    /// The value variables in sight, with their numbers.
    pub values: Declared<Named>,
    /// The element variables in sight, with their cells.
    pub elements: Declared<Named>,
    /// The class of each cell.
    pub cells: Listed<usize>,
    /// The cell of each part of the left side, `None` for a negated condition or a group.
    pub conditions: Listed<Option<usize>>,
    /// How many variables were given a number.
    pub variables: usize,
    /// How many constants were read.
    pub counted: usize,
    /// Those of them that are holes.
    pub holes: Vec<Hole>,
    /// The productions that actions build.
    pub templates: Vec<Rule>,
}

impl Scope {
    /// This text, the names of `Names::new`, and nothing else.
    pub fn new(alloc: Global, text: Vec<u8>) -> Result<Scope, OutOfMemory>
        ensures text { IfOk result (λ scope. scope.text ≡ text) }
        ensures names { IfOk result (λ scope. scope.names ≡ only_nil) }
        ensures classes { IfOk result (λ scope. scope.classes ≡ []) }
        ensures values { IfOk result (λ scope. scope.values ≡ []) }
        ensures elements { IfOk result (λ scope. scope.elements ≡ []) }
        ensures cells { IfOk result (λ scope. scope.cells ≡ []) }
        ensures conditions { IfOk result (λ scope. scope.conditions ≡ []) }
        ensures variables { IfOk result (λ scope. scope.variables ≡ 0) }
        ensures counted { IfOk result (λ scope. scope.counted ≡ 0) }
        ensures holes { IfOk result (λ scope. scope.holes.items ≡ []) }
        ensures templates { IfOk result (λ scope. scope.templates.items ≡ []) }
    {
        Ok(Scope {
            text,
            names: Names::new(alloc)?,
            classes: Classes::new(alloc),
            values: Declared::new(alloc),
            elements: Declared::new(alloc),
            cells: Listed::new(alloc),
            conditions: Listed::new(alloc),
            variables: 0,
            counted: 0,
            holes: Vec::new(alloc),
            templates: Vec::new(alloc),
        })
    }
}
