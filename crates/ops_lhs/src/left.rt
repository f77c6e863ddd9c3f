//! What was read of a left side so far, and how it grows.
ghost use Rattle.std.specs.Prelude.{◌≡◌, ◌+◌, length, nat_lt};
ghost use Rattle.ops_base.specs.Valid.{cells_of, elements_of, most_conditions};
ghost use Rattle.ops_grammar.specs.Grammar.{nothing_read, left_begun, with_test, with_constant, with_choice_of, with_bound, with_choice, with_member, ToTest, with_one, with_condition, group_begun, with_group, with_bound_element};
ghost use Rattle.ops_forms.specs.WordWalks.{Becomes};
ghost use Rattle.ops_lhs.specs.Taking.{view};

use ops_base::actions::Hole;
use ops_base::conditions::{Condition, Operand, Part, Test};
use ops_base::list::Listed;
use ops_base::values::{NIL, Pred, Sym, Value};
use ops_forms::{Declared, Named, Refusal};
use std::alloc::Global;
use std::mem;

/// What was read of a left side so far. Its fields are those of the state of the definition's walk (`State` in
/// specs/Grammar.antt of ops_grammar). They carry values from one method to the next.
#[derive(Drop)]
pub struct Left {
    /// The class of the condition that is being read.
    pub class: usize,
    /// The tests of that condition.
    pub tests: Vec<Test>,
    /// The constants of the disjunction that is being read.
    pub choice: Vec<Value>,
    /// The value variables in sight, with their numbers.
    pub values: Declared<Named>,
    /// The element variables in sight, with their cells.
    pub elements: Declared<Named>,
    /// The element variable of the condition that is being read.
    pub element: Sym,
    /// How many variables were given a number.
    pub variables: usize,
    /// Whether the condition that is being read is negated.
    pub negated: bool,
    /// How many variables are in sight around a negated condition or a group.
    pub around: usize,
    /// Whether a group is being read.
    pub grouped: bool,
    /// The members of that group that were read so far.
    pub members: Vec<Condition>,
    pub conditions: Vec<Part>,
    /// How many constants were read.
    pub counted: usize,
    /// Those of them that are holes.
    pub holes: Vec<Hole>,
    pub alloc: Global,
}

impl Left {
    pub fn new(alloc: Global) -> Left
        ensures { view result ≡ left_begun nothing_read }
    {
        Left {
            class: 0,
            tests: Vec::new(alloc),
            choice: Vec::new(alloc),
            values: Declared::new(alloc),
            elements: Declared::new(alloc),
            element: NIL,
            variables: 0,
            negated: false,
            around: 0,
            grouped: false,
            members: Vec::new(alloc),
            conditions: Vec::new(alloc),
            counted: 0,
            holes: Vec::new(alloc),
            alloc,
        }
    }

    pub fn add_test(
        &mut self,
        field: usize,
        pred: Pred,
        operand: Operand,
        binds: bool,
    ) -> Result<(), Refusal>
        ensures { Becomes (view self.new) (with_test (view self.old) field pred operand binds) result }
    {
        self.tests.push(Test {
            field,
            pred,
            operand,
            binds,
        })?;
        Ok(())
    }

    pub fn add_constant(&mut self, field: usize, pred: Pred, value: Value) -> Result<(), Refusal>
        ensures { Becomes (view self.new) (with_constant (ToTest field pred) (view self.old) value) result }
    {
        self.counted = self.counted.checked_add(1).ok_or(Refusal::OutOfMemory)?;
        self.add_test(field, pred, Operand::Constant(value), false)
    }

    // one more constant of a disjunction
    pub fn add_choice(&mut self, value: Value) -> Result<(), Refusal>
        ensures { Becomes (view self.new) (with_choice_of (view self.old) value) result }
    {
        self.counted = self.counted.checked_add(1).ok_or(Refusal::OutOfMemory)?;
        self.choice.push(value)?;
        Ok(())
    }

    // the first occurrence of a variable binds it
    pub fn add_bound(&mut self, field: usize, name: Sym) -> Result<(), Refusal>
        ensures { Becomes (view self.new) (with_bound (view self.old) field name) result }
    {
        let number = self.variables;
        self.values.push(Named { name, number })?;
        self.variables = number.checked_add(1).ok_or(Refusal::OutOfMemory)?;
        self.add_test(field, Pred::Eq, Operand::Variable(number), true)
    }

    // a disjunction is complete
    pub fn end_choice(&mut self, field: usize) -> Result<(), Refusal>
        ensures { Becomes (view self.new) (with_choice (view self.old) field) result }
    {
        let none = Vec::new(self.alloc);
        let values = Listed::from_vec(mem::replace(&mut self.choice, none));
        self.add_test(field, Pred::Eq, Operand::OneOf(values), false)
    }

    // a condition is complete, which is a member of a group or a part of its own
    pub fn end_condition(&mut self) -> Result<(), Refusal>
        ensures { Becomes (view self.new) (with_condition (view self.old)) result }
    {
        if self.grouped {
            return self.end_member();
        }
        self.end_one()
    }

    fn end_member(&mut self) -> Result<(), Refusal>
        ensures { Becomes (view self.new) (with_member (view self.old)) result }
    {
        let none = Vec::new(self.alloc);
        let tests = Listed::from_vec(mem::replace(&mut self.tests, none));
        self.members.push(Condition {
            class: self.class,
            negated: false,
            tests,
        })?;
        Ok(())
    }

    // After a negated condition, its variables are out of sight.
    fn end_one(&mut self) -> Result<(), Refusal>
        ensures { Becomes (view self.new) (with_one (view self.old)) result }
    {
        let none = Vec::new(self.alloc);
        let tests = Listed::from_vec(mem::replace(&mut self.tests, none));
        self.conditions.push(Part::One(Condition {
            class: self.class,
            negated: self.negated,
            tests,
        }))?;
        if self.negated {
            self.values.truncate(self.around);
        }
        self.negated = false;
        Ok(())
    }

    pub fn begin_group(&mut self)
        ensures { view self.new ≡ group_begun (view self.old) }
    {
        self.grouped = true;
        self.around = self.values.len();
        self.members.clear();
        self.tests.clear();
    }

    // After a group, its variables are out of sight.
    pub fn end_group(&mut self) -> Result<(), Refusal>
        ensures { Becomes (view self.new) (with_group (view self.old)) result }
    {
        let none = Vec::new(self.alloc);
        let members = Listed::from_vec(mem::replace(&mut self.members, none));
        self.conditions.push(Part::Group(members))?;
        self.values.truncate(self.around);
        self.negated = false;
        self.grouped = false;
        Ok(())
    }

    // Makes the element variable name the cell of the condition that was read last. The definition is total: in fact
    // that condition is positive, so it has a cell.
    pub fn bind_element(&mut self) -> Result<(), Refusal>
        ensures { Becomes (view self.new) (with_bound_element (view self.old)) result }
    {
        let cells = count_cells(&self.conditions);
        self.elements.push(Named {
            name: self.element,
            number: cells.saturating_sub(1),
        })?;
        Ok(())
    }
}

/// How many cells an instantiation of conditions has: one per positive condition.
fn count_cells(parts: &[Part]) -> usize
    ensures { result ≡ length (cells_of parts.now) }
{
    let mut cells = 0;
    for part in parts {
        if let Part::One(condition) = part {
            if !condition.negated {
                cells += 1;
            }
        }
    }
    cells
}

/// How many conditions a production may have, including the members of groups.
const MOST_CONDITIONS: usize = 256;

/// Whether there is room for one more condition after these parts and this many members of the next one. Takes time in
/// proportion to the number of parts.
pub fn has_room(parts: &[Part], members: usize) -> bool
    ensures { result ≡ nat_lt (length (elements_of parts.now) + members) most_conditions }
{
    if MOST_CONDITIONS <= members {
        return false;
    }
    let mut room = MOST_CONDITIONS - members;
    for part in parts {
        let count = match part {
            Part::One(_) => 1,
            Part::Group(members) => members.len(),
        };
        if room <= count {
            return false;
        }
        room -= count;
    }
    true
}
