//! What is completed while a text is read: values become a field of an element, its fields a command, and two sides a
//! production.
ghost use Rattle.std.specs.Prelude.{◌≡◌, ◌++◌, List, ℕ};
ghost use Rattle.ops_base.specs.Valid.{cells_of};
ghost use Rattle.ops_grammar.specs.Grammar.{with_several, with_element, with_rule, fixed_command, InFixed};
ghost use Rattle.ops_forms.specs.WordWalks.{Becomes};
ghost use Rattle.ops_rhs.specs.RightSides.{right_read};
ghost use Rattle.ops_check.specs.Walks.{view, shows};

use crate::draft::{Draft, ElementUse};
use ops_base::commands::{Command, Fixed};
use ops_base::conditions::Part;
use ops_base::constants::Constants;
use ops_base::list::Listed;
use ops_base::rules::Rule;
use ops_forms::refusals::Refusal;
use ops_lhs::specificity;
use ops_rhs::RightSide;
use std::mem;

impl Draft {
    // the values of the vector attribute in a command are complete
    pub(crate) fn end_constants(&mut self, field: usize) -> Result<(), Refusal>
        ensures { Becomes (view self.new) (with_several InFixed field (view self.old)) result }
    {
        let none = Vec::new(self.alloc);
        let values = Constants::several(Listed::from_vec(mem::replace(&mut self.constants, none)));
        self.fixed.push(Fixed { field, values })?;
        Ok(())
    }

    // A `make` or a `ppwm` is complete. Its fields take no more room than they need.
    pub(crate) fn end_fixed(&mut self) -> Result<(), Refusal>
        ensures { Becomes (view self.new) (with_element InFixed (view self.old)) result }
    {
        let none = Vec::new(self.alloc);
        let mut puts = mem::replace(&mut self.fixed, none);
        puts.shrink_to_fit();
        let puts = Listed::from_vec(puts);
        self.add_command(fixed_command(self.element_use, self.class, puts))
    }

    // A production is complete, with these conditions and this right side. It ends before the byte `past`.
    pub(crate) fn end_rule(
        &mut self,
        conditions: Vec<Part>,
        right: RightSide,
        past: usize,
    ) -> Result<(), Refusal>
        requires { (further : List ℕ) × (right.sight.cells ≡ cells_of conditions.items ++ further) }
        ensures { (further : List ℕ) → right.sight.cells ≡ cells_of conditions.items ++ further
            → Becomes (view self.new) (with_rule (right_read (record (view self.old) { conditions = conditions.items }) right.actions.items right.sight further) past) result }
    {
        // A text of 16,777,216 bytes has too few tests for the sum to exceed a u32.
        let Some(specificity) = specificity(&conditions) else {
            return Err(Refusal::OutOfMemory);
        };
        let RightSide { actions, sight } = right;
        let rule = Rule {
            name: self.name,
            conditions: Listed::from_vec(conditions),
            actions: Listed::from_vec(actions),
            specificity,
            variables: sight.variables,
            cells: sight.cells.len(),
            first: self.first,
            past,
        };
        self.class = 0;
        self.values = sight.values;
        self.elements = sight.elements;
        self.variables = sight.variables;
        self.templates = sight.templates;
        self.add_rule(rule)
    }
}

// a `make` of this class, or a `ppwm` for the elements that have these values
fn fixed_command(element_use: ElementUse, class: usize, puts: Listed<Fixed>) -> Command
    ensures { result ≡ fixed_command (shows element_use) class puts }
{
    match element_use {
        ElementUse::Make => Command::Make { class, puts },
        ElementUse::Show => {
            let pattern = Some((class, puts));
            Command::Ppwm { pattern }
        }
    }
}
