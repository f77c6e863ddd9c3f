//! The cells of a right side: first those of the positive conditions in order, then those that `cbind` named.
ghost use Rattle.std.specs.Prelude.{◌≡◌, ◌+◌, ◌++◌, length, slice_get, unwrap_or};
ghost use Rattle.ops_grammar.specs.Grammar.{with_cell};
ghost use Rattle.ops_rhs.specs.Taking.{seen, BecomesAmong};

use crate::right::{Around, Right};
use ops_base::actions::Action;
use ops_base::values::Sym;
use ops_forms::Refusal;

impl Right {
    // the class of a cell's element. The definition is total and uses the first class for a cell that does not exist;
    // the cells that are read do exist.
    pub fn class_of_cell(&self, around: &Around, cell: usize) -> usize
        ensures { result ≡ unwrap_or (slice_get (around.now.cells.now ++ self.now.further.items) cell) 0 }
    {
        let cells = around.cells.len();
        if cell < cells {
            around.cells[cell]
        } else {
            self.further.get(cell - cells).copied().unwrap_or(0)
        }
    }

    fn cell_count(&self, around: &Around) -> usize
        ensures { result ≡ length (around.now.cells.now ++ self.now.further.items) }
    {
        around.cells.len() + self.further.len()
    }

    // makes the element variable name a further cell, with an element of this class
    pub fn add_cell(&mut self, around: &Around, class: usize, name: Sym) -> Result<(), Refusal>
        ensures { BecomesAmong around.now (λ s. seen s self.new) (λ s. with_cell (seen s self.old) class name) result }
    {
        let cell = self.cell_count(around);
        self.elements.renumber(name, cell)?;
        self.further.push(class)?;
        self.add_action(Action::Cbind { cell })
    }
}
