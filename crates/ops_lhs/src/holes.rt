//! Constants, which may be holes.
ghost use Rattle.ops_lhs.specs.Taking.{BeginsConstant};

use crate::around::Around;
use crate::left::Left;
use ops_base::actions::Hole;
use ops_base::endings::Fault;
use ops_forms::kinds::hole_of;
use ops_forms::refusals::refused;
use ops_forms::{Refusal, number_of};
use ops_grammar::Word;

impl Left {
    // If the constant that the word is comes from a hole, the hole is kept. Its variable must be in sight around.
    pub fn begin_constant(&mut self, around: &Around, word: Word) -> Result<(), Refusal>
        ensures { BeginsConstant around.now word self.old self.new result }
    {
        let Some(name) = hole_of(word.keyword) else {
            return Ok(());
        };
        let Some(variable) = number_of(around.values, name) else {
            return refused(Fault::UnboundVariable, word);
        };
        self.holes.push(Hole {
            number: self.counted,
            variable,
        })?;
        Ok(())
    }
}
