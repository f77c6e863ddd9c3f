//! The actions that bind a variable to a value or to a cell.
ghost use Rattle.std.specs.Prelude.{◌∷◌, ◌++◌, drop};
ghost use Rattle.ops_grammar.specs.Grammar.{goes, value_for, ToBind, BoundName, BoundValue, CellName, Closes, EndsWhole};
ghost use Rattle.ops_forms.specs.PlaceWalks.{GoesAmong, IsFrom, CutGoesAmong, goes_onward};
ghost use Rattle.ops_rhs.specs.Taking.{seen, IsAround, Reads, Acts, ReadsAnywhere, CutActs, CutReads, CutReadsAnywhere};

use crate::right::{Around, Right, Target};
use ops_base::actions::Term;
use ops_base::endings::Fault;
use ops_forms::Refusal;
use ops_forms::kinds::{is_right, is_variable};
use ops_forms::refusals::refused;
use ops_forms::walking::{closing, first_of};
use ops_grammar::Word;

impl Right {
    // VARIABLE value ) | VARIABLE )
    pub fn bind(&mut self, around: &Around, words: &[Word], at: usize) -> Result<usize, Refusal>
        ensures reads { GoesAmong (IsAround around.now) (λ more ws s. goes (drop at words.now ++ more) (BoundName ∷ BoundValue ∷ ws) (seen s self.old)) words.now (λ s. seen s self.new) result }
        ensures cut { CutGoesAmong (IsAround around.now) (λ cut on ws s. goes_onward on (drop at cut) (BoundName ∷ BoundValue ∷ ws) (seen s self.old)) words.now (λ s. seen s self.new) result }
        ensures within { IsFrom at result }
    {
        let rest = self.bound_name(words, at)?;
        self.bound_value(around, words, rest)
    }

    // VARIABLE
    #[tactic(auto, unfolding(ops_grammar::specs::Grammar::goes, ops_grammar::specs::Grammar::step, ops_grammar::specs::Grammar::ends, ops_forms::specs::PlaceWalks::goes_onward))]
    fn bound_name(&mut self, words: &[Word], at: usize) -> Result<usize, Refusal>
        ensures reads { ReadsAnywhere BoundName self.old self.new words.now at result }
        ensures cut { CutReadsAnywhere BoundName self.old self.new words.now at result }
        ensures within { IsFrom at result }
    {
        let (word, rest) = first_of(words, at)?;
        if !is_variable(word.kind) {
            return refused(Fault::BadForm, word);
        }
        self.variable = word.name;
        Ok(rest)
    }

    // value ) | ), which means that the value is a fresh atom
    #[tactic(auto, unfolding(ops_grammar::specs::Grammar::goes, ops_grammar::specs::Grammar::step, ops_grammar::specs::Grammar::ends, ops_forms::specs::PlaceWalks::goes_onward))]
    fn bound_value(&mut self, around: &Around, words: &[Word], at: usize) -> Result<usize, Refusal>
        ensures reads { Reads around.now BoundValue self.old self.new words.now at result }
        ensures cut { CutReads around.now BoundValue self.old self.new words.now at result }
        ensures within { IsFrom at result }
    {
        let (word, rest) = first_of(words, at)?;
        if is_right(word.kind) {
            self.add(Target::Bind, Term::Fresh)?;
            return Ok(rest);
        }
        self.written_value_from(around, word, words, rest)
    }

    // value ), whose first word was already taken
    fn written_value_from(
        &mut self,
        around: &Around,
        word: Word,
        words: &[Word],
        at: usize,
    ) -> Result<usize, Refusal>
        ensures acts { Acts around.now (λ ws s. value_for ToBind word (Closes EndsWhole ∷ ws) s) word self.old self.new words.now at result }
        ensures cut { CutActs around.now (λ ws s. value_for ToBind word (Closes EndsWhole ∷ ws) s) word self.old self.new words.now at result }
        ensures within { IsFrom at result }
    {
        let rest = self.value_from(around, Target::Bind, word, words, at)?;
        closing(words, rest)
    }
}

impl Right {
    // VARIABLE )
    pub fn cbind(&mut self, around: &Around, words: &[Word], at: usize) -> Result<usize, Refusal>
        ensures reads { GoesAmong (IsAround around.now) (λ more ws s. goes (drop at words.now ++ more) (CellName ∷ Closes EndsWhole ∷ ws) (seen s self.old)) words.now (λ s. seen s self.new) result }
        ensures cut { CutGoesAmong (IsAround around.now) (λ cut on ws s. goes_onward on (drop at cut) (CellName ∷ Closes EndsWhole ∷ ws) (seen s self.old)) words.now (λ s. seen s self.new) result }
        ensures within { IsFrom at result }
    {
        let rest = self.cell_name(around, words, at)?;
        closing(words, rest)
    }

    // VARIABLE, for the element that was made last
    #[tactic(auto, unfolding(ops_grammar::specs::Grammar::goes, ops_grammar::specs::Grammar::step, ops_grammar::specs::Grammar::ends, ops_forms::specs::PlaceWalks::goes_onward))]
    fn cell_name(&mut self, around: &Around, words: &[Word], at: usize) -> Result<usize, Refusal>
        ensures reads { Reads around.now CellName self.old self.new words.now at result }
        ensures cut { CutReads around.now CellName self.old self.new words.now at result }
        ensures within { IsFrom at result }
    {
        let (word, rest) = first_of(words, at)?;
        if !is_variable(word.kind) {
            return refused(Fault::BadForm, word);
        }
        let Some(class) = self.made else {
            return refused(Fault::BadDesignator, word);
        };
        self.add_cell(around, class, word.name)?;
        Ok(rest)
    }
}
