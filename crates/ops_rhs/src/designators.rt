//! The designators of the elements that a right side refers to.
ghost use Rattle.std.specs.Prelude.{◌≡◌, ◌∷◌, ◌++◌, drop, slice_get};
ghost use Rattle.ops_grammar.specs.Grammar.{State, goes, cell, cell_of, named_cell, natural_of, number_of, InPut, Cell, Cells, Modified, Terms};
ghost use Rattle.ops_forms.specs.PlaceWalks.{GoesAmong, IsFrom, CutGoesAmong, goes_onward};
ghost use Rattle.ops_rhs.specs.Taking.{seen, numbered_by, cell_by, IsAround, Reads, Acts, CutActs, CutReads};

use crate::right::{Around, Right};
use ops_base::endings::Fault;
use ops_base::values::Sym;
use ops_forms::kinds::{is_right, natural_of};
use ops_forms::refusals::refused;
use ops_forms::walking::first_of;
use ops_forms::{Refusal, number_of};
use ops_grammar::Word;
use ops_tokens::TokenKind;

impl Right {
    // DESIGNATOR DESIGNATOR* )
    #[tactic(auto, unfolding(ops_grammar::specs::Grammar::goes, ops_grammar::specs::Grammar::step, ops_grammar::specs::Grammar::ends, ops_forms::specs::PlaceWalks::goes_onward))]
    pub fn remove(&mut self, around: &Around, words: &[Word], at: usize) -> Result<usize, Refusal>
        ensures reads { GoesAmong (IsAround around.now) (λ more ws s. goes (drop at words.now ++ more) (Cell ∷ Cells ∷ ws) (seen s self.old)) words.now (λ s. seen s self.new) result }
        ensures cut { CutGoesAmong (IsAround around.now) (λ cut on ws s. goes_onward on (drop at cut) (Cell ∷ Cells ∷ ws) (seen s self.old)) words.now (λ s. seen s self.new) result }
        ensures within { IsFrom at result }
    {
        let (word, rest) = first_of(words, at)?;
        let rest = self.cell(around, word, words, rest)?;
        self.remove_cells(around, words, rest)
    }

    // DESIGNATOR* )
    #[tactic(auto, unfolding(ops_grammar::specs::Grammar::goes, ops_grammar::specs::Grammar::step, ops_grammar::specs::Grammar::ends, ops_forms::specs::PlaceWalks::goes_onward))]
    fn remove_cells(&mut self, around: &Around, words: &[Word], at: usize) -> Result<usize, Refusal>
        ensures reads { Reads around.now Cells self.old self.new words.now at result }
        ensures cut { CutReads around.now Cells self.old self.new words.now at result }
        ensures within { IsFrom at result }
    {
        let mut rest = at;
        'cells: loop {
            let (word, after) = first_of(words, rest)?;
            if is_right(word.kind) {
                self.end_remove()?;
                return Ok(after);
            }
            rest = self.cell(around, word, words, after)?;
        }
    }

    // DESIGNATOR, which is the word
    fn cell(
        &mut self,
        around: &Around,
        word: Word,
        words: &[Word],
        at: usize,
    ) -> Result<usize, Refusal>
        ensures acts { Acts around.now (λ ws s. cell word.kind word.name ws s) word self.old self.new words.now at result }
        ensures cut { CutActs around.now (λ ws s. cell word.kind word.name ws s) word self.old self.new words.now at result }
        ensures within { IsFrom at result }
    {
        match self.cell_of(around, word) {
            Ok(cell) => {
                self.cells.push(cell)?;
                Ok(at)
            }
            Err(fault) => refused(fault, word),
        }
    }
}

impl Right {
    // DESIGNATOR put* )
    pub fn modify(&mut self, around: &Around, words: &[Word], at: usize) -> Result<usize, Refusal>
        ensures reads { GoesAmong (IsAround around.now) (λ more ws s. goes (drop at words.now ++ more) (Modified ∷ Terms InPut ∷ ws) (seen s self.old)) words.now (λ s. seen s self.new) result }
        ensures cut { CutGoesAmong (IsAround around.now) (λ cut on ws s. goes_onward on (drop at cut) (Modified ∷ Terms InPut ∷ ws) (seen s self.old)) words.now (λ s. seen s self.new) result }
        ensures within { IsFrom at result }
    {
        let rest = self.modified_cell(around, words, at)?;
        self.read_terms(around, words, rest)
    }

    // DESIGNATOR
    #[tactic(auto, unfolding(ops_grammar::specs::Grammar::goes, ops_grammar::specs::Grammar::step, ops_grammar::specs::Grammar::ends, ops_forms::specs::PlaceWalks::goes_onward))]
    fn modified_cell(
        &mut self,
        around: &Around,
        words: &[Word],
        at: usize,
    ) -> Result<usize, Refusal>
        ensures reads { Reads around.now Modified self.old self.new words.now at result }
        ensures cut { CutReads around.now Modified self.old self.new words.now at result }
        ensures within { IsFrom at result }
    {
        let (word, rest) = first_of(words, at)?;
        match self.cell_of(around, word) {
            Ok(cell) => {
                self.modified = Some(cell);
                self.class = self.class_of_cell(around, cell);
                Ok(rest)
            }
            Err(fault) => refused(fault, word),
        }
    }
}

impl Right {
    // the cell that a word designates: by the number of a condition, or by an element variable
    fn cell_of(&self, around: &Around, word: Word) -> Result<usize, Fault>
        ensures { (s : State) → IsAround around.now s → result ≡ cell_of word.kind word.name (seen s self.now) }
    {
        match word.kind {
            TokenKind::Whole(number) => numbered_cell(around, number),
            TokenKind::Variable => self.named_cell(word.name),
            _ => Err(Fault::BadForm),
        }
    }

    // an element variable, which must be bound by a condition or a `cbind` before it
    fn named_cell(&self, name: Sym) -> Result<usize, Fault>
        ensures { result ≡ named_cell (number_of name self.now.elements) }
    {
        number_of(&self.elements, name).ok_or(Fault::BadDesignator)
    }
}

// The number of a condition is counted from 1.
fn numbered_cell(around: &Around, number: i128) -> Result<usize, Fault>
    ensures { result ≡ numbered_by (natural_of number) around.now.conditions.now }
{
    match natural_of(number) {
        Some(natural) => designated(around, natural - 1),
        None => Err(Fault::BadDesignator),
    }
}

// The cell of the condition that has this many conditions before it, if that condition is positive. If one of those
// before it is negated or a group, the number of the condition and its cell differ, and the designator is ambiguous.
fn designated(around: &Around, before: u128) -> Result<usize, Fault>
    ensures { result ≡ cell_by before (slice_get around.now.conditions.now before) }
{
    let Ok(before) = usize::try_from(before) else {
        return Err(Fault::BadDesignator);
    };
    match around.conditions.get(before) {
        Some(Some(cell)) if *cell == before => Ok(before),
        Some(Some(_)) => Err(Fault::AmbiguousDesignator),
        _ => Err(Fault::BadDesignator),
    }
}
