//! The function `substr`, which reads the values of a cell's element.
ghost use Rattle.std.specs.Prelude.{◌≡◌, ◌∷◌, ◌++◌, ◌==◌, drop, position};
ghost use Rattle.ops_base.specs.Valid.{is_vector};
ghost use Rattle.ops_grammar.specs.Grammar.{goes, takes_several, SourceCell, SourceAttribute, SourceEnd, Closes, EndsWhole};
ghost use Rattle.ops_forms.specs.PlaceWalks.{GoesAmong, IsFrom, CutGoesAmong, goes_onward};
ghost use Rattle.ops_rhs.specs.Taking.{seen, target_of, source_class, IsAround, Reads, ReadsAnywhere, CutReads, CutReadsAnywhere};

use crate::right::{Around, Right, Target};
use ops_base::actions::Term;
use ops_base::endings::Fault;
use ops_base::values::Sym;
use ops_forms::kinds::{is_inf, is_name, is_variable};
use ops_forms::refusals::refused;
use ops_forms::walking::{closing, first_of};
use ops_forms::{Refusal, number_of};
use ops_grammar::Word;

impl Right {
    // VARIABLE ATTR ATTR ) | VARIABLE ATTR inf )
    pub fn substr(
        &mut self,
        around: &Around,
        target: Target,
        words: &[Word],
        at: usize,
    ) -> Result<usize, Refusal>
        ensures reads { GoesAmong (IsAround around.now) (λ more ws s. goes (drop at words.now ++ more) (SourceCell ∷ SourceAttribute (target_of target) ∷ ws) (seen s self.old)) words.now (λ s. seen s self.new) result }
        ensures cut { CutGoesAmong (IsAround around.now) (λ cut on ws s. goes_onward on (drop at cut) (SourceCell ∷ SourceAttribute (target_of target) ∷ ws) (seen s self.old)) words.now (λ s. seen s self.new) result }
        ensures within { IsFrom at result }
    {
        let rest = self.source_cell(words, at)?;
        self.source_attribute(around, target, words, rest)
    }

    // VARIABLE
    #[tactic(auto, unfolding(ops_grammar::specs::Grammar::goes, ops_grammar::specs::Grammar::step, ops_grammar::specs::Grammar::ends, ops_forms::specs::PlaceWalks::goes_onward))]
    fn source_cell(&mut self, words: &[Word], at: usize) -> Result<usize, Refusal>
        ensures reads { ReadsAnywhere SourceCell self.old self.new words.now at result }
        ensures cut { CutReadsAnywhere SourceCell self.old self.new words.now at result }
        ensures within { IsFrom at result }
    {
        let (word, rest) = first_of(words, at)?;
        if !is_variable(word.kind) {
            return refused(Fault::BadForm, word);
        }
        let Some(cell) = number_of(&self.elements, word.name) else {
            return refused(Fault::BadDesignator, word);
        };
        self.source = cell;
        Ok(rest)
    }

    // ATTR ATTR ) | ATTR inf )
    #[tactic(auto, unfolding(ops_grammar::specs::Grammar::goes, ops_grammar::specs::Grammar::step, ops_grammar::specs::Grammar::ends, ops_forms::specs::PlaceWalks::goes_onward))]
    fn source_attribute(
        &mut self,
        around: &Around,
        target: Target,
        words: &[Word],
        at: usize,
    ) -> Result<usize, Refusal>
        ensures reads { Reads around.now (SourceAttribute (target_of target)) self.old self.new words.now at result }
        ensures cut { CutReads around.now (SourceAttribute (target_of target)) self.old self.new words.now at result }
        ensures within { IsFrom at result }
    {
        let (word, rest) = first_of(words, at)?;
        if !is_name(word.kind) {
            return refused(Fault::BadForm, word);
        }
        let Some(field) = self.field_of_source(around, word.name) else {
            return refused(Fault::UnknownAttribute, word);
        };
        self.source_field = field;
        self.source_ends(around, target, word.name, words, rest)
    }

    // ATTR ) | inf ), after this name
    fn source_ends(
        &mut self,
        around: &Around,
        target: Target,
        name: Sym,
        words: &[Word],
        at: usize,
    ) -> Result<usize, Refusal>
        ensures reads { GoesAmong (IsAround around.now) (λ more ws s. goes (drop at words.now ++ more) (SourceEnd (target_of target) name ∷ Closes EndsWhole ∷ ws) (seen s self.old)) words.now (λ s. seen s self.new) result }
        ensures cut { CutGoesAmong (IsAround around.now) (λ cut on ws s. goes_onward on (drop at cut) (SourceEnd (target_of target) name ∷ Closes EndsWhole ∷ ws) (seen s self.old)) words.now (λ s. seen s self.new) result }
        ensures within { IsFrom at result }
    {
        let rest = self.source_end(around, target, name, words, at)?;
        closing(words, rest)
    }

    // ATTR | inf, after this name
    #[tactic(auto, unfolding(ops_grammar::specs::Grammar::goes, ops_grammar::specs::Grammar::step, ops_grammar::specs::Grammar::ends, ops_forms::specs::PlaceWalks::goes_onward))]
    fn source_end(
        &mut self,
        around: &Around,
        target: Target,
        name: Sym,
        words: &[Word],
        at: usize,
    ) -> Result<usize, Refusal>
        ensures reads { Reads around.now (SourceEnd (target_of target) name) self.old self.new words.now at result }
        ensures cut { CutReads around.now (SourceEnd (target_of target) name) self.old self.new words.now at result }
        ensures within { IsFrom at result }
    {
        let (word, rest) = first_of(words, at)?;
        let (cell, field) = (self.source, self.source_field);
        if is_inf(word.keyword) && self.is_source_vector(around) {
            if !takes_several(target) {
                return refused(Fault::BadForm, word);
            }
            self.add(target, Term::Rest { cell })?;
            return Ok(rest);
        }
        if !is_name(word.kind) || word.name != name {
            return refused(Fault::BadForm, word);
        }
        self.add(target, Term::One { cell, field })?;
        Ok(rest)
    }
}

impl Right {
    // the field of an attribute of the class of the cell that `substr` reads
    fn field_of_source(&self, around: &Around, name: Sym) -> Option<usize>
        ensures { result ≡ position (λ a. a.0 == name.0) (source_class around.now self.now).attrs }
    {
        let class = around.classes.get(self.class_of_cell(around, self.source))?;
        class.field_of(name)
    }

    // whether the field that `substr` reads is the vector attribute of that class
    fn is_source_vector(&self, around: &Around) -> bool
        ensures { result ≡ is_vector (source_class around.now self.now) self.now.source_field }
    {
        match around.classes.get(self.class_of_cell(around, self.source)) {
            Some(class) => class.is_vector(self.source_field),
            // The definition is total: in fact each cell has a declared class.
            None => false,
        }
    }
}

// whether several values are allowed there
fn takes_several(target: Target) -> bool
    ensures { result ≡ takes_several (target_of target) }
{
    match target {
        Target::Terms | Target::Item => true,
        Target::Put { .. } | Target::Bind => false,
    }
}
