//! Patterns: a class with attributes and tests.
ghost use Rattle.std.specs.Prelude.{◌∷◌, ◌++◌, drop};
ghost use Rattle.ops_grammar.specs.Grammar.{goes, InPattern, ClassName, Terms, Attribute, Pattern};
ghost use Rattle.ops_forms.specs.PlaceWalks.{GoesAmong, IsFrom, CutGoesAmong, goes_onward};
ghost use Rattle.ops_lhs.specs.Taking.{seen, GoesToTermsAmong, ReadsAmong, IsAround, PeekGoesToTermsAmong, CutReadsAmong};

use crate::around::Around;
use crate::left::Left;
use ops_base::endings::Fault;
use ops_forms::Refusal;
use ops_forms::kinds::{is_caret, is_left, is_name, is_right};
use ops_forms::refusals::refused;
use ops_forms::walking::first_of;
use ops_grammar::Word;

impl Left {
    // ( CLASS term* )
    #[tactic(auto, unfolding(ops_grammar::specs::Grammar::goes, ops_grammar::specs::Grammar::step, ops_grammar::specs::Grammar::ends, ops_forms::specs::PlaceWalks::goes_onward))]
    pub fn pattern(&mut self, around: &Around, words: &[Word], at: usize) -> Result<usize, Refusal>
        ensures reads { ReadsAmong around.now Pattern self.old self.new words.now at result }
        ensures cut { CutReadsAmong around.now Pattern self.old self.new words.now at result }
        ensures within { IsFrom at result }
    {
        let (word, rest) = first_of(words, at)?;
        if !is_left(word.kind) {
            return refused(Fault::BadForm, word);
        }
        self.class_and_terms(around, words, rest)
    }

    // CLASS term* )
    pub fn class_and_terms(
        &mut self,
        around: &Around,
        words: &[Word],
        at: usize,
    ) -> Result<usize, Refusal>
        ensures reads { GoesAmong (IsAround around.now) (λ more ws s. goes (drop at words.now ++ more) (ClassName ∷ Terms InPattern ∷ ws) (seen s self.old)) words.now (λ s. seen s self.new) result }
        ensures cut { CutGoesAmong (IsAround around.now) (λ cut on ws s. goes_onward on (drop at cut) (ClassName ∷ Terms InPattern ∷ ws) (seen s self.old)) words.now (λ s. seen s self.new) result }
        ensures within { IsFrom at result }
    {
        let rest = self.class_name(around, words, at)?;
        self.terms(around, words, rest)
    }

    // CLASS
    #[tactic(auto, unfolding(ops_grammar::specs::Grammar::goes, ops_grammar::specs::Grammar::step, ops_grammar::specs::Grammar::ends, ops_forms::specs::PlaceWalks::goes_onward))]
    fn class_name(&mut self, around: &Around, words: &[Word], at: usize) -> Result<usize, Refusal>
        ensures reads { ReadsAmong around.now ClassName self.old self.new words.now at result }
        ensures cut { CutReadsAmong around.now ClassName self.old self.new words.now at result }
        ensures within { IsFrom at result }
    {
        let (word, rest) = first_of(words, at)?;
        if !is_name(word.kind) {
            return refused(Fault::BadForm, word);
        }
        let Some(class) = around.classes.place_of(word.name) else {
            return refused(Fault::UnknownClass, word);
        };
        self.class = class;
        Ok(rest)
    }

    // term* )
    #[tactic(auto, unfolding(ops_grammar::specs::Grammar::goes, ops_grammar::specs::Grammar::step, ops_grammar::specs::Grammar::ends, ops_forms::specs::PlaceWalks::goes_onward))]
    fn terms(&mut self, around: &Around, words: &[Word], at: usize) -> Result<usize, Refusal>
        ensures reads { ReadsAmong around.now (Terms InPattern) self.old self.new words.now at result }
        ensures cut { CutReadsAmong around.now (Terms InPattern) self.old self.new words.now at result }
        ensures within { IsFrom at result }
    {
        let mut rest = at;
        'terms: loop {
            let (word, after) = first_of(words, rest)?;
            if is_right(word.kind) {
                self.end_condition()?;
                return Ok(after);
            }
            if !is_caret(word.kind) {
                return refused(Fault::BadForm, word);
            }
            rest = self.attribute(around, words, after)?;
        }
    }

    // ATTR place*
    #[tactic(auto, unfolding(ops_grammar::specs::Grammar::goes, ops_grammar::specs::Grammar::step, ops_grammar::specs::Grammar::ends, ops_forms::specs::PlaceWalks::goes_onward))]
    fn attribute(&mut self, around: &Around, words: &[Word], at: usize) -> Result<usize, Refusal>
        ensures reads { GoesToTermsAmong around.now (λ more ws s. goes (drop at words.now ++ more) (Attribute InPattern ∷ ws) (seen s self.old)) words.now self.new result }
        ensures cut { PeekGoesToTermsAmong around.now (λ cut on ws s. goes_onward on (drop at cut) (Attribute InPattern ∷ ws) (seen s self.old)) words.now self.new result }
        ensures within { IsFrom at result }
    {
        let (word, rest) = first_of(words, at)?;
        if !is_name(word.kind) {
            return refused(Fault::BadForm, word);
        }
        // The definition is total: in fact the class exists, because it was found by its name.
        let Some(class) = around.classes.get(self.class) else {
            return refused(Fault::UnknownAttribute, word);
        };
        let Some(field) = class.field_of(word.name) else {
            return refused(Fault::UnknownAttribute, word);
        };
        if class.is_vector(field) {
            return self.places(around, field, words, rest);
        }
        self.place(around, field, words, rest)
    }
}
