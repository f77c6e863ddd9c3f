//! Element variables.
ghost use Rattle.std.specs.Prelude.{◌∷◌, ◌++◌, drop};
ghost use Rattle.ops_grammar.specs.Grammar.{goes, element_name, InPattern, Pattern, Braced, ElementName, ClosesBrace, ClassName, Terms};
ghost use Rattle.ops_forms.specs.PlaceWalks.{GoesOn, GoesAmong, IsFrom, CutGoesAmong, CutGoesOn, goes_onward};
ghost use Rattle.ops_lhs.specs.Taking.{seen, Reads, Acts, ReadsAmong, ActsAmong, IsAround, CutActs, CutActsAmong, CutReads, CutReadsAmong};

use crate::around::Around;
use crate::left::Left;
use ops_base::endings::Fault;
use ops_forms::kinds::{is_left, is_right_brace, is_variable};
use ops_forms::refusals::refused;
use ops_forms::walking::first_of;
use ops_forms::{Refusal, number_of};
use ops_grammar::Word;

impl Left {
    // VARIABLE pattern } | pattern VARIABLE }
    #[tactic(auto, unfolding(ops_grammar::specs::Grammar::goes, ops_grammar::specs::Grammar::step, ops_grammar::specs::Grammar::ends, ops_forms::specs::PlaceWalks::goes_onward))]
    pub fn braced(&mut self, around: &Around, words: &[Word], at: usize) -> Result<usize, Refusal>
        ensures reads { ReadsAmong around.now Braced self.old self.new words.now at result }
        ensures cut { CutReadsAmong around.now Braced self.old self.new words.now at result }
        ensures within { IsFrom at result }
    {
        let (word, rest) = first_of(words, at)?;
        if is_left(word.kind) {
            return self.pattern_then_name(around, words, rest);
        }
        self.name_then_pattern_from(around, word, words, rest)
    }

    // CLASS term* ) VARIABLE }
    fn pattern_then_name(
        &mut self,
        around: &Around,
        words: &[Word],
        at: usize,
    ) -> Result<usize, Refusal>
        ensures reads { GoesAmong (IsAround around.now) (λ more ws s. goes (drop at words.now ++ more) (ClassName ∷ Terms InPattern ∷ ElementName ∷ ClosesBrace ∷ ws) (seen s self.old)) words.now (λ s. seen s self.new) result }
        ensures cut { CutGoesAmong (IsAround around.now) (λ cut on ws s. goes_onward on (drop at cut) (ClassName ∷ Terms InPattern ∷ ElementName ∷ ClosesBrace ∷ ws) (seen s self.old)) words.now (λ s. seen s self.new) result }
        ensures within { IsFrom at result }
    {
        let rest = self.class_and_terms(around, words, at)?;
        self.name_and_brace(words, rest)
    }

    // VARIABLE pattern }, whose first word was already taken
    fn name_then_pattern_from(
        &mut self,
        around: &Around,
        word: Word,
        words: &[Word],
        at: usize,
    ) -> Result<usize, Refusal>
        ensures acts { ActsAmong around.now (λ ws s. element_name word (Pattern ∷ ClosesBrace ∷ ws) s) word self.old self.new words.now at result }
        ensures cut { CutActsAmong around.now (λ ws s. element_name word (Pattern ∷ ClosesBrace ∷ ws) s) word self.old self.new words.now at result }
        ensures within { IsFrom at result }
    {
        let rest = self.element_name(word, words, at)?;
        self.pattern_and_brace(around, words, rest)
    }

    // pattern }
    fn pattern_and_brace(
        &mut self,
        around: &Around,
        words: &[Word],
        at: usize,
    ) -> Result<usize, Refusal>
        ensures reads { GoesAmong (IsAround around.now) (λ more ws s. goes (drop at words.now ++ more) (Pattern ∷ ClosesBrace ∷ ws) (seen s self.old)) words.now (λ s. seen s self.new) result }
        ensures cut { CutGoesAmong (IsAround around.now) (λ cut on ws s. goes_onward on (drop at cut) (Pattern ∷ ClosesBrace ∷ ws) (seen s self.old)) words.now (λ s. seen s self.new) result }
        ensures within { IsFrom at result }
    {
        let rest = self.pattern(around, words, at)?;
        self.closing_brace(words, rest)
    }

    // VARIABLE }
    #[tactic(auto, unfolding(ops_grammar::specs::Grammar::goes, ops_grammar::specs::Grammar::step, ops_grammar::specs::Grammar::ends, ops_forms::specs::PlaceWalks::goes_onward))]
    fn name_and_brace(&mut self, words: &[Word], at: usize) -> Result<usize, Refusal>
        ensures reads { GoesOn (λ more ws s. goes (drop at words.now ++ more) (ElementName ∷ ClosesBrace ∷ ws) (seen s self.old)) words.now (λ s. seen s self.new) result }
        ensures cut { CutGoesOn (λ cut on ws s. goes_onward on (drop at cut) (ElementName ∷ ClosesBrace ∷ ws) (seen s self.old)) words.now (λ s. seen s self.new) result }
        ensures within { IsFrom at result }
    {
        let (word, rest) = first_of(words, at)?;
        let rest = self.element_name(word, words, rest)?;
        self.closing_brace(words, rest)
    }

    // VARIABLE, which is the word, and was not bound before in this left side
    fn element_name(&mut self, word: Word, words: &[Word], at: usize) -> Result<usize, Refusal>
        ensures acts { Acts (λ ws s. element_name word ws s) word self.old self.new words.now at result }
        ensures cut { CutActs (λ ws s. element_name word ws s) word self.old self.new words.now at result }
        ensures within { IsFrom at result }
    {
        if !is_variable(word.kind) {
            return refused(Fault::BadForm, word);
        }
        if number_of(&self.elements, word.name).is_some() {
            return refused(Fault::BadDesignator, word);
        }
        self.element = word.name;
        Ok(at)
    }

    // }
    #[tactic(auto, unfolding(ops_grammar::specs::Grammar::goes, ops_grammar::specs::Grammar::step, ops_grammar::specs::Grammar::ends, ops_forms::specs::PlaceWalks::goes_onward))]
    fn closing_brace(&mut self, words: &[Word], at: usize) -> Result<usize, Refusal>
        ensures reads { Reads ClosesBrace self.old self.new words.now at result }
        ensures cut { CutReads ClosesBrace self.old self.new words.now at result }
        ensures within { IsFrom at result }
    {
        let (word, rest) = first_of(words, at)?;
        if !is_right_brace(word.kind) {
            return refused(Fault::BadForm, word);
        }
        self.bind_element()?;
        Ok(rest)
    }
}
