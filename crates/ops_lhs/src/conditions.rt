//! Reads conditions up to the arrow.
ghost use Rattle.std.specs.Prelude.{◌∷◌, ◌++◌, ◌<◌, drop, IfOk};
ghost use Rattle.ops_grammar.specs.Grammar.{goes, more_patterns, left_ended, right_begun, FirstPattern, Patterns};
ghost use Rattle.ops_forms.specs.PlaceWalks.{GoesAmong, IsFrom, IsBehind, CutGoesAmong, goes_onward};
ghost use Rattle.ops_lhs.specs.LeftSides.{IsArrow};
ghost use Rattle.ops_lhs.specs.Taking.{seen, ReadsAmong, ActsAmong, IsAround, CutActsAmong, CutReadsAmong};

use crate::around::Around;
use crate::left::{Left, has_room};
use ops_base::endings::Fault;
use ops_forms::Refusal;
use ops_forms::kinds::{begins_group, is_arrow, is_left, is_left_brace, is_minus};
use ops_forms::refusals::{conditions_passed, refused};
use ops_forms::walking::first_of;
use ops_grammar::Word;

impl Left {
    // first condition* -->
    pub fn read_conditions(
        &mut self,
        around: &Around,
        words: &[Word],
        at: usize,
    ) -> Result<usize, Refusal>
        ensures reads { GoesAmong (IsAround around.now) (λ more ws s. goes (drop at words.now ++ more) (FirstPattern ∷ Patterns ∷ ws) (seen s self.old)) words.now (λ s. right_begun (left_ended (seen s self.new))) result }
        ensures cut { CutGoesAmong (IsAround around.now) (λ cut on ws s. goes_onward on (drop at cut) (FirstPattern ∷ Patterns ∷ ws) (seen s self.old)) words.now (λ s. right_begun (left_ended (seen s self.new))) result }
        ensures behind { IfOk result (λ next. IsBehind IsArrow words.now next) }
        ensures within { IsFrom at result }
    {
        let rest = self.first_pattern(around, words, at)?;
        self.patterns(around, words, rest)
    }

    // positive
    #[tactic(auto, unfolding(ops_grammar::specs::Grammar::goes, ops_grammar::specs::Grammar::step, ops_grammar::specs::Grammar::ends, ops_forms::specs::PlaceWalks::goes_onward))]
    fn first_pattern(
        &mut self,
        around: &Around,
        words: &[Word],
        at: usize,
    ) -> Result<usize, Refusal>
        ensures reads { ReadsAmong around.now FirstPattern self.old self.new words.now at result }
        ensures cut { CutReadsAmong around.now FirstPattern self.old self.new words.now at result }
        ensures within { IsFrom at result }
    {
        let (word, rest) = first_of(words, at)?;
        if is_left(word.kind) {
            return self.class_and_terms(around, words, rest);
        }
        if is_left_brace(word.kind) {
            return self.braced(around, words, rest);
        }
        if is_minus(word.keyword) || begins_group(word.keyword) {
            return refused(Fault::FirstNegated, word);
        }
        refused(Fault::BadForm, word)
    }

    // condition* -->
    #[tactic(auto, unfolding(ops_grammar::specs::Grammar::goes, ops_grammar::specs::Grammar::step, ops_grammar::specs::Grammar::ends, ops_forms::specs::PlaceWalks::goes_onward))]
    fn patterns(&mut self, around: &Around, words: &[Word], at: usize) -> Result<usize, Refusal>
        ensures reads { GoesAmong (IsAround around.now) (λ more ws s. goes (drop at words.now ++ more) (Patterns ∷ ws) (seen s self.old)) words.now (λ s. right_begun (left_ended (seen s self.new))) result }
        ensures cut { CutGoesAmong (IsAround around.now) (λ cut on ws s. goes_onward on (drop at cut) (Patterns ∷ ws) (seen s self.old)) words.now (λ s. right_begun (left_ended (seen s self.new))) result }
        ensures behind { IfOk result (λ next. IsBehind IsArrow words.now next) }
        ensures past { IfOk result (λ next. at < next) }
        ensures within { IsFrom at result }
    {
        let mut rest = at;
        'patterns: loop {
            let (word, after) = first_of(words, rest)?;
            if is_arrow(word.keyword) {
                return Ok(after);
            }
            rest = self.condition_from(around, word, words, after)?;
        }
    }

    // positive | - pattern | - { pattern pattern pattern* }, whose first word was already taken; if there is room for
    // one more, which the members of a group check for themselves
    fn condition_from(
        &mut self,
        around: &Around,
        word: Word,
        words: &[Word],
        at: usize,
    ) -> Result<usize, Refusal>
        ensures acts { ActsAmong around.now (λ ws s. more_patterns word ws s) word self.old self.new words.now at result }
        ensures cut { CutActsAmong around.now (λ ws s. more_patterns word ws s) word self.old self.new words.now at result }
        ensures within { IsFrom at result }
    {
        if !is_left(word.kind) && !is_left_brace(word.kind) && !is_minus(word.keyword) {
            if begins_group(word.keyword) {
                return self.group(around, words, at);
            }
            return refused(Fault::BadForm, word);
        }
        if !has_room(&self.conditions, 0) {
            return conditions_passed(word);
        }
        if is_left(word.kind) {
            return self.class_and_terms(around, words, at);
        }
        if is_left_brace(word.kind) {
            return self.braced(around, words, at);
        }
        self.negated = true;
        self.around = self.values.len();
        self.pattern(around, words, at)
    }
}
