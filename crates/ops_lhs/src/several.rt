//! The places of a vector attribute.
ghost use Rattle.std.specs.Prelude.{◌≡◌, ◌∷◌, ◌++◌, ◌||◌, ◌&&◌, drop, is_some, nat_lt};
ghost use Rattle.ops_base.specs.Valid.{most_fields};
ghost use Rattle.ops_grammar.specs.Grammar.{goes, is_literal, is_variable, constant_of, place, within, InPattern, Several};
ghost use Rattle.ops_forms.specs.PlaceWalks.{IsFrom, goes_onward};
ghost use Rattle.ops_lhs.specs.Taking.{seen, GoesToTermsAmong, ActsAmong, begins_place, may_fill, CutActsAmong, PeekGoesToTermsAmong};

use crate::around::Around;
use crate::left::Left;
use ops_base::elements::MOST_FIELDS;
use ops_forms::kinds::{
    constant_of, ends_values, is_left_brace, is_literal, is_variable, opens_choice, pred_of,
};
use ops_forms::refusals::fields_passed;
use ops_forms::walking::first_of;
use ops_forms::{Refusal, number_of};
use ops_grammar::{Keyword, Word};

impl Left {
    // place*
    #[tactic(auto, unfolding(ops_grammar::specs::Grammar::goes, ops_grammar::specs::Grammar::step, ops_grammar::specs::Grammar::ends, ops_forms::specs::PlaceWalks::goes_onward))]
    pub fn places(
        &mut self,
        around: &Around,
        field: usize,
        words: &[Word],
        at: usize,
    ) -> Result<usize, Refusal>
        ensures reads { GoesToTermsAmong around.now (λ more ws s. goes (drop at words.now ++ more) (Several InPattern field ∷ ws) (seen s self.old)) words.now self.new result }
        ensures cut { PeekGoesToTermsAmong around.now (λ cut on ws s. goes_onward on (drop at cut) (Several InPattern field ∷ ws) (seen s self.old)) words.now self.new result }
        ensures within { IsFrom at result }
    {
        let mut next = field;
        let mut rest = at;
        'places: loop {
            let (word, after) = first_of(words, rest)?;
            if ends_values(word.kind) {
                return Ok(rest);
            }
            rest = self.next_place_from(around, next, word, words, after)?;
            next = next.checked_add(1).ok_or(Refusal::OutOfMemory)?;
        }
    }

    // a place, whose first word was already taken, if an element has room for its field
    fn next_place_from(
        &mut self,
        around: &Around,
        field: usize,
        word: Word,
        words: &[Word],
        at: usize,
    ) -> Result<usize, Refusal>
        ensures acts { ActsAmong around.now (λ ws s. within (nat_lt field most_fields) (place field word ws s)) word self.old self.new words.now at result }
        ensures cut { CutActsAmong around.now (λ ws s. within (nat_lt field most_fields) (place field word ws s)) word self.old self.new words.now at result }
        ensures within { IsFrom at result }
    {
        if begins_place(around, word) && field >= MOST_FIELDS {
            return fields_passed(word);
        }
        self.place_from(around, field, word, words, at)
    }
}

// whether a place begins at a word
fn begins_place(around: &Around, word: Word) -> bool
    ensures { result ≡ begins_place around.now.values.now word }
{
    is_left_brace(word.kind)
        || opens_choice(word.keyword)
        || pred_of(word.keyword).is_some()
        || begins_operand(around, word)
}

// whether a constant or a variable begins at a word
fn begins_operand(around: &Around, word: Word) -> bool
    ensures { result ≡ (is_literal word.keyword || ((is_some (constant_of word.kind word.name) && may_fill around.now.values.now word.keyword) || is_variable word.kind)) }
{
    is_literal(word.keyword)
        || (constant_of(word.kind, word.name).is_some() && may_fill(around, word.keyword))
        || is_variable(word.kind)
}

// whether a constant is no hole, or one for a variable that is in sight around
fn may_fill(around: &Around, keyword: Keyword) -> bool
    ensures { result ≡ may_fill around.now.values.now keyword }
{
    match keyword {
        Keyword::Hole { variable, .. } => number_of(around.values, variable).is_some(),
        _ => true,
    }
}
