//! The elements that a right side makes: a class with attributes and values.
ghost use Rattle.std.specs.Prelude.{◌∷◌, ◌++◌, drop};
ghost use Rattle.ops_grammar.specs.Grammar.{goes, InPut, ClassName, Terms, Attribute, Several};
ghost use Rattle.ops_forms.specs.PlaceWalks.{GoesAmong, IsFrom, CutGoesAmong, goes_onward};
ghost use Rattle.ops_rhs.specs.Taking.{seen, IsAround, Reads, GoesTo, PeekGoesTo, CutReads};

use crate::right::{Around, Right, Target};
use ops_base::endings::Fault;
use ops_forms::Refusal;
use ops_forms::kinds::{ends_values, is_caret, is_name, is_right};
use ops_forms::refusals::refused;
use ops_forms::walking::first_of;
use ops_grammar::Word;

impl Right {
    // CLASS put* )
    pub fn make(&mut self, around: &Around, words: &[Word], at: usize) -> Result<usize, Refusal>
        ensures reads { GoesAmong (IsAround around.now) (λ more ws s. goes (drop at words.now ++ more) (ClassName ∷ Terms InPut ∷ ws) (seen s self.old)) words.now (λ s. seen s self.new) result }
        ensures cut { CutGoesAmong (IsAround around.now) (λ cut on ws s. goes_onward on (drop at cut) (ClassName ∷ Terms InPut ∷ ws) (seen s self.old)) words.now (λ s. seen s self.new) result }
        ensures within { IsFrom at result }
    {
        let rest = self.class_name(around, words, at)?;
        self.read_terms(around, words, rest)
    }

    // CLASS
    #[tactic(auto, unfolding(ops_grammar::specs::Grammar::goes, ops_grammar::specs::Grammar::step, ops_grammar::specs::Grammar::ends, ops_forms::specs::PlaceWalks::goes_onward))]
    fn class_name(&mut self, around: &Around, words: &[Word], at: usize) -> Result<usize, Refusal>
        ensures reads { Reads around.now ClassName self.old self.new words.now at result }
        ensures cut { CutReads around.now ClassName self.old self.new words.now at result }
        ensures within { IsFrom at result }
    {
        let (word, rest) = first_of(words, at)?;
        if !is_name(word.kind) {
            return refused(Fault::BadForm, word);
        }
        let Some(class) = around.classes.place_of(word.name) else {
            return refused(Fault::UnknownClass, word);
        };
        self.class = class;
        Ok(rest)
    }

    // put* )
    #[tactic(auto, unfolding(ops_grammar::specs::Grammar::goes, ops_grammar::specs::Grammar::step, ops_grammar::specs::Grammar::ends, ops_forms::specs::PlaceWalks::goes_onward))]
    pub fn read_terms(
        &mut self,
        around: &Around,
        words: &[Word],
        at: usize,
    ) -> Result<usize, Refusal>
        ensures reads { Reads around.now (Terms InPut) self.old self.new words.now at result }
        ensures cut { CutReads around.now (Terms InPut) self.old self.new words.now at result }
        ensures within { IsFrom at result }
    {
        let mut rest = at;
        'terms: loop {
            let (word, after) = first_of(words, rest)?;
            if is_right(word.kind) {
                self.end_puts()?;
                return Ok(after);
            }
            if !is_caret(word.kind) {
                return refused(Fault::BadForm, word);
            }
            rest = self.attribute(around, words, after)?;
        }
    }

    // ATTR value*
    #[tactic(auto, unfolding(ops_grammar::specs::Grammar::goes, ops_grammar::specs::Grammar::step, ops_grammar::specs::Grammar::ends, ops_forms::specs::PlaceWalks::goes_onward))]
    fn attribute(&mut self, around: &Around, words: &[Word], at: usize) -> Result<usize, Refusal>
        ensures reads { GoesTo around.now (Terms InPut) (λ more ws s. goes (drop at words.now ++ more) (Attribute InPut ∷ ws) (seen s self.old)) words.now self.new result }
        ensures cut { PeekGoesTo around.now (Terms InPut) (λ cut on ws s. goes_onward on (drop at cut) (Attribute InPut ∷ ws) (seen s self.old)) words.now self.new result }
        ensures within { IsFrom at result }
    {
        let (word, rest) = first_of(words, at)?;
        if !is_name(word.kind) {
            return refused(Fault::BadForm, word);
        }
        // The definition is total: in fact the class exists, because it was found by its name.
        let Some(class) = around.classes.get(self.class) else {
            return refused(Fault::UnknownAttribute, word);
        };
        let Some(field) = class.field_of(word.name) else {
            return refused(Fault::UnknownAttribute, word);
        };
        if class.is_vector(field) {
            self.terms.clear();
            return self.several(around, field, words, rest);
        }
        self.value(around, Target::Put { field }, words, rest)
    }

    // value*, up to the first word that begins none
    #[tactic(auto, unfolding(ops_grammar::specs::Grammar::goes, ops_grammar::specs::Grammar::step, ops_grammar::specs::Grammar::ends, ops_forms::specs::PlaceWalks::goes_onward))]
    fn several(
        &mut self,
        around: &Around,
        field: usize,
        words: &[Word],
        at: usize,
    ) -> Result<usize, Refusal>
        ensures reads { GoesTo around.now (Terms InPut) (λ more ws s. goes (drop at words.now ++ more) (Several InPut field ∷ ws) (seen s self.old)) words.now self.new result }
        ensures cut { PeekGoesTo around.now (Terms InPut) (λ cut on ws s. goes_onward on (drop at cut) (Several InPut field ∷ ws) (seen s self.old)) words.now self.new result }
        ensures within { IsFrom at result }
    {
        let mut rest = at;
        'several: loop {
            let (word, after) = first_of(words, rest)?;
            if ends_values(word.kind) {
                self.end_terms(field)?;
                return Ok(rest);
            }
            rest = self.value_from(around, Target::Terms, word, words, after)?;
        }
    }
}
