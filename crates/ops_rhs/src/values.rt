//! Values: constants, variables and functions.
ghost use Rattle.ops_grammar.specs.Grammar.{goes, value_for, bound_at, number_of, Atom, ValueFor};
ghost use Rattle.ops_forms.specs.PlaceWalks.{IsFrom};
ghost use Rattle.ops_rhs.specs.Taking.{target_of, Reads, Acts, ActsAnywhere, CutActs, CutActsAnywhere, CutReads};

use crate::right::{Around, Right, Target};
use ops_base::actions::Term;
use ops_base::endings::Fault;
use ops_forms::kinds::{atom_of, is_left, is_literal, is_variable, value_of};
use ops_forms::refusals::refused;
use ops_forms::walking::first_of;
use ops_forms::{Refusal, number_of};
use ops_grammar::Word;

impl Right {
    // rconstant | VARIABLE | ( function
    #[tactic(auto, unfolding(ops_grammar::specs::Grammar::goes, ops_grammar::specs::Grammar::step, ops_grammar::specs::Grammar::ends, ops_forms::specs::PlaceWalks::goes_onward))]
    pub fn value(
        &mut self,
        around: &Around,
        target: Target,
        words: &[Word],
        at: usize,
    ) -> Result<usize, Refusal>
        ensures reads { Reads around.now (ValueFor (target_of target)) self.old self.new words.now at result }
        ensures cut { CutReads around.now (ValueFor (target_of target)) self.old self.new words.now at result }
        ensures within { IsFrom at result }
    {
        let (word, rest) = first_of(words, at)?;
        self.value_from(around, target, word, words, rest)
    }

    // rconstant | VARIABLE | ( function, whose first word was already taken
    pub fn value_from(
        &mut self,
        around: &Around,
        target: Target,
        word: Word,
        words: &[Word],
        at: usize,
    ) -> Result<usize, Refusal>
        ensures acts { Acts around.now (λ ws s. value_for (target_of target) word ws s) word self.old self.new words.now at result }
        ensures cut { CutActs around.now (λ ws s. value_for (target_of target) word ws s) word self.old self.new words.now at result }
        ensures within { IsFrom at result }
    {
        if is_literal(word.keyword) {
            return self.atom(around, target, words, at);
        }
        if is_left(word.kind) {
            return self.function(around, target, words, at);
        }
        if let Some(constant) = value_of(word.kind, word.name) {
            self.begin_constant(around, word)?;
            self.add_constant(target, constant)?;
            return Ok(at);
        }
        if !is_variable(word.kind) {
            return refused(Fault::BadForm, word);
        }
        self.bound(target, word, words, at)
    }

    // atom
    #[tactic(auto, unfolding(ops_grammar::specs::Grammar::goes, ops_grammar::specs::Grammar::step, ops_grammar::specs::Grammar::ends, ops_forms::specs::PlaceWalks::goes_onward))]
    fn atom(
        &mut self,
        around: &Around,
        target: Target,
        words: &[Word],
        at: usize,
    ) -> Result<usize, Refusal>
        ensures reads { Reads around.now (Atom (target_of target)) self.old self.new words.now at result }
        ensures cut { CutReads around.now (Atom (target_of target)) self.old self.new words.now at result }
        ensures within { IsFrom at result }
    {
        let (word, rest) = first_of(words, at)?;
        let Some(value) = atom_of(word.kind, word.name) else {
            return refused(Fault::BadForm, word);
        };
        self.begin_constant(around, word)?;
        self.add_constant(target, value)?;
        Ok(rest)
    }

    // a variable, which must be bound by a condition or a `bind` before it
    fn bound(
        &mut self,
        target: Target,
        word: Word,
        words: &[Word],
        at: usize,
    ) -> Result<usize, Refusal>
        ensures acts { ActsAnywhere (λ ws s. bound_at (target_of target) (number_of word.name s.values) ws s) word self.old self.new words.now at result }
        ensures cut { CutActsAnywhere (λ ws s. bound_at (target_of target) (number_of word.name s.values) ws s) word self.old self.new words.now at result }
        ensures within { IsFrom at result }
    {
        let Some(number) = number_of(&self.values, word.name) else {
            return refused(Fault::UnboundVariable, word);
        };
        self.add(target, Term::Variable(number))?;
        Ok(at)
    }
}
