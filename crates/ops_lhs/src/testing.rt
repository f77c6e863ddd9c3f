//! Tests of a condition.
ghost use Rattle.ops_grammar.specs.Grammar.{goes, number_of, place, test, tested, variable_tested, Place, Tests, Tested, Choice, Atom, ToTest};
ghost use Rattle.ops_forms.specs.PlaceWalks.{IsFrom};
ghost use Rattle.ops_lhs.specs.Taking.{Acts, CutActs, ReadsAmong, ActsAmong, CutActsAmong, CutReadsAmong};

use crate::around::Around;
use crate::left::Left;
use ops_base::conditions::Operand;
use ops_base::endings::Fault;
use ops_base::values::Pred;
use ops_forms::kinds::{
    atom_of, closes_choice, constant_of, is_left_brace, is_literal, is_right_brace, is_variable,
    opens_choice, pred_of,
};
use ops_forms::refusals::refused;
use ops_forms::walking::first_of;
use ops_forms::{Refusal, number_of};
use ops_grammar::Word;

impl Left {
    // test | { test* }
    #[tactic(auto, unfolding(ops_grammar::specs::Grammar::goes, ops_grammar::specs::Grammar::step, ops_grammar::specs::Grammar::ends, ops_forms::specs::PlaceWalks::goes_onward))]
    pub fn place(
        &mut self,
        around: &Around,
        field: usize,
        words: &[Word],
        at: usize,
    ) -> Result<usize, Refusal>
        ensures reads { ReadsAmong around.now (Place field) self.old self.new words.now at result }
        ensures cut { CutReadsAmong around.now (Place field) self.old self.new words.now at result }
        ensures within { IsFrom at result }
    {
        let (word, rest) = first_of(words, at)?;
        self.place_from(around, field, word, words, rest)
    }

    // test | { test* }, whose first word was already taken
    pub fn place_from(
        &mut self,
        around: &Around,
        field: usize,
        word: Word,
        words: &[Word],
        at: usize,
    ) -> Result<usize, Refusal>
        ensures acts { ActsAmong around.now (λ ws s. place field word ws s) word self.old self.new words.now at result }
        ensures cut { CutActsAmong around.now (λ ws s. place field word ws s) word self.old self.new words.now at result }
        ensures within { IsFrom at result }
    {
        if is_left_brace(word.kind) {
            return self.conjunction(around, field, words, at);
        }
        self.test_from(around, field, word, words, at)
    }

    // test* }
    #[tactic(auto, unfolding(ops_grammar::specs::Grammar::goes, ops_grammar::specs::Grammar::step, ops_grammar::specs::Grammar::ends, ops_forms::specs::PlaceWalks::goes_onward))]
    fn conjunction(
        &mut self,
        around: &Around,
        field: usize,
        words: &[Word],
        at: usize,
    ) -> Result<usize, Refusal>
        ensures reads { ReadsAmong around.now (Tests field) self.old self.new words.now at result }
        ensures cut { CutReadsAmong around.now (Tests field) self.old self.new words.now at result }
        ensures within { IsFrom at result }
    {
        let mut rest = at;
        'tests: loop {
            let (word, after) = first_of(words, rest)?;
            if is_right_brace(word.kind) {
                return Ok(after);
            }
            rest = self.test_from(around, field, word, words, after)?;
        }
    }

    // constant | VARIABLE | PRED constant | PRED VARIABLE | << atom* >>, whose first word was already taken
    fn test_from(
        &mut self,
        around: &Around,
        field: usize,
        word: Word,
        words: &[Word],
        at: usize,
    ) -> Result<usize, Refusal>
        ensures acts { ActsAmong around.now (λ ws s. test field word ws s) word self.old self.new words.now at result }
        ensures cut { CutActsAmong around.now (λ ws s. test field word ws s) word self.old self.new words.now at result }
        ensures within { IsFrom at result }
    {
        if opens_choice(word.keyword) {
            self.choice.clear();
            return self.disjunction(around, field, words, at);
        }
        match pred_of(word.keyword) {
            Some(pred) => self.tested(around, field, pred, words, at),
            None => self.operand_from(around, field, Pred::Eq, word, words, at),
        }
    }

    // constant | VARIABLE
    #[tactic(auto, unfolding(ops_grammar::specs::Grammar::goes, ops_grammar::specs::Grammar::step, ops_grammar::specs::Grammar::ends, ops_forms::specs::PlaceWalks::goes_onward))]
    fn tested(
        &mut self,
        around: &Around,
        field: usize,
        pred: Pred,
        words: &[Word],
        at: usize,
    ) -> Result<usize, Refusal>
        ensures reads { ReadsAmong around.now (Tested field pred) self.old self.new words.now at result }
        ensures cut { CutReadsAmong around.now (Tested field pred) self.old self.new words.now at result }
        ensures within { IsFrom at result }
    {
        let (word, rest) = first_of(words, at)?;
        self.operand_from(around, field, pred, word, words, rest)
    }

    // constant | VARIABLE, whose first word was already taken
    fn operand_from(
        &mut self,
        around: &Around,
        field: usize,
        pred: Pred,
        word: Word,
        words: &[Word],
        at: usize,
    ) -> Result<usize, Refusal>
        ensures acts { ActsAmong around.now (λ ws s. tested field pred word ws s) word self.old self.new words.now at result }
        ensures cut { CutActsAmong around.now (λ ws s. tested field pred word ws s) word self.old self.new words.now at result }
        ensures within { IsFrom at result }
    {
        if is_literal(word.keyword) {
            return self.atom(around, field, pred, words, at);
        }
        if let Some(constant) = constant_of(word.kind, word.name) {
            self.begin_constant(around, word)?;
            self.add_constant(field, pred, constant)?;
            return Ok(at);
        }
        if !is_variable(word.kind) {
            return refused(Fault::BadForm, word);
        }
        self.variable(field, pred, word, words, at)
    }

    // atom
    #[tactic(auto, unfolding(ops_grammar::specs::Grammar::goes, ops_grammar::specs::Grammar::step, ops_grammar::specs::Grammar::ends, ops_forms::specs::PlaceWalks::goes_onward))]
    fn atom(
        &mut self,
        around: &Around,
        field: usize,
        pred: Pred,
        words: &[Word],
        at: usize,
    ) -> Result<usize, Refusal>
        ensures reads { ReadsAmong around.now (Atom (ToTest field pred)) self.old self.new words.now at result }
        ensures cut { CutReadsAmong around.now (Atom (ToTest field pred)) self.old self.new words.now at result }
        ensures within { IsFrom at result }
    {
        let (word, rest) = first_of(words, at)?;
        let Some(value) = atom_of(word.kind, word.name) else {
            return refused(Fault::BadForm, word);
        };
        self.begin_constant(around, word)?;
        self.add_constant(field, pred, value)?;
        Ok(rest)
    }

    // the first occurrence of a variable binds it, by an equality
    fn variable(
        &mut self,
        field: usize,
        pred: Pred,
        word: Word,
        words: &[Word],
        at: usize,
    ) -> Result<usize, Refusal>
        ensures acts { Acts (λ ws s. variable_tested field pred (number_of word.name s.values) word.name ws s) word self.old self.new words.now at result }
        ensures cut { CutActs (λ ws s. variable_tested field pred (number_of word.name s.values) word.name ws s) word self.old self.new words.now at result }
        ensures within { IsFrom at result }
    {
        if let Some(number) = number_of(&self.values, word.name) {
            self.add_test(field, pred, Operand::Variable(number), false)?;
            return Ok(at);
        }
        match pred {
            Pred::Eq => self.add_bound(field, word.name)?,
            Pred::Ne | Pred::Lt | Pred::Le | Pred::Gt | Pred::Ge | Pred::SameKind => {
                return refused(Fault::UnboundVariable, word);
            }
        }
        Ok(at)
    }

    // atom* >>
    #[tactic(auto, unfolding(ops_grammar::specs::Grammar::goes, ops_grammar::specs::Grammar::step, ops_grammar::specs::Grammar::ends, ops_forms::specs::PlaceWalks::goes_onward))]
    fn disjunction(
        &mut self,
        around: &Around,
        field: usize,
        words: &[Word],
        at: usize,
    ) -> Result<usize, Refusal>
        ensures reads { ReadsAmong around.now (Choice field) self.old self.new words.now at result }
        ensures cut { CutReadsAmong around.now (Choice field) self.old self.new words.now at result }
        ensures within { IsFrom at result }
    {
        let mut rest = at;
        'choices: loop {
            let (word, after) = first_of(words, rest)?;
            if closes_choice(word.keyword) {
                self.end_choice(field)?;
                return Ok(after);
            }
            let Some(value) = atom_of(word.kind, word.name) else {
                return refused(Fault::BadForm, word);
            };
            self.begin_constant(around, word)?;
            self.add_choice(value)?;
            rest = after;
        }
    }
}
