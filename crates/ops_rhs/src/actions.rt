//! Reads actions up to the closing bracket of a production.
ghost use Rattle.std.specs.Prelude.{◌≡◌, ◌∷◌, ◌++◌, drop, true, false, IfOk};
ghost use Rattle.ops_grammar.specs.Grammar.{goes, action_word, Actions, ActionWord, Closes, EndsHalt};
ghost use Rattle.ops_forms.specs.PlaceWalks.{IsFrom, goes_onward};
ghost use Rattle.ops_rhs.specs.Taking.{seen, is_build, Reads, Acts, GoesTo, IsClosing, ReadsAnywhere, CutActs, CutGoesTo, CutReads, CutReadsAnywhere};

use crate::right::{Around, Right};
use ops_base::actions::Action;
use ops_base::endings::Fault;
use ops_forms::Refusal;
use ops_forms::kinds::{is_left, is_right};
use ops_forms::refusals::refused;
use ops_forms::walking::{closing, first_of};
use ops_grammar::{Keyword, Word};

impl Right {
    // action*, up to the closing bracket; returns the place of the bracket
    #[tactic(auto, unfolding(ops_grammar::specs::Grammar::goes, ops_grammar::specs::Grammar::step, ops_grammar::specs::Grammar::ends, ops_forms::specs::PlaceWalks::goes_onward))]
    pub fn read_actions(
        &mut self,
        around: &Around,
        words: &[Word],
        at: usize,
    ) -> Result<usize, Refusal>
        requires { around.now.built ≡ false }
        ensures reads { GoesTo around.now (Actions false) (λ more ws s. goes (drop at words.now ++ more) (Actions false ∷ ws) (seen s self.old)) words.now self.new result }
        ensures cut { CutGoesTo around.now (Actions false) (λ cut on ws s. goes_onward on (drop at cut) (Actions false ∷ ws) (seen s self.old)) words.now self.new result }
        ensures closing { IfOk result (λ place. IsClosing words.now place) }
        ensures within { IsFrom at result }
    {
        let mut rest = at;
        'actions: loop {
            let (word, after) = first_of(words, rest)?;
            if is_right(word.kind) {
                return Ok(rest);
            }
            if !is_left(word.kind) {
                return refused(Fault::BadForm, word);
            }
            self.begun = word.first;
            rest = self.action(around, words, after)?;
        }
    }

    // the same in a production that is built
    #[tactic(auto, unfolding(ops_grammar::specs::Grammar::goes, ops_grammar::specs::Grammar::step, ops_grammar::specs::Grammar::ends, ops_forms::specs::PlaceWalks::goes_onward))]
    pub fn built_actions(
        &mut self,
        around: &Around,
        words: &[Word],
        at: usize,
    ) -> Result<usize, Refusal>
        ensures reads { GoesTo around.now (Actions true) (λ more ws s. goes (drop at words.now ++ more) (Actions true ∷ ws) (seen s self.old)) words.now self.new result }
        ensures cut { CutGoesTo around.now (Actions true) (λ cut on ws s. goes_onward on (drop at cut) (Actions true ∷ ws) (seen s self.old)) words.now self.new result }
        ensures closing { IfOk result (λ place. IsClosing words.now place) }
        ensures within { IsFrom at result }
    {
        let mut rest = at;
        'actions: loop {
            let (word, after) = first_of(words, rest)?;
            if is_right(word.kind) {
                return Ok(rest);
            }
            if !is_left(word.kind) {
                return refused(Fault::BadForm, word);
            }
            self.begun = word.first;
            rest = self.built_action(around, words, after)?;
        }
    }

    // an action of a production that is not built, after its opening bracket
    #[tactic(auto, unfolding(ops_grammar::specs::Grammar::goes, ops_grammar::specs::Grammar::step, ops_grammar::specs::Grammar::ends, ops_forms::specs::PlaceWalks::goes_onward))]
    fn action(&mut self, around: &Around, words: &[Word], at: usize) -> Result<usize, Refusal>
        requires { around.now.built ≡ false }
        ensures reads { Reads around.now (ActionWord false) self.old self.new words.now at result }
        ensures cut { CutReads around.now (ActionWord false) self.old self.new words.now at result }
        ensures within { IsFrom at result }
    {
        let (word, rest) = first_of(words, at)?;
        if is_build(word.keyword) {
            return self.build(around, words, rest);
        }
        self.action_from(around, word, words, rest)
    }

    // an action of a production that is built, after its opening bracket
    #[tactic(auto, unfolding(ops_grammar::specs::Grammar::goes, ops_grammar::specs::Grammar::step, ops_grammar::specs::Grammar::ends, ops_forms::specs::PlaceWalks::goes_onward))]
    fn built_action(&mut self, around: &Around, words: &[Word], at: usize) -> Result<usize, Refusal>
        ensures reads { Reads around.now (ActionWord true) self.old self.new words.now at result }
        ensures cut { CutReads around.now (ActionWord true) self.old self.new words.now at result }
        ensures within { IsFrom at result }
    {
        let (word, rest) = first_of(words, at)?;
        self.action_from(around, word, words, rest)
    }

    // make CLASS put* ) | modify DESIGNATOR put* ) | remove DESIGNATOR DESIGNATOR* ) | write item* ) | bind VARIABLE
    // [value] )
    // | cbind VARIABLE ) | halt ), whose first word was already taken
    fn action_from(
        &mut self,
        around: &Around,
        word: Word,
        words: &[Word],
        at: usize,
    ) -> Result<usize, Refusal>
        ensures acts { Acts around.now (λ ws s. action_word true word.keyword ws s) word self.old self.new words.now at result }
        ensures cut { CutActs around.now (λ ws s. action_word true word.keyword ws s) word self.old self.new words.now at result }
        ensures within { IsFrom at result }
    {
        match word.keyword {
            Keyword::Make => {
                self.puts.clear();
                self.modified = None;
                self.make(around, words, at)
            }
            Keyword::Modify => {
                self.puts.clear();
                self.modify(around, words, at)
            }
            Keyword::Remove => {
                self.cells.clear();
                self.remove(around, words, at)
            }
            Keyword::Write => {
                self.items.clear();
                self.write(around, words, at)
            }
            Keyword::Bind => self.bind(around, words, at),
            Keyword::Cbind => self.cbind(around, words, at),
            Keyword::Halt => self.halt(words, at),
            _ => refused(Fault::BadForm, word),
        }
    }

    // )
    fn halt(&mut self, words: &[Word], at: usize) -> Result<usize, Refusal>
        ensures reads { ReadsAnywhere (Closes EndsHalt) self.old self.new words.now at result }
        ensures cut { CutReadsAnywhere (Closes EndsHalt) self.old self.new words.now at result }
        ensures within { IsFrom at result }
    {
        let rest = closing(words, at)?;
        self.add_action(Action::Halt)?;
        Ok(rest)
    }
}

fn is_build(keyword: Keyword) -> bool
    ensures { result ≡ is_build keyword }
{
    matches!(keyword, Keyword::Build)
}
