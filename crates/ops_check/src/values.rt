//! Constants as values in a command.
ghost use Rattle.ops_grammar.specs.Grammar.{goes, atom_of, value_for, Atom, ValueFor};
ghost use Rattle.ops_forms.specs.WordWalks.{Reads, Acts, IsWithin};
ghost use Rattle.ops_check.specs.Walks.{view, target_of};

use crate::draft::{Draft, Target};
use ops_base::endings::Fault;
use ops_forms::kinds::{atom_of, is_hole, is_literal, is_variable, value_of};
use ops_forms::refusals::{Refusal, first_of, refused};
use ops_grammar::Word;

impl Draft {
    // rconstant
    #[tactic(auto, unfolding(ops_grammar::specs::Grammar::goes, ops_grammar::specs::Grammar::step, ops_grammar::specs::Grammar::ends))]
    pub(crate) fn value<'a>(
        &mut self,
        target: Target,
        words: &'a [Word],
    ) -> Result<&'a [Word], Refusal>
        ensures reads { Reads (ValueFor (target_of target)) (view self.old) (view self.new) words.now result }
        ensures within { IsWithin words.now result }
    {
        let (word, rest) = first_of(words)?;
        self.value_from(target, word, rest)
    }

    // rconstant, whose first word was already taken; in a command no variable is bound
    pub(crate) fn value_from<'a>(
        &mut self,
        target: Target,
        word: Word,
        rest: &'a [Word],
    ) -> Result<&'a [Word], Refusal>
        ensures acts { Acts (λ ws s. value_for (target_of target) word ws s) word (view self.old) (view self.new) rest.now result }
        ensures within { IsWithin rest.now result }
    {
        if is_literal(word.keyword) {
            return self.atom(target, rest);
        }
        if let Some(constant) = value_of(word.kind, word.name) {
            if is_hole(word.keyword) {
                return refused(Fault::UnboundVariable, word);
            }
            self.add_constant(target, constant)?;
            return Ok(rest);
        }
        if is_variable(word.kind) {
            return refused(Fault::UnboundVariable, word);
        }
        refused(Fault::BadForm, word)
    }

    // atom
    #[tactic(auto, unfolding(ops_grammar::specs::Grammar::goes, ops_grammar::specs::Grammar::step, ops_grammar::specs::Grammar::ends))]
    fn atom<'a>(&mut self, target: Target, words: &'a [Word]) -> Result<&'a [Word], Refusal>
        ensures reads { Reads (Atom (target_of target)) (view self.old) (view self.new) words.now result }
        ensures within { IsWithin words.now result }
    {
        let (word, rest) = first_of(words)?;
        let Some(value) = atom_of(word.kind, word.name) else {
            return refused(Fault::BadForm, word);
        };
        if is_hole(word.keyword) {
            return refused(Fault::UnboundVariable, word);
        }
        self.add_constant(target, value)?;
        Ok(rest)
    }
}
