//! The elements in commands: a class with attributes and values.
ghost use Rattle.std.specs.Prelude.{false, [], ◌∷◌, ◌++◌};
ghost use Rattle.ops_grammar.specs.Grammar.{goes, InFixed, Shown, ClassName, Terms, Attribute};
ghost use Rattle.ops_forms.specs.WordWalks.{Goes, GoesToTerms, Reads, IsWithin};
ghost use Rattle.ops_check.specs.Walks.{view};

use crate::draft::{Draft, ElementUse, Target};
use ops_base::commands::Command;
use ops_base::endings::Fault;
use ops_forms::kinds::{is_caret, is_name, is_right};
use ops_forms::refusals::{Refusal, first_of, refused};
use ops_grammar::Word;

impl Draft {
    // CLASS fixed* )
    pub(crate) fn make<'a>(&mut self, words: &'a [Word]) -> Result<&'a [Word], Refusal>
        ensures reads { Goes (λ more ws. goes (words.now ++ more) (ClassName ∷ Terms InFixed ∷ ws) (record (view self.old) { fixed = []; shows = false })) (view self.new) result }
        ensures within { IsWithin words.now result }
    {
        self.fixed.clear();
        self.element_use = ElementUse::Make;
        self.class_and_terms(words)
    }

    // CLASS fixed* ) | )
    #[tactic(auto, unfolding(ops_grammar::specs::Grammar::goes, ops_grammar::specs::Grammar::step, ops_grammar::specs::Grammar::ends))]
    pub(crate) fn ppwm<'a>(&mut self, words: &'a [Word]) -> Result<&'a [Word], Refusal>
        ensures reads { Reads Shown (view self.old) (view self.new) words.now result }
        ensures within { IsWithin words.now result }
    {
        let (word, rest) = first_of(words)?;
        if is_right(word.kind) {
            self.add_command(Command::Ppwm { pattern: None })?;
            return Ok(rest);
        }
        self.fixed.clear();
        self.element_use = ElementUse::Show;
        self.class_and_terms(words)
    }

    // CLASS fixed* )
    fn class_and_terms<'a>(&mut self, words: &'a [Word]) -> Result<&'a [Word], Refusal>
        ensures reads { Goes (λ more ws. goes (words.now ++ more) (ClassName ∷ Terms InFixed ∷ ws) (view self.old)) (view self.new) result }
        ensures within { IsWithin words.now result }
    {
        let rest = self.class_name(words)?;
        self.terms(rest)
    }

    // CLASS
    #[tactic(auto, unfolding(ops_grammar::specs::Grammar::goes, ops_grammar::specs::Grammar::step, ops_grammar::specs::Grammar::ends))]
    fn class_name<'a>(&mut self, words: &'a [Word]) -> Result<&'a [Word], Refusal>
        ensures reads { Reads ClassName (view self.old) (view self.new) words.now result }
        ensures within { IsWithin words.now result }
    {
        let (word, rest) = first_of(words)?;
        if !is_name(word.kind) {
            return refused(Fault::BadForm, word);
        }
        let Some(class) = self.class_of(word.name) else {
            return refused(Fault::UnknownClass, word);
        };
        self.class = class;
        Ok(rest)
    }

    // fixed* )
    #[tactic(auto, unfolding(ops_grammar::specs::Grammar::goes, ops_grammar::specs::Grammar::step, ops_grammar::specs::Grammar::ends))]
    fn terms<'a>(&mut self, words: &'a [Word]) -> Result<&'a [Word], Refusal>
        ensures reads { Reads (Terms InFixed) (view self.old) (view self.new) words.now result }
        ensures within { IsWithin words.now result }
    {
        let mut rest = words;
        'terms: loop {
            let (word, after) = first_of(rest)?;
            if is_right(word.kind) {
                self.end_fixed()?;
                return Ok(after);
            }
            if !is_caret(word.kind) {
                return refused(Fault::BadForm, word);
            }
            rest = self.attribute(after)?;
        }
    }

    // ATTR rconstant*
    #[tactic(auto, unfolding(ops_grammar::specs::Grammar::goes, ops_grammar::specs::Grammar::step, ops_grammar::specs::Grammar::ends))]
    fn attribute<'a>(&mut self, words: &'a [Word]) -> Result<&'a [Word], Refusal>
        ensures reads { GoesToTerms InFixed (λ more ws. goes (words.now ++ more) (Attribute InFixed ∷ ws) (view self.old)) (view self.new) result }
        ensures within { IsWithin words.now result }
    {
        let (word, rest) = first_of(words)?;
        if !is_name(word.kind) {
            return refused(Fault::BadForm, word);
        }
        let Some(field) = self.field_of(word.name) else {
            return refused(Fault::UnknownAttribute, word);
        };
        if self.is_vector(field) {
            self.constants.clear();
            return self.several_constants(field, rest);
        }
        self.value(Target::Fixed { field }, rest)
    }
}
