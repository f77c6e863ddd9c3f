//! Declarations of classes.
ghost use Rattle.std.specs.Prelude.{◌∷◌, ◌++◌};
ghost use Rattle.ops_grammar.specs.Grammar.{goes, vector_name, VectorName, VectorNames, ClassDeclared, Attributes};
ghost use Rattle.ops_forms.specs.WordWalks.{Goes, Reads, Acts, IsWithin};
ghost use Rattle.ops_check.specs.Walks.{view};

use crate::draft::Draft;
use ops_base::elements::MOST_FIELDS;
use ops_base::endings::Fault;
use ops_forms::kinds::{is_name, is_right};
use ops_forms::refusals::{Refusal, fields_passed, first_of, refused};
use ops_grammar::Word;

impl Draft {
    // NAME NAME* )
    pub(crate) fn declaration<'a>(&mut self, words: &'a [Word]) -> Result<&'a [Word], Refusal>
        ensures reads { Goes (λ more ws. goes (words.now ++ more) (ClassDeclared ∷ Attributes ∷ ws) (view self.old)) (view self.new) result }
        ensures within { IsWithin words.now result }
    {
        let rest = self.class_declared(words)?;
        self.attributes(rest)
    }

    #[tactic(auto, unfolding(ops_grammar::specs::Grammar::goes, ops_grammar::specs::Grammar::step, ops_grammar::specs::Grammar::ends))]
    fn class_declared<'a>(&mut self, words: &'a [Word]) -> Result<&'a [Word], Refusal>
        ensures reads { Reads ClassDeclared (view self.old) (view self.new) words.now result }
        ensures within { IsWithin words.now result }
    {
        let (word, rest) = first_of(words)?;
        if !is_name(word.kind) {
            return refused(Fault::BadForm, word);
        }
        if self.is_class(word.name) {
            return refused(Fault::DeclaredTwice, word);
        }
        self.name = word.name;
        self.attrs.clear();
        Ok(rest)
    }

    // NAME* )
    #[tactic(auto, unfolding(ops_grammar::specs::Grammar::goes, ops_grammar::specs::Grammar::step, ops_grammar::specs::Grammar::ends))]
    fn attributes<'a>(&mut self, words: &'a [Word]) -> Result<&'a [Word], Refusal>
        ensures reads { Reads Attributes (view self.old) (view self.new) words.now result }
        ensures within { IsWithin words.now result }
    {
        let mut rest = words;
        'attributes: loop {
            let (word, after) = first_of(rest)?;
            if is_right(word.kind) {
                self.end_class()?;
                return Ok(after);
            }
            if !is_name(word.kind) {
                return refused(Fault::BadForm, word);
            }
            if self.is_attribute(word.name) {
                return refused(Fault::DeclaredTwice, word);
            }
            if self.is_second(word.name) {
                return refused(Fault::TwoVectors, word);
            }
            if self.attrs.len() >= MOST_FIELDS {
                return fields_passed(word);
            }
            self.attrs.push(word.name)?;
            rest = after;
        }
    }
}

impl Draft {
    // NAME NAME* )
    #[tactic(auto, unfolding(ops_grammar::specs::Grammar::goes, ops_grammar::specs::Grammar::step, ops_grammar::specs::Grammar::ends))]
    pub(crate) fn vector_declaration<'a>(
        &mut self,
        words: &'a [Word],
    ) -> Result<&'a [Word], Refusal>
        ensures reads { Goes (λ more ws. goes (words.now ++ more) (VectorName ∷ VectorNames ∷ ws) (view self.old)) (view self.new) result }
        ensures within { IsWithin words.now result }
    {
        let (word, rest) = first_of(words)?;
        let rest = self.vector_name(word, rest)?;
        self.vector_names(rest)
    }

    // NAME* )
    #[tactic(auto, unfolding(ops_grammar::specs::Grammar::goes, ops_grammar::specs::Grammar::step, ops_grammar::specs::Grammar::ends))]
    fn vector_names<'a>(&mut self, words: &'a [Word]) -> Result<&'a [Word], Refusal>
        ensures reads { Reads VectorNames (view self.old) (view self.new) words.now result }
        ensures within { IsWithin words.now result }
    {
        let mut rest = words;
        'vectors: loop {
            let (word, after) = first_of(rest)?;
            if is_right(word.kind) {
                return Ok(after);
            }
            rest = self.vector_name(word, after)?;
        }
    }

    // NAME, which is the word
    fn vector_name<'a>(&mut self, word: Word, rest: &'a [Word]) -> Result<&'a [Word], Refusal>
        ensures acts { Acts (λ ws s. vector_name word ws s) word (view self.old) (view self.new) rest.now result }
        ensures within { IsWithin rest.now result }
    {
        if !is_name(word.kind) {
            return refused(Fault::BadForm, word);
        }
        if self.is_vector_name(word.name) {
            return Ok(rest);
        }
        if self.makes_second(word.name) {
            return refused(Fault::TwoVectors, word);
        }
        self.add_vector(word.name)?;
        Ok(rest)
    }
}
