//! The commands that name productions, whether these exist or not.
ghost use Rattle.std.specs.Prelude.{◌≡◌, [], ◌∷◌, ◌++◌};
ghost use Rattle.ops_grammar.specs.Grammar.{goes, NamedRule, NamedRules, ToPrint, ToBreak, ToExcise, ToMatch, name_command, with_named};
ghost use Rattle.ops_forms.specs.WordWalks.{Goes, Reads, Becomes, IsWithin};
ghost use Rattle.ops_check.specs.Walks.{view, name_use_of};

use crate::draft::{Draft, NameUse};
use ops_base::commands::Command;
use ops_base::endings::Fault;
use ops_base::list::Listed;
use ops_base::values::Sym;
use ops_forms::kinds::{is_name, is_right};
use ops_forms::refusals::{Refusal, first_of, refused};
use ops_grammar::Word;
use std::mem;

impl Draft {
    // NAME NAME* )
    pub(crate) fn pm<'a>(&mut self, words: &'a [Word]) -> Result<&'a [Word], Refusal>
        ensures reads { Goes (λ more ws. goes (words.now ++ more) (NamedRule ∷ NamedRules ToPrint ∷ ws) (record (view self.old) { named = [] })) (view self.new) result }
        ensures within { IsWithin words.now result }
    {
        self.some_names(NameUse::Print, words)
    }

    // NAME NAME* )
    pub(crate) fn excise<'a>(&mut self, words: &'a [Word]) -> Result<&'a [Word], Refusal>
        ensures reads { Goes (λ more ws. goes (words.now ++ more) (NamedRule ∷ NamedRules ToExcise ∷ ws) (record (view self.old) { named = [] })) (view self.new) result }
        ensures within { IsWithin words.now result }
    {
        self.some_names(NameUse::Excise, words)
    }

    // NAME NAME* )
    pub(crate) fn matches<'a>(&mut self, words: &'a [Word]) -> Result<&'a [Word], Refusal>
        ensures reads { Goes (λ more ws. goes (words.now ++ more) (NamedRule ∷ NamedRules ToMatch ∷ ws) (record (view self.old) { named = [] })) (view self.new) result }
        ensures within { IsWithin words.now result }
    {
        self.some_names(NameUse::Match, words)
    }

    // NAME NAME* )
    #[tactic(auto, unfolding(ops_grammar::specs::Grammar::goes, ops_grammar::specs::Grammar::step, ops_grammar::specs::Grammar::ends))]
    fn some_names<'a>(
        &mut self,
        name_use: NameUse,
        words: &'a [Word],
    ) -> Result<&'a [Word], Refusal>
        ensures reads { Goes (λ more ws. goes (words.now ++ more) (NamedRule ∷ NamedRules (name_use_of name_use) ∷ ws) (record (view self.old) { named = [] })) (view self.new) result }
        ensures within { IsWithin words.now result }
    {
        self.named.clear();
        let (word, rest) = first_of(words)?;
        if !is_name(word.kind) {
            return refused(Fault::BadForm, word);
        }
        self.named.push(word.name)?;
        self.names(name_use, rest)
    }

    // NAME* )
    pub(crate) fn pbreak<'a>(&mut self, words: &'a [Word]) -> Result<&'a [Word], Refusal>
        ensures reads { Reads (NamedRules ToBreak) (record (view self.old) { named = [] }) (view self.new) words.now result }
        ensures within { IsWithin words.now result }
    {
        self.named.clear();
        self.names(NameUse::Break, words)
    }

    // NAME* )
    #[tactic(auto, unfolding(ops_grammar::specs::Grammar::goes, ops_grammar::specs::Grammar::step, ops_grammar::specs::Grammar::ends))]
    fn names<'a>(&mut self, name_use: NameUse, words: &'a [Word]) -> Result<&'a [Word], Refusal>
        ensures reads { Reads (NamedRules (name_use_of name_use)) (view self.old) (view self.new) words.now result }
        ensures within { IsWithin words.now result }
    {
        let mut rest = words;
        'names: loop {
            let (word, after) = first_of(rest)?;
            if is_right(word.kind) {
                self.end_names(name_use)?;
                return Ok(after);
            }
            if !is_name(word.kind) {
                return refused(Fault::BadForm, word);
            }
            self.named.push(word.name)?;
            rest = after;
        }
    }

    // a command of names is complete
    fn end_names(&mut self, name_use: NameUse) -> Result<(), Refusal>
        ensures { Becomes (view self.new) (with_named (name_use_of name_use) (view self.old)) result }
    {
        let none = Vec::new(self.alloc);
        let names = Listed::from_vec(mem::replace(&mut self.named, none));
        self.add_command(name_command(name_use, names))
    }
}

fn name_command(name_use: NameUse, names: Listed<Sym>) -> Command
    ensures { result ≡ name_command (name_use_of name_use) names }
{
    match name_use {
        NameUse::Print => Command::Pm { names },
        NameUse::Break => Command::Pbreak { names },
        NameUse::Excise => Command::Excise { names },
        NameUse::Match => Command::Matches { names },
    }
}
