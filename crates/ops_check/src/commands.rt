//! The commands that consist of one word, and those with one argument.
ghost use Rattle.ops_grammar.specs.Grammar.{Count, StrategyName, Level, Undone, Closes, EndsCs, EndsExit};
ghost use Rattle.ops_forms.specs.WordWalks.{Reads, IsWithin};
ghost use Rattle.ops_check.specs.Walks.{view};

use crate::draft::Draft;
use ops_base::commands::Command;
use ops_base::endings::Fault;
use ops_forms::kinds::{count_of, is_right, level_of, strategy_of, undone_of};
use ops_forms::refusals::{Refusal, closing, first_of, refused};
use ops_grammar::Word;

impl Draft {
    // [NAT] )
    #[tactic(auto, unfolding(ops_grammar::specs::Grammar::goes, ops_grammar::specs::Grammar::step, ops_grammar::specs::Grammar::ends))]
    pub(crate) fn run<'a>(&mut self, words: &'a [Word]) -> Result<&'a [Word], Refusal>
        ensures reads { Reads Count (view self.old) (view self.new) words.now result }
        ensures within { IsWithin words.now result }
    {
        let (word, rest) = first_of(words)?;
        if is_right(word.kind) {
            self.add_command(Command::Run { count: None })?;
            return Ok(rest);
        }
        let Some(count) = count_of(word.kind) else {
            return refused(Fault::BadForm, word);
        };
        let count = Some(count);
        self.add_command(Command::Run { count })?;
        closing(rest)
    }

    // ) | lex ) | mea )
    #[tactic(auto, unfolding(ops_grammar::specs::Grammar::goes, ops_grammar::specs::Grammar::step, ops_grammar::specs::Grammar::ends))]
    pub(crate) fn strategy<'a>(&mut self, words: &'a [Word]) -> Result<&'a [Word], Refusal>
        ensures reads { Reads StrategyName (view self.old) (view self.new) words.now result }
        ensures within { IsWithin words.now result }
    {
        let (word, rest) = first_of(words)?;
        if is_right(word.kind) {
            self.add_command(Command::Strategy { set: None })?;
            return Ok(rest);
        }
        let Some(strategy) = strategy_of(word.keyword) else {
            return refused(Fault::BadForm, word);
        };
        let set = Some(strategy);
        self.add_command(Command::Strategy { set })?;
        closing(rest)
    }

    // ) | 0 ) | 1 ) | 2 )
    #[tactic(auto, unfolding(ops_grammar::specs::Grammar::goes, ops_grammar::specs::Grammar::step, ops_grammar::specs::Grammar::ends))]
    pub(crate) fn watch<'a>(&mut self, words: &'a [Word]) -> Result<&'a [Word], Refusal>
        ensures reads { Reads Level (view self.old) (view self.new) words.now result }
        ensures within { IsWithin words.now result }
    {
        let (word, rest) = first_of(words)?;
        if is_right(word.kind) {
            self.add_command(Command::Watch { set: None })?;
            return Ok(rest);
        }
        let Some(level) = level_of(word.kind) else {
            return refused(Fault::BadForm, word);
        };
        let set = Some(level);
        self.add_command(Command::Watch { set })?;
        closing(rest)
    }

    // UNDONE ) | )
    #[tactic(auto, unfolding(ops_grammar::specs::Grammar::goes, ops_grammar::specs::Grammar::step, ops_grammar::specs::Grammar::ends))]
    pub(crate) fn back<'a>(&mut self, words: &'a [Word]) -> Result<&'a [Word], Refusal>
        ensures reads { Reads Undone (view self.old) (view self.new) words.now result }
        ensures within { IsWithin words.now result }
    {
        let (word, rest) = first_of(words)?;
        if is_right(word.kind) {
            self.add_command(Command::Back { count: 1 })?;
            return Ok(rest);
        }
        let Some(count) = undone_of(word.kind) else {
            return refused(Fault::BadForm, word);
        };
        self.add_command(Command::Back { count })?;
        closing(rest)
    }
}

impl Draft {
    // )
    pub(crate) fn cs<'a>(&mut self, words: &'a [Word]) -> Result<&'a [Word], Refusal>
        ensures reads { Reads (Closes EndsCs) (view self.old) (view self.new) words.now result }
        ensures within { IsWithin words.now result }
    {
        let rest = closing(words)?;
        self.add_command(Command::Cs)?;
        Ok(rest)
    }

    // )
    pub(crate) fn exit<'a>(&mut self, words: &'a [Word]) -> Result<&'a [Word], Refusal>
        ensures reads { Reads (Closes EndsExit) (view self.old) (view self.new) words.now result }
        ensures within { IsWithin words.now result }
    {
        let rest = closing(words)?;
        self.add_command(Command::Exit)?;
        Ok(rest)
    }
}
