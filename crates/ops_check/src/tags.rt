//! The commands that name elements by their tags.
ghost use Rattle.std.specs.Prelude.{◌≡◌, []};
ghost use Rattle.ops_grammar.specs.Grammar.{TagOrAll, Tags, ToShow, tag_command, with_tags};
ghost use Rattle.ops_forms.specs.WordWalks.{Reads, Becomes, IsWithin};
ghost use Rattle.ops_check.specs.Walks.{view, tag_use_of};

use crate::draft::{Draft, TagUse};
use ops_base::commands::Command;
use ops_base::endings::Fault;
use ops_base::list::Listed;
use ops_forms::kinds::{count_of, is_all, is_right};
use ops_forms::refusals::{Refusal, closing, first_of, refused};
use ops_grammar::Word;
use std::mem;

impl Draft {
    // NAT NAT* ) | * )
    #[tactic(auto, unfolding(ops_grammar::specs::Grammar::goes, ops_grammar::specs::Grammar::step, ops_grammar::specs::Grammar::ends))]
    pub(crate) fn remove<'a>(&mut self, words: &'a [Word]) -> Result<&'a [Word], Refusal>
        ensures reads { Reads TagOrAll (record (view self.old) { tags = [] }) (view self.new) words.now result }
        ensures within { IsWithin words.now result }
    {
        self.tags.clear();
        let (word, rest) = first_of(words)?;
        if is_all(word.keyword) {
            self.add_command(Command::RemoveAll)?;
            return closing(rest);
        }
        let Some(tag) = count_of(word.kind) else {
            return refused(Fault::BadForm, word);
        };
        self.tags.push(tag)?;
        self.read_tags(TagUse::Remove, rest)
    }

    // NAT* )
    pub(crate) fn wm<'a>(&mut self, words: &'a [Word]) -> Result<&'a [Word], Refusal>
        ensures reads { Reads (Tags ToShow) (record (view self.old) { tags = [] }) (view self.new) words.now result }
        ensures within { IsWithin words.now result }
    {
        self.tags.clear();
        self.read_tags(TagUse::Show, words)
    }

    // NAT* )
    #[tactic(auto, unfolding(ops_grammar::specs::Grammar::goes, ops_grammar::specs::Grammar::step, ops_grammar::specs::Grammar::ends))]
    fn read_tags<'a>(&mut self, tag_use: TagUse, words: &'a [Word]) -> Result<&'a [Word], Refusal>
        ensures reads { Reads (Tags (tag_use_of tag_use)) (view self.old) (view self.new) words.now result }
        ensures within { IsWithin words.now result }
    {
        let mut rest = words;
        'tags: loop {
            let (word, after) = first_of(rest)?;
            if is_right(word.kind) {
                self.end_tags(tag_use)?;
                return Ok(after);
            }
            let Some(tag) = count_of(word.kind) else {
                return refused(Fault::BadForm, word);
            };
            self.tags.push(tag)?;
            rest = after;
        }
    }

    // a command of tags is complete
    fn end_tags(&mut self, tag_use: TagUse) -> Result<(), Refusal>
        ensures { Becomes (view self.new) (with_tags (tag_use_of tag_use) (view self.old)) result }
    {
        let none = Vec::new(self.alloc);
        let tags = Listed::from_vec(mem::replace(&mut self.tags, none));
        self.add_command(tag_command(tag_use, tags))
    }
}

fn tag_command(tag_use: TagUse, tags: Listed<u64>) -> Command
    ensures { result ≡ tag_command (tag_use_of tag_use) tags }
{
    match tag_use {
        TagUse::Remove => Command::Remove { tags },
        TagUse::Show => Command::Wm { tags },
    }
}
