//! Groups: negated conjunctions, i.e. conditions that no list of elements may meet together.
ghost use Rattle.std.specs.Prelude.{◌≡◌, ◌∷◌, ◌++◌, ◌&&◌, drop, nat_le};
ghost use Rattle.ops_grammar.specs.Grammar.{goes, is_right_brace, member, GroupBrace, Members};
ghost use Rattle.ops_forms.specs.PlaceWalks.{IsFrom};
ghost use Rattle.ops_lhs.specs.Taking.{ReadsAmong, ActsAmong, CutActsAmong, CutReadsAmong};

use crate::around::Around;
use crate::left::{Left, has_room};
use ops_base::endings::Fault;
use ops_forms::Refusal;
use ops_forms::kinds::{is_left, is_left_brace, is_right_brace};
use ops_forms::refusals::{conditions_passed, refused};
use ops_forms::walking::first_of;
use ops_grammar::Word;
use ops_tokens::TokenKind;

impl Left {
    // { pattern pattern pattern* }
    #[tactic(auto, unfolding(ops_grammar::specs::Grammar::goes, ops_grammar::specs::Grammar::step, ops_grammar::specs::Grammar::ends, ops_forms::specs::PlaceWalks::goes_onward))]
    pub fn group(&mut self, around: &Around, words: &[Word], at: usize) -> Result<usize, Refusal>
        ensures reads { ReadsAmong around.now GroupBrace self.old self.new words.now at result }
        ensures cut { CutReadsAmong around.now GroupBrace self.old self.new words.now at result }
        ensures within { IsFrom at result }
    {
        let (word, rest) = first_of(words, at)?;
        if !is_left_brace(word.kind) {
            return refused(Fault::BadForm, word);
        }
        self.begin_group();
        self.read_members(around, words, rest)
    }

    // pattern pattern pattern* }
    #[tactic(auto, unfolding(ops_grammar::specs::Grammar::goes, ops_grammar::specs::Grammar::step, ops_grammar::specs::Grammar::ends, ops_forms::specs::PlaceWalks::goes_onward))]
    fn read_members(&mut self, around: &Around, words: &[Word], at: usize) -> Result<usize, Refusal>
        ensures reads { ReadsAmong around.now (Members 0) self.old self.new words.now at result }
        ensures cut { CutReadsAmong around.now (Members 0) self.old self.new words.now at result }
        ensures within { IsFrom at result }
    {
        let mut count: usize = 0;
        let mut rest = at;
        'members: loop {
            let (word, after) = first_of(words, rest)?;
            if ends_group(word.kind, count) {
                self.end_group()?;
                return Ok(after);
            }
            rest = self.member_from(around, word, words, after)?;
            count = count.checked_add(1).ok_or(Refusal::OutOfMemory)?;
        }
    }

    // pattern, whose first word was already taken, if there is room for one more member
    fn member_from(
        &mut self,
        around: &Around,
        word: Word,
        words: &[Word],
        at: usize,
    ) -> Result<usize, Refusal>
        ensures acts { ActsAmong around.now (λ ws s. member word ws s) word self.old self.new words.now at result }
        ensures cut { CutActsAmong around.now (λ ws s. member word ws s) word self.old self.new words.now at result }
        ensures within { IsFrom at result }
    {
        if !is_left(word.kind) {
            return refused(Fault::BadForm, word);
        }
        if !has_room(&self.conditions, self.members.len()) {
            return conditions_passed(word);
        }
        self.class_and_terms(around, words, at)
    }
}

// whether a word ends a group that has this many members
fn ends_group(kind: TokenKind, members: usize) -> bool
    ensures { result ≡ (is_right_brace kind && nat_le 2 members) }
{
    is_right_brace(kind) && 2 <= members
}
