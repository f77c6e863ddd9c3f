//! The values of the vector attribute of a command.
ghost use Rattle.std.specs.Prelude.{◌≡◌, ◌+◌, ◌∷◌, ◌++◌, length, nat_lt};
ghost use Rattle.ops_base.specs.Valid.{most_fields};
ghost use Rattle.ops_grammar.specs.Grammar.{goes, value_for, within, ToConstants, InFixed, Several};
ghost use Rattle.ops_forms.specs.WordWalks.{GoesToTerms, Acts, IsWithin};
ghost use Rattle.ops_check.specs.Walks.{view, begins_value};

use crate::draft::{Draft, Target};
use ops_base::elements::MOST_FIELDS;
use ops_forms::kinds::{ends_values, is_hole, is_literal, value_of};
use ops_forms::refusals::{Refusal, fields_passed, first_of};
use ops_grammar::Word;

impl Draft {
    // rconstant*, up to the first word that begins none
    #[tactic(auto, unfolding(ops_grammar::specs::Grammar::goes, ops_grammar::specs::Grammar::step, ops_grammar::specs::Grammar::ends))]
    pub(crate) fn several_constants<'a>(
        &mut self,
        field: usize,
        words: &'a [Word],
    ) -> Result<&'a [Word], Refusal>
        ensures reads { GoesToTerms InFixed (λ more ws. goes (words.now ++ more) (Several InFixed field ∷ ws) (view self.old)) (view self.new) result }
        ensures within { IsWithin words.now result }
    {
        let mut rest = words;
        'constants: loop {
            let (word, after) = first_of(rest)?;
            if ends_values(word.kind) {
                self.end_constants(field)?;
                return Ok(rest);
            }
            rest = self.next_constant_from(field, word, after)?;
        }
    }

    // a constant whose first word was already taken, if an element has room for one more
    fn next_constant_from<'a>(
        &mut self,
        field: usize,
        word: Word,
        rest: &'a [Word],
    ) -> Result<&'a [Word], Refusal>
        ensures acts { Acts (λ ws s. within (nat_lt (field + length s.constants) most_fields) (value_for ToConstants word ws s)) word (view self.old) (view self.new) rest.now result }
        ensures within { IsWithin rest.now result }
    {
        let room = MOST_FIELDS.saturating_sub(field);
        if begins_value(word) && self.constants.len() >= room {
            return fields_passed(word);
        }
        self.value_from(Target::Constants, word, rest)
    }
}

// whether a constant that is no hole begins at a word
fn begins_value(word: Word) -> bool
    ensures { result ≡ begins_value word }
{
    is_literal(word.keyword) || (value_of(word.kind, word.name).is_some() && !is_hole(word.keyword))
}
