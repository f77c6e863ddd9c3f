//! Steps of a walk over words, by place.
ghost use Rattle.std.specs.Prelude.{◌≡◌, ◌+◌, IfOk, Some, slice_get, true};
ghost use Rattle.ops_grammar.specs.Grammar.{is_right};
ghost use Rattle.ops_grammar.specs.Reads.{stands_at};
ghost use Rattle.ops_grammar.specs.declared.words.Word.{Word};
ghost use Rattle.ops_forms.specs.Forms.{past_last};
ghost use Rattle.ops_forms.specs.PlaceWalks.{Takes, ReadsClosing, CutReadsClosing, IsFrom, fault_of};

use crate::kinds::is_right;
use crate::refusals::{ReadFault, Refusal, refused};
use ops_base::endings::Fault;
use ops_grammar::{Keyword, Word};
use ops_tokens::Token;

/// The word at a place, and the place after it.
pub fn first_of(words: &[Word], at: usize) -> Result<(Word, usize), Refusal>
    ensures { Takes words.now at result }
{
    match words.get(at) {
        Some(word) => Ok((*word, at + 1)),
        None => Err(Refusal::At {
            fault: Fault::Unclosed,
            word: None,
        }),
    }
}

/// A closing bracket at a place, and the place after it.
#[tactic(auto, unfolding(ops_grammar::specs::Grammar::goes, ops_grammar::specs::Grammar::step, ops_grammar::specs::Grammar::ends, crate::specs::PlaceWalks::goes_onward))]
pub fn closing(words: &[Word], at: usize) -> Result<usize, Refusal>
    ensures reads { ReadsClosing words.now at result }
    ensures cut { CutReadsClosing words.now at result }
    ensures within { IsFrom at result }
    ensures rest { IfOk result (λ next. (next ≡ at + 1) × (w : Word) × (slice_get words.now at ≡ Some w) × (is_right w.kind ≡ true)) }
{
    let (word, rest) = first_of(words, at)?;
    if !is_right(word.kind) {
        return refused(Fault::BadForm, word);
    }
    Ok(rest)
}

/// The byte at which a word is refused: its first, or that of its variable if it is a hole for one that is not bound.
pub fn stands_at(fault: Fault, word: Word) -> usize
    ensures { result ≡ stands_at fault word }
{
    match (fault, word.keyword) {
        (Fault::UnboundVariable, Keyword::Hole { variable: _, at }) => at,
        _ => word.first,
    }
}

/// A refusal is placed at the byte at which its word is refused, and one without a word at the byte past the last token.
pub fn fault_of(refusal: Refusal, tokens: &[Token]) -> ReadFault
    ensures { result ≡ fault_of refusal (past_last 0 tokens.now) }
{
    match refusal {
        Refusal::At {
            fault,
            word: Some(word),
        } => ReadFault::At {
            fault,
            at: stands_at(fault, word),
        },
        Refusal::At { fault, word: None } => ReadFault::At {
            fault,
            at: past_of(tokens),
        },
        Refusal::OutOfMemory => ReadFault::OutOfMemory,
    }
}

// The byte past the last token. The definition is total: in fact a form always has a token, its opening bracket.
fn past_of(tokens: &[Token]) -> usize
    ensures { result ≡ past_last 0 tokens.now }
{
    match tokens.last() {
        Some(token) => token.past,
        None => 0,
    }
}
