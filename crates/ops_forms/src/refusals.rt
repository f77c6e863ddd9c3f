//! Why words are refused.
ghost use Rattle.std.specs.Prelude.{◌≡◌, ◌∷◌, Err, IfOk, Some, true};
ghost use Rattle.ops_grammar.specs.Grammar.{is_right};
ghost use Rattle.ops_grammar.specs.declared.words.Word.{Word};
ghost use Rattle.ops_forms.specs.WordWalks.{Takes, ReadsClosing, IsWithin};
ghost use Rattle.ops_forms.specs.declared.refusals.Refusal.TheVariants.{OutOfMemory as WantOfMemory};
ghost use Rattle.ops_forms.specs.declared.refusals.ReadFault.TheVariants.{OutOfMemory as NoMemory};

use crate::kinds::is_right;
use ops_base::endings::{Fault, Limit};
use ops_base::memory::OutOfMemory;
use ops_grammar::Word;
use std::alloc::{AllocError, AllocFailed};
use thiserror::Error;

/// The fault of the grammar, and the word at which it was found where another was expected, or `None` if the words end
/// there.
#[derive(Clone, Copy, Debug, PartialEq, Eq, Error)]
pub enum Refusal {
    #[error("{fault:?}")]
    At { fault: Fault, word: Option<Word> },
    #[error("out of memory")]
    OutOfMemory,
}

impl From<OutOfMemory> for Refusal {
    ghost from_gives = { λ _ e. e ≡ WantOfMemory };

    fn from(_error: OutOfMemory) -> Refusal {
        Refusal::OutOfMemory
    }
}

impl From<AllocError> for Refusal {
    ghost from_gives = { λ _ e. e ≡ WantOfMemory };

    fn from(_error: AllocError) -> Refusal {
        Refusal::OutOfMemory
    }
}

impl<T: Drop> From<AllocFailed<T>> for Refusal {
    ghost from_gives = { λ _ e. e ≡ WantOfMemory };

    fn from(_error: AllocFailed<T>) -> Refusal {
        Refusal::OutOfMemory
    }
}

/// Why a side of a production is refused: the fault, and the byte at which it is.
#[derive(Clone, Copy, Debug, PartialEq, Eq, Error)]
pub enum ReadFault {
    #[error("byte {at}: {fault:?}")]
    At { fault: Fault, at: usize },
    #[error("out of memory")]
    OutOfMemory,
}

impl From<OutOfMemory> for ReadFault {
    ghost from_gives = { λ _ e. e ≡ NoMemory };

    fn from(_error: OutOfMemory) -> ReadFault {
        ReadFault::OutOfMemory
    }
}

pub fn refused<T>(fault: Fault, word: Word) -> Result<T, Refusal>
    ensures { result ≡ Err (Refusal.At fault (Some word)) }
{
    Err(Refusal::At {
        fault,
        word: Some(word),
    })
}

/// Refuses a word that would use the 128th field of an element, if its class is counted as a field.
pub fn fields_passed<T>(word: Word) -> Result<T, Refusal>
    ensures { result ≡ Err (Refusal.At (Fault.LimitPassed Limit.Fields) (Some word)) }
{
    refused(
        Fault::LimitPassed {
            limit: Limit::Fields,
        },
        word,
    )
}

/// Refuses a word that would begin one condition more than a production may have.
pub fn conditions_passed<T>(word: Word) -> Result<T, Refusal>
    ensures { result ≡ Err (Refusal.At (Fault.LimitPassed Limit.Conditions) (Some word)) }
{
    refused(
        Fault::LimitPassed {
            limit: Limit::Conditions,
        },
        word,
    )
}

// the first word and those after it
pub fn first_of(words: &[Word]) -> Result<(Word, &[Word]), Refusal>
    ensures { Takes words.now result }
{
    match words {
        [] => Err(Refusal::At {
            fault: Fault::Unclosed,
            word: None,
        }),
        [word, rest @ ..] => Ok((*word, rest)),
    }
}

// a closing bracket and the words after it
#[tactic(auto, unfolding(ops_grammar::specs::Grammar::goes, ops_grammar::specs::Grammar::step, ops_grammar::specs::Grammar::ends))]
pub fn closing(words: &[Word]) -> Result<&[Word], Refusal>
    ensures reads { ReadsClosing words.now result }
    ensures within { IsWithin words.now result }
    ensures rest { IfOk result (λ rest. (w : Word) × (words.now ≡ w ∷ rest.now) × (is_right w.kind ≡ true)) }
{
    let (word, rest) = first_of(words)?;
    if !is_right(word.kind) {
        return refused(Fault::BadForm, word);
    }
    Ok(rest)
}
