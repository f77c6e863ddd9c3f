//! The faults of a text, their places, and how they are written.
ghost use Rattle.std.specs.Prelude.{◌≡◌};
ghost use Rattle.ops_grammar.specs.Reads.{fault_of, cut_off};
ghost use Rattle.ops_check.specs.Answered.{stop_of, placed, fault_at};
ghost use Rattle.ops_check.specs.declared.faults.ProgramFault.TheVariants.{OutOfMemory as WantOfMemory};
ghost use Rattle.ops_check.specs.declared.faults.TextFault.TheVariants.{OutOfMemory as NoMemory};

use ops_base::endings::{Fault, fault_text};
use ops_base::memory::OutOfMemory;
use ops_forms::FormEnd;
use ops_forms::refusals::Refusal;
use ops_forms::walking::stands_at;
use ops_tokens::{BAD_BYTE, FRACTION_NUMBER, LexFault, UNCLOSED};
use thiserror::Error;

/// Why a text is not a program. Lines and columns are counted from 1.
#[derive(Clone, Copy, Debug, PartialEq, Eq, Error)]
pub enum ProgramFault {
    #[error("{line}:{column}: {}", fault_text(*fault))]
    At {
        fault: Fault,
        line: u64,
        column: u64,
    },
    #[error("out of memory")]
    OutOfMemory,
}

impl From<OutOfMemory> for ProgramFault {
    ghost from_gives = { λ _ e. e ≡ WantOfMemory };

    fn from(_error: OutOfMemory) -> ProgramFault {
        ProgramFault::OutOfMemory
    }
}

/// Why a text is not a program, with the byte at which the fault is.
#[derive(Clone, Copy, Debug, PartialEq, Eq)]
pub(crate) enum TextFault {
    At { fault: Fault, at: usize },
    OutOfMemory,
}

impl From<OutOfMemory> for TextFault {
    ghost from_gives = { λ _ e. e ≡ NoMemory };

    fn from(_error: OutOfMemory) -> TextFault {
        TextFault::OutOfMemory
    }
}

// the fault of bytes in a form that are not a token
pub(crate) fn fault_of(fault: LexFault) -> Fault
    ensures { result ≡ fault_of fault }
{
    match fault.number {
        BAD_BYTE => Fault::BadByte,
        UNCLOSED => Fault::Unclosed,
        FRACTION_NUMBER => Fault::FractionNumber,
        _ => Fault::NumberRange,
    }
}

// the fault of a form that is still open where its tokens end
fn cut_off(end: FormEnd, length: usize) -> TextFault
    ensures { result ≡ placed (cut_off length (stop_of end)) }
{
    match end {
        FormEnd::Fault(fault) => TextFault::At {
            fault: fault_of(fault),
            at: fault.at,
        },
        FormEnd::Closed | FormEnd::Text => TextFault::At {
            fault: Fault::Unclosed,
            at: length,
        },
    }
}

/// The place of a refusal in a text of this length: where its word stands, or where the tokens of its form end.
pub(crate) fn fault_at(refusal: Refusal, end: FormEnd, length: usize) -> TextFault
    ensures { result ≡ fault_at refusal end length }
{
    match refusal {
        Refusal::At {
            fault,
            word: Some(word),
        } => TextFault::At {
            fault,
            at: stands_at(fault, word),
        },
        Refusal::At { word: None, .. } => cut_off(end, length),
        Refusal::OutOfMemory => TextFault::OutOfMemory,
    }
}
