//! The results of a right side.
ghost use Rattle.std.specs.Prelude.{◌≡◌};
ghost use Rattle.ops_meaning.specs.Acting.{in_action};
ghost use Rattle.ops_meaning.specs.Effects.{failure_as};
ghost use Rattle.act_phase.specs.declared.outcome.ActFault.TheVariants as fault;
ghost use Rattle.act_phase.specs.declared.outcome.ActionError.TheVariants as mishap;

use ops_base::elements::Change;
use ops_base::endings::ActKind;
use ops_base::list::Listed;
use ops_base::memory::OutOfMemory;
use ops_base::rules::Rule;
use ops_io::WriteFailed;
use thiserror::Error;

/// What a right side did: the changes to working memory in order, whether it did `halt`, the next tag, and the
/// productions that it built, in the order of its `build` actions.
#[derive(Drop)]
pub struct Acted {
    pub changes: Listed<Change>,
    pub halted: bool,
    pub next_tag: u64,
    pub built: Listed<Rule>,
}

/// Why a right side was not completed.
#[derive(Clone, Copy, Debug, PartialEq, Eq, Error)]
pub enum ActFault {
    /// The action with this number, counted from 1, can't be done.
    #[error("action {action} can't be done: {kind:?}")]
    Bad { action: usize, kind: ActKind },
    /// The source failed.
    #[error("cannot read the input")]
    Read,
    /// The sink refused a write.
    #[error("cannot write the output")]
    Write,
    /// Memory ran out.
    #[error("out of memory")]
    OutOfMemory,
}

/// Why an action was not completed.
#[derive(Clone, Copy, Debug, PartialEq, Eq)]
pub(crate) enum ActionError {
    /// It can't be done.
    Fault(ActKind),
    /// The source failed.
    Read,
    /// The sink refused a write.
    Write,
    /// Memory ran out.
    OutOfMemory,
}

impl From<OutOfMemory> for ActFault {
    ghost from_gives = { λ _ why. why ≡ fault.OutOfMemory };

    fn from(_error: OutOfMemory) -> Self {
        ActFault::OutOfMemory
    }
}

impl From<WriteFailed> for ActFault {
    ghost from_gives = { λ _ why. why ≡ fault.Write };

    fn from(_error: WriteFailed) -> Self {
        ActFault::Write
    }
}

impl From<OutOfMemory> for ActionError {
    ghost from_gives = { λ _ why. why ≡ mishap.OutOfMemory };

    fn from(_error: OutOfMemory) -> Self {
        ActionError::OutOfMemory
    }
}

impl From<WriteFailed> for ActionError {
    ghost from_gives = { λ _ why. why ≡ mishap.Write };

    fn from(_error: WriteFailed) -> Self {
        ActionError::Write
    }
}

impl ActionError {
    ghost use Rattle.act_phase.specs.Outcomes.{failure_of, mishap_of, is_read, is_read_mishap};

    /// The same fault, as one of the action with this number.
    pub(crate) fn in_action(self, number: usize) -> ActFault
        ensures failure { failure_of result ≡ failure_as (in_action number) (mishap_of self) }
        ensures read { is_read result ≡ is_read_mishap self }
    {
        match self {
            ActionError::Fault(kind) => ActFault::Bad {
                action: number,
                kind,
            },
            ActionError::Read => ActFault::Read,
            ActionError::Write => ActFault::Write,
            ActionError::OutOfMemory => ActFault::OutOfMemory,
        }
    }
}
