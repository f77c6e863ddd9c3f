//! Why a call that puts bytes gave up, and how a session ends then.
ghost use Rattle.std.specs.Prelude.{◌≡◌};
ghost use Rattle.ops_base.specs.declared.endings.Ending.TheVariants as ending;
ghost use Rattle.ops_io.specs.declared.stop.Stop.TheVariants as stop;

use crate::out::WriteFailed;
use ops_base::endings::Ending;
use ops_base::memory::OutOfMemory;
use thiserror::Error;

/// Why a call that puts bytes, and may also take memory, gave up.
#[derive(Clone, Copy, Debug, PartialEq, Eq, Error)]
pub enum Stop {
    /// The sink refused a write.
    #[error("cannot write the output")]
    Write,
    /// Memory ran out.
    #[error("out of memory")]
    OutOfMemory,
}

impl From<WriteFailed> for Stop {
    ghost from_gives = { λ _ why. why ≡ stop.Write };

    fn from(_error: WriteFailed) -> Self {
        Stop::Write
    }
}

impl From<OutOfMemory> for Stop {
    ghost from_gives = { λ _ why. why ≡ stop.OutOfMemory };

    fn from(_error: OutOfMemory) -> Self {
        Stop::OutOfMemory
    }
}

impl From<WriteFailed> for Ending {
    ghost from_gives = { λ _ why. why ≡ ending.WriteFault };

    fn from(_error: WriteFailed) -> Self {
        Ending::WriteFault
    }
}
