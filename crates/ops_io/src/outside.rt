//! What a program is handed: files, an input, an output, and a gate that it passes before each activation.
ghost use Rattle.std.specs.Prelude.{◌≡◌, ℕ, ◌-◌, ◌^◌, ◌<◌, ◌≤◌, List, length, IfOk};
ghost use Rattle.std.specs.Io.{ReadsAtMost};
ghost use Rattle.ops_io.specs.Outside.{CountsFailure, ReadGives, WriteGives, LoadGives, LoadCounts, LoadNames};
ghost use Rattle.ops_io.specs.declared.outside.LoadError.TheVariants as load;

use std::alloc::{AllocError, AllocFailed};
use thiserror::Error;

/// A device refused.
#[derive(Clone, Copy, Debug, PartialEq, Eq, Error)]
#[error("the device refused")]
pub struct Failed;

/// Why a file was not loaded.
#[derive(Clone, Copy, Debug, PartialEq, Eq, Error)]
pub enum LoadError {
    /// The device refused, or there is no such file.
    #[error("cannot read the file")]
    Failed,
    /// Memory ran out.
    #[error("out of memory")]
    OutOfMemory,
}

impl From<AllocError> for LoadError {
    ghost from_gives = { λ _ why. why ≡ load.OutOfMemory };

    fn from(_error: AllocError) -> Self {
        LoadError::OutOfMemory
    }
}

impl<T: Drop> From<AllocFailed<T>> for LoadError {
    ghost from_gives = { λ _ why. why ≡ load.OutOfMemory };

    fn from(_error: AllocFailed<T>) -> Self {
        LoadError::OutOfMemory
    }
}

/// Files by name.
pub trait Shelf {
    ghost use Rattle.std.specs.Prelude.{Option};

    /// What is known of the file of a name: nothing, that there is none, or its bytes.
    ghost told: { Self → List ℕ → Option (Option (List ℕ)) };

    /// How many loads have failed.
    ghost faults: { Self → ℕ };

    /// The names that loads were given, in order; their number is the number of loads.
    ghost names: { Self → List (List ℕ) };

    /// Appends the file of this name and answers true, or answers false where it has more than `room` bytes.
    /// After a refusal `into` is unchanged. A load that finds no memory may or may not count as one.
    fn load(&mut self, name: &str, room: usize, into: &mut Vec<u8>) -> Result<bool, LoadError>
        requires faults { faults self.old < 2 ^ 64 - 1 }
        requires loads { length (names self.old) < 2 ^ 64 - 1 }
        ensures bytes { LoadGives (told self.old name.now) room result into.old.items into.new.items }
        ensures told { (n : List ℕ) → told self.new n ≡ told self.old n }
        ensures cause { LoadCounts (faults self.old) (faults self.new) result }
        ensures names { LoadNames (names self.old) (names self.new) name.now result };
}

/// A stream of bytes that comes in.
pub trait Source {
    ghost use Rattle.std.specs.Prelude.{Option};

    /// The bytes that are still to come, where they are known.
    ghost left: { Self → Option (List ℕ) };

    /// How many reads have failed.
    ghost faults: { Self → ℕ };

    /// Gives the next bytes at the front of `buf`, and answers how many; 0 is the end. A read that fails gives up no
    /// byte. No clause says what stands in `buf` after a failure, since nothing is promised of what a real reader
    /// leaves there.
    fn read(&mut self, buf: &mut [u8]) -> Result<usize, Failed>
        requires room { 0 < length buf.old }
        requires faults { faults self.old < 2 ^ 64 - 1 }
        ensures bound { ReadsAtMost result buf.new }
        ensures bytes { ReadGives (left self.old) (left self.new) result buf.new }
        ensures cause { CountsFailure (faults self.old) (faults self.new) result };
}

/// A stream of bytes that goes out.
pub trait Sink {
    ghost use Rattle.std.specs.Prelude.{Option};

    /// The bytes that were taken, where they are known.
    ghost taken: { Self → Option (List ℕ) };

    /// How many writes have failed.
    ghost faults: { Self → ℕ };

    /// Takes bytes from the front of `piece`, and answers how many. A write that fails takes none.
    fn write(&mut self, piece: &[u8]) -> Result<usize, Failed>
        requires some { 0 < length piece.now }
        requires faults { faults self.old < 2 ^ 64 - 1 }
        ensures bound { IfOk result (λ n. (0 < n) × (n ≤ length piece.now)) }
        ensures bytes { WriteGives (taken self.old) (taken self.new) result piece.now }
        ensures cause { CountsFailure (faults self.old) (faults self.new) result };

    /// Whether someone reads along as it is written, as at a terminal.
    fn is_read_along(&self) -> bool;
}

/// What an engine calls before each activation. It may count, or hold a worker up, and has no other meaning.
pub trait Gate: Sync {
    /// Worker `worker` is about to do an activation of line `line`.
    fn enter(&self, worker: usize, line: usize);
}

/// A gate that is always open.
#[derive(Clone, Copy, Debug, PartialEq, Eq)]
pub struct OpenGate;

impl Gate for OpenGate {
    fn enter(&self, _worker: usize, _line: usize) {}
}

impl<G: Gate> Gate for &G {
    fn enter(&self, worker: usize, line: usize) {
        let gate: &G = self;
        gate.enter(worker, line);
    }
}
