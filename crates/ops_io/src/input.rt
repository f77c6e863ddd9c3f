//! The input buffer, which shows the next byte of a source and reads by the piece.
ghost use Rattle.std.specs.Prelude.{◌≡◌, ◌^◌, ◌<◌, ◌≤◌, ◌⊎◌, [], drop, length, IfOk, IfNone, OnErr, IsTrue, false};
ghost use Rattle.ops_io.specs.Outside.{CountsFailure};
ghost use Rattle.ops_io.specs.Input.{IsFirst, StaysAhead};

use crate::outside::{Failed, Source};
use ops_base::memory::OutOfMemory;
use std::alloc::Global;
use std::marker::Model;

/// How many bytes are read at once at most.
const READ_SIZE: usize = 4096;

/// Bytes that were read and not yet taken. They stand in `buffer` from `at` up to `end`.
#[derive(Drop)]
pub struct Input {
    buffer: Vec<u8>,
    at: usize,
    end: usize,
    ended: bool,
}

impl Model for Input {
    ghost use Rattle.std.specs.Prelude.{◌≡◌, ◌≤◌, drop, take, vec_len};
    ghost use Rattle.ops_io.specs.Input.{InputState};
    ghost use Rattle.ops_io.specs.declared.input.TheConstants.{READ_SIZE};

    ghost Value = { InputState };

    ghost view = { λ i. record { held = drop i.at (take i.end i.buffer.items); ended = i.ended } };

    ghost invariant = { λ i. (i.at ≤ i.end) × (i.end ≤ vec_len i.buffer) × (vec_len i.buffer ≡ READ_SIZE) };
}

impl Input {
    /// An empty buffer, with all the memory that it will need.
    pub fn new(alloc: Global) -> Result<Input, OutOfMemory>
        ensures { IfOk result (λ input. input ≡ record { held = []; ended = false }) }
    {
        let buffer = vec![in alloc; 0; READ_SIZE]?;
        Ok(Input {
            buffer,
            at: 0,
            end: 0,
            ended: false,
        })
    }

    /// Shows the next byte without taking it; None is the end of the input. It reads only where no byte is held and the
    /// end was not seen, a piece at a time. Takes no memory.
    pub fn next<I: Source>(&mut self, source: &mut I) -> Result<Option<u8>, Failed>
        requires { I.faults source.old < 2 ^ 63 }
        ensures shown { IfOk result (λ byte. IsFirst byte self.new.held) }
        ensures end { IfOk result (λ byte. IfNone byte (IsTrue self.new.ended)) }
        ensures ahead { StaysAhead self.old self.new (I.left source.old) (I.left source.new) }
        ensures cause { CountsFailure (I.faults source.old) (I.faults source.new) result }
        ensures size { length self.new.held ≤ READ_SIZE }

        // Where a byte is held or the end was seen, nothing is read.
        ensures unread { (0 < length self.old.held) ⊎ IsTrue self.old.ended
            → (self.new ≡ self.old) × (source.new ≡ source.old) }

        // After a refusal it holds no byte, as before.
        ensures refused { OnErr result (self.new ≡ self.old) }
        ensures empty { OnErr result (self.old.held ≡ []) }
    {
        if self.at < self.end {
            return Ok(Some(self.buffer[self.at]));
        }
        if self.ended {
            return Ok(None);
        }
        let count = source.read(self.buffer.as_mut_slice())?;
        self.at = 0;
        self.end = count;
        if count == 0 {
            self.ended = true;
            return Ok(None);
        }
        Ok(Some(self.buffer[0]))
    }

    /// Takes the byte that `next` showed. It moves no bytes.
    pub fn take(&mut self)
        requires { 0 < length self.old.held }
        ensures { self.new ≡ record self.old { held = drop 1 self.old.held } }
    {
        self.at += 1;
    }
}
