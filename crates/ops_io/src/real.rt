//! The real files, standard input and standard output as the outside. As shelf, source and sink they tell no bytes;
//! their own clauses say what becomes of the bytes that a reader has left and that a writer holds, where the standard
//! library knows these.
ghost use Rattle.std.specs.Prelude.{◌≡◌, ◌-◌, ◌<◌, ◌≤◌, ◌^◌, [], length, option_map, None, Some, IfOk, IfSome, IsErr, IsErrOf, OnErr};
ghost use Rattle.std.specs.Io.{ReadsAtMost};
ghost use Rattle.std.specs.Io.KnownBytes.{ReadConsumes, WriteAppends};
ghost use Rattle.ops_io.specs.Outside.{CountsFailure, LoadGives, ReadGives, WriteGives, IsWhole};

use crate::outside::{Failed, LoadError, Shelf, Sink, Source};
use std::alloc::Global;
use std::io::{Read, Write};
use std::marker::Model;
use std::rt::Files;
use std::{fs, io};

/// An input that is read from a real one, such as standard input.
#[derive(Drop)]
pub struct StdSource<R: Read> {
    inner: R,
    faults: u64,
}

impl<R: Read> Model for StdSource<R> {
    ghost use Rattle.ops_io.specs.Outside.{DeviceState};

    ghost Value = { DeviceState };

    ghost view = { λ s. record { known = R.remaining s.inner; faults = s.faults } };
}

impl<R: Read> StdSource<R> {
    /// Reads from this reader.
    pub fn new(inner: R) -> StdSource<R>
        ensures { result ≡ record { known = R.remaining inner; faults = 0 } }
    {
        StdSource { inner, faults: 0 }
    }
}

impl<R: Read> Source for StdSource<R> {
    ghost use Rattle.std.specs.Prelude.{None};

    ghost left = { λ s. None };

    ghost faults = { λ s. s.faults };

    /// Each error of the reader is a failure, also an interruption. What it gives comes off the front of the bytes that
    /// the reader has left, and it answers an end only where none are left.
    fn read(&mut self, buf: &mut [u8]) -> Result<usize, Failed>
        requires room { 0 < length buf.old }
        requires faults { self.old.faults < 2 ^ 64 - 1 }
        ensures bound { ReadsAtMost result buf.new }
        ensures bytes { ReadGives None None result buf.new }
        ensures cause { CountsFailure self.old.faults self.new.faults result }
        ensures reader { ReadConsumes self.old.known self.new.known result buf.new }
    {
        match self.inner.read(buf) {
            Ok(count) => Ok(count),
            Err(_) => {
                self.faults += 1;
                Err(Failed)
            }
        }
    }
}

/// An output that is written to a real one, such as standard output.
#[derive(Drop)]
pub struct StdSink<W: Write> {
    inner: W,
    read_along: bool,
    faults: u64,
}

impl<W: Write> Model for StdSink<W> {
    ghost use Rattle.ops_io.specs.Outside.{DeviceState};

    ghost Value = { DeviceState };

    ghost view = { λ s. record { known = W.contents s.inner; faults = s.faults } };
}

impl<W: Write> StdSink<W> {
    /// Writes to this writer. Whoever makes it tells whether someone reads along.
    pub fn new(inner: W, read_along: bool) -> StdSink<W>
        ensures { result ≡ record { known = W.contents inner; faults = 0 } }
    {
        StdSink {
            inner,
            read_along,
            faults: 0,
        }
    }
}

impl<W: Write> Sink for StdSink<W> {
    ghost use Rattle.std.specs.Prelude.{None};

    ghost taken = { λ s. None };

    ghost faults = { λ s. s.faults };

    /// Each error of the writer is a failure, and so is a write of which it takes nothing. What the writer holds grows
    /// by the bytes that are counted, and by none after a failure.
    fn write(&mut self, piece: &[u8]) -> Result<usize, Failed>
        requires some { 0 < length piece.now }
        requires faults { self.old.faults < 2 ^ 64 - 1 }
        ensures bound { IfOk result (λ n. (0 < n) × (n ≤ length piece.now)) }
        ensures bytes { WriteGives None None result piece.now }
        ensures cause { CountsFailure self.old.faults self.new.faults result }
        ensures writer { WriteAppends self.old.known self.new.known result piece.now }
    {
        match self.inner.write(piece) {
            Ok(count) if count > 0 => Ok(count),
            _ => {
                self.faults += 1;
                Err(Failed)
            }
        }
    }

    /// As it was given.
    fn is_read_along(&self) -> bool {
        self.read_along
    }
}

/// How many bytes a file is read by.
const READ_SIZE: usize = 4096;

/// What is left of a file, or None where that is more than `room` bytes. It reads at most a piece past the room.
fn read_all<F: Read>(alloc: Global, file: &mut F, room: usize) -> Result<Option<Vec<u8>>, LoadError>
    ensures room { IfOk result (λ text. IfSome text (λ bytes. length bytes.items ≤ room)) }
    ensures whole { IfOk result (λ text. IfSome (F.remaining file.old) (λ bytes. IsWhole bytes room text)) }
{
    let mut piece = [0u8; READ_SIZE];
    let mut text = Vec::new(alloc);
    loop {
        let Ok(count) = file.read(&mut piece) else {
            return Err(LoadError::Failed);
        };
        if count == 0 {
            return Ok(Some(text));
        }
        if count > room - text.len() {
            return Ok(None);
        }
        text.extend_from_slice(&piece[..count])?;
    }
}

/// Appends what is left of a file and answers true, or answers false where that is more than `room` bytes. It reads the
/// file into memory of its own first, so that a refusal leaves `into` unchanged.
fn append_all<F: Read>(file: &mut F, room: usize, into: &mut Vec<u8>) -> Result<bool, LoadError>
    ensures bytes { LoadGives (option_map Some (F.remaining file.old)) room result into.old.items into.new.items }
{
    let alloc = *into.allocator();
    match read_all(alloc, file, room)? {
        Some(text) => {
            into.extend_from_slice(&text)?;
            Ok(true)
        }
        None => Ok(false),
    }
}

/// Loads a file that was opened, or fails where it could not be.
fn load_opened<F: Read + Drop>(
    opened: io::Result<F>,
    room: usize,
    into: &mut Vec<u8>,
) -> Result<bool, LoadError>
    ensures unopened { IsErr opened → IsErrOf result LoadError.Failed }
    ensures bytes { IfOk opened (λ file. LoadGives (option_map Some (F.remaining file)) room result into.old.items into.new.items) }
    ensures err { OnErr result (into.new.items ≡ into.old.items) }
{
    match opened {
        Ok(mut file) => append_all(&mut file, room, into),
        Err(_) => Err(LoadError::Failed),
    }
}

/// Real files by name.
#[derive(Drop)]
pub struct StdShelf<'r, R> {
    rt: &'r R,
    // The names that loads were given. No code reads them: they are there for the contracts, which say what was asked
    // for.
    names: Vec<Vec<u8>>,
    faults: u64,
}

impl<'r, R> Model for StdShelf<'r, R> {
    ghost use Rattle.std.specs.Prelude.{map};
    ghost use Rattle.ops_io.specs.Outside.{FilesState};

    ghost Value = { FilesState };

    ghost view = { λ s. record { names = map (λ v. v.items) s.names.items; faults = s.faults } };
}

impl<'r, R: Files> StdShelf<'r, R> {
    /// Takes no memory.
    pub fn new(alloc: Global, rt: &'r R) -> StdShelf<'r, R>
        ensures { result ≡ record { names = []; faults = 0 } }
    {
        StdShelf {
            rt,
            names: Vec::new(alloc),
            faults: 0,
        }
    }
}

impl<'r, R: Files> Shelf for StdShelf<'r, R> {
    ghost use Rattle.std.specs.Prelude.{None};

    ghost told = { λ s n. None };

    ghost faults = { λ s. s.faults };

    ghost names = { λ s. s.names };

    /// What is done with the file once it is open is `load_opened`.
    fn load(&mut self, name: &str, room: usize, into: &mut Vec<u8>) -> Result<bool, LoadError> {
        let alloc = *into.allocator();
        let kept = Vec::from_slice(alloc, name.as_bytes())?;
        self.names.push(kept)?;
        let loaded = load_opened(fs::open(self.rt, name), room, into);
        if matches!(loaded, Err(LoadError::Failed)) {
            self.faults += 1;
        }
        loaded
    }
}
