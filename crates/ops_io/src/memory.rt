//! Files, an input and an output in memory, whose bytes are known, and which fail at the calls that are chosen for
//! them.
ghost use Rattle.std.specs.Prelude.{◌≡◌, ◌+◌, ◌-◌, ◌^◌, ◌<◌, ◌≤◌, ◌↔◌, ◌⊎◌, ℕ, List, [], ◌∷◌, ◌++◌, length, min, Some, None, IfOk, IfSome, IfNone, OnErr, IsErr, IsErrOf, Contains};
ghost use Rattle.std.specs.Io.{ReadsAtMost};
ghost use Rattle.ops_io.specs.Outside.{CountsFailure, ReadGives, WriteGives, LoadGives, LoadCounts, LoadNames};
ghost use Rattle.ops_io.specs.Memory.{content_of, files_of, next_call};

use crate::outside::{Failed, LoadError, Shelf, Sink, Source};
use ops_base::memory::OutOfMemory;
use std::alloc::Global;
use std::marker::Model;

/// Files in memory. A load fails exactly where its number is listed, counted from 1, or where there is no such file.
#[derive(Drop)]
pub struct MemShelf {
    files: Vec<(String, Vec<u8>)>,
    failing: Vec<u64>,
    names: Vec<Vec<u8>>,
    faults: u64,
}

impl Model for MemShelf {
    ghost use Rattle.std.specs.Prelude.{map};
    ghost use Rattle.ops_io.specs.Memory.{ShelfState, files_of};

    ghost Value = { ShelfState };

    ghost view = { λ s. record { files = files_of s.files.items; failing = s.failing.items; names = map (λ v. v.items) s.names.items; faults = s.faults } };
}

/// The first file of this name. Its cost grows with the number of files.
fn find_file<'a>(files: &'a [(String, Vec<u8>)], name: &[u8]) -> Option<&'a [u8]>
    ensures some { IfSome result (λ bytes. content_of (files_of files.now) name.now ≡ Some bytes.now) }
    ensures none { IfNone result (content_of (files_of files.now) name.now ≡ None) }
{
    for file in files {
        if file.0.as_bytes() == name {
            return Some(file.1.as_slice());
        }
    }
    None
}

impl MemShelf {
    /// Takes no memory. Of two files of one name the first counts.
    pub fn new(alloc: Global, files: Vec<(String, Vec<u8>)>, failing: Vec<u64>) -> MemShelf
        ensures { result ≡ record { files = files_of files.items; failing = failing.items; names = []; faults = 0 } }
    {
        MemShelf {
            files,
            failing,
            names: Vec::new(alloc),
            faults: 0,
        }
    }
}

impl Shelf for MemShelf {
    ghost told = { λ s n. Some (content_of s.files n) };

    ghost faults = { λ s. s.faults };

    ghost names = { λ s. s.names };

    /// Keeps a copy of the name, which takes memory.
    fn load(&mut self, name: &str, room: usize, into: &mut Vec<u8>) -> Result<bool, LoadError>
        requires faults { self.old.faults < 2 ^ 64 - 1 }
        requires loads { length self.old.names < 2 ^ 64 - 1 }
        ensures bytes { LoadGives (Some (content_of self.old.files name.now)) room result into.old.items into.new.items }
        ensures told { (n : List ℕ) → Some (content_of self.new.files n) ≡ Some (content_of self.old.files n) }
        ensures cause { LoadCounts self.old.faults self.new.faults result }
        ensures names { LoadNames self.old.names self.new.names name.now result }

        // It fails exactly at a call that is listed, and where there is no such file.
        ensures listed { Contains self.old.failing (length self.old.names + 1) → IsErr result }
        ensures absent { content_of self.old.files name.now ≡ None → IsErr result }
        ensures only { IsErrOf result LoadError.Failed
            → Contains self.old.failing (length self.old.names + 1) ⊎ (content_of self.old.files name.now ≡ None) }
        ensures kept { self.new ≡ record self.old { names = self.new.names; faults = self.new.faults } }
    {
        let alloc = *into.allocator();
        let kept = Vec::from_slice(alloc, name.as_bytes())?;
        self.names.push(kept)?;
        let call = self.names.len() as u64;
        if self.failing.contains(&call) {
            self.faults += 1;
            return Err(LoadError::Failed);
        }
        let Some(bytes) = find_file(self.files.as_slice(), name.as_bytes()) else {
            self.faults += 1;
            return Err(LoadError::Failed);
        };
        if bytes.len() > room {
            return Ok(false);
        }
        into.extend_from_slice(bytes)?;
        Ok(true)
    }
}

/// An input in memory. A read fails exactly where its number is listed, counted from 1.
#[derive(Drop)]
pub struct MemSource {
    bytes: Vec<u8>,
    at: usize,
    piece: usize,
    failing: Vec<u64>,
    calls: u64,
    faults: u64,
}

impl Model for MemSource {
    ghost use Rattle.std.specs.Prelude.{◌≤◌, ◌<◌, drop, vec_len};
    ghost use Rattle.ops_io.specs.Memory.{SourceState};

    ghost Value = { SourceState };

    ghost view = { λ s. record { left = drop s.at s.bytes.items; piece = s.piece; failing = s.failing.items; calls = s.calls; faults = s.faults } };

    ghost invariant = { λ s. (s.at ≤ vec_len s.bytes) × (0 < s.piece) };
}

impl MemSource {
    /// An input of these bytes, of which a read gives at most `piece`. Takes no memory.
    pub fn new(bytes: Vec<u8>, piece: usize, failing: Vec<u64>) -> MemSource
        requires { 0 < piece }
        ensures { result ≡ record { left = bytes.items; piece = piece; failing = failing.items; calls = 0; faults = 0 } }
    {
        MemSource {
            bytes,
            at: 0,
            piece,
            failing,
            calls: 0,
            faults: 0,
        }
    }
}

impl Source for MemSource {
    ghost left = { λ s. Some s.left };

    ghost faults = { λ s. s.faults };

    /// Takes no memory.
    fn read(&mut self, buf: &mut [u8]) -> Result<usize, Failed>
        requires room { 0 < length buf.old }
        requires faults { self.old.faults < 2 ^ 64 - 1 }
        ensures bound { ReadsAtMost result buf.new }
        ensures bytes { ReadGives (Some self.old.left) (Some self.new.left) result buf.new }
        ensures cause { CountsFailure self.old.faults self.new.faults result }

        // It fails exactly at a call that is listed, and else gives as much as it can.
        ensures listed { IsErr result ↔ Contains self.old.failing (next_call self.old.calls) }
        ensures count { IfOk result (λ n. n ≡ min (min self.old.piece (length buf.old)) (length self.old.left)) }
        ensures unread { OnErr result (buf.new ≡ buf.old) }
        ensures kept { self.new ≡ record self.old { left = self.new.left; calls = next_call self.old.calls; faults = self.new.faults } }
    {
        self.calls = self.calls.saturating_add(1);
        if self.failing.contains(&self.calls) {
            self.faults += 1;
            return Err(Failed);
        }
        let count = self.piece.min(buf.len()).min(self.bytes.len() - self.at);
        let end = self.at + count;
        buf[..count].copy_from_slice(&self.bytes[self.at..end]);
        self.at = end;
        Ok(count)
    }
}

/// An output in memory. A write fails exactly where its number is listed, counted from 1, or where there is no room
/// left.
#[derive(Drop)]
pub struct MemSink {
    written: Vec<u8>,
    room: usize,
    piece: usize,
    failing: Vec<u64>,
    calls: u64,
    faults: u64,
}

impl Model for MemSink {
    ghost use Rattle.std.specs.Prelude.{◌≤◌, ◌<◌, vec_len, vec_capacity};
    ghost use Rattle.ops_io.specs.Memory.{SinkState};

    ghost Value = { SinkState };

    ghost view = { λ s. record { written = s.written.items; room = s.room; piece = s.piece; failing = s.failing.items; calls = s.calls; faults = s.faults } };

    ghost invariant = { λ s. (vec_len s.written ≤ s.room) × (s.room ≤ vec_capacity s.written) × (0 < s.piece) };
}

impl MemSink {
    /// An output with room for `room` bytes, of which a write takes at most `piece`.
    pub fn new(
        alloc: Global,
        room: usize,
        piece: usize,
        failing: Vec<u64>,
    ) -> Result<MemSink, OutOfMemory>
        requires { 0 < piece }
        ensures { IfOk result (λ sink. sink ≡ record { written = []; room = room; piece = piece; failing = failing.items; calls = 0; faults = 0 }) }
    {
        Ok(MemSink {
            written: Vec::with_capacity(alloc, room)?,
            room,
            piece,
            failing,
            calls: 0,
            faults: 0,
        })
    }

    /// The bytes that were taken.
    pub fn written(&self) -> &[u8]
        ensures { result.now ≡ self.now.written }
    {
        self.written.as_slice()
    }
}

impl Sink for MemSink {
    ghost taken = { λ s. Some s.written };

    ghost faults = { λ s. s.faults };

    /// Takes no memory.
    fn write(&mut self, piece: &[u8]) -> Result<usize, Failed>
        requires some { 0 < length piece.now }
        requires faults { self.old.faults < 2 ^ 64 - 1 }
        ensures bound { IfOk result (λ n. (0 < n) × (n ≤ length piece.now)) }
        ensures bytes { WriteGives (Some self.old.written) (Some self.new.written) result piece.now }
        ensures cause { CountsFailure self.old.faults self.new.faults result }

        // It fails exactly at a call that is listed and where there is no room, and else takes as much as it can.
        ensures failed { IsErr result
            ↔ (Contains self.old.failing (next_call self.old.calls) ⊎ (self.old.room ≤ length self.old.written)) }
        ensures count { IfOk result (λ n. n ≡ min (min self.old.piece (length piece.now)) (self.old.room - length self.old.written)) }
        ensures kept { self.new ≡ record self.old { written = self.new.written; calls = next_call self.old.calls; faults = self.new.faults } }
    {
        self.calls = self.calls.saturating_add(1);
        let room = self.room - self.written.len();
        if room == 0 || self.failing.contains(&self.calls) {
            self.faults += 1;
            return Err(Failed);
        }
        let count = self.piece.min(piece.len()).min(room);
        match self.written.extend_from_slice(&piece[..count]) {
            Ok(()) => Ok(count),
            Err(_) => unreachable!(),
        }
    }

    /// No one does.
    fn is_read_along(&self) -> bool {
        false
    }
}
