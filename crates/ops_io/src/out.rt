//! The output buffer, which gathers what is put and knows the column.
ghost use Rattle.std.specs.Prelude.{◌≡◌, ◌+◌, ◌-◌, ◌^◌, ◌<◌, ◌≤◌, [], ◌++◌, length, IfOk, IsOk, OnOk, OnErr, IsTrue, true, false};
ghost use Rattle.ops_io.specs.Outside.{CountsFailure, GrewBy, GrewByPrefix};
ghost use Rattle.ops_io.specs.Output.{column_after};
ghost use Rattle.ops_io.specs.Ports.{port, PutsBytes, FlushesAll};

use crate::outside::{Failed, Sink};
use ops_base::memory::OutOfMemory;
use std::alloc::Global;
use std::marker::Model;
use thiserror::Error;

/// The sink refused a write.
#[derive(Clone, Copy, Debug, PartialEq, Eq, Error)]
#[error("cannot write the output")]
pub struct WriteFailed;

/// How many bytes the buffer holds at most.
const BUFFER_SIZE: usize = 8192;

/// Bytes that are put and not yet written. It is used no more after a call that was refused.
#[derive(Drop)]
pub struct Out {
    held: Vec<u8>,
    column: u64,
    // That no call was refused. No code reads it: it is there for the contracts, which ask for it before each call.
    whole: bool,
}

impl Model for Out {
    ghost use Rattle.std.specs.Prelude.{◌≤◌, vec_len, vec_capacity};
    ghost use Rattle.ops_io.specs.Output.{OutState};
    ghost use Rattle.ops_io.specs.declared.out.TheConstants.{BUFFER_SIZE};

    ghost Value = { OutState };

    ghost view = { λ o. record { held = o.held.items; column = o.column; whole = o.whole } };

    ghost invariant = { λ o. (BUFFER_SIZE ≤ vec_capacity o.held) × (vec_len o.held ≤ BUFFER_SIZE) };
}

/// Writes all of these bytes, in as many calls as the sink needs.
#[tactic(auto, using(crate::proofs::Known::known))]
fn write_all<K: Sink>(sink: &mut K, bytes: &[u8]) -> Result<(), WriteFailed>
    requires faults { K.faults sink.old < 2 ^ 63 }
    ensures ok { OnOk result (GrewBy (K.taken sink.old) (K.taken sink.new) bytes.now) }
    ensures err { OnErr result (GrewByPrefix (K.taken sink.old) (K.taken sink.new) bytes.now) }
    ensures cause { CountsFailure (K.faults sink.old) (K.faults sink.new) result }

    // Where there are none, no call of the sink is made.
    ensures unwritten { bytes.now ≡ [] → (sink.new ≡ sink.old) × IsOk result }
{
    let mut at = 0;
    while at < bytes.len() {
        match sink.write(&bytes[at..]) {
            Ok(count) => at += count,
            Err(Failed) => return Err(WriteFailed),
        }
    }
    Ok(())
}

/// The column after these bytes. It looks at those past the last LF alone.
fn column_past(column: u64, bytes: &[u8]) -> u64
    ensures { result ≡ column_after column bytes.now }
{
    let mut at = bytes.len();
    while at > 0 {
        if bytes[at - 1] == b'\n' {
            return (bytes.len() - at) as u64;
        }
        at -= 1;
    }
    column.saturating_add(bytes.len() as u64)
}

impl Out {
    /// An empty buffer at column 0, with all the memory that it will need.
    pub fn new(alloc: Global) -> Result<Out, OutOfMemory>
        ensures { IfOk result (λ out. out ≡ record { held = []; column = 0; whole = true }) }
    {
        let held = Vec::with_capacity(alloc, BUFFER_SIZE)?;
        Ok(Out {
            held,
            column: 0,
            whole: true,
        })
    }

    /// The number of bytes put since the last LF, or 2^64 - 1 where there are more.
    pub fn column(&self) -> u64
        ensures { result ≡ self.now.column }
    {
        self.column
    }

    /// Writes all that is held; makes no call of the sink where nothing is. Takes no memory.
    /// After a refusal what was held is lost.
    pub fn flush<K: Sink>(&mut self, sink: &mut K) -> Result<(), WriteFailed>
        requires whole { IsTrue self.old.whole }
        requires faults { K.faults sink.old < 2 ^ 63 }
        ensures flushes { FlushesAll result (port (K.taken sink.old) (K.faults sink.old) self.old)
            (port (K.taken sink.new) (K.faults sink.new) self.new) }
        ensures broken { OnErr result (self.new.whole ≡ false) }

        // Where nothing is held, no call of the sink is made.
        ensures unwritten { self.old.held ≡ [] → (sink.new ≡ sink.old) × IsOk result }
    {
        let outcome = write_all(sink, self.held.as_slice());
        self.held.clear();
        if let Err(why) = outcome {
            self.whole = false;
            return Err(why);
        }
        Ok(())
    }

    /// How many more bytes the buffer can hold.
    fn room(&self) -> usize
        ensures room { result + length self.now.held ≡ BUFFER_SIZE }
    {
        BUFFER_SIZE - self.held.len()
    }

    /// Adds bytes that there is room for.
    fn hold(&mut self, bytes: &[u8])
        requires { length self.old.held + length bytes.now ≤ BUFFER_SIZE }
        ensures { self.new ≡ record self.old { held = self.old.held ++ bytes.now; column = column_after self.old.column bytes.now } }
    {
        match self.held.extend_from_slice(bytes) {
            Ok(()) => self.column = column_past(self.column, bytes),
            Err(_) => unreachable!(),
        }
    }

    /// Adds bytes, and writes out each time that the buffer is full and there are more. Takes no memory.
    /// It copies by the slice, and looks for the last LF once.
    pub fn put<K: Sink>(&mut self, sink: &mut K, bytes: &[u8]) -> Result<(), WriteFailed>
        requires whole { IsTrue self.old.whole }
        requires faults { K.faults sink.old < 2 ^ 63 }
        ensures puts { PutsBytes result (port (K.taken sink.old) (K.faults sink.old) self.old)
            (port (K.taken sink.new) (K.faults sink.new) self.new) bytes.now }
        ensures broken { OnErr result (self.new.whole ≡ false) }
        ensures size { OnOk result (length self.new.held ≤ BUFFER_SIZE) }

        // Where what it holds and these bytes are no more than the buffer holds, no call of the sink is made, and they
        // are held too.
        ensures unwritten { length self.old.held + length bytes.now ≤ BUFFER_SIZE → (sink.new ≡ sink.old) × IsOk result }
        ensures gathered { length self.old.held + length bytes.now ≤ BUFFER_SIZE
            → self.new ≡ record self.old { held = self.old.held ++ bytes.now; column = column_after self.old.column bytes.now } }
    {
        let mut rest = bytes;
        while rest.len() > self.room() {
            let (front, back) = rest.split_at(self.room());
            self.hold(front);
            self.flush(sink)?;
            rest = back;
        }
        self.hold(rest);
        Ok(())
    }
}
