//! Saying one line, or the lines of a network, and no more.
ghost use Rattle.std.specs.Prelude.{◌≡◌, ◌^◌, ◌<◌, Err, IfOk};
ghost use Rattle.ops_top.specs.Whole.{Reply, net_told, refused_at, unread, usage};
ghost use Rattle.ops_top.specs.Told.{Delivers, status_after};

use crate::lines::{fault_line, net_lines, unread_line, usage_line};
use beta_net::compile;
use ops_base::endings::Fault;
use ops_base::programs::Program;
use ops_io::{Out, Sink, Stop};
use ops_meaning::Status;
use ops_words::WordsFault;
use std::alloc::Global;

/// Writes these bytes, and answers the status.
fn say<K: Sink>(alloc: Global, bytes: &[u8], status: Status, sink: &mut K) -> Result<Status, Stop>
    requires faults { K.faults sink.old < 2 ^ 63 }
    ensures delivers { Delivers result (record { bytes = bytes.now; status = status })
        (K.taken sink.old) (K.faults sink.old) (K.taken sink.new) (K.faults sink.new) }
    ensures said { IfOk result (λ s. s ≡ status) }
{
    let mut out = Out::new(alloc)?;
    out.put(sink, bytes)?;
    out.flush(sink)?;
    Ok(status)
}

/// Answers words that ask for no job.
pub(crate) fn say_unfit<K: Sink>(
    alloc: Global,
    fault: WordsFault,
    sink: &mut K,
) -> Result<Status, Stop>
    requires faults { K.faults sink.old < 2 ^ 63 }
    ensures delivers { (reply : Reply) → (fault ≡ WordsFault.Usage → reply ≡ usage)
        → Delivers result reply (K.taken sink.old) (K.faults sink.old) (K.taken sink.new) (K.faults sink.new) }
    ensures short { fault ≡ WordsFault.OutOfMemory → result ≡ Err Stop.OutOfMemory }
{
    match fault {
        WordsFault::Usage => say(alloc, usage_line(), Status::Usage, sink),
        WordsFault::OutOfMemory => Err(Stop::OutOfMemory),
    }
}

/// Answers a file that can't be read.
pub(crate) fn say_unread<K: Sink>(alloc: Global, name: &[u8], sink: &mut K) -> Result<Status, Stop>
    requires faults { K.faults sink.old < 2 ^ 63 }
    ensures delivers { Delivers result (unread name.now) (K.taken sink.old) (K.faults sink.old) (K.taken sink.new) (K.faults sink.new) }
    ensures said { IfOk result (λ s. s ≡ Status.ReadFault) }
{
    let line = unread_line(alloc, name)?;
    say(alloc, &line, Status::ReadFault, sink)
}

/// Answers a text with a fault at this line and column.
pub(crate) fn refuse<K: Sink>(
    alloc: Global,
    fault: Fault,
    line: u64,
    column: u64,
    sink: &mut K,
) -> Result<Status, Stop>
    requires faults { K.faults sink.old < 2 ^ 63 }
    ensures delivers { Delivers result (refused_at fault line column)
        (K.taken sink.old) (K.faults sink.old) (K.taken sink.new) (K.faults sink.new) }
    ensures said { IfOk result (λ s. s ≡ Status.Refused fault line column) }
{
    let text = fault_line(alloc, fault, line, column)?;
    let status = Status::Refused {
        fault,
        line,
        column,
    };
    say(alloc, &text, status, sink)
}

/// Compiles the program and tells how large its network is.
pub(crate) fn say_network<K: Sink>(
    alloc: Global,
    program: &Program,
    sink: &mut K,
) -> Result<Status, Stop>
    requires faults { K.faults sink.old < 2 ^ 63 }
    ensures delivers { Delivers result (net_told program.now.rules)
        (K.taken sink.old) (K.faults sink.old) (K.taken sink.new) (K.faults sink.new) }
    ensures said { IfOk result (λ s. s ≡ Status.Done) }
{
    let net = compile(alloc, program)?;
    let lines = net_lines(alloc, net.counts())?;
    say(alloc, &lines, Status::Done, sink)
}

/// The status of a call that may have given up.
pub(crate) fn status_after(told: Result<Status, Stop>) -> Status
    ensures { result ≡ status_after told }
{
    match told {
        Ok(status) => status,
        Err(Stop::Write) => Status::WriteFault,
        Err(Stop::OutOfMemory) => Status::OutOfMemory,
    }
}
