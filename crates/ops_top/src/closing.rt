//! The line after a session.
ghost use Rattle.std.specs.Prelude.{◌≡◌, ◌^◌, ◌<◌, IsTrue};
ghost use Rattle.ops_io.specs.Ports.{port};
ghost use Rattle.ops_meaning.specs.Layout.{last_line, line_at};
ghost use Rattle.ops_top.specs.Summary.{summary_line};
ghost use Rattle.ops_top.specs.Told.{PutsOrStops};
ghost use Rattle.ops_top.specs.Whole.{closing};

use crate::lines::summary_line;
use ops_base::endings::Ending;
use ops_base::symbols::Names;
use ops_io::{Out, Sink, Stop};
use ops_print::{put_fault, put_line};
use std::alloc::Global;

/// Puts the line that sums up a session that came to its end.
fn put_summary<K: Sink>(
    alloc: Global,
    firings: u64,
    elements: u64,
    last_tag: u64,
    out: &mut Out,
    sink: &mut K,
) -> Result<(), Stop>
    requires whole { IsTrue out.old.whole }
    requires faults { K.faults sink.old < 2 ^ 63 }
    ensures { PutsOrStops result (port (K.taken sink.old) (K.faults sink.old) out.old)
        (port (K.taken sink.new) (K.faults sink.new) out.new) (line_at out.old.column (summary_line firings elements last_tag)) }
{
    let line = summary_line(alloc, firings, elements, last_tag)?;
    put_line(out, sink, &line)?;
    Ok(())
}

/// Puts the line that tells an ending, and nothing for an ending that has none.
fn put_ending<K: Sink>(
    names: &Names,
    ending: &Ending,
    out: &mut Out,
    sink: &mut K,
) -> Result<(), Stop>
    requires whole { IsTrue out.old.whole }
    requires faults { K.faults sink.old < 2 ^ 63 }
    ensures { PutsOrStops result (port (K.taken sink.old) (K.faults sink.old) out.old)
        (port (K.taken sink.new) (K.faults sink.new) out.new) (last_line names.now out.old.column ending.now) }
{
    put_fault(out, sink, names, ending)?;
    Ok(())
}

/// Puts the line after a session: the one that tells its ending, or its summary, where it came to its end and is to be
/// summed up.
pub(crate) fn put_closing<K: Sink>(
    alloc: Global,
    names: &Names,
    ending: &Ending,
    is_summed: bool,
    out: &mut Out,
    sink: &mut K,
) -> Result<(), Stop>
    requires whole { IsTrue out.old.whole }
    requires faults { K.faults sink.old < 2 ^ 63 }
    ensures { PutsOrStops result (port (K.taken sink.old) (K.faults sink.old) out.old)
        (port (K.taken sink.new) (K.faults sink.new) out.new) (closing is_summed names.now out.old.column ending.now) }
{
    match *ending {
        Ending::Done {
            firings,
            elements,
            last_tag,
        } => {
            if is_summed {
                put_summary(alloc, firings, elements, last_tag, out, sink)
            } else {
                Ok(())
            }
        }
        Ending::Act { .. }
        | Ending::Limit { .. }
        | Ending::ReadFault
        | Ending::WriteFault
        | Ending::OutOfMemory => put_ending(names, ending, out, sink),
    }
}
