//! What is printed at each trace level, and the lines for removed and made elements.
ghost use Rattle.std.specs.Prelude.{◌≡◌, ◌^◌, ◌<◌, IsTrue, OnErr, Some, false, nat_le, slice_get, drop, take};
ghost use Rattle.ops_base.specs.WorkingMemory.{done};
ghost use Rattle.ops_io.specs.Ports.{port, PutsBytes};
ghost use Rattle.ops_meaning.specs.Acting.{change_text, change_lines};
ghost use Rattle.ops_meaning.specs.Layout.{line_at, traced};

use crate::state::ActState;
use ops_base::elements::Change;
use ops_base::symbols::Names;
use ops_io::{Out, Sink, WriteFailed};
use ops_print::{put_made_line, put_removed_line};

/// Puts the line for the change at this place.
fn tell_change<K: Sink>(
    doing: &ActState<'_>,
    names: &Names,
    place: usize,
    change: &Change,
    out: &mut Out,
    sink: &mut K,
) -> Result<(), WriteFailed>
    requires whole { IsTrue out.old.whole }
    requires faults { K.faults sink.old < 2 ^ 63 }
    requires there { slice_get doing.now.working.changes place ≡ Some change.now }
    ensures puts { PutsBytes result (port (K.taken sink.old) (K.faults sink.old) out.old)
        (port (K.taken sink.new) (K.faults sink.new) out.new)
        (line_at out.old.column (change_text names.now doing.now.setting.classes
        (done doing.now.working.start (take place doing.now.working.changes)) change.now)) }
    ensures broken { OnErr result (out.new.whole ≡ false) }
{
    match change {
        Change::Add(element) => put_made_line(out, sink, names, doing.program(), element),
        Change::Remove(tag) => {
            let element = doing.working().removed_at(place, *tag);
            put_removed_line(out, sink, names, doing.program(), element)
        }
    }
}

/// Whether firings are traced at this level.
pub fn traces_firings(watch: u8) -> bool
    ensures { result ≡ nat_le 1 watch }
{
    watch >= 1
}

/// Whether elements are traced at this level.
pub fn traces_elements(watch: u8) -> bool
    ensures { result ≡ nat_le 2 watch }
{
    watch >= 2
}

/// Puts the lines for all changes except the first `since`, if elements are traced. For the line of an element that the
/// right side made and removed again, it searches backwards through the changes between.
pub(crate) fn tell_changes<K: Sink>(
    doing: &ActState<'_>,
    names: &Names,
    since: usize,
    out: &mut Out,
    sink: &mut K,
) -> Result<(), WriteFailed>
    requires whole { IsTrue out.old.whole }
    requires faults { K.faults sink.old < 2 ^ 63 }
    ensures puts { PutsBytes result (port (K.taken sink.old) (K.faults sink.old) out.old)
        (port (K.taken sink.new) (K.faults sink.new) out.new)
        (traced doing.now.setting.watch out.old.column (change_lines names.now doing.now.setting.classes
        (done doing.now.working.start (take since doing.now.working.changes)) (drop since doing.now.working.changes))) }
    ensures broken { OnErr result (out.new.whole ≡ false) }
{
    if !traces_elements(doing.watch()) {
        return Ok(());
    }
    let changes = doing.changes();
    for place in since..changes.len() {
        tell_change(doing, names, place, &changes[place], out, sink)?;
    }
    Ok(())
}
