//! The lines for changes to working memory, printed if elements are traced.
ghost use Rattle.std.specs.Prelude.{◌≡◌, ◌^◌, ◌<◌, [], ◌∷◌, ◌++◌, IsTrue, codes};
ghost use Rattle.ops_io.specs.Ports.{port, PutsBytes};
ghost use Rattle.ops_meaning.specs.Acting.{change_text, change_lines};
ghost use Rattle.ops_meaning.specs.Layout.{line_at, lines_at, tagged_text, traced};
ghost use Rattle.session.specs.Traces.{IsToldBy, AreToldBy};

use act_phase::traces_elements;
use ops_base::elements::{Change, Element};
use ops_base::programs::Program;
use ops_base::symbols::Names;
use ops_io::{Out, Sink, WriteFailed};
use ops_print::{put_made_line, put_removed_line};
use work_store::Store;

/// Puts the line for a change. An element that is removed is looked up by its tag.
fn put_change<K: Sink>(
    out: &mut Out,
    sink: &mut K,
    names: &Names,
    program: &Program,
    store: &Store,
    change: &Change,
) -> Result<(), WriteFailed>
    requires whole { IsTrue out.old.whole }
    requires faults { K.faults sink.old < 2 ^ 63 }
    requires told { IsToldBy store.now.elements change.now }
    ensures { PutsBytes result (port (K.taken sink.old) (K.faults sink.old) out.old)
        (port (K.taken sink.new) (K.faults sink.new) out.new)
        (line_at out.old.column (change_text names.now program.now.classes store.now.elements change.now)) }
{
    match change {
        Change::Add(element) => put_made_line(out, sink, names, program, element),
        Change::Remove(tag) => match store.get(*tag) {
            Some(element) => put_removed_line(out, sink, names, program, element),
            None => unreachable!(),
        },
    }
}

/// Puts the lines for changes in their order.
fn put_changes<K: Sink>(
    out: &mut Out,
    sink: &mut K,
    names: &Names,
    program: &Program,
    store: &Store,
    changes: &[Change],
) -> Result<(), WriteFailed>
    requires whole { IsTrue out.old.whole }
    requires faults { K.faults sink.old < 2 ^ 63 }
    requires told { AreToldBy store.now.elements changes.now }
    ensures { PutsBytes result (port (K.taken sink.old) (K.faults sink.old) out.old)
        (port (K.taken sink.new) (K.faults sink.new) out.new)
        (lines_at out.old.column (change_lines names.now program.now.classes store.now.elements changes.now)) }
{
    for change in changes {
        put_change(out, sink, names, program, store, change)?;
    }
    Ok(())
}

/// Prints changes in their order, if elements are traced. Each element that is removed is looked up by its tag.
pub(crate) fn tell<K: Sink>(
    out: &mut Out,
    sink: &mut K,
    names: &Names,
    program: &Program,
    watch: u8,
    store: &Store,
    changes: &[Change],
) -> Result<(), WriteFailed>
    requires whole { IsTrue out.old.whole }
    requires faults { K.faults sink.old < 2 ^ 63 }
    requires told { AreToldBy store.now.elements changes.now }
    ensures { PutsBytes result (port (K.taken sink.old) (K.faults sink.old) out.old)
        (port (K.taken sink.new) (K.faults sink.new) out.new)
        (traced watch out.old.column (change_lines names.now program.now.classes store.now.elements changes.now)) }
{
    if !traces_elements(watch) {
        return Ok(());
    }
    put_changes(out, sink, names, program, store, changes)
}

/// Prints an element that is made, if elements are traced.
pub(crate) fn tell_made<K: Sink>(
    out: &mut Out,
    sink: &mut K,
    names: &Names,
    program: &Program,
    watch: u8,
    made: &Element,
) -> Result<(), WriteFailed>
    requires whole { IsTrue out.old.whole }
    requires faults { K.faults sink.old < 2 ^ 63 }
    ensures { PutsBytes result (port (K.taken sink.old) (K.faults sink.old) out.old)
        (port (K.taken sink.new) (K.faults sink.new) out.new)
        (traced watch out.old.column ((codes "=>WM: " ++ tagged_text names.now program.now.classes made.now) ∷ [])) }
{
    if !traces_elements(watch) {
        return Ok(());
    }
    put_made_line(out, sink, names, program, made)
}
