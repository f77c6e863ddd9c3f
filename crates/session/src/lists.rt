//! The commands that list elements and instantiations.
ghost use Rattle.std.specs.Prelude.{◌≡◌, ◌^◌, ◌<◌, [], ◌∷◌, map, filter, slice_get, unwrap_or, None, false, IsTrue};
ghost use Rattle.std.specs.List.{list_all, cons_option};
ghost use Rattle.ops_base.specs.Values.{are_same, nil};
ghost use Rattle.ops_io.specs.Ports.{port, PutsBytes};
ghost use Rattle.ops_meaning.specs.Acting.{element_of};
ghost use Rattle.ops_meaning.specs.Effects.{Performs, of_ending};
ghost use Rattle.ops_meaning.specs.Layout.{inst_text, lines_at};
ghost use Rattle.ops_meaning.specs.Running.{Session as Meant, element_lines, elements_listed, has_values, lists, meets, standing_by};
ghost use Rattle.ops_base.specs.ConflictSet.{conflict_set};
ghost use Rattle.conflict_index.specs.Indexed.{KeepsSpecificities};
ghost use Rattle.session.specs.Courses.{IsUnderWay, ends_unread, standing_in};
ghost use Rattle.session.specs.Deeds.{Does};

use crate::session::Session;
use conflict_index::Index;
use ops_base::commands::Fixed;
use ops_base::elements::Element;
use ops_base::endings::Ending;
use ops_base::list::Listed;
use ops_base::programs::Program;
use ops_base::symbols::Names;
use ops_base::values::{NOTHING, Value};
use ops_io::{Out, Sink, WriteFailed};
use ops_print::{put_element_line, put_inst_line};
use work_store::{Matcher, Store};

/// Puts the lines of all elements, in the order of their tags. Allocates nothing.
fn put_all<K: Sink>(
    out: &mut Out,
    sink: &mut K,
    names: &Names,
    program: &Program,
    store: &Store,
) -> Result<(), WriteFailed>
    requires whole { IsTrue out.old.whole }
    requires faults { K.faults sink.old < 2 ^ 63 }
    ensures { PutsBytes result (port (K.taken sink.old) (K.faults sink.old) out.old)
        (port (K.taken sink.new) (K.faults sink.new) out.new)
        (lines_at out.old.column (element_lines names.now program.now.classes store.now.elements)) }
{
    for element in store.iter() {
        put_element_line(out, sink, names, program, b"", element)?;
    }
    Ok(())
}

/// Puts the line of the element with this tag, if there is one.
fn put_tagged<K: Sink>(
    out: &mut Out,
    sink: &mut K,
    names: &Names,
    program: &Program,
    store: &Store,
    tag: u64,
) -> Result<(), WriteFailed>
    requires whole { IsTrue out.old.whole }
    requires faults { K.faults sink.old < 2 ^ 63 }
    ensures { PutsBytes result (port (K.taken sink.old) (K.faults sink.old) out.old)
        (port (K.taken sink.new) (K.faults sink.new) out.new)
        (lines_at out.old.column (element_lines names.now program.now.classes (cons_option (element_of store.now.elements tag) []))) }
{
    match store.get(tag) {
        Some(element) => put_element_line(out, sink, names, program, b"", element),
        None => Ok(()),
    }
}

/// Puts the lines of the elements with these tags in their order, each looked up by its tag, or of all elements if no
/// tag is given.
fn put_elements<K: Sink>(
    out: &mut Out,
    sink: &mut K,
    names: &Names,
    program: &Program,
    store: &Store,
    tags: &[u64],
) -> Result<(), WriteFailed>
    requires whole { IsTrue out.old.whole }
    requires faults { K.faults sink.old < 2 ^ 63 }
    ensures { PutsBytes result (port (K.taken sink.old) (K.faults sink.old) out.old)
        (port (K.taken sink.new) (K.faults sink.new) out.new)
        (lines_at out.old.column (element_lines names.now program.now.classes (elements_listed store.now.elements tags.now))) }
{
    if tags.is_empty() {
        return put_all(out, sink, names, program, store);
    }
    for tag in tags {
        put_tagged(out, sink, names, program, store, *tag)?;
    }
    Ok(())
}

/// The command `wm`: lists the elements with these tags, or all if no tag is given.
pub(crate) fn list_elements<M: Matcher, K: Sink>(
    program: &Program,
    names: &Names,
    session: Session<M>,
    tags: &Listed<u64>,
    out: &mut Out,
    sink: &mut K,
) -> Result<Session<M>, Ending>
    requires under_way { IsUnderWay M.stored M.stands_for program.now.rules session }
    requires none_waits { session.pending ≡ [] }
    requires whole { IsTrue out.old.whole }
    requires faults { K.faults sink.old < 2 ^ 63 }
    ensures { Does M.stored M.stands_for program.now.rules names.now session result
        (port (K.taken sink.old) (K.faults sink.old) out.old)
        (port (K.taken sink.new) (K.faults sink.new) out.new)
        (λ k. lists out.old.column (element_lines k.course.names program.now.classes (elements_listed k.course.wm tags.now)) k) }
{
    put_elements(
        out,
        sink,
        names,
        program,
        session.state.store(),
        tags.as_slice(),
    )?;
    Ok(session)
}

/// The value at a place in these fields, or `nil` past the end.
fn value_at(fields: &[Value], place: usize) -> Value
    ensures { result ≡ unwrap_or (slice_get fields.now place) nil }
{
    match fields.get(place) {
        Some(value) => *value,
        None => NOTHING,
    }
}

fn is_same(value: Value, other: &Value) -> bool
    ensures { result ≡ are_same value other.now }
{
    value == *other
}

/// Whether an element has these values, starting at this field.
fn has_values(element: &Element, field: usize, values: &[Value]) -> bool
    ensures { result ≡ has_values element.now field values.now }
{
    let fields = element.fields_from(field);
    for (place, value) in values.iter().enumerate() {
        if !is_same(value_at(fields, place), value) {
            return false;
        }
    }
    true
}

/// Whether an element has all the given values.
fn has_all(element: &Element, given: &[Fixed]) -> bool
    ensures { result ≡ list_all (λ g. has_values element.now g.field g.values) given.now }
{
    given.iter().all(|fixed| has_values(element, fixed.field, fixed.values.as_slice()))
}

/// Whether an element is of the class of the pattern and has its values. Without a pattern, every element meets it.
fn meets(pattern: &Option<(usize, Listed<Fixed>)>, element: &Element) -> bool
    ensures { result ≡ meets pattern.now element.now }
{
    match pattern {
        None => true,
        Some((class, given)) => element.class == *class && has_all(element, given.as_slice()),
    }
}

/// Puts the line of an element, if it meets the pattern.
fn put_where_met<K: Sink>(
    out: &mut Out,
    sink: &mut K,
    names: &Names,
    program: &Program,
    pattern: &Option<(usize, Listed<Fixed>)>,
    element: &Element,
) -> Result<(), WriteFailed>
    requires whole { IsTrue out.old.whole }
    requires faults { K.faults sink.old < 2 ^ 63 }
    ensures { PutsBytes result (port (K.taken sink.old) (K.faults sink.old) out.old)
        (port (K.taken sink.new) (K.faults sink.new) out.new)
        (lines_at out.old.column (element_lines names.now program.now.classes (filter (meets pattern.now) (element.now ∷ [])))) }
{
    if meets(pattern, element) {
        put_element_line(out, sink, names, program, b"", element)
    } else {
        Ok(())
    }
}

/// Puts the lines of the elements that meet the pattern, in the order of their tags. Allocates nothing.
fn put_met<K: Sink>(
    out: &mut Out,
    sink: &mut K,
    names: &Names,
    program: &Program,
    store: &Store,
    pattern: &Option<(usize, Listed<Fixed>)>,
) -> Result<(), WriteFailed>
    requires whole { IsTrue out.old.whole }
    requires faults { K.faults sink.old < 2 ^ 63 }
    ensures { PutsBytes result (port (K.taken sink.old) (K.faults sink.old) out.old)
        (port (K.taken sink.new) (K.faults sink.new) out.new)
        (lines_at out.old.column (element_lines names.now program.now.classes (filter (meets pattern.now) store.now.elements))) }
{
    for element in store.iter() {
        put_where_met(out, sink, names, program, pattern, element)?;
    }
    Ok(())
}

/// The command `ppwm`: lists the elements that meet a pattern.
pub(crate) fn list_met<M: Matcher, K: Sink>(
    program: &Program,
    names: &Names,
    session: Session<M>,
    pattern: &Option<(usize, Listed<Fixed>)>,
    out: &mut Out,
    sink: &mut K,
) -> Result<Session<M>, Ending>
    requires under_way { IsUnderWay M.stored M.stands_for program.now.rules session }
    requires none_waits { session.pending ≡ [] }
    requires whole { IsTrue out.old.whole }
    requires faults { K.faults sink.old < 2 ^ 63 }
    ensures { Does M.stored M.stands_for program.now.rules names.now session result
        (port (K.taken sink.old) (K.faults sink.old) out.old)
        (port (K.taken sink.new) (K.faults sink.new) out.new)
        (λ k. lists out.old.column (element_lines k.course.names program.now.classes (filter (meets pattern.now) k.course.wm)) k) }
{
    put_met(out, sink, names, program, session.state.store(), pattern)?;
    Ok(session)
}

/// Puts the lines of the instantiations that have not fired, the dominant one first. Allocates nothing, and takes time
/// in proportion to their number.
fn put_standing<K: Sink>(
    out: &mut Out,
    sink: &mut K,
    names: &Names,
    program: &Program,
    index: &Index,
) -> Result<(), Ending>
    requires whole { IsTrue out.old.whole }
    requires faults { K.faults sink.old < 2 ^ 63 }
    requires specificities { KeepsSpecificities program.now.rules index.now.members }
    ensures performs { (k : Meant) → Performs (λ _. k) of_ending result (port (K.taken sink.old) (K.faults sink.old) out.old)
        (port (K.taken sink.new) (K.faults sink.new) out.new)
        (lists out.old.column (map (inst_text names.now program.now.rules) (standing_in program.now.rules index.now)) k) }
    ensures reads { ends_unread result ≡ false }
{
    for inst in index.by_dominance() {
        put_inst_line(out, sink, names, program, inst)?;
    }
    Ok(())
}

/// The command `cs`: lists the instantiations that have not fired, the dominant one first.
pub(crate) fn list_standing<M: Matcher, K: Sink>(
    program: &Program,
    names: &Names,
    session: Session<M>,
    out: &mut Out,
    sink: &mut K,
) -> Result<Session<M>, Ending>
    requires under_way { IsUnderWay M.stored M.stands_for program.now.rules session }
    requires none_waits { session.pending ≡ [] }
    requires current { session.moved ≡ None }
    requires whole { IsTrue out.old.whole }
    requires faults { K.faults sink.old < 2 ^ 63 }
    ensures { Does M.stored M.stands_for program.now.rules names.now session result
        (port (K.taken sink.old) (K.faults sink.old) out.old)
        (port (K.taken sink.new) (K.faults sink.new) out.new)
        (λ k. lists out.old.column (map (inst_text k.course.names program.now.rules)
        (standing_by (conflict_set program.now.rules) program.now.rules k.course)) k) }
{
    put_standing(out, sink, names, program, session.state.index())?;
    Ok(session)
}
