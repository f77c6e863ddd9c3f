//! The command `matches`: the partial matches of productions.
ghost use Rattle.std.specs.Prelude.{◌≡◌, ◌^◌, ◌<◌, [], length, map, false, IsTrue};
ghost use Rattle.std.specs.List.{flat_map};
ghost use Rattle.ops_base.specs.WorkingMemory.{HasRisingTags, shown};
ghost use Rattle.ops_io.specs.Ports.{port, PutsBytes};
ghost use Rattle.ops_meaning.specs.Effects.{Performs, of_ending};
ghost use Rattle.ops_meaning.specs.Layout.{lines_at, partial_text};
ghost use Rattle.ops_meaning.specs.Partials.{all_partial_lines, left_side};
ghost use Rattle.ops_meaning.specs.Running.{Session as Meant, lists, matches_told};
ghost use Rattle.session.specs.Courses.{IsUnderWay, ends_unread};
ghost use Rattle.session.specs.Deeds.{Does, PutsOrStops};

use crate::session::Session;
use live_rules::rule_named;
use ops_base::elements::Element;
use ops_base::endings::Ending;
use ops_base::list::Listed;
use ops_base::programs::Program;
use ops_base::symbols::Names;
use ops_base::values::Sym;
use ops_io::{Out, Sink, Stop, WriteFailed};
use ops_print::{put_name_line, put_partial_line};
use std::alloc::Global;
use why::upto;
use work_store::{Matcher, Store};

/// Puts the lines of these partial matches of a production's first parts. Allocates nothing.
fn put_found<K: Sink>(
    out: &mut Out,
    sink: &mut K,
    names: &Names,
    name: &Sym,
    parts: usize,
    found: &[Listed<u64>],
) -> Result<(), WriteFailed>
    requires whole { IsTrue out.old.whole }
    requires faults { K.faults sink.old < 2 ^ 63 }
    ensures { PutsBytes result (port (K.taken sink.old) (K.faults sink.old) out.old)
        (port (K.taken sink.new) (K.faults sink.new) out.new)
        (lines_at out.old.column (map (partial_text names.now name.now parts) found.now)) }
{
    for tags in found {
        put_partial_line(out, sink, names, name, parts, tags.as_slice())?;
    }
    Ok(())
}

/// How many parts the left side of the production with this number has.
fn count_of_parts(program: &Program, rule: usize) -> usize
    ensures { result ≡ length (left_side program.now.rules rule) }
{
    match program.rules.as_slice().get(rule) {
        Some(rule) => rule.conditions.len(),
        None => 0,
    }
}

/// Puts the lines of the partial matches of the production with this number. Matches its first part, its first two
/// parts, and so on, each time from the start.
fn put_all<K: Sink>(
    alloc: Global,
    names: &Names,
    program: &Program,
    wm: &[&Element],
    name: &Sym,
    rule: usize,
    out: &mut Out,
    sink: &mut K,
) -> Result<(), Stop>
    requires there { rule < length program.now.rules }
    requires rising { HasRisingTags (shown wm.now) }
    requires whole { IsTrue out.old.whole }
    requires faults { K.faults sink.old < 2 ^ 63 }
    ensures { PutsOrStops result (port (K.taken sink.old) (K.faults sink.old) out.old)
        (port (K.taken sink.new) (K.faults sink.new) out.new)
        (lines_at out.old.column (all_partial_lines names.now name.now (shown wm.now) (left_side program.now.rules rule))) }
{
    let count = count_of_parts(program, rule);
    for met in 0..count {
        let found = upto(alloc, program, wm, rule, met + 1)?;
        put_found(out, sink, names, name, met + 1, found.as_slice())?;
    }
    Ok(())
}

/// Puts the lines of the partial matches of the production with this name, or writes that there is none.
fn put_of_name<K: Sink>(
    alloc: Global,
    names: &Names,
    program: &Program,
    wm: &[&Element],
    name: &Sym,
    out: &mut Out,
    sink: &mut K,
) -> Result<(), Stop>
    requires rising { HasRisingTags (shown wm.now) }
    requires whole { IsTrue out.old.whole }
    requires faults { K.faults sink.old < 2 ^ 63 }
    ensures { PutsOrStops result (port (K.taken sink.old) (K.faults sink.old) out.old)
        (port (K.taken sink.new) (K.faults sink.new) out.new)
        (lines_at out.old.column (matches_told names.now program.now.rules (shown wm.now) name.now)) }
{
    match rule_named(program.rules.as_slice(), *name) {
        Some(rule) => put_all(alloc, names, program, wm, name, rule, out, sink),
        None => Ok(put_name_line(out, sink, names, b"no production ", name)?),
    }
}

/// The same for several names.
fn put_of_names<K: Sink>(
    alloc: Global,
    names: &Names,
    program: &Program,
    wm: &[&Element],
    given: &[Sym],
    out: &mut Out,
    sink: &mut K,
) -> Result<(), Stop>
    requires rising { HasRisingTags (shown wm.now) }
    requires whole { IsTrue out.old.whole }
    requires faults { K.faults sink.old < 2 ^ 63 }
    ensures { PutsOrStops result (port (K.taken sink.old) (K.faults sink.old) out.old)
        (port (K.taken sink.new) (K.faults sink.new) out.new)
        (lines_at out.old.column (flat_map (matches_told names.now program.now.rules (shown wm.now)) given.now)) }
{
    for name in given {
        put_of_name(alloc, names, program, wm, name, out, sink)?;
    }
    Ok(())
}

/// The same, with out of memory and a refused write as endings.
fn put_listed<K: Sink>(
    alloc: Global,
    names: &Names,
    program: &Program,
    wm: &[&Element],
    given: &[Sym],
    out: &mut Out,
    sink: &mut K,
) -> Result<(), Ending>
    requires rising { HasRisingTags (shown wm.now) }
    requires whole { IsTrue out.old.whole }
    requires faults { K.faults sink.old < 2 ^ 63 }
    ensures performs { (k : Meant) → Performs (λ _. k) of_ending result (port (K.taken sink.old) (K.faults sink.old) out.old)
        (port (K.taken sink.new) (K.faults sink.new) out.new)
        (lists out.old.column (flat_map (matches_told names.now program.now.rules (shown wm.now)) given.now) k) }
    ensures reads { ends_unread result ≡ false }
{
    match put_of_names(alloc, names, program, wm, given, out, sink) {
        Ok(()) => Ok(()),
        Err(Stop::Write) => Err(Ending::WriteFault),
        Err(Stop::OutOfMemory) => Err(Ending::OutOfMemory),
    }
}

/// The same, over the elements of a store. Makes a reference to each element.
fn put_matches<K: Sink>(
    alloc: Global,
    names: &Names,
    program: &Program,
    store: &Store,
    given: &[Sym],
    out: &mut Out,
    sink: &mut K,
) -> Result<(), Ending>
    requires whole { IsTrue out.old.whole }
    requires faults { K.faults sink.old < 2 ^ 63 }
    ensures performs { (k : Meant) → Performs (λ _. k) of_ending result (port (K.taken sink.old) (K.faults sink.old) out.old)
        (port (K.taken sink.new) (K.faults sink.new) out.new)
        (lists out.old.column (flat_map (matches_told names.now program.now.rules store.now.elements) given.now) k) }
    ensures reads { ends_unread result ≡ false }
{
    let wm = store.present(alloc)?;
    put_listed(alloc, names, program, wm.as_slice(), given, out, sink)
}

/// The command `matches`: lists the partial matches of the productions with these names.
pub(crate) fn list_matches<M: Matcher, K: Sink>(
    alloc: Global,
    program: &Program,
    names: &Names,
    session: Session<M>,
    given: &Listed<Sym>,
    out: &mut Out,
    sink: &mut K,
) -> Result<Session<M>, Ending>
    requires under_way { IsUnderWay M.stored M.stands_for program.now.rules session }
    requires none_waits { session.pending ≡ [] }
    requires whole { IsTrue out.old.whole }
    requires faults { K.faults sink.old < 2 ^ 63 }
    ensures { Does M.stored M.stands_for program.now.rules names.now session result
        (port (K.taken sink.old) (K.faults sink.old) out.old)
        (port (K.taken sink.new) (K.faults sink.new) out.new)
        (λ k. lists out.old.column (flat_map (matches_told k.course.names program.now.rules k.course.wm) given.now) k) }
{
    let given = given.as_slice();
    put_matches(
        alloc,
        names,
        program,
        session.state.store(),
        given,
        out,
        sink,
    )?;
    Ok(session)
}
