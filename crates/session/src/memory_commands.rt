//! The commands that change working memory. Each is one phase.
ghost use Rattle.std.specs.Prelude.{◌≡◌, ◌^◌, ◌<◌, ◌+◌, ◌++◌, ◌&&◌, [], ◌∷◌, not, map, true, None, IsTrue, IfOk};
ghost use Rattle.std.specs.BTreeSet.{contains};
ghost use Rattle.std.specs.Ordering.{nat_cmp};
ghost use Rattle.ops_base.specs.Names.{Spellings};
ghost use Rattle.ops_base.specs.ConflictSet.{conflict_set};
ghost use Rattle.ops_base.specs.WorkingMemory.{HasRisingTags, Lawful, last_after, tags_of};
ghost use Rattle.ops_io.specs.Coming.{Coming};
ghost use Rattle.ops_io.specs.Ports.{port};
ghost use Rattle.ops_meaning.specs.Acting.{has_tag};
ghost use Rattle.ops_meaning.specs.Running.{element_made, phase_by, phase_done, removals, with_course};
ghost use Rattle.act_phase.specs.Outcomes.{setting_of};
ghost use Rattle.cycle.specs.Settles.{Settles};
ghost use Rattle.session.specs.Courses.{IsUnderWay, meant_by};
ghost use Rattle.session.specs.Deeds.{Does};
ghost use Rattle.session.specs.Traces.{AreToldBy};

use crate::bounds::UNREACHED;
use crate::context::RunContext;
use crate::elements::fixed_element;
use crate::session::Session;
use crate::traces::{tell, tell_made};
use ops_base::commands::Fixed;
use ops_base::elements::{Change, Element};
use ops_base::endings::Ending;
use ops_base::list::Listed;
use ops_base::memory::OutOfMemory;
use ops_base::symbols::Names;
use ops_io::{Out, Sink};
use std::alloc::Global;
use std::collections::BTreeSet;
use work_store::{Matcher, Settled, Store};

/// The tag of the next element. If there is none, out of memory is reported.
fn next_tag(last: u64) -> Result<u64, OutOfMemory>
    ensures { IfOk result (λ tag. tag ≡ last + 1) }
{
    if last < UNREACHED {
        Ok(last + 1)
    } else {
        Err(OutOfMemory)
    }
}

/// Makes changes in their order, as one phase.
fn change<M: Matcher, H: Fn(M, &[Change]) -> Result<Settled<M>, OutOfMemory>, A>(
    context: &RunContext<'_, H, A>,
    session: Session<M>,
    changes: &[Change],
) -> Result<Session<M>, OutOfMemory>
    requires settles { Settles M.stored M.found M.stands_for (λ m cs. H.pre context.now.settle.now m cs) (λ m cs r. H.post context.now.settle.now m cs r) }
    requires under_way { IsUnderWay M.stored M.stands_for context.now.program.now.rules session }
    requires settled { session.pending ≡ [] }
    requires current { session.moved ≡ None }
    requires lawful { Lawful (M.stored session.state.matcher).elements (M.stored session.state.matcher).last changes.now }
    ensures meant { IfOk result (λ s. (n : Spellings) (c : Coming) → meant_by M.stored context.now.program.now.rules s n c
        ≡ (let k = meant_by M.stored context.now.program.now.rules session n c in with_course k
        (phase_by (conflict_set context.now.program.now.rules) changes.now k.course.firings (last_after k.course.last changes.now) k.course))) }
    ensures under_way { IfOk result (IsUnderWay M.stored M.stands_for context.now.program.now.rules) }
{
    let state = session
        .state
        .change(context.settle, context.program, changes)?;
    let last_tag = state.last_tag();
    Ok(Session {
        state,
        last_tag,
        ..session
    })
}

/// One phase. Its changes are printed first if elements are traced.
fn phase<M: Matcher, H: Fn(M, &[Change]) -> Result<Settled<M>, OutOfMemory>, A, K: Sink>(
    context: &RunContext<'_, H, A>,
    names: &Names,
    session: Session<M>,
    changes: &[Change],
    out: &mut Out,
    sink: &mut K,
) -> Result<Session<M>, Ending>
    requires settles { Settles M.stored M.found M.stands_for (λ m cs. H.pre context.now.settle.now m cs) (λ m cs r. H.post context.now.settle.now m cs r) }
    requires under_way { IsUnderWay M.stored M.stands_for context.now.program.now.rules session }
    requires settled { session.pending ≡ [] }
    requires current { session.moved ≡ None }
    requires lawful { Lawful (M.stored session.state.matcher).elements (M.stored session.state.matcher).last changes.now }
    requires told { AreToldBy (M.stored session.state.matcher).elements changes.now }
    requires whole { IsTrue out.old.whole }
    requires faults { K.faults sink.old < 2 ^ 63 }
    ensures { Does M.stored M.stands_for context.now.program.now.rules names.now session result
        (port (K.taken sink.old) (K.faults sink.old) out.old)
        (port (K.taken sink.new) (K.faults sink.new) out.new)
        (λ k. phase_done (setting_of context.now.program.now 0) out.old.column changes.now (last_after k.course.last changes.now) k) }
{
    tell(
        out,
        sink,
        names,
        context.program,
        session.watch,
        session.state.store(),
        changes,
    )?;
    Ok(change(context, session, changes)?)
}

/// Adds an element to those that wait for their phase.
fn add_pending<M: Matcher>(session: Session<M>, made: Element) -> Result<Session<M>, OutOfMemory>
    ensures { IfOk result (λ s. s ≡ record session { pending = session.pending ++ Change.Add made ∷ []; last_tag = made.tag }) }
{
    let mut session = session;
    session.last_tag = made.tag;
    session.pending.push(Change::Add(made))?;
    Ok(session)
}

/// Makes an element, which is one phase. Before the first run, the phase waits. If elements are traced, the line is
/// printed at once.
fn make_one<M: Matcher, H: Fn(M, &[Change]) -> Result<Settled<M>, OutOfMemory>, A, K: Sink>(
    context: &RunContext<'_, H, A>,
    names: &Names,
    session: Session<M>,
    class: usize,
    puts: &Listed<Fixed>,
    out: &mut Out,
    sink: &mut K,
) -> Result<Session<M>, Ending>
    requires settles { Settles M.stored M.found M.stands_for (λ m cs. H.pre context.now.settle.now m cs) (λ m cs r. H.post context.now.settle.now m cs r) }
    requires under_way { IsUnderWay M.stored M.stands_for context.now.program.now.rules session }
    requires current { session.ran ≡ true → session.moved ≡ None }
    requires whole { IsTrue out.old.whole }
    requires faults { K.faults sink.old < 2 ^ 63 }
    ensures { Does M.stored M.stands_for context.now.program.now.rules names.now session result
        (port (K.taken sink.old) (K.faults sink.old) out.old)
        (port (K.taken sink.new) (K.faults sink.new) out.new)
        (λ k. phase_done (setting_of context.now.program.now 0) out.old.column
        (Change.Add (element_made context.now.program.now.classes class puts.now k.course) ∷ []) (k.course.last + 1) k) }
{
    let tag = next_tag(session.last_tag)?;
    let made = fixed_element(context.alloc, context.program, tag, class, puts.as_slice())?;
    if session.ran {
        let changes = [Change::Add(made)];
        return phase(context, names, session, &changes, out, sink);
    }
    tell_made(out, sink, names, context.program, session.watch, &made)?;
    Ok(add_pending(session, made)?)
}

/// The command `make`, which is one phase. Before the first run, the phase waits. If elements are traced, the line is
/// printed at once.
pub(crate) fn make_at_top<
    M: Matcher,
    H: Fn(M, &[Change]) -> Result<Settled<M>, OutOfMemory>,
    A,
    K: Sink,
>(
    context: &RunContext<'_, H, A>,
    names: &Names,
    session: Session<M>,
    class: usize,
    puts: &Listed<Fixed>,
    out: &mut Out,
    sink: &mut K,
) -> Result<Session<M>, Ending>
    requires settles { Settles M.stored M.found M.stands_for (λ m cs. H.pre context.now.settle.now m cs) (λ m cs r. H.post context.now.settle.now m cs r) }
    requires under_way { IsUnderWay M.stored M.stands_for context.now.program.now.rules session }
    requires current { session.ran ≡ true → session.moved ≡ None }
    requires whole { IsTrue out.old.whole }
    requires faults { K.faults sink.old < 2 ^ 63 }
    ensures { Does M.stored M.stands_for context.now.program.now.rules names.now session result
        (port (K.taken sink.old) (K.faults sink.old) out.old)
        (port (K.taken sink.new) (K.faults sink.new) out.new)
        (λ k. phase_done (setting_of context.now.program.now 0) out.old.column
        (Change.Add (element_made context.now.program.now.classes class puts.now k.course) ∷ []) (k.course.last + 1) k) }
{
    make_one(context, names, session, class, puts, out, sink)
}

/// Whether an element with this tag is present.
fn is_present(store: &Store, tag: u64) -> bool
    ensures { result ≡ has_tag store.now.elements tag }
{
    store.get(tag).is_some()
}

/// Whether the element with this tag is present and was not named before.
fn is_left(store: &Store, named: &BTreeSet<u64>, tag: u64) -> bool
    ensures { result ≡ (has_tag store.now.elements tag && not (contains nat_cmp named.now tag)) }
{
    is_present(store, tag) && !named.contains(&tag)
}

/// The removals of these tags in their order. A tag that is absent or was named before is ignored. Each tag is looked
/// up: for n tags, this takes time in proportion to n log n.
fn removals(alloc: Global, store: &Store, tags: &[u64]) -> Result<Listed<Change>, OutOfMemory>
    ensures { IfOk result (λ changes. changes ≡ removals store.now.elements tags.now) }
{
    let mut named = BTreeSet::new(alloc);
    let mut changes = Listed::new(alloc);
    for tag in tags {
        if !is_left(store, &named, *tag) {
            continue;
        }
        named.insert(*tag)?;
        changes.push(Change::Remove(*tag))?;
    }
    Ok(changes)
}

/// The removals of all elements, in the order of their tags.
fn all_removals(alloc: Global, store: &Store) -> Result<Listed<Change>, OutOfMemory>
    ensures changes { IfOk result (λ changes. changes ≡ map Change.Remove (tags_of store.now.elements)) }
    ensures rising { HasRisingTags store.now.elements }
{
    // reads the store to get at its invariant
    let _last = store.last();
    let mut changes = Listed::new(alloc);
    for element in store.iter() {
        changes.push(Change::Remove(element.tag))?;
    }
    Ok(changes)
}

/// The command `remove` with tags: removes their elements, as one phase.
pub(crate) fn remove<
    M: Matcher,
    H: Fn(M, &[Change]) -> Result<Settled<M>, OutOfMemory>,
    A,
    K: Sink,
>(
    context: &RunContext<'_, H, A>,
    names: &Names,
    session: Session<M>,
    tags: &Listed<u64>,
    out: &mut Out,
    sink: &mut K,
) -> Result<Session<M>, Ending>
    requires settles { Settles M.stored M.found M.stands_for (λ m cs. H.pre context.now.settle.now m cs) (λ m cs r. H.post context.now.settle.now m cs r) }
    requires under_way { IsUnderWay M.stored M.stands_for context.now.program.now.rules session }
    requires settled { session.pending ≡ [] }
    requires current { session.moved ≡ None }
    requires whole { IsTrue out.old.whole }
    requires faults { K.faults sink.old < 2 ^ 63 }
    ensures { Does M.stored M.stands_for context.now.program.now.rules names.now session result
        (port (K.taken sink.old) (K.faults sink.old) out.old)
        (port (K.taken sink.new) (K.faults sink.new) out.new)
        (λ k. phase_done (setting_of context.now.program.now 0) out.old.column (removals k.course.wm tags.now) k.course.last k) }
{
    let changes = removals(context.alloc, session.state.store(), tags.as_slice())?;
    phase(context, names, session, changes.as_slice(), out, sink)
}

/// The command `remove *`: removes all elements, as one phase.
pub(crate) fn remove_all<
    M: Matcher,
    H: Fn(M, &[Change]) -> Result<Settled<M>, OutOfMemory>,
    A,
    K: Sink,
>(
    context: &RunContext<'_, H, A>,
    names: &Names,
    session: Session<M>,
    out: &mut Out,
    sink: &mut K,
) -> Result<Session<M>, Ending>
    requires settles { Settles M.stored M.found M.stands_for (λ m cs. H.pre context.now.settle.now m cs) (λ m cs r. H.post context.now.settle.now m cs r) }
    requires under_way { IsUnderWay M.stored M.stands_for context.now.program.now.rules session }
    requires settled { session.pending ≡ [] }
    requires current { session.moved ≡ None }
    requires whole { IsTrue out.old.whole }
    requires faults { K.faults sink.old < 2 ^ 63 }
    ensures { Does M.stored M.stands_for context.now.program.now.rules names.now session result
        (port (K.taken sink.old) (K.faults sink.old) out.old)
        (port (K.taken sink.new) (K.faults sink.new) out.new)
        (λ k. phase_done (setting_of context.now.program.now 0) out.old.column (map Change.Remove (tags_of k.course.wm)) k.course.last k) }
{
    let changes = all_removals(context.alloc, session.state.store())?;
    phase(context, names, session, changes.as_slice(), out, sink)
}
