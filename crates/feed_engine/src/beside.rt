//! A right side whose changes are settled beside the actions that wait for input.
ghost use Rattle.std.specs.Prelude.{◌≡◌, List, ◌≤◌, ◌<◌, ◌+◌, ◌-◌, ◌^◌, [], true, drop, length, slice_get, All, IsTrue, IfOk, IfErr, OnOk, Some, IsSome, IfSome, None, Ok};
ghost use Rattle.ops_base.specs.declared.actions.Action.{Action};
ghost use Rattle.ops_base.specs.declared.rules.Rule.{Rule};
ghost use Rattle.ops_base.specs.WorkingMemory.{Lawful, done, last_after, tags_of};
ghost use Rattle.ops_meaning.specs.Acting.{acted, action_done, in_action};
ghost use Rattle.ops_meaning.specs.Effects.{told_as};
ghost use Rattle.ops_meaning.specs.Kept.{WellKept};
ghost use Rattle.act_phase.specs.Deeds.{Does, scene};
ghost use Rattle.act_phase.specs.Excerpts.{IsExcerpt};
ghost use Rattle.act_phase.specs.Outcomes.{acted_of, failure_of, is_read, is_unread, setting_of};
ghost use Rattle.act_phase.specs.State.{doing_of};
ghost use Rattle.work_store.specs.Settling.{IsSettled};
ghost use Rattle.cycle.specs.Settles.{Settles};
ghost use Rattle.feed_engine.specs.Feeding.{IsFed, IsFurther, DoesNext, told_of_both, told_with_short};

use crate::feed::Feed;
use act_phase::{ActFault, Acted, Acting, asks};
use ops_base::actions::Action;
use ops_base::elements::Change;
use ops_base::memory::OutOfMemory;
use ops_base::programs::Program;
use ops_base::symbols::Names;
use ops_io::{Input, Out, Sink, Source};
use std::alloc::Global;
use std::thread::{Threads, join_mut};
use work_store::{Matcher, Settled, Store};

/// What does not change while a right side is executed.
#[derive(Clone, Copy)]
pub(crate) struct Ground<'a, R, H> {
    pub(crate) rt: &'a R,
    pub(crate) alloc: Global,
    /// Settles the matcher.
    pub(crate) settle: &'a H,
    pub(crate) program: &'a Program,
    /// The trace level.
    pub(crate) watch: u8,
}

fn copy_of_change(alloc: Global, change: &Change) -> Result<Change, OutOfMemory>
    ensures { IfOk result (λ c. c ≡ change.now) }
{
    match change {
        Change::Add(element) => Ok(Change::Add(element.copy(alloc)?)),
        Change::Remove(tag) => Ok(Change::Remove(*tag)),
    }
}

/// Copies of these changes.
fn copies(alloc: Global, changes: &[Change]) -> Result<Vec<Change>, OutOfMemory>
    ensures { IfOk result (λ v. v.items ≡ changes.now) }
{
    let mut copies = Vec::new(alloc);
    for change in changes {
        copies.push(copy_of_change(alloc, change)?)?;
    }
    Ok(copies)
}

/// The fault to report of an action if the settle beside it ran out of memory: a device's fault comes first.
fn told_with_short(acted: Result<(), ActFault>) -> ActFault
    ensures { result ≡ told_with_short acted }
{
    match acted {
        Ok(()) => ActFault::OutOfMemory,
        Err(ActFault::Bad { .. }) => ActFault::OutOfMemory,
        Err(ActFault::Read) => ActFault::Read,
        Err(ActFault::Write) => ActFault::Write,
        Err(ActFault::OutOfMemory) => ActFault::OutOfMemory,
    }
}

/// The fault to report of a settle and an action that ran beside each other: first a device's fault, then out of memory
/// in the settle, and then any other fault of the action. If both succeeded, the settle's result.
fn told_of_both<M: Matcher>(
    settled: Result<Feed<M>, OutOfMemory>,
    acted: Result<(), ActFault>,
) -> Result<Feed<M>, ActFault>
    ensures ok { IfOk result (λ f. (settled ≡ Ok f) × (told_of_both settled acted ≡ None)) }
    ensures err { IfErr result (λ f. told_of_both settled acted ≡ Some f) }
{
    match settled {
        Ok(feed) => match acted {
            Ok(()) => Ok(feed),
            Err(fault) => Err(fault),
        },
        Err(_) => Err(told_with_short(acted)),
    }
}

/// Settles the matcher that waits by these changes, and takes it out of its place.
fn settle_waiting<M: Matcher, H: Fn(M, &[Change]) -> Result<Settled<M>, OutOfMemory>>(
    alloc: Global,
    settle: &H,
    waiting: &mut Option<Feed<M>>,
    more: &[Change],
) -> Result<Feed<M>, OutOfMemory>
    requires settles { Settles M.stored M.found M.stands_for (λ m cs. H.pre settle.now m cs) (λ m cs r. H.post settle.now m cs r) }
    requires waits { IsSome waiting.old }
    requires lawful { IfSome waiting.old (λ f. Lawful (M.stored f.matcher).elements (M.stored f.matcher).last more.now) }
    ensures { IfOk result (λ r. IfSome waiting.old (λ f. IsFed M.stored M.found M.stands_for more.now f r)) }
{
    match waiting.take() {
        Some(feed) => feed.settle(alloc, settle, more),
        None => unreachable!(),
    }
}

/// Executes the next action, which is this one.
fn act_next<I: Source, K: Sink>(
    acting: &mut Acting<'_>,
    action: &Action,
    names: &mut Names,
    input: &mut Input,
    source: &mut I,
    out: &mut Out,
    sink: &mut K,
) -> Result<(), ActFault>
    requires some { acting.old.done < length acting.old.actions }
    requires next { slice_get acting.old.actions acting.old.done ≡ Some action.now }
    requires whole { IsTrue out.old.whole }
    requires writes { K.faults sink.old < 2 ^ 63 }
    requires reads { I.faults source.old < 2 ^ 63 }
    ensures does { DoesNext action.now acting.old acting.new result
        (scene names.old input.old (I.left source.old) (I.faults source.old) (K.taken sink.old) (K.faults sink.old) out.old)
        (scene names.new input.new (I.left source.new) (I.faults source.new) (K.taken sink.new) (K.faults sink.new) out.new) }
    ensures written { is_unread result ≡ true → out.new.held ≡ [] }
    ensures done { OnOk result (acting.new.done ≡ acting.old.done + 1) }
    ensures actions { acting.new.actions ≡ acting.old.actions }
    ensures setting { acting.new.state.setting ≡ acting.old.state.setting }
{
    // only the proof needs the action by its name
    let _asks = asks(action);
    acting.next(names, input, source, out, sink)
}

/// Settles these changes on a new thread, while this thread executes the next action, which is this one. If no thread
/// can be started, they are settled after the action.
pub(crate) fn settle_beside<
    R: Threads,
    M: Matcher + Send,
    H: Fn(M, &[Change]) -> Result<Settled<M>, OutOfMemory> + Sync,
    I: Source,
    K: Sink,
>(
    ground: &Ground<'_, R, H>,
    feed: Feed<M>,
    more: &[Change],
    acting: &mut Acting<'_>,
    action: &Action,
    names: &mut Names,
    input: &mut Input,
    source: &mut I,
    out: &mut Out,
    sink: &mut K,
) -> (Result<Feed<M>, OutOfMemory>, Result<(), ActFault>)
    requires settles { Settles M.stored M.found M.stands_for (λ m cs. H.pre ground.now.settle.now m cs) (λ m cs r. H.post ground.now.settle.now m cs r) }
    requires lawful { Lawful (M.stored feed.matcher).elements (M.stored feed.matcher).last more.now }
    requires some { acting.old.done < length acting.old.actions }
    requires next { slice_get acting.old.actions acting.old.done ≡ Some action.now }
    requires whole { IsTrue out.old.whole }
    requires writes { K.faults sink.old < 2 ^ 63 }
    requires reads { I.faults source.old < 2 ^ 63 }
    ensures fed { IfOk result.0 (IsFed M.stored M.found M.stands_for more.now feed) }
    ensures does { DoesNext action.now acting.old acting.new result.1
        (scene names.old input.old (I.left source.old) (I.faults source.old) (K.taken sink.old) (K.faults sink.old) out.old)
        (scene names.new input.new (I.left source.new) (I.faults source.new) (K.taken sink.new) (K.faults sink.new) out.new) }
    ensures written { is_unread result.1 ≡ true → out.new.held ≡ [] }
    ensures done { OnOk result.1 (acting.new.done ≡ acting.old.done + 1) }
    ensures actions { acting.new.actions ≡ acting.old.actions }
    ensures setting { acting.new.state.setting ≡ acting.old.state.setting }
{
    let alloc = ground.alloc;
    let hand = ground.settle;
    let mut waiting = Some(feed);
    let mut settle = || settle_waiting(alloc, hand, &mut waiting, more);
    let mut act = || act_next(acting, action, names, input, source, out, sink);
    join_mut(ground.rt, &mut settle, &mut act)
}

/// Executes the next action, which is this one. If it waits for input while changes are not settled, these are settled
/// beside it. Also returns how many changes are settled.
pub(crate) fn do_next<
    R: Threads,
    M: Matcher + Send,
    H: Fn(M, &[Change]) -> Result<Settled<M>, OutOfMemory> + Sync,
    I: Source,
    K: Sink,
>(
    ground: &Ground<'_, R, H>,
    action: &Action,
    feed: Feed<M>,
    settled: usize,
    acting: &mut Acting<'_>,
    names: &mut Names,
    input: &mut Input,
    source: &mut I,
    out: &mut Out,
    sink: &mut K,
) -> Result<(Feed<M>, usize), ActFault>
    requires settles { Settles M.stored M.found M.stands_for (λ m cs. H.pre ground.now.settle.now m cs) (λ m cs r. H.post ground.now.settle.now m cs r) }
    requires within { settled ≤ length acting.old.state.working.changes }
    requires lawful { Lawful (M.stored feed.matcher).elements (M.stored feed.matcher).last (drop settled acting.old.state.working.changes) }
    requires some { acting.old.done < length acting.old.actions }
    requires next { slice_get acting.old.actions acting.old.done ≡ Some action.now }
    requires whole { IsTrue out.old.whole }
    requires writes { K.faults sink.old < 2 ^ 63 }
    requires reads { I.faults source.old < 2 ^ 63 }
    ensures further { IfOk result (λ r. IsFurther M.stored M.found M.stands_for acting.old.state.working.changes settled feed r.1 r.0) }
    ensures does { DoesNext action.now acting.old acting.new result
        (scene names.old input.old (I.left source.old) (I.faults source.old) (K.taken sink.old) (K.faults sink.old) out.old)
        (scene names.new input.new (I.left source.new) (I.faults source.new) (K.taken sink.new) (K.faults sink.new) out.new) }
    ensures written { is_unread result ≡ true → out.new.held ≡ [] }
    ensures done { OnOk result (acting.new.done ≡ acting.old.done + 1) }
    ensures actions { acting.new.actions ≡ acting.old.actions }
    ensures setting { acting.new.state.setting ≡ acting.old.state.setting }
{
    let count = acting.changes().len();
    if settled == count || !asks(action) {
        act_next(acting, action, names, input, source, out, sink)?;
        return Ok((feed, settled));
    }
    let more = copies(ground.alloc, &acting.changes()[settled..])?;
    let (fed, acted) = settle_beside(
        ground,
        feed,
        more.as_slice(),
        acting,
        action,
        names,
        input,
        source,
        out,
        sink,
    );
    let feed = told_of_both(fed, acted)?;
    Ok((feed, count))
}
