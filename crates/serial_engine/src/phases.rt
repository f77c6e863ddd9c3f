//! A phase at work: changes are fed, and tasks are performed, each with all tasks that result from it.
ghost use Rattle.std.specs.Prelude.{◌≡◌, ◌≤◌, ◌<◌, ◌+◌, ◌-◌, ℕ, IfOk, OnOk, [], false, length, map, remove, All, None};
ghost use Rattle.ops_base.specs.WorkingMemory.{HasRisingTags, Lawful, done, last_after};
ghost use Rattle.work_store.specs.Settling.{IsSettled};
ghost use Rattle.work_store.specs.Stored.{HoldsAlso, added_by, held_of};
ghost use Rattle.net_base.specs.declared.tasks.Task.{Task};
ghost use Rattle.activation.specs.Acting.{IsCounted};
ghost use Rattle.step_core.specs.Feeding.{IsKnown};
ghost use Rattle.step_core.specs.Found.{found_over};
ghost use Rattle.step_core.specs.Phases.{HoldJust, IsBundle, now, sums_over};
ghost use Rattle.step_core.specs.Settling.{HoldsPhase};
ghost use Rattle.step_core.specs.Working.{IsLast, but_last};
ghost use Rattle.step_core.specs.Worlds.{IsReady, numbers_of, placed, seen, world_of};
ghost use Rattle.serial_engine.specs.Running.{IsBundleOf, Went, is_full};

use net_base::net::Net;
use ops_base::elements::Change;
use ops_base::memory::OutOfMemory;
use std::alloc::Global;
use step_core::laws::{match_laws, settle_laws};
use step_core::{Gathered, World, gather_worked};
use work_store::Store;

/// While changes are fed, once this many tasks are in flight they are performed before the next change is fed. So a
/// phase of many changes holds a few hundred kilobytes of tasks at a time, which fit in the processor's caches, and
/// not everything that its changes feed.
pub(crate) const TASKS_AT_ONCE: usize = 4_096;

/// Whether this many tasks are in flight, if a limit is given.
fn is_full(world: &World, most: Option<usize>) -> bool
    ensures { result ≡ is_full most (length world.now.flight.items) }
{
    match most {
        Some(most) => most <= world.in_flight(),
        None => false,
    }
}

/// Performs the last task in flight and then all tasks that result, down to the terminals; or stops when as many
/// tasks are in flight as the limit, if one is given. `enter` gets the line of each task just before it is performed.
fn work_down<F: Fn(usize)>(
    alloc: Global,
    net: &Net,
    store: &Store,
    enter: &F,
    world: &mut World,
    most: Option<usize>,
    levels: usize,
) -> Result<(), OutOfMemory>
    requires enter { F.IsAlwaysCallable enter.now }
    requires ready { IsReady net.now.nodes store.now world.old }
    requires some { 1 ≤ length world.old.flight.items }
    requires deep { (x : Task) → IsLast world.old x → length net.now.nodes ≤ levels + x.node }
    ensures went { OnOk result (Went net.now.alphas net.now.nodes store.now (length world.old.lines.items) world.old [] world.new) }
    ensures flight { OnOk result (is_full most (length world.new.flight.items) ≡ false → world.new.flight.items ≡ but_last world.old.flight.items) }
    ensures done { OnOk result ((world_of world.new).done ≡ (world_of world.old).done) }
    ensures ready { IsReady net.now.nodes store.now world.new }
    ensures lines { numbers_of world.new ≡ numbers_of world.old }
{
    settle_laws();
    let rest = world.in_flight() - 1;
    world.work(alloc, net, store, enter)?;
    let children = world.in_flight() - rest;
    for _child in 0..children {
        if is_full(world, most) {
            return Ok(());
        }
        work_down(alloc, net, store, enter, world, most, levels - 1)?;
    }
    Ok(())
}

/// Performs all tasks in flight and all that result, starting with the last; or stops when as many are in flight as
/// the limit, if one is given. The cost is that of its tasks. `enter` gets the line of each task just before it is
/// performed.
pub fn work_all<F: Fn(usize)>(
    alloc: Global,
    net: &Net,
    store: &Store,
    enter: &F,
    world: &mut World,
    most: Option<usize>,
) -> Result<(), OutOfMemory>
    requires enter { F.IsAlwaysCallable enter.now }
    requires ready { IsReady net.now.nodes store.now world.old }
    ensures went { OnOk result (Went net.now.alphas net.now.nodes store.now (length world.old.lines.items) world.old [] world.new) }
    ensures flight { OnOk result (is_full most (length world.new.flight.items) ≡ false → world.new.flight.items ≡ []) }
    ensures done { OnOk result ((world_of world.new).done ≡ (world_of world.old).done) }
    ensures ready { IsReady net.now.nodes store.now world.new }
    ensures lines { numbers_of world.new ≡ numbers_of world.old }
{
    let levels = net.nodes().len();
    for _task in 0..world.in_flight() {
        if is_full(world, most) {
            return Ok(());
        }
        work_down(alloc, net, store, enter, world, most, levels)?;
    }
    Ok(())
}

/// Puts the tasks of all changes into flight, in the order of the changes.
fn feed_all(
    alloc: Global,
    net: &Net,
    store: &Store,
    world: &mut World,
    changes: &[Change],
) -> Result<(), OutOfMemory>
    requires ready { IsReady net.now.nodes store.now world.old }
    requires known { All (IsKnown store.now) changes.now }
    ensures went { OnOk result (Went net.now.alphas net.now.nodes store.now (length world.old.lines.items) world.old changes.now world.new) }
    ensures done { OnOk result ((world_of world.new).done ≡ (world_of world.old).done) }
    ensures ready { IsReady net.now.nodes store.now world.new }
    ensures lines { numbers_of world.new ≡ numbers_of world.old }
{
    for change in changes {
        world.feed(alloc, net, store, change)?;
    }
    Ok(())
}

/// Performs the task in flight whose place is the pick modulo their number, if there is any. Its children are put
/// after the others.
fn work_picked<F: Fn(usize)>(
    alloc: Global,
    net: &Net,
    store: &Store,
    enter: &F,
    world: &mut World,
    pick: usize,
) -> Result<(), OutOfMemory>
    requires enter { F.IsAlwaysCallable enter.now }
    requires ready { IsReady net.now.nodes store.now world.old }
    ensures went { OnOk result (Went net.now.alphas net.now.nodes store.now (length world.old.lines.items) world.old [] world.new) }
    ensures done { OnOk result ((world_of world.new).done ≡ (world_of world.old).done) }
    ensures ready { IsReady net.now.nodes store.now world.new }
    ensures lines { numbers_of world.new ≡ numbers_of world.old }
{
    let tasks = world.in_flight();
    if tasks == 0 {
        return Ok(());
    }
    let index = pick % tasks;
    world.work_at(alloc, net, store, enter, index)?;
    Ok(())
}

/// Performs one task in flight for each pick, as long as there is one.
fn work_picks<F: Fn(usize)>(
    alloc: Global,
    net: &Net,
    store: &Store,
    enter: &F,
    world: &mut World,
    picks: &[usize],
) -> Result<(), OutOfMemory>
    requires enter { F.IsAlwaysCallable enter.now }
    requires ready { IsReady net.now.nodes store.now world.old }
    ensures went { OnOk result (Went net.now.alphas net.now.nodes store.now (length world.old.lines.items) world.old [] world.new) }
    ensures done { OnOk result ((world_of world.new).done ≡ (world_of world.old).done) }
    ensures ready { IsReady net.now.nodes store.now world.new }
    ensures lines { numbers_of world.new ≡ numbers_of world.old }
{
    for pick in picks {
        work_picked(alloc, net, store, enter, world, *pick)?;
    }
    Ok(())
}

/// Performs all tasks in flight if there are `TASKS_AT_ONCE` or more, and none otherwise.
fn make_room<F: Fn(usize)>(
    alloc: Global,
    net: &Net,
    store: &Store,
    enter: &F,
    world: &mut World,
) -> Result<(), OutOfMemory>
    requires enter { F.IsAlwaysCallable enter.now }
    requires ready { IsReady net.now.nodes store.now world.old }
    ensures went { OnOk result (Went net.now.alphas net.now.nodes store.now (length world.old.lines.items) world.old [] world.new) }
    ensures done { OnOk result ((world_of world.new).done ≡ (world_of world.old).done) }
    ensures ready { IsReady net.now.nodes store.now world.new }
    ensures lines { numbers_of world.new ≡ numbers_of world.old }
{
    if world.in_flight() < TASKS_AT_ONCE {
        return Ok(());
    }
    work_all(alloc, net, store, enter, world, None)
}

/// Puts the tasks of the changes into flight, in the order of the changes. Before each change it makes room, so few
/// more than `TASKS_AT_ONCE` are in flight at a time. `enter` gets the line of each task just before it is performed.
fn feed_in_turns<F: Fn(usize)>(
    alloc: Global,
    net: &Net,
    store: &Store,
    enter: &F,
    world: &mut World,
    changes: &[Change],
) -> Result<(), OutOfMemory>
    requires enter { F.IsAlwaysCallable enter.now }
    requires ready { IsReady net.now.nodes store.now world.old }
    requires known { All (IsKnown store.now) changes.now }
    ensures went { OnOk result (Went net.now.alphas net.now.nodes store.now (length world.old.lines.items) world.old changes.now world.new) }
    ensures done { OnOk result ((world_of world.new).done ≡ (world_of world.old).done) }
    ensures ready { IsReady net.now.nodes store.now world.new }
    ensures lines { numbers_of world.new ≡ numbers_of world.old }
{
    for change in changes {
        make_room(alloc, net, store, enter, world)?;
        world.feed(alloc, net, store, change)?;
    }
    Ok(())
}

/// Puts the tasks of the changes into flight. Without picks, some tasks are performed between two changes when room
/// is needed. With picks, all changes are fed first, and then one task is performed for each pick.
fn feed_changes<F: Fn(usize)>(
    alloc: Global,
    net: &Net,
    store: &Store,
    enter: &F,
    world: &mut World,
    changes: &[Change],
    picks: &[usize],
) -> Result<(), OutOfMemory>
    requires enter { F.IsAlwaysCallable enter.now }
    requires ready { IsReady net.now.nodes store.now world.old }
    requires known { All (IsKnown store.now) changes.now }
    ensures went { OnOk result (Went net.now.alphas net.now.nodes store.now (length world.old.lines.items) world.old changes.now world.new) }
    ensures done { OnOk result ((world_of world.new).done ≡ (world_of world.old).done) }
    ensures ready { IsReady net.now.nodes store.now world.new }
    ensures lines { numbers_of world.new ≡ numbers_of world.old }
{
    if picks.is_empty() {
        return feed_in_turns(alloc, net, store, enter, world, changes);
    }
    feed_all(alloc, net, store, world, changes)?;
    work_picks(alloc, net, store, enter, world, picks)?;
    Ok(())
}

/// Performs all tasks that result from the changes. Once all changes are fed, the last task in flight is next, until
/// none is left.
fn work_changes<F: Fn(usize)>(
    alloc: Global,
    net: &Net,
    store: &Store,
    enter: &F,
    world: &mut World,
    changes: &[Change],
    picks: &[usize],
) -> Result<(), OutOfMemory>
    requires enter { F.IsAlwaysCallable enter.now }
    requires ready { IsReady net.now.nodes store.now world.old }
    requires known { All (IsKnown store.now) changes.now }
    ensures went { OnOk result (Went net.now.alphas net.now.nodes store.now (length world.old.lines.items) world.old changes.now world.new) }
    ensures flight { OnOk result (world.new.flight.items ≡ []) }
    ensures done { OnOk result ((world_of world.new).done ≡ (world_of world.old).done) }
    ensures ready { IsReady net.now.nodes store.now world.new }
    ensures lines { numbers_of world.new ≡ numbers_of world.old }
{
    feed_changes(alloc, net, store, enter, world, changes, picks)?;
    work_all(alloc, net, store, enter, world, None)?;
    Ok(())
}

/// Runs the phase of these changes, which the store has already done. At the start the lines begin the phase.
fn run_phase<F: Fn(usize)>(
    alloc: Global,
    net: &Net,
    store: &Store,
    enter: &F,
    world: &mut World,
    changes: &[Change],
    picks: &[usize],
) -> Result<(), OutOfMemory>
    requires enter { F.IsAlwaysCallable enter.now }
    requires quiet { world.old.counter ≡ 0 }
    requires counted { All (IsCounted net.now.nodes store.now) world.old.lines.items }
    requires known { All (IsKnown store.now) changes.now }
    ensures quiet { OnOk result (world.new.counter ≡ 0) }
    ensures counted { OnOk result (All (IsCounted net.now.nodes store.now) world.new.lines.items) }
    ensures lines { numbers_of world.new ≡ numbers_of world.old }
    ensures bundle { OnOk result (IsBundleOf net.now.alphas net.now.nodes store.now changes.now world.old world.new) }
{
    match_laws();
    settle_laws();
    world.clear_phase();
    work_changes(alloc, net, store, enter, world, changes, picks)?;
    Ok(())
}

/// Does the changes to the store. It drops the elements that it kept before, and keeps those that the changes remove.
pub fn do_changes(alloc: Global, store: &mut Store, changes: &[Change]) -> Result<(), OutOfMemory>
    requires { Lawful store.old.elements store.old.last changes.now }
    ensures elements { OnOk result (store.new.elements ≡ done store.old.elements changes.now) }
    ensures last { OnOk result (store.new.last ≡ last_after store.old.last changes.now) }
    ensures kept { OnOk result (HoldsAlso (record store.old { kept = [] }) store.new (added_by changes.now)) }
    ensures phase { OnOk result (HoldsPhase store.old store.new changes.now) }
    ensures rising { OnOk result (HasRisingTags store.old.elements × HasRisingTags store.new.elements) }
{
    settle_laws();
    let _before = store.last();
    store.forget();
    store.make_changes(alloc, changes)?;
    let _after = store.last();
    Ok(())
}

/// Does the changes to the store and runs their phase, starting from lines that hold exactly the tokens over the
/// store. Afterwards the lines hold exactly the tokens over the store with the changes done, and their entries are a
/// bundle of the changes. With picks, all changes are fed at once, and one task is performed for each pick. Otherwise
/// tasks are performed while changes are fed, as soon as `TASKS_AT_ONCE` are in flight. At the end the last task in
/// flight is next. `enter` gets the line of each task just before it is performed.
pub fn settle<F: Fn(usize)>(
    alloc: Global,
    net: &Net,
    store: &mut Store,
    enter: &F,
    world: &mut World,
    changes: &[Change],
    picks: &[usize],
) -> Result<Gathered, OutOfMemory>
    requires enter { F.IsAlwaysCallable enter.now }
    requires lawful { Lawful store.old.elements store.old.last changes.now }
    requires quiet { world.old.counter ≡ 0 }
    requires counted { All (IsCounted net.now.nodes store.old) world.old.lines.items }
    requires holds { HoldJust (placed (held_of store.old) net.now.nodes (length world.old.lines.items)) (sums_over store.old.elements net.now.alphas net.now.nodes) (map now (map seen world.old.lines.items)) }
    ensures elements { OnOk result (store.new.elements ≡ done store.old.elements changes.now) }
    ensures last { OnOk result (store.new.last ≡ last_after store.old.last changes.now) }
    ensures kept { OnOk result (HoldsAlso (record store.old { kept = [] }) store.new (added_by changes.now)) }
    ensures quiet { OnOk result (world.new.counter ≡ 0) }
    ensures counted { OnOk result (All (IsCounted net.now.nodes store.new) world.new.lines.items) }
    ensures holds { OnOk result (HoldJust (placed (held_of store.new) net.now.nodes (length world.new.lines.items)) (sums_over store.new.elements net.now.alphas net.now.nodes) (map now (map seen world.new.lines.items))) }
    ensures lines { OnOk result (numbers_of world.new ≡ numbers_of world.old) }
    ensures bundle { OnOk result (IsBundle (held_of store.new) net.now.alphas net.now.nodes (placed (held_of store.new) net.now.nodes (length world.new.lines.items)) store.old.elements changes.now (map seen world.new.lines.items)) }
    ensures settled { IfOk result (λ g. IsSettled (found_over net.now.alphas net.now.nodes store.old.elements) (found_over net.now.alphas net.now.nodes store.new.elements) g.gone.items g.come.items) }
{
    settle_laws();
    do_changes(alloc, store, changes)?;
    run_phase(alloc, net, store, enter, world, changes, picks)?;
    let gathered = gather_worked(alloc, net, world.lines(), world.worked())?;
    Ok(gathered)
}
