//! A phase at work: on the calling thread while few tasks are in flight, and then by several workers.
ghost use Rattle.std.specs.Prelude.{◌≡◌, ◌≤◌, ◌^◌, All, IfOk, OnOk, [], length, map};
ghost use Rattle.activation.specs.Acting.{IsCounted};
ghost use Rattle.step_core.specs.Feeding.{IsKnown};
ghost use Rattle.step_core.specs.Worlds.{AreNumbered, ArePartsReady, IsReady, numbers_of, world_of};
ghost use Rattle.team_phase.specs.Helping.{CanHelp, Helps};
ghost use Rattle.serial_engine.specs.Running.{IsBundleOf, Went};
ghost use Rattle.serial_engine.specs.Carrying.{CarriesOn, FeedsOn};

use crate::help::{Load, ask_help};
use net_base::net::Net;
use ops_base::elements::Change;
use ops_base::memory::OutOfMemory;
use ops_io::Gate;
use serial_engine::{Worth, begin_alone, is_room_needed, work_all};
use std::alloc::Global;
use std::mem;
use step_core::laws::{round_laws, settle_laws};
use step_core::{Parts, World};
use token_line::Line;
use work_store::Store;

/// How the tasks of a phase are shared.
#[derive(Clone, Copy)]
pub struct Sharing {
    /// How many workers there may be, at least 1.
    pub workers: usize,
    /// When it pays to share.
    pub worth: Worth,
    /// Whether a phase was shared before.
    pub shared: bool,
}

/// From this many tasks on, tasks are not shared merely because nothing was shared before. Sharing light tasks, such
/// as those of a program's first phase, would lose time, and data that several threads allocate has worse locality
/// for all that follows.
const MANY_AT_FIRST: usize = 256;

/// Whether to share these tasks because nothing was shared before: there are at least two, but few.
fn is_first_chance(tasks: usize, sharing: Sharing) -> bool {
    !sharing.shared && sharing.workers > 1 && tasks > 1 && tasks < MANY_AT_FIRST
}

/// How many workers share these tasks: two at the first chance, otherwise the most that there may be.
fn team_size(tasks: usize, sharing: Sharing) -> usize
    requires some { 1 ≤ sharing.workers }
    ensures some { 1 ≤ result }
    ensures few { result ≤ sharing.workers }
{
    if is_first_chance(tasks, sharing) {
        sharing.workers.min(2)
    } else {
        sharing.workers
    }
}

/// Performs tasks in flight on the calling thread, starting with the last, and all tasks that result, until none is
/// left or it pays to share the rest. It performs none if a few tasks can be shared for the first time.
fn work_alone<G: Gate>(
    alloc: Global,
    net: &Net,
    store: &Store,
    gate: &G,
    world: &mut World,
    sharing: Sharing,
) -> Result<(), OutOfMemory>
    requires ready { IsReady net.now.nodes store.now world.old }
    ensures went { OnOk result (Went net.now.alphas net.now.nodes store.now (length world.old.lines.items) world.old [] world.new) }
    ensures done { OnOk result ((world_of world.new).done ≡ (world_of world.old).done) }
    ensures ready { IsReady net.now.nodes store.now world.new }
    ensures lines { numbers_of world.new ≡ numbers_of world.old }
{
    if is_first_chance(world.in_flight(), sharing) {
        return Ok(());
    }
    let enter = |line: usize| gate.enter(0, line);
    if sharing.workers == 1 {
        return work_all(alloc, net, store, &enter, world, None);
    }
    begin_alone(alloc, net, store, &enter, world, sharing.worth)
}

/// Performs these tasks, and all that result, on the calling thread.
fn finish_alone<G: Gate>(
    alloc: Global,
    net: &Net,
    store: &Store,
    gate: &G,
    parts: Parts,
) -> Result<World, OutOfMemory>
    requires some { 1 ≤ length parts.lines.items }
    requires ready { ArePartsReady net.now.nodes store.now parts }
    ensures carries { IfOk result (λ w. CarriesOn net.now.alphas net.now.nodes store.now parts.lines.items parts.flight.items w.lines.items []) }
    ensures quiet { IfOk result (λ w. w.counter ≡ 0) }
    ensures counted { IfOk result (λ w. All (IsCounted net.now.nodes store.now) w.lines.items) }
    ensures numbers { IfOk result (λ w. numbers_of w ≡ map (λ l. l.number) parts.lines.items) }
{
    settle_laws();
    round_laws();
    let mut world = World::from_parts(alloc, parts)?;
    let enter = |line: usize| gate.enter(0, line);
    work_all(alloc, net, store, &enter, &mut world, None)?;
    Ok(world)
}

/// A placeholder for a world that is taken out: one bare line, and nothing pending.
fn stand_in(alloc: Global) -> Result<World, OutOfMemory> {
    let mut lines = Vec::new(alloc);
    lines.push(Line::new(alloc, 0))?;
    let parts = Parts {
        lines,
        flight: Vec::new(alloc),
    };
    World::from_parts(alloc, parts)
}

/// Performs the tasks in flight of a world that was taken out of its place, and all that result, with several workers
/// if that pays. The calling thread performs the tasks that they leave. It also moves or looks at each line.
fn work_taken<F: Fn(Load) -> Result<Parts, OutOfMemory>, G: Gate>(
    help: &F,
    alloc: Global,
    net: &Net,
    store: &Store,
    gate: &G,
    world: World,
    sharing: &mut Sharing,
) -> Result<World, OutOfMemory>
    requires can { CanHelp net.now.nodes store.now (F.pre help.now) }
    requires helps { Helps net.now.alphas net.now.nodes store.now (F.post help.now) }
    requires some { 1 ≤ sharing.old.workers }
    requires few { sharing.old.workers ≤ 2 ^ 32 }
    requires numbered { AreNumbered world.lines.items }
    requires ready { IsReady net.now.nodes store.now world }
    requires done { length world.done.items ≡ 0 }
    ensures carries { IfOk result (λ w. CarriesOn net.now.alphas net.now.nodes store.now world.lines.items world.flight.items w.lines.items []) }
    ensures quiet { IfOk result (λ w. w.counter ≡ 0) }
    ensures counted { IfOk result (λ w. All (IsCounted net.now.nodes store.now) w.lines.items) }
    ensures numbers { IfOk result (λ w. numbers_of w ≡ numbers_of world) }
    ensures workers { OnOk result (sharing.new.workers ≡ sharing.old.workers) }
{
    let team = team_size(world.in_flight(), *sharing);
    sharing.shared = true;
    let parts = world.into_parts();
    let load = Load {
        parts,
        workers: team,
    };
    let parts = ask_help(help, net, store, load)?;
    finish_alone(alloc, net, store, gate, parts)
}

/// Performs the tasks in flight, and all that result, with several workers if that pays. If none is in flight it does
/// nothing. Otherwise it takes the world out of its place for this, and also moves or looks at each line.
fn work_shared<F: Fn(Load) -> Result<Parts, OutOfMemory>, G: Gate>(
    help: &F,
    alloc: Global,
    net: &Net,
    store: &Store,
    gate: &G,
    world: &mut World,
    sharing: &mut Sharing,
) -> Result<(), OutOfMemory>
    requires can { CanHelp net.now.nodes store.now (F.pre help.now) }
    requires helps { Helps net.now.alphas net.now.nodes store.now (F.post help.now) }
    requires some { 1 ≤ sharing.old.workers }
    requires few { sharing.old.workers ≤ 2 ^ 32 }
    requires numbered { AreNumbered world.old.lines.items }
    requires ready { IsReady net.now.nodes store.now world.old }
    requires done { length world.old.done.items ≡ 0 }
    ensures carries { OnOk result (CarriesOn net.now.alphas net.now.nodes store.now world.old.lines.items world.old.flight.items world.new.lines.items []) }
    ensures quiet { OnOk result (world.new.counter ≡ 0) }
    ensures counted { OnOk result (All (IsCounted net.now.nodes store.now) world.new.lines.items) }
    ensures numbers { OnOk result (numbers_of world.new ≡ numbers_of world.old) }
    ensures workers { OnOk result (sharing.new.workers ≡ sharing.old.workers) }
{
    if world.in_flight() == 0 {
        return Ok(());
    }
    let taken = mem::replace(world, stand_in(alloc)?);
    *world = work_taken(help, alloc, net, store, gate, taken, sharing)?;
    Ok(())
}

/// Performs the tasks in flight, and all that result, on the calling thread and by a team. It also moves each line if
/// the team helped.
fn work_off<F: Fn(Load) -> Result<Parts, OutOfMemory>, G: Gate>(
    help: &F,
    alloc: Global,
    net: &Net,
    store: &Store,
    gate: &G,
    world: &mut World,
    sharing: &mut Sharing,
) -> Result<(), OutOfMemory>
    requires can { CanHelp net.now.nodes store.now (F.pre help.now) }
    requires helps { Helps net.now.alphas net.now.nodes store.now (F.post help.now) }
    requires some { 1 ≤ sharing.old.workers }
    requires few { sharing.old.workers ≤ 2 ^ 32 }
    requires numbered { AreNumbered world.old.lines.items }
    requires ready { IsReady net.now.nodes store.now world.old }
    requires done { length world.old.done.items ≡ 0 }
    ensures carries { OnOk result (CarriesOn net.now.alphas net.now.nodes store.now world.old.lines.items world.old.flight.items world.new.lines.items world.new.flight.items) }
    ensures quiet { OnOk result (world.new.counter ≡ 0) }
    ensures ready { OnOk result (IsReady net.now.nodes store.now world.new) }
    ensures numbers { OnOk result (numbers_of world.new ≡ numbers_of world.old) }
    ensures workers { OnOk result (sharing.new.workers ≡ sharing.old.workers) }
{
    settle_laws();
    round_laws();
    work_alone(alloc, net, store, gate, world, *sharing)?;
    work_shared(help, alloc, net, store, gate, world, sharing)?;
    Ok(())
}

/// Performs all tasks in flight if there are too many to feed one more change, and none otherwise.
fn make_room<F: Fn(Load) -> Result<Parts, OutOfMemory>, G: Gate>(
    help: &F,
    alloc: Global,
    net: &Net,
    store: &Store,
    gate: &G,
    world: &mut World,
    sharing: &mut Sharing,
) -> Result<(), OutOfMemory>
    requires can { CanHelp net.now.nodes store.now (F.pre help.now) }
    requires helps { Helps net.now.alphas net.now.nodes store.now (F.post help.now) }
    requires some { 1 ≤ sharing.old.workers }
    requires few { sharing.old.workers ≤ 2 ^ 32 }
    requires numbered { AreNumbered world.old.lines.items }
    requires ready { IsReady net.now.nodes store.now world.old }
    requires done { length world.old.done.items ≡ 0 }
    ensures carries { OnOk result (CarriesOn net.now.alphas net.now.nodes store.now world.old.lines.items world.old.flight.items world.new.lines.items world.new.flight.items) }
    ensures done { OnOk result (length world.new.done.items ≡ 0) }
    ensures ready { OnOk result (IsReady net.now.nodes store.now world.new) }
    ensures numbers { OnOk result (numbers_of world.new ≡ numbers_of world.old) }
    ensures workers { OnOk result (sharing.new.workers ≡ sharing.old.workers) }
{
    if !is_room_needed(world) {
        return Ok(());
    }
    work_off(help, alloc, net, store, gate, world, sharing)?;
    Ok(())
}

/// Puts the tasks of the changes into flight, in the order of the changes. Before each change it makes room.
fn feed_in_turns<F: Fn(Load) -> Result<Parts, OutOfMemory>, G: Gate>(
    help: &F,
    alloc: Global,
    net: &Net,
    store: &Store,
    gate: &G,
    world: &mut World,
    sharing: &mut Sharing,
    changes: &[Change],
) -> Result<(), OutOfMemory>
    requires can { CanHelp net.now.nodes store.now (F.pre help.now) }
    requires helps { Helps net.now.alphas net.now.nodes store.now (F.post help.now) }
    requires some { 1 ≤ sharing.old.workers }
    requires few { sharing.old.workers ≤ 2 ^ 32 }
    requires numbered { AreNumbered world.old.lines.items }
    requires ready { IsReady net.now.nodes store.now world.old }
    requires done { length world.old.done.items ≡ 0 }
    requires known { All (IsKnown store.now) changes.now }
    ensures feeds { OnOk result (FeedsOn net.now.alphas net.now.nodes store.now world.old.lines.items world.old.flight.items changes.now world.new.lines.items world.new.flight.items) }
    ensures done { OnOk result (length world.new.done.items ≡ 0) }
    ensures ready { OnOk result (IsReady net.now.nodes store.now world.new) }
    ensures numbers { OnOk result (numbers_of world.new ≡ numbers_of world.old) }
    ensures workers { OnOk result (sharing.new.workers ≡ sharing.old.workers) }
{
    settle_laws();
    round_laws();
    for change in changes {
        make_room(help, alloc, net, store, gate, world, sharing)?;
        world.feed(alloc, net, store, change)?;
    }
    Ok(())
}

/// Runs the phase of these changes, which the store has already done. At the start the lines begin the phase.
pub fn run_phase<F: Fn(Load) -> Result<Parts, OutOfMemory>, G: Gate>(
    help: &F,
    alloc: Global,
    net: &Net,
    store: &Store,
    gate: &G,
    world: &mut World,
    sharing: &mut Sharing,
    changes: &[Change],
) -> Result<(), OutOfMemory>
    requires can { CanHelp net.now.nodes store.now (F.pre help.now) }
    requires helps { Helps net.now.alphas net.now.nodes store.now (F.post help.now) }
    requires some { 1 ≤ sharing.old.workers }
    requires few { sharing.old.workers ≤ 2 ^ 32 }
    requires numbered { AreNumbered world.old.lines.items }
    requires quiet { world.old.counter ≡ 0 }
    requires counted { All (IsCounted net.now.nodes store.now) world.old.lines.items }
    requires known { All (IsKnown store.now) changes.now }
    ensures quiet { OnOk result (world.new.counter ≡ 0) }
    ensures counted { OnOk result (All (IsCounted net.now.nodes store.now) world.new.lines.items) }
    ensures lines { OnOk result (numbers_of world.new ≡ numbers_of world.old) }
    ensures bundle { OnOk result (IsBundleOf net.now.alphas net.now.nodes store.now changes.now world.old world.new) }
    ensures workers { OnOk result (sharing.new.workers ≡ sharing.old.workers) }
{
    settle_laws();
    round_laws();
    world.clear_phase();
    feed_in_turns(help, alloc, net, store, gate, world, sharing, changes)?;
    work_off(help, alloc, net, store, gate, world, sharing)?;
    Ok(())
}
