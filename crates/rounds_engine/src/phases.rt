//! A phase at work: on the calling thread while few tasks are in flight, and then in rounds.
ghost use Rattle.std.specs.Prelude.{◌≡◌, ◌<◌, ◌≤◌, ◌+◌, All, IfOk, OnOk, [], length, map};
ghost use Rattle.ops_base.specs.WorkingMemory.{Lawful, done, last_after};
ghost use Rattle.work_store.specs.Settling.{IsSettled};
ghost use Rattle.work_store.specs.Stored.{HoldsAlso, added_by, held_of};
ghost use Rattle.activation.specs.Acting.{IsCounted};
ghost use Rattle.step_core.specs.Feeding.{IsKnown};
ghost use Rattle.step_core.specs.Found.{found_over};
ghost use Rattle.step_core.specs.Phases.{HoldJust, IsBundle, now, sums_over};
ghost use Rattle.step_core.specs.Worlds.{IsReady, numbers_of, placed, seen, world_of};
ghost use Rattle.serial_engine.specs.Running.{IsBundleOf, Went};
ghost use Rattle.serial_engine.specs.Carrying.{CarriesOn, FeedsOn};
ghost use Rattle.rounds_engine.specs.Sharing.{AreAllShards, AreDeeper, AreKept, tasks_of_shards};

use crate::ground::Ground;
use crate::rounds::do_shards;
use crate::shards::{Shard, are_idle, deal, pays, shard_of};
use net_base::net::Net;
use ops_base::elements::Change;
use ops_base::memory::OutOfMemory;
use ops_io::Gate;
use serial_engine::{Worth, begin_alone, do_changes, is_room_needed, work_all};
use std::alloc::Global;
use std::mem;
use std::thread::Threads;
use step_core::laws::{round_laws, settle_laws};
use step_core::{Gathered, Parts, World, gather_worked};
use token_line::Line;
use work_store::Store;

/// How the lines are shared.
#[derive(Clone, Copy)]
pub(crate) struct Sharing {
    /// How many shards there are: from 1 to the number of lines.
    pub(crate) shards: usize,
    /// Whether a round was shared among threads before.
    pub(crate) shared: bool,
}

/// When rounds pay. Each task is dealt to its shard, and each round waits for its slowest shard, so light tasks lose
/// time.
const WORTH: Worth = Worth {
    alone: 4_000,
    in_hand: 4_000,
    of_a_task: 5,
};

/// The shard of the line of the task in flight at that place, at the cost of `World::line_at`.
fn shard_at(ground: &Ground<'_>, world: &World, index: usize) -> usize
    requires ready { IsReady ground.now.net.now.nodes ground.now.store.now world.now }
    requires lines { length world.now.lines.items ≡ ground.now.lines }
    requires within { index < length world.now.flight.items }
{
    let line = world.line_at(ground.net, ground.store, index);
    shard_of(line, ground.shards, ground.lines)
}

/// Whether two tasks in flight have lines in different shards. It looks up the lines of the tasks, up to the first
/// task whose shard differs from that of the first. With a single shard it looks up none.
fn are_apart(ground: &Ground<'_>, world: &World) -> bool
    requires ready { IsReady ground.now.net.now.nodes ground.now.store.now world.now }
    requires lines { length world.now.lines.items ≡ ground.now.lines }
{
    let tasks = world.in_flight();
    if ground.shards < 2 || tasks < 2 {
        return false;
    }
    let first = shard_at(ground, world, 0);
    for index in 1..tasks {
        if shard_at(ground, world, index) != first {
            return true;
        }
    }
    false
}

/// Performs tasks in flight on the calling thread, starting with the last, and all tasks that result, until none is
/// left or it pays to do the rest in rounds. It performs none if a round can be shared for the first time.
fn work_alone<G: Gate>(
    ground: &Ground<'_>,
    gate: &G,
    world: &mut World,
    shared: bool,
) -> Result<(), OutOfMemory>
    requires ready { IsReady ground.now.net.now.nodes ground.now.store.now world.old }
    requires lines { length world.old.lines.items ≡ ground.now.lines }
    ensures went { OnOk result (Went ground.now.net.now.alphas ground.now.net.now.nodes ground.now.store.now (length world.old.lines.items) world.old [] world.new) }
    ensures done { OnOk result ((world_of world.new).done ≡ (world_of world.old).done) }
    ensures ready { IsReady ground.now.net.now.nodes ground.now.store.now world.new }
    ensures lines { numbers_of world.new ≡ numbers_of world.old }
{
    if !shared && are_apart(ground, world) {
        return Ok(());
    }
    let enter = |line: usize| gate.enter(0, line);
    if ground.shards == 1 {
        return work_all(ground.alloc, ground.net, ground.store, &enter, world, None);
    }
    begin_alone(ground.alloc, ground.net, ground.store, &enter, world, WORTH)
}

/// Performs the tasks of these shards on the lines, in one round, which is shared among threads if that pays. Returns
/// the shards of the next round. Besides the cost of `do_shards`, it looks at each shard.
fn work_round<R: Threads + Sync, G: Gate>(
    rt: &R,
    ground: &Ground<'_>,
    gate: &G,
    shared: &mut bool,
    shards: &[Shard],
    lines: &mut [Line],
) -> Result<Vec<Shard>, OutOfMemory>
    requires lines { length lines.old ≡ ground.now.lines }
    requires dealt { AreAllShards ground.now.net.now.nodes ground.now.store.now ground.now.lines ground.now.shards shards.now }
    requires counted { All (IsCounted ground.now.net.now.nodes ground.now.store.now) lines.old }
    ensures carries { IfOk result (λ made. CarriesOn ground.now.net.now.alphas ground.now.net.now.nodes ground.now.store.now lines.old (tasks_of_shards shards.now) lines.new (tasks_of_shards made.items)) }
    ensures dealt { IfOk result (λ made. AreAllShards ground.now.net.now.nodes ground.now.store.now ground.now.lines ground.now.shards made.items) }
    ensures deeper { IfOk result (λ made. AreDeeper (tasks_of_shards shards.now) (tasks_of_shards made.items)) }
    ensures kept { AreKept ground.now.net.now.nodes ground.now.store.now lines.old lines.new }
{
    round_laws();
    let apart = pays(shards, *shared);
    *shared = *shared || apart;
    do_shards(rt, ground, gate, apart, shards, lines)
}

/// Performs the tasks of these shards on the lines, and all tasks that result, in rounds. There are at most as many
/// rounds as nodes.
fn work_rounds<R: Threads + Sync, G: Gate>(
    rt: &R,
    ground: &Ground<'_>,
    gate: &G,
    shared: &mut bool,
    shards: Vec<Shard>,
    lines: &mut [Line],
) -> Result<(), OutOfMemory>
    requires lines { length lines.old ≡ ground.now.lines }
    requires dealt { AreAllShards ground.now.net.now.nodes ground.now.store.now ground.now.lines ground.now.shards shards.items }
    requires counted { All (IsCounted ground.now.net.now.nodes ground.now.store.now) lines.old }
    ensures carries { OnOk result (CarriesOn ground.now.net.now.alphas ground.now.net.now.nodes ground.now.store.now lines.old (tasks_of_shards shards.items) lines.new []) }
    ensures kept { AreKept ground.now.net.now.nodes ground.now.store.now lines.old lines.new }
{
    let net = ground.net;
    let mut shards = shards;
    for _round in 0..net.nodes().len() {
        if are_idle(shards.as_slice()) {
            return Ok(());
        }
        shards = work_round(rt, ground, gate, shared, shards.as_slice(), lines)?;
    }
    Ok(())
}

/// A placeholder for a world that is taken out: one line without tokens. It takes memory only for that line.
fn idle_world(alloc: Global) -> Result<World, OutOfMemory> {
    let mut lines = Vec::new(alloc);
    lines.push(Line::new(alloc, 0))?;
    let parts = Parts {
        lines,
        flight: Vec::new(alloc),
    };
    World::from_parts(alloc, parts)
}

/// Performs the tasks in flight, and all that result, in rounds. If none is in flight it does nothing. Otherwise it
/// also looks at each line once, and takes the lines out of the world until the rounds have finished. If memory runs
/// out before that, the lines are lost.
fn work_in_rounds<R: Threads + Sync, G: Gate>(
    rt: &R,
    ground: &Ground<'_>,
    gate: &G,
    shared: &mut bool,
    world: &mut World,
) -> Result<(), OutOfMemory>
    requires lines { length world.old.lines.items ≡ ground.now.lines }
    requires ready { IsReady ground.now.net.now.nodes ground.now.store.now world.old }
    requires done { length world.old.done.items ≡ 0 }
    ensures carries { OnOk result (CarriesOn ground.now.net.now.alphas ground.now.net.now.nodes ground.now.store.now world.old.lines.items world.old.flight.items world.new.lines.items []) }
    ensures quiet { OnOk result (world.new.counter ≡ 0) }
    ensures counted { OnOk result (All (IsCounted ground.now.net.now.nodes ground.now.store.now) world.new.lines.items) }
    ensures numbers { OnOk result (numbers_of world.new ≡ numbers_of world.old) }
{
    if world.in_flight() == 0 {
        return Ok(());
    }
    let idle = idle_world(ground.alloc)?;
    let taken = mem::replace(world, idle);
    let Parts { mut lines, flight } = taken.into_parts();
    let shards = deal(ground, flight)?;
    work_rounds(rt, ground, gate, shared, shards, lines.as_mut_slice())?;
    let parts = Parts {
        lines,
        flight: Vec::new(ground.alloc),
    };
    *world = World::from_parts(ground.alloc, parts)?;
    Ok(())
}

/// Performs the tasks in flight, and all that result, on the calling thread and in rounds.
fn work_off<R: Threads + Sync, G: Gate>(
    rt: &R,
    ground: &Ground<'_>,
    gate: &G,
    shared: &mut bool,
    world: &mut World,
) -> Result<(), OutOfMemory>
    requires lines { length world.old.lines.items ≡ ground.now.lines }
    requires ready { IsReady ground.now.net.now.nodes ground.now.store.now world.old }
    requires done { length world.old.done.items ≡ 0 }
    ensures carries { OnOk result (CarriesOn ground.now.net.now.alphas ground.now.net.now.nodes ground.now.store.now world.old.lines.items world.old.flight.items world.new.lines.items world.new.flight.items) }
    ensures quiet { OnOk result (world.new.counter ≡ 0) }
    ensures ready { OnOk result (IsReady ground.now.net.now.nodes ground.now.store.now world.new) }
    ensures numbers { OnOk result (numbers_of world.new ≡ numbers_of world.old) }
{
    settle_laws();
    round_laws();
    work_alone(ground, gate, world, *shared)?;
    work_in_rounds(rt, ground, gate, shared, world)?;
    Ok(())
}

/// Performs all tasks in flight if there are too many to feed one more change, and none otherwise.
fn make_room<R: Threads + Sync, G: Gate>(
    rt: &R,
    ground: &Ground<'_>,
    gate: &G,
    shared: &mut bool,
    world: &mut World,
) -> Result<(), OutOfMemory>
    requires lines { length world.old.lines.items ≡ ground.now.lines }
    requires ready { IsReady ground.now.net.now.nodes ground.now.store.now world.old }
    requires done { length world.old.done.items ≡ 0 }
    ensures carries { OnOk result (CarriesOn ground.now.net.now.alphas ground.now.net.now.nodes ground.now.store.now world.old.lines.items world.old.flight.items world.new.lines.items world.new.flight.items) }
    ensures done { OnOk result (length world.new.done.items ≡ 0) }
    ensures ready { OnOk result (IsReady ground.now.net.now.nodes ground.now.store.now world.new) }
    ensures numbers { OnOk result (numbers_of world.new ≡ numbers_of world.old) }
{
    if !is_room_needed(world) {
        return Ok(());
    }
    work_off(rt, ground, gate, shared, world)?;
    Ok(())
}

/// Puts the tasks of the changes into flight, in the order of the changes. Before each change it makes room.
fn feed_in_turns<R: Threads + Sync, G: Gate>(
    rt: &R,
    ground: &Ground<'_>,
    gate: &G,
    shared: &mut bool,
    world: &mut World,
    changes: &[Change],
) -> Result<(), OutOfMemory>
    requires lines { length world.old.lines.items ≡ ground.now.lines }
    requires ready { IsReady ground.now.net.now.nodes ground.now.store.now world.old }
    requires done { length world.old.done.items ≡ 0 }
    requires known { All (IsKnown ground.now.store.now) changes.now }
    ensures feeds { OnOk result (FeedsOn ground.now.net.now.alphas ground.now.net.now.nodes ground.now.store.now world.old.lines.items world.old.flight.items changes.now world.new.lines.items world.new.flight.items) }
    ensures done { OnOk result (length world.new.done.items ≡ 0) }
    ensures ready { OnOk result (IsReady ground.now.net.now.nodes ground.now.store.now world.new) }
    ensures numbers { OnOk result (numbers_of world.new ≡ numbers_of world.old) }
{
    settle_laws();
    round_laws();
    let net = ground.net;
    let _nodes = net.nodes();
    for change in changes {
        make_room(rt, ground, gate, shared, world)?;
        world.feed(ground.alloc, net, ground.store, change)?;
    }
    Ok(())
}

/// Runs the phase of these changes, which the store has already done. At the start the lines begin the phase.
fn run_phase<R: Threads + Sync, G: Gate>(
    rt: &R,
    ground: &Ground<'_>,
    gate: &G,
    shared: &mut bool,
    world: &mut World,
    changes: &[Change],
) -> Result<(), OutOfMemory>
    requires all { length world.old.lines.items ≡ ground.now.lines }
    requires quiet { world.old.counter ≡ 0 }
    requires counted { All (IsCounted ground.now.net.now.nodes ground.now.store.now) world.old.lines.items }
    requires known { All (IsKnown ground.now.store.now) changes.now }
    ensures quiet { OnOk result (world.new.counter ≡ 0) }
    ensures counted { OnOk result (All (IsCounted ground.now.net.now.nodes ground.now.store.now) world.new.lines.items) }
    ensures lines { OnOk result (numbers_of world.new ≡ numbers_of world.old) }
    ensures bundle { OnOk result (IsBundleOf ground.now.net.now.alphas ground.now.net.now.nodes ground.now.store.now changes.now world.old world.new) }
{
    settle_laws();
    round_laws();
    let net = ground.net;
    let _nodes = net.nodes();
    world.clear_phase();
    feed_in_turns(rt, ground, gate, shared, world, changes)?;
    work_off(rt, ground, gate, shared, world)?;
    Ok(())
}

/// Does the changes to the store and runs their phase, starting from lines that hold exactly the tokens over the
/// store. Afterwards the lines hold exactly the tokens over the store with the changes done, and their entries are a
/// bundle of the changes.
pub(crate) fn settle<R: Threads + Sync, G: Gate>(
    rt: &R,
    alloc: Global,
    net: &Net,
    store: &mut Store,
    gate: &G,
    world: &mut World,
    sharing: &mut Sharing,
    changes: &[Change],
) -> Result<Gathered, OutOfMemory>
    requires some { 1 ≤ sharing.old.shards }
    requires few { sharing.old.shards ≤ length world.old.lines.items }
    requires lawful { Lawful store.old.elements store.old.last changes.now }
    requires quiet { world.old.counter ≡ 0 }
    requires counted { All (IsCounted net.now.nodes store.old) world.old.lines.items }
    requires holds { HoldJust (placed (held_of store.old) net.now.nodes (length world.old.lines.items)) (sums_over store.old.elements net.now.alphas net.now.nodes) (map now (map seen world.old.lines.items)) }
    ensures elements { OnOk result (store.new.elements ≡ done store.old.elements changes.now) }
    ensures last { OnOk result (store.new.last ≡ last_after store.old.last changes.now) }
    ensures kept { OnOk result (HoldsAlso (record store.old { kept = [] }) store.new (added_by changes.now)) }
    ensures quiet { OnOk result (world.new.counter ≡ 0) }
    ensures counted { OnOk result (All (IsCounted net.now.nodes store.new) world.new.lines.items) }
    ensures holds { OnOk result (HoldJust (placed (held_of store.new) net.now.nodes (length world.new.lines.items)) (sums_over store.new.elements net.now.alphas net.now.nodes) (map now (map seen world.new.lines.items))) }
    ensures lines { OnOk result (numbers_of world.new ≡ numbers_of world.old) }
    ensures bundle { OnOk result (IsBundle (held_of store.new) net.now.alphas net.now.nodes (placed (held_of store.new) net.now.nodes (length world.new.lines.items)) store.old.elements changes.now (map seen world.new.lines.items)) }
    ensures settled { IfOk result (λ g. IsSettled (found_over net.now.alphas net.now.nodes store.old.elements) (found_over net.now.alphas net.now.nodes store.new.elements) g.gone.items g.come.items) }
    ensures shards { OnOk result (sharing.new.shards ≡ sharing.old.shards) }
{
    settle_laws();
    do_changes(alloc, store, changes)?;
    let ground = Ground {
        alloc,
        net,
        store: &*store,
        lines: world.lines().len(),
        shards: sharing.shards,
    };
    run_phase(rt, &ground, gate, &mut sharing.shared, world, changes)?;
    let gathered = gather_worked(alloc, net, world.lines(), world.worked())?;
    Ok(gathered)
}
