//! The stealing engine: a phase, with the help of workers that have a deque each.
ghost use Rattle.std.specs.Prelude.{◌≡◌, ◌≤◌, ◌^◌, All, IfOk, OnOk, [], length, map};
ghost use Rattle.std.specs.Thread.{IsSync};
ghost use Rattle.ops_base.specs.WorkingMemory.{Lawful, done, last_after};
ghost use Rattle.work_store.specs.Settling.{IsSettled};
ghost use Rattle.work_store.specs.Stored.{HoldsAlso, added_by, held_of};
ghost use Rattle.activation.specs.Acting.{IsCounted};
ghost use Rattle.step_core.specs.Feeding.{IsKnown};
ghost use Rattle.step_core.specs.Found.{found_over};
ghost use Rattle.step_core.specs.Phases.{HoldJust, IsBundle, now, sums_over};
ghost use Rattle.step_core.specs.Worlds.{AreNumbered, numbers_of, placed, seen};
ghost use Rattle.serial_engine.specs.Running.{IsBundleOf};
ghost use Rattle.team_phase.specs.Helping.{HasShared, MayShare};

use crate::sharing::share;
use net_base::net::Net;
use ops_base::elements::Change;
use ops_base::memory::OutOfMemory;
use ops_io::Gate;
use serial_engine::{Worth, do_changes};
use std::alloc::Global;
use std::sync::Wait;
use std::thread::Threads;
use step_core::laws::settle_laws;
use step_core::{Gathered, Parts, World, gather_worked};
use team_phase::{Load, Sharing, run_phase as run_with_help};
use work_store::Store;

/// When it pays to share. Starting and joining four threads, and moving 1,024 lines to cells and back, takes as long
/// as some 500 units. A task that examines fewer than 16 partners takes little longer than a turn, a push and a
/// steal.
pub(crate) const WORTH: Worth = Worth {
    alone: 1_000,
    in_hand: 1_000,
    of_a_task: 2,
};

/// Performs the load, and tasks that result, by a team. The tasks that the workers leave come back in flight.
fn share_all<R: Threads + Wait + Sync, G: Gate>(
    rt: &R,
    alloc: Global,
    net: &Net,
    store: &Store,
    gate: &G,
    load: Load,
) -> Result<Parts, OutOfMemory>
    requires { MayShare net.now.nodes store.now load }
    ensures { IfOk result (HasShared net.now.alphas net.now.nodes store.now load.parts) }
{
    let parts = share(rt, alloc, net, store, gate, load.parts, load.workers)?;
    Ok(parts)
}

/// Runs the phase of these changes, which the store has already done. At the start the lines begin the phase.
fn run_phase<R: Threads + Wait + Sync, G: Gate>(
    rt: &R,
    alloc: Global,
    net: &Net,
    store: &Store,
    gate: &G,
    world: &mut World,
    sharing: &mut Sharing,
    changes: &[Change],
) -> Result<(), OutOfMemory>
    requires some { 1 ≤ sharing.old.workers }
    requires few { sharing.old.workers ≤ 2 ^ 32 }
    requires numbered { AreNumbered world.old.lines.items }
    requires quiet { world.old.counter ≡ 0 }
    requires counted { All (IsCounted net.now.nodes store.now) world.old.lines.items }
    requires known { All (IsKnown store.now) changes.now }
    ensures quiet { OnOk result (world.new.counter ≡ 0) }
    ensures counted { OnOk result (All (IsCounted net.now.nodes store.now) world.new.lines.items) }
    ensures lines { OnOk result (numbers_of world.new ≡ numbers_of world.old) }
    ensures bundle { OnOk result (IsBundleOf net.now.alphas net.now.nodes store.now changes.now world.old world.new) }
    ensures workers { OnOk result (sharing.new.workers ≡ sharing.old.workers) }
{
    let help = |load: Load| -> Result<Parts, OutOfMemory>
        requires { IsSync R.row × IsSync G.row × MayShare net.now.nodes store.now load }
        ensures { IfOk result (HasShared net.entry.now.alphas net.entry.now.nodes store.entry.now load.parts) }
    { share_all(rt, alloc, net, store, gate, load) };
    run_with_help(&help, alloc, net, store, gate, world, sharing, changes)
}

/// Does the changes to the store and runs their phase, starting from lines that hold exactly the tokens over the
/// store. Afterwards the lines hold exactly the tokens over the store with the changes done, and their entries are a
/// bundle of the changes.
pub(crate) fn settle<R: Threads + Wait + Sync, G: Gate>(
    rt: &R,
    alloc: Global,
    net: &Net,
    store: &mut Store,
    gate: &G,
    world: &mut World,
    sharing: &mut Sharing,
    changes: &[Change],
) -> Result<Gathered, OutOfMemory>
    requires some { 1 ≤ sharing.old.workers }
    requires few { sharing.old.workers ≤ 2 ^ 32 }
    requires numbered { AreNumbered world.old.lines.items }
    requires lawful { Lawful store.old.elements store.old.last changes.now }
    requires quiet { world.old.counter ≡ 0 }
    requires counted { All (IsCounted net.now.nodes store.old) world.old.lines.items }
    requires holds { HoldJust (placed (held_of store.old) net.now.nodes (length world.old.lines.items)) (sums_over store.old.elements net.now.alphas net.now.nodes) (map now (map seen world.old.lines.items)) }
    ensures elements { OnOk result (store.new.elements ≡ done store.old.elements changes.now) }
    ensures last { OnOk result (store.new.last ≡ last_after store.old.last changes.now) }
    ensures kept { OnOk result (HoldsAlso (record store.old { kept = [] }) store.new (added_by changes.now)) }
    ensures quiet { OnOk result (world.new.counter ≡ 0) }
    ensures counted { OnOk result (All (IsCounted net.now.nodes store.new) world.new.lines.items) }
    ensures holds { OnOk result (HoldJust (placed (held_of store.new) net.now.nodes (length world.new.lines.items)) (sums_over store.new.elements net.now.alphas net.now.nodes) (map now (map seen world.new.lines.items))) }
    ensures lines { OnOk result (numbers_of world.new ≡ numbers_of world.old) }
    ensures bundle { OnOk result (IsBundle (held_of store.new) net.now.alphas net.now.nodes (placed (held_of store.new) net.now.nodes (length world.new.lines.items)) store.old.elements changes.now (map seen world.new.lines.items)) }
    ensures settled { IfOk result (λ g. IsSettled (found_over net.now.alphas net.now.nodes store.old.elements) (found_over net.now.alphas net.now.nodes store.new.elements) g.gone.items g.come.items) }
    ensures workers { OnOk result (sharing.new.workers ≡ sharing.old.workers) }
{
    settle_laws();
    do_changes(alloc, store, changes)?;
    run_phase(rt, alloc, net, store, gate, world, sharing, changes)?;
    let gathered = gather_worked(alloc, net, world.lines(), world.worked())?;
    Ok(gathered)
}
