//! A shared phase: lines and tasks in flight go into cells, each worker gets a pass and a thread, all are joined, and
//! the lines come back.
ghost use Rattle.std.specs.Prelude.{◌≡◌, ◌<◌, ◌≤◌, ◌^◌, [], All, IfOk, IsTrue, OnOk, length, map};
ghost use Rattle.step_core.specs.Worlds.{AreNumbered, ArePartsReady};
ghost use Rattle.turn_table.specs.Turns.{first_values, knows, number};
ghost use Rattle.free_engine.specs.Openings.{IsOpened};
ghost use Rattle.free_engine.specs.Teams.{AllEnded, AllJoined, AreReady, CanWork, HasEnded, Leads};
ghost use Rattle.free_engine.specs.Counts.{SawQuiet};
ghost use Rattle.activation.specs.Acting.{IsCounted};
ghost use Rattle.serial_engine.specs.Carrying.{CarriesOn};

use crate::phase::Phase;
use crate::slots::{Slot, lines_of, open};
use crate::working::{Ended, work};
use net_base::net::Net;
use net_base::tasks::Task;
use ops_base::memory::OutOfMemory;
use ops_io::Gate;
use std::alloc::Global;
use std::snapshot::Snapshot;
use std::sync::Wait;
use std::thread::{Threads, map_vec};
use step_core::Parts;
use token_line::Line;
use turn_table::{Cells, Pass};
use work_store::Store;

/// The cells, their first pass, and the passes of the workers.
pub(crate) type Started = (Cells<Slot>, Pass<Slot>, Vec<Pass<Slot>>);

/// Cells for a pool of the tasks in flight and for the lines, and a pass for each of this many workers. It moves each
/// line, and takes memory for each line and each worker. If memory runs out, the lines are dropped.
pub(crate) fn start(
    alloc: Global,
    net: &Net,
    store: &Store,
    parts: Parts,
    workers: usize,
) -> Result<Started, OutOfMemory>
    requires ready { ArePartsReady net.now.nodes store.now parts }
    requires few { workers ≤ 4294967296 }
    ensures opened { IfOk result (λ r. IsOpened net.now store.now workers parts.flight.items (length parts.lines.items) parts.lines.items (first_values r.0)) }
    ensures leads { IfOk result (λ r. Leads r.0 workers workers r.1) }
    ensures none { IfOk result (λ r. (knows r.1).joined ≡ []) }
    ensures passes { IfOk result (λ r. AreReady r.0 r.2.items) }
    ensures count { IfOk result (λ r. length r.2.items ≡ workers) }
{
    let slots = open(alloc, net, store, parts, workers)?;
    let (cells, mut first) = Cells::new(alloc, slots)?;
    let passes = split_all(alloc, &cells, &mut first, workers)?;
    Ok((cells, first, passes))
}

/// A pass for each worker, in the order of their numbers.
pub(crate) fn split_all(
    alloc: Global,
    cells: &Cells<Slot>,
    first: &mut Pass<Slot>,
    workers: usize,
) -> Result<Vec<Pass<Slot>>, OutOfMemory>
    requires leads { Leads cells.now 0 0 first.old }
    requires none { (knows first.old).joined ≡ [] }
    requires few { workers ≤ 4294967296 }
    ensures leads { OnOk result (Leads cells.now workers workers first.new) }
    ensures none { OnOk result ((knows first.new).joined ≡ []) }
    ensures ready { IfOk result (λ v. AreReady cells.now v.items) }
    ensures count { IfOk result (λ v. length v.items ≡ workers) }
{
    let mut passes = Vec::with_capacity(alloc, workers)?;
    for _ in 0..workers {
        passes.push(cells.split(first))?;
    }
    Ok(passes)
}

/// A worker at work. Returns true if it did whole rounds until the pool was quiet.
pub(crate) fn work_with<R: Wait, G: Gate>(
    rt: &R,
    phase: &Phase<'_>,
    gate: &G,
    pass: Pass<Slot>,
) -> (Pass<Slot>, bool)
    requires { CanWork phase.now.workers phase.now.cells.now pass }
    ensures { HasEnded phase.now.lines phase.now.first.now.value.items phase.now.cells.now (number pass) result }
{
    let worker = pass.number() - 1;
    let Ended { pass, whole } = work(rt, phase, gate, pass, worker);
    (pass, whole)
}

/// Runs all workers at once, each with its pass in a thread of its own, and one of them on the calling thread. If a
/// thread can't be started, its work is done on the thread that tried to start it. It waits for all of them.
pub(crate) fn work_all<R: Threads + Wait + Sync, G: Gate>(
    rt: &R,
    phase: &Phase<'_>,
    gate: &G,
    passes: Vec<Pass<Slot>>,
) -> Result<Vec<(Pass<Slot>, bool)>, OutOfMemory>
    requires ready { AreReady phase.now.cells.now passes.items }
    requires count { length passes.items ≡ phase.now.workers }
    ensures count { IfOk result (λ v. length v.items ≡ length passes.items) }
    ensures each { IfOk result (λ v. AllEnded phase.now.lines phase.now.first.now.value.items phase.now.cells.now v.items) }
{
    let ended = map_vec(
        rt,
        passes,
        &|pass: Pass<Slot>| -> (Pass<Slot>, bool)
            requires { CanWork phase.now.workers phase.now.cells.now pass }
            ensures { HasEnded phase.entry.now.lines phase.entry.now.first.now.value.items phase.entry.now.cells.now (number pass) result }
        { work_with(rt, phase, gate, pass) },
    )?;
    Ok(ended)
}

/// Joins all. Returns true if each did whole rounds until the pool was quiet.
pub(crate) fn join_all(
    cells: &Cells<Slot>,
    first: &mut Pass<Slot>,
    ended: Vec<(Pass<Slot>, bool)>,
    tasks: &Snapshot<Vec<Task>>,
    lines: usize,
) -> bool
    requires leads { Leads cells.now (length ended.items) (length ended.items) first.old }
    requires none { (knows first.old).joined ≡ [] }
    requires ended { AllEnded lines tasks.now.value.items cells.now ended.items }
    ensures leads { Leads cells.now (length ended.items) 0 first.new }
    ensures joined { IsTrue result → AllJoined lines (length ended.items) (knows first.new).joined }
    ensures saw { IsTrue result → 0 < length ended.items → SawQuiet tasks.now.value.items (knows first.new).seen }
{
    // Only contracts read these.
    let _tasks = tasks;
    let _lines = lines;
    let mut whole = true;
    for one in ended {
        if !one.1 {
            whole = false;
        }
        cells.join(first, one.0);
    }
    whole
}

/// The lines, once each of this many workers was joined and did whole rounds until the pool was quiet. Each phase
/// that was in progress in the lines that were opened is in progress in these, and no task is waiting. It moves each
/// line twice, and waits for nothing. If memory runs out, the lines are dropped.
pub(crate) fn close(
    alloc: Global,
    net: &Net,
    store: &Store,
    cells: Cells<Slot>,
    pass: Pass<Slot>,
    opened: &Snapshot<Parts>,
    workers: usize,
) -> Result<Vec<Line>, OutOfMemory>
    requires opened { IsOpened net.now store.now workers opened.now.value.flight.items (length opened.now.value.lines.items) opened.now.value.lines.items (first_values cells) }
    requires numbered { AreNumbered opened.now.value.lines.items }
    requires leads { Leads cells workers 0 pass }
    requires joined { AllJoined (length opened.now.value.lines.items) workers (knows pass).joined }
    requires saw { SawQuiet opened.now.value.flight.items (knows pass).seen }
    ensures carries { IfOk result (λ v. CarriesOn net.now.alphas net.now.nodes store.now opened.now.value.lines.items opened.now.value.flight.items v.items []) }
    ensures counted { IfOk result (λ v. All (IsCounted net.now.nodes store.now) v.items) }
    ensures numbers { IfOk result (λ v. map (λ l. l.number) v.items ≡ map (λ l. l.number) opened.now.value.lines.items) }
{
    // Only contracts read these.
    let _net = net;
    let _store = store;
    let _opened = opened;
    let _workers = workers;
    match cells.close(pass) {
        Ok(closed) => lines_of(alloc, closed.cells),
        Err(_) => Err(OutOfMemory),
    }
}

/// Performs the tasks in flight, and all that result, by this many workers. It starts a thread for each but one,
/// moves each line twice, and waits for all workers. If memory runs out at one of them, the others stop too.
pub(crate) fn share<R: Threads + Wait + Sync, G: Gate>(
    rt: &R,
    alloc: Global,
    net: &Net,
    store: &Store,
    gate: &G,
    parts: Parts,
    workers: usize,
) -> Result<Vec<Line>, OutOfMemory>
    requires some { 1 ≤ workers }
    requires few { workers ≤ 2 ^ 32 }
    requires lines { 1 ≤ length parts.lines.items }
    requires numbered { AreNumbered parts.lines.items }
    requires ready { ArePartsReady net.now.nodes store.now parts }
    ensures carries { IfOk result (λ v. CarriesOn net.now.alphas net.now.nodes store.now parts.lines.items parts.flight.items v.items []) }
    ensures counted { IfOk result (λ v. All (IsCounted net.now.nodes store.now) v.items) }
    ensures numbers { IfOk result (λ v. map (λ l. l.number) v.items ≡ map (λ l. l.number) parts.lines.items) }
{
    let count = parts.lines.len();
    let opened = Snapshot::of(&parts);
    let tasks = Snapshot::of(&parts.flight);
    let (cells, mut pass, passes) = start(alloc, net, store, parts, workers)?;
    let phase = Phase {
        alloc,
        cells: &cells,
        net,
        store,
        first: &tasks,
        lines: count,
        workers,
    };
    let ended = work_all(rt, &phase, gate, passes)?;
    let whole = join_all(&cells, &mut pass, ended, &tasks, count);
    if whole {
        close(alloc, net, store, cells, pass, &opened, workers)
    } else {
        Err(OutOfMemory)
    }
}
