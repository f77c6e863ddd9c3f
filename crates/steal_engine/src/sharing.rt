//! A shared phase: lines go into cells and tasks in flight into deques, each worker gets a pass and a thread, all are
//! joined, and the lines come back with the tasks that were left.
ghost use Rattle.std.specs.Prelude.{◌≡◌, ◌<◌, ◌≤◌, ◌^◌, [], All, IfOk, OnOk, length, map};
ghost use Rattle.net_base.specs.declared.tasks.Task.{Task};
ghost use Rattle.token_line.specs.Held.{TaskFits};
ghost use Rattle.step_core.specs.Worlds.{AreNumbered, ArePartsReady};
ghost use Rattle.serial_engine.specs.Carrying.{CarriesOn};
ghost use Rattle.turn_table.specs.Turns.{IsFirstOf, first_values, knows, splits, split_off};
ghost use Rattle.steal_engine.specs.Logged.{AreNew, BalancesAll};
ghost use Rattle.steal_engine.specs.Opened.{AreRows};

use crate::deques::{deal, deques};
use crate::phase::Phase;
use crate::rows::{Row, lines_of, open};
use crate::running::run_ring;
use net_base::net::Net;
use net_base::tasks::Task;
use ops_base::memory::OutOfMemory;
use ops_io::Gate;
use std::alloc::Global;
use std::collections::VecDeque;
use std::marker::Brand;
use std::snapshot::Snapshot;
use std::sync::Wait;
use std::sync::atomic::AtomicUsize;
use std::thread::Threads;
use step_core::Parts;
use task_deque::Fitting;
use turn_table::{Cells, Pass};
use work_store::Store;

/// A pass for each worker, in the order of their numbers.
pub(crate) fn split_all(
    alloc: Global,
    cells: &Cells<Row>,
    first: &mut Pass<Row>,
    workers: usize,
) -> Result<VecDeque<Pass<Row>>, OutOfMemory>
    requires first { IsFirstOf cells.now first.old }
    requires own { (knows first.old).own ≡ [] }
    requires none { (knows first.old).joined ≡ [] }
    requires splits { splits first.old ≡ 0 }
    requires apart { split_off first.old ≡ 0 }
    requires few { workers ≤ 4294967296 }
    ensures first { OnOk result (IsFirstOf cells.now first.new) }
    ensures own { OnOk result ((knows first.new).own ≡ []) }
    ensures none { OnOk result ((knows first.new).joined ≡ []) }
    ensures splits { OnOk result (splits first.new ≡ workers) }
    ensures apart { OnOk result (split_off first.new ≡ workers) }
    ensures count { IfOk result (λ v. length v.items ≡ workers) }
    ensures new { IfOk result (λ v. AreNew cells.now 1 v.items) }
{
    let mut passes = VecDeque::new(alloc);
    for _ in 0..workers {
        passes.push_back(cells.split(first))?;
    }
    Ok(passes)
}

/// The lines, once all workers were joined, with the tasks that were left. Each phase that was in progress in the
/// lines that were opened is in progress in these. It moves each line twice, and waits for nothing. If memory runs
/// out, the lines are dropped.
pub(crate) fn close(
    alloc: Global,
    net: &Net,
    store: &Store,
    cells: Cells<Row>,
    pass: Pass<Row>,
    opened: &Snapshot<Parts>,
    left: Vec<Task>,
) -> Result<Parts, OutOfMemory>
    requires opened { AreRows net.now store.now (length opened.now.value.lines.items) opened.now.value.lines.items (first_values cells) }
    requires some { 1 ≤ length opened.now.value.lines.items }
    requires numbered { AreNumbered opened.now.value.lines.items }
    requires first { IsFirstOf cells pass }
    requires apart { split_off pass ≡ 0 }
    requires balanced { BalancesAll opened.now.value.flight.items left.items (knows pass) }
    requires fit { All (TaskFits net.now.nodes store.now) left.items }
    ensures carries { IfOk result (λ p. CarriesOn net.now.alphas net.now.nodes store.now opened.now.value.lines.items opened.now.value.flight.items p.lines.items p.flight.items) }
    ensures ready { IfOk result (λ p. ArePartsReady net.now.nodes store.now p) }
    ensures numbers { IfOk result (λ p. map (λ l. l.number) p.lines.items ≡ map (λ l. l.number) opened.now.value.lines.items) }
    ensures some { IfOk result (λ p. 1 ≤ length p.lines.items) }
{
    // Only contracts read these.
    let _net = net;
    let _store = store;
    let _opened = opened;
    let Ok(closed) = cells.close(pass) else {
        return Err(OutOfMemory);
    };
    let lines = lines_of(alloc, closed.cells)?;
    Ok(Parts {
        lines,
        flight: left,
    })
}

/// As `share`, with deques of tasks that are known to fit.
fn share_picked<R: Threads + Wait + Sync, G: Gate, J: Fitting + Send + Sync>(
    rt: &R,
    alloc: Global,
    net: &Net,
    store: &Store,
    gate: &G,
    parts: Parts,
    workers: usize,
) -> Result<Parts, OutOfMemory>
    requires means { (x : Task) → J.fits x → TaskFits net.now.nodes store.now x }
    requires meant { (x : Task) → TaskFits net.now.nodes store.now x → J.fits x }
    requires few { workers ≤ 2 ^ 32 }
    requires lines { 1 ≤ length parts.lines.items }
    requires numbered { AreNumbered parts.lines.items }
    requires ready { ArePartsReady net.now.nodes store.now parts }
    ensures carries { IfOk result (λ p. CarriesOn net.now.alphas net.now.nodes store.now parts.lines.items parts.flight.items p.lines.items p.flight.items) }
    ensures ready { IfOk result (λ p. ArePartsReady net.now.nodes store.now p) }
    ensures numbers { IfOk result (λ p. map (λ l. l.number) p.lines.items ≡ map (λ l. l.number) parts.lines.items) }
    ensures some { IfOk result (λ p. 1 ≤ length p.lines.items) }
{
    let count = parts.lines.len();
    let opened = Snapshot::of(&parts);
    let Parts { lines, flight } = parts;
    let rows = open(alloc, net, store, lines)?;
    let (cells, mut first) = Cells::new(alloc, rows)?;
    let passes = split_all(alloc, &cells, &mut first, workers)?;
    let mut owns = deques::<J>(alloc, workers)?;
    deal(&mut owns, flight)?;
    let busy = AtomicUsize::new(0);
    let phase = Phase {
        alloc,
        cells: &cells,
        net,
        store,
        busy: &busy,
        lines: count,
    };
    let left = run_ring(rt, &phase, gate, &mut first, passes, owns)?;
    close(alloc, net, store, cells, first, &opened, left)
}

/// Performs tasks in flight, and tasks that result, by this many workers. It starts a thread for each but one, moves
/// each line twice, and waits for all workers. Tasks that a worker left in its deque when it stopped are in flight in
/// the result. If memory runs out at one of them, the others continue until they are done.
pub(crate) fn share<R: Threads + Wait + Sync, G: Gate>(
    rt: &R,
    alloc: Global,
    net: &Net,
    store: &Store,
    gate: &G,
    parts: Parts,
    workers: usize,
) -> Result<Parts, OutOfMemory>
    requires few { workers ≤ 2 ^ 32 }
    requires lines { 1 ≤ length parts.lines.items }
    requires numbered { AreNumbered parts.lines.items }
    requires ready { ArePartsReady net.now.nodes store.now parts }
    ensures carries { IfOk result (λ p. CarriesOn net.now.alphas net.now.nodes store.now parts.lines.items parts.flight.items p.lines.items p.flight.items) }
    ensures ready { IfOk result (λ p. ArePartsReady net.now.nodes store.now p) }
    ensures numbers { IfOk result (λ p. map (λ l. l.number) p.lines.items ≡ map (λ l. l.number) parts.lines.items) }
    ensures some { IfOk result (λ p. 1 ≤ length p.lines.items) }
{
    share_picked::<R, G, Brand>(rt, alloc, net, store, gate, parts, workers)
}
