//! The lines at work: performs a task on its line, and keeps a list of the lines that have entries, so that only
//! these are cleared.
ghost use Rattle.std.specs.Prelude.{◌≡◌, ◌≢◌, ◌≤◌, ◌<◌, ◌∷◌, ◌++◌, [], All, IfOk, List, OnErr, OnOk, length, map, vec_capacity, vec_len};
ghost use Rattle.work_store.specs.Stored.{Stored};
ghost use Rattle.net_base.specs.declared.nodes.Node.{Node};
ghost use Rattle.token_line.specs.Held.{TaskFits};
ghost use Rattle.activation.specs.Acting.{IsCounted};
ghost use Rattle.step_core.specs.Machine.{cleared};
ghost use Rattle.step_core.specs.inner.Worked.{AreWorked};
ghost use Rattle.step_core.specs.Worlds.{ActsOn, line_of_task, seen};

use activation::activate_coded;
use net_base::net::Net;
use net_base::tasks::Task;
use ops_base::memory::OutOfMemory;
use std::alloc::Global;
use token_line::{Line, place_of};
use work_store::Store;

/// Appends the line's place to the list of worked lines, if its only entry is its first.
fn name_worked(worked: &mut Vec<usize>, place: usize, line: &Line)
    requires { vec_len worked.old < vec_capacity worked.old }
    ensures first { length line.now.entries.items ≡ 1 → worked.new.items ≡ worked.old.items ++ place ∷ [] }
    ensures later { length line.now.entries.items ≢ 1 → worked.new.items ≡ worked.old.items }
{
    if line.entries().len() == 1 {
        worked.push_reserved(place);
    }
}

/// Performs the task on its line, and appends its children to `out`. `enter` gets the number of the line just before.
/// If memory runs out, nothing has changed.
#[inline(always)]
pub(crate) fn act_on<F: Fn(usize)>(
    lines: &mut Vec<Line>,
    worked: &mut Vec<usize>,
    alloc: Global,
    net: &Net,
    store: &Store,
    enter: &F,
    task: &Task,
    out: &mut Vec<Task>,
) -> Result<(), OutOfMemory>
    requires enter { F.pre enter.now (line_of_task store.now net.now.nodes (length lines.old.items) task.now) }
    requires some { 1 ≤ length lines.old.items }
    requires told { AreWorked lines.old.items worked.old.items }
    requires fits { TaskFits net.now.nodes store.now task.now }
    requires counted { All (IsCounted net.now.nodes store.now) lines.old.items }
    ensures acts { OnOk result (ActsOn net.now.nodes store.now task.now lines.old.items lines.new.items out.old.items out.new.items) }
    ensures told { AreWorked lines.new.items worked.new.items }
    ensures counted { All (IsCounted net.now.nodes store.now) lines.new.items }
    ensures numbers { map (λ l. l.number) lines.new.items ≡ map (λ l. l.number) lines.old.items }
    ensures count { length lines.new.items ≡ length lines.old.items }
    ensures same_seen { OnErr result (map seen lines.new.items ≡ map seen lines.old.items) }
    ensures same_out { OnErr result (out.new.items ≡ out.old.items) }
    ensures capacity { vec_capacity out.old ≤ vec_capacity out.new }
{
    worked.reserve(1)?;
    let place = place_of(net, store, task, lines.len());
    enter(place.line);
    let line = &mut lines[place.line];
    activate_coded(alloc, net, store, line, task, place.code, out)?;
    name_worked(worked, place.line, &lines[place.line]);
    Ok(())
}

/// The places of the lines that have entries. It looks at each line.
pub(crate) fn worked_lines(alloc: Global, lines: &[Line]) -> Result<Vec<usize>, OutOfMemory>
    ensures { IfOk result (λ v. AreWorked lines.now v.items) }
{
    let mut worked = Vec::new(alloc);
    for (place, line) in lines.iter().enumerate() {
        if !line.entries().is_empty() {
            worked.push(place)?;
        }
    }
    Ok(worked)
}

/// Begins a phase on the lines that have entries; they then have none.
pub(crate) fn clear_worked(lines: &mut Vec<Line>, worked: &mut Vec<usize>)
    requires { AreWorked lines.old.items worked.old.items }
    ensures cleared { map seen lines.new.items ≡ map cleared (map seen lines.old.items) }
    ensures told { AreWorked lines.new.items worked.new.items }
    ensures counted { (nodes : List Node) (s : Stored) → All (IsCounted nodes s) lines.old.items → All (IsCounted nodes s) lines.new.items }
    ensures numbers { map (λ l. l.number) lines.new.items ≡ map (λ l. l.number) lines.old.items }
    ensures count { length lines.new.items ≡ length lines.old.items }
{
    while let Some(place) = worked.pop() {
        lines[place].clear_phase();
    }
}
