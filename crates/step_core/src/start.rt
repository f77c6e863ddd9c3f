//! The lines at the start: the left side of each child of the root has the empty token.
ghost use Rattle.std.specs.Prelude.{◌≡◌, ◌≤◌, IfOk, List, OnOk, [], length, ℕ};
ghost use Rattle.net_base.specs.declared.tasks.Side.{Side};
ghost use Rattle.net_base.specs.declared.tasks.Side.TheVariants.{Left};
ghost use Rattle.token_line.specs.Bags.{after};
ghost use Rattle.token_line.specs.Lines.{IsAlone, KeepsCodesBut, sum_in};
ghost use Rattle.step_core.specs.inner.Starts.{AreBegun, AreUnused, root_task};

use net_base::net::Net;
use net_base::tags::Tags;
use net_base::tasks::{Side, Task};
use ops_base::memory::OutOfMemory;
use std::alloc::Global;
use token_line::{GhostTasks, Line};

/// This many lines without tokens.
fn bare_lines(alloc: Global, count: usize) -> Result<Vec<Line>, OutOfMemory>
    ensures { IfOk result (λ v. AreUnused count v.items) }
{
    let mut lines = Vec::with_capacity(alloc, count)?;
    for number in 0..count {
        lines.push(Line::new(alloc, number))?;
    }
    Ok(lines)
}

/// Gives the empty token to the left side of the node, which has no tests: the node's number is the token's code.
/// This leaves no entry.
fn give_root(alloc: Global, line: &mut Line, node: usize) -> Result<(), OutOfMemory>
    requires { IsAlone line.old node node Left [] }
    ensures sums { OnOk result ((n : ℕ) (s : Side) (t : List ℕ) → sum_in line.new n s t ≡ after (sum_in line.old) (root_task node) n s t) }
    ensures entries { OnOk result (line.new.entries.items ≡ []) }
    ensures told { OnOk result (line.new.told.items ≡ []) }
    ensures number { line.new.number ≡ line.old.number }
    ensures filed { OnOk result (KeepsCodesBut line.old line.new node (root_task node)) }
{
    let task = Task {
        node,
        side: Side::Left,
        plus: true,
        token: Tags::new(alloc),
    };
    line.add(alloc, node as u64, &task, GhostTasks::none(alloc), 0)?;
    line.clear_phase();
    Ok(())
}

/// This many lines, on which the left side of each child of the root has the empty token. Such a node has no join
/// tests, so its number alone determines the line. It looks at each node.
pub(crate) fn first_lines(alloc: Global, net: &Net, count: usize) -> Result<Vec<Line>, OutOfMemory>
    requires { 1 ≤ count }
    ensures { IfOk result (λ v. AreBegun net.now.nodes count (length net.now.nodes) v.items) }
{
    let mut lines = bare_lines(alloc, count)?;
    for (number, node) in net.nodes().iter().enumerate() {
        if node.parent.is_none() {
            give_root(alloc, &mut lines[number % count], number)?;
        }
    }
    Ok(lines)
}
