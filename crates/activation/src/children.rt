//! Builds the tasks for the children of a node from the node's output.
ghost use Rattle.std.specs.Prelude.{◌≡◌, ◌++◌, IfOk, OnOk, map, replicate, ◌≤◌, vec_capacity};
ghost use Rattle.token_line.specs.Bags.{standing};
ghost use Rattle.activation.specs.inner.Children.{Grows, child, children_of, targets_of, to_each};
ghost use Rattle.activation.specs.inner.Putting.{put_if, tagged};

use net_base::tags::Tags;
use net_base::tasks::{Side, Task};
use ops_base::memory::OutOfMemory;
use std::alloc::Global;
use token_line::TokenCount;

/// The nodes that a node feeds: those fed on their left side, and the groups fed on their right side. Its output
/// arrives there if `plus` is set, and leaves otherwise.
#[derive(Clone, Copy)]
pub(crate) struct Below<'a> {
    pub(crate) children: &'a [usize],
    pub(crate) rights: &'a [usize],
    pub(crate) plus: bool,
}

/// The token, followed by the tag if there is one.
fn with_tag(alloc: Global, token: &[u64], tag: Option<u64>) -> Result<Tags, OutOfMemory>
    ensures { IfOk result (λ t. t ≡ tagged token.now tag) }
{
    let mut made = Tags::from_slice(alloc, token)?;
    if let Some(tag) = tag {
        made.push(tag)?;
    }
    Ok(made)
}

/// A token that a node puts out, followed by the tag if there is one, and how many times it is put out.
#[derive(Clone, Copy)]
struct Output<'a> {
    token: &'a [u64],
    tag: Option<u64>,
    times: u64,
}

/// Adds a task for one side of a node, once for each time that the token is put out. If memory runs out, some may
/// have been added.
fn push_to(
    alloc: Global,
    node: usize,
    side: Side,
    plus: bool,
    output: Output,
    out: &mut Vec<Task>,
) -> Result<(), OutOfMemory>
    ensures ok { OnOk result (out.new.items ≡ out.old.items ++ replicate output.entry.times (child plus (tagged output.entry.token.now output.entry.tag) (side, node))) }
    ensures grown { Grows out.old.items out.new.items }
    ensures capacity { vec_capacity out.old ≤ vec_capacity out.new }
{
    for _time in 0..output.times {
        let token = with_tag(alloc, output.token, output.tag)?;
        out.push(Task {
            node,
            side,
            plus,
            token,
        })?;
    }
    Ok(())
}

/// Adds the tasks for one side of each of these nodes. If memory runs out, some may have been added.
fn push_to_all(
    alloc: Global,
    nodes: &[usize],
    side: Side,
    plus: bool,
    output: Output,
    out: &mut Vec<Task>,
) -> Result<(), OutOfMemory>
    ensures ok { OnOk result (out.new.items ≡ out.old.items ++ to_each (map (λ n. (side, n)) nodes.now) plus (record { token = tagged output.entry.token.now output.entry.tag; times = output.entry.times })) }
    ensures grown { Grows out.old.items out.new.items }
    ensures capacity { vec_capacity out.old ≤ vec_capacity out.new }
{
    for node in nodes {
        push_to(alloc, *node, side, plus, output, out)?;
    }
    Ok(())
}

/// Adds the tasks for each node below, for a token that is put out the given number of times: first for the left side
/// of each child, then for the right side of each group. If memory runs out, some may have been added.
pub(crate) fn push_to_each(
    alloc: Global,
    below: Below,
    token: &[u64],
    tag: Option<u64>,
    times: u64,
    out: &mut Vec<Task>,
) -> Result<(), OutOfMemory>
    ensures ok { OnOk result (out.new.items ≡ out.old.items ++ to_each (targets_of below.entry.children.now below.entry.rights.now) below.entry.plus (record { token = tagged token.now tag; times = times })) }
    ensures grown { Grows out.old.items out.new.items }
    ensures capacity { vec_capacity out.old ≤ vec_capacity out.new }
{
    let plus = below.plus;
    let output = Output { token, tag, times };
    push_to_all(alloc, below.children, Side::Left, plus, output, out)?;
    push_to_all(alloc, below.rights, Side::Right, plus, output, out)
}

/// The effective count of a token with this sum.
pub(crate) fn standing(sum: i64) -> u64
    ensures { result ≡ standing sum }
{
    if sum > 0 { sum as u64 } else { 0 }
}

/// If `holds` is set, adds the tasks for each node below, for a token that is put out as many times as the effective
/// count of the kept sum. If memory runs out, some may have been added.
pub(crate) fn push_if(
    alloc: Global,
    holds: bool,
    below: Below,
    token: &[u64],
    tag: Option<u64>,
    cell: TokenCount,
    out: &mut Vec<Task>,
) -> Result<(), OutOfMemory>
    ensures ok { OnOk result (out.new.items ≡ out.old.items ++ children_of (targets_of below.entry.children.now below.entry.rights.now) below.entry.plus (put_if holds (tagged token.now tag) cell.sum)) }
    ensures grown { Grows out.old.items out.new.items }
    ensures capacity { vec_capacity out.old ≤ vec_capacity out.new }
{
    if !holds {
        return Ok(());
    }
    push_to_each(alloc, below, token, tag, standing(cell.sum), out)
}
