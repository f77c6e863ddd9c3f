//! Builds the tasks that a change feeds, directly in the flight.
ghost use Rattle.std.specs.Prelude.{◌≡◌, ◌++◌, All, IfOk, OnErr, OnOk, Some, [], length, map, slice_get};
ghost use Rattle.std.specs.List.Sorted.{IsPermutation, IsSorted};
ghost use Rattle.std.specs.Ordering.{nat_cmp};
ghost use Rattle.net_base.specs.Tokens.{Elements};
ghost use Rattle.token_line.specs.Held.{Agrees, TaskFits};
ghost use Rattle.activation.specs.inner.Children.{Grows};
ghost use Rattle.step_core.specs.Machine.{fed_by, passes_in, tasks_below};
ghost use Rattle.step_core.specs.Feeding.{AreTakers, IsKnown, right_task};

use alpha_net::alpha::alpha_passes;
use net_base::net::{Net, Numbers};
use net_base::nodes::Alpha;
use net_base::tags::Tags;
use net_base::tasks::{Side, Task};
use ops_base::elements::{Change, Element};
use ops_base::memory::OutOfMemory;
use std::alloc::Global;
use work_store::Store;

/// Whether the element passes the alpha of that number.
fn passes(alphas: &[Alpha], alpha: usize, element: &Element) -> bool
    ensures { result ≡ passes_in (slice_get alphas.now alpha) (Some element.now) }
{
    match alphas.get(alpha) {
        Some(alpha) => alpha_passes(alpha, element),
        None => false,
    }
}

/// Puts the nodes that take the element into an empty list, each once, in no particular order. Each alpha that the
/// element can pass is tested once.
fn find_takers(
    alloc: Global,
    net: &Net,
    element: &Element,
    nodes: &mut Numbers,
) -> Result<(), OutOfMemory>
    requires { nodes.old.items ≡ [] }
    ensures { OnOk result (AreTakers net.now.alphas net.now.nodes element.now nodes.new.items) }
{
    let mut candidates = Numbers::new(alloc);
    net.candidates(element, &mut candidates)?;
    for alpha in candidates.as_slice() {
        if passes(net.alphas(), *alpha, element) {
            nodes.extend_from_slice(net.takers(*alpha))?;
        }
    }
    Ok(())
}

fn sort(numbers: &mut Numbers)
    ensures moved { IsPermutation numbers.old.items numbers.new.items }
    ensures sorted { IsSorted nat_cmp numbers.new.items }
{
    numbers.as_mut_slice().sort_unstable();
}

/// Adds a task of that element for each of the nodes. If memory runs out, some may have been added.
fn add_tasks(
    alloc: Global,
    nodes: &[usize],
    plus: bool,
    tag: u64,
    flight: &mut Vec<Task>,
) -> Result<(), OutOfMemory>
    ensures ok { OnOk result (flight.new.items ≡ flight.old.items ++ map (right_task plus tag) nodes.now) }
    ensures grown { Grows flight.old.items flight.new.items }
{
    flight.reserve(nodes.len())?;
    for node in nodes {
        let token = Tags::from_slice(alloc, &[tag])?;
        flight.push(Task {
            node: *node,
            side: Side::Right,
            plus,
            token,
        })?;
    }
    Ok(())
}

/// The same, except that nothing has changed if memory runs out.
fn add_all(
    alloc: Global,
    nodes: &[usize],
    plus: bool,
    tag: u64,
    flight: &mut Vec<Task>,
) -> Result<(), OutOfMemory>
    ensures ok { OnOk result (flight.new.items ≡ flight.old.items ++ map (right_task plus tag) nodes.now) }
    ensures err { OnErr result (flight.new.items ≡ flight.old.items) }
{
    let before = flight.len();
    match add_tasks(alloc, nodes, plus, tag, flight) {
        Ok(()) => Ok(()),
        Err(failed) => {
            flight.truncate(before);
            Err(failed)
        }
    }
}

/// Adds the tasks of that element, one for each node that takes it, in the order of the nodes.
fn add_for(
    alloc: Global,
    net: &Net,
    plus: bool,
    tag: u64,
    element: &Element,
    flight: &mut Vec<Task>,
) -> Result<(), OutOfMemory>
    ensures ok { OnOk result (flight.new.items ≡ flight.old.items ++ tasks_below net.now.alphas net.now.nodes plus tag (Some element.now) (length net.now.nodes)) }
    ensures err { OnErr result (flight.new.items ≡ flight.old.items) }
{
    let mut nodes = Numbers::new(alloc);
    find_takers(alloc, net, element, &mut nodes)?;
    sort(&mut nodes);
    add_all(alloc, nodes.as_slice(), plus, tag, flight)
}

/// Appends the tasks that a change feeds to the flight, in the order of their nodes. It looks up the alphas that the
/// element can pass, tests these, and sorts the nodes that take it. With up to 16 alphas and 16 nodes it takes no
/// memory except for the room in flight. If memory runs out, nothing has changed.
pub(crate) fn add_fed(
    alloc: Global,
    net: &Net,
    store: &Store,
    change: &Change,
    flight: &mut Vec<Task>,
) -> Result<(), OutOfMemory>
    requires { IsKnown store.now change.now }
    ensures tasks { OnOk result ((elements : Elements) → Agrees store.now elements → flight.new.items ≡ flight.old.items ++ fed_by elements net.now.alphas net.now.nodes change.now) }
    ensures fit { All (TaskFits net.now.nodes store.now) flight.old.items → All (TaskFits net.now.nodes store.now) flight.new.items }
    ensures err { OnErr result (flight.new.items ≡ flight.old.items) }
{
    match change {
        Change::Add(element) => add_for(alloc, net, true, element.tag, element, flight),
        Change::Remove(tag) => match store.kept(*tag) {
            Some(element) => add_for(alloc, net, false, *tag, element, flight),
            None => unreachable!(),
        },
    }
}
