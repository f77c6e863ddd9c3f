//! The tasks that are due at nodes that were appended to a network.
ghost use Rattle.std.specs.Prelude.{◌≡◌, ◌++◌, ◌<◌, All, IfOk, true, OnOk, Some, length, slice_get};
ghost use Rattle.token_line.specs.Held.{TaskFits};
ghost use Rattle.step_core.specs.Machine.{is_fed, passes_in, task_at};
ghost use Rattle.grow_laws.specs.Due.{element_tasks, root_tasks, tasks_of_node};
ghost use Rattle.grow_laws.specs.Growing.{AreDue};

use alpha_net::alpha::alpha_passes;
use net_base::net::Net;
use net_base::nodes::{Alpha, Kind, Node};
use net_base::tags::Tags;
use net_base::tasks::{Side, Task};
use ops_base::elements::Element;
use ops_base::memory::OutOfMemory;
use std::alloc::Global;
use work_store::Store;

fn passes(alphas: &[Alpha], alpha: usize, element: &Element) -> bool
    ensures { result ≡ passes_in (slice_get alphas.now alpha) (Some element.now) }
{
    match alphas.get(alpha) {
        Some(alpha) => alpha_passes(alpha, element),
        None => false,
    }
}

/// Whether the node takes the element. A group and a terminal take none.
fn is_fed(alphas: &[Alpha], node: &Node, element: &Element) -> bool
    ensures { result ≡ is_fed alphas.now (Some element.now) node.now }
{
    match node.kind {
        Kind::Join | Kind::Negated => passes(alphas, node.alpha, element),
        Kind::Group { .. } | Kind::Terminal { .. } => false,
    }
}

/// Adds the task of the element, if the node with this number takes it.
fn add_element(
    alloc: Global,
    alphas: &[Alpha],
    node: &Node,
    number: usize,
    element: &Element,
    tasks: &mut Vec<Task>,
) -> Result<(), OutOfMemory>
    ensures { OnOk result (tasks.new.items ≡ tasks.old.items ++ task_at alphas.now true element.now.tag (Some element.now) number (Some node.now)) }
{
    if is_fed(alphas, node, element) {
        let token = Tags::from_slice(alloc, &[element.tag])?;
        tasks.push(Task {
            node: number,
            side: Side::Right,
            plus: true,
            token,
        })?;
    }
    Ok(())
}

/// Adds the empty token for the node with this number, if it is a child of the root.
fn add_root(
    alloc: Global,
    node: &Node,
    number: usize,
    tasks: &mut Vec<Task>,
) -> Result<(), OutOfMemory>
    ensures { OnOk result (tasks.new.items ≡ tasks.old.items ++ root_tasks number node.now.parent) }
{
    if node.parent.is_none() {
        tasks.push(Task {
            node: number,
            side: Side::Left,
            plus: true,
            token: Tags::new(alloc),
        })?;
    }
    Ok(())
}

/// Adds a task for each element that the node with this number takes.
fn add_elements(
    alloc: Global,
    alphas: &[Alpha],
    node: &Node,
    number: usize,
    store: &Store,
    tasks: &mut Vec<Task>,
) -> Result<(), OutOfMemory>
    ensures { OnOk result (tasks.new.items ≡ tasks.old.items ++ element_tasks alphas.now number node.now store.now.elements) }
{
    for element in store.iter() {
        add_element(alloc, alphas, node, number, element, tasks)?;
    }
    Ok(())
}

/// Adds all tasks that are due at the node with this number.
fn add_tasks(
    alloc: Global,
    alphas: &[Alpha],
    node: &Node,
    number: usize,
    store: &Store,
    tasks: &mut Vec<Task>,
) -> Result<(), OutOfMemory>
    ensures { OnOk result (tasks.new.items ≡ tasks.old.items ++ tasks_of_node alphas.now store.now.elements number (Some node.now)) }
{
    add_root(alloc, node, number, tasks)?;
    add_elements(alloc, alphas, node, number, store, tasks)
}

/// The tasks that are due at the nodes from `first` on: the empty token at each child of the root, and at each node
/// that takes elements those of the store that pass its alpha. It walks over the store once for each of these nodes,
/// and does not look at the nodes before them.
pub fn tasks_due(
    alloc: Global,
    net: &Net,
    first: usize,
    store: &Store,
) -> Result<Vec<Task>, OutOfMemory>
    ensures due { IfOk result (λ v. AreDue store.now.elements net.now.alphas net.now.nodes first v.items) }
    ensures fit { IfOk result (λ v. All (TaskFits net.now.nodes store.now) v.items) }
{
    let _last = store.last();
    let nodes = net.nodes();
    let alphas = net.alphas();
    let mut tasks = Vec::new(alloc);
    for number in first..nodes.len() {
        add_tasks(alloc, alphas, &nodes[number], number, store, &mut tasks)?;
    }
    Ok(tasks)
}
