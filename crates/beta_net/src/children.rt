//! The children of each node.
ghost use Rattle.std.specs.Prelude.{◌≡◌, ◌<◌, OnOk, length, slice_get, Some};
ghost use Rattle.net_base.specs.declared.nodes.Node.{Node};
ghost use Rattle.beta_net.specs.Children.{AreOrdered, AreBare, AreFilled, AddsChild};

use net_base::nodes::Node;
use ops_base::memory::OutOfMemory;

fn parent_of(nodes: &[Node], n: usize) -> Option<usize>
    requires { n < length nodes.now }
    ensures { (x : Node) → slice_get nodes.now n ≡ Some x → result ≡ x.parent }
{
    nodes[n].parent
}

fn add_child(nodes: &mut Vec<Node>, p: usize, n: usize) -> Result<(), OutOfMemory>
    requires { p < length nodes.old.items }
    ensures { OnOk result (AddsChild nodes.old.items nodes.new.items p n) }
{
    let parent = &mut nodes[p];
    parent.children.push(n)?;
    Ok(())
}

/// Gives each node its children, in one pass over the nodes.
pub(crate) fn add_children(nodes: &mut Vec<Node>) -> Result<(), OutOfMemory>
    requires ordered { AreOrdered nodes.old.items }
    requires bare { AreBare nodes.old.items }
    ensures { OnOk result (AreFilled nodes.old.items nodes.new.items (length nodes.old.items)) }
{
    let count = nodes.as_slice().len();
    for n in 0..count {
        if let Some(p) = parent_of(nodes.as_slice(), n) {
            add_child(nodes, p, n)?;
        }
    }
    Ok(())
}
