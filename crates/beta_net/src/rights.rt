//! The groups that each node feeds on their right side.
ghost use Rattle.std.specs.Prelude.{◌≡◌, ◌<◌, OnOk, length, slice_get, Some};
ghost use Rattle.net_base.specs.declared.nodes.Node.{Node};
ghost use Rattle.beta_net.specs.Rights.{giver_of, AreGiversBefore, AreRightless, AreGiven, AddsRight};

use net_base::nodes::{Kind, Node};
use ops_base::memory::OutOfMemory;

fn giver_of(kind: Kind) -> Option<usize>
    ensures { result ≡ giver_of kind }
{
    match kind {
        Kind::Group { giver, .. } => Some(giver),
        Kind::Join | Kind::Negated | Kind::Terminal { .. } => None,
    }
}

fn giver_at(nodes: &[Node], n: usize) -> Option<usize>
    requires { n < length nodes.now }
    ensures { (x : Node) → slice_get nodes.now n ≡ Some x → result ≡ giver_of x.kind }
{
    giver_of(nodes[n].kind)
}

fn add_right(nodes: &mut Vec<Node>, p: usize, n: usize) -> Result<(), OutOfMemory>
    requires { p < length nodes.old.items }
    ensures { OnOk result (AddsRight nodes.old.items nodes.new.items p n) }
{
    let giver = &mut nodes[p];
    giver.rights.push(n)?;
    Ok(())
}

/// Gives each node the numbers of the groups whose giver it is, in one pass over the nodes.
pub(crate) fn add_rights(nodes: &mut Vec<Node>) -> Result<(), OutOfMemory>
    requires ordered { AreGiversBefore nodes.old.items }
    requires rightless { AreRightless nodes.old.items }
    ensures { OnOk result (AreGiven nodes.old.items nodes.new.items (length nodes.old.items)) }
{
    let count = nodes.as_slice().len();
    for n in 0..count {
        if let Some(p) = giver_at(nodes.as_slice(), n) {
            add_right(nodes, p, n)?;
        }
    }
    Ok(())
}
