//! The nodes of a network, renumbered to follow those of another network.
ghost use Rattle.std.specs.Prelude.{◌≡◌, ◌+◌, ◌<◌, ◌^◌, All, IfOk, map};
ghost use Rattle.grow_net.specs.Behind.{HasRoom, alpha_behind, kind_behind, kind_has_room, node_behind};

use net_base::nodes::{Kind, Node};
use ops_base::list::Listed;
use ops_base::memory::OutOfMemory;
use std::alloc::Global;

/// How many nodes and productions come before those of a network.
#[derive(Clone, Copy)]
pub(crate) struct Before {
    pub(crate) nodes: usize,
    pub(crate) rules: usize,
}

fn kind_behind(before: Before, kind: Kind) -> Kind
    requires { kind_has_room before.nodes before.rules kind }
    ensures { result ≡ kind_behind before.nodes before.rules kind }
{
    match kind {
        Kind::Join => Kind::Join,
        Kind::Negated => Kind::Negated,
        Kind::Group {
            giver,
            width,
            members,
        } => Kind::Group {
            giver: before.nodes + giver,
            width,
            members,
        },
        Kind::Terminal { rule } => Kind::Terminal {
            rule: before.rules + rule,
        },
    }
}

fn alpha_behind(places: &[usize], node: &Node) -> usize
    ensures { result ≡ alpha_behind places.now node.now }
{
    match node.kind {
        Kind::Join | Kind::Negated => match places.get(node.alpha) {
            Some(place) => *place,
            None => 0,
        },
        Kind::Group { .. } | Kind::Terminal { .. } => 0,
    }
}

fn numbers_behind(
    alloc: Global,
    nodes: usize,
    numbers: &[usize],
) -> Result<Listed<usize>, OutOfMemory>
    requires { All (λ c. nodes + c < 2 ^ 64) numbers.now }
    ensures { IfOk result (λ v. v ≡ map (λ c. nodes + c) numbers.now) }
{
    let mut behind = Vec::new(alloc);
    for number in numbers {
        behind.push(nodes + *number)?;
    }
    Ok(Listed::from_vec(behind))
}

fn node_behind(
    alloc: Global,
    before: Before,
    places: &[usize],
    node: &Node,
) -> Result<Node, OutOfMemory>
    requires { HasRoom before.nodes before.rules node.now }
    ensures { IfOk result (λ x. x ≡ node_behind before.nodes before.rules places.now node.now) }
{
    let parent = match node.parent {
        Some(parent) => Some(before.nodes + parent),
        None => None,
    };
    Ok(Node {
        kind: kind_behind(before, node.kind),
        parent,
        class: node.class,
        alpha: alpha_behind(places, node),
        joins: node.joins.copy(alloc)?,
        children: numbers_behind(alloc, before.nodes, node.children.as_slice())?,
        rights: numbers_behind(alloc, before.nodes, node.rights.as_slice())?,
        depth: node.depth,
    })
}

/// The nodes of a network, renumbered to follow others.
pub(crate) fn nodes_behind(
    alloc: Global,
    before: Before,
    places: &[usize],
    nodes: &[Node],
) -> Result<Vec<Node>, OutOfMemory>
    requires { All (HasRoom before.nodes before.rules) nodes.now }
    ensures { IfOk result (λ v. v.items ≡ map (node_behind before.nodes before.rules places.now) nodes.now) }
{
    let mut behind = Vec::new(alloc);
    for node in nodes {
        behind.push(node_behind(alloc, before, places, node)?)?;
    }
    Ok(behind)
}
