//! The nodes of the links, and the terminals below them.
ghost use Rattle.std.specs.Prelude.{◌≡◌, [], IfOk, OnOk, length};
ghost use Rattle.net_base.specs.declared.normal.NormalPart.TheVariants.{One};
ghost use Rattle.beta_net.specs.Built.{AreAlphas, AddsNode, AreNodes, AreUsed, AreDistinct, AddsTerminals, IsDraft, IsTerminalNode, IsGroupNode, kind_of};
ghost use Rattle.beta_net.specs.Children.{AreBare};
ghost use Rattle.beta_net.specs.Rights.{AreRightless};

use crate::alphas::{Alphas, number_of};
use crate::chains::Chains;
use crate::links::Link;
use crate::paths::End;
use alpha_net::parts::{alpha_tests, join_tests};
use net_base::nodes::{Alpha, Kind, Node};
use net_base::normal::{NormalCondition, NormalPart};
use ops_base::list::Listed;
use ops_base::memory::OutOfMemory;
use std::alloc::Global;

/// Alphas and nodes that are not yet a `Net`.
#[derive(Drop)]
pub(crate) struct Draft {
    pub(crate) alphas: Vec<Alpha>,
    pub(crate) nodes: Vec<Node>,
}

fn kind_of(condition: &NormalCondition) -> Kind
    ensures { result ≡ kind_of condition.now }
{
    if condition.negated {
        Kind::Negated
    } else {
        Kind::Join
    }
}

/// The node of a link of a condition.
fn condition_node(
    alloc: Global,
    alphas: &mut Alphas,
    link: &Link,
    condition: &NormalCondition,
) -> Result<Node, OutOfMemory>
    requires alphas { AreAlphas alphas.old }
    requires part { link.now.part ≡ One condition.now }
    ensures { IfOk result (λ x. AddsNode alphas.old alphas.new link.now x) }
{
    let tests = condition.tests.as_slice();
    let alone = alpha_tests(alloc, link.place, tests)?;
    let alpha = number_of(alphas, condition.class, alone)?;
    let joins = join_tests(alloc, link.place, tests)?;
    Ok(Node {
        kind: kind_of(condition),
        parent: link.parent,
        class: condition.class,
        alpha,
        joins,
        children: Listed::new(alloc),
        rights: Listed::new(alloc),
        depth: link.depth,
    })
}

/// The node of a link of a group. Its giver is the node of its last member, which is above it and always exists,
/// since a group has members. A group tests no element, so its class and alpha, which are 0, are not used.
fn group_node(alloc: Global, link: &Link, members: &[NormalCondition]) -> Node
    ensures node { IsGroupNode link.now.place link.now.above members.now result }
    ensures parent { result.parent ≡ link.now.parent }
    ensures depth { result.depth ≡ link.now.depth }
    ensures childless { result.children ≡ [] }
    ensures rightless { result.rights ≡ [] }
{
    let kind = Kind::Group {
        giver: link.above.unwrap_or(0),
        width: link.place,
        members: members.len(),
    };
    Node {
        kind,
        parent: link.parent,
        class: 0,
        alpha: 0,
        joins: Listed::new(alloc),
        children: Listed::new(alloc),
        rights: Listed::new(alloc),
        depth: link.depth,
    }
}

/// The node of a link.
fn node_of(alloc: Global, alphas: &mut Alphas, link: &Link) -> Result<Node, OutOfMemory>
    requires { AreAlphas alphas.old }
    ensures { IfOk result (λ x. AddsNode alphas.old alphas.new link.now x) }
{
    match &link.part {
        NormalPart::One(condition) => condition_node(alloc, alphas, link, condition),
        NormalPart::Group(members) => Ok(group_node(alloc, link, members.as_slice())),
    }
}

/// The node of each link.
#[tactic(auto, using(crate::proofs::AlphaLemmas::no_alphas, crate::proofs::NodeLemmas::no_nodes, crate::proofs::NodeLemmas::none_used, crate::proofs::NodeLemmas::none_bare, crate::proofs::NodeLemmas::none_rightless))]
fn link_nodes(alloc: Global, links: &[Link]) -> Result<Draft, OutOfMemory>
    ensures nodes { IfOk result (λ d. AreNodes links.now d.alphas.items d.nodes.items) }
    ensures count { IfOk result (λ d. length d.nodes.items ≡ length links.now) }
    ensures distinct { IfOk result (λ d. AreDistinct d.alphas.items) }
    ensures used { IfOk result (λ d. AreUsed links.now d.alphas.items) }
    ensures bare { IfOk result (λ d. AreBare d.nodes.items) }
    ensures rightless { IfOk result (λ d. AreRightless d.nodes.items) }
{
    let mut alphas = Alphas {
        list: Vec::new(alloc),
        chains: Chains::new(alloc),
    };
    let mut nodes = Vec::new(alloc);
    for link in links {
        let node = node_of(alloc, &mut alphas, link)?;
        nodes.push(node)?;
    }
    Ok(Draft {
        alphas: alphas.list,
        nodes,
    })
}

fn terminal(alloc: Global, rule: usize, end: &End) -> Node
    ensures node { IsTerminalNode rule end.now result }
    ensures bare { result.children ≡ [] }
    ensures rightless { result.rights ≡ [] }
{
    Node {
        kind: Kind::Terminal { rule },
        parent: end.parent,
        class: 0,
        alpha: 0,
        joins: Listed::new(alloc),
        children: Listed::new(alloc),
        rights: Listed::new(alloc),
        depth: end.depth,
    }
}

#[tactic(auto, using(crate::proofs::NodeLemmas::no_terminals))]
fn add_terminals(alloc: Global, nodes: &mut Vec<Node>, ends: &[End]) -> Result<(), OutOfMemory>
    ensures { OnOk result (AddsTerminals nodes.old.items nodes.new.items ends.now (length ends.now)) }
{
    for (rule, end) in ends.iter().enumerate() {
        let node = terminal(alloc, rule, end);
        nodes.push(node)?;
    }
    Ok(())
}

/// A node for each link, and a terminal for each end.
pub(crate) fn lower(alloc: Global, links: &[Link], ends: &[End]) -> Result<Draft, OutOfMemory>
    ensures draft { IfOk result (λ d. IsDraft links.now ends.now d.alphas.items d.nodes.items) }
    ensures bare { IfOk result (λ d. AreBare d.nodes.items) }
    ensures rightless { IfOk result (λ d. AreRightless d.nodes.items) }
{
    let mut draft = link_nodes(alloc, links)?;
    add_terminals(alloc, &mut draft.nodes, ends)?;
    Ok(draft)
}
