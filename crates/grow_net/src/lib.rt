//! What a network lacks for productions that are added to it: a chain of nodes of their own, after all of its nodes.
#![tactic(auto)]

ghost use Rattle.std.specs.Prelude.{◌≡◌, ◌++◌, ◌+◌, ◌<◌, ◌^◌, ◌-◌, IfOk, length, suc, take};
ghost use Rattle.net_base.specs.declared.net.Net.{Net};
ghost use Rattle.net_base.specs.Network.{NetOf};
ghost use Rattle.net_base.specs.Sound.{IsSound};
ghost use Rattle.grow_net.specs.Behind.{HasRulesBelow, HaveNoneInCommon, IsGrown, IsOfAll, StandApart};

mod alphas;
mod copies;
mod nodes;
mod same;

use crate::alphas::places_of;
use crate::nodes::{Before, nodes_behind};
use beta_net::compile_one;
use net_base::net::Net;
use net_base::nodes::{Alpha, Node};
use ops_base::memory::OutOfMemory;
use ops_base::programs::Program;
use std::alloc::Global;

/// The alphas and nodes to append to those of a network.
#[derive(Drop)]
pub struct Growth {
    pub alphas: Vec<Alpha>,
    pub nodes: Vec<Node>,
}

/// How many nodes two networks have.
fn count_of(own: &[Node], others: &[Node]) -> usize
    ensures count { result ≡ length own.now + length others.now }
    ensures fits { length own.now + length others.now < 2 ^ 64 }
{
    own.len() + others.len()
}

/// What a network of `rules` productions lacks for the productions of another network: the alphas that it does not
/// have, and the nodes of the other network, renumbered to follow all of its own. What it has stays unchanged: no
/// node of it gets a child, and no alpha is duplicated.
///
/// It copies the other network. For each alpha of that network it compares the class of each alpha of this one, and
/// the tests of those of the same class.
pub fn growth_of(alloc: Global, net: &Net, rules: usize, added: &Net) -> Result<Growth, OutOfMemory>
    requires below { HasRulesBelow net.now.nodes rules }
    requires room { HasRulesBelow added.now.nodes (2 ^ 64 - rules) }
    ensures network { IfOk result (λ g. IsOfAll net.now rules added.now g.alphas.items g.nodes.items) }
    ensures sound { IfOk result (λ g. IsSound (net.now.alphas ++ g.alphas.items) (net.now.nodes ++ g.nodes.items)) }
    ensures apart { IfOk result (λ g. StandApart net.now.nodes g.nodes.items) }
    ensures fresh { IfOk result (λ g. HaveNoneInCommon net.now.alphas g.alphas.items) }
    ensures count { IfOk result (λ g. length g.nodes.items ≡ length added.now.nodes) }
{
    let own = net.nodes();
    let others = added.nodes();
    let _all = count_of(own, others);
    let mut alphas = Vec::new(alloc);
    let places = places_of(alloc, net.alphas(), &mut alphas, added.alphas())?;
    let before = Before {
        nodes: own.len(),
        rules,
    };
    let nodes = nodes_behind(alloc, before, places.as_slice(), others)?;
    Ok(Growth { alphas, nodes })
}

/// What the network of the productions before the one with this number lacks for that production. It costs the
/// compilation of one production, and what `growth_of` costs.
pub fn growth_for(
    alloc: Global,
    net: &Net,
    program: &Program,
    number: usize,
) -> Result<Growth, OutOfMemory>
    requires within { number < length program.now.rules }
    requires before { NetOf net.now (take number program.now.rules) }
    ensures network { IfOk result (λ g. (grown : Net) → IsGrown net.now grown g.alphas.items g.nodes.items → NetOf grown (take (suc number) program.now.rules)) }
    ensures sound { IfOk result (λ g. IsSound (net.now.alphas ++ g.alphas.items) (net.now.nodes ++ g.nodes.items)) }
    ensures apart { IfOk result (λ g. StandApart net.now.nodes g.nodes.items) }
    ensures fresh { IfOk result (λ g. HaveNoneInCommon net.now.alphas g.alphas.items) }
{
    let added = compile_one(alloc, program, number)?;
    let growth = growth_of(alloc, net, number, &added)?;
    Ok(growth)
}
