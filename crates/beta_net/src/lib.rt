//! The compiler that turns productions into a network in which they share what they have in common.
#![tactic(auto)]

ghost use Rattle.std.specs.Prelude.{◌≡◌, ◌∷◌, ◌≤◌, ◌<◌, [], IfOk, Some, length, slice_get, slice_range};
ghost use Rattle.ops_base.specs.declared.rules.Rule.{Rule};
ghost use Rattle.net_base.specs.Network.{NetOf};
ghost use Rattle.net_base.specs.Shape.{IsShape, counts_of};
ghost use Rattle.beta_net.specs.Built.{IsCompiled};

mod alphas;
mod chains;
mod children;
mod code;
mod links;
mod lower;
mod paths;
mod rights;
mod same;
#[cfg(test)]
mod tests;

use crate::children::add_children;
use crate::lower::{Draft, lower};
use crate::paths::build;
use crate::rights::add_rights;
use net_base::net::Net;
use ops_base::list::Listed;
use ops_base::memory::OutOfMemory;
use ops_base::programs::Program;
use std::alloc::Global;

/// The alphas and nodes of the program's productions from the one with number `first` to before the one with number
/// `past`.
fn draft_of(
    alloc: Global,
    program: &Program,
    first: usize,
    past: usize,
) -> Result<Draft, OutOfMemory>
    requires ordered { first ≤ past }
    requires within { past ≤ length program.now.rules }
    ensures { IfOk result (λ d. IsCompiled (slice_range program.now.rules first past) d.alphas.items d.nodes.items) }
{
    let built = build(alloc, &program.rules.as_slice()[first..past])?;
    let mut draft = lower(alloc, built.links.list.as_slice(), built.ends.as_slice())?;
    add_children(&mut draft.nodes)?;
    add_rights(&mut draft.nodes)?;
    Ok(draft)
}

/// The network of these productions.
fn net_of(alloc: Global, program: &Program, first: usize, past: usize) -> Result<Net, OutOfMemory>
    requires ordered { first ≤ past }
    requires within { past ≤ length program.now.rules }
    ensures network { IfOk result (λ net. NetOf net (slice_range program.now.rules first past)) }
    ensures shape { IfOk result (λ net. IsShape (slice_range program.now.rules first past) (counts_of net.alphas net.nodes)) }
    ensures built { IfOk result (λ net. IsCompiled (slice_range program.now.rules first past) net.alphas net.nodes) }
{
    let draft = draft_of(alloc, program, first, past)?;
    let alphas = Listed::from_vec(draft.alphas);
    let nodes = Listed::from_vec(draft.nodes);
    let net = Net::new(alloc, alphas, nodes)?;
    Ok(net)
}

/// The network of the program's productions. Two conditions share a node exactly if the parts before them are the
/// same and they have the same sign, the same class and the same tests that do not bind, in the same order. A member
/// of a group counts as a positive condition, and the parts before it are those before the group followed by the
/// members before it. Two groups share a node exactly if the parts before them are the same and their members share
/// their nodes. Two nodes share an alpha if they have the same class and the same tests of one element.
///
/// Each condition is looked up by its code among those with the same code, and so are each group, by the codes of its
/// members, and each alpha. For each test of a variable it looks back over the variables that the production binds.
/// The members of a group are read twice.
pub fn compile(alloc: Global, program: &Program) -> Result<Net, OutOfMemory>
    ensures network { IfOk result (λ net. NetOf net program.now.rules) }
    ensures shape { IfOk result (λ net. IsShape program.now.rules (counts_of net.alphas net.nodes)) }

    // A node for each path, with the tests of its last part, and nothing else.
    ensures built { IfOk result (λ net. IsCompiled program.now.rules net.alphas net.nodes) }
{
    net_of(alloc, program, 0, program.rules.len())
}

/// The network of the production with this number alone. It costs the compilation of that one.
pub fn compile_one(alloc: Global, program: &Program, number: usize) -> Result<Net, OutOfMemory>
    requires { number < length program.now.rules }
    ensures { IfOk result (λ net. (r : Rule) → slice_get program.now.rules number ≡ Some r → NetOf net (r ∷ [])) }
{
    let count = program.rules.len();
    prove!(number < count);
    net_of(alloc, program, number, number + 1)
}
