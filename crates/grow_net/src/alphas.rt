//! The places of a network's alphas after those of another network.
ghost use Rattle.std.specs.Prelude.{◌≡◌, ◌++◌, IfNone, IfOk, IfSome, OnOk, [], Some, slice_get, Contains};
ghost use Rattle.grow_net.specs.Behind.{AddsPlace, ArePlaces, HaveNoneInCommon};

use crate::copies::copy_of;
use crate::same::is_same;
use net_base::nodes::Alpha;
use ops_base::memory::OutOfMemory;
use std::alloc::Global;

/// The number of this alpha, if it is there. It compares the class of each, and the tests of those of the same class.
fn find(alphas: &[Alpha], alpha: &Alpha) -> Option<usize>
    ensures found { IfSome result (λ n. slice_get alphas.now n ≡ Some alpha.now) }
    ensures none { IfNone result (Contains alphas.now alpha.now → ⊥) }
{
    for (number, known) in alphas.iter().enumerate() {
        if is_same(known, alpha) {
            return Some(number);
        }
    }
    None
}

/// Adds an alpha after those that are known and those that were already added.
fn add(
    alloc: Global,
    known: &[Alpha],
    more: &mut Vec<Alpha>,
    alpha: &Alpha,
) -> Result<usize, OutOfMemory>
    requires { Contains known.now alpha.now → ⊥ }
    ensures { IfOk result (λ p. AddsPlace known.now more.old.items more.new.items alpha.now p) }
{
    let count = more.as_slice().len();
    let place = known.len() + count;
    more.push(copy_of(alloc, alpha)?)?;
    Ok(place)
}

/// The place of an alpha among those that are known, or otherwise after them.
fn place_of(
    alloc: Global,
    known: &[Alpha],
    more: &mut Vec<Alpha>,
    alpha: &Alpha,
) -> Result<usize, OutOfMemory>
    ensures { IfOk result (λ p. AddsPlace known.now more.old.items more.new.items alpha.now p) }
{
    match find(known, alpha) {
        Some(place) => Ok(place),
        None => add(alloc, known, more, alpha),
    }
}

/// The places of the alphas of a network. Those that are not known are added after those that are, in order. For
/// each alpha it compares the classes of all that are known.
pub(crate) fn places_of(
    alloc: Global,
    known: &[Alpha],
    more: &mut Vec<Alpha>,
    added: &[Alpha],
) -> Result<Vec<usize>, OutOfMemory>
    requires { more.old.items ≡ [] }
    ensures places { IfOk result (λ v. ArePlaces (known.now ++ more.new.items) added.now v.items) }
    ensures fresh { OnOk result (HaveNoneInCommon known.now more.new.items) }
{
    let mut places = Vec::new(alloc);
    for alpha in added {
        let place = place_of(alloc, known, more, alpha)?;
        places.push(place)?;
    }
    Ok(places)
}
