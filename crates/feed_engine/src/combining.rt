//! How a conflict set has changed after two settles in a row.
ghost use Rattle.std.specs.Prelude.{◌≡◌, ◌++◌, List, IfOk, OnOk, IsPermutation};
ghost use Rattle.std.specs.List.Sorted.{IsSorted};
ghost use Rattle.ops_base.specs.declared.rules.Inst.{Inst};
ghost use Rattle.ops_base.specs.Instances.{IsInOrder, by_rule_and_tags};
ghost use Rattle.ops_base.specs.Refraction.{is_among, unfired};
ghost use Rattle.work_store.specs.Settling.{IsSettled};

use ops_base::memory::OutOfMemory;
use ops_base::rules::Inst;
use std::alloc::Global;
use std::cmp::Ordering;

/// The instantiations that came into a conflict set and those that left it, each list in the order in which a settle
/// returns it.
#[derive(Drop)]
pub struct Changed {
    pub come: Vec<Inst>,
    pub gone: Vec<Inst>,
}

/// Whether it is among these, which are in order. Costs the logarithm of their number.
fn is_among(insts: &[Inst], inst: &Inst) -> bool
    ensures { IsInOrder insts.now → result ≡ is_among insts.now inst.now }
{
    let beside = |other: &Inst| -> Ordering
        ensures { result ≡ by_rule_and_tags other.now inst.entry.now }
    { other.compare(inst) };
    insts.binary_search_by(beside).is_ok()
}

/// Copies of those that are not among the others, which are in order.
fn without(alloc: Global, insts: &[Inst], others: &[Inst]) -> Result<Vec<Inst>, OutOfMemory>
    ensures { IfOk result (λ v. IsInOrder others.now → v.items ≡ unfired insts.now others.now) }
{
    let mut left = Vec::new(alloc);
    for inst in insts {
        if !is_among(others, inst) {
            left.push(inst.copy(alloc)?)?;
        }
    }
    Ok(left)
}

/// Both lists as one, in the order of rule and tags.
fn merged(first: Vec<Inst>, second: Vec<Inst>) -> Result<Vec<Inst>, OutOfMemory>
    ensures moved { IfOk result (λ v. IsPermutation (first.items ++ second.items) v.items) }
    ensures sorted { IfOk result (λ v. IsSorted by_rule_and_tags v.items) }
{
    let mut all = first;
    let mut more = second;
    all.append(&mut more)?;
    all.sort_unstable_by(|one, other| one.compare(other));
    Ok(all)
}

/// How the conflict set has changed after both of two settles in a row. An instantiation that left and came back is in
/// neither list, and neither is one that came and left again. For n instantiations in the lists, it costs n log n.
pub fn combine(alloc: Global, first: Changed, second: Changed) -> Result<Changed, OutOfMemory>
    ensures { IfOk result (λ r. (before now after : List Inst) → IsSettled before now first.gone.items first.come.items
        → IsSettled now after second.gone.items second.come.items → IsSettled before after r.gone.items r.come.items) }
{
    let came = without(alloc, first.come.as_slice(), second.gone.as_slice())?;
    let comes = without(alloc, second.come.as_slice(), first.gone.as_slice())?;
    let went = without(alloc, first.gone.as_slice(), second.come.as_slice())?;
    let goes = without(alloc, second.gone.as_slice(), first.come.as_slice())?;
    let come = merged(came, comes)?;
    let gone = merged(goes, went)?;
    Ok(Changed { come, gone })
}
