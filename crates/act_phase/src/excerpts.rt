//! The part of working memory that a right side looks up.
ghost use Rattle.std.specs.Prelude.{◌≡◌, ◌≤◌, ◌<◌, All, IfOk, OnOk, IsPermutation};
ghost use Rattle.std.specs.List.Sorted.{IsSorted};
ghost use Rattle.std.specs.Ordering.{nat_cmp};
ghost use Rattle.ops_base.specs.WorkingMemory.{tags_of};
ghost use Rattle.act_phase.specs.Excerpts.{IsExcerpt, with_copy};

use ops_base::memory::OutOfMemory;
use ops_base::rules::Inst;
use std::alloc::Global;
use work_store::Store;

/// The tags in ascending order.
fn sorted(alloc: Global, tags: &[u64]) -> Result<Vec<u64>, OutOfMemory>
    ensures moved { IfOk result (λ v. IsPermutation tags.now v.items) }
    ensures sorted { IfOk result (λ v. IsSorted nat_cmp v.items) }
{
    let mut sorted = Vec::from_slice(alloc, tags)?;
    sorted.as_mut_slice().sort_unstable();
    Ok(sorted)
}

/// Copies the element with this tag, if there is one and the tag is above those copied before.
fn add_copy(alloc: Global, store: &Store, tag: u64, excerpt: &mut Store) -> Result<(), OutOfMemory>
    ensures { OnOk result (excerpt.new ≡ with_copy store.now.elements tag excerpt.old) }
{
    if tag <= excerpt.last() {
        return Ok(());
    }
    let Some(element) = store.get(tag) else {
        return Ok(());
    };
    excerpt.add(element.copy(alloc)?)
}

/// The elements of an instantiation, in a store of their own. Copies each of them once. In addition it takes memory in
/// proportion to their greatest tag divided by 4,096.
pub fn excerpt(alloc: Global, store: &Store, inst: &Inst) -> Result<Store, OutOfMemory>
    requires above { All (λ t. 0 < t) (tags_of store.now.elements) }
    ensures excerpt { IfOk result (λ s. IsExcerpt store.now.elements s.elements inst.now.tags) }
    ensures last { IfOk result (λ s. s.last ≤ store.now.last) }
{
    // reads the store to get at its invariant
    let _last = store.last();
    let tags = sorted(alloc, inst.tags.as_slice())?;
    let mut excerpt = Store::new(alloc);
    for tag in tags.as_slice() {
        add_copy(alloc, store, *tag, &mut excerpt)?;
    }
    Ok(excerpt)
}
