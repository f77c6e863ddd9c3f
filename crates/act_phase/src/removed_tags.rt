//! `RemovedTags`, the tags that a right side has removed.
ghost use Rattle.std.specs.Prelude.{◌≡◌, OnOk, OnErr, if◌then◌else◌, ◌==◌, true, false, ℕ};
ghost use Rattle.std.specs.List.{list_any};
ghost use Rattle.act_phase.specs.Changed.{is_among};

use ops_base::memory::OutOfMemory;
use smallvec::SmallVec;
use std::alloc::Global;
use std::collections::BTreeSet;

/// How many tags fit without an allocation. Few right sides remove more elements.
const FEW_TAGS: usize = 8;

/// Tags that were removed: the first few are stored inline, and only the others in a set, which takes memory for each.
#[derive(Drop)]
pub(crate) struct RemovedTags {
    few: SmallVec<u64, FEW_TAGS>,
    more: BTreeSet<u64>,
}

fn is_one_of(tags: &[u64], tag: u64) -> bool
    ensures { result ≡ list_any (λ t. t == tag) tags.now }
{
    tags.iter().any(|each| *each == tag)
}

impl RemovedTags {
    /// No tag. Takes no memory.
    pub(crate) fn new(alloc: Global) -> RemovedTags
        ensures { (t : ℕ) → is_among result t ≡ false }
    {
        RemovedTags {
            few: SmallVec::new(alloc),
            more: BTreeSet::new(alloc),
        }
    }

    /// Scans the first few tags. Takes time logarithmic in the number of the others.
    pub(crate) fn contains(&self, tag: u64) -> bool
        ensures { result ≡ is_among self.now tag }
    {
        is_one_of(self.few.as_slice(), tag) || self.more.contains(&tag)
    }

    /// Adds a tag. Allocates only if `FEW_TAGS` tags are there already.
    pub(crate) fn insert(&mut self, tag: u64) -> Result<(), OutOfMemory>
        ensures ok { OnOk result ((t : ℕ) → is_among self.new t ≡ (if t == tag then true else is_among self.old t)) }
        ensures err { OnErr result (self.new ≡ self.old) }
    {
        if self.few.len() < FEW_TAGS {
            self.few.push(tag)?;
        } else {
            self.more.insert(tag)?;
        }
        Ok(())
    }
}
