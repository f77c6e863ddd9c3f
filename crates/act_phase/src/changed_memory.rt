//! `ChangedMemory`, the working memory that a right side changes: the store at its start, and its changes so far.
ghost use Rattle.std.specs.Prelude.{◌≡◌, ◌+◌, ◌-◌, ◌<◌, OnOk, Some, slice_get, take, unwrap_or};
ghost use Rattle.std.specs.Option.{option_copied};
ghost use Rattle.ops_base.specs.WorkingMemory.{done};
ghost use Rattle.ops_meaning.specs.Acting.{has_tag, element_of, no_element};
ghost use Rattle.act_phase.specs.Changed.{memory_of, unchanged, with_removed, with_added, added_by, last_added, GoesOnTo};
ghost use Rattle.act_phase.specs.State.{made_at};

use crate::removed_tags::RemovedTags;
use ops_base::elements::{Change, Element};
use ops_base::list::Listed;
use ops_base::memory::OutOfMemory;
use ops_base::values::Value;
use std::alloc::Global;
use std::marker::Model;
use work_store::Store;

/// The changes of a right side so far. Its view is those changes and the working memory at the start, which is not
/// copied: an element is present if it is in the store or was added, and was not removed.
#[derive(Drop)]
pub(crate) struct ChangedMemory<'s> {
    store: &'s Store,
    changes: Vec<Change>,
    // The tags of the removed elements.
    gone: RemovedTags,
    first_tag: u64,
    next_tag: u64,
}

impl<'s> Model for ChangedMemory<'s> {
    ghost use Rattle.std.specs.Prelude.{◌-◌};
    ghost use Rattle.act_phase.specs.Changed.{Changed, AreCounted, is_among};

    ghost Value = { Changed };

    ghost view = { λ w. record { start = w.store.now.elements; changes = w.changes.items; last = w.next_tag - 1 } };

    ghost invariant = { λ w. AreCounted w.store.now.elements w.changes.items (is_among w.gone) w.first_tag w.next_tag };
}

/// The element that a change adds, if it has this tag.
fn added_by(tag: u64, change: &Change) -> Option<&Element>
    ensures { option_copied result ≡ added_by tag change.now }
{
    match change {
        Change::Add(element) if element.tag == tag => Some(element),
        _ => None,
    }
}

#[tactic(auto, using(crate::proofs::Found::last_added_push))]
/// The element with this tag that was added last. Scans the changes since then.
fn last_added(changes: &[Change], tag: u64) -> Option<&Element>
    ensures { option_copied result ≡ last_added changes.now tag }
{
    let mut left = changes;
    while let Some((last, before)) = left.split_last() {
        if let Some(element) = added_by(tag, last) {
            return Some(element);
        }
        left = before;
    }
    None
}

impl<'s> ChangedMemory<'s> {
    /// Nothing is changed yet. Allocates nothing.
    pub(crate) fn new(alloc: Global, store: &'s Store, next_tag: u64) -> ChangedMemory<'s>
        requires { store.now.last < next_tag }
        ensures { result ≡ unchanged store.now.elements (next_tag - 1) }
    {
        // only the proof needs this: it reads the store to get at the store's invariant
        let last = store.last();
        prove!(last < next_tag);
        ChangedMemory {
            store,
            changes: Vec::new(alloc),
            gone: RemovedTags::new(alloc),
            first_tag: next_tag,
            next_tag,
        }
    }

    /// Whether an element with this tag is present. With more than eight removals, takes time logarithmic in their
    /// number. An element that was made here is not looked up.
    fn is_present(&self, tag: u64) -> bool
        ensures { result ≡ has_tag (memory_of self.now) tag }
    {
        if self.gone.contains(tag) {
            return false;
        }
        if tag >= self.first_tag {
            return tag < self.next_tag;
        }
        self.store.get(tag).is_some()
    }

    /// Removes the element with this tag, if it is present.
    pub(crate) fn remove(&mut self, tag: u64) -> Result<(), OutOfMemory>
        ensures does { OnOk result (self.new ≡ with_removed self.old tag) }
        ensures goes_on { GoesOnTo self.old self.new }
    {
        if self.is_present(tag) {
            self.changes.reserve(1)?;
            self.gone.insert(tag)?;
            match self.changes.push(Change::Remove(tag)) {
                Ok(()) => {}
                Err(_) => unreachable!(),
            }
        }
        Ok(())
    }

    /// Adds an element with the next tag. No session lasts long enough to use up the tags.
    pub(crate) fn add(&mut self, class: usize, fields: Listed<Value>) -> Result<(), OutOfMemory>
        ensures does { OnOk result (self.new ≡ with_added self.old (record { tag = self.old.last + 1; class = class; fields = fields })) }
        ensures goes_on { GoesOnTo self.old self.new }
    {
        let tag = self.next_tag;
        let Some(next_tag) = tag.checked_add(1) else {
            return Err(OutOfMemory);
        };
        let element = Element { tag, class, fields };
        self.changes.push(Change::Add(element))?;
        self.next_tag = next_tag;
        Ok(())
    }

    /// The element that the change at this place added.
    pub(crate) fn made_at(&self, place: usize) -> Option<&Element>
        ensures { unwrap_or (option_copied result) no_element ≡ made_at self.now.changes place }
    {
        match self.changes.as_slice().get(place)? {
            Change::Add(element) => Some(element),
            Change::Remove(_) => None,
        }
    }

    /// The changes so far.
    pub(crate) fn changes(&self) -> &[Change]
        ensures { result.now ≡ self.now.changes }
    {
        self.changes.as_slice()
    }

    /// The element that the removal of this tag removed. The removal is the change at this place. An element that was
    /// present at the start is looked up in the store. For one that was made here, the changes are searched backwards
    /// to the one that made it.
    pub(crate) fn removed_at(&self, place: usize, tag: u64) -> &Element
        requires { slice_get self.now.changes place ≡ Some (Change.Remove tag) }
        ensures { element_of (done self.now.start (take place self.now.changes)) tag ≡ Some result.now }
    {
        if let Some(element) = self.store.get(tag) {
            return element;
        }
        match last_added(&self.changes.as_slice()[..place], tag) {
            Some(element) => element,
            None => unreachable!(),
        }
    }

    /// The changes, and the next tag.
    pub(crate) fn finish(self) -> (Vec<Change>, u64)
        ensures changes { result.0.items ≡ self.entry.changes }
        ensures tag { result.1 - 1 ≡ self.entry.last }
        ensures positive { 0 < result.1 }
    {
        (self.changes, self.next_tag)
    }
}
