//! The store: present elements by rising tag, and removed ones until they are forgotten.
ghost use Rattle.std.specs.Prelude.{◌≡◌, ◌==◌, ◌++◌, ◌∷◌, ◌<◌, ℕ, [], length, slice_get, Some, IsSome, IfOk, OnOk, OnErr, if◌then◌else◌};
ghost use Rattle.std.specs.Option.{option_copied};
ghost use Rattle.ops_base.specs.WorkingMemory.{without_tag, shown, HasRisingTags};
ghost use Rattle.work_store.specs.Stored.{Stored, nothing_stored, of_tag, held_of, HoldsAlso, IsStored};
ghost use Rattle.work_store.specs.Slots.{without_all};

use crate::iter::Elements;
use crate::pages::Pages;
use crate::slot::Slot;
use ops_base::elements::Element;
use ops_base::memory::OutOfMemory;
use std::alloc::Global;
use std::marker::Model;

/// Working memory. Each element has a slot under its tag, also one that was removed, until it is forgotten.
#[derive(Drop)]
pub struct Store {
    slots: Pages,
    // The tags of the kept elements, with room for a tag of every slot.
    gone: Vec<u64>,
    last: u64,
}

impl Model for Store {
    ghost use Rattle.std.specs.Prelude.{vec_capacity};
    ghost use Rattle.work_store.specs.Stored.{Stored};

    ghost Value = { Stored };

    ghost use Rattle.work_store.specs.Slots.{stored_in, AreSlots};

    ghost view = { λ s. stored_in s.slots s.last };

    ghost invariant = { λ s. AreSlots s.slots s.gone.items (vec_capacity s.gone) s.last };
}

/// Drops the slots of these tags.
fn drop_all(slots: &mut Pages, tags: &[u64])
    ensures { slots.new ≡ without_all tags.now slots.old }
{
    for tag in tags {
        slots.remove(*tag);
    }
}

impl Store {
    /// No elements. Takes no memory.
    pub fn new(alloc: Global) -> Store
        ensures { result ≡ nothing_stored }
    {
        Store {
            slots: Pages::new(alloc),
            gone: Vec::new(alloc),
            last: 0,
        }
    }

    #[tactic(auto, using(crate::proofs::Slots::get_present))]
    /// The present element of that tag. Takes the same time whatever the number of elements.
    pub fn get(&self, tag: u64) -> Option<&Element>
        ensures { option_copied result ≡ of_tag self.now.elements tag }
    {
        let slot = self.slots.get(tag)?;
        if slot.present {
            Some(&slot.element)
        } else {
            None
        }
    }

    #[tactic(auto, using(crate::proofs::Slots::get_any))]
    /// The element of that tag, present or kept. Takes the same time whatever the number of elements.
    pub fn kept(&self, tag: u64) -> Option<&Element>
        ensures { option_copied result ≡ held_of self.now tag }
    {
        let held = self.slots.get(tag)?;
        Some(&held.element)
    }

    /// How many elements are present. Takes the same time whatever their number.
    pub fn len(&self) -> usize
        ensures { result ≡ length self.now.elements }
    {
        self.slots.len() - self.gone.len()
    }

    /// The greatest tag that was ever added, 0 where none was.
    pub fn last(&self) -> u64
        ensures last { result ≡ self.now.last }
        ensures stored { IsStored self.now }
    {
        self.last
    }

    /// The present elements by rising tag. Going over them takes a time in proportion to the number of those that are
    /// present or kept, and to the greatest tag over 4,096.
    pub fn iter(&self) -> Elements<'_>
        ensures { result ≡ self.now.elements }
    {
        self.slots.iter()
    }

    /// References to the present elements, by rising tag. None is copied. Takes a time in proportion to the number of
    /// those that are present or kept, and to the greatest tag over 4,096.
    pub fn present(&self, alloc: Global) -> Result<Vec<&Element>, OutOfMemory>
        ensures elements { IfOk result (λ v. shown v.items ≡ self.now.elements) }
        ensures rising { HasRisingTags self.now.elements }
    {
        Ok(self.slots.iter().collect(alloc)?)
    }

    /// The present element at that place, by rising tag. Walks there from the first: to see all of them take `iter`.
    pub fn nth(&self, i: usize) -> &Element
        requires { i < length self.now.elements }
        ensures { slice_get self.now.elements i ≡ Some result.now }
    {
        match self.iter().nth(i) {
            Some(element) => element,
            None => unreachable!(),
        }
    }

    /// Adds an element with a tag above all others. Where memory runs out nothing has changed. Takes the same time
    /// whatever the number of elements, but where a room for tags or slots doubles, and where tags are left out: there
    /// it grows with their number over 4,096. Beside the elements themselves the store takes memory in proportion to
    /// the greatest tag over 4,096, so a tag far above the others may be refused as out of memory.
    pub fn add(&mut self, element: Element) -> Result<(), OutOfMemory>
        requires { self.old.last < element.tag }
        ensures ok { OnOk result (self.new ≡ record { elements = self.old.elements ++ element ∷ []; kept = self.old.kept; last = element.tag }) }
        ensures held { OnOk result (HoldsAlso self.old self.new (element ∷ [])) }
        ensures err { OnErr result (self.new ≡ self.old) }
    {
        let room = self.slots.len() + 1 - self.gone.len();
        self.gone.reserve(room)?;
        let tag = element.tag;
        self.slots.add(
            tag,
            Slot {
                element,
                present: true,
            },
        )?;
        self.last = tag;
        Ok(())
    }

    /// Removes a present element, which is kept until `forget`. Takes no memory, and the same time whatever the number
    /// of elements.
    pub fn remove(&mut self, tag: u64)
        requires { IsSome (of_tag self.old.elements tag) }
        ensures elements { self.new.elements ≡ without_tag tag self.old.elements }
        ensures kept { (n : ℕ) → of_tag self.new.kept n ≡ (if n == tag then of_tag self.old.elements tag else of_tag self.old.kept n) }
        ensures last { self.new.last ≡ self.old.last }
    {
        self.slots.mark(tag);
        match self.gone.push(tag) {
            Ok(()) => {}
            Err(_) => unreachable!(),
        }
    }

    /// Lets the kept elements go. Takes no memory, and for each of them the same time whatever the number of elements.
    pub fn forget(&mut self)
        ensures { self.new ≡ record self.old { kept = [] } }
    {
        drop_all(&mut self.slots, self.gone.as_slice());
        self.gone.clear();
    }
}
