//! Doing the changes of a phase to a store.
ghost use Rattle.std.specs.Prelude.{◌≡◌, ◌<◌, ℕ, ◌∷◌, [], length, take, OnOk, OnErr};
ghost use Rattle.ops_base.specs.WorkingMemory.{done, last_after, Lawful};
ghost use Rattle.work_store.specs.Stored.{HoldsAlso, added_by, AreDone};

use crate::store::Store;
use ops_base::elements::Change;
use ops_base::memory::OutOfMemory;
use std::alloc::Global;

#[tactic(auto, using(crate::proofs::Doing::found_to_remove))]
fn make_change(store: &mut Store, alloc: Global, change: &Change) -> Result<(), OutOfMemory>
    requires { Lawful store.old.elements store.old.last (change.now ∷ []) }
    ensures ok { OnOk result (AreDone (change.now ∷ []) store.old store.new) }
    ensures err { OnErr result (store.new ≡ store.old) }
{
    match change {
        Change::Add(element) => store.add(element.copy(alloc)?),
        Change::Remove(tag) => {
            store.remove(*tag);
            Ok(())
        }
    }
}

impl Store {
    /// Does changes in their order. An added element is copied, and a removed one is kept until `forget`. Each takes
    /// the same time whatever the number of elements, but where `add` says more. Where memory runs out at a change
    /// those before it are done.
    pub fn make_changes(&mut self, alloc: Global, changes: &[Change]) -> Result<(), OutOfMemory>
        requires { Lawful self.old.elements self.old.last changes.now }
        ensures elements { OnOk result (self.new.elements ≡ done self.old.elements changes.now) }
        ensures last { OnOk result (self.new.last ≡ last_after self.old.last changes.now) }
        ensures kept { OnOk result (HoldsAlso self.old self.new (added_by changes.now)) }
        // The change at n failed, and those before it are done.
        ensures err { OnErr result
            ((n : ℕ) × (n < length changes.now) × AreDone (take n changes.now) self.old self.new) }
    {
        for change in changes {
            make_change(self, alloc, change)?;
        }
        Ok(())
    }
}
