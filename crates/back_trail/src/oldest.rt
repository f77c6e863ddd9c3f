//! The oldest state, which is kept whole.
ghost use Rattle.std.specs.Prelude.{◌≡◌, ◌∷◌, [], IfOk, OnOk, OnErr, map};
ghost use Rattle.ops_base.specs.Feeding.{Rises, fed_again};
ghost use Rattle.ops_base.specs.WorkingMemory.{Lawful, change_done, last_after};
ghost use Rattle.ops_base.specs.declared.elements.Change.TheVariants.{Add};
ghost use Rattle.cycle.specs.Standing.{Standing, standing, with_inst, without_gone};
ghost use Rattle.back_trail.specs.Kept.{IsSound};

use crate::marks::{Marks, drop_marks, insts_of, is_among, marks_of, put_mark};
use cycle::State;
use live_rules::fed;
use ops_base::elements::Change;
use ops_base::memory::OutOfMemory;
use ops_base::rules::Inst;
use std::alloc::Global;
use std::marker::Model;
use work_store::{Matcher, Store};

/// A state that is kept whole. A change to it costs the logarithm of its size at most.
#[derive(Drop)]
pub(crate) struct Oldest {
    store: Store,
    marks: Marks,
    last: u64,
}

impl Model for Oldest {
    ghost use Rattle.cycle.specs.Standing.{Standing};
    ghost use Rattle.back_trail.specs.Kept.{IsHeld};

    ghost Value = { Standing };

    ghost view = { λ o. record { wm = o.store.elements; fired = o.marks.keys; last = o.last } };

    ghost invariant = { λ o. IsHeld o.store o.marks.keys o.last };
}

/// A store with copies of the elements.
fn store_of(alloc: Global, from: &Store) -> Result<Store, OutOfMemory>
    requires { Rises 0 from.now.elements }
    ensures elements { IfOk result (λ s. s.elements ≡ from.now.elements) }
    ensures last { IfOk result (λ s. s.last ≡ last_after 0 (map Add from.now.elements)) }
{
    let mut store = Store::new(alloc);
    for element in from.iter() {
        store.add(element.copy(alloc)?)?;
    }
    Ok(store)
}

impl Oldest {
    /// Copies the elements and the marks of a state.
    pub(crate) fn copy_of<M: Matcher>(
        alloc: Global,
        state: &State<M>,
    ) -> Result<Oldest, OutOfMemory>
        ensures { IfOk result (λ o. o ≡ standing M.stored state.now) }
    {
        let last = state.last_tag();
        let marks = marks_of(alloc, state.index().marks(alloc)?)?;
        let store = store_of(alloc, state.store())?;
        Ok(Oldest { store, marks, last })
    }

    /// Does one change. If memory runs out, nothing has changed.
    pub(crate) fn make(&mut self, alloc: Global, change: &Change) -> Result<(), OutOfMemory>
        requires { Lawful self.old.wm self.old.last (change.now ∷ []) }
        ensures ok { OnOk result (self.new ≡ record self.old { wm = change_done self.old.wm change.now; last = last_after self.old.last (change.now ∷ []) }) }
        ensures err { OnErr result (self.new ≡ self.old) }
    {
        match change {
            Change::Add(element) => {
                self.store.add(element.copy(alloc)?)?;
                self.last = element.tag;
            }
            Change::Remove(tag) => {
                self.store.remove(*tag);
            }
        }
        Ok(())
    }

    /// An instantiation is marked, unless it is among what is gone, whose marks are to be forgotten. If memory runs out,
    /// nothing has changed.
    pub(crate) fn mark(
        &mut self,
        alloc: Global,
        inst: &Inst,
        gone: &[Inst],
    ) -> Result<(), OutOfMemory>
        ensures ok { OnOk result (record self.new { fired = without_gone gone.now self.new.fired }
            ≡ record self.old { fired = without_gone gone.now (with_inst inst.now self.old.fired) }) }
        ensures err { OnErr result (self.new ≡ self.old) }
    {
        if is_among(gone, inst) {
            return Ok(());
        }
        put_mark(&mut self.marks, inst.copy(alloc)?)
    }

    /// The marks of what is gone are forgotten, and the elements that were removed are let go. Takes no memory.
    pub(crate) fn forget(&mut self, gone: Vec<Inst>)
        ensures { self.new ≡ record self.old { fired = without_gone gone.items self.old.fired } }
    {
        drop_marks(&mut self.marks, gone);
        self.store.forget();
    }

    /// The changes that make working memory and the last tag anew. Copies the elements.
    pub(crate) fn changes(&self, alloc: Global, classes: usize) -> Result<Vec<Change>, OutOfMemory>
        ensures changes { IfOk result (λ v. v.items ≡ fed_again classes self.now.wm self.now.last) }
        ensures sound { IsSound self.now }
    {
        fed(alloc, &self.store, classes, self.last)
    }

    /// Copies of its marks.
    pub(crate) fn marks(&self, alloc: Global) -> Result<Marks, OutOfMemory>
        ensures { IfOk result (λ m. m.keys ≡ self.now.fired) }
    {
        marks_of(alloc, insts_of(alloc, &self.marks)?)
    }
}
