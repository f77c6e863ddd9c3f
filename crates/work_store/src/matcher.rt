//! What finds the instantiations: a matcher keeps working memory, and tells how the conflict set changes with it.
ghost use Rattle.std.specs.Prelude.{◌≡◌, [], List, IfOk};
ghost use Rattle.ops_base.specs.declared.rules.Rule.{Rule};
ghost use Rattle.ops_base.specs.Instances.{IsConflictSet};
ghost use Rattle.ops_base.specs.WorkingMemory.{done, last_after, Lawful};
ghost use Rattle.work_store.specs.Settling.{IsSettled};

use crate::store::Store;
use ops_base::elements::Change;
use ops_base::memory::OutOfMemory;
use ops_base::rules::Inst;
use std::alloc::Global;

/// A matcher once it has settled, and how its conflict set changed: what came and what went, each in the order of rule
/// and tags. What left and came back is in neither.
pub struct Settled<M> {
    pub matcher: M,
    pub come: Vec<Inst>,
    pub gone: Vec<Inst>,
}

/// Keeps working memory and the conflict set of a program over it.
pub trait Matcher: Sized + Drop {
    ghost use Rattle.ops_base.specs.declared.rules.Inst.{Inst};
    ghost use Rattle.ops_base.specs.declared.rules.Rule.{Rule};
    ghost use Rattle.work_store.specs.Stored.{Stored};

    /// What its store holds.
    ghost stored: { Self → Stored };

    /// Its conflict set.
    ghost found: { Self → List Inst };

    /// It stands for the programs with these rules: it finds their instantiations.
    ghost stands_for: { Self → List Rule → Type 0 };

    /// What a settle is lent beside the changes, as the runtime is by one with threads.
    type Hand;

    /// Working memory.
    fn store(&self) -> &Store
        ensures stored { result.now ≡ stored self.now }

        // For each program that it stands for, its conflict set is the set of all instantiations.
        ensures set { (rules : List Rule) → stands_for self.now rules → IsConflictSet rules (stored self.now).elements (found self.now) }

        // Where no element is present, nothing is found.
        ensures none { (stored self.now).elements ≡ [] → found self.now ≡ [] };

    /// Does changes in their order, which is one phase. After a refusal the matcher is gone.
    fn settle(
        self,
        alloc: Global,
        hand: &mut Self::Hand,
        changes: &[Change],
    ) -> Result<Settled<Self>, OutOfMemory>
        requires { Lawful (stored self).elements (stored self).last changes.now }
        ensures elements { IfOk result (λ s. (stored s.matcher).elements ≡ done (stored self).elements changes.now) }
        ensures last { IfOk result (λ s. (stored s.matcher).last ≡ last_after (stored self).last changes.now) }
        ensures settled { IfOk result (λ s. IsSettled (found self) (found s.matcher) s.gone.items s.come.items) }
        ensures stands { IfOk result (λ s. (rules : List Rule) → stands_for self rules → stands_for s.matcher rules) };
}
