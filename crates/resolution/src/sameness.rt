//! When two keys are the same, and how a key is hashed.
ghost use Rattle.std.specs.Prelude.{◌++◌};
ghost use Rattle.std.specs.Hash as fed;
ghost use Rattle.std.specs.Cmp.Rules.{comparing, hashing};
ghost use Rattle.std.proofs.Common.{rules};
ghost use Rattle.resolution.specs.Keys.{same_keys};

use crate::keys::Key;
use std::hash::{Hash, Hasher};

impl PartialEq for Key {
    ghost eq = { same_keys };

    ghost laws = { Prim.search (comparing, rules) };

    fn eq(&self, other: &Key) -> bool {
        self.rule == other.rule
            && self.specificity == other.specificity
            && self.numbers.as_slice() == other.numbers.as_slice()
    }
}

impl Eq for Key {
    ghost laws = { Prim.search (comparing, rules) };
}

/// The production and the tags alone are hashed: within one program the other parts follow from them.
impl Hash for Key {
    ghost hash_input = { λ k. fed.usize k.rule ++ fed.slice fed.u64 k.tags };

    ghost respects_eq = { Prim.search (hashing, rules) };

    fn hash<H: Hasher>(&self, state: &mut H) {
        state.write_usize(self.rule);
        self.tags().hash(state);
    }
}
