//! Numbers from 0 on, each with a code. Numbers with the same code are chained from the newest back to the first.
ghost use Rattle.std.specs.Prelude.{◌≡◌, ◌<◌, ◌++◌, ◌∷◌, [], ℕ, OnOk, Some, length, slice_get};
ghost use Rattle.beta_net.specs.Chained.{IsLast};

use ops_base::memory::OutOfMemory;
use std::alloc::Global;
use std::collections::HashMap;
use std::marker::Model;

#[derive(Drop)]
struct Entry {
    code: u64,
    earlier: Option<usize>,
}

/// Contracts see the codes of the numbers, in order.
#[derive(Drop)]
pub(crate) struct Chains {
    entries: Vec<Entry>,
    newest: HashMap<u64, usize>,
}

impl Model for Chains {
    ghost use Rattle.std.specs.Prelude.{ℕ, List, nat_eq};
    ghost use Rattle.std.specs.HashMap.{get};
    ghost use Rattle.beta_net.specs.Chained.{codes_in, AreChained};

    ghost Value = { List ℕ };

    ghost view = { λ c. codes_in c.entries.items };

    ghost invariant = { λ c. AreChained c.entries.items (get nat_eq c.newest) };
}

impl Chains {
    /// No numbers. Takes no memory.
    pub(crate) fn new(alloc: Global) -> Chains
        ensures { result ≡ [] }
    {
        Chains {
            entries: Vec::new(alloc),
            newest: HashMap::new(alloc),
        }
    }

    /// The last number with this code, found by one lookup.
    pub(crate) fn newest(&self, code: u64) -> Option<usize>
        ensures { IsLast self.now code (length self.now) result }
    {
        self.newest.get(&code).copied()
    }

    /// The number before this one that has the same code.
    pub(crate) fn earlier(&self, n: usize) -> Option<usize>
        requires { n < length self.now }
        ensures { (code : ℕ) → slice_get self.now n ≡ Some code → IsLast self.now code n result }
    {
        self.entries[n].earlier
    }

    /// Gives the next number this code.
    pub(crate) fn add(&mut self, code: u64) -> Result<(), OutOfMemory>
        ensures { OnOk result (self.new ≡ self.old ++ code ∷ []) }
    {
        let n = self.entries.as_slice().len();
        self.entries.reserve(1)?;
        let earlier = self.newest.insert(code, n)?;
        self.entries.push_reserved(Entry { code, earlier });
        Ok(())
    }
}
