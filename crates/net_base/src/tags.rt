//! Tokens: the tags of elements.
ghost use Rattle.std.proofs.Common.{rules};
ghost use Rattle.std.specs.Cmp.Rules.{comparing, hashing};
ghost use Rattle.std.specs.Hash as fed;
ghost use Rattle.std.specs.Prelude.{◌≡◌, ◌++◌, ◌∷◌, [], IfOk, OnOk, OnErr, bytes_eq, length};

use ops_base::memory::OutOfMemory;
use smallvec::SmallVec;
use std::alloc::Global;
use std::hash::{Hash, Hasher};
use std::marker::Model;

/// The tags that a token names, in the order of their places.
#[derive(Drop)]
pub struct Tags {
    tags: SmallVec<u64, 5>,
}

impl Model for Tags {
    ghost use Rattle.std.specs.Prelude.{ℕ, List};

    ghost Value = { List ℕ };

    ghost view = { λ t. t.tags.items };
}

impl PartialEq for Tags {
    ghost eq = { bytes_eq };

    ghost laws = { Prim.search (comparing, rules) };

    fn eq(&self, other: &Tags) -> bool {
        self.tags == other.tags
    }
}

impl Eq for Tags {
    ghost laws = { Prim.search (comparing, rules) };
}

impl Hash for Tags {
    ghost hash_input = { λ a. fed.slice fed.u64 a };

    ghost respects_eq = { Prim.search (hashing, rules) };

    fn hash<H: Hasher>(&self, state: &mut H) {
        self.tags.hash(state);
    }
}

impl Tags {
    /// The empty token, which takes no memory.
    pub fn new(alloc: Global) -> Tags
        ensures { result ≡ [] }
    {
        Tags {
            tags: SmallVec::new(alloc),
        }
    }

    /// A token with these tags. Up to five tags take no memory.
    pub fn from_slice(alloc: Global, tags: &[u64]) -> Result<Tags, OutOfMemory>
        ensures { IfOk result (λ t. t ≡ tags.now) }
    {
        Ok(Tags {
            tags: SmallVec::from_slice(alloc, tags)?,
        })
    }

    /// A copy of the token. Up to five tags take no memory.
    pub fn copy(&self, alloc: Global) -> Result<Tags, OutOfMemory>
        ensures { IfOk result (λ t. t ≡ self.now) }
    {
        Tags::from_slice(alloc, self.tags.as_slice())
    }

    /// The tags. Takes no memory.
    pub fn as_slice(&self) -> &[u64]
        ensures { result.now ≡ self.now }
    {
        self.tags.as_slice()
    }

    /// The number of tags. Takes no memory.
    pub fn len(&self) -> usize
        ensures { result ≡ length self.now }
    {
        self.tags.as_slice().len()
    }

    /// Appends a tag. The sixth takes memory, and later ones now and then.
    pub fn push(&mut self, tag: u64) -> Result<(), OutOfMemory>
        ensures ok { OnOk result (self.new ≡ self.old ++ tag ∷ []) }
        ensures err { OnErr result (self.new ≡ self.old) }
    {
        self.tags.push(tag)?;
        Ok(())
    }
}
