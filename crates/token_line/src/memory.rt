//! The tokens of one node with one code on one line, each with its sum: the inserts less the deletes that arrived. A
//! number is kept with each left token: at a negated node or a group, the number of right tokens, by effective count,
//! that go with it.
ghost use Rattle.std.specs.Prelude.{◌≡◌, ◌≢◌, ◌<◌, ◌&&◌, ◌-◌, ◌^◌, ◌↔◌, [], IfSome, IsTrue, List, OnErr, OnOk, bytes_eq, if◌then◌else◌, pos, true, ℕ};
ghost use Rattle.std.specs.Option.{option_map};
ghost use Rattle.work_store.specs.Stored.{held_of};
ghost use Rattle.net_base.specs.declared.tasks.Side.{Side};
ghost use Rattle.net_base.specs.Tokens.{goes_with};
ghost use Rattle.token_line.specs.Bags.{are_same_sides};
ghost use Rattle.token_line.specs.inner.Pairs.{ArePairs, cell_of, place_of};
ghost use Rattle.token_line.specs.Sums.{blocked, blockers_of, kept_sum, side_of};

use crate::tokens::{TokenCount, Tokens};
use net_base::nodes::Node;
use net_base::tags::Tags;
use net_base::tasks::Side;
use ops_base::memory::OutOfMemory;
use std::alloc::Global;
use work_store::Store;

/// The tokens of one node on one line that have one code. A token whose sum is 0 is not kept.
#[derive(Drop)]
pub struct CodeMemory {
    left: Tokens,
    right: Tokens,
}

impl CodeMemory {
    /// No tokens. Takes no memory.
    pub(crate) fn new(alloc: Global) -> CodeMemory
        ensures left { result.left ≡ [] }
        ensures right { result.right ≡ [] }
    {
        CodeMemory {
            left: Tokens::new(alloc),
            right: Tokens::new(alloc),
        }
    }

    /// The left tokens, with what is kept of each. Takes no memory.
    pub fn left(&self) -> &Tokens
        ensures tokens { result.now ≡ self.now.left }
        ensures pairs { ArePairs self.now.left }
    {
        let _pairs = self.left.len();
        &self.left
    }

    /// The right tokens with their sums. Takes no memory.
    pub fn right(&self) -> &Tokens
        ensures tokens { result.now ≡ self.now.right }
        ensures pairs { ArePairs self.now.right }
    {
        let _pairs = self.right.len();
        &self.right
    }

    /// The tokens of one side. Takes no memory.
    pub fn side(&self, side: Side) -> &Tokens
        ensures { result.now ≡ side_of self.now side }
    {
        match side {
            Side::Left => &self.left,
            Side::Right => &self.right,
        }
    }

    /// What is kept of a token of one side. Takes no memory.
    pub(crate) fn cell(&self, side: Side, token: &Tags) -> Option<TokenCount>
        ensures { result ≡ cell_of (side_of self.now side) token.now }
    {
        let tokens = self.side(side);
        tokens.kept(token, tokens.find(token))
    }

    /// Whether no token is kept. Takes no memory.
    pub(crate) fn is_empty(&self) -> bool
        ensures { IsTrue result ↔ ((self.now.left ≡ []) × (self.now.right ≡ [])) }
    {
        self.left.is_empty() && self.right.is_empty()
    }

    /// Replaces what is kept of a token of one side, or stops keeping it. If memory runs out, nothing has changed.
    #[inline(always)]
    pub(crate) fn put(
        &mut self,
        alloc: Global,
        side: Side,
        place: Option<usize>,
        token: &Tags,
        cell: Option<TokenCount>,
    ) -> Result<(), OutOfMemory>
        requires place { place ≡ place_of (side_of self.old side) token.now }
        requires some { IfSome cell (λ c. c.sum ≢ pos 0) }
        ensures ok { OnOk result ((s : Side) (t : List ℕ) → cell_of (side_of self.new s) t ≡ (if are_same_sides s side && bytes_eq t token.now then cell else cell_of (side_of self.old s) t)) }
        ensures err { OnErr result (self.new ≡ self.old) }
    {
        match side {
            Side::Left => self.left.put(alloc, place, token, cell),
            Side::Right => self.right.put(alloc, place, token, cell),
        }
    }

    /// Adds or removes one blocker at each left token that the right token goes with. Takes no memory.
    pub(crate) fn block(&mut self, store: &Store, of: &Node, right: &[u64], plus: bool)
        requires room { plus ≡ true → (t : List ℕ) → kept_sum self.old.left t ≢ pos 0 → blockers_of self.old.left t < 2 ^ 64 - 1 }
        ensures left { (t : List ℕ) → cell_of self.new.left t ≡ option_map (blocked (goes_with of.now.kind of.now.joins (held_of store.now) t right.now) plus) (cell_of self.old.left t) }
        ensures right { self.new.right ≡ self.old.right }
    {
        self.left.block(store, of, right, plus);
    }
}
