//! The memories of one node on one line, in an allocation of their own, so that a scan passes over other nodes
//! quickly.
ghost use Rattle.std.specs.Prelude.{◌≡◌, ◌≢◌, ◌<◌, ◌==◌, ◌&&◌, ◌-◌, ◌^◌, [], IfOk, IfSome, IsTrue, List, None, OnErr, OnOk, bytes_eq, if◌then◌else◌, pos, true, ℕ};
ghost use Rattle.std.specs.Option.{option_copied};
ghost use Rattle.work_store.specs.Stored.{held_of};
ghost use Rattle.net_base.specs.declared.tasks.Side.{Side};
ghost use Rattle.net_base.specs.declared.tasks.Side.TheVariants.{Left};
ghost use Rattle.net_base.specs.Tokens.{goes_with};
ghost use Rattle.token_line.specs.Bags.{are_same_sides};
ghost use Rattle.token_line.specs.inner.Codes.{cell_blocked, cell_in, cell_under, memory_under, tokens_of};
ghost use Rattle.token_line.specs.inner.Pairs.{place_of};
ghost use Rattle.token_line.specs.Sums.{blockers_kept, sum_kept};

use crate::memories::NodeMemory;
use crate::memory::CodeMemory;
use crate::spot::TokenPlace;
use crate::tokens::TokenCount;
use net_base::nodes::Node;
use net_base::tags::Tags;
use net_base::tasks::{Side, Task};
use ops_base::memory::OutOfMemory;
use std::alloc::Global;
use std::marker::Model;
use work_store::Store;

/// The memories of one node. Contracts see the memories themselves.
#[derive(Drop)]
pub(crate) struct NodePlace {
    memories: Box<NodeMemory>,
}

impl Model for NodePlace {
    ghost use Rattle.token_line.specs.declared.memories.NodeMemory.{NodeMemory};

    ghost Value = { NodeMemory };

    ghost view = { λ p. p.memories.value };
}

impl NodePlace {
    /// No tokens; the first one will have this code.
    pub(crate) fn new(alloc: Global, code: u64) -> Result<NodePlace, OutOfMemory>
        ensures code { IfOk result (λ m. m.code ≡ code) }
        ensures left { IfOk result (λ m. m.first.left ≡ []) }
        ensures right { IfOk result (λ m. m.first.right ≡ []) }
        ensures others { IfOk result (λ m. m.others ≡ []) }
    {
        let memories = Box::new(alloc, NodeMemory::new(alloc, code))?;
        Ok(NodePlace { memories })
    }

    /// As `NodeMemory::memory`.
    #[inline(always)]
    pub(crate) fn memory(&self, code: u64) -> Option<&CodeMemory>
        ensures { option_copied result ≡ memory_under self.now code }
    {
        let memories = self.memories.as_ref();
        memories.memory(code)
    }

    /// As `NodeMemory::cell`.
    pub(crate) fn cell(&self, side: Side, token: &Tags) -> Option<TokenCount>
        ensures { result ≡ cell_in self.now side token.now }
    {
        let memories = self.memories.as_ref();
        memories.cell(side, token)
    }

    /// Whether no token is kept. Takes no memory.
    pub(crate) fn is_empty(&self) -> bool
        ensures { IsTrue result → (c : ℕ) (s : Side) (t : List ℕ) → cell_under self.now c s t ≡ None }
    {
        let memories = self.memories.as_ref();
        memories.is_empty()
    }

    /// Replaces what is kept of the token at the spot, or stops keeping it. If memory runs out, nothing has changed.
    #[inline(always)]
    pub(crate) fn put(
        &mut self,
        alloc: Global,
        spot: &TokenPlace,
        task: &Task,
        cell: Option<TokenCount>,
    ) -> Result<(), OutOfMemory>
        requires token { spot.now.token ≡ place_of (tokens_of (memory_under self.old spot.now.code) task.now.side) task.now.token }
        requires some { IfSome cell (λ c. c.sum ≢ pos 0) }
        ensures ok { OnOk result ((c : ℕ) (s : Side) (t : List ℕ) → cell_under self.new c s t ≡ (if (c == spot.now.code) && (are_same_sides s task.now.side && bytes_eq t task.now.token) then cell else cell_under self.old c s t)) }
        ensures err { OnErr result ((c : ℕ) (s : Side) (t : List ℕ) → cell_under self.new c s t ≡ cell_under self.old c s t) }
    {
        self.memories.as_mut().put(alloc, spot, task, cell)
    }

    /// Adds or removes one blocker at each left token with this code that the right token goes with. Takes no memory.
    pub(crate) fn block(&mut self, store: &Store, of: &Node, code: u64, right: &[u64], plus: bool)
        requires room { plus ≡ true → (t : List ℕ) → sum_kept (cell_under self.old code Left t) ≢ pos 0 → blockers_kept (cell_under self.old code Left t) < 2 ^ 64 - 1 }
        ensures { (c : ℕ) (s : Side) (t : List ℕ) → cell_under self.new c s t ≡ cell_blocked ((c == code) && are_same_sides s Left) (goes_with of.now.kind of.now.joins (held_of store.now) t right.now) plus (cell_under self.old c s t) }
    {
        self.memories.as_mut().block(store, of, code, right, plus);
    }
}
