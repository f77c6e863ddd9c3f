//! The memories of one node on one line: one memory for the tokens with each code.
ghost use Rattle.std.specs.Prelude.{◌≡◌, ◌≢◌, ◌<◌, ◌==◌, ◌&&◌, ◌-◌, ◌^◌, [], IfSome, IsTrue, List, None, length, OnErr, OnOk, bytes_eq, if◌then◌else◌, nat_eq, pos, true, ℕ};
ghost use Rattle.std.specs.Map.{keys_of, lookup};
ghost use Rattle.std.specs.Option.{option_copied};
ghost use Rattle.work_store.specs.Stored.{held_of};
ghost use Rattle.net_base.specs.declared.tasks.Side.{Side};
ghost use Rattle.net_base.specs.declared.tasks.Side.TheVariants.{Left};
ghost use Rattle.net_base.specs.Tokens.{goes_with};
ghost use Rattle.token_line.specs.Bags.{are_same_sides};
ghost use Rattle.token_line.specs.inner.Codes.{cell_blocked, cell_in, cell_under, first_some, kept_among, memory_under, tokens_of};
ghost use Rattle.token_line.specs.inner.Pairs.{cell_of, place_of};
ghost use Rattle.token_line.specs.Sums.{blockers_kept, sum_kept};

use crate::memory::CodeMemory;
use crate::small_map::SmallMap;
use crate::spot::TokenPlace;
use crate::tokens::TokenCount;
use net_base::nodes::Node;
use net_base::tags::Tags;
use net_base::tasks::{Side, Task};
use ops_base::memory::OutOfMemory;
use std::alloc::Global;
use work_store::Store;

/// The memories of one node on one line, by the codes of their tokens. The memory whose code came first is stored
/// apart from the others: if a line has tokens of only one code, no room is taken for others.
#[derive(Drop)]
pub(crate) struct NodeMemory {
    code: u64,
    first: CodeMemory,
    others: SmallMap<u64, CodeMemory>,
}

/// Removes a memory that has become empty from the others. It is checked only if one of its tokens has just been
/// removed.
fn drop_if_empty(others: &mut SmallMap<u64, CodeMemory>, place: usize, has_left: bool)
    requires { place < length others.old }
    ensures { (c : ℕ) (s : Side) (t : List ℕ) → kept_among others.new c s t ≡ kept_among others.old c s t }
{
    if !has_left {
        return;
    }
    let _apart = others.len();
    let (_code, memory) = others.pair(place);
    if memory.is_empty() {
        others.remove(place);
    }
}

/// Replaces what is kept of the token at the spot, or stops keeping it. If memory runs out, nothing has changed.
fn put_among(
    others: &mut SmallMap<u64, CodeMemory>,
    alloc: Global,
    spot: &TokenPlace,
    task: &Task,
    cell: Option<TokenCount>,
) -> Result<(), OutOfMemory>
    requires token { spot.now.token ≡ place_of (tokens_of (lookup (nat_eq spot.now.code) others.old) task.now.side) task.now.token }
    requires some { IfSome cell (λ c. c.sum ≢ pos 0) }
    ensures ok { OnOk result ((c : ℕ) (s : Side) (t : List ℕ) → kept_among others.new c s t ≡ (if (c == spot.now.code) && (are_same_sides s task.now.side && bytes_eq t task.now.token) then cell else kept_among others.old c s t)) }
    ensures err { OnErr result ((c : ℕ) (s : Side) (t : List ℕ) → kept_among others.new c s t ≡ kept_among others.old c s t) }
{
    let _apart = others.len();
    match others.find(&spot.code) {
        Some(place) => {
            others
                .value_mut(place)
                .put(alloc, task.side, spot.token, &task.token, cell)?;
            drop_if_empty(others, place, cell.is_none());
        }
        None => {
            let mut memory = CodeMemory::new(alloc);
            memory.put(alloc, task.side, None, &task.token, cell)?;
            others.push(alloc, spot.code, memory)?;
        }
    }
    Ok(())
}

impl NodeMemory {
    /// No tokens; the first one will have this code. Takes no memory.
    pub(crate) fn new(alloc: Global, code: u64) -> NodeMemory
        ensures code { result.code ≡ code }
        ensures left { result.first.left ≡ [] }
        ensures right { result.first.right ≡ [] }
        ensures others { result.others ≡ [] }
    {
        NodeMemory {
            code,
            first: CodeMemory::new(alloc),
            others: SmallMap::new(alloc),
        }
    }

    /// The memory of the tokens with this code. It looks the code up only if it is not the first. Takes no memory.
    pub(crate) fn memory(&self, code: u64) -> Option<&CodeMemory>
        ensures { option_copied result ≡ memory_under self.now code }
    {
        if code == self.code {
            Some(&self.first)
        } else {
            self.others.get(&code)
        }
    }

    fn cell_under(&self, code: u64, side: Side, token: &Tags) -> Option<TokenCount>
        ensures { result ≡ cell_under self.now code side token.now }
    {
        match self.memory(code) {
            Some(memory) => memory.cell(side, token),
            None => None,
        }
    }

    /// What is kept of a token, whatever its code. It searches one memory after another. Takes no memory.
    pub(crate) fn cell(&self, side: Side, token: &Tags) -> Option<TokenCount>
        ensures { result ≡ cell_in self.now side token.now }
    {
        match self.cell_under(self.code, side, token) {
            Some(cell) => Some(cell),
            None => self.cell_of_others(side, token),
        }
    }

    /// The same for a token whose code is not the first.
    fn cell_of_others(&self, side: Side, token: &Tags) -> Option<TokenCount>
        ensures { result ≡ first_some (λ c. cell_under self.now c side token.now) (keys_of self.now.others) }
    {
        for place in 0..self.others.len() {
            let (code, _memory) = self.others.pair(place);
            if let Some(cell) = self.cell_under(*code, side, token) {
                return Some(cell);
            }
        }
        None
    }

    /// Whether no token is kept. Takes no memory.
    pub(crate) fn is_empty(&self) -> bool
        ensures { IsTrue result → (c : ℕ) (s : Side) (t : List ℕ) → cell_under self.now c s t ≡ None }
    {
        self.first.is_empty() && self.others.is_empty()
    }

    /// Replaces what is kept of the token at the spot, or stops keeping it. If memory runs out, nothing has changed.
    #[inline(always)]
    pub(crate) fn put(
        &mut self,
        alloc: Global,
        spot: &TokenPlace,
        task: &Task,
        cell: Option<TokenCount>,
    ) -> Result<(), OutOfMemory>
        requires token { spot.now.token ≡ place_of (tokens_of (memory_under self.old spot.now.code) task.now.side) task.now.token }
        requires some { IfSome cell (λ c. c.sum ≢ pos 0) }
        ensures ok { OnOk result ((c : ℕ) (s : Side) (t : List ℕ) → cell_under self.new c s t ≡ (if (c == spot.now.code) && (are_same_sides s task.now.side && bytes_eq t task.now.token) then cell else cell_under self.old c s t)) }
        ensures err { OnErr result ((c : ℕ) (s : Side) (t : List ℕ) → cell_under self.new c s t ≡ cell_under self.old c s t) }
    {
        if spot.code == self.code {
            self.first
                .put(alloc, task.side, spot.token, &task.token, cell)
        } else {
            put_among(&mut self.others, alloc, spot, task, cell)
        }
    }

    /// Adds or removes one blocker at each left token with this code that the right token goes with. Takes no memory.
    pub(crate) fn block(&mut self, store: &Store, of: &Node, code: u64, right: &[u64], plus: bool)
        requires room { plus ≡ true → (t : List ℕ) → sum_kept (cell_under self.old code Left t) ≢ pos 0 → blockers_kept (cell_under self.old code Left t) < 2 ^ 64 - 1 }
        ensures { (c : ℕ) (s : Side) (t : List ℕ) → cell_under self.new c s t ≡ cell_blocked ((c == code) && are_same_sides s Left) (goes_with of.now.kind of.now.joins (held_of store.now) t right.now) plus (cell_under self.old c s t) }
    {
        if code == self.code {
            self.first.block(store, of, right, plus);
        } else {
            block_among(&mut self.others, store, of, code, right, plus);
        }
    }
}

/// The same for a code that is not the first.
fn block_among(
    others: &mut SmallMap<u64, CodeMemory>,
    store: &Store,
    of: &Node,
    code: u64,
    right: &[u64],
    plus: bool,
)
    requires room { plus ≡ true → (t : List ℕ) → sum_kept (kept_among others.old code Left t) ≢ pos 0 → blockers_kept (kept_among others.old code Left t) < 2 ^ 64 - 1 }
    ensures { (c : ℕ) (s : Side) (t : List ℕ) → kept_among others.new c s t ≡ cell_blocked ((c == code) && are_same_sides s Left) (goes_with of.now.kind of.now.joins (held_of store.now) t right.now) plus (kept_among others.old c s t) }
{
    let _apart = others.len();
    if let Some(place) = others.find(&code) {
        others.value_mut(place).block(store, of, right, plus);
    }
}
