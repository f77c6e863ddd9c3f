//! The tokens of one side of a node that have one code, on one line, each with what is kept of it.
ghost use Rattle.std.specs.Prelude.{◌≡◌, ◌≢◌, ◌<◌, ◌==◌, ◌-◌, ◌^◌, ◌++◌, ◌∷◌, ◌↔◌, [], IfOk, IfSome, IsTrue, List, None, OnErr, OnOk, Some, bytes_eq, if◌then◌else◌, length, pos, position, slice_get, true, ℕ};
ghost use Rattle.std.specs.List.{IsDistinct, swap_remove};
ghost use Rattle.std.specs.Map.{keys_of, lookup};
ghost use Rattle.std.specs.Option.{option_map};
ghost use Rattle.indexmap.specs.IndexMap.{set_value_at};
ghost use Rattle.work_store.specs.Stored.{held_of};
ghost use Rattle.net_base.specs.Tokens.{goes_with};
ghost use Rattle.token_line.specs.inner.Pairs.{ArePairs, cell_of, place_of};
ghost use Rattle.token_line.specs.Sums.{blocked, blockers_of, counted, kept_sum};

use crate::joining::goes_with;
use crate::token_room::TokenRoom;
use net_base::nodes::Node;
use net_base::tags::Tags;
use ops_base::memory::OutOfMemory;
use std::alloc::Global;
use std::marker::Model;
use work_store::Store;

/// What is kept of a token: its sum, and a number of blockers. With a left token of a negated node or a group, the
/// latter is the number of right tokens, by effective count, that go with it; keeping it right is up to the caller.
/// With other tokens it has no meaning.
#[derive(Clone, Copy, Debug, PartialEq, Eq)]
pub struct TokenCount {
    pub sum: i64,
    pub blockers: u64,
}

/// Tokens, each with its cell; none has the sum 0.
#[derive(Drop)]
pub struct Tokens {
    room: TokenRoom,
}

impl Model for Tokens {
    ghost use Rattle.std.specs.Prelude.{ℕ, List};
    ghost use Rattle.token_line.specs.declared.tokens.TokenCount.{TokenCount};

    ghost Value = { List (List ℕ × TokenCount) };

    ghost use Rattle.token_line.specs.inner.Pairs.{ArePairs};
    ghost use Rattle.token_line.specs.inner.TokenRooms.{tokens_in};

    ghost view = { λ c. tokens_in c.room };

    ghost invariant = { λ c. ArePairs (tokens_in c.room) };
}

/// The count plus or minus one; 0 stays 0 when one is taken away.
fn counted(count: u64, plus: bool) -> u64
    requires { plus ≡ true → count < 2 ^ 64 - 1 }
    ensures { result ≡ counted plus count }
{
    if plus {
        count + 1
    } else {
        count.saturating_sub(1)
    }
}

impl Tokens {
    /// No tokens. Takes no memory.
    pub(crate) fn new(alloc: Global) -> Tokens
        ensures { result ≡ [] }
    {
        Tokens {
            room: TokenRoom::new(alloc),
        }
    }

    /// How many tokens there are. Takes no memory.
    pub fn len(&self) -> usize
        ensures len { result ≡ length self.now }
        ensures pairs { ArePairs self.now }
    {
        self.room.len()
    }

    /// Whether there are none. Takes no memory.
    pub fn is_empty(&self) -> bool
        ensures { IsTrue result ↔ (self.now ≡ []) }
    {
        self.room.len() == 0
    }

    /// The token at a place, and what is kept of it. Takes no memory.
    pub fn pair(&self, place: usize) -> (&[u64], TokenCount)
        requires { place < length self.now }
        ensures pair { slice_get self.now place ≡ Some (result.0.now, result.1) }
        ensures some { result.1.sum ≢ pos 0 }
    {
        self.room.pair(place)
    }

    /// The place of a token. It scans the tokens if they are few, and hashes the token if they are many. Takes no
    /// memory.
    #[inline(always)]
    pub fn find(&self, token: &Tags) -> Option<usize>
        ensures { result ≡ place_of self.now token.now }
    {
        self.room.find(token)
    }

    /// What is kept of a token, given its place. Takes no memory.
    pub(crate) fn kept(&self, token: &Tags, place: Option<usize>) -> Option<TokenCount>
        requires { place ≡ place_of self.now token.now }
        ensures { result ≡ cell_of self.now token.now }
    {
        let _token = token;
        let _pairs = self.len();
        match place {
            Some(place) => Some(self.pair(place).1),
            None => None,
        }
    }

    /// Replaces what is kept of the token at a place. Takes no memory.
    pub(crate) fn set(&mut self, place: usize, cell: TokenCount)
        requires within { place < length self.old }
        requires some { cell.sum ≢ pos 0 }
        ensures { self.new ≡ set_value_at self.old place cell }
    {
        self.room.set(place, cell);
    }

    /// Removes the token at a place; the last token moves there. Takes no memory.
    pub(crate) fn remove(&mut self, alloc: Global, place: usize)
        requires { place < length self.old }
        ensures { IfSome (slice_get self.old place) (λ e. self.new ≡ swap_remove self.old place e) }
    {
        self.room.remove(alloc, place);
    }

    /// Appends a new token. The first takes no memory if it has one tag, and later ones take it now and then. If
    /// memory runs out, nothing has changed.
    pub(crate) fn push(
        &mut self,
        alloc: Global,
        token: &Tags,
        cell: TokenCount,
    ) -> Result<(), OutOfMemory>
        requires absent { cell_of self.old token.now ≡ None }
        requires some { cell.sum ≢ pos 0 }
        ensures ok { OnOk result (self.new ≡ self.old ++ (token.now, cell) ∷ []) }
        ensures err { OnErr result (self.new ≡ self.old) }
    {
        self.room.push(alloc, token, cell)
    }

    /// Replaces what is kept of a token with this place, or stops keeping it. If memory runs out, nothing has
    /// changed.
    #[inline(always)]
    pub(crate) fn put(
        &mut self,
        alloc: Global,
        place: Option<usize>,
        token: &Tags,
        cell: Option<TokenCount>,
    ) -> Result<(), OutOfMemory>
        requires place { place ≡ place_of self.old token.now }
        requires some { IfSome cell (λ c. c.sum ≢ pos 0) }
        ensures ok { OnOk result ((t : List ℕ) → cell_of self.new t ≡ (if bytes_eq t token.now then cell else cell_of self.old t)) }
        ensures err { OnErr result (self.new ≡ self.old) }
    {
        let _pairs = self.len();
        let Some(place) = place else {
            return match cell {
                Some(cell) => self.push(alloc, token, cell),
                None => Ok(()),
            };
        };
        match cell {
            Some(cell) => self.set(place, cell),
            None => self.remove(alloc, place),
        }
        Ok(())
    }

    /// Adds or removes one blocker at the left token at a place, if the right token goes with it.
    fn block_at(&mut self, place: usize, store: &Store, of: &Node, right: &[u64], plus: bool)
        requires within { place < length self.old }
        requires room { plus ≡ true → IfSome (slice_get self.old place) (λ e. e.1.blockers < 2 ^ 64 - 1) }
        ensures { IfSome (slice_get self.old place) (λ e. self.new ≡ set_value_at self.old place (blocked (goes_with of.now.kind of.now.joins (held_of store.now) e.0 right.now) plus e.1)) }
    {
        let (token, cell) = self.pair(place);
        let blockers = if goes_with(store, of, token, right) {
            counted(cell.blockers, plus)
        } else {
            cell.blockers
        };
        let sum = cell.sum;
        self.set(place, TokenCount { sum, blockers });
    }

    /// Adds or removes one blocker at each left token that the right token goes with. Takes no memory.
    pub(crate) fn block(&mut self, store: &Store, of: &Node, right: &[u64], plus: bool)
        requires room { plus ≡ true → (t : List ℕ) → kept_sum self.old t ≢ pos 0 → blockers_of self.old t < 2 ^ 64 - 1 }
        ensures { (t : List ℕ) → cell_of self.new t ≡ option_map (blocked (goes_with of.now.kind of.now.joins (held_of store.now) t right.now) plus) (cell_of self.old t) }
    {
        for place in 0..self.len() {
            self.block_at(place, store, of, right, plus);
        }
    }
}
