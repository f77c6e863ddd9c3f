//! Storage for the tokens of one side of a memory. Nearly always all of them have one tag, or all have several.
ghost use Rattle.std.specs.Prelude.{◌≡◌, ◌≢◌, ◌<◌, ◌==◌, ◌++◌, ◌∷◌, [], IfOk, IfSome, List, None, OnErr, OnOk, Some, bytes_eq, if◌then◌else◌, length, slice_get, ℕ};
ghost use Rattle.std.specs.List.{IsDistinct, swap_remove};
ghost use Rattle.std.specs.Map.{keys_of};
ghost use Rattle.indexmap.specs.IndexMap.{set_value_at};
ghost use Rattle.token_line.specs.inner.Pairs.{cell_of, place_of};
ghost use Rattle.token_line.specs.inner.TokenRooms.{only_tag, tokens_in};

use crate::small_map::SmallMap;
use crate::tokens::TokenCount;
use net_base::tags::Tags;
use ops_base::memory::OutOfMemory;
use std::alloc::Global;
use std::slice;

/// The number of one-tag tokens for which a list takes room at first.
const FIRST_ROOM: usize = 6;

/// At most this many one-tag tokens are kept as a list: scanning all of them takes no longer than hashing one.
const FEW_TAGS: usize = 16;

/// Tokens, each with its cell. A single one-tag token is stored inline, which takes no memory, and several are kept
/// by their tags. When a token of another length is added to them, all are kept as longer tokens.
#[derive(Drop)]
pub(crate) enum TokenRoom {
    One { tag: u64, cell: TokenCount },
    Elements(SmallMap<u64, TokenCount>),
    Longer(SmallMap<Tags, TokenCount>),
}

/// The tag of a token that has exactly one.
fn only_tag(token: &[u64]) -> Option<u64>
    ensures { result ≡ only_tag token.now }
{
    if token.len() == 1 {
        Some(token[0])
    } else {
        None
    }
}

/// The place of a token if the only token has this tag.
fn place_by_tag(token: &[u64], tag: u64) -> Option<usize>
    ensures { result ≡ (if bytes_eq token.now (tag ∷ []) then Some 0 else None) }
{
    match only_tag(token) {
        Some(own) => { if own == tag { Some(0) } else { None } }
        None => None,
    }
}

/// Two one-tag tokens, in a list with room for some more.
fn both(
    alloc: Global,
    first: u64,
    of_first: TokenCount,
    tag: u64,
    cell: TokenCount,
) -> Result<SmallMap<u64, TokenCount>, OutOfMemory>
    requires { first ≢ tag }
    ensures { IfOk result (λ m. m ≡ (first, of_first) ∷ (tag, cell) ∷ []) }
{
    let mut tags = SmallMap::new(alloc);
    tags.reserve(FIRST_ROOM)?;
    tags.push(alloc, first, of_first)?;
    tags.push(alloc, tag, cell)?;
    Ok(tags)
}

impl TokenRoom {
    /// No tokens.
    pub(crate) fn new(alloc: Global) -> TokenRoom
        ensures { tokens_in result ≡ [] }
    {
        TokenRoom::Elements(SmallMap::new(alloc))
    }

    pub(crate) fn len(&self) -> usize
        ensures { result ≡ length (tokens_in self.now) }
    {
        match self {
            TokenRoom::One { .. } => 1,
            TokenRoom::Elements(tags) => tags.len(),
            TokenRoom::Longer(tokens) => tokens.len(),
        }
    }

    pub(crate) fn pair(&self, place: usize) -> (&[u64], TokenCount)
        requires { place < length (tokens_in self.now) }
        ensures { slice_get (tokens_in self.now) place ≡ Some (result.0.now, result.1) }
    {
        match self {
            TokenRoom::One { tag, cell } => (slice::from_ref(tag), *cell),
            TokenRoom::Elements(tags) => {
                let (tag, cell) = tags.pair(place);
                (slice::from_ref(tag), *cell)
            }
            TokenRoom::Longer(tokens) => {
                let (token, cell) = tokens.pair(place);
                (token.as_slice(), *cell)
            }
        }
    }

    #[inline(always)]
    pub(crate) fn find(&self, token: &Tags) -> Option<usize>
        ensures { result ≡ place_of (tokens_in self.now) token.now }
    {
        match self {
            TokenRoom::One { tag, .. } => place_by_tag(token.as_slice(), *tag),
            TokenRoom::Elements(tags) => match only_tag(token.as_slice()) {
                Some(tag) => tags.find(&tag),
                None => None,
            },
            TokenRoom::Longer(tokens) => tokens.find(token),
        }
    }

    pub(crate) fn set(&mut self, place: usize, new: TokenCount)
        requires { place < length (tokens_in self.old) }
        ensures { tokens_in self.new ≡ set_value_at (tokens_in self.old) place new }
    {
        match self {
            TokenRoom::One { cell, .. } => *cell = new,
            TokenRoom::Elements(tags) => *tags.value_mut(place) = new,
            TokenRoom::Longer(tokens) => *tokens.value_mut(place) = new,
        }
    }

    /// Removes the token at a place; the last token moves there.
    pub(crate) fn remove(&mut self, alloc: Global, place: usize)
        requires { place < length (tokens_in self.old) }
        ensures { IfSome (slice_get (tokens_in self.old) place) (λ e. tokens_in self.new ≡ swap_remove (tokens_in self.old) place e) }
    {
        match self {
            TokenRoom::One { .. } => *self = TokenRoom::new(alloc),
            TokenRoom::Elements(tags) => tags.remove(place),
            TokenRoom::Longer(tokens) => tokens.remove(place),
        }
    }

    /// The tokens as longer ones, each copied.
    fn as_longer(&self, alloc: Global) -> Result<SmallMap<Tags, TokenCount>, OutOfMemory>
        requires { IsDistinct bytes_eq (keys_of (tokens_in self.now)) }
        ensures { IfOk result (λ m. m ≡ tokens_in self.now) }
    {
        let mut longer = SmallMap::new(alloc);
        for place in 0..self.len() {
            let (token, cell) = self.pair(place);
            longer.push(alloc, Tags::from_slice(alloc, token)?, cell)?;
        }
        Ok(longer)
    }

    /// Appends a new token with this one tag. If memory runs out, nothing has changed.
    fn push_tag(&mut self, alloc: Global, tag: u64, cell: TokenCount) -> Result<(), OutOfMemory>
        requires { cell_of (tokens_in self.old) (tag ∷ []) ≡ None }
        ensures ok { OnOk result (tokens_in self.new ≡ tokens_in self.old ++ (tag ∷ [], cell) ∷ []) }
        ensures err { OnErr result (tokens_in self.new ≡ tokens_in self.old) }
    {
        match self {
            TokenRoom::One {
                tag: first,
                cell: of_first,
            } => {
                let tags = both(alloc, *first, *of_first, tag, cell)?;
                *self = TokenRoom::Elements(tags);
                Ok(())
            }
            TokenRoom::Elements(tags) => {
                if tags.is_empty() {
                    *self = TokenRoom::One { tag, cell };
                    Ok(())
                } else {
                    tags.push_within(alloc, FEW_TAGS, tag, cell)
                }
            }
            TokenRoom::Longer(tokens) => {
                let token = Tags::from_slice(alloc, slice::from_ref(&tag))?;
                tokens.push(alloc, token, cell)
            }
        }
    }

    /// Appends a new token, as a longer one. If memory runs out, nothing has changed.
    fn push_longer(
        &mut self,
        alloc: Global,
        token: &Tags,
        cell: TokenCount,
    ) -> Result<(), OutOfMemory>
        requires apart { IsDistinct bytes_eq (keys_of (tokens_in self.old)) }
        requires absent { cell_of (tokens_in self.old) token.now ≡ None }
        ensures ok { OnOk result (tokens_in self.new ≡ tokens_in self.old ++ (token.now, cell) ∷ []) }
        ensures err { OnErr result (tokens_in self.new ≡ tokens_in self.old) }
    {
        let token = token.copy(alloc)?;
        if let TokenRoom::Longer(tokens) = self {
            return tokens.push(alloc, token, cell);
        }
        let mut tokens = self.as_longer(alloc)?;
        tokens.push(alloc, token, cell)?;
        *self = TokenRoom::Longer(tokens);
        Ok(())
    }

    /// Appends a new token. The second one takes memory. The list becomes a map with the seventeenth token if each has
    /// one tag, and with the ninth if some are longer. If memory runs out, nothing has changed.
    pub(crate) fn push(
        &mut self,
        alloc: Global,
        token: &Tags,
        cell: TokenCount,
    ) -> Result<(), OutOfMemory>
        requires apart { IsDistinct bytes_eq (keys_of (tokens_in self.old)) }
        requires absent { cell_of (tokens_in self.old) token.now ≡ None }
        ensures ok { OnOk result (tokens_in self.new ≡ tokens_in self.old ++ (token.now, cell) ∷ []) }
        ensures err { OnErr result (tokens_in self.new ≡ tokens_in self.old) }
    {
        match only_tag(token.as_slice()) {
            Some(tag) => self.push_tag(alloc, tag, cell),
            None => self.push_longer(alloc, token, cell),
        }
    }
}
