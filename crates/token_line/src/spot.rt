//! Where a token is kept on a line.
ghost use Rattle.std.specs.Prelude.{◌≡◌};
ghost use Rattle.std.specs.Option.{option_copied};
ghost use Rattle.token_line.specs.inner.Codes.{tokens_of};
ghost use Rattle.token_line.specs.inner.Pairs.{cell_of, place_of};
ghost use Rattle.token_line.specs.Sums.{sum_kept};

use crate::memory::CodeMemory;
use crate::tokens::TokenCount;
use net_base::tags::Tags;
use net_base::tasks::Side;

/// Where a token is kept on a line: the place of its node, its code, its own place among the tokens with that code,
/// and what is kept of it. It is no longer valid once the line has changed.
#[derive(Clone, Copy)]
pub struct TokenPlace {
    pub(crate) node: Option<usize>,
    pub(crate) code: u64,
    pub(crate) token: Option<usize>,
    pub(crate) kept: Option<TokenCount>,
}

/// The sum of a token, given what is kept of it, or 0 if nothing is.
pub(crate) fn sum_of(kept: Option<TokenCount>) -> i64
    ensures { result ≡ sum_kept kept }
{
    match kept {
        Some(cell) => cell.sum,
        None => 0,
    }
}

impl TokenPlace {
    /// The sum of the token, or 0 if it is not kept. Takes no memory.
    pub fn sum(&self) -> i64
        ensures { result ≡ sum_kept self.now.kept }
    {
        sum_of(self.kept)
    }

    /// What is kept of the token. Takes no memory.
    pub fn kept(&self) -> Option<TokenCount>
        ensures { result ≡ self.now.kept }
    {
        self.kept
    }
}

/// The spot of a token, given the place of its node and the memory of its code, if there are such.
#[inline(always)]
pub(crate) fn spot_in(
    memory: Option<&CodeMemory>,
    node: Option<usize>,
    code: u64,
    side: Side,
    token: &Tags,
) -> TokenPlace
    ensures node { result.node ≡ node }
    ensures code { result.code ≡ code }
    ensures token { result.token ≡ place_of (tokens_of (option_copied memory.entry) side) token.now }
    ensures kept { result.kept ≡ cell_of (tokens_of (option_copied memory.entry) side) token.now }
{
    let (token, kept) = match memory {
        Some(memory) => {
            let tokens = memory.side(side);
            let own = tokens.find(token);
            (own, tokens.kept(token, own))
        }
        None => (None, None),
    };
    TokenPlace {
        node,
        code,
        token,
        kept,
    }
}
