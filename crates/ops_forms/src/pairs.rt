//! Puts tokens together that are one inside a `build`.
ghost use Rattle.std.specs.Prelude.{◌≡◌, ◌<◌, ◌^◌, All, IfOk, Some};
ghost use Rattle.ops_tokens.specs.Tokens.{LiesIn};
ghost use Rattle.ops_grammar.specs.Words.{outside, begun, passed, left, closed, followed, region_behind, takes_holes, is_remainder, pair, joined};
ghost use Rattle.ops_forms.specs.Pairs.{begins_with_variable, has_hole, is_hole, variable_behind};

use crate::kinds::is_variable;
use crate::words::keyword_of;
use ops_base::memory::OutOfMemory;
use ops_grammar::{Keyword, Region, Within};
use ops_tokens::{Token, TokenKind, spelling_of};
use std::alloc::Global;

/// Whether a `\\` or `\` stands right before a variable. Where none does, no two tokens are one. Looks up the keywords of
/// the tokens right before variables.
pub fn has_hole(text: &[u8], tokens: &[Token]) -> bool
    requires { All (λ t. LiesIn text.now t) tokens.now }
    ensures { result ≡ has_hole text.now tokens.now }
{
    let mut rest = tokens;
    'tokens: loop {
        let Some((token, after)) = rest.split_first() else {
            return false;
        };
        if is_hole(text, token, after) {
            return true;
        }
        rest = after;
    }
}

// whether the token is a `\\` or `\` and a variable stands right after it
fn is_hole(text: &[u8], token: &Token, after: &[Token]) -> bool
    requires { LiesIn text.now token.now }
    ensures { result ≡ is_hole text.now token.now after.now }
{
    begins_with_variable(after) && is_remainder(keyword_of(token.kind, spelling_of(text, token)))
}

// whether the first of the tokens is a variable
fn begins_with_variable(tokens: &[Token]) -> bool
    ensures { result ≡ begins_with_variable tokens.now }
{
    match tokens.first() {
        Some(token) => is_variable(token.kind),
        None => false,
    }
}

/// The tokens of a form, in which a `\\` or `\` right before a variable is one quoted token with it inside a `build`,
/// outside `compute`. Takes time in proportion to the number of bytes of the tokens.
pub fn joined(alloc: Global, text: &[u8], tokens: &[Token]) -> Result<Vec<Token>, OutOfMemory>
    requires { All (λ t. LiesIn text.now t) tokens.now }
    ensures { IfOk result (λ all. all.items ≡ joined text.now outside tokens.now) }
{
    let mut all = Vec::with_capacity(alloc, tokens.len())?;
    let mut region = outside();
    let mut rest = tokens;
    'tokens: loop {
        let Some((token, after)) = rest.split_first() else {
            return Ok(all);
        };
        let keyword = keyword_of(token.kind, spelling_of(text, token));
        let next = region_behind(region, token.kind, keyword);
        match variable_behind(region, keyword, after) {
            Some(variable) => {
                all.push(pair(token, &variable))?;
                region = followed(next, Keyword::Other);
                rest = &after[1..];
            }
            None => {
                all.push(*token)?;
                region = next;
                rest = after;
            }
        }
    }
}

// the variable that stands right after a token which is one with it
fn variable_behind(region: Region, keyword: Keyword, after: &[Token]) -> Option<Token>
    ensures { result ≡ variable_behind region keyword after.now }
{
    if !(takes_holes(region.within) && is_remainder(keyword)) {
        return None;
    }
    match after.first() {
        Some(token) if is_variable(token.kind) => Some(*token),
        _ => None,
    }
}

// in no form
fn outside() -> Region
    ensures { result ≡ outside }
{
    Region {
        depth: 0,
        opened: false,
        within: Within::Front,
    }
}

// whether such tokens are put together there
fn takes_holes(within: Within) -> bool
    ensures { result ≡ takes_holes within }
{
    matches!(within, Within::Build | Within::Built)
}

fn is_remainder(keyword: Keyword) -> bool
    ensures { result ≡ is_remainder keyword }
{
    matches!(keyword, Keyword::Remainder)
}

// the quoted token that the two are together
fn pair(token: &Token, variable: &Token) -> Token
    ensures { result ≡ pair token.now variable.now }
{
    Token {
        kind: TokenKind::Quoted,
        first: token.first,
        past: variable.past,
    }
}

// after a token
fn region_behind(region: Region, kind: TokenKind, keyword: Keyword) -> Region
    requires { region.depth < 2 ^ 63 }
    ensures { result ≡ region_behind region kind keyword }
{
    match kind {
        TokenKind::Left => Region {
            depth: region.depth + 1,
            opened: true,
            within: region.within,
        },
        TokenKind::Right => closed(region),
        _ => followed(region, keyword),
    }
}

// after a closing bracket
fn closed(region: Region) -> Region
    ensures { result ≡ closed region }
{
    if region.depth <= 1 {
        return outside();
    }
    Region {
        depth: region.depth - 1,
        opened: false,
        within: left(region.depth, region.within),
    }
}

// after a token that is no bracket
fn followed(region: Region, keyword: Keyword) -> Region
    ensures { result ≡ followed region keyword }
{
    let within = match keyword {
        Keyword::Arrow => passed(region.depth, region.within),
        _ if region.opened => begun(keyword, region.depth, region.within),
        _ => region.within,
    };
    Region {
        depth: region.depth,
        opened: false,
        within,
    }
}

// after the word of a bracket
fn begun(keyword: Keyword, depth: usize, within: Within) -> Within
    ensures { result ≡ begun keyword depth within }
{
    match (keyword, within) {
        (Keyword::Build, Within::Actions) => {
            if depth == 2 {
                Within::Build
            } else {
                Within::Actions
            }
        }
        (Keyword::Compute, Within::Built) => Within::Compute(depth),
        _ => within,
    }
}

// after an arrow
fn passed(depth: usize, within: Within) -> Within
    ensures { result ≡ passed depth within }
{
    match within {
        Within::Front if depth == 1 => Within::Actions,
        Within::Build if depth == 2 => Within::Built,
        _ => within,
    }
}

// after a closing bracket, where this many are open before it
fn left(depth: usize, within: Within) -> Within
    ensures { result ≡ left depth within }
{
    match within {
        Within::Build | Within::Built if depth == 2 => Within::Actions,
        Within::Compute(around) if depth == around => Within::Built,
        _ => within,
    }
}
