//! The variables of a production, as they occur in its text.
ghost use Rattle.std.specs.Prelude.{◌≡◌, ◌<◌, ◌≤◌, ◌^◌, ◌++◌, length, All, bytes_eq, IfOk, OnOk};
ghost use Rattle.ops_grammar.specs.Words.{lexed};
ghost use Rattle.program_slips.specs.Lone.{plain, after_operator, after_left, after_right, begins_formula, after_symbol, after_word, named_by, named_among, at_start};
ghost use Rattle.program_slips.specs.Walks.{StandsBefore, LiesWithin};

use ops_base::memory::OutOfMemory;
use ops_tokens::{Scanner, Token, TokenKind, spelling_of};
use std::alloc::Global;

/// The context of a word.
#[derive(Clone, Copy, Debug, PartialEq, Eq)]
pub struct Standing {
    /// Whether it is before the arrow.
    pub left: bool,
    /// Whether it is between `<<` and `>>`.
    pub choice: bool,
    /// Whether it comes right after `//`, which makes a constant of it.
    pub literal: bool,
    /// Whether it comes right after an opening bracket.
    pub head: bool,
    /// How many brackets are open, counting that of the outermost `compute` and those inside it, or 0.
    pub formula: usize,
}

/// A variable, on the bytes of a text from `first` up to but not including `past`, and whether it is before the
/// arrow.
#[derive(Clone, Copy, Debug, PartialEq, Eq)]
pub struct Named {
    pub first: usize,
    pub past: usize,
    pub left: bool,
}

fn is(word: &[u8], other: &[u8]) -> bool
    ensures { result ≡ bytes_eq word.now other.now }
{
    word == other
}

fn plain(standing: Standing) -> Standing
    ensures { result ≡ plain standing }
{
    Standing {
        literal: false,
        head: false,
        ..standing
    }
}

fn after_operator(standing: Standing, spelling: &[u8]) -> Standing
    ensures { result ≡ after_operator standing spelling.now }
{
    if standing.choice {
        return Standing {
            choice: !is(spelling, b">>"),
            literal: false,
            head: false,
            ..standing
        };
    }
    if standing.literal {
        return plain(standing);
    }
    if is(spelling, b"//") {
        return Standing {
            literal: standing.formula == 0,
            head: false,
            ..standing
        };
    }
    Standing {
        left: standing.left && !is(spelling, b"-->"),
        choice: standing.left && is(spelling, b"<<"),
        literal: false,
        head: false,
        ..standing
    }
}

fn after_left(standing: Standing) -> Standing
    requires { standing.formula < 2 ^ 63 }
    ensures { result ≡ after_left standing }
{
    Standing {
        literal: false,
        head: true,
        formula: if 0 < standing.formula {
            standing.formula + 1
        } else {
            0
        },
        ..standing
    }
}

fn after_right(standing: Standing) -> Standing
    ensures { result ≡ after_right standing }
{
    Standing {
        literal: false,
        head: false,
        formula: standing.formula.saturating_sub(1),
        ..standing
    }
}

fn begins_formula(standing: Standing, spelling: &[u8]) -> bool
    ensures { result ≡ begins_formula standing spelling.now }
{
    standing.head && !standing.left && standing.formula == 0 && is(spelling, b"compute")
}

fn after_symbol(standing: Standing, spelling: &[u8]) -> Standing
    ensures { result ≡ after_symbol standing spelling.now }
{
    Standing {
        literal: false,
        head: false,
        formula: if begins_formula(standing, spelling) {
            1
        } else {
            standing.formula
        },
        ..standing
    }
}

fn after_word(kind: TokenKind, standing: Standing, spelling: &[u8]) -> Standing
    requires { standing.formula < 2 ^ 63 }
    ensures { result ≡ after_word kind standing spelling.now }
{
    match kind {
        TokenKind::Left => after_left(standing),
        TokenKind::Right => after_right(standing),
        TokenKind::Operator => after_operator(standing, spelling),
        TokenKind::Symbol => after_symbol(standing, spelling),
        _ => plain(standing),
    }
}

/// Adds the token, if it is a variable.
fn note(named: &mut Vec<Named>, standing: Standing, token: Token) -> Result<(), OutOfMemory>
    ensures { OnOk result (named.new.items ≡ named.old.items ++ named_by token.kind standing token.first token.past) }
{
    match token.kind {
        TokenKind::Variable => {
            if !standing.choice && !standing.literal {
                named.push(Named {
                    first: token.first,
                    past: token.past,
                    left: standing.left,
                })?;
            }
            Ok(())
        }
        _ => Ok(()),
    }
}

/// The next token, if there is one.
fn token_from(scanner: &Scanner, text: &[u8], from: usize) -> Option<Token>
    requires { from ≤ length text.now }
    ensures { StandsBefore text.now from result }
{
    match scanner.next_token(text, from) {
        Ok(found) => found,
        Err(_) => None,
    }
}

/// The variables of the text of a production, in order, including those that occur twice.
pub(crate) fn variables_in(
    alloc: Global,
    scanner: &Scanner,
    text: &[u8],
) -> Result<Vec<Named>, OutOfMemory>
    ensures named { IfOk result (λ v. v.items ≡ named_among text.now at_start (lexed text.now).tokens) }
    ensures within { IfOk result (λ v. All (LiesWithin text.now) v.items) }
{
    let mut named = Vec::new(alloc);
    let mut standing = Standing {
        left: true,
        choice: false,
        literal: false,
        head: false,
        formula: 0,
    };
    let mut from = 0;
    'words: loop {
        let Some(token) = token_from(scanner, text, from) else {
            return Ok(named);
        };
        note(&mut named, standing, token)?;
        standing = after_word(token.kind, standing, spelling_of(text, &token));
        from = token.past;
    }
}
