//! Tokens, the bytes that they stand on, and what is no token.
ghost use Rattle.std.specs.Prelude.{◌≡◌};
ghost use Rattle.ops_tokens.specs.Tokens.{is_quoted, spelling, LiesIn};

use ops_base::endings::{Fault, fault_text};
use thiserror::Error;

/// A byte that may stand in a comment alone stands outside one.
pub const BAD_BYTE: u8 = 1;
/// No bar follows a bar.
pub const UNCLOSED: u8 = 2;
/// An atom is spelled as a fraction.
pub const FRACTION_NUMBER: u8 = 4;
/// A whole number is below the least or above the greatest number of 128 bits.
pub const NUMBER_RANGE: u8 = 5;

/// What a token is: a bracket, a caret, an operator, a variable, a whole number with its value, a plain symbol, or a
/// quoted atom.
#[derive(Clone, Copy, Debug, PartialEq, Eq)]
pub enum TokenKind {
    Left,
    Right,
    LeftBrace,
    RightBrace,
    Caret,
    Operator,
    Variable,
    Whole(i128),
    Symbol,
    Quoted,
}

/// A token on the bytes of a text from `first` up to `past`, of which a quoted atom's bars are the first and the last.
#[derive(Clone, Copy, Debug, PartialEq, Eq)]
pub struct Token {
    pub kind: TokenKind,
    pub first: usize,
    pub past: usize,
}

/// Why no token stands at a place: `BAD_BYTE`, `UNCLOSED`, `FRACTION_NUMBER` or `NUMBER_RANGE`, and the byte to blame.
#[derive(Clone, Copy, Debug, PartialEq, Eq, Error)]
#[error("byte {at}: {}", text_of(*number))]
pub struct LexFault {
    pub number: u8,
    pub at: usize,
}

// what is printed of the fault of a number
fn text_of(number: u8) -> &'static str {
    let fault = match number {
        BAD_BYTE => Fault::BadByte,
        UNCLOSED => Fault::Unclosed,
        FRACTION_NUMBER => Fault::FractionNumber,
        _ => Fault::NumberRange,
    };
    fault_text(fault)
}

fn is_quoted(kind: TokenKind) -> bool
    ensures { result ≡ is_quoted kind }
{
    matches!(kind, TokenKind::Quoted)
}

/// The bytes that count as the token's spelling: a quoted atom's are those between its bars.
pub fn spelling_of<'a>(text: &'a [u8], token: &Token) -> &'a [u8]
    requires { LiesIn text.now token.now }
    ensures { result.now ≡ spelling text.now token.now }
{
    if is_quoted(token.kind) {
        &text[token.first + 1..token.past - 1]
    } else {
        &text[token.first..token.past]
    }
}
