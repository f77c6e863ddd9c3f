//! The tokens of a program text: their kinds and spellings, and the next one from a place on. Also the atoms that
//! `accept` reads from an input.
#![tactic(auto)]

mod accept;
mod bytes;
pub mod laws;
mod number;
mod parts;
pub mod scanner;
mod table;
#[cfg(test)]
mod tests;
pub mod token;
mod whole_table;

pub use accept::{AcceptFault, accept_atom};
pub use scanner::{Scanner, next_token};
pub use token::{
    BAD_BYTE, FRACTION_NUMBER, LexFault, NUMBER_RANGE, Token, TokenKind, UNCLOSED, spelling_of,
};
