//! What is read as a program: the definitions of the words of a text, the grammar, and where a fault stands, in specs/,
//! and the few types that they and the readers above share.
#![tactic(auto)]

pub mod words;

pub use words::{Keyword, Named, Region, Within, Word};
