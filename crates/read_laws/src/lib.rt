//! Laws about the meaning of texts, checked by computation: each operator, word and form, in a small text.
#![tactic(auto)]

pub mod laws;
