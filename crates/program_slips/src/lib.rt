//! What the productions of a program ask for in vain, and what they contain to no effect.
#![tactic(auto)]

pub mod alike;
pub mod asked;
mod findings;
pub mod given;
mod laws;
mod lefts;
mod lone_words;
mod texts;
mod unmet;
pub mod words;

pub use alike::{Twin, twins};
pub use asked::{Ask, What};
pub use findings::lacking;
pub use laws::{no_element_meets, small_texts};
pub use lone_words::lone;
pub use words::Named;
