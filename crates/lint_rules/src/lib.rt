//! Things that are allowed in a program text and are nearly always a slip.
#![tactic(auto)]

mod bytes;
pub mod laws;
pub mod slips;
mod walk;

pub use laws::small_texts;
pub use slips::{Slip, Warning, slip_text};
pub use walk::word_slips;
