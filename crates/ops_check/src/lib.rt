//! Reading a program text: what the grammar makes of its words, form by form.
//!
//! The comment above a reading method is the grammar of what the method reads. If a method's name ends in `_from`, the
//! first word was already taken and is passed to it.
#![tactic(auto)]

mod commands;
mod declarations;
mod draft;
mod elements;
mod ends;
mod faults;
mod forms;
mod given;
pub mod laws;
mod names;
mod productions;
mod program;
mod several;
mod tags;
mod values;

pub use faults::ProgramFault;
pub use ops_base::endings::{Fault, Limit};
pub use program::{LONGEST_TEXT, read_program};
