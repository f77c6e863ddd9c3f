//! The session: the commands of a program in the order of its text, over any matcher.
//!
//! The definitions of what a command does are total, and so are the functions here: if a number denotes no class, they
//! use a class without attributes, and if no value is given, `nil`. In a checked program this never happens.
//!
//! `names`, `input`, `source`, `out` and `sink` are passed from call to call, each as a parameter of its own: each is
//! borrowed separately, so that a contract can name the contents of each after the call. What no command changes is in
//! one `SessionContext`.
#![tactic(auto)]

mod bounds;
mod built;
mod changes;
mod commands;
mod context;
mod elements;
mod lists;
mod memory_commands;
mod partials;
mod plain_commands;
mod productions;
mod ready;
mod runs;
mod session;
mod settings;
mod traces;
mod undoable;
mod undoing;
mod whole;

pub use context::SessionContext;
pub use ops_base::endings::Ending;
pub use whole::run_session;
