//! Executes the right side of an instantiation over a store of working memory.
//!
//! The definitions of what a right side does are total, and so are the functions here: if a number denotes no
//! production, class, cell or bound variable, they return an empty list, 0 or `nil`, as the definitions do. In a
//! checked program this never happens.
//!
//! `ActState` has the program, the trace level and the allocator. `names`, `input`, `source`, `out` and `sink` are
//! passed from call to call, each as a parameter of its own: each is borrowed separately, so that a contract can name
//! the contents of each after the call.
#![tactic(auto)]

mod acting;
mod atoms;
mod bindings;
mod changed_memory;
mod excerpts;
mod expressions;
mod fields;
mod items;
mod laws;
mod outcome;
mod removed_tags;
mod right_side;
mod state;
mod traces;
mod values;
mod waiting;

pub use acting::Acting;
pub use excerpts::excerpt;
pub use laws::an_excerpt_is_enough;
pub use ops_base::endings::ActKind;
pub use outcome::{ActFault, Acted};
pub use right_side::act;
pub use traces::{traces_elements, traces_firings};
pub use waiting::{asks, asks_after_change};
