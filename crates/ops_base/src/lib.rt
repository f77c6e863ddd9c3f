//! The words of the language: values, elements, programs and instantiations, the names of symbols, and the conflict set
//! found by direct matching.
#![tactic(auto)]

pub mod actions;
pub mod commands;
pub mod conditions;
pub mod constants;
pub mod copies;
pub mod direct;
pub mod dominance;
pub mod elements;
pub mod endings;
pub mod expression;
pub mod filling;
pub mod list;
pub mod live;
pub mod matching;
pub mod memory;
pub mod programs;
pub mod rules;
pub mod symbols;
pub mod values;

pub use actions::{Action, Hole, Item, Put, Term};
pub use commands::{Command, Fixed, Strategy};
pub use conditions::{Condition, Operand, Part, Test};
pub use constants::Constants;
pub use elements::{Change, Class, Element};
pub use endings::{ActKind, Ending, Fault, Limit};
pub use expression::{Expr, Op, Step};
pub use filling::Filling;
pub use list::Listed;
pub use memory::OutOfMemory;
pub use programs::Program;
pub use rules::{Inst, Rule};
pub use symbols::Names;
pub use values::{Pred, Sym, Value};
