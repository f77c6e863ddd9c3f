//! One task of the match, performed on its line: the tasks that it creates, the change of its token's sum, and the
//! change of the blocker counts of left tokens.
#![tactic(auto)]

mod acting;
mod children;
mod effects;
mod negating;
mod putting;

pub use acting::{activate, activate_coded};
