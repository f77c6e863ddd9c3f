//! The program in force, whose productions come and go, and the state of the cycle, which follows it.
#![tactic(auto)]

mod growing;
mod live;
mod moved;
mod renewing;

pub use live::{Live, rule_named, without_any};
pub use moved::{Moved, place_beside};
pub use renewing::{fed, renew};
