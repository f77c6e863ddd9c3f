//! Why a rule does not fire: its partial matches, and its instantiations with what they bind or else the first part up
//! to which nothing meets its parts.
#![tactic(auto)]

pub mod checking;
pub mod explaining;
mod known;
pub mod laws;
pub mod partials;

pub use checking::check;
pub use explaining::{BoundInst, Why, explain};
pub use known::variable_of;
pub use partials::{parts_of, upto};
