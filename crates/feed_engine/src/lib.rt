//! A phase that settles its changes piece by piece, beside the actions that wait for input.
#![tactic(auto)]

mod beside;
mod combining;
mod feed;
mod lent;
mod overlapped;
mod piecewise;

pub use combining::{Changed, combine};
pub use lent::LentActor;
pub use overlapped::act_overlapped;
