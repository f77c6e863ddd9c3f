//! The trail of the last firings: each of them can be undone.
#![tactic(auto)]

mod kept;
mod marks;
mod oldest;
mod remade;
mod steps;
mod trail;

pub use trail::Trail;
