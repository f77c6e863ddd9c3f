//! The recognise-act cycle over any matcher: working memory, the conflict set with its marks, and one firing after
//! another.
#![tactic(auto)]

mod actor;
mod fired;
mod maker;
mod slot;
mod state;

pub use actor::{Actor, InTurn};
pub use fired::Fired;
pub use maker::{Maker, made_over};
pub use state::State;
