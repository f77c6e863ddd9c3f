//! Working memory, kept so that an element is found by its time tag, and what a matcher over it promises.
#![tactic(auto)]

mod changing;
mod iter;
mod matcher;
mod pages;
mod row;
mod slot;
mod store;

pub use iter::Elements;
pub use matcher::{Matcher, Settled};
pub use ops_base::elements::Change;
pub use store::Store;
