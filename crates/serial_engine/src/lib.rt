//! The serial engine: a matcher over a network that works one task after another.
#![tactic(auto)]

mod alone;
mod engine;
mod growing;
mod phases;

pub use alone::{Worth, begin_alone, is_room_needed};
pub use engine::SerialEngine;
pub use growing::{Grown, grow};
pub use phases::{do_changes, settle, work_all};
