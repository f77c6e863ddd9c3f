//! The files of a text, joined in order, and the file that each place of that text belongs to.
#![tactic(auto)]

mod files;
mod laws;
mod parts;

pub use files::{FilesFault, JoinedText, load_files};
pub use laws::parts_are_files;
pub use parts::{Part, part_at};
