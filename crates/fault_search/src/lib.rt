//! All faults of a text: the form that contains each fault is blanked out, and the text is read again.
#![tactic(auto)]

mod blank;
mod first;
mod forms;
mod search;

pub use blank::blanked;
pub use first::{PlacedFault, first_fault};
pub use forms::{Span, form_at};
pub use search::all_faults;
