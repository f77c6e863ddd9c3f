//! Values that are changed in turns: each cell has a value that one pass at a time may change, and everything that
//! was given to cells forms one log.
#![tactic(auto)]

mod cells;
mod claiming;
mod closing;
mod giving;
mod kept;
mod opening;
mod passes;
mod plays;
#[cfg(test)]
mod tests;
mod turns;
mod views;

pub use cells::{Cells, LogRule};
pub use closing::{Closed, MadeLog};
pub use kept::Kept;
pub use passes::{Counts, Pass};
pub use turns::Turn;
pub use views::{Held, Row, Share, Sight, View};
