//! What a worker begins with, and what it brings back.
use task_deque::{Fitting, OwnEnd, ThiefEnd};

/// A worker's pass, the owner's end of its own deque, and the thief's end of its victim's deque.
#[derive(Drop)]
pub(crate) struct Seat<J: Fitting, P> {
    pub(crate) pass: P,
    pub(crate) own: OwnEnd<J>,
    pub(crate) thief: ThiefEnd<J>,
}

/// A worker that has finished. `whole` is true if it did not run out of memory.
#[derive(Drop)]
pub(crate) struct Worked<J: Fitting, P> {
    pub(crate) pass: P,
    pub(crate) own: OwnEnd<J>,
    pub(crate) thief: ThiefEnd<J>,
    pub(crate) whole: bool,
}
