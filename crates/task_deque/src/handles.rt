//! The types of the two ends of a deque.
ghost use Rattle.std.specs.Prelude.{◌≡◌, true, false};
ghost use Rattle.crossbeam_deque.specs.Handles.{IsPassOf, stealer_deque, worker_flavor, worker_view, view};

use crate::plays::{Fair, Fitting, Known};
use crossbeam_deque::{Pass, Stealer, Worker};
use net_base::tasks::Task;
use std::alloc::Global;

/// The end of the owner, who pushes and pops. Tasks are pushed at the back and taken from the front.
#[derive(Drop)]
pub struct OwnEnd<J: Fitting> {
    pub(crate) worker: Worker<Task, Global, Known, Fair<J>>,
    ghost owns: { (worker_view worker).owns ≡ true },
    ghost fifo: { worker_flavor worker ≡ 0 },
}

/// The end of the thief, who also takes tasks from the front.
#[derive(Drop)]
pub struct ThiefEnd<J: Fitting> {
    pub(crate) stealer: Stealer<Task, Global, Known, Fair<J>>,
    pub(crate) pass: Pass<Task, Known>,
    ghost of_deque: { IsPassOf (stealer_deque stealer) pass },
    ghost steals: { (view pass).steals ≡ true },
    ghost only: { (view pass).owns ≡ false },
}
