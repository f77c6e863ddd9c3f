//! What an end of a deque knows, and what it learns from each step. Only contracts and proofs need these types.
ghost use Rattle.std.specs.Prelude.{⊤};
ghost use Rattle.net_base.specs.declared.tasks.Task.{Task};
ghost use Rattle.task_deque.specs.Rule.{IsFair, known, owner_part, thief_part, both_parts, no_part, Pushed, Popped, Stolen, Sum};

use crossbeam_deque::protocol::{Join, Lesson, Outcome, Protocol, Split};
use net_base::tasks::Task;
use std::collections::LinkedList;
use std::marker::{Brand, PhantomData};

/// A property of every task in a deque. A caller picks it by `Brand`.
pub trait Fitting {
    ghost fits: { Task → Type 0 };
}

impl Fitting for Brand {
    ghost fits = { λ _. ⊤ };
}

/// What an end of a deque knows. No value of this type is ever made.
pub struct Known {
    /// This end pushes and pops.
    pub owns: bool,
    /// This end steals.
    pub steals: bool,
    pub pushed: LinkedList<Task>,
    pub popped: LinkedList<Task>,
    pub stolen: LinkedList<Task>,
}

/// The rule of a deque: the tasks pushed are, each the same number of times, those popped and stolen together with
/// those in the deque.
pub struct Fair<J> {
    marker: PhantomData<J>,
}

impl<J: Fitting> Protocol<Task, Known> for Fair<J> {
    ghost use Rattle.std.specs.Prelude.{true, []};

    ghost holds = { IsFair J.fits };

    ghost first = { known true true [] [] [] };

    ghost guest = { no_part };
}

pub(crate) struct Part;

impl Split<Known> for Part {
    ghost left = { owner_part };

    ghost right = { thief_part };
}

impl Join<Known> for Part {
    ghost both = { both_parts };

    ghost spent = { no_part };
}

pub(crate) struct Push<J> {
    marker: PhantomData<J>,
}

impl<J: Fitting> Outcome<Task, Known> for Push<J> {
    ghost then = { Pushed };
}

pub(crate) struct Pop<J> {
    marker: PhantomData<J>,
}

impl<J: Fitting> Outcome<Task, Known> for Pop<J> {
    ghost then = { Popped J.fits };

    ghost empty = { Sum };
}

pub(crate) struct Take<J> {
    marker: PhantomData<J>,
}

impl<J: Fitting> Outcome<Task, Known> for Take<J> {
    ghost then = { Stolen J.fits };
}

/// Looking up the number of tasks reveals nothing about the tasks in a deque.
pub(crate) struct Look;

impl Lesson<Task, Known> for Look {
    ghost fact = { λ _ _. ⊤ };
}
