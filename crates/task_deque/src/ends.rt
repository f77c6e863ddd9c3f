//! The operations of the two ends of a deque.
ghost use Rattle.std.specs.Prelude.{◌≡◌, ◌++◌, [], ◌∷◌, IfOk, MatchResult, MatchOption, IfNone, IfSome, OnErr};
ghost use Rattle.task_deque.specs.Rule.{AreSame};
ghost use Rattle.task_deque.specs.Ends.{IsWhole, IsLent, of, own_of, pushed, popped, stolen, thief_of, thief_stolen};

use crate::handles::{OwnEnd, ThiefEnd};
use crate::plays::{Fair, Fitting, Known, Look, Part, Pop, Push, Take};
use crossbeam_deque::{Steal, Worker};
use net_base::tasks::Task;
use ops_base::memory::OutOfMemory;
use std::alloc::Global;

impl<J: Fitting> OwnEnd<J> {
    /// A deque without tasks, with room for this many at first. No thief has an end of it. It takes memory for the
    /// room, plus a small allocation.
    pub fn new(alloc: Global, room: usize) -> Result<OwnEnd<J>, OutOfMemory>
        ensures whole { IfOk result (λ e. IsWhole e) }
        ensures none { IfOk result (λ e. (pushed e ≡ []) × (popped e ≡ []) × (stolen e ≡ [])) }
    {
        match Worker::<Task, Global, Known, Fair<J>>::fifo_as(alloc, room) {
            Ok(worker) => Ok(OwnEnd { worker }),
            Err(_) => Err(OutOfMemory),
        }
    }

    /// Takes the thief's end back. It waits for nothing, and takes no memory.
    pub fn take_back(&mut self, thief: ThiefEnd<J>)
        requires deque { thief_of thief ≡ of self.old }
        ensures whole { IsWhole self.new }
        ensures pushed { pushed self.new ≡ pushed self.old }
        ensures popped { popped self.new ≡ popped self.old }
        ensures stolen { stolen self.new ≡ thief_stolen thief }
        ensures deque { of self.new ≡ of self.old }
    {
        let ThiefEnd { stealer: _, pass } = thief;
        self.worker.absorb::<Part>(pass);
    }

    /// Hands out the thief's end. It makes a small allocation. If memory runs out, the owner goes on alone.
    pub fn lend(&mut self) -> Result<ThiefEnd<J>, OutOfMemory>
        requires whole { IsWhole self.old }
        ensures pushed { pushed self.new ≡ pushed self.old }
        ensures popped { popped self.new ≡ popped self.old }
        ensures deque { of self.new ≡ of self.old }
        ensures lent { IfOk result (λ e. IsLent self.new × (thief_of e ≡ of self.old)) }
        ensures stolen { IfOk result (λ e. thief_stolen e ≡ stolen self.old) }
        ensures err { OnErr result ((own_of self.new ≡ own_of self.old) × (stolen self.new ≡ stolen self.old)) }
    {
        let Ok(stealer) = self.worker.stealer() else {
            return Err(OutOfMemory);
        };
        let pass = self.worker.another::<Part>();
        Ok(ThiefEnd { stealer, pass })
    }

    /// How many tasks there were at one moment during the call. It reads two numbers.
    pub fn len(&mut self) -> usize
        ensures pushed { pushed self.new ≡ pushed self.old }
        ensures popped { popped self.new ≡ popped self.old }
        ensures stolen { stolen self.new ≡ stolen self.old }
        ensures own { own_of self.new ≡ own_of self.old }
    {
        self.worker.len_as::<Look>()
    }

    /// Appends the task. It takes memory if the room is full: then it moves each task. If there is not enough memory
    /// it returns the task, and nothing has changed.
    pub fn push(&mut self, task: Task) -> Result<(), Task>
        requires { J.fits task }
        ensures pushed { MatchResult result (λ _. pushed self.new ≡ pushed self.old ++ task ∷ []) (λ x. (x ≡ task) × (pushed self.new ≡ pushed self.old)) }
        ensures popped { popped self.new ≡ popped self.old }
        ensures stolen { stolen self.new ≡ stolen self.old }
        ensures own { own_of self.new ≡ own_of self.old }
    {
        match self.worker.push_as::<Push<J>>(task) {
            Ok(()) => Ok(()),
            Err(refused) => Err(refused),
        }
    }

    /// Takes the first task; no other call has taken it. If there is none and no thief has an end, then the tasks
    /// pushed are exactly those taken, each the same number of times. It takes no memory.
    pub fn pop(&mut self) -> Option<Task>
        ensures popped { MatchOption result (popped self.new ≡ popped self.old) (λ x. popped self.new ≡ popped self.old ++ x ∷ []) }
        ensures pushed { pushed self.new ≡ pushed self.old }
        ensures stolen { stolen self.new ≡ stolen self.old }
        ensures own { own_of self.new ≡ own_of self.old }
        ensures fits { IfSome result J.fits }
        ensures all { IfNone result (IsWhole self.new → AreSame (pushed self.new) (popped self.new ++ stolen self.new)) }
    {
        match self.worker.pop_as::<Pop<J>>() {
            Some(first) => Some(first),
            None => None,
        }
    }
}

impl<J: Fitting> ThiefEnd<J> {
    /// Takes the first task; no other call has taken it. Also returns none if the owner was faster. It takes no
    /// memory except what the deque keeps for itself.
    pub fn steal(&mut self) -> Option<Task>
        ensures stolen { MatchOption result (thief_stolen self.new ≡ thief_stolen self.old) (λ x. thief_stolen self.new ≡ thief_stolen self.old ++ x ∷ []) }
        ensures fits { IfSome result J.fits }
        ensures deque { thief_of self.new ≡ thief_of self.old }
    {
        match self.stealer.steal_as::<Take<J>>(&mut self.pass) {
            Steal::Success(task) => Some(task),
            Steal::Empty => None,
            Steal::Retry => None,
        }
    }
}
