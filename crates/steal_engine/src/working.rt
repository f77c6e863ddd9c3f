//! A worker: it takes tasks from its list, its own deque and its victim's deque, and performs them on lines in cells.
ghost use Rattle.std.specs.Prelude.{◌≡◌, ℕ, ◌+◌, ⊤, List, [], ◌∷◌, ◌++◌, All, IfSome, IsTrue, MatchOption, option_to_list, sum_by};
ghost use Rattle.net_base.specs.declared.tasks.Task.{Task};
ghost use Rattle.task_deque.specs.Ends.{own_of, popped, pushed, thief_of, thief_stolen};
ghost use Rattle.turn_table.specs.Turns.{number};
ghost use Rattle.steal_engine.specs.Rows.{IsReady, rounds_in};
ghost use Rattle.steal_engine.specs.Seats.{CanBegin, HasEnded};
ghost use Rattle.steal_engine.specs.Sums.{round};

use crate::acts::activate_in;
use crate::phase::Phase;
use crate::rows::Row;
use crate::seats::{Seat, Worked};
use crossbeam_utils::Backoff;
use net_base::tasks::Task;
use ops_io::Gate;
use std::sync::Wait;
use std::sync::atomic::{AtomicUsize, Ordering};
use task_deque::{Fitting, OwnEnd, ThiefEnd};
use token_line::place_of;
use turn_table::Pass;

/// A worker pushes tasks only while its deque has fewer than this.
const FEW: usize = 8;

/// A worker that has not had a task yet looks this many times while no worker has one: the others may be about to
/// begin. Starting a thread takes longer than looking.
const FIRST_LOOKS: usize = 64;

/// Pushes tasks from the end of the list while there are few in the deque. One task stays in the list, and so does a
/// task that the deque refuses.
pub(crate) fn push_some<J: Fitting>(own: &mut OwnEnd<J>, list: &mut Vec<Task>)
    requires { All J.fits list.old.items }
    ensures fit { All J.fits list.new.items }
    ensures moved { (h : Task → ℕ) → sum_by h (pushed own.new) + sum_by h list.new.items ≡ sum_by h (pushed own.old) + sum_by h list.old.items }
    ensures popped { popped own.new ≡ popped own.old }
    ensures own { own_of own.new ≡ own_of own.old }
{
    let room = FEW.saturating_sub(own.len());
    for _ in 0..room {
        if list.len() < 2 {
            return;
        }
        let Some(task) = list.pop() else {
            return;
        };
        if let Err(task) = own.push(task) {
            list.push_reserved(task);
            return;
        }
    }
}

/// The next task: from the list, from the worker's own deque, or from the victim's.
pub(crate) fn next_task<J: Fitting>(
    own: &mut OwnEnd<J>,
    thief: &mut ThiefEnd<J>,
    list: &mut Vec<Task>,
) -> Option<Task>
    requires { All J.fits list.old.items }
    ensures fits { IfSome result J.fits }
    ensures fit { All J.fits list.new.items }
    ensures took { (h : Task → ℕ) → (sum_by h (popped own.new) + sum_by h (thief_stolen thief.new)) + sum_by h list.old.items ≡ ((sum_by h (popped own.old) + sum_by h (thief_stolen thief.old)) + sum_by h list.new.items) + sum_by h (option_to_list result) }
    ensures none { MatchOption result (list.new.items ≡ []) (λ _. ⊤) }
    ensures pushed { pushed own.new ≡ pushed own.old }
    ensures own { own_of own.new ≡ own_of own.old }
    ensures thief { thief_of thief.new ≡ thief_of thief.old }
{
    if let Some(task) = list.pop() {
        return Some(task);
    }
    if let Some(task) = own.pop() {
        return Some(task);
    }
    thief.steal()
}

/// Performs a task on its line, after calling the gate, and appends its children to the list. Returns false if there
/// was not enough memory. It waits for a turn of the line.
pub(crate) fn do_task<R: Wait, G: Gate, J: Fitting>(
    rt: &R,
    phase: &Phase<'_>,
    gate: &G,
    pass: Pass<Row>,
    task: Task,
    list: &mut Vec<Task>,
) -> (Pass<Row>, bool)
    requires ready { IsReady J.fits phase.now.cells.now phase.now.net.now phase.now.store.now phase.now.lines pass }
    requires fits { J.fits task }
    requires fit { All J.fits list.old.items }
    ensures ready { IsReady J.fits phase.now.cells.now phase.now.net.now phase.now.store.now phase.now.lines result.0 }
    ensures number { number result.0 ≡ number pass }
    ensures did { IsTrue result.1 → (children : List Task) × (rounds_in result.0 ≡ rounds_in pass ++ round task children ∷ []) × (list.new.items ≡ list.old.items ++ children) }
    ensures fit { IsTrue result.1 → All J.fits list.new.items }
{
    let worker = pass.number().saturating_sub(1);
    let place = place_of(phase.net, phase.store, &task, phase.lines);
    let mut turn = phase.cells.claim(rt, pass, place.line);
    gate.enter(worker, place.line);
    match activate_in(
        turn.value(),
        phase.alloc,
        phase.net,
        phase.store,
        &task,
        place.code,
        list,
    ) {
        Ok(()) => (phase.cells.give(turn), true),
        Err(_) => (phase.cells.give_back(turn), false),
    }
}

/// Performs tasks until no worker has one, or memory runs out. A worker that finds none backs off and looks again
/// while another worker is busy, since that one may push some. No clause says which workers are busy: a worker that
/// stops early leaves tasks.
pub(crate) fn work<R: Wait, G: Gate, J: Fitting>(
    rt: &R,
    phase: &Phase<'_>,
    gate: &G,
    seat: Seat<J, Pass<Row>>,
) -> Worked<J, Pass<Row>>
    requires { CanBegin (IsReady J.fits phase.now.cells.now phase.now.net.now phase.now.store.now phase.now.lines) number rounds_in seat }
    ensures { HasEnded (IsReady J.fits phase.now.cells.now phase.now.net.now phase.now.store.now phase.now.lines) number rounds_in seat result }
{
    let Seat {
        mut pass,
        mut own,
        mut thief,
    } = seat;
    let mut list = Vec::new(phase.alloc);
    let mut presence = Presence::new();
    for _ in rt.forever() {
        match next_task(&mut own, &mut thief, &mut list) {
            None => {
                presence.rest(phase.busy);
                if presence.is_over(phase.busy) {
                    return Worked {
                        pass,
                        own,
                        thief,
                        whole: true,
                    };
                }
                presence.backoff.snooze();
            }
            Some(task) => {
                presence.start(phase.busy);
                let (next, did) = do_task::<R, G, J>(rt, phase, gate, pass, task, &mut list);
                pass = next;
                if !did {
                    presence.rest(phase.busy);
                    return Worked {
                        pass,
                        own,
                        thief,
                        whole: false,
                    };
                }
                push_some(&mut own, &mut list);
            }
        }
    }
    unreachable!()
}

/// Whether a worker is counted as busy, how many more times it looks when no worker is busy, and how long it has
/// looked in vain. A worker is counted only once it has a task: if a thread can't be started, its worker begins after
/// another one on the same thread has finished.
#[derive(Drop)]
struct Presence {
    backoff: Backoff,
    looks: usize,
    counted: bool,
}

impl Presence {
    fn new() -> Presence {
        Presence {
            backoff: Backoff::new(),
            looks: FIRST_LOOKS,
            counted: false,
        }
    }

    /// The worker has a task.
    fn start(&mut self, busy: &AtomicUsize) {
        if !self.counted {
            let _others = busy.fetch_add(1, Ordering::SeqCst);
            self.counted = true;
            self.looks = 0;
        }
        self.backoff.reset();
    }

    /// The worker has no task.
    fn rest(&mut self, busy: &AtomicUsize) {
        if self.counted {
            let _others = busy.fetch_sub(1, Ordering::SeqCst);
            self.counted = false;
        }
    }

    /// Whether the worker, which has no task, stops: no worker has a task, and it has looked enough times.
    fn is_over(&mut self, busy: &AtomicUsize) -> bool {
        if busy.load(Ordering::SeqCst) > 0 {
            return false;
        }
        if self.looks == 0 {
            return true;
        }
        self.looks -= 1;
        false
    }
}
