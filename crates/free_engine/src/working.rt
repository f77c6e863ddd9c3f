//! The rounds of a worker.
ghost use Rattle.std.specs.Prelude.{◌≡◌, ℕ, ◌+◌, ◌<◌, [], true, false, IsTrue};
ghost use Rattle.turn_table.specs.Turns.{IsPassOf, knows, number};
ghost use Rattle.free_engine.specs.Counts.{HasWorked, SawQuiet};
ghost use Rattle.free_engine.specs.Turns.{has_taken};
ghost use Rattle.free_engine.specs.Ends.{HasEndedEarly, RoundDone};

use crate::phase::Phase;
use crate::slots::Slot;
use crate::turns::{RoundEnd, do_task, finish_task, stop, take_task};
use crossbeam_utils::Backoff;
use ops_io::Gate;
use std::sync::Wait;
use task_pool::Taken;
use turn_table::Pass;

/// One round: take a task, add the line's entry, finish the task. It claims three cells if there is a task, and one
/// if there is none.
fn do_round<R: Wait, G: Gate>(
    rt: &R,
    phase: &Phase<'_>,
    gate: &G,
    pass: Pass<Slot>,
    worker: usize,
) -> (Pass<Slot>, RoundEnd)
    requires pass { IsPassOf phase.now.cells.now pass }
    requires number { number pass ≡ worker + 1 }
    requires worker { worker < phase.now.workers }
    requires free { has_taken worker (knows pass).own ≡ false }
    ensures pass { IsPassOf phase.now.cells.now result.0 }
    ensures number { number result.0 ≡ worker + 1 }
    ensures own { RoundDone phase.now.lines worker phase.now.first.now.value.items (knows pass) (knows result.0) result.1 }
{
    let (pass, taken) = take_task(rt, phase, pass, worker);
    match taken {
        Taken::Again { unfinished: _ } => (pass, RoundEnd::Nothing),
        Taken::Quiet => (pass, RoundEnd::Quiet),
        Taken::Stopped { by: _ } => (pass, RoundEnd::Broken),
        Taken::Task(task) => {
            let mut out = Vec::new(phase.alloc);
            let (pass, entered) = do_task(rt, phase, gate, pass, worker, &task, &mut out);
            if !entered {
                return (stop(rt, phase, pass, worker), RoundEnd::Broken);
            }
            let (pass, finished) = finish_task(rt, phase, pass, worker, &mut out);
            if !finished {
                return (stop(rt, phase, pass, worker), RoundEnd::Broken);
            }
            (pass, RoundEnd::Done)
        }
    }
}

/// A worker's pass at the end, and whether all its rounds are whole and it saw the pool quiet.
#[derive(Drop)]
pub(crate) struct Ended {
    pub(crate) pass: Pass<Slot>,
    pub(crate) whole: bool,
}

/// Does rounds until the pool is quiet, or until memory runs out here or at another worker. If no task is waiting, it
/// backs off.
pub(crate) fn work<R: Wait, G: Gate>(
    rt: &R,
    phase: &Phase<'_>,
    gate: &G,
    pass: Pass<Slot>,
    worker: usize,
) -> Ended
    requires pass { IsPassOf phase.now.cells.now pass }
    requires number { number pass ≡ worker + 1 }
    requires worker { worker < phase.now.workers }
    requires fresh { (knows pass).own ≡ [] }
    ensures pass { IsPassOf phase.now.cells.now result.pass }
    ensures number { number result.pass ≡ worker + 1 }
    ensures worked { IsTrue result.whole → HasWorked phase.now.lines worker (knows result.pass).own }
    ensures saw { IsTrue result.whole → SawQuiet phase.now.first.now.value.items (knows result.pass).seen }
    ensures early { result.whole ≡ false → HasEndedEarly worker (knows result.pass) }
{
    let backoff = Backoff::new();
    let mut pass = pass;
    for _ in rt.forever() {
        let (next, how) = do_round(rt, phase, gate, pass, worker);
        pass = next;
        match how {
            RoundEnd::Done => backoff.reset(),
            RoundEnd::Nothing => backoff.snooze(),
            RoundEnd::Quiet => return Ended { pass, whole: true },
            RoundEnd::Broken => return Ended { pass, whole: false },
        }
    }
    unreachable!()
}
