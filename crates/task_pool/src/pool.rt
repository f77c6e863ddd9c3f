//! The pool: the tasks that are waiting, in order, and an entry for each task that was taken, finished or abandoned.
ghost use Rattle.std.specs.Prelude.{◌≡◌, ◌+◌, ◌<◌, ◌≤◌, ◌++◌, [], ◌∷◌, false, true, None, length, IfOk, OnErr, OnOk, vec_len, vec_capacity};
ghost use Rattle.std.specs.VecDeque.{deque_capacity, deque_len};
ghost use Rattle.task_pool.specs.declared.pool.PoolEntry.TheVariants.{Finish as FinishEntry, Stop as StopEntry};
ghost use Rattle.task_pool.specs.Pools.{HasPlayed, IsRun, TakeSays, TakesFrom, begun, holds};
ghost use Rattle.task_pool.specs.Facts.{played_prop};

use net_base::tasks::Task;
use ops_base::memory::OutOfMemory;
use std::alloc::Global;
use std::collections::VecDeque;
use std::mem::replace;
use std::snapshot::Snapshot;
use token_line::{GhostTask, GhostTasks};

/// The result of a take: the first task that is waiting, or why there is none.
#[derive(Drop)]
pub enum Taken {
    /// The first task that was waiting.
    Task(Task),
    /// No task is waiting, and this many are taken and not finished.
    Again { unfinished: usize },
    /// No task is waiting, and none is unfinished.
    Quiet,
    /// The worker that stopped first.
    Stopped { by: usize },
}

/// What a worker did in the pool. Only contracts can see the tasks in it.
#[derive(Drop)]
pub enum PoolEntry {
    Take { worker: usize, task: GhostTask },
    Finish { worker: usize, children: GhostTasks },
    Stop { worker: usize },
}

/// The tasks that are waiting, and the entries since the pool began.
#[derive(Drop)]
pub struct Pool {
    first: Snapshot<Vec<Task>>,
    workers: Snapshot<usize>,
    queue: VecDeque<Task>,
    entries: Vec<PoolEntry>,
    unfinished: usize,
    stopped: Option<usize>,
    ghost played: { HasPlayed first.value.items queue.items entries.items unfinished stopped } by { played_prop first.value.items queue.items entries.items unfinished stopped },
    // For each waiting task there is room for the entry of its take and of a stop; for each taken one, for that of a
    // stop.
    ghost room: { vec_len entries + deque_len queue + deque_len queue + unfinished ≤ vec_capacity entries },
}

/// Appends the tasks to those that are waiting, which have room for them.
fn deliver(queue: &mut VecDeque<Task>, tasks: Vec<Task>)
    requires { deque_len queue.old + vec_len tasks ≤ deque_capacity queue.old }
    ensures items { queue.new.items ≡ queue.old.items ++ tasks.items }
    ensures len { deque_len queue.new ≡ deque_len queue.old + vec_len tasks }
{
    let mut last = VecDeque::from_vec(tasks);
    let _moved = queue.append(&mut last);
}

impl Pool {
    /// A pool in which these tasks are waiting and this many workers may take them. It reserves room for the entries
    /// of each task's take and of as many stops, and copies nothing.
    pub fn new(alloc: Global, tasks: Vec<Task>, workers: usize) -> Result<Pool, OutOfMemory>
        ensures first { IfOk result (λ p. p.first.value.items ≡ tasks.items) }
        ensures workers { IfOk result (λ p. p.workers.value ≡ workers) }
        ensures queue { IfOk result (λ p. p.queue.items ≡ tasks.items) }
        ensures entries { IfOk result (λ p. p.entries.items ≡ []) }
    {
        let entries = Vec::with_capacity(alloc, tasks.len() + tasks.len())?;
        Ok(Pool {
            first: Snapshot::of(&tasks),
            workers: Snapshot::of(&workers),
            queue: VecDeque::from_vec(tasks),
            entries,
            unfinished: 0,
            stopped: None,
        })
    }

    /// What was done since `new`, in order. Takes no memory.
    pub fn entries(&self) -> &[PoolEntry]
        ensures entries { result.now ≡ self.now.entries.items }
        // A worker that held no task took the first one that was waiting, and one that held a task finished or
        // abandoned it.
        ensures run { IsRun (begun self.now.first.value.items) result.now }
    {
        let _played = self.unfinished;
        self.entries.as_slice()
    }

    /// Takes the first task that is waiting, or returns why there is none. The pool changes only if a task is taken.
    /// It takes no memory, and constant time however many tasks there are.
    pub fn take(&mut self, worker: usize) -> Taken
        requires worker { worker < self.old.workers.value }
        requires free { holds worker self.old.entries.items ≡ false }
        ensures says { TakeSays worker self.old.first.value.items self.old.entries.items self.new.entries.items result }
        ensures queue { TakesFrom self.old.queue.items self.new.queue.items result }
        ensures first { self.new.first ≡ self.old.first }
        ensures workers { self.new.workers ≡ self.old.workers }
    {
        if let Some(by) = self.stopped {
            return Taken::Stopped { by };
        }
        match self.queue.pop_front() {
            Some(task) => {
                self.entries.push_reserved(PoolEntry::Take {
                    worker,
                    task: GhostTask::of(&task),
                });
                self.unfinished += 1;
                Taken::Task(task)
            }
            None => {
                if self.unfinished > 0 {
                    Taken::Again {
                        unfinished: self.unfinished,
                    }
                } else {
                    Taken::Quiet
                }
            }
        }
    }

    /// Finishes the task that the worker holds: its children wait behind all others, and `children` is left empty. It
    /// moves each child once, and copies none. If memory runs out, nothing has changed.
    pub fn finish(
        &mut self,
        alloc: Global,
        worker: usize,
        children: &mut Vec<Task>,
    ) -> Result<(), OutOfMemory>
        requires holds { holds worker self.old.entries.items ≡ true }
        ensures entries { OnOk result (self.new.entries.items ≡ self.old.entries.items ++ FinishEntry worker children.old.items ∷ []) }
        ensures queue { OnOk result (self.new.queue.items ≡ self.old.queue.items ++ children.old.items) }
        ensures empty { OnOk result (children.new.items ≡ []) }
        ensures same_entries { OnErr result (self.new.entries.items ≡ self.old.entries.items) }
        ensures same_queue { OnErr result (self.new.queue.items ≡ self.old.queue.items) }
        ensures same_children { OnErr result (children.new.items ≡ children.old.items) }
        ensures first { self.new.first ≡ self.old.first }
        ensures workers { self.new.workers ≡ self.old.workers }
    {
        let added = children.len();
        self.queue.reserve(added)?;
        let waiting = self.queue.len() + added;
        // The first reservation is the smaller one: if it succeeds, the whole sum fits its type.
        self.entries.reserve(waiting + self.unfinished)?;
        self.entries.reserve(waiting + self.unfinished + waiting)?;
        self.entries.push_reserved(PoolEntry::Finish {
            worker,
            children: GhostTasks::since(children, 0),
        });
        self.unfinished -= 1;
        deliver(&mut self.queue, replace(children, Vec::new(alloc)));
        Ok(())
    }

    /// The worker abandons the task that it holds, and no task is taken from then on. Takes no memory.
    pub fn stop(&mut self, worker: usize)
        requires holds { holds worker self.old.entries.items ≡ true }
        ensures entries { self.new.entries.items ≡ self.old.entries.items ++ StopEntry worker ∷ [] }
        ensures queue { self.new.queue.items ≡ self.old.queue.items }
        ensures first { self.new.first ≡ self.old.first }
        ensures workers { self.new.workers ≡ self.old.workers }
    {
        self.entries.push_reserved(PoolEntry::Stop { worker });
        self.unfinished -= 1;
        if self.stopped.is_none() {
            self.stopped = Some(worker);
        }
    }
}
