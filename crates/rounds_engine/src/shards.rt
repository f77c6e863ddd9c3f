//! Tasks with their lines, and the shards to which lines and tasks are dealt.
ghost use Rattle.std.specs.Prelude.{◌≡◌, ◌≤◌, ◌<◌, ◌++◌, ◌∷◌, [], true, All, IfOk, OnOk, length};
ghost use Rattle.token_line.specs.Held.{TaskFits};
ghost use Rattle.step_core.specs.Phases.{AreSame};
ghost use Rattle.rounds_engine.specs.Sharing.{AreAllShards, AreDealt, AreJoined, FollowOn, IsFirstLine, lines_of, shard_of, tasks_of_shards};

use crate::ground::Ground;
use net_base::tasks::Task;
use ops_base::memory::OutOfMemory;
use std::alloc::Global;
use token_line::{LineAndCode, place_of};

/// The number of tasks that the shards other than the largest must have, on average, to be worth a thread each.
const LEAST_TASKS_FOR_A_WORKER: usize = 64;

/// A task with the number of its line, and its code.
#[derive(Drop)]
pub(crate) struct Placed {
    pub(crate) line: usize,
    pub(crate) code: u64,
    pub(crate) task: Task,
}

/// A shard with this number: the tasks of `count` lines, from line `first` on.
#[derive(Drop)]
pub(crate) struct Shard {
    pub(crate) number: usize,
    pub(crate) first: usize,
    pub(crate) count: usize,
    pub(crate) tasks: Vec<Placed>,
}

impl Shard {
    /// Appends the task. If memory runs out, it is not added.
    fn take(&mut self, placed: Placed) -> Result<(), OutOfMemory>
        ensures first { self.new.first ≡ self.old.first }
        ensures count { self.new.count ≡ self.old.count }
        ensures tasks { OnOk result (self.new.tasks.items ≡ self.old.tasks.items ++ placed ∷ []) }
    {
        self.tasks.push(placed)?;
        Ok(())
    }

    /// The shard with the tasks of another one appended to its own. It moves those of the other.
    fn with(self, other: Shard) -> Result<Shard, OutOfMemory>
        ensures first { IfOk result (λ s. s.first ≡ self.first) }
        ensures count { IfOk result (λ s. s.count ≡ self.count) }
        ensures tasks { IfOk result (λ s. s.tasks.items ≡ self.tasks.items ++ other.tasks.items) }
    {
        let mut shard = self;
        let mut more = other.tasks;
        shard.tasks.append(&mut more)?;
        Ok(shard)
    }
}

/// The shard of a line, if this many lines are dealt to this many shards.
pub(crate) fn shard_of(line: usize, shards: usize, lines: usize) -> usize
    requires some { 1 ≤ shards }
    requires within { line < lines }
    ensures shard { result ≡ shard_of shards lines line }
    ensures below { result < shards }
{
    (line as u128 * shards as u128 / lines as u128) as usize
}

/// The first line of a shard. For the number one past the last shard it is the number of all lines.
fn first_line(shard: usize, shards: usize, lines: usize) -> usize
    requires some { 1 ≤ shards }
    requires room { shards ≤ lines }
    requires within { shard ≤ shards }
    ensures { IsFirstLine shards lines shard result }
{
    let before = shard as u128 * lines as u128;
    ((before + (shards as u128 - 1)) / shards as u128) as usize
}

/// This many shards without tasks, to which all lines belong.
fn bare_shards(alloc: Global, shards: usize, lines: usize) -> Result<Vec<Shard>, OutOfMemory>
    requires some { 1 ≤ shards }
    requires room { shards ≤ lines }
    ensures follow { IfOk result (λ v. FollowOn 0 v.items) }
    ensures lines { IfOk result (λ v. lines_of v.items ≡ lines) }
    ensures count { IfOk result (λ v. length v.items ≡ shards) }
    ensures dealt { IfOk result (λ v. AreDealt shards lines v.items) }
    ensures bare { IfOk result (λ v. All (λ x. x.tasks.items ≡ []) v.items) }
{
    let mut bare = Vec::new(alloc);
    let mut first = 0;
    for shard in 0..shards {
        let next = first_line(shard + 1, shards, lines);
        bare.push(Shard {
            number: shard,
            first,
            count: next - first,
            tasks: Vec::new(alloc),
        })?;
        first = next;
    }
    Ok(bare)
}

/// All shards in order, each with the tasks for its lines. Line i is dealt to shard i · shards / lines, rounded down,
/// so the lines of a shard are consecutive, and each shard has at least one. It makes each shard, and costs what
/// `token_line::place_of` costs for each task, which it moves once.
pub(crate) fn deal(ground: &Ground<'_>, tasks: Vec<Task>) -> Result<Vec<Shard>, OutOfMemory>
    requires fit { All (TaskFits ground.now.net.now.nodes ground.now.store.now) tasks.items }
    ensures tasks { IfOk result (λ v. AreSame tasks.items (tasks_of_shards v.items)) }
    ensures dealt { IfOk result (λ v. AreAllShards ground.now.net.now.nodes ground.now.store.now ground.now.lines ground.now.shards v.items) }
{
    let mut dealt = bare_shards(ground.alloc, ground.shards, ground.lines)?;
    for task in tasks {
        let LineAndCode { line, code } = place_of(ground.net, ground.store, &task, ground.lines);
        let shard = shard_of(line, ground.shards, ground.lines);
        dealt[shard].take(Placed { line, code, task })?;
    }
    Ok(dealt)
}

/// The shards of the first result, each with the tasks of the same shard of the second result appended to its own. It
/// moves the tasks of the second result.
pub(crate) fn joined(
    alloc: Global,
    low: Result<Vec<Shard>, OutOfMemory>,
    high: Result<Vec<Shard>, OutOfMemory>,
) -> Result<Vec<Shard>, OutOfMemory>
    ensures { IfOk result (λ v. AreJoined low high v.items) }
{
    let front = low?;
    let back = high?;
    let mut all = Vec::new(alloc);
    for (shard, other) in front.into_iter().zip(back) {
        all.push(shard.with(other)?)?;
    }
    Ok(all)
}

/// Whether no shard has a task. It looks at the shards up to the first that has one.
pub(crate) fn are_idle(shards: &[Shard]) -> bool
    ensures { result ≡ true → tasks_of_shards shards.now ≡ [] }
{
    for shard in shards {
        if !shard.tasks.is_empty() {
            return false;
        }
    }
    true
}

/// Whether a round of these shards is worth using threads. At least two shards must have tasks. The first such round
/// is worth it, so that threads are exercised early (`met` is true if a round was shared before). Any other round is
/// worth it if the shards with tasks other than the largest have at least 64 tasks each on average. It looks at each
/// shard.
pub(crate) fn pays(shards: &[Shard], met: bool) -> bool {
    let mut busy: usize = 0;
    let mut all: usize = 0;
    let mut most: usize = 0;
    for shard in shards {
        let tasks = shard.tasks.len();
        if tasks > 0 {
            busy = busy.saturating_add(1);
        }
        all = all.saturating_add(tasks);
        most = most.max(tasks);
    }
    busy > 1
        && (!met || all.saturating_sub(most) >= LEAST_TASKS_FOR_A_WORKER.saturating_mul(busy - 1))
}
