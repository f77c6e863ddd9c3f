//! A round over shards: each performs its tasks on its lines, on a thread of its own or one after another.
ghost use Rattle.std.specs.Prelude.{◌≡◌, ◌≤◌, ◌<◌, ◌+◌, ◌-◌, ◌^◌, ◌∷◌, [], All, IfOk, OnOk, length};
ghost use Rattle.std.specs.Thread.{IsSync};
ghost use Rattle.activation.specs.Acting.{IsCounted};
ghost use Rattle.rounds_engine.specs.Sharing.{ActsAt, AreKept, CanShare, HasOwn, HaveShared, IsPlacedAt, lines_of};

use crate::ground::Ground;
use crate::shards::{Placed, Shard, deal, joined};
use activation::activate_coded;
use net_base::tasks::Task;
use ops_base::memory::OutOfMemory;
use ops_io::Gate;
use std::thread::{Threads, join_mut};
use step_core::laws::{round_laws, settle_laws};
use token_line::Line;

/// Performs the task on its line, which is one of `lines`; these are the lines from number `first` on. It costs what
/// `activation::activate_coded` costs. If memory runs out, nothing has changed.
fn do_task(
    ground: &Ground<'_>,
    first: usize,
    placed: &Placed,
    lines: &mut [Line],
    made: &mut Vec<Task>,
) -> Result<(), OutOfMemory>
    requires placed { IsPlacedAt ground.now.net.now.nodes ground.now.store.now ground.now.lines placed.now }
    requires from { first ≤ placed.now.line }
    requires below { placed.now.line < first + length lines.old }
    requires counted { All (IsCounted ground.now.net.now.nodes ground.now.store.now) lines.old }
    ensures acts { OnOk result (ActsAt ground.now.net.now.nodes ground.now.store.now (placed.now.line - first) placed.now.task lines.old lines.new made.old.items made.new.items) }
    ensures kept { AreKept ground.now.net.now.nodes ground.now.store.now lines.old lines.new }
{
    let line = &mut lines[placed.line - first];
    activate_coded(
        ground.alloc,
        ground.net,
        ground.store,
        line,
        &placed.task,
        placed.code,
        made,
    )
}

/// Performs the tasks of one shard on its lines. Returns their children, dealt to all shards in the order in which
/// they were made. The gate is called just before each task with the number of the shard. The cost is that of the
/// activations, plus that of `deal` for the children. If memory runs out, some tasks have been performed.
fn do_share<G: Gate>(
    ground: &Ground<'_>,
    gate: &G,
    shard: &Shard,
    lines: &mut [Line],
) -> Result<Vec<Shard>, OutOfMemory>
    requires own { HasOwn ground.now.net.now.nodes ground.now.store.now ground.now.lines shard.now }
    requires count { shard.now.count ≡ length lines.old }
    requires counted { All (IsCounted ground.now.net.now.nodes ground.now.store.now) lines.old }
    ensures shared { IfOk result (λ v. HaveShared ground.now.net.now.nodes ground.now.store.now ground.now.lines ground.now.shards (shard.now ∷ []) lines.old lines.new v.items) }
    ensures kept { AreKept ground.now.net.now.nodes ground.now.store.now lines.old lines.new }
{
    settle_laws();
    round_laws();
    let net = ground.net;
    let _nodes = net.nodes();
    let mut made = Vec::new(ground.alloc);
    for placed in shard.tasks.as_slice() {
        gate.enter(shard.number, placed.line);
        do_task(ground, shard.first, placed, lines, &mut made)?;
    }
    deal(ground, made)
}

/// How many lines these shards have.
fn count_lines(shards: &[Shard]) -> usize
    requires { lines_of shards.now < 2 ^ 64 }
    ensures { result ≡ lines_of shards.now }
{
    shards.iter().map(|shard| shard.count).sum()
}

/// As `do_shards`, one shard after another.
fn do_in_turn<G: Gate>(
    ground: &Ground<'_>,
    gate: &G,
    shards: &[Shard],
    lines: &mut [Line],
) -> Result<Vec<Shard>, OutOfMemory>
    requires can { CanShare ground.now.net.now.nodes ground.now.store.now ground.now.lines shards.now lines.old }
    ensures shared { IfOk result (λ v. HaveShared ground.now.net.now.nodes ground.now.store.now ground.now.lines ground.now.shards shards.now lines.old lines.new v.items) }
    ensures kept { AreKept ground.now.net.now.nodes ground.now.store.now lines.old lines.new }
{
    if shards.len() == 1 {
        return do_share(ground, gate, &shards[0], lines);
    }
    round_laws();
    let (low, high) = shards.split_at(shards.len() / 2);
    let (front, back) = lines.split_at_mut(count_lines(low));
    let lower = do_in_turn(ground, gate, low, front);
    let upper = do_in_turn(ground, gate, high, back);
    joined(ground.alloc, lower, upper)
}

/// Runs the lower and the upper half of the shards, each with its lines, on two threads in parallel if a thread can
/// be started.
#[cycle(shares)]
fn do_halves<R: Threads + Sync, G: Gate>(
    rt: &R,
    ground: &Ground<'_>,
    gate: &G,
    low: &[Shard],
    front: &mut [Line],
    high: &[Shard],
    back: &mut [Line],
) -> (
    Result<Vec<Shard>, OutOfMemory>,
    Result<Vec<Shard>, OutOfMemory>,
)
    requires front { CanShare ground.now.net.now.nodes ground.now.store.now ground.now.lines low.now front.old }
    requires back { CanShare ground.now.net.now.nodes ground.now.store.now ground.now.lines high.now back.old }
    ensures front { IfOk result.0 (λ v. HaveShared ground.now.net.now.nodes ground.now.store.now ground.now.lines ground.now.shards low.now front.old front.new v.items) }
    ensures back { IfOk result.1 (λ v. HaveShared ground.now.net.now.nodes ground.now.store.now ground.now.lines ground.now.shards high.now back.old back.new v.items) }
    ensures front_kept { AreKept ground.now.net.now.nodes ground.now.store.now front.old front.new }
    ensures back_kept { AreKept ground.now.net.now.nodes ground.now.store.now back.old back.new }
{
    let mut lower = || -> Result<Vec<Shard>, OutOfMemory>
        requires { IsSync R.row × IsSync G.row × CanShare ground.now.net.now.nodes ground.now.store.now ground.now.lines low.now front.now }
        ensures shared { IfOk result (λ v. HaveShared ground.entry.now.net.now.nodes ground.entry.now.store.now ground.entry.now.lines ground.entry.now.shards low.entry.now front.entry.now front.exit.now v.items) }
        ensures kept { AreKept ground.entry.now.net.now.nodes ground.entry.now.store.now front.entry.now front.exit.now }
    { do_apart(rt, ground, gate, low, front) };
    let mut upper = || -> Result<Vec<Shard>, OutOfMemory>
        requires { IsSync R.row × IsSync G.row × CanShare ground.now.net.now.nodes ground.now.store.now ground.now.lines high.now back.now }
        ensures shared { IfOk result (λ v. HaveShared ground.entry.now.net.now.nodes ground.entry.now.store.now ground.entry.now.lines ground.entry.now.shards high.entry.now back.entry.now back.exit.now v.items) }
        ensures kept { AreKept ground.entry.now.net.now.nodes ground.entry.now.store.now back.entry.now back.exit.now }
    { do_apart(rt, ground, gate, high, back) };
    join_mut(rt, &mut lower, &mut upper)
}

/// As `do_shards`, with each shard on a thread of its own if a thread can be started.
#[cycle(shares)]
fn do_apart<R: Threads + Sync, G: Gate>(
    rt: &R,
    ground: &Ground<'_>,
    gate: &G,
    shards: &[Shard],
    lines: &mut [Line],
) -> Result<Vec<Shard>, OutOfMemory>
    requires can { CanShare ground.now.net.now.nodes ground.now.store.now ground.now.lines shards.now lines.old }
    ensures shared { IfOk result (λ v. HaveShared ground.now.net.now.nodes ground.now.store.now ground.now.lines ground.now.shards shards.now lines.old lines.new v.items) }
    ensures kept { AreKept ground.now.net.now.nodes ground.now.store.now lines.old lines.new }
{
    if shards.len() == 1 {
        return do_share(ground, gate, &shards[0], lines);
    }
    round_laws();
    let (low, high) = shards.split_at(shards.len() / 2);
    let (front, back) = lines.split_at_mut(count_lines(low));
    let (lower, upper) = do_halves(rt, ground, gate, low, front, high, back);
    joined(ground.alloc, lower, upper)
}

/// Does a round of the shards on these lines, which belong to them. If `apart` is set, the shards are split into
/// halves recursively, and two halves run on two threads in parallel if a thread can be started. Otherwise the shards
/// run one after another. The gate is called before each task with the number of its shard as the worker. Returns the
/// shards of the next round: the children, dealt by the shards that made them, in the order of these. The tasks of
/// shards that are joined here are moved. If memory runs out, some tasks have been performed.
pub(crate) fn do_shards<R: Threads + Sync, G: Gate>(
    rt: &R,
    ground: &Ground<'_>,
    gate: &G,
    apart: bool,
    shards: &[Shard],
    lines: &mut [Line],
) -> Result<Vec<Shard>, OutOfMemory>
    requires can { CanShare ground.now.net.now.nodes ground.now.store.now ground.now.lines shards.now lines.old }
    ensures shared { IfOk result (λ v. HaveShared ground.now.net.now.nodes ground.now.store.now ground.now.lines ground.now.shards shards.now lines.old lines.new v.items) }
    ensures kept { AreKept ground.now.net.now.nodes ground.now.store.now lines.old lines.new }
{
    if apart {
        do_apart(rt, ground, gate, shards, lines)
    } else {
        do_in_turn(ground, gate, shards, lines)
    }
}
