//! A right side whose match goes on while it waits for input.
ghost use Rattle.std.specs.Prelude.{◌≡◌, ◌≤◌, ◌<◌, ◌^◌, [], List, All, length, true, false, IsTrue, IfOk};
ghost use Rattle.ops_base.specs.declared.rules.Rule.{Rule};
ghost use Rattle.ops_base.specs.WorkingMemory.{Lawful, done, last_after, tags_of};
ghost use Rattle.ops_io.specs.Coming.{inlet};
ghost use Rattle.ops_io.specs.Ports.{port};
ghost use Rattle.ops_meaning.specs.Acting.{acted};
ghost use Rattle.ops_meaning.specs.Effects.{PerformsOn, CountsReads};
ghost use Rattle.ops_meaning.specs.Kept.{AreFilledFrom, KeepsNames, WellKept};
ghost use Rattle.act_phase.specs.Asking.{right_side_asks};
ghost use Rattle.act_phase.specs.Deeds.{Does, scene};
ghost use Rattle.act_phase.specs.Excerpts.{IsExcerpt};
ghost use Rattle.act_phase.specs.Held.{HoldsProgram, HoldsElements, HoldsMade, HoldsRules};
ghost use Rattle.act_phase.specs.Outcomes.{acted_of, failure_of, is_read, is_unread, setting_of};
ghost use Rattle.work_store.specs.Settling.{IsSettled};
ghost use Rattle.cycle.specs.Settles.{Settles};
ghost use Rattle.feed_engine.specs.Feeding.{IsUpTo};

use crate::beside::Ground;
use crate::feed::{Feed, settle_rest};
use crate::piecewise::act_each;
use act_phase::{ActFault, Acted, Acting, asks_after_change, excerpt};
use cycle::{Actor, InTurn};
use ops_base::elements::Change;
use ops_base::memory::OutOfMemory;
use ops_base::programs::Program;
use ops_base::rules::Inst;
use ops_base::symbols::Names;
use ops_io::{Input, Out, Sink, Source};
use std::alloc::Global;
use std::thread::Threads;
use work_store::{Matcher, Settled, Store};

/// Executes the right side of an instantiation over `part`, which has its elements, and settles the matcher by its
/// changes: those before an action that waits for input beside that action, and the rest at the end.
fn act_and_settle<
    R: Threads,
    M: Matcher + Send,
    H: Fn(M, &[Change]) -> Result<Settled<M>, OutOfMemory> + Sync,
    I: Source,
    K: Sink,
>(
    ground: &Ground<'_, R, H>,
    part: &Store,
    matcher: M,
    inst: &Inst,
    names: &mut Names,
    input: &mut Input,
    source: &mut I,
    out: &mut Out,
    sink: &mut K,
) -> Result<(Acted, Feed<M>), ActFault>
    requires settles { Settles M.stored M.found M.stands_for (λ m cs. H.pre ground.now.settle.now m cs) (λ m cs r. H.post ground.now.settle.now m cs r) }
    requires excerpt { IsExcerpt (M.stored matcher).elements part.now.elements inst.now.tags }
    requires last { part.now.last ≤ (M.stored matcher).last }
    requires tags { (M.stored matcher).last < 2 ^ 63 }
    requires kept { WellKept (M.stored matcher).elements (M.stored matcher).last }
    requires above { All (λ t. 0 < t) (tags_of (M.stored matcher).elements) }
    requires whole { IsTrue out.old.whole }
    requires writes { K.faults sink.old < 2 ^ 63 }
    requires reads { I.faults source.old < 2 ^ 63 }
    ensures does { Does (λ r c. acted_of r.0 names.new c) failure_of is_read result
        (scene names.old input.old (I.left source.old) (I.faults source.old) (K.taken sink.old) (K.faults sink.old) out.old)
        (scene names.new input.new (I.left source.new) (I.faults source.new) (K.taken sink.new) (K.faults sink.new) out.new)
        (λ c. acted (setting_of ground.now.program.now ground.now.watch) out.old.column inst.now
        (record { wm = (M.stored matcher).elements; last = (M.stored matcher).last; names = names.old; coming = c })) }
    ensures written { is_unread result ≡ true → out.new.held ≡ [] }
    ensures settled { IfOk result (λ r. IsUpTo M.stored M.found M.stands_for matcher r.0.changes (length r.0.changes) r.1) }
{
    let next_tag = matcher.store().last() + 1;
    let mut acting = Acting::begin(
        ground.alloc,
        ground.program,
        ground.watch,
        part,
        inst,
        next_tag,
    )?;
    let (feed, settled) = act_each(
        ground,
        matcher,
        &mut acting,
        names,
        input,
        source,
        out,
        sink,
    )?;
    let acted = acting.finish();
    let feed = settle_rest(
        ground.alloc,
        ground.settle,
        feed,
        settled,
        acted.changes.as_slice(),
    )?;
    Ok((acted, feed))
}

/// The same as `act_overlapped`, for a right side with an `accept` after an action that may change working memory.
fn act_beside<
    R: Threads,
    M: Matcher + Send,
    H: Fn(M, &[Change]) -> Result<Settled<M>, OutOfMemory> + Sync,
    I: Source,
    K: Sink,
>(
    ground: &Ground<'_, R, H>,
    matcher: M,
    inst: &Inst,
    names: &mut Names,
    input: &mut Input,
    source: &mut I,
    out: &mut Out,
    sink: &mut K,
) -> Result<(Acted, Settled<M>), ActFault>
    requires settles { Settles M.stored M.found M.stands_for (λ m cs. H.pre ground.now.settle.now m cs) (λ m cs r. H.post ground.now.settle.now m cs r) }
    requires tags { (M.stored matcher).last < 2 ^ 63 }
    requires kept { WellKept (M.stored matcher).elements (M.stored matcher).last }
    requires above { All (λ t. 0 < t) (tags_of (M.stored matcher).elements) }
    requires whole { IsTrue out.old.whole }
    requires writes { K.faults sink.old < 2 ^ 63 }
    requires reads { I.faults source.old < 2 ^ 63 }
    ensures does { Does (λ r c. acted_of r.0 names.new c) failure_of is_read result
        (scene names.old input.old (I.left source.old) (I.faults source.old) (K.taken sink.old) (K.faults sink.old) out.old)
        (scene names.new input.new (I.left source.new) (I.faults source.new) (K.taken sink.new) (K.faults sink.new) out.new)
        (λ c. acted (setting_of ground.now.program.now ground.now.watch) out.old.column inst.now
        (record { wm = (M.stored matcher).elements; last = (M.stored matcher).last; names = names.old; coming = c })) }
    ensures written { is_unread result ≡ true → out.new.held ≡ [] }
    ensures elements { IfOk result (λ r. (M.stored r.1.matcher).elements ≡ done (M.stored matcher).elements r.0.changes) }
    ensures last { IfOk result (λ r. (M.stored r.1.matcher).last ≡ last_after (M.stored matcher).last r.0.changes) }
    ensures settled { IfOk result (λ r. IsSettled (M.found matcher) (M.found r.1.matcher) r.1.gone.items r.1.come.items) }
    ensures stands { IfOk result (λ r. (rules : List Rule) → M.stands_for matcher rules → M.stands_for r.1.matcher rules) }
{
    let part = excerpt(ground.alloc, matcher.store(), inst)?;
    let (acted, feed) = act_and_settle(
        ground, &part, matcher, inst, names, input, source, out, sink,
    )?;
    let settled = Settled {
        matcher: feed.matcher,
        come: feed.come,
        gone: feed.gone,
    };
    Ok((acted, settled))
}

/// Executes the right side of an instantiation and its phase, with the result of `InTurn`. If an action waits for input
/// after a change, the changes before it are settled on a new thread, if one can be started, while this thread executes
/// that action. For this, the elements of the instantiation are copied, and so are the changes that are settled beside
/// an action. If no action does, the cost is that of `InTurn` and one scan of the actions.
pub fn act_overlapped<
    R: Threads,
    M: Matcher + Send,
    H: Fn(M, &[Change]) -> Result<Settled<M>, OutOfMemory> + Sync,
    I: Source,
    K: Sink,
>(
    rt: &R,
    settle: &H,
    alloc: Global,
    program: &Program,
    names: &mut Names,
    matcher: M,
    inst: &Inst,
    watch: u8,
    input: &mut Input,
    source: &mut I,
    out: &mut Out,
    sink: &mut K,
) -> Result<(Acted, Settled<M>), ActFault>
    requires settles { Settles M.stored M.found M.stands_for (λ m cs. H.pre settle.now m cs) (λ m cs r. H.post settle.now m cs r) }
    requires whole { IsTrue out.old.whole }
    requires faults { K.faults sink.old < 2 ^ 63 }
    requires reads { I.faults source.old < 2 ^ 63 }
    requires tags { (M.stored matcher).last < 2 ^ 63 }
    requires kept { WellKept (M.stored matcher).elements (M.stored matcher).last }
    requires above { All (λ t. 0 < t) (tags_of (M.stored matcher).elements) }
    ensures acts { PerformsOn (λ r c. acted_of r.0 names.new c) failure_of result
        (inlet input.old (I.left source.old) (I.faults source.old)) (inlet input.new (I.left source.new) (I.faults source.new))
        (port (K.taken sink.old) (K.faults sink.old) out.old) (port (K.taken sink.new) (K.faults sink.new) out.new)
        (λ c. acted (setting_of program.now watch) out.old.column inst.now
        (record { wm = (M.stored matcher).elements; last = (M.stored matcher).last; names = names.old; coming = c })) }
    ensures reads { CountsReads (is_unread result) (I.faults source.old) (I.faults source.new) }
    ensures written { is_unread result ≡ true → out.new.held ≡ [] }
    ensures untouched { right_side_asks program.now.rules inst.now.rule ≡ false → (input.new ≡ input.old) × (source.new ≡ source.old) }
    ensures names { KeepsNames names.old names.new }
    ensures held { HoldsProgram names.old program.now → HoldsElements names.old (M.stored matcher).elements
        → HoldsProgram names.new program.now × HoldsElements names.new (M.stored matcher).elements × IfOk result (λ r. HoldsMade names.new r.0.changes × HoldsRules names.new r.0.built) }
    ensures built { IfOk result (λ r. AreFilledFrom program.now.templates r.0.built) }
    ensures lawful { IfOk result (λ r. Lawful (M.stored matcher).elements (M.stored matcher).last r.0.changes) }
    ensures elements { IfOk result (λ r. (M.stored r.1.matcher).elements ≡ done (M.stored matcher).elements r.0.changes) }
    ensures last { IfOk result (λ r. (M.stored r.1.matcher).last ≡ last_after (M.stored matcher).last r.0.changes) }
    ensures settled { IfOk result (λ r. IsSettled (M.found matcher) (M.found r.1.matcher) r.1.gone.items r.1.come.items) }
    ensures stands { IfOk result (λ r. (rules : List Rule) → M.stands_for matcher rules → M.stands_for r.1.matcher rules) }
{
    if !asks_after_change(program, inst.rule) {
        let in_turn = InTurn::new(settle);
        return in_turn.act(
            alloc, program, names, matcher, inst, watch, input, source, out, sink,
        );
    }
    let ground = Ground {
        rt,
        alloc,
        settle,
        program,
        watch,
    };
    act_beside(&ground, matcher, inst, names, input, source, out, sink)
}
