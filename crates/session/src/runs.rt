//! A run: one firing after another, until it ends.
ghost use Rattle.std.specs.Prelude.{◌≡◌, ℕ, ◌^◌, ◌<◌, ◌-◌, [], ◌⊎◌, true, IsTrue, IsOk, IfOk, OnOk, Some, None, option_map, false};
ghost use Rattle.ops_base.specs.Names.{Spellings};
ghost use Rattle.ops_base.specs.declared.rules.Inst.{Inst};
ghost use Rattle.ops_base.specs.WorkingMemory.{Lawful};
ghost use Rattle.ops_io.specs.Coming.{Coming, inlet};
ghost use Rattle.ops_io.specs.Ports.{port, FlushesAll, PutsBytes};
ghost use Rattle.ops_meaning.specs.Effects.{PerformsOn, CountsReads, failure_as, of_ending};
ghost use Rattle.ops_meaning.specs.Kept.{AreFilledFrom, KeepsNames};
ghost use Rattle.ops_meaning.specs.Layout.{line_at};
ghost use Rattle.ops_meaning.specs.Running.{ended_in, fired_on, firing, has_break, line_of_break, line_of_count, line_of_pause, next_to_fire, one_less, run_on};
ghost use Rattle.act_phase.specs.Asking.{program_asks};
ghost use Rattle.act_phase.specs.Outcomes.{failure_of, setting_of};
ghost use Rattle.cycle.specs.Settles.{Settles};
ghost use Rattle.cycle.specs.Standing.{after_firing, standing};
ghost use Rattle.cycle.specs.States.{alone, state_course};
ghost use Rattle.live_rules.specs.Moves.{IsWith};
ghost use Rattle.session.specs.Courses.{IsOf, ends_unread};
ghost use Rattle.session.specs.Pauses.{meant_last, pause_line};
ghost use Rattle.session.specs.Trailing.{IsNamedFrom, IsTrailed, ready_with};
ghost use Rattle.session.specs.Turning.{turn_fired};

use crate::bounds::UNREACHED;
use crate::built::follow_built;
use crate::context::{RunContext, SessionContext};
use crate::session::Session;
use crate::undoable::Undoable;
use act_phase::ActFault;
use cycle::{Actor, Fired, Maker};
use live_rules::Live;
use ops_base::elements::Change;
use ops_base::endings::Ending;
use ops_base::list::Listed;
use ops_base::memory::OutOfMemory;
use ops_base::programs::Program;
use ops_base::rules::Rule;
use ops_base::symbols::Names;
use ops_base::values::Sym;
use ops_io::{Input, Out, Sink, Source, WriteFailed};
use ops_print::{put_line, put_name_line, rule_name};
use work_store::{Matcher, Settled};

/// How a fault of a right side ends the session.
fn ending_of_fault(firing: u64, rule: usize, name: Sym, fault: ActFault) -> Ending
    ensures { of_ending result ≡ failure_as (ended_in firing rule name) (failure_of fault) }
{
    match fault {
        ActFault::Bad { action, kind } => Ending::Act {
            firing,
            rule,
            name,
            action,
            kind,
        },
        ActFault::Read => Ending::ReadFault,
        ActFault::Write => Ending::WriteFault,
        ActFault::OutOfMemory => Ending::OutOfMemory,
    }
}

/// The firing of the dominant instantiation, which is of this production.
fn fire<
    M: Matcher,
    H: Fn(M, &[Change]) -> Result<Settled<M>, OutOfMemory>,
    A: Actor<M, I, K>,
    I: Source,
    K: Sink,
>(
    context: &RunContext<'_, H, A>,
    names: &mut Names,
    session: Session<M>,
    rule: usize,
    input: &mut Input,
    source: &mut I,
    out: &mut Out,
    sink: &mut K,
) -> Result<(Session<M>, Fired), Ending>
    requires settles { Settles M.stored M.found M.stands_for (λ m cs. H.pre context.now.settle.now m cs) (λ m cs r. H.post context.now.settle.now m cs r) }
    requires able { A.able context.now.actor.now }
    requires whole { IsTrue out.old.whole }
    requires faults { K.faults sink.old < 2 ^ 63 }
    requires reads { I.faults source.old < 2 ^ 63 }
    requires of { IsOf M.stands_for context.now.program.now.rules session.state }
    requires next { (i : Inst) × (next_to_fire context.now.program.now.rules (alone M.stored session.state) ≡ Some i) × (i.rule ≡ rule) }
    ensures performs { (i : Inst) → next_to_fire context.now.program.now.rules (alone M.stored session.state) ≡ Some i
        → PerformsOn (λ r c. record { course = state_course M.stored r.0.state names.new c; halted = r.1.halted; built = r.1.built }) of_ending result
        (inlet input.old (I.left source.old) (I.faults source.old))
        (inlet input.new (I.left source.new) (I.faults source.new))
        (port (K.taken sink.old) (K.faults sink.old) out.old)
        (port (K.taken sink.new) (K.faults sink.new) out.new)
        (λ c. firing (setting_of context.now.program.now session.watch) out.old.column i (state_course M.stored session.state names.old c)) }
    ensures reads { CountsReads (ends_unread result) (I.faults source.old) (I.faults source.new) }
    ensures written { ends_unread result ≡ true → out.new.held ≡ [] }
    ensures untouched { program_asks context.now.program.now.rules ≡ false → (input.new ≡ input.old) × (source.new ≡ source.old) }
    ensures names { KeepsNames names.old names.new }
    ensures of { IfOk result (λ r. IsOf M.stands_for context.now.program.now.rules r.0.state) }
    ensures kept { IfOk result (λ r. r.0 ≡ record session { state = r.0.state }) }
    ensures filled { IfOk result (λ r. AreFilledFrom context.now.program.now.templates r.1.built) }
    ensures lawful { IfOk result (λ r. Lawful (M.stored session.state.matcher).elements (M.stored session.state.matcher).last r.1.changes) }
    ensures leaves { IfOk result (λ r. standing M.stored r.0.state ≡ after_firing r.1 (standing M.stored session.state)) }
{
    let firings = session.state.firings();
    if firings >= UNREACHED || session.state.last_tag() >= UNREACHED {
        return Err(Ending::OutOfMemory);
    }
    match session.state.fire(
        context.alloc,
        context.actor,
        context.program,
        names,
        session.watch,
        input,
        source,
        out,
        sink,
    ) {
        Ok((state, fired)) => Ok((Session { state, ..session }, fired)),
        Err(fault) => {
            let name = rule_name(context.program.rules.as_slice(), rule);
            Err(ending_of_fault(firings + 1, rule, name, fault))
        }
    }
}

/// The same in a session that may keep its firings. The state before the firing joins the trail, if there is one.
/// Returns the session, whether `halt` was done, and the productions that the firing built.
fn fire_kept<
    M: Matcher,
    H: Fn(M, &[Change]) -> Result<Settled<M>, OutOfMemory>,
    A: Actor<M, I, K>,
    I: Source,
    K: Sink,
>(
    context: &RunContext<'_, H, A>,
    names: &mut Names,
    undoable: Undoable<M>,
    rule: usize,
    input: &mut Input,
    source: &mut I,
    out: &mut Out,
    sink: &mut K,
) -> Result<(Undoable<M>, bool, Listed<Rule>), Ending>
    requires settles { Settles M.stored M.found M.stands_for (λ m cs. H.pre context.now.settle.now m cs) (λ m cs r. H.post context.now.settle.now m cs r) }
    requires able { A.able context.now.actor.now }
    requires whole { IsTrue out.old.whole }
    requires faults { K.faults sink.old < 2 ^ 63 }
    requires reads { I.faults source.old < 2 ^ 63 }
    requires of { IsOf M.stands_for context.now.program.now.rules undoable.session.state }
    requires next { (i : Inst) × (next_to_fire context.now.program.now.rules (alone M.stored undoable.session.state) ≡ Some i) × (i.rule ≡ rule) }
    requires trail { IsTrailed M.stored context.now.program.now.rules undoable }
    requires named { IsNamedFrom 1 names.old undoable.trail }
    ensures performs { (i : Inst) → next_to_fire context.now.program.now.rules (alone M.stored undoable.session.state) ≡ Some i
        → PerformsOn (λ r c. record { course = state_course M.stored r.0.session.state names.new c; halted = r.1; built = r.2 }) of_ending result
        (inlet input.old (I.left source.old) (I.faults source.old))
        (inlet input.new (I.left source.new) (I.faults source.new))
        (port (K.taken sink.old) (K.faults sink.old) out.old)
        (port (K.taken sink.new) (K.faults sink.new) out.new)
        (λ c. firing (setting_of context.now.program.now undoable.session.watch) out.old.column i (state_course M.stored undoable.session.state names.old c)) }
    ensures reads { CountsReads (ends_unread result) (I.faults source.old) (I.faults source.new) }
    ensures written { ends_unread result ≡ true → out.new.held ≡ [] }
    ensures untouched { program_asks context.now.program.now.rules ≡ false → (input.new ≡ input.old) × (source.new ≡ source.old) }
    ensures names { KeepsNames names.old names.new }
    ensures of { IfOk result (λ r. IsOf M.stands_for context.now.program.now.rules r.0.session.state) }
    ensures filled { IfOk result (λ r. AreFilledFrom context.now.program.now.templates r.2) }
    ensures kept { IfOk result (λ r. r.0.session ≡ record undoable.session { state = r.0.session.state }) }

    // The trail has what was before the firing.
    ensures fired { IfOk result (λ r. (c d : Coming) → ready_with M.stored context.now.program.now.rules r.0 names.new c
        ≡ fired_on (state_course M.stored r.0.session.state names.new c) (ready_with M.stored context.now.program.now.rules undoable names.old d)) }
    ensures trail { IfOk result (λ r. IsTrailed M.stored context.now.program.now.rules r.0) }
    ensures named { IfOk result (λ r. (least : ℕ) → IsNamedFrom least names.old undoable.trail → IsNamedFrom least names.new r.0.trail) }
{
    let Undoable { session, trail } = undoable;
    let Some(trail) = trail else {
        let (alone, fired) = fire(context, names, session, rule, input, source, out, sink)?;
        let halted = fired.halted;
        return Ok((
            Undoable {
                session: alone,
                trail: None,
            },
            halted,
            fired.built,
        ));
    };
    let mut trail = trail;
    let point = names.point();
    // the index is looked at for what the state keeps true
    let _index = session.state.index();
    trail.begin(&session.state)?;
    let (after, fired) = fire(context, names, session, rule, input, source, out, sink)?;
    let Fired {
        inst,
        halted,
        changes,
        gone,
        built,
    } = fired;
    let fired = Fired {
        inst,
        halted,
        changes,
        gone,
        built: Listed::new(context.alloc),
    };
    trail.push(point, fired)?;
    Ok((
        Undoable {
            session: after,
            trail: Some(trail),
        },
        halted,
        built,
    ))
}

/// The last firing of a run: its production, none where the firing built another one of its name, and whether `halt` was
/// done in it.
#[derive(Clone, Copy)]
struct LastFiring {
    rule: Option<usize>,
    halted: bool,
}

/// Why a run ends whatever is next.
#[derive(Clone, Copy)]
enum Pause {
    /// `halt` was done in its last firing.
    Halted,
    /// The production of its last firing, which has this name, has a break.
    Broken(Sym),
    /// It has made all the firings that it has a number for.
    Counted,
}

/// Whether the production with this number has a break.
pub(crate) fn has_break(breaks: &[bool], rule: usize) -> bool
    ensures { result ≡ has_break breaks.now rule }
{
    breaks.get(rule).copied().unwrap_or(false)
}

/// Why the run ends here by its number of firings, if it does.
fn pause_by_count(count: Option<u64>) -> Option<Pause>
    ensures { (names : Spellings) → option_map (pause_line names) result ≡ line_of_count count }
{
    if count == Some(0) {
        Some(Pause::Counted)
    } else {
        None
    }
}

/// Why the run ends here by a break at the production of its last firing, if it has one.
fn pause_by_break(program: &Program, breaks: &[bool], rule: Option<usize>) -> Option<Pause>
    ensures { (names : Spellings) → option_map (pause_line names) result ≡ line_of_break names program.now.rules breaks.now rule }
{
    let Some(rule) = rule else {
        return None;
    };
    if has_break(breaks, rule) {
        Some(Pause::Broken(rule_name(program.rules.as_slice(), rule)))
    } else {
        None
    }
}

/// Why the run ends here whatever is next, if it does.
fn pause_of(
    program: &Program,
    breaks: &[bool],
    last: Option<LastFiring>,
    count: Option<u64>,
) -> Option<Pause>
    ensures { (names : Spellings) → option_map (pause_line names) result
        ≡ line_of_pause names program.now.rules breaks.now (meant_last last) count }
{
    let Some(fired) = last else {
        return pause_by_count(count);
    };
    if fired.halted {
        return Some(Pause::Halted);
    }
    match pause_by_break(program, breaks, fired.rule) {
        Some(pause) => Some(pause),
        None => pause_by_count(count),
    }
}

/// Puts the line of a run that ends for this reason.
fn put_pause<K: Sink>(
    out: &mut Out,
    sink: &mut K,
    names: &Names,
    pause: Pause,
) -> Result<(), WriteFailed>
    requires whole { IsTrue out.old.whole }
    requires faults { K.faults sink.old < 2 ^ 63 }
    ensures puts { PutsBytes result (port (K.taken sink.old) (K.faults sink.old) out.old)
        (port (K.taken sink.new) (K.faults sink.new) out.new)
        (line_at out.old.column (pause_line names.now pause)) }
{
    match pause {
        Pause::Halted => put_line(out, sink, b"end -- explicit halt"),
        Pause::Broken(name) => put_name_line(out, sink, names, b"break -- production ", &name),
        Pause::Counted => put_line(out, sink, b"break -- run count"),
    }
}

/// One firing less is left to the run.
fn one_less(count: Option<u64>) -> Option<u64>
    ensures { result ≡ one_less count }
{
    Some(count?.saturating_sub(1))
}

/// One firing of a run, of this production. The productions that it built are added after its phase, and the state follows
/// them.
fn fire_turn<
    B: Maker,
    H: Fn(B::M, &[Change]) -> Result<Settled<B::M>, OutOfMemory>,
    A: Actor<B::M, I, K>,
    I: Source,
    K: Sink,
>(
    context: &SessionContext<'_, B, H, A>,
    live: &mut Live,
    names: &mut Names,
    undoable: Undoable<B::M>,
    rule: usize,
    input: &mut Input,
    source: &mut I,
    out: &mut Out,
    sink: &mut K,
) -> Result<(Undoable<B::M>, LastFiring), Ending>
    requires settles { Settles B.M.stored B.M.found B.M.stands_for (λ m cs. H.pre context.now.settle.now m cs) (λ m cs r. H.post context.now.settle.now m cs r) }
    requires able { A.able context.now.actor.now }
    requires whole { IsTrue out.old.whole }
    requires faults { K.faults sink.old < 2 ^ 63 }
    requires reads { I.faults source.old < 2 ^ 63 }
    requires of { IsOf B.M.stands_for live.old.program.rules undoable.session.state }
    requires next { (i : Inst) × (next_to_fire live.old.program.rules (alone B.M.stored undoable.session.state) ≡ Some i) × (i.rule ≡ rule) }
    requires none { undoable.session.pending ≡ [] }
    requires current { undoable.session.moved ≡ None }
    requires trail { IsTrailed B.M.stored live.old.program.rules undoable }
    requires named { IsNamedFrom 1 names.old undoable.trail }
    ensures performs { (i : Inst) → next_to_fire live.old.program.rules (alone B.M.stored undoable.session.state) ≡ Some i
        → PerformsOn (λ r c. record { session = ready_with B.M.stored live.new.program.rules r.0 names.new c; last = meant_last (Some r.1) }) of_ending result
        (inlet input.old (I.left source.old) (I.faults source.old))
        (inlet input.new (I.left source.new) (I.faults source.new))
        (port (K.taken sink.old) (K.faults sink.old) out.old)
        (port (K.taken sink.new) (K.faults sink.new) out.new)
        (λ c. turn_fired (setting_of live.old.program undoable.session.watch) out.old.column i (ready_with B.M.stored live.old.program.rules undoable names.old c)) }
    ensures reads { CountsReads (ends_unread result) (I.faults source.old) (I.faults source.new) }
    ensures written { ends_unread result ≡ true → out.new.held ≡ [] }
    ensures untouched { program_asks live.old.program.rules ≡ false → (input.new ≡ input.old) × (source.new ≡ source.old) }
    ensures names { KeepsNames names.old names.new }
    ensures of { IfOk result (λ r. IsOf B.M.stands_for live.new.program.rules r.0.session.state) }
    ensures none { IfOk result (λ r. r.0.session.pending ≡ []) }
    ensures current { IfOk result (λ r. r.0.session.moved ≡ None) }
    ensures watch { IfOk result (λ r. r.0.session.watch ≡ undoable.session.watch) }
    ensures trail { IfOk result (λ r. IsTrailed B.M.stored live.new.program.rules r.0) }
    ensures named { IfOk result (λ r. (least : ℕ) → IsNamedFrom least names.old undoable.trail → IsNamedFrom least names.new r.0.trail) }
    ensures program { OnOk result (IsWith live.new.program.rules live.old.program.commands live.old.program live.new.program) }
    ensures quiet { OnOk result (program_asks live.old.program.rules ≡ false → program_asks live.old.program.templates ≡ false
        → program_asks live.new.program.rules ≡ false) }
{
    let at = RunContext {
        alloc: context.alloc,
        settle: context.settle,
        actor: context.actor,
        program: &live.program,
        limit: context.limit,
    };
    let (after, halted, built) = fire_kept(&at, names, undoable, rule, input, source, out, sink)?;
    if built.is_empty() {
        let rule = Some(rule);
        return Ok((after, LastFiring { rule, halted }));
    }
    let (after, rule) = follow_built(context, live, after, built, rule)?;
    Ok((after, LastFiring { rule, halted }))
}

/// Writes out what was put, where someone reads along. Where nothing is held, no call of the sink is made.
fn show<K: Sink>(out: &mut Out, sink: &mut K) -> Result<(), WriteFailed>
    requires whole { IsTrue out.old.whole }
    requires faults { K.faults sink.old < 2 ^ 63 }
    ensures shows { FlushesAll result (port (K.taken sink.old) (K.faults sink.old) out.old)
        (port (K.taken sink.new) (K.faults sink.new) out.new)
        ⊎ (IsOk result × (out.new ≡ out.old) × (sink.new ≡ sink.old)) }
    ensures unwritten { out.old.held ≡ [] → (sink.new ≡ sink.old) × IsOk result }
{
    if sink.is_read_along() {
        return out.flush(sink);
    }
    Ok(())
}

/// What the command `run` does: a run of at most `count` firings, if it has a number, until it ends or the session has
/// made the last of its `limit` firings. It ends after a firing that did `halt`, after one whose production has a
/// break, where it has made its number of firings, and where nothing is left to fire: these are looked at in this
/// order, and the limit after them. Where someone reads along, what a firing put is written out after it.
pub(crate) fn run<
    B: Maker,
    H: Fn(B::M, &[Change]) -> Result<Settled<B::M>, OutOfMemory>,
    A: Actor<B::M, I, K>,
    I: Source,
    K: Sink,
>(
    context: &SessionContext<'_, B, H, A>,
    live: &mut Live,
    names: &mut Names,
    undoable: Undoable<B::M>,
    count: Option<u64>,
    input: &mut Input,
    source: &mut I,
    out: &mut Out,
    sink: &mut K,
) -> Result<Undoable<B::M>, Ending>
    requires settles { Settles B.M.stored B.M.found B.M.stands_for (λ m cs. H.pre context.now.settle.now m cs) (λ m cs r. H.post context.now.settle.now m cs r) }
    requires able { A.able context.now.actor.now }
    requires whole { IsTrue out.old.whole }
    requires faults { K.faults sink.old < 2 ^ 63 }
    requires reads { I.faults source.old < 2 ^ 63 }
    requires of { IsOf B.M.stands_for live.old.program.rules undoable.session.state }
    requires none { undoable.session.pending ≡ [] }
    requires current { undoable.session.moved ≡ None }
    requires trail { IsTrailed B.M.stored live.old.program.rules undoable }
    requires named { IsNamedFrom 1 names.old undoable.trail }
    ensures performs { PerformsOn (λ u c. ready_with B.M.stored live.new.program.rules u names.new c) of_ending result
        (inlet input.old (I.left source.old) (I.faults source.old))
        (inlet input.new (I.left source.new) (I.faults source.new))
        (port (K.taken sink.old) (K.faults sink.old) out.old)
        (port (K.taken sink.new) (K.faults sink.new) out.new)
        (λ c. run_on (context.now.limit - undoable.session.state.firings) (setting_of live.old.program undoable.session.watch) out.old.column None count
        (ready_with B.M.stored live.old.program.rules undoable names.old c)) }
    ensures reads { CountsReads (ends_unread result) (I.faults source.old) (I.faults source.new) }
    ensures written { ends_unread result ≡ true → out.new.held ≡ [] }
    ensures untouched { program_asks live.old.program.rules ≡ false → program_asks live.old.program.templates ≡ false
        → (input.new ≡ input.old) × (source.new ≡ source.old) }
    ensures names { KeepsNames names.old names.new }
    ensures of { IfOk result (λ u. IsOf B.M.stands_for live.new.program.rules u.session.state) }
    ensures none { IfOk result (λ u. u.session.pending ≡ []) }
    ensures current { IfOk result (λ u. u.session.moved ≡ None) }
    ensures trail { IfOk result (λ u. IsTrailed B.M.stored live.new.program.rules u) }
    ensures named { IfOk result (λ u. (least : ℕ) → IsNamedFrom least names.old undoable.trail → IsNamedFrom least names.new u.trail) }
    ensures program { OnOk result (IsWith live.new.program.rules live.old.program.commands live.old.program live.new.program) }
    ensures quiet { OnOk result (program_asks live.old.program.rules ≡ false → program_asks live.old.program.templates ≡ false
        → program_asks live.new.program.rules ≡ false) }
{
    let mut undoable = undoable;
    let mut left = context
        .limit
        .saturating_sub(undoable.session.state.firings());
    let mut count = count;
    let mut last = None;
    'turns: loop {
        if let Some(pause) = pause_of(
            &live.program,
            undoable.session.breaks.as_slice(),
            last,
            count,
        ) {
            put_pause(out, sink, names, pause)?;
            return Ok(undoable);
        }
        // what is next is looked up here, for the end and for its production, and once more as it fires
        let Some(next) = undoable.session.state.next() else {
            put_line(out, sink, b"end -- no production true")?;
            return Ok(undoable);
        };
        let rule = next.rule;
        if left == 0 {
            return Err(Ending::Limit {
                firings: undoable.session.state.firings(),
            });
        }
        left -= 1;
        count = one_less(count);
        let (after, fired) = fire_turn(
            context, live, names, undoable, rule, input, source, out, sink,
        )?;
        show(out, sink)?;
        undoable = after;
        last = Some(fired);
    }
}
