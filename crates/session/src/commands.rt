//! The commands of a program, in the order of the text.
ghost use Rattle.std.specs.Prelude.{◌≡◌, ℕ, ◌^◌, ◌<◌, ◌≤◌, [], length, true, IsTrue, IfOk, OnOk, false, if◌then◌else◌, Some, None};
ghost use Rattle.ops_base.specs.Names.{Spellings};
ghost use Rattle.ops_io.specs.Coming.{Coming, inlet};
ghost use Rattle.ops_io.specs.Ports.{port};
ghost use Rattle.ops_meaning.specs.Effects.{CountsReads, Performs, PerformsOn, of_ending};
ghost use Rattle.ops_meaning.specs.Kept.{KeepsNames, WellKept};
ghost use Rattle.ops_meaning.specs.Running.{command_done, commands_done, is_back, is_exit, run_given, session_of};
ghost use Rattle.ops_base.specs.ConflictSet.{conflict_set};
ghost use Rattle.ops_base.specs.Valid.{command_builds_from, command_is_valid};
ghost use Rattle.live_rules.specs.Moves.{IsWith};
ghost use Rattle.std.specs.List.{list_all, list_any};
ghost use Rattle.act_phase.specs.Asking.{command_asks, program_asks, session_asks};
ghost use Rattle.act_phase.specs.Outcomes.{setting_of};
ghost use Rattle.cycle.specs.Settles.{Settles};
ghost use Rattle.back_trail.specs.Trails.{nothing_kept};
ghost use Rattle.session.specs.Courses.{changes_productions, ends_unread};
ghost use Rattle.session.specs.Trailing.{IsNamedFrom, IsUndoable, meant_with};

use crate::built::after_run;
use crate::context::{RunContext, SessionContext};
use crate::plain_commands::do_plain;
use crate::ready::{settle_all, settle_pending};
use crate::runs::run;
use crate::session::start;
use crate::undoable::{Undoable, add_late, excise_late};
use crate::undoing::go_back;
use back_trail::Trail;
use cycle::{Actor, Maker};
use live_rules::Live;
use ops_base::commands::Command;
use ops_base::elements::Change;
use ops_base::endings::Ending;
use ops_base::memory::OutOfMemory;
use ops_base::symbols::Names;
use ops_io::{Input, Out, Sink, Source};
use std::alloc::Global;
use work_store::{Matcher, Settled};

/// The command `run`. The productions that its firings build join those in force.
fn run_from<
    B: Maker,
    H: Fn(B::M, &[Change]) -> Result<Settled<B::M>, OutOfMemory>,
    A: Actor<B::M, I, K>,
    I: Source,
    K: Sink,
>(
    context: &SessionContext<'_, B, H, A>,
    live: &mut Live,
    names: &mut Names,
    undoable: Undoable<B::M>,
    count: Option<u64>,
    input: &mut Input,
    source: &mut I,
    out: &mut Out,
    sink: &mut K,
) -> Result<Undoable<B::M>, Ending>
    requires settles { Settles B.M.stored B.M.found B.M.stands_for (λ m cs. H.pre context.now.settle.now m cs) (λ m cs r. H.post context.now.settle.now m cs r) }
    requires able { A.able context.now.actor.now }
    requires undoable { IsUndoable B.M.stored B.M.stands_for live.old.program.rules undoable }
    requires named { IsNamedFrom 1 names.old undoable.trail }
    requires whole { IsTrue out.old.whole }
    requires faults { K.faults sink.old < 2 ^ 63 }
    requires reads { I.faults source.old < 2 ^ 63 }
    ensures performs { PerformsOn (λ u c. meant_with B.M.stored live.new.program.rules u names.new c) of_ending result
        (inlet input.old (I.left source.old) (I.faults source.old))
        (inlet input.new (I.left source.new) (I.faults source.new))
        (port (K.taken sink.old) (K.faults sink.old) out.old)
        (port (K.taken sink.new) (K.faults sink.new) out.new)
        (λ c. run_given conflict_set (setting_of live.old.program 0) context.now.limit out.old.column count
        (meant_with B.M.stored live.old.program.rules undoable names.old c)) }
    ensures reads { CountsReads (ends_unread result) (I.faults source.old) (I.faults source.new) }
    ensures written { ends_unread result ≡ true → out.new.held ≡ [] }
    ensures untouched { program_asks live.old.program.rules ≡ false → program_asks live.old.program.templates ≡ false
        → (input.new ≡ input.old) × (source.new ≡ source.old) }
    ensures undoable { IfOk result (IsUndoable B.M.stored B.M.stands_for live.new.program.rules) }
    ensures named { IfOk result (λ u. (least : ℕ) → 1 ≤ least → IsNamedFrom least names.old undoable.trail → IsNamedFrom least names.new u.trail) }

    // What was in use where the trail begins is in use still, also where firings are undone.
    ensures names { (first : Spellings) → KeepsNames first names.old → IsNamedFrom (length first.held) names.old undoable.trail → KeepsNames first names.new }
    ensures program { OnOk result (IsWith live.new.program.rules live.old.program.commands live.old.program live.new.program) }
    ensures quiet { OnOk result (program_asks live.old.program.rules ≡ false → program_asks live.old.program.templates ≡ false
        → program_asks live.new.program.rules ≡ false) }
{
    let Undoable { session, trail } = undoable;
    let at = RunContext {
        alloc: context.alloc,
        settle: context.settle,
        actor: context.actor,
        program: &live.program,
        limit: context.limit,
    };
    let session = settle_all(&at, context.maker, session)?;
    let undoable = Undoable { session, trail };
    let undoable = run(
        context, live, names, undoable, count, input, source, out, sink,
    )?;
    Ok(after_run(undoable))
}

/// Does one command that reads no input and changes no production.
fn do_unchanging<
    B: Maker,
    H: Fn(B::M, &[Change]) -> Result<Settled<B::M>, OutOfMemory>,
    A,
    K: Sink,
>(
    context: &RunContext<'_, H, A>,
    maker: &B,
    names: &mut Names,
    undoable: Undoable<B::M>,
    command: &Command,
    out: &mut Out,
    sink: &mut K,
) -> Result<Undoable<B::M>, Ending>
    requires settles { Settles B.M.stored B.M.found B.M.stands_for (λ m cs. H.pre context.now.settle.now m cs) (λ m cs r. H.post context.now.settle.now m cs r) }
    requires undoable { IsUndoable B.M.stored B.M.stands_for context.now.program.now.rules undoable }
    requires named { IsNamedFrom 1 names.old undoable.trail }
    requires whole { IsTrue out.old.whole }
    requires faults { K.faults sink.old < 2 ^ 63 }
    requires unchanging { changes_productions command.now ≡ false }
    ensures performs { (c : Coming) → Performs (λ u. meant_with B.M.stored context.now.program.now.rules u names.new c) of_ending result
        (port (K.taken sink.old) (K.faults sink.old) out.old)
        (port (K.taken sink.new) (K.faults sink.new) out.new)
        (command_done (setting_of context.now.program.now 0) context.now.limit out.old.column command.now
        (meant_with B.M.stored context.now.program.now.rules undoable names.old c)) }
    ensures reads { ends_unread result ≡ false }
    ensures undoable { IfOk result (IsUndoable B.M.stored B.M.stands_for context.now.program.now.rules) }
    ensures named { IfOk result (λ u. (least : ℕ) → 1 ≤ least → IsNamedFrom least names.old undoable.trail → IsNamedFrom least names.new u.trail) }

    // What was in use where the trail begins is in use still, also where firings are undone.
    ensures names { (first : Spellings) → KeepsNames first names.old → IsNamedFrom (length first.held) names.old undoable.trail → KeepsNames first names.new }
{
    match command {
        Command::Back { count } => go_back(context, maker, names, undoable, *count, out, sink),
        _ => do_plain(context, maker, names, undoable, command, out, sink),
    }
}

/// Does one command.
fn do_command<
    B: Maker,
    H: Fn(B::M, &[Change]) -> Result<Settled<B::M>, OutOfMemory>,
    A: Actor<B::M, I, K>,
    I: Source,
    K: Sink,
>(
    context: &SessionContext<'_, B, H, A>,
    live: &mut Live,
    names: &mut Names,
    undoable: Undoable<B::M>,
    command: Command,
    input: &mut Input,
    source: &mut I,
    out: &mut Out,
    sink: &mut K,
) -> Result<Undoable<B::M>, Ending>
    requires settles { Settles B.M.stored B.M.found B.M.stands_for (λ m cs. H.pre context.now.settle.now m cs) (λ m cs r. H.post context.now.settle.now m cs r) }
    requires able { A.able context.now.actor.now }
    requires undoable { IsUndoable B.M.stored B.M.stands_for live.old.program.rules undoable }
    requires named { IsNamedFrom 1 names.old undoable.trail }
    requires whole { IsTrue out.old.whole }
    requires faults { K.faults sink.old < 2 ^ 63 }
    requires reads { I.faults source.old < 2 ^ 63 }
    requires valid { IsTrue (command_is_valid live.old.program.classes (length live.old.program.text) command) }
    requires builds { IsTrue (command_builds_from (length live.old.program.templates) command) }
    ensures performs { PerformsOn (λ u c. meant_with B.M.stored live.new.program.rules u names.new c) of_ending result
        (inlet input.old (I.left source.old) (I.faults source.old))
        (inlet input.new (I.left source.new) (I.faults source.new))
        (port (K.taken sink.old) (K.faults sink.old) out.old)
        (port (K.taken sink.new) (K.faults sink.new) out.new)
        (λ c. command_done (setting_of live.old.program 0) context.now.limit out.old.column command
        (meant_with B.M.stored live.old.program.rules undoable names.old c)) }
    ensures reads { CountsReads (ends_unread result) (I.faults source.old) (I.faults source.new) }
    ensures written { ends_unread result ≡ true → out.new.held ≡ [] }
    ensures untouched { program_asks live.old.program.rules ≡ false → program_asks live.old.program.templates ≡ false
        → (input.new ≡ input.old) × (source.new ≡ source.old) }
    ensures undoable { IfOk result (IsUndoable B.M.stored B.M.stands_for live.new.program.rules) }
    ensures named { IfOk result (λ u. (least : ℕ) → 1 ≤ least → IsNamedFrom least names.old undoable.trail → IsNamedFrom least names.new u.trail) }

    // What was in use where the trail begins is in use still, also where firings are undone.
    ensures names { (first : Spellings) → KeepsNames first names.old → IsNamedFrom (length first.held) names.old undoable.trail → KeepsNames first names.new }
    ensures program { OnOk result (IsWith live.new.program.rules live.old.program.commands live.old.program live.new.program) }
    ensures quiet { OnOk result (program_asks live.old.program.rules ≡ false → program_asks live.old.program.templates ≡ false
        → command_asks command ≡ false → program_asks live.new.program.rules ≡ false) }
{
    let alloc = context.alloc;
    match command {
        Command::Add { rule } => Ok(add_late(alloc, live, undoable, rule)?),
        Command::Excise { names: given } => {
            excise_late(alloc, live, names, undoable, given.as_slice(), out, sink)
        }
        Command::Run { count } => {
            run_from(
                context, live, names, undoable, count, input, source, out, sink,
            )
        }
        command => {
            let maker = context.maker;
            let context = RunContext {
                alloc,
                settle: context.settle,
                actor: context.actor,
                program: &live.program,
                limit: context.limit,
            };
            let done = do_unchanging(&context, maker, names, undoable, &command, out, sink);
            drop(command);
            done
        }
    }
}

/// Whether this is `exit`, after which nothing is done.
fn is_exit(command: &Command) -> bool
    ensures { result ≡ is_exit command.now }
{
    match command {
        Command::Exit => true,
        _ => false,
    }
}

/// Does commands in order, up to the first `exit`. After each of them what was put is written out: one call of the sink
/// or more, and none where the command put nothing.
fn do_each<
    B: Maker,
    H: Fn(B::M, &[Change]) -> Result<Settled<B::M>, OutOfMemory>,
    A: Actor<B::M, I, K>,
    I: Source,
    K: Sink,
>(
    context: &SessionContext<'_, B, H, A>,
    live: &mut Live,
    names: &mut Names,
    undoable: Undoable<B::M>,
    commands: Vec<Command>,
    input: &mut Input,
    source: &mut I,
    out: &mut Out,
    sink: &mut K,
) -> Result<Undoable<B::M>, Ending>
    requires settles { Settles B.M.stored B.M.found B.M.stands_for (λ m cs. H.pre context.now.settle.now m cs) (λ m cs r. H.post context.now.settle.now m cs r) }
    requires able { A.able context.now.actor.now }
    requires undoable { IsUndoable B.M.stored B.M.stands_for live.old.program.rules undoable }
    requires named { IsNamedFrom 1 names.old undoable.trail }
    requires valid { IsTrue (list_all (command_is_valid live.old.program.classes (length live.old.program.text)) commands.items) }
    requires builds { IsTrue (list_all (command_builds_from (length live.old.program.templates)) commands.items) }
    requires whole { IsTrue out.old.whole }
    requires faults { K.faults sink.old < 2 ^ 63 }
    requires reads { I.faults source.old < 2 ^ 63 }
    ensures performs { PerformsOn (λ u c. meant_with B.M.stored live.new.program.rules u names.new c) of_ending result
        (inlet input.old (I.left source.old) (I.faults source.old))
        (inlet input.new (I.left source.new) (I.faults source.new))
        (port (K.taken sink.old) (K.faults sink.old) out.old)
        (port (K.taken sink.new) (K.faults sink.new) out.new)
        (λ c. commands_done (setting_of live.old.program 0) context.now.limit out.old.column commands.items
        (meant_with B.M.stored live.old.program.rules undoable names.old c)) }
    ensures reads { CountsReads (ends_unread result) (I.faults source.old) (I.faults source.new) }
    ensures written { ends_unread result ≡ true → out.new.held ≡ [] }
    ensures untouched { session_asks live.old.program.rules live.old.program.templates commands.items ≡ false → (input.new ≡ input.old) × (source.new ≡ source.old) }
    ensures undoable { IfOk result (IsUndoable B.M.stored B.M.stands_for live.new.program.rules) }
    ensures names { (first : Spellings) → 1 ≤ length first.held → KeepsNames first names.old → IsNamedFrom (length first.held) names.old undoable.trail → KeepsNames first names.new }
    ensures classes { OnOk result (live.new.program.classes ≡ live.old.program.classes) }
    ensures flushed { out.old.held ≡ [] → OnOk result (out.new.held ≡ []) }
{
    let mut undoable = undoable;
    for command in commands {
        if is_exit(&command) {
            return Ok(undoable);
        }
        undoable = do_command(
            context, live, names, undoable, command, input, source, out, sink,
        )?;
        out.flush(sink)?;
    }
    Ok(undoable)
}

/// Whether this is `back`.
fn is_back(command: &Command) -> bool
    ensures { result ≡ is_back command.now }
{
    match command {
        Command::Back { .. } => true,
        _ => false,
    }
}

/// Whether firings are to be kept: whether a `back` stands among the commands.
fn keeps_firings(commands: &[Command]) -> bool
    ensures { result ≡ list_any is_back commands.now }
{
    commands.iter().any(|command| is_back(command))
}

/// The trail of a session that has done nothing yet, where firings are to be kept.
fn trail_for(alloc: Global, commands: &[Command]) -> Option<Trail>
    ensures { result ≡ (if list_any is_back commands.now then Some nothing_kept else None) }
{
    if keeps_firings(commands) {
        Some(Trail::new(alloc))
    } else {
        None
    }
}

/// Does the commands of a program from nothing. Working memory is left in the order of its tags, and nothing waits.
pub(crate) fn do_commands<
    B: Maker,
    H: Fn(B::M, &[Change]) -> Result<Settled<B::M>, OutOfMemory>,
    A: Actor<B::M, I, K>,
    I: Source,
    K: Sink,
>(
    context: &SessionContext<'_, B, H, A>,
    live: &mut Live,
    names: &mut Names,
    input: &mut Input,
    source: &mut I,
    out: &mut Out,
    sink: &mut K,
) -> Result<Undoable<B::M>, Ending>
    requires settles { Settles B.M.stored B.M.found B.M.stands_for (λ m cs. H.pre context.now.settle.now m cs) (λ m cs r. H.post context.now.settle.now m cs r) }
    requires able { A.able context.now.actor.now }
    requires whole { IsTrue out.old.whole }
    requires faults { K.faults sink.old < 2 ^ 63 }
    requires reads { I.faults source.old < 2 ^ 63 }
    requires column { out.old.column ≡ 0 }
    ensures performs { PerformsOn (λ u c. meant_with B.M.stored live.new.program.rules u names.new c) of_ending result
        (inlet input.old (I.left source.old) (I.faults source.old))
        (inlet input.new (I.left source.new) (I.faults source.new))
        (port (K.taken sink.old) (K.faults sink.old) out.old)
        (port (K.taken sink.new) (K.faults sink.new) out.new)
        (λ c. session_of (setting_of live.old.program 0) context.now.limit live.old.program.commands names.old c) }
    ensures reads { CountsReads (ends_unread result) (I.faults source.old) (I.faults source.new) }
    ensures written { ends_unread result ≡ true → out.new.held ≡ [] }
    ensures untouched { session_asks live.old.program.rules live.old.program.templates live.old.program.commands ≡ false → (input.new ≡ input.old) × (source.new ≡ source.old) }
    ensures names { KeepsNames names.old names.new }
    ensures none_waits { IfOk result (λ u. u.session.pending ≡ []) }
    ensures kept { IfOk result (λ u. WellKept (B.M.stored u.session.state.matcher).elements (B.M.stored u.session.state.matcher).last) }
    ensures classes { OnOk result (live.new.program.classes ≡ live.old.program.classes) }
    ensures flushed { out.old.held ≡ [] → OnOk result (out.new.held ≡ []) }
{
    let commands = live.take_commands().into_vec();
    let matcher = context.maker.make(context.alloc, &live.program)?;
    let session = start(context.alloc, &live.program, matcher)?;
    let trail = trail_for(context.alloc, commands.as_slice());
    let undoable = Undoable { session, trail };
    // there is a name at least
    let _point = names.point();
    let undoable = do_each(
        context, live, names, undoable, commands, input, source, out, sink,
    )?;
    let Undoable { session, trail } = undoable;
    let maker = context.maker;
    let context = RunContext {
        alloc: context.alloc,
        settle: context.settle,
        actor: context.actor,
        program: &live.program,
        limit: context.limit,
    };
    let session = settle_pending(&context, maker, session)?;
    Ok(Undoable { session, trail })
}
