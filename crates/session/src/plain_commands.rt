//! The commands that read no input, change no production and leave the names as they are.
ghost use Rattle.std.specs.Prelude.{◌≡◌, ◌^◌, ◌<◌, true, IsTrue};
ghost use Rattle.ops_io.specs.Ports.{port};
ghost use Rattle.ops_meaning.specs.Running.{command_done};
ghost use Rattle.act_phase.specs.Outcomes.{setting_of};
ghost use Rattle.cycle.specs.Settles.{Settles};
ghost use Rattle.session.specs.Courses.{IsReadyFor, IsUnderWay};
ghost use Rattle.session.specs.Deeds.{Does};
ghost use Rattle.session.specs.Trailing.{DoesWith, IsUndoable, empties, is_plain};

use crate::context::RunContext;
use crate::lists::{list_elements, list_met, list_standing};
use crate::memory_commands::{make_at_top, remove, remove_all};
use crate::partials::list_matches;
use crate::productions::{give_breaks, list_productions};
use crate::ready::make_ready;
use crate::session::Session;
use crate::settings::{give_level, give_strategy};
use crate::undoable::{Undoable, emptied_if};
use cycle::Maker;
use ops_base::commands::Command;
use ops_base::elements::Change;
use ops_base::endings::Ending;
use ops_base::memory::OutOfMemory;
use ops_base::symbols::Names;
use ops_io::{Out, Sink};
use work_store::{Matcher, Settled};

/// Does one of them, in a session that is ready for it.
fn do_in_force<M: Matcher, H: Fn(M, &[Change]) -> Result<Settled<M>, OutOfMemory>, A, K: Sink>(
    context: &RunContext<'_, H, A>,
    names: &Names,
    session: Session<M>,
    command: &Command,
    out: &mut Out,
    sink: &mut K,
) -> Result<Session<M>, Ending>
    requires settles { Settles M.stored M.found M.stands_for (λ m cs. H.pre context.now.settle.now m cs) (λ m cs r. H.post context.now.settle.now m cs r) }
    requires under_way { IsUnderWay M.stored M.stands_for context.now.program.now.rules session }
    requires ready { IsReadyFor command.now session }
    requires plain { is_plain command.now ≡ true }
    requires whole { IsTrue out.old.whole }
    requires faults { K.faults sink.old < 2 ^ 63 }
    ensures { Does M.stored M.stands_for context.now.program.now.rules names.now session result
        (port (K.taken sink.old) (K.faults sink.old) out.old)
        (port (K.taken sink.new) (K.faults sink.new) out.new)
        (λ k. command_done (setting_of context.now.program.now 0) context.now.limit out.old.column command.now k) }
{
    match command {
        Command::Make { class, puts } => {
            make_at_top(context, names, session, *class, puts, out, sink)
        }
        Command::Remove { tags } => remove(context, names, session, tags, out, sink),
        Command::RemoveAll => remove_all(context, names, session, out, sink),
        Command::Wm { tags } => list_elements(context.program, names, session, tags, out, sink),
        Command::Ppwm { pattern } => list_met(context.program, names, session, pattern, out, sink),
        Command::Cs => list_standing(context.program, names, session, out, sink),
        Command::Pm { names: given } => {
            list_productions(context.program, names, session, given, out, sink)
        }
        Command::Strategy { set } => give_strategy(session, *set, out, sink),
        Command::Watch { set } => give_level(session, *set, out, sink),
        Command::Pbreak { names: given } => {
            give_breaks(context.program, names, session, given, out, sink)
        }
        Command::Matches { names: given } => {
            list_matches(
                context.alloc,
                context.program,
                names,
                session,
                given,
                out,
                sink,
            )
        }
        // the definition is total: whoever does the commands in order stops before it
        Command::Exit => Ok(session),
        Command::Run { .. } | Command::Back { .. } | Command::Add { .. } | Command::Excise { .. } =>
            unreachable!(),
    }
}

/// Does one of them, once the session is ready for it.
fn do_at_once<B: Maker, H: Fn(B::M, &[Change]) -> Result<Settled<B::M>, OutOfMemory>, A, K: Sink>(
    context: &RunContext<'_, H, A>,
    maker: &B,
    names: &Names,
    session: Session<B::M>,
    command: &Command,
    out: &mut Out,
    sink: &mut K,
) -> Result<Session<B::M>, Ending>
    requires settles { Settles B.M.stored B.M.found B.M.stands_for (λ m cs. H.pre context.now.settle.now m cs) (λ m cs r. H.post context.now.settle.now m cs r) }
    requires under_way { IsUnderWay B.M.stored B.M.stands_for context.now.program.now.rules session }
    requires plain { is_plain command.now ≡ true }
    requires whole { IsTrue out.old.whole }
    requires faults { K.faults sink.old < 2 ^ 63 }
    ensures { Does B.M.stored B.M.stands_for context.now.program.now.rules names.now session result
        (port (K.taken sink.old) (K.faults sink.old) out.old)
        (port (K.taken sink.new) (K.faults sink.new) out.new)
        (λ k. command_done (setting_of context.now.program.now 0) context.now.limit out.old.column command.now k) }
{
    let session = make_ready(context, maker, session, command)?;
    do_in_force(context, names, session, command, out, sink)
}

/// Whether no firing before the command can be undone after it.
fn empties(command: &Command) -> bool
    ensures { result ≡ empties command.now }
{
    matches!(
        command,
        Command::Make { .. } | Command::Remove { .. } | Command::RemoveAll
    )
}

/// Does one of them. A top-level `make` or `remove` empties the trail.
pub(crate) fn do_plain<
    B: Maker,
    H: Fn(B::M, &[Change]) -> Result<Settled<B::M>, OutOfMemory>,
    A,
    K: Sink,
>(
    context: &RunContext<'_, H, A>,
    maker: &B,
    names: &Names,
    undoable: Undoable<B::M>,
    command: &Command,
    out: &mut Out,
    sink: &mut K,
) -> Result<Undoable<B::M>, Ending>
    requires settles { Settles B.M.stored B.M.found B.M.stands_for (λ m cs. H.pre context.now.settle.now m cs) (λ m cs r. H.post context.now.settle.now m cs r) }
    requires undoable { IsUndoable B.M.stored B.M.stands_for context.now.program.now.rules undoable }
    requires plain { is_plain command.now ≡ true }
    requires whole { IsTrue out.old.whole }
    requires faults { K.faults sink.old < 2 ^ 63 }
    ensures { DoesWith B.M.stored B.M.stands_for context.now.program.now.rules context.now.program.now.rules names.now undoable result
        (port (K.taken sink.old) (K.faults sink.old) out.old)
        (port (K.taken sink.new) (K.faults sink.new) out.new)
        (λ k. command_done (setting_of context.now.program.now 0) context.now.limit out.old.column command.now k) }
{
    let Undoable { session, trail } = undoable;
    let session = do_at_once(context, maker, names, session, command, out, sink)?;
    let trail = emptied_if(empties(command), trail);
    Ok(Undoable { session, trail })
}
