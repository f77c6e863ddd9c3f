//! A whole session, and what is known of it at its end.
ghost use Rattle.std.specs.Prelude.{◌≡◌, ℕ, ◌^◌, ◌<◌, [], Ok, IfOk, OnOk, IsTrue, true, false};
ghost use Rattle.ops_io.specs.Coming.{Coming, inlet};
ghost use Rattle.ops_io.specs.Ports.{port};
ghost use Rattle.ops_meaning.specs.Effects.{CountsReads, Performs, PerformsOn, of_ending};
ghost use Rattle.ops_meaning.specs.Kept.{KeepsNames, GoesByConflictSets};
ghost use Rattle.ops_meaning.specs.Running.{session_of};
ghost use Rattle.act_phase.specs.Asking.{session_asks};
ghost use Rattle.act_phase.specs.Held.{HoldsProgram};
ghost use Rattle.act_phase.specs.Outcomes.{setting_of};
ghost use Rattle.cycle.specs.Settles.{Settles};
ghost use Rattle.session.specs.Courses.{ends_unread};
ghost use Rattle.session.specs.Endings.{EndsOn, CountsReadFault};
ghost use Rattle.session.specs.Trailing.{ended, meant_with};
ghost use Rattle.session.specs.Holding.{EndsHeld};
ghost use Rattle.why_lines.specs.Explained.{explained_if, explains};

use crate::commands::do_commands;
use crate::context::SessionContext;
use crate::undoable::Undoable;
use cycle::{Actor, Maker};
use live_rules::Live;
use ops_base::elements::Change;
use ops_base::endings::Ending;
use ops_base::memory::OutOfMemory;
use ops_base::programs::Program;
use ops_base::symbols::Names;
use ops_io::{Input, Out, Sink, Source, Stop};
use std::alloc::Global;
use std::mem;
use why_lines::put_why;
use work_store::{Matcher, Settled};

/// What is known of a session once its commands are done. It is not given back piece by piece: the program is about to
/// end, and that would take a walk over all that it holds.
fn known_ending<M: Matcher>(done: Result<Undoable<M>, Ending>) -> Result<Ending, Stop>
    ensures { result ≡ ended M.stored done }
{
    match done {
        Ok(undoable) => {
            let ending = Ending::Done {
                firings: undoable.session.state.firings(),
                elements: undoable.session.state.store().len() as u64,
                last_tag: undoable.session.state.last_tag(),
            };
            mem::forget(undoable);
            Ok(ending)
        }
        Err(Ending::WriteFault) => Err(Stop::Write),
        Err(Ending::OutOfMemory) => Err(Stop::OutOfMemory),
        Err(ending) => Ok(ending),
    }
}

/// Puts the lines that explain the productions in force, and writes out all that was put.
fn put_explanations<M: Matcher, K: Sink>(
    alloc: Global,
    program: &Program,
    names: &Names,
    undoable: Undoable<M>,
    out: &mut Out,
    sink: &mut K,
) -> Result<Undoable<M>, Ending>
    requires none_waits { undoable.session.pending ≡ [] }
    requires whole { IsTrue out.old.whole }
    requires faults { K.faults sink.old < 2 ^ 63 }
    ensures performs { (c : Coming) → Performs (λ u. meant_with M.stored program.now.rules u names.now c) of_ending result
        (port (K.taken sink.old) (K.faults sink.old) out.old)
        (port (K.taken sink.new) (K.faults sink.new) out.new)
        (explains program.now.classes out.old.column (meant_with M.stored program.now.rules undoable names.now c)) }
    ensures reads { ends_unread result ≡ false }
    ensures none_waits { IfOk result (λ u. u.session.pending ≡ []) }
    ensures flushed { OnOk result (out.new.held ≡ []) }
{
    let wm = undoable.session.state.store().present(alloc)?;
    put_why(alloc, names, program, &wm, out, sink)?;
    drop(wm);
    out.flush(sink)?;
    Ok(undoable)
}

/// Does the commands of a program from nothing, and then explains the productions in force where that is asked for.
fn do_all<
    B: Maker,
    H: Fn(B::M, &[Change]) -> Result<Settled<B::M>, OutOfMemory>,
    A: Actor<B::M, I, K>,
    I: Source,
    K: Sink,
>(
    context: &SessionContext<'_, B, H, A>,
    live: &mut Live,
    names: &mut Names,
    input: &mut Input,
    source: &mut I,
    out: &mut Out,
    sink: &mut K,
) -> Result<Undoable<B::M>, Ending>
    requires settles { Settles B.M.stored B.M.found B.M.stands_for (λ m cs. H.pre context.now.settle.now m cs) (λ m cs r. H.post context.now.settle.now m cs r) }
    requires able { A.able context.now.actor.now }
    requires whole { IsTrue out.old.whole }
    requires faults { K.faults sink.old < 2 ^ 63 }
    requires reads { I.faults source.old < 2 ^ 63 }
    requires column { out.old.column ≡ 0 }
    ensures performs { PerformsOn (λ u c. meant_with B.M.stored live.new.program.rules u names.new c) of_ending result
        (inlet input.old (I.left source.old) (I.faults source.old))
        (inlet input.new (I.left source.new) (I.faults source.new))
        (port (K.taken sink.old) (K.faults sink.old) out.old)
        (port (K.taken sink.new) (K.faults sink.new) out.new)
        (λ c. explained_if context.now.is_explained live.old.program.classes (session_of (setting_of live.old.program 0) context.now.limit live.old.program.commands names.old c)) }
    ensures reads { CountsReads (ends_unread result) (I.faults source.old) (I.faults source.new) }
    ensures written { ends_unread result ≡ true → out.new.held ≡ [] }
    ensures untouched { session_asks live.old.program.rules live.old.program.templates live.old.program.commands ≡ false → (input.new ≡ input.old) × (source.new ≡ source.old) }
    ensures names { KeepsNames names.old names.new }
    ensures none_waits { IfOk result (λ u. u.session.pending ≡ []) }
    ensures flushed { out.old.held ≡ [] → OnOk result (out.new.held ≡ []) }
{
    let undoable = do_commands(context, live, names, input, source, out, sink)?;
    let is_explained = context.is_explained;
    if !is_explained {
        return Ok(undoable);
    }
    put_explanations(context.alloc, &live.program, names, undoable, out, sink)
}

/// Does the commands of a program in order, from nothing, and at their end puts the lines that explain the productions
/// in force where they are asked for. At first the productions are those before the first `make` or `run`. The commands
/// are taken from `live`, and its productions come and go with them. Each symbol keeps its spelling, and wherever the
/// session looks for instantiations it looks at the conflict set of the productions in force. Where a read fails, all
/// that was put before is written out.
pub fn run_session<
    B: Maker,
    H: Fn(B::M, &[Change]) -> Result<Settled<B::M>, OutOfMemory>,
    A: Actor<B::M, I, K>,
    I: Source,
    K: Sink,
>(
    context: &SessionContext<'_, B, H, A>,
    live: &mut Live,
    names: &mut Names,
    input: &mut Input,
    source: &mut I,
    out: &mut Out,
    sink: &mut K,
) -> Result<Ending, Stop>
    requires settles { Settles B.M.stored B.M.found B.M.stands_for (λ m cs. H.pre context.now.settle.now m cs) (λ m cs r. H.post context.now.settle.now m cs r) }
    requires able { A.able context.now.actor.now }
    requires whole { IsTrue out.old.whole }
    requires faults { K.faults sink.old < 2 ^ 63 }
    requires reads { I.faults source.old < 2 ^ 63 }
    requires column { out.old.column ≡ 0 }
    ensures ends { EndsOn result
        (inlet input.old (I.left source.old) (I.faults source.old))
        (inlet input.new (I.left source.new) (I.faults source.new))
        (port (K.taken sink.old) (K.faults sink.old) out.old)
        (port (K.taken sink.new) (K.faults sink.new) out.new)
        names.new
        (λ c. explained_if context.now.is_explained live.old.program.classes (session_of (setting_of live.old.program 0) context.now.limit live.old.program.commands names.old c)) }
    ensures reads { CountsReadFault result (I.faults source.old) (I.faults source.new) }
    ensures written { result ≡ Ok Ending.ReadFault → out.new.held ≡ [] }

    // Where no `accept` stands in the program, the input is left as it was.
    ensures untouched { session_asks live.old.program.rules live.old.program.templates live.old.program.commands ≡ false → (input.new ≡ input.old) × (source.new ≡ source.old) }
    ensures flushed { out.old.held ≡ [] → (firings elements last_tag : ℕ)
        → result ≡ Ok (Ending.Done firings elements last_tag) → out.new.held ≡ [] }
    ensures names { KeepsNames names.old names.new }

    // Where the names hold each symbol of the program, they hold at the end those of the program and of working memory,
    // and the name of the production that an ending tells.
    ensures held { HoldsProgram names.old live.old.program → HoldsProgram names.new live.old.program × EndsHeld live.old.program context.now.limit names.old }
    ensures sets { GoesByConflictSets (setting_of live.old.program 0) context.now.limit live.old.program.commands names.old }
{
    let done = do_all(context, live, names, input, source, out, sink);
    known_ending(done)
}
