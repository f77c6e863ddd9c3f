//! The commands that change productions. The program in force changes at once. The state follows when something needs
//! it.
ghost use Rattle.std.specs.Prelude.{◌≡◌, ◌^◌, ◌<◌, ◌∷◌, [], length, Some, None, IsTrue, IfOk, OnOk};
ghost use Rattle.ops_base.specs.Names.{Spellings};
ghost use Rattle.ops_base.specs.Valid.{rule_builds_from, rule_is_valid};
ghost use Rattle.ops_io.specs.Coming.{Coming};
ghost use Rattle.ops_io.specs.Ports.{port};
ghost use Rattle.ops_meaning.specs.Running.{added};
ghost use Rattle.live_rules.specs.Moves.{IsWith};
ghost use Rattle.session.specs.Changing.{Excises};
ghost use Rattle.session.specs.Courses.{IsUnderWay, meant_by, places_of};

use crate::session::Session;
use live_rules::{Live, Moved, rule_named, without_any};
use ops_base::endings::Ending;
use ops_base::memory::OutOfMemory;
use ops_base::rules::Rule;
use ops_base::symbols::Names;
use ops_base::values::Sym;
use ops_io::{Out, Sink};
use ops_print::put_name_line;
use std::alloc::Global;
use work_store::Matcher;

/// These new numbers, or if there are none, those of productions none of which has moved.
fn first_numbers(alloc: Global, live: &Live, moved: Option<Moved>) -> Result<Moved, OutOfMemory>
    ensures { IfOk result (λ m. m ≡ places_of moved (length live.now.program.rules)) }
{
    match moved {
        Some(moved) => Ok(moved),
        None => Moved::nothing(alloc, &live.program),
    }
}

/// Separates the new numbers of productions from a session; if it has none yet, they are those of the productions in
/// force.
fn numbers_apart<M: Matcher>(
    alloc: Global,
    live: &Live,
    session: Session<M>,
) -> Result<(Session<M>, Moved), OutOfMemory>
    requires under_way { IsUnderWay M.stored M.stands_for live.now.program.rules session }
    ensures session { IfOk result (λ r. r.0 ≡ record session { moved = None }) }
    ensures places { IfOk result (λ r. r.1 ≡ places_of session.moved (length live.now.program.rules)) }
    ensures meant { IfOk result (λ r. (n : Spellings) (c : Coming)
        → meant_by M.stored live.now.program.rules (record session { moved = Some r.1 }) n c ≡ meant_by M.stored live.now.program.rules session n c) }
    ensures under_way { IfOk result (λ r. IsUnderWay M.stored M.stands_for live.now.program.rules (record session { moved = Some r.1 })) }
{
    // reads the state to get at its invariants: each instantiation is of a production that exists
    let _last = session.state.last_tag();
    let _index = session.state.index();
    let Session {
        state,
        pending,
        last_tag,
        ran,
        watch,
        breaks,
        moved,
    } = session;
    let moved = first_numbers(alloc, live, moved)?;
    let session = Session {
        state,
        pending,
        last_tag,
        ran,
        watch,
        breaks,
        moved: None,
    };
    Ok((session, moved))
}

/// A late `p`: adds its production to those in force, in place of one with the same name.
pub(crate) fn add_production<M: Matcher>(
    alloc: Global,
    live: &mut Live,
    session: Session<M>,
    rule: Rule,
) -> Result<Session<M>, OutOfMemory>
    requires under_way { IsUnderWay M.stored M.stands_for live.old.program.rules session }
    requires valid { IsTrue (rule_is_valid live.old.program.classes (length live.old.program.text) rule) }
    requires builds { IsTrue (rule_builds_from (length live.old.program.templates) rule) }
    ensures meant { IfOk result (λ s. (n : Spellings) (c : Coming) → meant_by M.stored live.new.program.rules s n c
        ≡ added rule (meant_by M.stored live.old.program.rules session n c)) }
    ensures under_way { IfOk result (IsUnderWay M.stored M.stands_for live.new.program.rules) }
    ensures program { OnOk result (IsWith live.new.program.rules live.old.program.commands live.old.program live.new.program) }
{
    let (session, mut moved) = numbers_apart(alloc, live, session)?;
    let number = live.add(rule, &mut moved)?;
    let mut breaks = without_any(session.breaks, number);
    breaks.push(false)?;
    Ok(Session {
        breaks,
        moved: Some(moved),
        ..session
    })
}

/// Removes the production with this name from those in force, or writes that there is none.
fn excise_one<M: Matcher, K: Sink>(
    alloc: Global,
    live: &mut Live,
    names: &Names,
    session: Session<M>,
    name: Sym,
    out: &mut Out,
    sink: &mut K,
) -> Result<Session<M>, Ending>
    requires under_way { IsUnderWay M.stored M.stands_for live.old.program.rules session }
    requires whole { IsTrue out.old.whole }
    requires faults { K.faults sink.old < 2 ^ 63 }
    ensures { Excises M.stored M.stands_for live.old.program live.new.program names.now (name ∷ []) session result
        (port (K.taken sink.old) (K.faults sink.old) out.old)
        (port (K.taken sink.new) (K.faults sink.new) out.new) }
{
    match rule_named(live.program.rules.as_slice(), name) {
        Some(_) => {
            let (session, mut moved) = numbers_apart(alloc, live, session)?;
            let number = live.excise(name, &mut moved);
            let breaks = without_any(session.breaks, number);
            Ok(Session {
                breaks,
                moved: Some(moved),
                ..session
            })
        }
        None => {
            put_name_line(out, sink, names, b"no production ", &name)?;
            Ok(session)
        }
    }
}

/// The command `excise`: removes the productions with these names from those in force, one after the other, and writes
/// which names no production has.
pub(crate) fn excise<M: Matcher, K: Sink>(
    alloc: Global,
    live: &mut Live,
    names: &Names,
    session: Session<M>,
    given: &[Sym],
    out: &mut Out,
    sink: &mut K,
) -> Result<Session<M>, Ending>
    requires under_way { IsUnderWay M.stored M.stands_for live.old.program.rules session }
    requires whole { IsTrue out.old.whole }
    requires faults { K.faults sink.old < 2 ^ 63 }
    ensures { Excises M.stored M.stands_for live.old.program live.new.program names.now given.now session result
        (port (K.taken sink.old) (K.faults sink.old) out.old)
        (port (K.taken sink.new) (K.faults sink.new) out.new) }
{
    let mut session = session;
    for name in given {
        session = excise_one(alloc, live, names, session, *name, out, sink)?;
    }
    Ok(session)
}
