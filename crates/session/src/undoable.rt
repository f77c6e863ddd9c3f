//! `Undoable`, a session with the trail by which its last firings can be undone, and what changes productions in it.
ghost use Rattle.std.specs.Prelude.{◌≡◌, ℕ, ◌^◌, ◌<◌, length, IsTrue, IfOk, OnOk, option_map, if◌then◌else◌};
ghost use Rattle.ops_base.specs.Names.{Spellings};
ghost use Rattle.ops_base.specs.Valid.{rule_builds_from, rule_is_valid};
ghost use Rattle.ops_io.specs.Coming.{Coming};
ghost use Rattle.ops_io.specs.Ports.{port};
ghost use Rattle.ops_meaning.specs.Running.{added, excised};
ghost use Rattle.live_rules.specs.Moves.{IsWith};
ghost use Rattle.back_trail.specs.Trails.{nothing_kept};
ghost use Rattle.session.specs.Trailing.{DoesWith, IsNamedFrom, IsUndoable, meant_with};

use crate::changes::{add_production, excise};
use crate::session::Session;
use back_trail::Trail;
use live_rules::Live;
use ops_base::endings::Ending;
use ops_base::memory::OutOfMemory;
use ops_base::rules::Rule;
use ops_base::symbols::Names;
use ops_base::values::Sym;
use ops_io::{Out, Sink};
use std::alloc::Global;
use work_store::Matcher;

/// A session between two of its commands, with the last firings, where firings are kept.
#[derive(Drop)]
pub(crate) struct Undoable<M: Matcher> {
    pub(crate) session: Session<M>,
    /// None where no `back` stands among the commands.
    pub(crate) trail: Option<Trail>,
}

/// The trail without its firings.
fn emptied(trail: Option<Trail>) -> Option<Trail>
    ensures { result ≡ option_map (λ t. nothing_kept) trail }
{
    match trail {
        Some(trail) => {
            let mut trail = trail;
            trail.clear();
            Some(trail)
        }
        None => None,
    }
}

/// The trail, without its firings where that is so.
pub(crate) fn emptied_if(is_emptied: bool, trail: Option<Trail>) -> Option<Trail>
    ensures { result ≡ (if is_emptied then option_map (λ t. nothing_kept) trail else trail) }
{
    if is_emptied { emptied(trail) } else { trail }
}

/// A late `p`: adds its production to those in force, in the place of one of its name. No firing before it can be undone.
pub(crate) fn add_late<M: Matcher>(
    alloc: Global,
    live: &mut Live,
    undoable: Undoable<M>,
    rule: Rule,
) -> Result<Undoable<M>, OutOfMemory>
    requires undoable { IsUndoable M.stored M.stands_for live.old.program.rules undoable }
    requires valid { IsTrue (rule_is_valid live.old.program.classes (length live.old.program.text) rule) }
    requires builds { IsTrue (rule_builds_from (length live.old.program.templates) rule) }
    ensures meant { IfOk result (λ u. (n : Spellings) (c : Coming) → meant_with M.stored live.new.program.rules u n c
        ≡ added rule (meant_with M.stored live.old.program.rules undoable n c)) }
    ensures undoable { IfOk result (IsUndoable M.stored M.stands_for live.new.program.rules) }
    ensures named { IfOk result (λ u. (least : ℕ) (n : Spellings) → IsNamedFrom least n undoable.trail → IsNamedFrom least n u.trail) }
    ensures program { OnOk result (IsWith live.new.program.rules live.old.program.commands live.old.program live.new.program) }
{
    let Undoable { session, trail } = undoable;
    let session = add_production(alloc, live, session, rule)?;
    let trail = emptied(trail);
    Ok(Undoable { session, trail })
}

/// The command `excise`. Where it takes a production out, no firing before it can be undone.
pub(crate) fn excise_late<M: Matcher, K: Sink>(
    alloc: Global,
    live: &mut Live,
    names: &Names,
    undoable: Undoable<M>,
    given: &[Sym],
    out: &mut Out,
    sink: &mut K,
) -> Result<Undoable<M>, Ending>
    requires undoable { IsUndoable M.stored M.stands_for live.old.program.rules undoable }
    requires whole { IsTrue out.old.whole }
    requires faults { K.faults sink.old < 2 ^ 63 }
    ensures does { DoesWith M.stored M.stands_for live.old.program.rules live.new.program.rules names.now undoable result
        (port (K.taken sink.old) (K.faults sink.old) out.old)
        (port (K.taken sink.new) (K.faults sink.new) out.new)
        (excised out.old.column given.now) }
    ensures program { OnOk result (IsWith live.new.program.rules live.old.program.commands live.old.program live.new.program) }
{
    let Undoable { session, trail } = undoable;
    let before = live.program.rules.len();
    let session = excise(alloc, live, names, session, given, out, sink)?;
    let is_less = live.program.rules.len() < before;
    let trail = emptied_if(is_less, trail);
    Ok(Undoable { session, trail })
}
