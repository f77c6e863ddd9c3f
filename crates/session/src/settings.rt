//! The commands that set or print the strategy and the trace level.
ghost use Rattle.std.specs.Prelude.{◌≡◌, ◌^◌, ◌<◌, List, IsTrue};
ghost use Rattle.ops_base.specs.declared.rules.Rule.{Rule};
ghost use Rattle.ops_base.specs.Names.{Spellings};
ghost use Rattle.ops_io.specs.Ports.{port};
ghost use Rattle.ops_meaning.specs.Layout.{strategy_line};
ghost use Rattle.ops_meaning.specs.Running.{level_given, strategy_given};
ghost use Rattle.session.specs.Courses.{IsUnderWay};
ghost use Rattle.session.specs.Deeds.{Does};

use crate::session::Session;
use ops_base::commands::Strategy;
use ops_base::endings::Ending;
use ops_io::{Out, Sink};
use ops_print::{put_line, put_number_line};
use work_store::Matcher;

/// The line that names a strategy.
fn strategy_line(strategy: Strategy) -> &'static [u8]
    ensures { result.now ≡ strategy_line strategy }
{
    match strategy {
        Strategy::Lex => b"strategy lex",
        Strategy::Mea => b"strategy mea",
    }
}

/// The command `strategy`: sets the strategy, or prints it if none is given.
pub(crate) fn give_strategy<M: Matcher, K: Sink>(
    session: Session<M>,
    set: Option<Strategy>,
    out: &mut Out,
    sink: &mut K,
) -> Result<Session<M>, Ending>
    requires whole { IsTrue out.old.whole }
    requires faults { K.faults sink.old < 2 ^ 63 }
    ensures { (rules : List Rule) (names : Spellings) → IsUnderWay M.stored M.stands_for rules session
        → Does M.stored M.stands_for rules names session result
        (port (K.taken sink.old) (K.faults sink.old) out.old)
        (port (K.taken sink.new) (K.faults sink.new) out.new)
        (λ k. strategy_given out.old.column set k) }
{
    let mut session = session;
    match set {
        Some(strategy) => {
            session.state.set_strategy(strategy)?;
            Ok(session)
        }
        None => {
            put_line(out, sink, strategy_line(session.state.index().strategy()))?;
            Ok(session)
        }
    }
}

/// The command `watch`: sets the trace level, or prints it if none is given.
pub(crate) fn give_level<M: Matcher, K: Sink>(
    session: Session<M>,
    set: Option<u8>,
    out: &mut Out,
    sink: &mut K,
) -> Result<Session<M>, Ending>
    requires whole { IsTrue out.old.whole }
    requires faults { K.faults sink.old < 2 ^ 63 }
    ensures { (rules : List Rule) (names : Spellings) → IsUnderWay M.stored M.stands_for rules session
        → Does M.stored M.stands_for rules names session result
        (port (K.taken sink.old) (K.faults sink.old) out.old)
        (port (K.taken sink.new) (K.faults sink.new) out.new)
        (λ k. level_given out.old.column set k) }
{
    let mut session = session;
    match set {
        Some(level) => {
            session.watch = level;
            Ok(session)
        }
        None => {
            put_number_line(out, sink, b"watch ", u64::from(session.watch))?;
            Ok(session)
        }
    }
}
