//! A right side whose changes are settled piece by piece, beside the actions that wait for input.
ghost use Rattle.std.specs.Prelude.{◌≡◌, List, ◌<◌, ◌+◌, ◌^◌, [], true, IsTrue, IfOk};
ghost use Rattle.ops_base.specs.declared.rules.Rule.{Rule};
ghost use Rattle.ops_base.specs.WorkingMemory.{Lawful, done, last_after};
ghost use Rattle.ops_meaning.specs.Acting.{acted, actions_done};
ghost use Rattle.act_phase.specs.Deeds.{Does, scene};
ghost use Rattle.act_phase.specs.Excerpts.{IsExcerpt};
ghost use Rattle.act_phase.specs.Outcomes.{acted_of, failure_of, is_read, is_unread, setting_of};
ghost use Rattle.act_phase.specs.State.{doing_of};
ghost use Rattle.work_store.specs.Settling.{IsSettled};
ghost use Rattle.cycle.specs.Settles.{Settles};
ghost use Rattle.feed_engine.specs.Feeding.{GoesOver, IsUpTo};

use crate::beside::{Ground, do_next};
use crate::feed::Feed;
use act_phase::{ActFault, Acting};
use ops_base::elements::Change;
use ops_base::memory::OutOfMemory;
use ops_base::symbols::Names;
use ops_io::{Input, Out, Sink, Source};
use std::thread::Threads;
use work_store::{Matcher, Settled};

/// Executes all actions of a right side, none of which is done yet. Returns the matcher in the middle of its phase, and
/// how many changes it has settled.
pub(crate) fn act_each<
    R: Threads,
    M: Matcher + Send,
    H: Fn(M, &[Change]) -> Result<Settled<M>, OutOfMemory> + Sync,
    I: Source,
    K: Sink,
>(
    ground: &Ground<'_, R, H>,
    matcher: M,
    acting: &mut Acting<'_>,
    names: &mut Names,
    input: &mut Input,
    source: &mut I,
    out: &mut Out,
    sink: &mut K,
) -> Result<(Feed<M>, usize), ActFault>
    requires settles { Settles M.stored M.found M.stands_for (λ m cs. H.pre ground.now.settle.now m cs) (λ m cs r. H.post ground.now.settle.now m cs r) }
    requires none { acting.old.done ≡ 0 }
    requires unchanged { acting.old.state.working.changes ≡ [] }
    requires over { GoesOver (M.stored matcher).elements (M.stored matcher).last acting.old.state }
    requires whole { IsTrue out.old.whole }
    requires writes { K.faults sink.old < 2 ^ 63 }
    requires reads { I.faults source.old < 2 ^ 63 }
    ensures does { Does (λ _ c. doing_of acting.new.state names.new c) failure_of is_read result
        (scene names.old input.old (I.left source.old) (I.faults source.old) (K.taken sink.old) (K.faults sink.old) out.old)
        (scene names.new input.new (I.left source.new) (I.faults source.new) (K.taken sink.new) (K.faults sink.new) out.new)
        (λ c. actions_done acting.old.state.setting out.old.column 1 acting.old.actions (doing_of acting.old.state names.old c)) }
    ensures written { is_unread result ≡ true → out.new.held ≡ [] }
    ensures up_to { IfOk result (λ r. IsUpTo M.stored M.found M.stands_for matcher acting.new.state.working.changes r.1 r.0) }
    ensures over { IfOk result (λ r. GoesOver (M.stored matcher).elements (M.stored matcher).last acting.new.state) }
{
    let actions = acting.left();
    let mut feed = Feed::new(ground.alloc, matcher);
    let mut settled = 0;
    for action in actions {
        let (fed, now) = do_next(
            ground, action, feed, settled, acting, names, input, source, out, sink,
        )?;
        feed = fed;
        settled = now;
    }
    Ok((feed, settled))
}
