//! A matcher in the middle of a phase.
ghost use Rattle.std.specs.Prelude.{◌≡◌, ◌≤◌, [], drop, length, IfOk};
ghost use Rattle.ops_base.specs.WorkingMemory.{Lawful};
ghost use Rattle.cycle.specs.Settles.{Settles};
ghost use Rattle.feed_engine.specs.Feeding.{IsFed, IsFurther};

use crate::combining::{Changed, combine};
use ops_base::elements::Change;
use ops_base::memory::OutOfMemory;
use ops_base::rules::Inst;
use std::alloc::Global;
use work_store::{Matcher, Settled};

/// A matcher that has settled the first changes of a phase, with the instantiations that came and those that left since
/// the phase began, each list in the order of rule and tags.
#[derive(Drop)]
pub(crate) struct Feed<M> {
    pub(crate) matcher: M,
    pub(crate) come: Vec<Inst>,
    pub(crate) gone: Vec<Inst>,
}

impl<M: Matcher> Feed<M> {
    /// Nothing is settled yet. Allocates nothing.
    pub(crate) fn new(alloc: Global, matcher: M) -> Feed<M>
        ensures matcher { result.matcher ≡ matcher }
        ensures come { result.come.items ≡ [] }
        ensures gone { result.gone.items ≡ [] }
    {
        Feed {
            matcher,
            come: Vec::new(alloc),
            gone: Vec::new(alloc),
        }
    }

    /// Settles these changes, which come next. Its cost is that of the settle and of `combine`.
    pub(crate) fn settle<H: Fn(M, &[Change]) -> Result<Settled<M>, OutOfMemory>>(
        self,
        alloc: Global,
        settle: &H,
        more: &[Change],
    ) -> Result<Feed<M>, OutOfMemory>
        requires settles { Settles M.stored M.found M.stands_for (λ m cs. H.pre settle.now m cs) (λ m cs r. H.post settle.now m cs r) }
        requires lawful { Lawful (M.stored self.matcher).elements (M.stored self.matcher).last more.now }
        ensures { IfOk result (IsFed M.stored M.found M.stands_for more.now self) }
    {
        let Feed {
            matcher,
            come,
            gone,
        } = self;
        let Settled {
            matcher,
            come: came,
            gone: went,
        } = settle(matcher, more)?;
        let first = Changed { come, gone };
        let second = Changed {
            come: came,
            gone: went,
        };
        let Changed { come, gone } = combine(alloc, first, second)?;
        Ok(Feed {
            matcher,
            come,
            gone,
        })
    }
}

/// Settles those of these changes that are not settled yet: all but the first `settled`.
pub(crate) fn settle_rest<M: Matcher, H: Fn(M, &[Change]) -> Result<Settled<M>, OutOfMemory>>(
    alloc: Global,
    settle: &H,
    feed: Feed<M>,
    settled: usize,
    changes: &[Change],
) -> Result<Feed<M>, OutOfMemory>
    requires settles { Settles M.stored M.found M.stands_for (λ m cs. H.pre settle.now m cs) (λ m cs r. H.post settle.now m cs r) }
    requires within { settled ≤ length changes.now }
    requires lawful { Lawful (M.stored feed.matcher).elements (M.stored feed.matcher).last (drop settled changes.now) }
    ensures { IfOk result (λ r. IsFurther M.stored M.found M.stands_for changes.now settled feed (length changes.now) r) }
{
    if settled == changes.len() {
        return Ok(feed);
    }
    feed.settle(alloc, settle, &changes[settled..])
}
