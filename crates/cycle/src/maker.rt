//! What makes matchers, and lets them grow: a program that changes while it runs needs that.
ghost use Rattle.std.specs.Prelude.{◌≡◌, ◌<◌, [], List, suc, length, take, IfOk};
ghost use Rattle.ops_base.specs.declared.rules.Rule.{Rule};
ghost use Rattle.ops_base.specs.WorkingMemory.{Lawful, done, last_after};
ghost use Rattle.work_store.specs.Settling.{IsSettled};
ghost use Rattle.cycle.specs.Settles.{Settles};

use ops_base::elements::Change;
use ops_base::memory::OutOfMemory;
use ops_base::programs::Program;
use std::alloc::Global;
use work_store::{Matcher, Settled};

/// Makes matchers for the programs that come into force, and adds productions to them.
pub trait Maker {
    type M: Matcher;

    /// A matcher that implements the program and stores nothing.
    fn make(&self, alloc: Global, program: &Program) -> Result<Self::M, OutOfMemory>
        ensures stands { IfOk result (λ m. Self.M.stands_for m program.now.rules) }
        ensures elements { IfOk result (λ m. (Self.M.stored m).elements ≡ []) }
        ensures last { IfOk result (λ m. (Self.M.stored m).last ≡ 0) };

    /// The matcher of the productions before the one with this number, with that production added to it. It keeps its
    /// working memory. What it finds now and did not find before has come. If memory runs out, the matcher is lost.
    fn grow(
        &self,
        alloc: Global,
        matcher: Self::M,
        program: &Program,
        number: usize,
    ) -> Result<Settled<Self::M>, OutOfMemory>
        requires within { number < length program.now.rules }
        requires before { Self.M.stands_for matcher (take number program.now.rules) }
        ensures stands { IfOk result (λ s. Self.M.stands_for s.matcher (take (suc number) program.now.rules)) }
        ensures elements { IfOk result (λ s. (Self.M.stored s.matcher).elements ≡ (Self.M.stored matcher).elements) }
        ensures last { IfOk result (λ s. (Self.M.stored s.matcher).last ≡ (Self.M.stored matcher).last) }
        ensures settled { IfOk result (λ s. IsSettled (Self.M.found matcher) (Self.M.found s.matcher) s.gone.items s.come.items) };
}

/// A matcher for the program over the working memory that these changes make. It settles once, so everything that it
/// finds is reported as having come.
pub fn made_over<B: Maker, H: Fn(B::M, &[Change]) -> Result<Settled<B::M>, OutOfMemory>>(
    alloc: Global,
    maker: &B,
    hand: &H,
    program: &Program,
    changes: &[Change],
) -> Result<Settled<B::M>, OutOfMemory>
    requires settles { Settles B.M.stored B.M.found B.M.stands_for (λ m cs. H.pre hand.now m cs) (λ m cs r. H.post hand.now m cs r) }
    requires lawful { Lawful [] 0 changes.now }
    ensures elements { IfOk result (λ s. (B.M.stored s.matcher).elements ≡ done [] changes.now) }
    ensures last { IfOk result (λ s. (B.M.stored s.matcher).last ≡ last_after 0 changes.now) }
    ensures stands { IfOk result (λ s. B.M.stands_for s.matcher program.now.rules) }
    ensures settled { IfOk result (λ s. IsSettled [] (B.M.found s.matcher) s.gone.items s.come.items) }
{
    let fresh = maker.make(alloc, program)?;
    // so it has found nothing
    let nothing = fresh.store().len() == 0;
    prove!(nothing);
    hand(fresh, changes)
}
