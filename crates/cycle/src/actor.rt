//! Executes the right side of an instantiation and settles a matcher by its changes, either one after the other or both
//! at the same time.
ghost use Rattle.std.specs.Prelude.{◌≡◌, ◌<◌, ◌^◌, [], List, All, true, false, IsTrue, IfOk};
ghost use Rattle.ops_base.specs.declared.rules.Rule.{Rule};
ghost use Rattle.ops_base.specs.WorkingMemory.{Lawful, done, last_after, tags_of};
ghost use Rattle.ops_io.specs.Coming.{inlet};
ghost use Rattle.ops_io.specs.Ports.{port};
ghost use Rattle.ops_meaning.specs.Acting.{acted};
ghost use Rattle.ops_meaning.specs.Effects.{PerformsOn, CountsReads};
ghost use Rattle.ops_meaning.specs.Kept.{AreFilledFrom, KeepsNames, WellKept};
ghost use Rattle.act_phase.specs.Asking.{right_side_asks};
ghost use Rattle.act_phase.specs.Held.{HoldsProgram, HoldsElements, HoldsMade, HoldsRules};
ghost use Rattle.act_phase.specs.Outcomes.{acted_of, failure_of, is_unread, setting_of};
ghost use Rattle.work_store.specs.Settling.{IsSettled};
ghost use Rattle.cycle.specs.Settles.{Settles};

use act_phase::{ActFault, Acted, act};
use ops_base::elements::Change;
use ops_base::memory::OutOfMemory;
use ops_base::programs::Program;
use ops_base::rules::Inst;
use ops_base::symbols::Names;
use ops_io::{Input, Out, Sink, Source};
use std::alloc::Global;
use std::marker::PhantomData;
use work_store::{Matcher, Settled};

/// Executes right sides, and settles matchers by their changes. It is a trait so that a session borrows the way to do
/// this, and knows of no thread that an impl may start.
pub trait Actor<M: Matcher, I: Source, K: Sink> {
    /// It may be asked to execute a right side.
    ghost able: { Self → Type 0 };

    /// Executes the right side of an instantiation over the elements that the matcher stores, as `act_phase::act` does,
    /// and settles the matcher by its changes. The changes are one phase: what came and what went is returned for the
    /// phase as a whole. After a refusal the matcher is lost.
    fn act(
        &self,
        alloc: Global,
        program: &Program,
        names: &mut Names,
        matcher: M,
        inst: &Inst,
        watch: u8,
        input: &mut Input,
        source: &mut I,
        out: &mut Out,
        sink: &mut K,
    ) -> Result<(Acted, Settled<M>), ActFault>
        requires able { able self.now }
        requires whole { IsTrue out.old.whole }
        requires faults { K.faults sink.old < 2 ^ 63 }
        requires reads { I.faults source.old < 2 ^ 63 }
        requires tags { (M.stored matcher).last < 2 ^ 63 }
        requires kept { WellKept (M.stored matcher).elements (M.stored matcher).last }
        requires above { All (λ t. 0 < t) (tags_of (M.stored matcher).elements) }
        ensures acts { PerformsOn (λ r c. acted_of r.0 names.new c) failure_of result
            (inlet input.old (I.left source.old) (I.faults source.old)) (inlet input.new (I.left source.new) (I.faults source.new))
            (port (K.taken sink.old) (K.faults sink.old) out.old) (port (K.taken sink.new) (K.faults sink.new) out.new)
            (λ c. acted (setting_of program.now watch) out.old.column inst.now
            (record { wm = (M.stored matcher).elements; last = (M.stored matcher).last; names = names.old; coming = c })) }
        ensures reads { CountsReads (is_unread result) (I.faults source.old) (I.faults source.new) }
        ensures written { is_unread result ≡ true → out.new.held ≡ [] }
        ensures untouched { right_side_asks program.now.rules inst.now.rule ≡ false → (input.new ≡ input.old) × (source.new ≡ source.old) }
        ensures names { KeepsNames names.old names.new }
        ensures held { HoldsProgram names.old program.now → HoldsElements names.old (M.stored matcher).elements
            → HoldsProgram names.new program.now × HoldsElements names.new (M.stored matcher).elements × IfOk result (λ r. HoldsMade names.new r.0.changes × HoldsRules names.new r.0.built) }
        ensures built { IfOk result (λ r. AreFilledFrom program.now.templates r.0.built) }
        ensures lawful { IfOk result (λ r. Lawful (M.stored matcher).elements (M.stored matcher).last r.0.changes) }
        ensures elements { IfOk result (λ r. (M.stored r.1.matcher).elements ≡ done (M.stored matcher).elements r.0.changes) }
        ensures last { IfOk result (λ r. (M.stored r.1.matcher).last ≡ last_after (M.stored matcher).last r.0.changes) }
        ensures settled { IfOk result (λ r. IsSettled (M.found matcher) (M.found r.1.matcher) r.1.gone.items r.1.come.items) }
        ensures stands { IfOk result (λ r. (rules : List Rule) → M.stands_for matcher rules → M.stands_for r.1.matcher rules) };
}

/// Executes the right side, and settles the matcher once after it.
#[derive(Drop)]
pub struct InTurn<'a, M, H> {
    settle: &'a H,
    matchers: PhantomData<M>,
}

impl<'a, M: Matcher, H: Fn(M, &[Change]) -> Result<Settled<M>, OutOfMemory>> InTurn<'a, M, H> {
    /// `settle` settles the matcher.
    pub fn new(settle: &'a H) -> InTurn<'a, M, H>
        ensures { result.settle.now ≡ settle.now }
    {
        InTurn {
            settle,
            matchers: PhantomData,
        }
    }
}

impl<
    'a,
    M: Matcher,
    H: Fn(M, &[Change]) -> Result<Settled<M>, OutOfMemory>,
    I: Source,
    K: Sink,
> Actor<M, I, K> for InTurn<'a, M, H> {
    ghost able = { λ f. Settles M.stored M.found M.stands_for (λ m cs. H.pre f.settle.now m cs) (λ m cs r. H.post f.settle.now m cs r) };

    fn act(
        &self,
        alloc: Global,
        program: &Program,
        names: &mut Names,
        matcher: M,
        inst: &Inst,
        watch: u8,
        input: &mut Input,
        source: &mut I,
        out: &mut Out,
        sink: &mut K,
    ) -> Result<(Acted, Settled<M>), ActFault> {
        let tag = matcher.store().last() + 1;
        let acted = act(
            alloc,
            program,
            names,
            matcher.store(),
            inst,
            tag,
            watch,
            input,
            source,
            out,
            sink,
        )?;
        let settled = (self.settle)(matcher, acted.changes.as_slice())?;
        Ok((acted, settled))
    }
}
