//! A state of the cycle, its phases and its firings.
ghost use Rattle.std.specs.Prelude.{◌≡◌, ◌↔◌, ◌<◌, ◌+◌, ◌^◌, List, [], true, false, Some, IsSome, IsTrue, All, Contains, MatchOption, OnOk, OnErr, IfOk, IfErr};
ghost use Rattle.std.specs.Option.{option_copied};
ghost use Rattle.ops_base.specs.declared.rules.Inst.{Inst};
ghost use Rattle.ops_base.specs.declared.rules.Rule.{Rule};
ghost use Rattle.ops_base.specs.ConflictSet.{conflict_set};
ghost use Rattle.ops_base.specs.Instances.{IsConflictSet};
ghost use Rattle.ops_base.specs.Names.{Spellings};
ghost use Rattle.ops_base.specs.WorkingMemory.{Lawful, done, last_after, tags_of};
ghost use Rattle.ops_io.specs.Coming.{Coming, inlet};
ghost use Rattle.ops_io.specs.Ports.{port, PutsBytes};
ghost use Rattle.ops_meaning.specs.Acting.{acted};
ghost use Rattle.ops_meaning.specs.Effects.{PerformsOn, CountsReads, failure_as};
ghost use Rattle.ops_meaning.specs.Kept.{AreFilledFrom, KeepsNames, WellKept};
ghost use Rattle.ops_meaning.specs.Layout.{firing_bytes, rule_name};
ghost use Rattle.ops_meaning.specs.Running.{ended_in, firing, next_to_fire, nothing_yet, phase_by};
ghost use Rattle.work_store.specs.Settling.{IsSettled};
ghost use Rattle.act_phase.specs.Asking.{right_side_asks};
ghost use Rattle.act_phase.specs.Held.{HoldsProgram, HoldsElements, HoldsMade, HoldsRules};
ghost use Rattle.act_phase.specs.Outcomes.{acted_of, failure_of, is_unread, setting_of};
ghost use Rattle.conflict_index.specs.Applying.{marked};
ghost use Rattle.conflict_index.specs.Indexed.{insts_of, fired_of, nothing_indexed, waiting, KeepsSpecificities};
ghost use Rattle.conflict_index.specs.Selecting.{IsFirst};
ghost use Rattle.cycle.specs.Settles.{Settles};
ghost use Rattle.cycle.specs.Standing.{AreGone, after_firing, standing, with_inst, without_gone};
ghost use Rattle.cycle.specs.States.{Agree, alone, state_course};

use crate::actor::Actor;
use crate::fired::Fired;
use crate::slot::Slot;
use act_phase::{ActFault, Acted, traces_firings};
use conflict_index::Index;
use ops_base::commands::Strategy;
use ops_base::elements::Change;
use ops_base::list::Listed;
use ops_base::memory::OutOfMemory;
use ops_base::programs::Program;
use ops_base::rules::Inst;
use ops_base::symbols::Names;
use ops_io::{Input, Out, Sink, Source};
use ops_print::put_firing;
use std::alloc::Global;
use std::marker::Model;
use work_store::{Matcher, Settled, Store};

/// A matcher, the conflict set that it has found, with marks on the instantiations that have fired, and the number of
/// firings. The first two are on the heap, so that a state is cheap to move whatever its matcher is.
#[derive(Drop)]
pub struct State<M: Matcher> {
    matcher: Slot<M>,
    index: Box<Index>,
    firings: u64,
}

impl<M: Matcher> Model for State<M> {
    ghost use Rattle.cycle.specs.States.{Held, Agree};

    ghost Value = { Held M };

    ghost view = { λ s. record { matcher = s.matcher; index = s.index.value; firings = s.firings } };

    ghost invariant = { λ s. Agree (M.stored s.matcher) (M.found s.matcher) (M.stands_for s.matcher) s.index.value.members };
}

/// The last tag that was assigned. The call also gives the proof the matcher's invariants.
fn last_of<M: Matcher>(matcher: &Slot<M>) -> u64
    ensures last { result ≡ (M.stored matcher.now).last }
    ensures kept { WellKept (M.stored matcher.now).elements (M.stored matcher.now).last }
    ensures set { (rules : List Rule) → M.stands_for matcher.now rules → IsConflictSet rules (M.stored matcher.now).elements (M.found matcher.now) }
    ensures none { (M.stored matcher.now).elements ≡ [] → M.found matcher.now ≡ [] }
{
    matcher.get().store().last()
}

/// A copy of an instantiation that exists.
fn copy_of(alloc: Global, next: Option<&Inst>) -> Result<Inst, OutOfMemory>
    requires { IsSome next }
    ensures { IfOk result (λ i. option_copied next.entry ≡ Some i) }
{
    match next {
        Some(inst) => inst.copy(alloc),
        None => unreachable!(),
    }
}

/// Puts the trace line for the firing with this number, if firings are traced.
fn put_trace<K: Sink>(
    out: &mut Out,
    sink: &mut K,
    names: &Names,
    program: &Program,
    watch: u8,
    firing: u64,
    inst: &Inst,
) -> Result<(), ActFault>
    requires whole { IsTrue out.old.whole }
    requires faults { K.faults sink.old < 2 ^ 63 }
    ensures puts { PutsBytes result (port (K.taken sink.old) (K.faults sink.old) out.old)
        (port (K.taken sink.new) (K.faults sink.new) out.new)
        (firing_bytes watch out.old.column names.now program.now.rules firing inst.now) }
    ensures refused { IfErr result (λ f. f ≡ ActFault.Write) }
{
    if !traces_firings(watch) {
        return Ok(());
    }
    Ok(put_firing(out, sink, names, program, firing, inst)?)
}

/// Settles a matcher by the closure that the caller passes, and puts it back into its place. After a refusal the place
/// is lost, too.
fn settled_by<M: Matcher, H: Fn(M, &[Change]) -> Result<Settled<M>, OutOfMemory>>(
    hand: &H,
    matcher: Slot<M>,
    changes: &[Change],
) -> Result<Settled<Slot<M>>, OutOfMemory>
    requires settles { Settles M.stored M.found M.stands_for (λ m cs. H.pre hand.now m cs) (λ m cs r. H.post hand.now m cs r) }
    requires lawful { Lawful (M.stored matcher).elements (M.stored matcher).last changes.now }
    ensures elements { IfOk result (λ s. (M.stored s.matcher).elements ≡ done (M.stored matcher).elements changes.now) }
    ensures last { IfOk result (λ s. (M.stored s.matcher).last ≡ last_after (M.stored matcher).last changes.now) }
    ensures settled { IfOk result (λ s. IsSettled (M.found matcher) (M.found s.matcher) s.gone.items s.come.items) }
    ensures stands { IfOk result (λ s. (rules : List Rule) → M.stands_for matcher rules → M.stands_for s.matcher rules) }
{
    let (matcher, place) = matcher.take();
    let Settled {
        matcher,
        come,
        gone,
    } = hand(matcher, changes)?;
    Ok(Settled {
        matcher: place.fill(matcher),
        come,
        gone,
    })
}

/// Executes the right side of an instantiation and its phase by the actor that the caller passes. The matcher is put
/// back into its place. After a refusal the place is lost, too.
fn acted_by<M: Matcher, A: Actor<M, I, K>, I: Source, K: Sink>(
    alloc: Global,
    actor: &A,
    program: &Program,
    names: &mut Names,
    matcher: Slot<M>,
    inst: &Inst,
    watch: u8,
    input: &mut Input,
    source: &mut I,
    out: &mut Out,
    sink: &mut K,
) -> Result<(Acted, Settled<Slot<M>>), ActFault>
    requires able { A.able actor.now }
    requires whole { IsTrue out.old.whole }
    requires faults { K.faults sink.old < 2 ^ 63 }
    requires reads { I.faults source.old < 2 ^ 63 }
    requires tags { (M.stored matcher).last < 2 ^ 63 }
    requires above { All (λ t. 0 < t) (tags_of (M.stored matcher).elements) }
    ensures acts { PerformsOn (λ r c. acted_of r.0 names.new c) failure_of result
        (inlet input.old (I.left source.old) (I.faults source.old)) (inlet input.new (I.left source.new) (I.faults source.new))
        (port (K.taken sink.old) (K.faults sink.old) out.old) (port (K.taken sink.new) (K.faults sink.new) out.new)
        (λ c. acted (setting_of program.now watch) out.old.column inst.now
        (record { wm = (M.stored matcher).elements; last = (M.stored matcher).last; names = names.old; coming = c })) }
    ensures reads { CountsReads (is_unread result) (I.faults source.old) (I.faults source.new) }
    ensures written { is_unread result ≡ true → out.new.held ≡ [] }
    ensures untouched { right_side_asks program.now.rules inst.now.rule ≡ false → (input.new ≡ input.old) × (source.new ≡ source.old) }
    ensures names { KeepsNames names.old names.new }
    ensures held { HoldsProgram names.old program.now → HoldsElements names.old (M.stored matcher).elements
        → HoldsProgram names.new program.now × HoldsElements names.new (M.stored matcher).elements × IfOk result (λ r. HoldsMade names.new r.0.changes × HoldsRules names.new r.0.built) }
    ensures built { IfOk result (λ r. AreFilledFrom program.now.templates r.0.built) }
    ensures lawful { IfOk result (λ r. Lawful (M.stored matcher).elements (M.stored matcher).last r.0.changes) }
    ensures elements { IfOk result (λ r. (M.stored r.1.matcher).elements ≡ done (M.stored matcher).elements r.0.changes) }
    ensures last { IfOk result (λ r. (M.stored r.1.matcher).last ≡ last_after (M.stored matcher).last r.0.changes) }
    ensures settled { IfOk result (λ r. IsSettled (M.found matcher) (M.found r.1.matcher) r.1.gone.items r.1.come.items) }
    ensures stands { IfOk result (λ r. (rules : List Rule) → M.stands_for matcher rules → M.stands_for r.1.matcher rules) }
{
    // reads the matcher to get at its invariants
    let _last = last_of(&matcher);
    let (matcher, place) = matcher.take();
    let (acted, settled) = actor.act(
        alloc, program, names, matcher, inst, watch, input, source, out, sink,
    )?;
    let Settled {
        matcher,
        come,
        gone,
    } = settled;
    let settled = Settled {
        matcher: place.fill(matcher),
        come,
        gone,
    };
    Ok((acted, settled))
}

impl<M: Matcher> State<M> {
    /// Combines these into one state.
    fn of(matcher: Slot<M>, index: Box<Index>, firings: u64) -> State<M>
        requires same { (i : Inst) → Contains (insts_of index.value.members) i ↔ Contains (M.found matcher) i }
        requires above { All (λ t. 0 < t) (tags_of (M.stored matcher).elements) }
        ensures { result ≡ record { matcher = matcher; index = index.value; firings = firings } }
    {
        // reads the two to get at their invariants
        let _last = last_of(&matcher);
        let _strategy = index.strategy();
        State {
            matcher,
            index,
            firings,
        }
    }

    /// Nothing was done yet. Allocates the places of the matcher and of the index.
    pub fn start(alloc: Global, matcher: M) -> Result<State<M>, OutOfMemory>
        requires elements { (M.stored matcher).elements ≡ [] }
        requires last { (M.stored matcher).last ≡ 0 }
        ensures matcher { IfOk result (λ s. s.matcher ≡ matcher) }
        ensures index { IfOk result (λ s. s.index ≡ nothing_indexed) }
        ensures course { IfOk result (λ s. (names : Spellings) (coming : Coming)
            → state_course M.stored s names coming ≡ nothing_yet names coming) }
    {
        // so it has found nothing
        let empty = matcher.store().len() == 0;
        prove!(empty);
        let matcher = Slot::new(alloc, matcher)?;
        let index = Box::new(alloc, Index::new(alloc))?;
        Ok(State::of(matcher, index, 0))
    }

    /// A state with this matcher, whose conflict set is that of the index. Allocates the places of both.
    pub fn adopt(
        alloc: Global,
        matcher: M,
        index: Index,
        firings: u64,
    ) -> Result<State<M>, OutOfMemory>
        requires same { (i : Inst) → Contains (insts_of index.members) i ↔ Contains (M.found matcher) i }
        requires above { All (λ t. 0 < t) (tags_of (M.stored matcher).elements) }
        ensures { IfOk result (λ s. s ≡ record { matcher = matcher; index = index; firings = firings }) }
    {
        let matcher = Slot::new(alloc, matcher)?;
        let index = Box::new(alloc, index)?;
        Ok(State::of(matcher, index, firings))
    }

    /// Working memory.
    pub fn store(&self) -> &Store
        ensures { result.now ≡ M.stored self.now.matcher }
    {
        self.matcher.get().store()
    }

    /// The conflict set, with marks on the instantiations that have fired.
    pub fn index(&self) -> &Index
        ensures index { result.now ≡ self.now.index }
        ensures set { (rules : List Rule) → M.stands_for self.now.matcher rules
            → insts_of self.now.index.members ≡ conflict_set rules (M.stored self.now.matcher).elements }
    {
        self.index.as_ref()
    }

    /// The number of firings so far.
    pub fn firings(&self) -> u64
        ensures { result ≡ self.now.firings }
    {
        self.firings
    }

    /// The last tag that was assigned, or 0 if none was. All greater tags are unused.
    pub fn last_tag(&self) -> u64
        ensures last { result ≡ (M.stored self.now.matcher).last }
        ensures kept { WellKept (M.stored self.now.matcher).elements (M.stored self.now.matcher).last }
        ensures above { All (λ t. 0 < t) (tags_of (M.stored self.now.matcher).elements) }
    {
        last_of(&self.matcher)
    }

    /// The dominant instantiation among those that have not fired. Allocates nothing. Its cost is logarithmic in their
    /// number.
    pub fn next(&self) -> Option<&Inst>
        ensures waiting { MatchOption result (waiting self.now.index.members ≡ [])
            (λ i. Contains (insts_of (waiting self.now.index.members)) i.now) }
        ensures first { MatchOption result (waiting self.now.index.members ≡ [])
            (λ i. IsFirst self.now.index.strategy self.now.index.members i.now) }
        ensures dominant { (rules : List Rule) (names : Spellings) (coming : Coming)
            → M.stands_for self.now.matcher rules → KeepsSpecificities rules self.now.index.members
            → option_copied result ≡ next_to_fire rules (state_course M.stored self.now names coming) }
    {
        self.index.as_ref().select()
    }

    /// Makes changes in their order, as one phase: the matcher settles once, and the index is updated with what came
    /// and went. After a refusal the state is lost.
    pub fn change<H: Fn(M, &[Change]) -> Result<Settled<M>, OutOfMemory>>(
        self,
        hand: &H,
        program: &Program,
        changes: &[Change],
    ) -> Result<State<M>, OutOfMemory>
        requires settles { Settles M.stored M.found M.stands_for (λ m cs. H.pre hand.now m cs) (λ m cs r. H.post hand.now m cs r) }
        requires stands { M.stands_for self.matcher program.now.rules }
        requires specificities { KeepsSpecificities program.now.rules self.index.members }
        requires lawful { Lawful (M.stored self.matcher).elements (M.stored self.matcher).last changes.now }
        ensures course { IfOk result (λ s. (names : Spellings) (coming : Coming) → state_course M.stored s names coming
            ≡ phase_by (conflict_set program.now.rules) changes.now self.firings (last_after (M.stored self.matcher).last changes.now) (state_course M.stored self names coming)) }
        ensures stands { IfOk result (λ s. M.stands_for s.matcher program.now.rules) }
        ensures specificities { IfOk result (λ s. KeepsSpecificities program.now.rules s.index.members) }
    {
        let State {
            matcher,
            index,
            firings,
        } = self;
        let Settled {
            matcher,
            come,
            gone,
        } = settled_by(hand, matcher, changes)?;
        // reads the matcher to get at its invariants
        let _last = last_of(&matcher);
        let mut index = index;
        index
            .as_mut()
            .apply(program, gone.as_slice(), come.as_slice())?;
        Ok(State::of(matcher, index, firings))
    }

    /// Records that this instantiation fires: marks it, and counts one more firing.
    fn mark(&mut self, inst: &Inst)
        requires member { Contains (insts_of self.old.index.members) inst.now }
        requires room { self.old.firings < 2 ^ 63 }
        ensures marked { self.new ≡ record self.old {
          index = record self.old.index { members = marked inst.now self.old.index.members };
          firings = self.old.firings + 1;
        } }
        ensures marks { fired_of self.new.index.members ≡ with_inst inst.now (fired_of self.old.index.members) }
    {
        self.index.as_mut().mark(inst);
        self.firings += 1;
    }

    /// Executes the right side of this instantiation, and its phase. Returns what the right side did, and what was
    /// found before the phase but not after it.
    fn act_out<A: Actor<M, I, K>, I: Source, K: Sink>(
        self,
        alloc: Global,
        actor: &A,
        program: &Program,
        names: &mut Names,
        inst: &Inst,
        watch: u8,
        input: &mut Input,
        source: &mut I,
        out: &mut Out,
        sink: &mut K,
    ) -> Result<(State<M>, Acted, Listed<Inst>), ActFault>
        requires able { A.able actor.now }
        requires stands { M.stands_for self.matcher program.now.rules }
        requires specificities { KeepsSpecificities program.now.rules self.index.members }
        requires whole { IsTrue out.old.whole }
        requires faults { K.faults sink.old < 2 ^ 63 }
        requires reads { I.faults source.old < 2 ^ 63 }
        requires tags { (M.stored self.matcher).last < 2 ^ 63 }
        ensures acts { PerformsOn (λ r c. acted_of r.1 names.new c) failure_of result
            (inlet input.old (I.left source.old) (I.faults source.old)) (inlet input.new (I.left source.new) (I.faults source.new))
            (port (K.taken sink.old) (K.faults sink.old) out.old) (port (K.taken sink.new) (K.faults sink.new) out.new)
            (λ c. acted (setting_of program.now watch) out.old.column inst.now
            (record { wm = (M.stored self.matcher).elements; last = (M.stored self.matcher).last; names = names.old; coming = c })) }
        ensures reads { CountsReads (is_unread result) (I.faults source.old) (I.faults source.new) }
        ensures written { is_unread result ≡ true → out.new.held ≡ [] }
        ensures untouched { right_side_asks program.now.rules inst.now.rule ≡ false → (input.new ≡ input.old) × (source.new ≡ source.old) }
        ensures names { KeepsNames names.old names.new }
        ensures held { HoldsProgram names.old program.now → HoldsElements names.old (M.stored self.matcher).elements
            → HoldsProgram names.new program.now × HoldsElements names.new (M.stored self.matcher).elements × IfOk result (λ r. HoldsMade names.new r.1.changes × HoldsRules names.new r.1.built) }
        ensures built { IfOk result (λ r. AreFilledFrom program.now.templates r.1.built) }
        ensures lawful { IfOk result (λ r. Lawful (M.stored self.matcher).elements (M.stored self.matcher).last r.1.changes) }
        ensures course { IfOk result (λ r. (n : Spellings) (coming : Coming) → state_course M.stored r.0 n coming
            ≡ phase_by (conflict_set program.now.rules) r.1.changes self.firings (last_after (M.stored self.matcher).last r.1.changes) (state_course M.stored self n coming)) }
        ensures marks { IfOk result (λ r. fired_of r.0.index.members ≡ without_gone r.2 (fired_of self.index.members)) }
        ensures gone { IfOk result (λ r. AreGone (M.found self.matcher) (M.found r.0.matcher) r.2) }
        ensures stands { IfOk result (λ r. M.stands_for r.0.matcher program.now.rules) }
        ensures specificities { IfOk result (λ r. KeepsSpecificities program.now.rules r.0.index.members) }
    {
        let State {
            matcher,
            index,
            firings,
        } = self;
        let (acted, settled) = acted_by(
            alloc, actor, program, names, matcher, inst, watch, input, source, out, sink,
        )?;
        let Settled {
            matcher,
            come: came,
            gone: went,
        } = settled;
        // reads the matcher to get at its invariants
        let _last = last_of(&matcher);
        let mut index = index;
        index
            .as_mut()
            .apply(program, went.as_slice(), came.as_slice())?;
        Ok((
            State::of(matcher, index, firings),
            acted,
            Listed::from_vec(went),
        ))
    }

    /// One firing: puts its line if firings are traced, marks the next instantiation, executes its right side, and then
    /// settles once. Returns the state with what fired, whether a `halt` was done in it, its changes, the instantiations
    /// that are no longer found, and the productions that it built, which the program does not have yet. What fires is
    /// looked up in the conflict set, and marked in place. After a refusal the state is lost, and names may have been
    /// added; no contract states how far the input was read.
    pub fn fire<A: Actor<M, I, K>, I: Source, K: Sink>(
        self,
        alloc: Global,
        actor: &A,
        program: &Program,
        names: &mut Names,
        watch: u8,
        input: &mut Input,
        source: &mut I,
        out: &mut Out,
        sink: &mut K,
    ) -> Result<(State<M>, Fired), ActFault>
        requires able { A.able actor.now }
        requires stands { M.stands_for self.matcher program.now.rules }
        requires specificities { KeepsSpecificities program.now.rules self.index.members }
        requires whole { IsTrue out.old.whole }
        requires faults { K.faults sink.old < 2 ^ 63 }
        requires reads { I.faults source.old < 2 ^ 63 }
        requires firings { self.firings < 2 ^ 63 }
        requires tags { (M.stored self.matcher).last < 2 ^ 63 }
        requires next { IsSome (next_to_fire program.now.rules (alone M.stored self)) }
        ensures performs { (i : Inst) → next_to_fire program.now.rules (alone M.stored self) ≡ Some i
            → PerformsOn (λ r c. record { course = state_course M.stored r.0 names.new c; halted = r.1.halted; built = r.1.built })
            (λ f. failure_as (ended_in (self.firings + 1) i.rule (rule_name program.now.rules i.rule)) (failure_of f)) result
            (inlet input.old (I.left source.old) (I.faults source.old))
            (inlet input.new (I.left source.new) (I.faults source.new))
            (port (K.taken sink.old) (K.faults sink.old) out.old)
            (port (K.taken sink.new) (K.faults sink.new) out.new)
            (λ c. firing (setting_of program.now watch) out.old.column i (state_course M.stored self names.old c)) }
        ensures reads { CountsReads (is_unread result) (I.faults source.old) (I.faults source.new) }
        ensures written { is_unread result ≡ true → out.new.held ≡ [] }

        // If its right side has no `accept`, the input is unchanged.
        ensures untouched { (i : Inst) → next_to_fire program.now.rules (alone M.stored self) ≡ Some i
            → right_side_asks program.now.rules i.rule ≡ false → (input.new ≡ input.old) × (source.new ≡ source.old) }
        ensures names { KeepsNames names.old names.new }

        // If the names hold each symbol of the program and of working memory before the call, they still do after it,
        // and they hold each symbol of the new working memory and of the productions that were built.
        ensures held { HoldsProgram names.old program.now → HoldsElements names.old (M.stored self.matcher).elements
            → HoldsProgram names.new program.now × HoldsElements names.new (M.stored self.matcher).elements
            × IfOk result (λ r. HoldsElements names.new (M.stored r.0.matcher).elements × HoldsRules names.new r.1.built) }
        ensures stands { IfOk result (λ r. M.stands_for r.0.matcher program.now.rules) }
        ensures specificities { IfOk result (λ r. KeepsSpecificities program.now.rules r.0.index.members) }

        // Each production that it built is one of the program's templates, with other constants in the place of some.
        ensures built { IfOk result (λ r. AreFilledFrom program.now.templates r.1.built) }

        // What fired was the next instantiation. Its changes can be made in their order to the working memory before
        // it. These changes and `gone` determine the working memory, the marks and the last tag after it. `gone` is what
        // was found before and is not found after it, in order.
        ensures inst { IfOk result (λ r. next_to_fire program.now.rules (alone M.stored self) ≡ Some r.1.inst) }
        ensures lawful { IfOk result (λ r. Lawful (M.stored self.matcher).elements (M.stored self.matcher).last r.1.changes) }
        ensures leaves { IfOk result (λ r. standing M.stored r.0 ≡ after_firing r.1 (standing M.stored self)) }
        ensures gone { IfOk result (λ r. AreGone (M.found self.matcher) (M.found r.0.matcher) r.1.gone) }
    {
        let mut state = self;
        // the caller has already looked for the next instantiation; it is looked up here once more
        let inst = copy_of(alloc, state.next())?;
        let firing = state.firings() + 1;
        put_trace(out, sink, names, program, watch, firing, &inst)?;
        // reads the state to get at its invariants
        let _last = state.last_tag();
        state.mark(&inst);
        let (state, acted, gone) = state.act_out(
            alloc, actor, program, names, &inst, watch, input, source, out, sink,
        )?;
        let fired = Fired {
            inst,
            halted: acted.halted,
            changes: acted.changes,
            gone,
            built: acted.built,
        };
        Ok((state, fired))
    }

    /// The conflict set and its marks stay. The instantiations that have not fired are copied into another order: for n
    /// of them, this costs n log n. If memory runs out, nothing has changed.
    pub fn set_strategy(&mut self, strategy: Strategy) -> Result<(), OutOfMemory>
        ensures ok { OnOk result (self.new ≡ record self.old { index = record self.old.index { strategy = strategy } }) }
        ensures course { OnOk result ((names : Spellings) (coming : Coming) → state_course M.stored self.new names coming
            ≡ record (state_course M.stored self.old names coming) { strategy = strategy }) }
        ensures err { OnErr result (self.new ≡ self.old) }
    {
        self.index.as_mut().set_strategy(strategy)
    }

    /// Its matcher, its index, the number of firings, and the last tag that was assigned. Allocates nothing.
    pub fn apart(self) -> (M, Index, u64, u64)
        ensures matcher { result.0 ≡ self.matcher }
        ensures index { result.1 ≡ self.index }
        ensures firings { result.2 ≡ self.firings }
        ensures last { result.3 ≡ (M.stored self.matcher).last }
        ensures agree { Agree (M.stored self.matcher) (M.found self.matcher) (M.stands_for self.matcher) self.index.members }
    {
        // reads the two to get at their invariants
        let last = last_of(&self.matcher);
        let _strategy = self.index.strategy();
        let State {
            matcher,
            index,
            firings,
        } = self;
        let (matcher, _place) = matcher.take();
        (matcher, Box::into_inner(index), firings, last)
    }
}
