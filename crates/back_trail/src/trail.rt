//! `Trail`, the last firings, each of which can be undone.
ghost use Rattle.std.specs.Prelude.{◌≡◌, ◌≤◌, ◌<◌, ◌-◌, Some, length, slice_get, IsOk, IsSome, IfOk, OnOk, OnErr};
ghost use Rattle.ops_base.specs.Names.{Spellings};
ghost use Rattle.ops_base.specs.WorkingMemory.{Lawful};
ghost use Rattle.ops_io.specs.Coming.{Coming};
ghost use Rattle.conflict_index.specs.Indexed.{KeepsSpecificities};
ghost use Rattle.cycle.specs.Settles.{Settles};
ghost use Rattle.cycle.specs.Standing.{Standing, standing};
ghost use Rattle.cycle.specs.States.{state_course};
ghost use Rattle.back_trail.specs.Trails.{AreMarkedIn, AreNamedBy, Earlier, gone_back, names_at, nothing_kept, taken_back, with_firing};

use crate::kept::Kept;
use crate::oldest::Oldest;
use crate::steps::Step;
use cycle::{Fired, Maker, State};
use ops_base::elements::Change;
use ops_base::memory::OutOfMemory;
use ops_base::programs::Program;
use ops_base::symbols::{Names, Point};
use std::alloc::Global;
use std::marker::Model;
use work_store::{Matcher, Settled};

/// The last firings, 32 at most. It keeps one state whole, the oldest, and of each firing since what it changed. All of
/// that stands on the heap, so to move a trail costs little.
#[derive(Drop)]
pub struct Trail {
    alloc: Global,
    kept: Option<Box<Kept>>,
}

impl Model for Trail {
    ghost use Rattle.std.specs.Prelude.{option_map};
    ghost use Rattle.back_trail.specs.Trails.{Trailed, trail_of};

    ghost Value = { Trailed };

    ghost view = { λ t. trail_of (option_map (λ b. b.value) t.kept) };
}

impl Trail {
    /// Nothing is kept. Takes no memory.
    pub fn new(alloc: Global) -> Trail
        ensures { result ≡ nothing_kept }
    {
        Trail { alloc, kept: None }
    }

    /// Nothing is kept any more. Takes no memory. It is what every change calls for that is no firing, and a firing that
    /// built a production.
    pub fn clear(&mut self)
        ensures { self.new ≡ nothing_kept }
    {
        self.kept = None;
    }

    /// How many firings can be undone.
    pub fn len(&self) -> usize
        ensures { result ≡ length self.now.states }
    {
        match &self.kept {
            Some(kept) => kept.len(),
            None => 0,
        }
    }

    /// Before a firing in this state. Its elements and marks are copied only if no state is known yet. If memory runs
    /// out, nothing has changed.
    pub fn begin<M: Matcher>(&mut self, state: &State<M>) -> Result<(), OutOfMemory>
        requires { (s : Standing) → self.old.now ≡ Some s → s ≡ standing M.stored state.now }
        ensures ok { OnOk result (self.new ≡ record self.old { now = Some (standing M.stored state.now) }) }
        ensures err { OnErr result (self.new ≡ self.old) }
        ensures known { IsSome self.old.now → IsOk result }
    {
        if self.kept.is_none() {
            let oldest = Oldest::copy_of(self.alloc, state)?;
            self.kept = Some(Box::new(self.alloc, Kept::new(self.alloc, oldest))?);
        }
        Ok(())
    }

    /// A firing was made in the state that is known, with the names at this point. Of 33 firings the first can't be undone
    /// any more. It costs what the firing changed, and as much once more for the one that is given up. If memory runs
    /// out, nothing has changed.
    pub fn push(&mut self, point: Point, fired: Fired) -> Result<(), OutOfMemory>
        requires known { IsSome self.old.now }
        requires lawful { (s : Standing) → self.old.now ≡ Some s → Lawful s.wm s.last fired.changes }
        ensures ok { OnOk result ((s : Standing) → self.old.now ≡ Some s → self.new ≡ with_firing s point fired self.old) }
        ensures err { OnErr result (self.new ≡ self.old) }
    {
        match self.kept.as_mut() {
            Some(kept) => kept.push(self.alloc, Step { point, fired }),
            None => unreachable!(),
        }
    }

    /// Undoes the last n firings: the answer is the state before the earliest of them, and the names are those of then.
    /// It costs the compilation of the program and one phase in which all elements come. The matcher of the state is gone
    /// before the new one is made. If memory runs out, the state is gone, and the trail and the names are as before.
    pub fn back<B: Maker, H: Fn(B::M, &[Change]) -> Result<Settled<B::M>, OutOfMemory>>(
        &mut self,
        maker: &B,
        hand: &H,
        state: State<B::M>,
        program: &Program,
        names: &mut Names,
        n: usize,
    ) -> Result<State<B::M>, OutOfMemory>
        requires settles { Settles B.M.stored B.M.found B.M.stands_for (λ m cs. H.pre hand.now m cs) (λ m cs r. H.post hand.now m cs r) }
        requires some { 0 < n }
        requires within { n ≤ length self.old.states }
        requires named { AreNamedBy names.old self.old.states }
        requires marked { AreMarkedIn program.now.rules self.old.states }
        ensures course { IfOk result (λ s. (e : Earlier) → slice_get self.old.states (length self.old.states - n) ≡ Some e
            → (spelled : Spellings) (coming : Coming) → state_course B.M.stored s spelled coming ≡ gone_back e (state_course B.M.stored state spelled coming)) }
        ensures names { OnOk result ((e : Earlier) → slice_get self.old.states (length self.old.states - n) ≡ Some e → names.new ≡ names_at e.point names.old) }
        ensures trail { OnOk result ((e : Earlier) → slice_get self.old.states (length self.old.states - n) ≡ Some e → self.new ≡ taken_back n e self.old) }
        ensures stands { IfOk result (λ s. B.M.stands_for s.matcher program.now.rules) }
        ensures specificities { IfOk result (λ s. KeepsSpecificities program.now.rules s.index.members) }
        ensures kept { OnErr result ((self.new ≡ self.old) × (names.new ≡ names.old)) }
    {
        let strategy = state.index().strategy();
        let firings = state.firings();
        drop(state);
        let Some(kept) = self.kept.as_mut() else {
            unreachable!()
        };
        let point = kept.point(n);
        let remade = kept.remade(self.alloc, program.classes.len(), n)?;
        let state = remade.into_state(self.alloc, maker, hand, program, strategy, firings)?;
        names.back_to(&point);
        kept.cut(n);
        Ok(state)
    }
}
