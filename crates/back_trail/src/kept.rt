//! What a trail keeps once it has begun: the oldest state, and the firings since.
ghost use Rattle.std.specs.Prelude.{◌≡◌, ◌≤◌, ◌<◌, ◌-◌, ◌∷◌, ◌++◌, [], Some, None, length, slice_get, take, IfOk, OnOk, OnErr};
ghost use Rattle.ops_base.specs.WorkingMemory.{Lawful};
ghost use Rattle.cycle.specs.Standing.{Standing, after_firing, standing};
ghost use Rattle.back_trail.specs.Kept.{AreLawful, IsLateLawful, IsOver, after_late, after_steps, cut_to, given_up, late_of, left_of, one_more, with_first};
ghost use Rattle.back_trail.specs.Trails.{Earlier};

use crate::oldest::Oldest;
use crate::remade::Remade;
use crate::steps::{Late, Step};
use cycle::Fired;
use ops_base::elements::Change;
use ops_base::memory::OutOfMemory;
use ops_base::symbols::Point;
use std::alloc::Global;
use std::collections::VecDeque;
use std::marker::Model;

/// How many firings can be undone.
pub(crate) const MOST: usize = 32;

/// The oldest state; the firing that leads from it to the first state that can be gone back to, if it is not that one;
/// and the firings from there on.
#[derive(Drop)]
pub(crate) struct Kept {
    oldest: Oldest,
    late: Option<Late>,
    steps: VecDeque<Step>,
}

impl Model for Kept {
    ghost use Rattle.back_trail.specs.Trails.{Begun};
    ghost use Rattle.back_trail.specs.Kept.{IsTrail, begun, late_of};

    ghost Value = { Begun };

    ghost view = { λ k. begun k.oldest (late_of k.late) k.steps.items };

    ghost invariant = { λ k. IsTrail k.oldest (late_of k.late) k.steps.items };
}

/// Does the changes that are left of a firing to the oldest state. If memory runs out, those before the one that failed
/// are done.
fn do_changes(alloc: Global, oldest: &mut Oldest, late: &mut Late) -> Result<(), OutOfMemory>
    requires { Lawful oldest.old.wm oldest.old.last (left_of late.old).changes }
    ensures left { OnOk result ((left_of late.new).changes ≡ []) }
    ensures lawful { Lawful oldest.new.wm oldest.new.last (left_of late.new).changes }
    ensures same { after_firing (left_of late.new) oldest.new ≡ after_firing (left_of late.old) oldest.old }
{
    while late.did < late.fired.changes.len() {
        oldest.make(alloc, &late.fired.changes.as_slice()[late.did])?;
        late.did += 1;
    }
    Ok(())
}

/// Does to the oldest state what is left of the firing from it. If memory runs out, less of it may be left.
fn catch_up(alloc: Global, oldest: &mut Oldest, late: &mut Option<Late>) -> Result<(), OutOfMemory>
    requires { IsLateLawful oldest.old (late_of late.old) }
    ensures none { OnOk result (late.new ≡ None) }
    ensures lawful { IsLateLawful oldest.new (late_of late.new) }
    ensures same { after_late (late_of late.new) oldest.new ≡ after_late (late_of late.old) oldest.old }
{
    let Some(firing) = late.as_mut() else {
        return Ok(());
    };
    do_changes(alloc, oldest, firing)?;
    oldest.mark(alloc, &firing.fired.inst, firing.fired.gone.as_slice())?;
    if let Some(firing) = late.take() {
        oldest.forget(firing.fired.gone.into_vec());
    }
    Ok(())
}

/// Adds a firing at the end. Of 33 the first is taken off.
fn add_step(steps: &mut VecDeque<Step>, step: Step) -> Result<Option<Step>, OutOfMemory>
    requires { length steps.old.items ≤ 32 }
    ensures few { length steps.new.items ≤ 32 }
    ensures ok { IfOk result (λ first. with_first first steps.new.items ≡ steps.old.items ++ step ∷ []) }
    ensures first { IfOk result (λ first. IsOver first (length steps.old.items)) }
    ensures err { OnErr result (steps.new.items ≡ steps.old.items) }
{
    steps.push_back(step)?;
    if steps.len() <= MOST {
        return Ok(None);
    }
    Ok(steps.pop_front())
}

/// What was taken off is left to do to the oldest state.
fn late_from(first: Option<Step>) -> Option<Late>
    ensures { late_of result ≡ given_up first }
{
    let Step { point: _, fired } = first?;
    Some(Late { fired, did: 0 })
}

/// The changes of a firing that are left to do.
fn left_changes(late: &Late) -> &[Change]
    ensures { result.now ≡ (left_of late.now).changes }
{
    let changes = late.fired.changes.as_slice();
    if late.did < changes.len() {
        &changes[late.did..]
    } else {
        &[]
    }
}

/// The state after a firing that may be left to do.
fn after_late(alloc: Global, oldest: Remade, late: &Option<Late>) -> Result<Remade, OutOfMemory>
    requires { IsLateLawful oldest (late_of late.now) }
    ensures { IfOk result (λ r. r ≡ after_late (late_of late.now) oldest) }
{
    match late {
        Some(late) => {
            let gone = late.fired.gone.as_slice();
            oldest.follow(alloc, &late.fired.inst, left_changes(late), gone)
        }
        None => Ok(oldest),
    }
}

/// The state after the first `count` of these firings.
fn after_first(
    alloc: Global,
    first: Remade,
    steps: &VecDeque<Step>,
    count: usize,
) -> Result<Remade, OutOfMemory>
    requires within { count ≤ length steps.now.items }
    requires lawful { AreLawful first (take count steps.now.items) }
    ensures { IfOk result (λ r. r ≡ after_steps first (take count steps.now.items)) }
{
    let mut remade = first;
    for i in 0..count {
        let fired = &steps[i].fired;
        remade = remade.follow(
            alloc,
            &fired.inst,
            fired.changes.as_slice(),
            fired.gone.as_slice(),
        )?;
    }
    Ok(remade)
}

impl Kept {
    /// No firings yet after a state.
    pub(crate) fn new(alloc: Global, oldest: Oldest) -> Kept
        ensures { result ≡ record { states = []; now = oldest } }
    {
        Kept {
            oldest,
            late: None,
            steps: VecDeque::new(alloc),
        }
    }

    pub(crate) fn len(&self) -> usize
        ensures { result ≡ length self.now.states }
    {
        self.steps.len()
    }

    /// One firing more. If memory runs out, nothing has changed.
    pub(crate) fn push(&mut self, alloc: Global, step: Step) -> Result<(), OutOfMemory>
        requires { Lawful self.old.now.wm self.old.now.last step.fired.changes }
        ensures ok { OnOk result (self.new ≡ one_more step self.old) }
        ensures err { OnErr result (self.new ≡ self.old) }
    {
        catch_up(alloc, &mut self.oldest, &mut self.late)?;
        self.late = late_from(add_step(&mut self.steps, step)?);
        Ok(())
    }

    /// Where the names stood in the earliest of the last n states.
    pub(crate) fn point(&self, n: usize) -> Point
        requires some { 0 < n }
        requires within { n ≤ length self.now.states }
        ensures { (e : Earlier) → slice_get self.now.states (length self.now.states - n) ≡ Some e → result ≡ e.point }
    {
        self.steps[self.steps.len() - n].point
    }

    /// The earliest of the last n states, made anew. It copies the oldest state and the firings since.
    pub(crate) fn remade(
        &self,
        alloc: Global,
        classes: usize,
        n: usize,
    ) -> Result<Remade, OutOfMemory>
        requires some { 0 < n }
        requires within { n ≤ length self.now.states }
        ensures { IfOk result (λ r. (e : Earlier) → slice_get self.now.states (length self.now.states - n) ≡ Some e → r ≡ e.standing) }
    {
        let oldest = Remade::of(alloc, &self.oldest, classes)?;
        let first = after_late(alloc, oldest, &self.late)?;
        let before = self.steps.len() - n;
        after_first(alloc, first, &self.steps, before)
    }

    /// The last n states are taken off. Takes no memory.
    pub(crate) fn cut(&mut self, n: usize)
        requires some { 0 < n }
        requires within { n ≤ length self.old.states }
        ensures { (e : Earlier) → slice_get self.old.states (length self.old.states - n) ≡ Some e → self.new ≡ cut_to n e self.old }
    {
        let left = self.steps.len() - n;
        self.steps.truncate(left);
    }
}
