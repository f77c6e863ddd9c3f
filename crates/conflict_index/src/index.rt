//! The index of the conflict set.
ghost use Rattle.std.specs.Prelude.{◌≡◌, ◌≤◌, ℕ, List, [], length, slice_get, MatchOption, OnOk, OnErr, Contains, IfOk};
ghost use Rattle.std.specs.Option.{option_copied};
ghost use Rattle.ops_base.specs.declared.rules.Rule.{Rule};
ghost use Rattle.ops_base.specs.Instances.{IsInOrder, AreOf};
ghost use Rattle.ops_base.specs.Refraction.{dominant, still_fired};
ghost use Rattle.conflict_index.specs.Indexed.{Indexed, nothing_indexed, insts_of, fired_of, waiting, KeepsSpecificities};
ghost use Rattle.conflict_index.specs.Applying.{IsApplied, IsPart, IsApart, marked};
ghost use Rattle.conflict_index.specs.Marks.{members_with};
ghost use Rattle.conflict_index.specs.Selecting.{IsFirst, IsAt};

use crate::marks::{in_order, marked, with_marks};
use crate::order::ByDominance;
use crate::rank::Rank;
use crate::standing::{
    Fired, Waiting, add, is_last, mark_in_place, put, rank_each, ranked_anew, remove_all,
};
use ops_base::commands::Strategy;
use ops_base::memory::OutOfMemory;
use ops_base::programs::Program;
use ops_base::rules::Inst;
use std::alloc::Global;
use std::collections::{BTreeMap, HashMap};
use std::marker::Model;

/// The conflict set. The key of a member is made once, and kept for as long as the member stays.
#[derive(Drop)]
pub struct Index {
    alloc: Global,
    strategy: Strategy,
    waiting: Waiting,
    fired: Fired,
    /// Ranks of members that are gone, kept only for their allocations, which are reused for the next members that go.
    leaving: Vec<Rank>,
}

impl Model for Index {
    ghost use Rattle.std.specs.HashMap.{spare};
    ghost use Rattle.conflict_index.specs.Indexed.{Indexed};
    ghost use Rattle.conflict_index.specs.Keeping.{members_of, IsKept};

    ghost Value = { Indexed };

    ghost view = { λ x. record { strategy = x.strategy; members = members_of x.waiting.entries x.fired.entries } };

    ghost invariant = { λ x. IsKept x.strategy x.waiting.entries x.fired.entries (spare x.fired) };
}

impl Index {
    /// No members, under LEX. Allocates nothing.
    pub fn new(alloc: Global) -> Index
        ensures { result ≡ nothing_indexed }
    {
        Index {
            alloc,
            strategy: Strategy::Lex,
            waiting: BTreeMap::new(alloc),
            fired: HashMap::new(alloc),
            leaving: Vec::new(alloc),
        }
    }

    pub fn strategy(&self) -> Strategy
        ensures strategy { result ≡ self.now.strategy }
        ensures in_order { IsInOrder (insts_of self.now.members) }
    {
        self.strategy
    }

    /// Removes the instantiations that are gone, with their marks, and adds those that come. If memory runs out,
    /// nothing has changed.
    ///
    /// Its cost depends on what goes and what comes, not on what stays. For each of them a key is made, which copies
    /// the tags twice and sorts one of the copies. For each that comes, the key allocates once, and the tags are copied
    /// once more. For those that go, the keys allocate only if more go at once, or with more tags, than before. An
    /// instantiation that goes is looked up by a hash. If it has not fired, it is then looked up by comparisons, as is
    /// the place of each that comes; the number of comparisons is logarithmic in the number of members. A comparison
    /// needs only one number if the tags that the strategy compares first differ. It scans the existing members only to
    /// make room for more marks, or if memory runs out while members are added.
    pub fn apply(
        &mut self,
        program: &Program,
        gone: &[Inst],
        come: &[Inst],
    ) -> Result<(), OutOfMemory>
        requires members { AreOf program.now.rules (insts_of self.old.members) }
        requires gone { AreOf program.now.rules gone.now }
        requires come { AreOf program.now.rules come.now }
        requires specificities { KeepsSpecificities program.now.rules self.old.members }
        requires part { IsPart gone.now (insts_of self.old.members) }
        requires apart { IsApart come.now (insts_of self.old.members) }
        requires gone_in_order { IsInOrder gone.now }
        requires come_in_order { IsInOrder come.now }
        ensures ok { OnOk result (IsApplied program.now.rules gone.now come.now self.old self.new) }
        ensures kept { OnOk result (KeepsSpecificities program.now.rules self.new.members) }
        ensures err { OnErr result (self.new ≡ self.old) }
    {
        rank_each(&mut self.leaving, self.alloc, self.strategy, program, gone)?;
        self.fired.reserve(self.waiting.len() + come.len())?;
        add(self.alloc, self.strategy, program, &mut self.waiting, come)?;
        let leaving = &self.leaving.as_slice()[..gone.len()];
        remove_all(&mut self.waiting, &mut self.fired, leaving);
        Ok(())
    }

    /// Marks a member as fired. Allocates nothing. If it is the one that `select` returns, and no member was marked
    /// while it was not the dominant one, the number of comparisons does not grow with the number of members. Otherwise
    /// it is searched for among those that have not fired, by comparing production and tags with each, the dominant one
    /// last.
    pub fn mark(&mut self, inst: &Inst)
        requires { Contains (insts_of self.old.members) inst.now }
        ensures { self.new ≡ record self.old { members = marked inst.now self.old.members } }
    {
        if !is_last(&self.waiting, inst) {
            mark_in_place(&mut self.waiting, inst);
            return;
        }
        if let Some((rank, held)) = self.waiting.pop_last() {
            put(&mut self.fired, rank.key, held.inst);
        }
    }

    /// Makes another strategy decide what `select` and `nth` return from now on. Members and marks stay as they are.
    /// Those that have not fired are copied with their keys into a new order: for n of them, this costs n log n. If
    /// memory runs out, nothing has changed.
    pub fn set_strategy(&mut self, strategy: Strategy) -> Result<(), OutOfMemory>
        ensures ok { OnOk result (self.new ≡ record self.old { strategy = strategy }) }
        ensures err { OnErr result (self.new ≡ self.old) }
    {
        self.waiting = ranked_anew(self.alloc, strategy, &self.waiting)?;
        self.strategy = strategy;
        Ok(())
    }

    /// Copies of the marked instantiations, in the order of production and tags. Scans all members, and sorts the
    /// marked ones.
    pub fn marks(&self, alloc: Global) -> Result<Vec<Inst>, OutOfMemory>
        ensures marks { IfOk result (λ v. v.items ≡ fired_of self.now.members) }
        ensures in_order { IfOk result (λ v. IsInOrder v.items) }
    {
        Ok(in_order(marked(alloc, &self.waiting, &self.fired)?))
    }

    /// The index of these instantiations, in which those that are among the marks are marked. A mark that is not among
    /// the instantiations is ignored. Both lists are in the order of production and tags. The cost is that of `apply`
    /// for instantiations that come, plus one look at each mark.
    pub fn with_marks(
        alloc: Global,
        strategy: Strategy,
        program: &Program,
        come: &[Inst],
        marks: &[Inst],
    ) -> Result<Index, OutOfMemory>
        requires come { AreOf program.now.rules come.now }
        requires come_in_order { IsInOrder come.now }
        requires marks_in_order { IsInOrder marks.now }
        ensures strategy { IfOk result (λ x. x.strategy ≡ strategy) }
        ensures members { IfOk result (λ x. x.members ≡ members_with program.now.rules marks.now come.now) }
        ensures insts { IfOk result (λ x. insts_of x.members ≡ come.now) }
        ensures kept { IfOk result (λ x. KeepsSpecificities program.now.rules x.members) }
        ensures marks { IfOk result (λ x. fired_of x.members ≡ still_fired come.now marks.now) }
    {
        let (waiting, fired) = with_marks(alloc, strategy, program, come, marks)?;
        Ok(Index {
            alloc,
            strategy,
            waiting,
            fired,
            leaving: Vec::new(alloc),
        })
    }

    /// The dominant instantiation among those that have not fired. Allocates nothing. The time is logarithmic in their
    /// number, plus one step for each instantiation above it that was marked while another dominated it.
    pub fn select(&self) -> Option<&Inst>
        ensures first { MatchOption result (waiting self.now.members ≡ [])
            (λ i. IsFirst self.now.strategy self.now.members i.now) }
        ensures dominant { (rules : List Rule) → KeepsSpecificities rules self.now.members
            → option_copied result ≡ dominant self.now.strategy rules (insts_of (waiting self.now.members)) }
    {
        self.by_dominance().next()
    }

    /// The instantiations that have not fired, the dominant one first: `nth` returns the one at each place. Allocates
    /// nothing. Iterating over all of them takes time in proportion to their number.
    pub fn by_dominance(&self) -> ByDominance<'_>
        ensures places { (place : ℕ) → MatchOption (slice_get result place) (length (waiting self.now.members) ≤ place)
            (λ i. IsAt self.now.strategy self.now.members place i) }
        ensures in_order { IsInOrder (insts_of self.now.members) }
    {
        ByDominance {
            held: self.waiting.values(),
        }
    }

    /// The instantiation at that place, from 0, in the order of dominance of those that have not fired. Allocates
    /// nothing. It steps there from the dominant one, so use `by_dominance` to see all of them.
    pub fn nth(&self, i: usize) -> Option<&Inst>
        ensures { MatchOption result (length (waiting self.now.members) ≤ i)
            (λ j. IsAt self.now.strategy self.now.members i j.now) }
    {
        self.by_dominance().nth(i)
    }
}
