//! The two maps of an index: members in the order of dominance, and those that have fired by their keys.
ghost use Rattle.std.specs.Prelude.{◌≡◌, ◌≢◌, ◌+◌, ◌<◌, ◌≤◌, ◌++◌, ◌∷◌, [], List, IsTrue, map, filter, take, length, not, IfOk, OnOk, OnErr, Contains, None, ◌⊎◌};
ghost use Rattle.std.specs.HashMap.{spare, get};
ghost use Rattle.std.specs.List.Sorted.{IsStrictlySortedBy};
ghost use Rattle.std.specs.List.{IsDistinct};
ghost use Rattle.std.specs.Map.{keys_of};
ghost use Rattle.ops_base.specs.Instances.{AreOf};
ghost use Rattle.ops_base.specs.Refraction.{is_among, is_same_inst};
ghost use Rattle.resolution.specs.Keys.{Key, same_keys};
ghost use Rattle.conflict_index.specs.Keeping.{rank_in, arrival, ranked_anew, AreToldApart, Gains, Loses, HasSame, marked_held};
ghost use Rattle.conflict_index.specs.Rank.{Rank};
ghost use Rattle.conflict_index.specs.declared.rank.Held.{Held};
ghost use Rattle.ops_base.specs.declared.rules.Inst.{Inst};
ghost use Rattle.conflict_index.specs.Ranking.{compare_ranks};

use crate::rank::{Held, Rank};
use ops_base::commands::Strategy;
use ops_base::memory::OutOfMemory;
use ops_base::programs::Program;
use ops_base::rules::Inst;
use resolution::{Key, key};
use std::alloc::Global;
use std::collections::{BTreeMap, HashMap};

/// The members that did not fire while they were dominant, the dominant one last.
pub(crate) type Waiting = BTreeMap<Rank, Held>;

/// Those that fired when they were dominant.
pub(crate) type Fired = HashMap<Key, Inst>;

fn is_same(i: &Inst, j: &Inst) -> bool
    ensures { result ≡ is_same_inst i.now j.now }
{
    i.rule == j.rule && i.tags.as_slice() == j.tags.as_slice()
}

fn is_among(insts: &[Inst], inst: &Inst) -> bool
    ensures { result ≡ is_among insts.now inst.now }
{
    insts.iter().any(|other| is_same(inst, other))
}

pub(crate) fn rank_of(
    alloc: Global,
    strategy: Strategy,
    program: &Program,
    inst: &Inst,
) -> Result<Rank, OutOfMemory>
    requires { inst.now.rule < length program.now.rules }
    ensures { IfOk result (λ r. r ≡ rank_in strategy program.now.rules inst.now) }
{
    let key = key(alloc, program, inst)?;
    Ok(Rank::new(strategy, key))
}

/// Sets the rank at this place to that of an instantiation, or adds it at the end.
fn set_rank(
    ranks: &mut Vec<Rank>,
    at: usize,
    alloc: Global,
    strategy: Strategy,
    program: &Program,
    inst: &Inst,
) -> Result<(), OutOfMemory>
    requires rule { inst.now.rule < length program.now.rules }
    requires place { at ≤ length ranks.old.items }
    ensures ok { OnOk result (take (at + 1) ranks.new.items
        ≡ take at ranks.old.items ++ rank_in strategy program.now.rules inst.now ∷ []) }
    ensures there { OnOk result (at < length ranks.new.items) }
{
    if at < ranks.len() {
        ranks[at].become_of(strategy, program, inst)
    } else {
        let rank = rank_of(alloc, strategy, program, inst)?;
        ranks.push(rank)?;
        Ok(())
    }
}

/// Sets the first of these ranks to those of the instantiations. Copies the tags of each twice, and sorts one of the
/// copies. Allocates only if there are more instantiations, or more tags, than at any time before.
pub(crate) fn rank_each(
    ranks: &mut Vec<Rank>,
    alloc: Global,
    strategy: Strategy,
    program: &Program,
    insts: &[Inst],
) -> Result<(), OutOfMemory>
    requires { AreOf program.now.rules insts.now }
    ensures ok { OnOk result (take (length insts.now) ranks.new.items
        ≡ map (rank_in strategy program.now.rules) insts.now) }
    ensures there { OnOk result (length insts.now ≤ length ranks.new.items) }
{
    let mut at = 0;
    for inst in insts {
        set_rank(ranks, at, alloc, strategy, program, inst)?;
        at += 1;
    }
    Ok(())
}

/// Adds a copy of each with its rank, until memory runs out. Copies the tags of each three times, sorts one of the
/// copies, and allocates twice.
fn add_all(
    alloc: Global,
    strategy: Strategy,
    program: &Program,
    waiting: &mut Waiting,
    insts: &[Inst],
) -> Result<(), OutOfMemory>
    requires rules { AreOf program.now.rules insts.now }
    requires ordered { IsStrictlySortedBy compare_ranks (keys_of waiting.old.entries) }
    requires told_apart { AreToldApart waiting.old.entries (map (arrival strategy program.now.rules) insts.now) }
    ensures ok { OnOk result (Gains (map (arrival strategy program.now.rules) insts.now) waiting.old.entries waiting.new.entries) }
    ensures ordered { IsStrictlySortedBy compare_ranks (keys_of waiting.new.entries) }
    ensures kept { (e : Rank × Held) → Contains waiting.old.entries e → Contains waiting.new.entries e }
    ensures no_other { (e : Rank × Held) → Contains waiting.new.entries e
        → Contains waiting.old.entries e ⊎ Contains (map (arrival strategy program.now.rules) insts.now) e }
    ensures number { length waiting.new.entries ≤ length waiting.old.entries + length insts.now }
{
    for inst in insts {
        let rank = rank_of(alloc, strategy, program, inst)?;
        let inst = inst.copy(alloc)?;
        let fired = false;
        waiting.insert(rank, Held { inst, fired })?;
    }
    Ok(())
}

/// Removes these instantiations. Scans the whole map.
fn take_back(waiting: &mut Waiting, insts: &[Inst])
    ensures entries { waiting.new.entries ≡ filter (λ e. not (is_among insts.now e.1.inst)) waiting.old.entries }
    ensures ordered { IsStrictlySortedBy compare_ranks (keys_of waiting.new.entries) }
{
    waiting.retain(|_, held| !is_among(insts, &held.inst));
}

/// Adds a copy of each with its rank, or none if memory runs out. Only then does it scan the existing entries.
pub(crate) fn add(
    alloc: Global,
    strategy: Strategy,
    program: &Program,
    waiting: &mut Waiting,
    insts: &[Inst],
) -> Result<(), OutOfMemory>
    requires rules { AreOf program.now.rules insts.now }
    requires ordered { IsStrictlySortedBy compare_ranks (keys_of waiting.old.entries) }
    requires told_apart { AreToldApart waiting.old.entries (map (arrival strategy program.now.rules) insts.now) }
    requires apart { (e : Rank × Held) → Contains waiting.old.entries e → ¬ Contains insts.now e.1.inst }
    requires among { (e : Rank × Held) → Contains (map (arrival strategy program.now.rules) insts.now) e → Contains insts.now e.1.inst }
    ensures ok { OnOk result (Gains (map (arrival strategy program.now.rules) insts.now) waiting.old.entries waiting.new.entries) }
    ensures err { OnErr result (waiting.new.entries ≡ waiting.old.entries) }
    ensures number { length waiting.new.entries ≤ length waiting.old.entries + length insts.now }
    ensures ordered { IsStrictlySortedBy compare_ranks (keys_of waiting.new.entries) }
{
    match add_all(alloc, strategy, program, waiting, insts) {
        Ok(()) => Ok(()),
        Err(error) => {
            take_back(waiting, insts);
            Err(error)
        }
    }
}

/// Removes the entries with these ranks, each from the map that it is in: a rank is searched for among those that wait
/// only if it has not fired. Allocates nothing.
pub(crate) fn remove_all(waiting: &mut Waiting, fired: &mut Fired, ranks: &[Rank])
    requires ordered { IsStrictlySortedBy compare_ranks (keys_of waiting.old.entries) }
    requires unique { IsDistinct same_keys (keys_of fired.old.entries) }
    requires apart { (e : Rank × Held) (d : Key × Inst) → Contains waiting.old.entries e → Contains fired.old.entries d → e.0.key ≢ d.0 }
    ensures waiting { Loses ranks.now waiting.old.entries waiting.new.entries }
    ensures fired { Loses (map (λ r. r.key) ranks.now) fired.old.entries fired.new.entries }
    ensures number { length waiting.new.entries ≤ length waiting.old.entries }
    ensures spare { spare fired.old ≤ spare fired.new }
    ensures ordered { IsStrictlySortedBy compare_ranks (keys_of waiting.new.entries) }
    ensures unique { IsDistinct same_keys (keys_of fired.new.entries) }
{
    for rank in ranks {
        if fired.remove(&rank.key).is_none() {
            let _had_waited = waiting.remove(rank);
        }
    }
}

/// Whether the last entry is that of this instantiation.
pub(crate) fn is_last(waiting: &Waiting, inst: &Inst) -> bool
    ensures last { (p : Rank × Held) (front : List (Rank × Held))
        → IsTrue result → waiting.now.entries ≡ front ++ p ∷ [] → p.1.inst ≡ inst.now }
    ensures some { IsTrue result → 0 < length waiting.now.entries }
{
    match waiting.last_key_value() {
        Some((_, last)) => is_same(&last.inst, inst),
        None => false,
    }
}

/// Marks the entry of this instantiation in place. Allocates nothing, and scans all entries.
pub(crate) fn mark_in_place(waiting: &mut Waiting, inst: &Inst)
    ensures entries { waiting.new.entries ≡ map (λ e. (e.0, marked_held inst.now e.1)) waiting.old.entries }
    ensures ordered { IsStrictlySortedBy compare_ranks (keys_of waiting.new.entries) }
{
    // `retain` keeps all entries: more is known about what it writes than about what a loop over the values does
    waiting.retain(|_, held| {
        held.fired = held.fired || is_same(&held.inst, inst);
        true
    });
}

/// Adds a mark, for which there must be room.
pub(crate) fn put(fired: &mut Fired, key: Key, inst: Inst)
    requires room { 0 < spare fired.old }
    requires unique { IsDistinct same_keys (keys_of fired.old.entries) }
    requires absent { get same_keys fired.old key ≡ None }
    ensures fired { Gains ((key, inst) ∷ []) fired.old.entries fired.new.entries }
    ensures spare { spare fired.old ≤ spare fired.new + 1 }
    ensures unique { IsDistinct same_keys (keys_of fired.new.entries) }
{
    match fired.insert(key, inst) {
        Ok(_) => {}
        Err(_) => unreachable!(),
    }
}

/// Copies of all entries, ranked under this strategy.
pub(crate) fn ranked_anew(
    alloc: Global,
    strategy: Strategy,
    waiting: &Waiting,
) -> Result<Waiting, OutOfMemory>
    requires { AreToldApart [] (ranked_anew strategy waiting.now.entries) }
    ensures same { IfOk result (λ w. HasSame (ranked_anew strategy waiting.now.entries) w.entries) }
    ensures number { IfOk result (λ w. length w.entries ≤ length waiting.now.entries) }
    ensures ordered { IfOk result (λ w. IsStrictlySortedBy compare_ranks (keys_of w.entries)) }
{
    let mut ranked = BTreeMap::new(alloc);
    for (rank, held) in waiting {
        let key = rank.key.copy(alloc)?;
        let inst = held.inst.copy(alloc)?;
        let fired = held.fired;
        ranked.insert(Rank::new(strategy, key), Held { inst, fired })?;
    }
    Ok(ranked)
}
