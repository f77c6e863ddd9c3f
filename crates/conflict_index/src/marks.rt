//! Marks that are carried over to a new index: the marks of the old one, in order, and the two maps of the new one.
ghost use Rattle.std.specs.Prelude.{◌≡◌, ◌≢◌, ◌+◌, ◌<◌, ◌≤◌, ◌∷◌, [], List, IsTrue, drop, length, IfOk, OnOk, Contains, IsPermutation};
ghost use Rattle.std.specs.HashMap.{spare};
ghost use Rattle.std.specs.List.Sorted.{IsSorted};
ghost use Rattle.ops_base.specs.declared.rules.Inst.{Inst};
ghost use Rattle.ops_base.specs.Instances.{AreOf, Before, IsInOrder, by_rule_and_tags};
ghost use Rattle.ops_base.specs.Refraction.{is_among};
ghost use Rattle.conflict_index.specs.Indexed.{Member, fired_of};
ghost use Rattle.conflict_index.specs.Keeping.{rank_with, all_members, Gains, HasSame, IsKept};
ghost use Rattle.conflict_index.specs.Marks.{members_with};

use crate::rank::{Held, Rank};
use crate::standing::{Fired, Waiting, put, rank_of};
use ops_base::commands::Strategy;
use ops_base::memory::OutOfMemory;
use ops_base::programs::Program;
use ops_base::rules::Inst;
use std::alloc::Global;
use std::cmp::Ordering;
use std::collections::{BTreeMap, HashMap};

/// Copies of the marked instantiations, in the order of the maps.
pub(crate) fn marked(
    alloc: Global,
    waiting: &Waiting,
    fired: &Fired,
) -> Result<Vec<Inst>, OutOfMemory>
    ensures { IfOk result (λ v. v.items ≡ fired_of (all_members waiting.now.entries fired.now.entries)) }
{
    let mut marks = Vec::new(alloc);
    for held in waiting.values() {
        if held.fired {
            marks.push(held.inst.copy(alloc)?)?;
        }
    }
    for inst in fired.values() {
        marks.push(inst.copy(alloc)?)?;
    }
    Ok(marks)
}

/// Sorts them in the order of production and tags.
pub(crate) fn in_order(mut marks: Vec<Inst>) -> Vec<Inst>
    ensures order { IsSorted by_rule_and_tags result.items }
    ensures same { IsPermutation marks.items result.items }
{
    marks.sort_unstable_by(|one, other| one.compare(other));
    marks
}

/// Whether an instantiation is among the marks from this place on, and the place from which to search for later ones.
fn look(marks: &[Inst], from: usize, inst: &Inst) -> (usize, bool)
    requires { IsInOrder marks.now }
    ensures found { result.1 ≡ is_among (drop from marks.now) inst.now }
    ensures later { (i : Inst) → Before inst.now i → is_among (drop result.0 marks.now) i ≡ is_among (drop from marks.now) i }
{
    let mut at = from;
    while at < marks.len() {
        match marks[at].compare(inst) {
            Ordering::Less => at += 1,
            Ordering::Equal => return (at + 1, true),
            Ordering::Greater => return (at, false),
        }
    }
    (at, false)
}

/// Adds an instantiation to the map of those that have fired, which has room for it, if it is marked, and otherwise to
/// the map of those that have not.
fn add_one(
    waiting: &mut Waiting,
    fired: &mut Fired,
    strategy: Strategy,
    rank: Rank,
    inst: Inst,
    is_marked: bool,
) -> Result<(), OutOfMemory>
    requires kept { IsKept strategy waiting.old.entries fired.old.entries (length waiting.old.entries) }
    requires rank { rank ≡ rank_with strategy inst rank.key.specificity }
    requires apart { (m : Member) → Contains (all_members waiting.old.entries fired.old.entries) m → m.inst ≢ inst }
    requires room { 0 < spare fired.old }
    ensures kept { OnOk result (IsKept strategy waiting.new.entries fired.new.entries (length waiting.new.entries)) }
    ensures members { OnOk result (Gains (record { inst = inst; specificity = rank.key.specificity; fired = is_marked } ∷ [])
        (all_members waiting.old.entries fired.old.entries) (all_members waiting.new.entries fired.new.entries)) }
    ensures room { OnOk result (length waiting.new.entries + spare fired.old ≤ length waiting.old.entries + 1 + spare fired.new) }
{
    if is_marked {
        put(fired, rank.key, inst);
    } else {
        let fired = false;
        waiting.insert(rank, Held { inst, fired })?;
    }
    Ok(())
}

/// The maps with copies of these instantiations. Each is marked if it is among the marks. Makes one pass over both
/// lists.
pub(crate) fn with_marks(
    alloc: Global,
    strategy: Strategy,
    program: &Program,
    come: &[Inst],
    marks: &[Inst],
) -> Result<(Waiting, Fired), OutOfMemory>
    requires rules { AreOf program.now.rules come.now }
    requires come_in_order { IsInOrder come.now }
    requires marks_in_order { IsInOrder marks.now }
    ensures kept { IfOk result (λ r. IsKept strategy r.0.entries r.1.entries (spare r.1)) }
    ensures members { IfOk result (λ r. HasSame (members_with program.now.rules marks.now come.now) (all_members r.0.entries r.1.entries)) }
{
    let mut waiting = BTreeMap::new(alloc);
    let mut fired = HashMap::new(alloc);
    fired.reserve(come.len())?;
    let mut at = 0;
    for inst in come {
        let rank = rank_of(alloc, strategy, program, inst)?;
        let (next, is_marked) = look(marks, at, inst);
        at = next;
        add_one(
            &mut waiting,
            &mut fired,
            strategy,
            rank,
            inst.copy(alloc)?,
            is_marked,
        )?;
    }
    Ok((waiting, fired))
}
