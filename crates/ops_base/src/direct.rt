//! The conflict set by looking at every element of working memory for every condition.
ghost use Rattle.std.specs.Prelude.{◌≡◌, List, ℕ, ◌++◌, ◌∷◌, [], OnOk, IfOk, true, false};
ghost use Rattle.std.specs.List.{flat_map};
ghost use Rattle.ops_base.specs.WorkingMemory.{HasRisingTags, shown};
ghost use Rattle.ops_base.specs.ConflictSet.{some_meets, some_extend, extended, at_condition, at_part, walk, empty_partial, matches_of, insts_of, conflict_set};
ghost use Rattle.ops_base.specs.Instances.{IsConflictSet, AreOf};
ghost use Rattle.ops_base.specs.declared.rules.Inst.{Inst};

use crate::conditions::{Condition, Part};
use crate::elements::Element;
use crate::list::Listed;
use crate::matching::{Binding, matched};
use crate::memory::OutOfMemory;
use crate::programs::Program;
use crate::rules::{Inst, Rule};
use std::alloc::Global;

/// The tags of the elements that meet the first positive conditions, with the bindings that they gave.
#[derive(Debug, Drop)]
pub struct Partial {
    pub tags: Listed<u64>,
    pub bindings: Listed<Binding>,
}

fn some_element_meets(
    alloc: Global,
    wm: &[&Element],
    condition: &Condition,
    bindings: &[Binding],
) -> Result<bool, OutOfMemory>
    ensures { IfOk result (λ b. b ≡ some_meets (shown wm.now) condition.now bindings.now) }
{
    for e in wm {
        if matched(alloc, condition, e, bindings)?.is_some() {
            return Ok(true);
        }
    }
    Ok(false)
}

/// Whether there are elements, one for each condition, that meet the conditions in order, each under the bindings that
/// those before it left. It tries the elements of the first condition in turn, and goes on to the rest with each that
/// meets it, until one way reaches the end: at worst it looks at as many lists as there are.
fn some_extend(
    alloc: Global,
    wm: &[&Element],
    conditions: &[Condition],
    bindings: &[Binding],
) -> Result<bool, OutOfMemory>
    ensures { IfOk result (λ b. b ≡ some_extend (shown wm.now) conditions.now bindings.now) }
{
    let Some((first, rest)) = conditions.split_first() else {
        return Ok(true);
    };
    for e in wm {
        if let Some(next) = matched(alloc, first, e, bindings)? {
            if some_extend(alloc, wm, rest, &next)? {
                return Ok(true);
            }
        }
    }
    Ok(false)
}

fn with_tag(alloc: Global, tags: &[u64], tag: u64) -> Result<Listed<u64>, OutOfMemory>
    ensures { IfOk result (λ v. v ≡ tags.now ++ tag ∷ []) }
{
    let mut longer = Vec::from_slice(alloc, tags)?;
    longer.push(tag)?;
    Ok(Listed::from_vec(longer))
}

/// Adds the partial matches with one element more.
fn extend(
    alloc: Global,
    wm: &[&Element],
    condition: &Condition,
    from: &Partial,
    found: &mut Vec<Partial>,
) -> Result<(), OutOfMemory>
    ensures { OnOk result (found.new.items ≡ found.old.items ++ flat_map (extended condition.now from.now) (shown wm.now)) }
{
    for e in wm {
        if let Some(bindings) = matched(alloc, condition, e, from.bindings.as_slice())? {
            let tags = with_tag(alloc, from.tags.as_slice(), e.tag)?;
            let bindings = Listed::from_vec(bindings);
            found.push(Partial { tags, bindings })?;
        }
    }
    Ok(())
}

/// Adds what one partial match gives at one condition.
fn pass_condition(
    alloc: Global,
    wm: &[&Element],
    condition: &Condition,
    from: Partial,
    found: &mut Vec<Partial>,
) -> Result<(), OutOfMemory>
    ensures { OnOk result (found.new.items ≡ found.old.items ++ at_condition (shown wm.now) condition.now from) }
{
    if !condition.negated {
        return extend(alloc, wm, condition, &from, found);
    }
    if !some_element_meets(alloc, wm, condition, from.bindings.as_slice())? {
        found.push(from)?;
    }
    Ok(())
}

/// Adds what one partial match gives at one part.
fn pass_part(
    alloc: Global,
    wm: &[&Element],
    part: &Part,
    from: Partial,
    found: &mut Vec<Partial>,
) -> Result<(), OutOfMemory>
    ensures { OnOk result (found.new.items ≡ found.old.items ++ at_part (shown wm.now) part.now from) }
{
    match part {
        Part::One(condition) => pass_condition(alloc, wm, condition, from, found)?,
        Part::Group(members) => {
            if !some_extend(alloc, wm, members.as_slice(), from.bindings.as_slice())? {
                found.push(from)?;
            }
        }
    }
    Ok(())
}

fn pass_all(
    alloc: Global,
    wm: &[&Element],
    part: &Part,
    from: Vec<Partial>,
) -> Result<Vec<Partial>, OutOfMemory>
    ensures { IfOk result (λ v. v.items ≡ flat_map (at_part (shown wm.now) part.now) from.items) }
{
    let mut found = Vec::new(alloc);
    for p in from {
        pass_part(alloc, wm, part, p, &mut found)?;
    }
    Ok(found)
}

/// The matches of these parts: for each list of elements that meets them, in the order of the tags, its tags and what it
/// binds.
pub fn matches_of(
    alloc: Global,
    wm: &[&Element],
    parts: &[Part],
) -> Result<Vec<Partial>, OutOfMemory>
    ensures { IfOk result (λ v. v.items ≡ matches_of (shown wm.now) parts.now) }
{
    let mut found = Vec::new(alloc);
    found.push(Partial {
        tags: Listed::new(alloc),
        bindings: Listed::new(alloc),
    })?;
    for part in parts {
        found = pass_all(alloc, wm, part, found)?;
    }
    Ok(found)
}

fn add_insts(rule: usize, from: Vec<Partial>, found: &mut Vec<Inst>) -> Result<(), OutOfMemory>
    ensures { OnOk result (found.new.items ≡ found.old.items ++ insts_of rule from.items) }
{
    for p in from {
        found.push(Inst { rule, tags: p.tags })?;
    }
    Ok(())
}

/// The instantiations of these rules.
fn insts(alloc: Global, rules: &[Rule], wm: &[&Element]) -> Result<Vec<Inst>, OutOfMemory>
    ensures { IfOk result (λ v. v.items ≡ conflict_set rules.now (shown wm.now)) }
{
    let mut found = Vec::new(alloc);
    for (rule, r) in rules.iter().enumerate() {
        let partials = matches_of(alloc, wm, r.conditions.as_slice())?;
        add_insts(rule, partials, &mut found)?;
    }
    Ok(found)
}

/// The conflict set, in the order of rule number and then tags, each instantiation once. No element is copied. Each
/// condition looks at every element for each partial match before it, a negated one until an element meets it, and
/// copies the bindings for each element of its class. A group does so for each member, until a list of elements meets
/// all members.
pub fn direct_set_of(
    alloc: Global,
    program: &Program,
    wm: &[&Element],
) -> Result<Listed<Inst>, OutOfMemory>
    ensures computed { IfOk result (λ set. set ≡ conflict_set program.now.rules (shown wm.now)) }
    ensures rules { IfOk result (λ set. AreOf program.now.rules set) }

    // Where the tags rise, as those of working memory do, it is the one list that is a conflict set.
    ensures set { IfOk result
        (λ set. HasRisingTags (shown wm.now) → IsConflictSet program.now.rules (shown wm.now) set) }
    ensures only { IfOk result
        (λ set. HasRisingTags (shown wm.now) → (other : List Inst) → IsConflictSet program.now.rules (shown wm.now) other → other ≡ set) }
{
    let found = insts(alloc, program.rules.as_slice(), wm)?;
    Ok(Listed::from_vec(found))
}

/// References to these elements, in their order.
fn references<'a>(alloc: Global, wm: &'a [Element]) -> Result<Vec<&'a Element>, OutOfMemory>
    ensures { IfOk result (λ v. shown v.items ≡ wm.now) }
{
    Ok(wm.iter().collect(alloc)?)
}

/// The same of elements that stand in a slice. It makes a reference to each.
pub fn direct_set(
    alloc: Global,
    program: &Program,
    wm: &[Element],
) -> Result<Listed<Inst>, OutOfMemory>
    ensures computed { IfOk result (λ set. set ≡ conflict_set program.now.rules wm.now) }
    ensures rules { IfOk result (λ set. AreOf program.now.rules set) }

    // Where the tags rise, as those of working memory do, it is the one list that is a conflict set.
    ensures set { IfOk result (λ set. HasRisingTags wm.now → IsConflictSet program.now.rules wm.now set) }
    ensures only { IfOk result
        (λ set. HasRisingTags wm.now → (other : List Inst) → IsConflictSet program.now.rules wm.now other → other ≡ set) }
{
    let wm = references(alloc, wm)?;
    direct_set_of(alloc, program, wm.as_slice())
}
