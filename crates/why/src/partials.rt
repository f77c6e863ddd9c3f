//! The partial matches of a rule.
ghost use Rattle.std.specs.Prelude.{◌≡◌, ◌<◌, ◌≤◌, length, map, take, IfOk};
ghost use Rattle.ops_base.specs.ConflictSet.{matches_of};
ghost use Rattle.ops_base.specs.WorkingMemory.{HasRisingTags, shown};
ghost use Rattle.why.specs.Partials.{AreUpTo, parts_of};

use ops_base::conditions::Part;
use ops_base::direct::{Partial, matches_of};
use ops_base::elements::Element;
use ops_base::list::Listed;
use ops_base::memory::OutOfMemory;
use ops_base::programs::Program;
use std::alloc::Global;

/// The parts of a rule's left side, none where there is no such rule.
pub fn parts_of(program: &Program, rule: usize) -> &[Part]
    ensures { result.now ≡ parts_of program.now.rules rule }
{
    match program.rules.as_slice().get(rule) {
        Some(rule) => rule.conditions.as_slice(),
        None => &[],
    }
}

fn tags_of(alloc: Global, found: Vec<Partial>) -> Result<Vec<Listed<u64>>, OutOfMemory>
    ensures { IfOk result (λ v. v.items ≡ map (λ p. p.tags) found.items) }
{
    let mut tags = Vec::new(alloc);
    for partial in found {
        tags.push(partial.tags)?;
    }
    Ok(tags)
}

/// The partial matches after the first `k` parts of the rule's left side: the lists of tags with which the walk over
/// its conditions comes to the end of these parts. A group counts as one part. Matches these parts against all of
/// working memory.
pub fn upto(
    alloc: Global,
    program: &Program,
    wm: &[&Element],
    rule: usize,
    k: usize,
) -> Result<Listed<Listed<u64>>, OutOfMemory>
    requires there { rule < length program.now.rules }
    requires first { 1 ≤ k }
    requires last { k ≤ length (parts_of program.now.rules rule) }
    requires rising { HasRisingTags (shown wm.now) }
    ensures all { IfOk result (AreUpTo program.now.rules (shown wm.now) rule k) }
    ensures computed { IfOk result
        (λ v. v ≡ map (λ p. p.tags) (matches_of (shown wm.now) (take k (parts_of program.now.rules rule)))) }
{
    let first = &parts_of(program, rule)[..k];
    let found = matches_of(alloc, wm, first)?;
    let tags = tags_of(alloc, found)?;
    Ok(Listed::from_vec(tags))
}
