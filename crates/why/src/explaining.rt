//! Why a rule does not fire.
ghost use Rattle.std.specs.Prelude.{◌≡◌, ℕ, ◌<◌, ◌≤◌, [], length, map, take, IfOk};
ghost use Rattle.ops_base.specs.ConflictSet.{matches_of};
ghost use Rattle.ops_base.specs.WorkingMemory.{HasRisingTags, shown};
ghost use Rattle.why.specs.Bindings.{values_in};
ghost use Rattle.why.specs.Explaining.{Explains, bound_inst, explanation, missing_place};

use crate::partials::parts_of;
use ops_base::conditions::Part;
use ops_base::direct::{Partial, matches_of};
use ops_base::elements::Element;
use ops_base::list::Listed;
use ops_base::matching::Binding;
use ops_base::memory::OutOfMemory;
use ops_base::programs::Program;
use ops_base::rules::Inst;
use ops_base::values::Value;
use std::alloc::Global;

/// An instantiation, with the values that its positive conditions put at variables, in text order.
#[derive(Debug, Drop)]
pub struct BoundInst {
    pub inst: Inst,
    pub values: Listed<Value>,
}

/// Why a rule fires or does not.
#[derive(Debug, Drop)]
pub enum Why {
    /// It does not lack an element: its instantiations, in the order of their tags.
    Found(Listed<BoundInst>),
    /// The first part of its left side, counted from 1, up to which nothing meets the parts. A group counts as one.
    Missing { place: usize },
}

fn values_of(alloc: Global, bindings: &[Binding]) -> Result<Listed<Value>, OutOfMemory>
    ensures { IfOk result (λ v. v ≡ values_in bindings.now) }
{
    let mut values = Vec::with_capacity(alloc, bindings.len())?;
    for binding in bindings {
        values.push(binding.value)?;
    }
    Ok(Listed::from_vec(values))
}

fn bound_insts(
    alloc: Global,
    rule: usize,
    found: Vec<Partial>,
) -> Result<Vec<BoundInst>, OutOfMemory>
    ensures { IfOk result (λ v. v.items ≡ map (bound_inst rule) found.items) }
{
    let mut insts = Vec::new(alloc);
    for partial in found {
        let values = values_of(alloc, partial.bindings.as_slice())?;
        let tags = partial.tags;
        let inst = Inst { rule, tags };
        insts.push(BoundInst { inst, values })?;
    }
    Ok(insts)
}

/// The first part up to which nothing meets the parts. Matches the parts up to each in turn.
fn missing_place(alloc: Global, wm: &[&Element], parts: &[Part]) -> Result<usize, OutOfMemory>
    requires { matches_of (shown wm.now) parts.now ≡ [] }
    ensures first { IfOk result (λ place. 1 ≤ place) }
    ensures last { IfOk result (λ place. place ≤ length parts.now) }
    ensures none { IfOk result (λ place. matches_of (shown wm.now) (take place parts.now) ≡ []) }
    ensures before { IfOk result
        (λ place. (k : ℕ) → k < place → matches_of (shown wm.now) (take k parts.now) ≡ [] → ⊥) }
    ensures computed { IfOk result (λ place. place ≡ missing_place (shown wm.now) parts.now) }
{
    for place in 1..parts.len() {
        if matches_of(alloc, wm, &parts[..place])?.is_empty() {
            return Ok(place);
        }
    }
    Ok(parts.len())
}

/// The rule's instantiations with what they bind, or else the first part of its left side up to which nothing meets the
/// parts. Matches the left side against all of working memory, and then, if nothing meets it, the parts up to each in
/// turn.
pub fn explain(
    alloc: Global,
    program: &Program,
    wm: &[&Element],
    rule: usize,
) -> Result<Why, OutOfMemory>
    requires there { rule < length program.now.rules }
    requires rising { HasRisingTags (shown wm.now) }
    ensures explains { IfOk result (Explains program.now.rules (shown wm.now) rule) }
    ensures computed { IfOk result (λ why. why ≡ explanation program.now.rules (shown wm.now) rule) }
{
    let parts = parts_of(program, rule);
    let found = matches_of(alloc, wm, parts)?;
    if found.is_empty() {
        let place = missing_place(alloc, wm, parts)?;
        return Ok(Why::Missing { place });
    }
    let insts = bound_insts(alloc, rule, found)?;
    Ok(Why::Found(Listed::from_vec(insts)))
}
