//! Whether something is an instantiation, and what it binds.
ghost use Rattle.std.specs.Prelude.{◌≡◌, ◌↔◌, IsTrue, Some, option_map};
ghost use Rattle.ops_base.specs.Instances.{IsInst};
ghost use Rattle.ops_base.specs.WorkingMemory.{HasRisingTags, shown};
ghost use Rattle.why.specs.Bindings.{Binds, values_in};
ghost use Rattle.why.specs.Checking.{bindings_in, rest_after, is_none_left, with_tag, agrees};

use crate::known::{Known, after, meets, some_element_meets, some_extend};
use ops_base::conditions::{Condition, Part};
use ops_base::elements::Element;
use ops_base::programs::Program;
use ops_base::rules::Inst;
use ops_base::values::Value;

/// Looks through the elements up to the one of this tag.
fn with_tag<'a>(wm: &[&'a Element], tag: u64) -> Option<&'a Element>
    ensures { option_map (λ e. e.now) result ≡ with_tag (shown wm.now) tag }
{
    for e in wm {
        if e.tag == tag {
            return Some(*e);
        }
    }
    None
}

fn are_all(known: &Known, bound: &[Value]) -> bool
    ensures { result ≡ is_none_left (rest_after (values_in (bindings_in known.now)) bound.now) }
{
    match after(known, bound) {
        Some(rest) => rest.is_empty(),
        None => false,
    }
}

/// Whether the tags meet these parts after those that were met, and all of them put these values at variables.
fn agrees<'a>(
    wm: &'a [&'a Element],
    parts: &'a [Part],
    known: &'a Known<'a>,
    tags: &[u64],
    bound: &[Value],
) -> bool
    ensures { result ≡ agrees (shown wm.now) parts.now (bindings_in known.now) tags.now bound.now }
{
    let Some((part, rest)) = parts.split_first() else {
        return tags.is_empty() && are_all(known, bound);
    };
    match part {
        Part::Group(members) => {
            !some_extend(wm, members.as_slice(), known) && agrees(&*wm, rest, &*known, tags, bound)
        }
        Part::One(c) if c.negated => {
            !some_element_meets(wm, c, known) && agrees(&*wm, rest, &*known, tags, bound)
        }
        Part::One(c) => {
            let Some((tag, later)) = tags.split_first() else {
                return false;
            };
            let Some(element) = with_tag(wm, *tag) else {
                return false;
            };
            if !meets(c, element, known) {
                return false;
            }
            let next = Known::Met {
                before: &*known,
                tests: c.tests.as_slice(),
                element,
            };
            agrees(&*wm, rest, &next, later, bound)
        }
    }
}

/// Whether this is an instantiation that binds these values. It reads nothing else, takes no memory, and does not search:
/// each tag is looked up among the elements and tried at its condition alone. A negated condition looks at every element
/// until one meets it, and a group as `ops_base`'s direct matching does. Each test of a variable looks at the tests of
/// the conditions so far.
pub fn check(program: &Program, wm: &[&Element], inst: &Inst, bound: &[Value]) -> bool
    requires { HasRisingTags (shown wm.now) }
    ensures { IsTrue result ↔
        (IsInst program.now.rules (shown wm.now) inst.now × Binds program.now.rules (shown wm.now) inst.now bound.now) }
{
    match program.rules.as_slice().get(inst.rule) {
        Some(rule) => agrees(
            wm,
            rule.conditions.as_slice(),
            &Known::Nothing,
            inst.tags.as_slice(),
            bound,
        ),
        None => false,
    }
}
