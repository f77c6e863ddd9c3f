//! The paths of productions, part by part, and the end of each production.
ghost use Rattle.std.specs.Prelude.{◌≡◌, ◌+◌, ◌<◌, ◌^◌, IfOk, OnOk, length};
ghost use Rattle.ops_base.specs.declared.conditions.Part.TheVariants as part;
ghost use Rattle.net_base.specs.Normal.{binders_after, normal_member, normal_members};
ghost use Rattle.net_base.specs.Shape.{positives};
ghost use Rattle.net_base.specs.declared.normal.NormalPart.TheVariants.{One, Group};
ghost use Rattle.beta_net.specs.Linked.{path_to, normal_part, binders_past, binders_past_members, is_positive, IsWithin, IsLinked, Adds, AddsMembers, AddsPart, AddsRule};
ghost use Rattle.beta_net.specs.Built.{AreBuilt};

use crate::chains::Chains;
use crate::links::{Link, Links, depth_below, number_of};
use alpha_net::normal::normal_form;
use net_base::normal::{Binder, NormalCondition, NormalPart};
use ops_base::conditions::{Condition, Part};
use ops_base::list::Listed;
use ops_base::memory::OutOfMemory;
use ops_base::rules::Rule;
use std::alloc::Global;

/// The link at which a production's parts end, and the depth of what is below it.
#[derive(Drop)]
pub(crate) struct End {
    pub(crate) parent: Option<usize>,
    pub(crate) depth: usize,
}

/// The paths of all productions, and the end of each production.
#[derive(Drop)]
pub(crate) struct Built {
    pub(crate) links: Links,
    pub(crate) ends: Vec<End>,
}

/// The path of this condition, new or old.
fn add_condition(
    links: &mut Links,
    parent: Option<usize>,
    place: usize,
    condition: NormalCondition,
) -> Result<usize, OutOfMemory>
    requires linked { IsLinked links.old }
    requires within { IsWithin parent (length links.old.list.items) }
    requires place { place ≡ positives (path_to links.old.list.items parent) }
    ensures { IfOk result (λ n. Adds links.old links.new parent (One condition) n) }
{
    let depth = depth_below(links, parent);
    let part = NormalPart::One(condition);
    number_of(
        links,
        Link {
            parent,
            above: parent,
            place,
            depth,
            part,
        },
    )
}

/// The normal form of a group's member, which is not negated.
fn normal_member(
    alloc: Global,
    place: usize,
    condition: &Condition,
    binders: &mut Vec<Binder>,
) -> Result<NormalCondition, OutOfMemory>
    ensures normal { IfOk result (λ c. c ≡ normal_member place condition.now binders.old.items) }
    ensures binders { OnOk result (binders.new.items ≡ binders_after place condition.now.tests binders.old.items) }
{
    let normal = normal_form(alloc, place, condition, binders)?;
    Ok(NormalCondition {
        negated: false,
        class: normal.class,
        tests: normal.tests,
    })
}

/// The normal forms of a group's members. What they bind is appended to what was bound before.
fn normal_members(
    alloc: Global,
    place: usize,
    conditions: &[Condition],
    binders: &mut Vec<Binder>,
) -> Result<Vec<NormalCondition>, OutOfMemory>
    requires { place + length conditions.now < 2 ^ 64 }
    ensures members { IfOk result (λ v. v.items ≡ normal_members place conditions.now binders.old.items) }
    ensures binders { OnOk result (binders.new.items ≡ binders_past_members place conditions.now binders.old.items) }
{
    let mut members = Vec::new(alloc);
    let mut here = place;
    for condition in conditions {
        let normal = normal_member(alloc, here, condition, binders)?;
        members.push(normal)?;
        here += 1;
    }
    Ok(members)
}

/// Adds the paths of a group's members that are not there yet, each below that of the member before it, and returns
/// the last member's.
fn add_members(
    alloc: Global,
    links: &mut Links,
    parent: Option<usize>,
    place: usize,
    conditions: &[Condition],
    binders: &mut Vec<Binder>,
) -> Result<Option<usize>, OutOfMemory>
    requires linked { IsLinked links.old }
    requires within { IsWithin parent (length links.old.list.items) }
    requires place { place ≡ positives (path_to links.old.list.items parent) }
    ensures members { IfOk result (λ o.
        AddsMembers links.old links.new parent (normal_members place conditions.now binders.old.items) o) }
    ensures binders { OnOk result (binders.new.items ≡ binders_past_members place conditions.now binders.old.items) }
{
    let mut at = parent;
    let mut here = place;
    for condition in conditions {
        let normal = normal_member(alloc, here, condition, binders)?;
        let n = add_condition(links, at, here, normal)?;
        at = Some(n);
        here += 1;
    }
    Ok(at)
}

/// Adds the paths of a group and its members that are not there yet, and returns the group's. What the members bind
/// is not visible after the group. It reads each member twice: for its own path, and for that of the group.
fn add_group(
    alloc: Global,
    links: &mut Links,
    parent: Option<usize>,
    place: usize,
    conditions: &[Condition],
    binders: &mut Vec<Binder>,
) -> Result<usize, OutOfMemory>
    requires linked { IsLinked links.old }
    requires within { IsWithin parent (length links.old.list.items) }
    requires place { place ≡ positives (path_to links.old.list.items parent) }
    ensures part { IfOk result (λ n.
        AddsPart links.old links.new parent (Group (normal_members place conditions.now binders.old.items)) n) }
    ensures binders { OnOk result (binders.new.items ≡ binders.old.items) }
{
    let known = binders.as_slice().len();
    let above = add_members(alloc, links, parent, place, conditions, binders)?;
    binders.truncate(known);
    let members = normal_members(alloc, place, conditions, binders)?;
    binders.truncate(known);
    let depth = depth_below(links, above);
    let part = NormalPart::Group(Listed::from_vec(members));
    let link = Link {
        parent,
        above,
        place,
        depth,
        part,
    };
    let n = number_of(links, link)?;
    Ok(n)
}

/// Adds the path of a condition if it is not there, and returns it. What a negated condition binds is not visible
/// after it.
fn add_one(
    alloc: Global,
    links: &mut Links,
    parent: Option<usize>,
    place: usize,
    condition: &Condition,
    binders: &mut Vec<Binder>,
) -> Result<usize, OutOfMemory>
    requires linked { IsLinked links.old }
    requires within { IsWithin parent (length links.old.list.items) }
    requires place { place ≡ positives (path_to links.old.list.items parent) }
    ensures part { IfOk result (λ n.
        AddsPart links.old links.new parent (normal_part place (part.One condition.now) binders.old.items) n) }
    ensures binders { OnOk result (binders.new.items ≡ binders_past place (part.One condition.now) binders.old.items) }
{
    let known = binders.as_slice().len();
    let normal = normal_form(alloc, place, condition, binders)?;
    if condition.negated {
        binders.truncate(known);
    }
    let n = add_condition(links, parent, place, normal)?;
    Ok(n)
}

/// Adds the paths of a part and its members that are not there yet, and returns the part's.
fn add_part(
    alloc: Global,
    links: &mut Links,
    parent: Option<usize>,
    place: usize,
    part: &Part,
    binders: &mut Vec<Binder>,
) -> Result<usize, OutOfMemory>
    requires linked { IsLinked links.old }
    requires within { IsWithin parent (length links.old.list.items) }
    requires place { place ≡ positives (path_to links.old.list.items parent) }
    ensures part { IfOk result (λ n.
        AddsPart links.old links.new parent (normal_part place part.now binders.old.items) n) }
    ensures binders { OnOk result (binders.new.items ≡ binders_past place part.now binders.old.items) }
{
    match part {
        Part::One(condition) => add_one(alloc, links, parent, place, condition, binders),
        Part::Group(members) => {
            add_group(alloc, links, parent, place, members.as_slice(), binders)
        }
    }
}

fn is_positive(part: &Part) -> bool
    ensures { result ≡ is_positive part.now }
{
    match part {
        Part::One(condition) => !condition.negated,
        Part::Group(_) => false,
    }
}

/// Adds the paths of a production that are not there yet, and returns where it ends.
fn add_rule(alloc: Global, links: &mut Links, parts: &[Part]) -> Result<End, OutOfMemory>
    requires { IsLinked links.old }
    ensures { IfOk result (λ end. AddsRule links.old links.new parts.now end) }
{
    let mut binders = Vec::new(alloc);
    let mut place: usize = 0;
    let mut parent: Option<usize> = None;
    for part in parts {
        let n = add_part(alloc, links, parent, place, part, &mut binders)?;
        if is_positive(part) {
            place += 1;
        }
        parent = Some(n);
    }
    let depth = depth_below(links, parent);
    Ok(End { parent, depth })
}

/// The paths of the productions, and where each ends.
#[tactic(auto, using(crate::proofs::BuildLemmas::no_links, crate::proofs::BuildLemmas::none_ended, crate::proofs::BuildLemmas::no_paths))]
pub(crate) fn build(alloc: Global, rules: &[Rule]) -> Result<Built, OutOfMemory>
    ensures { IfOk result (λ b. AreBuilt b.links.list.items b.ends.items rules.now) }
{
    let mut links = Links {
        list: Vec::new(alloc),
        chains: Chains::new(alloc),
    };
    let mut ends = Vec::new(alloc);
    for rule in rules {
        let end = add_rule(alloc, &mut links, rule.conditions.as_slice())?;
        ends.push(end)?;
    }
    Ok(Built { links, ends })
}
