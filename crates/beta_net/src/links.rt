//! The distinct paths of the parts of productions, which can be looked up by key.
ghost use Rattle.std.specs.Prelude.{◌≡◌, ◌+◌, ◌↔◌, IfOk, IfSome, IfNone, IsTrue, length, map};
ghost use Rattle.beta_net.specs.Linked.{depth_to, link_code, IsWithin, IsFit, IsOf, IsLinked, Stands, IsNew, Adds};

use crate::chains::Chains;
use crate::code::part_code;
use crate::same::Same;
use net_base::normal::NormalPart;
use ops_base::memory::OutOfMemory;

/// A path: what comes before its last part, and that part.
#[derive(Drop)]
pub(crate) struct Link {
    pub(crate) parent: Option<usize>,
    /// The link that determines its depth: for a group that of its last member, for a condition its parent.
    pub(crate) above: Option<usize>,
    /// How many positive conditions come before the last part, members of its group included.
    pub(crate) place: usize,
    /// How many nodes a token passes down to it.
    pub(crate) depth: usize,
    pub(crate) part: NormalPart,
}

/// The paths so far, chained by the codes of their keys.
#[derive(Drop)]
pub(crate) struct Links {
    pub(crate) list: Vec<Link>,
    pub(crate) chains: Chains,
}

fn is_same_parent(a: Option<usize>, b: Option<usize>) -> bool
    ensures { IsTrue result ↔ (a ≡ b) }
{
    match (a, b) {
        (None, None) => true,
        (Some(x), Some(y)) => x == y,
        _ => false,
    }
}

fn is_link_of(link: &Link, parent: Option<usize>, part: &NormalPart) -> bool
    ensures { IsTrue result ↔ IsOf parent part.now link.now }
{
    is_same_parent(link.parent, parent) && link.part.same(part)
}

/// The link of this parent and part. It compares those that have the same code.
fn find(links: &[Link], chains: &Chains, parent: Option<usize>, part: &NormalPart) -> Option<usize>
    requires { chains.now ≡ map link_code links.now }
    ensures found { IfSome result (λ n. Stands links.now parent part.now n) }
    ensures none { IfNone result (IsNew links.now parent part.now) }
{
    let code = part_code(parent, part);
    let mut at = chains.newest(code);
    while let Some(n) = at {
        let link = &links[n];
        if is_link_of(link, parent, part) {
            return Some(n);
        }
        at = chains.earlier(n);
    }
    None
}

/// Adds a link that is not there yet.
fn add(links: &mut Links, link: Link) -> Result<usize, OutOfMemory>
    requires linked { IsLinked links.old }
    requires fit { IsFit links.old.list.items (length links.old.list.items) link }
    requires fresh { IsNew links.old.list.items link.parent link.part }
    ensures { IfOk result (λ n. Adds links.old links.new link.parent link.part n) }
{
    let n = links.list.as_slice().len();
    links.chains.add(part_code(link.parent, &link.part))?;
    links.list.push(link)?;
    Ok(n)
}

/// The number of this link, new or old.
pub(crate) fn number_of(links: &mut Links, link: Link) -> Result<usize, OutOfMemory>
    requires linked { IsLinked links.old }
    requires fit { IsFit links.old.list.items (length links.old.list.items) link }
    ensures { IfOk result (λ n. Adds links.old links.new link.parent link.part n) }
{
    match find(
        links.list.as_slice(),
        &links.chains,
        link.parent,
        &link.part,
    ) {
        Some(n) => Ok(n),
        None => add(links, link),
    }
}

/// The depth of what is directly below this link.
pub(crate) fn depth_below(links: &Links, above: Option<usize>) -> usize
    requires linked { IsLinked links.now }
    requires within { IsWithin above (length links.now.list.items) }
    ensures { result ≡ depth_to links.now.list.items above + 1 }
{
    let list = links.list.as_slice();
    match above {
        None => 1,
        Some(p) => list[p].depth + 1,
    }
}
