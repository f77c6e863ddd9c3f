//! Small networks and their elements, with ample memory. Each network is sound by its type.
ghost use Rattle.std.specs.Prelude.{◌≡◌, [], ◌∷◌, IfOk, Some};
ghost use Rattle.work_store.specs.Stored.{held_of};
ghost use Rattle.match_tests.specs.Networks.{alpha_of, element_of, free, one_class, pair, root_with, same, second_of, terminal_at, twin, two_classes};

use net_base::net::Net;
use net_base::nodes::{Alpha, JoinTest, Kind, Node};
use ops_base::elements::Element;
use ops_base::list::Listed;
use ops_base::memory::OutOfMemory;
use ops_base::values::{Pred, Value};
use std::alloc::Global;
use work_store::Store;

/// An element with one field, 7.
pub(super) fn element(alloc: Global, tag: u64, class: usize) -> Result<Element, OutOfMemory>
    ensures { IfOk result (λ e. e ≡ element_of tag class) }
{
    let fields = Listed::from_array(alloc, [Value::Whole(7)])?;
    Ok(Element { tag, class, fields })
}

/// Element 1 is of class 0, and element 2 of class 1.
pub(super) fn store_of_two(alloc: Global) -> Result<Store, OutOfMemory>
    ensures first { IfOk result (λ s. held_of s 1 ≡ Some (element_of 1 0)) }
    ensures second { IfOk result (λ s. held_of s 2 ≡ Some (element_of 2 1)) }
{
    let mut store = Store::new(alloc);
    store.add(element(alloc, 1, 0)?)?;
    store.add(element(alloc, 2, 1)?)?;
    Ok(store)
}

fn alpha(alloc: Global, class: usize) -> Alpha
    ensures { result ≡ alpha_of class }
{
    Alpha {
        class,
        tests: Listed::new(alloc),
    }
}

fn one_class(alloc: Global) -> Result<Listed<Alpha>, OutOfMemory>
    ensures { IfOk result (λ alphas. alphas ≡ one_class) }
{
    Ok(Listed::from_array(alloc, [alpha(alloc, 0)])?)
}

fn two_classes(alloc: Global) -> Result<Listed<Alpha>, OutOfMemory>
    ensures { IfOk result (λ alphas. alphas ≡ two_classes) }
{
    Ok(Listed::from_array(alloc, [alpha(alloc, 0), alpha(alloc, 1)])?)
}

fn no_tests(alloc: Global) -> Listed<JoinTest>
    ensures { result ≡ [] }
{
    Listed::new(alloc)
}

fn same(alloc: Global) -> Result<Listed<JoinTest>, OutOfMemory>
    ensures { IfOk result (λ joins. joins ≡ same ∷ []) }
{
    let test = JoinTest {
        field: 0,
        pred: Pred::Eq,
        place: 0,
        other: 0,
    };
    Ok(Listed::from_array(alloc, [test])?)
}

fn root(alloc: Global) -> Result<Node, OutOfMemory>
    ensures { IfOk result (λ x. x ≡ root_with (1 ∷ [])) }
{
    Ok(Node {
        kind: Kind::Join,
        parent: None,
        class: 0,
        alpha: 0,
        joins: Listed::new(alloc),
        children: Listed::from_array(alloc, [1])?,
        rights: Listed::new(alloc),
        depth: 1,
    })
}

fn second(
    alloc: Global,
    kind: Kind,
    class: usize,
    joins: Listed<JoinTest>,
) -> Result<Node, OutOfMemory>
    ensures { IfOk result (λ x. x ≡ second_of kind class joins) }
{
    Ok(Node {
        kind,
        parent: Some(0),
        class,
        alpha: class,
        joins,
        children: Listed::from_array(alloc, [2])?,
        rights: Listed::new(alloc),
        depth: 2,
    })
}

fn terminal(alloc: Global, parent: usize, depth: usize) -> Node
    ensures { result ≡ terminal_at parent depth }
{
    Node {
        kind: Kind::Terminal { rule: 0 },
        parent: Some(parent),
        class: 0,
        alpha: 0,
        joins: Listed::new(alloc),
        children: Listed::new(alloc),
        rights: Listed::new(alloc),
        depth,
    }
}

pub(super) fn free(alloc: Global) -> Result<Net, OutOfMemory>
    ensures { IfOk result (λ net. net.nodes ≡ free) }
{
    let alphas = two_classes(alloc)?;
    let negated = second(alloc, Kind::Negated, 1, no_tests(alloc))?;
    let nodes = Listed::from_array(alloc, [root(alloc)?, negated, terminal(alloc, 1, 3)])?;
    Net::new(alloc, alphas, nodes)
}

pub(super) fn twin(alloc: Global) -> Result<Net, OutOfMemory>
    ensures { IfOk result (λ net. net.nodes ≡ twin) }
{
    let alphas = one_class(alloc)?;
    let join = second(alloc, Kind::Join, 0, same(alloc)?)?;
    let nodes = Listed::from_array(alloc, [root(alloc)?, join, terminal(alloc, 1, 3)])?;
    Net::new(alloc, alphas, nodes)
}

pub(super) fn pair(alloc: Global) -> Result<Net, OutOfMemory>
    ensures { IfOk result (λ net. net.nodes ≡ pair) }
{
    let alphas = two_classes(alloc)?;
    let join = second(alloc, Kind::Join, 1, same(alloc)?)?;
    let nodes = Listed::from_array(alloc, [root(alloc)?, join, terminal(alloc, 1, 3)])?;
    Net::new(alloc, alphas, nodes)
}
