//! Tokens, tasks and the alphas that an element can pass, with enough memory.

use crate::net::{Net, Numbers};
use crate::nodes::Alpha;
use crate::tags::Tags;
use crate::tasks::{Side, Task};
use ops_base::conditions::{Operand, Test};
use ops_base::elements::Element;
use ops_base::list::Listed;
use ops_base::memory::OutOfMemory;
use ops_base::values::{Pred, Value};
use std::alloc::Global;
use std::test::Fail;

#[test]
fn tags_are_added(rt: HostRuntime) -> Result<(), Fail> {
    let mut tags = Tags::from_slice(rt.alloc(), &[1, 2, 3, 4, 5, 6, 7, 8])?;
    tags.push(9)?;
    assert_eq!(rt; tags.as_slice(), &[1, 2, 3, 4, 5, 6, 7, 8, 9][..]);
    assert_eq!(rt; tags.len(), 9);
    Ok(())
}

#[test]
fn nine_tags_are_copied(rt: HostRuntime) -> Result<(), Fail> {
    let tags = Tags::from_slice(rt.alloc(), &[9, 8, 7, 6, 5, 4, 3, 2, 1])?;
    let copy = tags.copy(rt.alloc())?;
    assert_eq!(rt; copy.as_slice(), &[9, 8, 7, 6, 5, 4, 3, 2, 1][..]);
    Ok(())
}

#[test]
fn a_task_is_copied(rt: HostRuntime) -> Result<(), Fail> {
    let task = Task {
        node: 3,
        side: Side::Right,
        plus: true,
        token: Tags::from_slice(rt.alloc(), &[9, 8, 7, 6, 5, 4, 3, 2, 1])?,
    };
    let copy = task.copy(rt.alloc())?;
    assert_eq!(rt; (copy.node, copy.side, copy.plus), (3, Side::Right, true));
    assert_eq!(rt; copy.token.as_slice(), &[9, 8, 7, 6, 5, 4, 3, 2, 1][..]);
    Ok(())
}

/// `(a)`, `(a ^n 5)` and `(a ^n > 3)`.
fn net_of_alphas(alloc: Global) -> Result<Net, OutOfMemory> {
    let five = Test {
        field: 0,
        pred: Pred::Eq,
        operand: Operand::Constant(Value::Whole(5)),
        binds: false,
    };
    let above = Test {
        field: 0,
        pred: Pred::Gt,
        operand: Operand::Constant(Value::Whole(3)),
        binds: false,
    };
    let tests = [
        Listed::new(alloc),
        Listed::from_array(alloc, [five])?,
        Listed::from_array(alloc, [above])?,
    ];
    let mut alphas = Vec::new(alloc);
    for tests in tests {
        alphas.push(Alpha { class: 0, tests })?;
    }
    Net::new(alloc, Listed::from_vec(alphas), Listed::new(alloc))
}

#[test]
fn an_element_finds_what_it_can_pass(rt: HostRuntime) -> Result<(), Fail> {
    let net = net_of_alphas(rt.alloc())?;
    let rows = [(0, 5, &[0, 2, 1][..]), (0, 7, &[0, 2][..]), (1, 5, &[][..])];
    for (class, number, found) in rows {
        let element = Element {
            tag: 1,
            class,
            fields: Listed::from_array(rt.alloc(), [Value::Whole(number)])?,
        };
        let mut candidates = Numbers::new(rt.alloc());
        net.candidates(&element, &mut candidates)?;
        assert_eq!(rt; candidates.as_slice(), found);
    }
    assert_eq!(rt; net.takers(0).len(), 0);
    Ok(())
}
