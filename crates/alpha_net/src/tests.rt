//! The alpha of a condition, and elements that pass it and elements that do not.

use crate::alpha::{alpha_part, alpha_passes};
use ops_base::conditions::{Condition, Operand, Test};
use ops_base::elements::Element;
use ops_base::list::Listed;
use ops_base::memory::OutOfMemory;
use ops_base::values::{Pred, Value};
use std::alloc::Global;
use std::test::Fail;

fn test(field: usize, operand: Operand, binds: bool) -> Test {
    Test {
        field,
        pred: Pred::Eq,
        operand,
        binds,
    }
}

/// `(a ^n 5 ^m <x> ^k <x> ^l <y>)`, where `<y>` is bound before.
fn condition(alloc: Global) -> Result<Condition, OutOfMemory> {
    let tests = [
        test(0, Operand::Constant(Value::Whole(5)), false),
        test(1, Operand::Variable(0), true),
        test(2, Operand::Variable(0), false),
        test(3, Operand::Variable(1), false),
    ];
    Ok(Condition {
        class: 0,
        negated: false,
        tests: Listed::from_vec(Vec::from_array(alloc, tests)?),
    })
}

fn element(alloc: Global, class: usize, values: [Value; 3]) -> Result<Element, OutOfMemory> {
    Ok(Element {
        tag: 1,
        class,
        fields: Listed::from_vec(Vec::from_array(alloc, values)?),
    })
}

#[test]
fn its_own_element_alone_is_looked_at(rt: HostRuntime) -> Result<(), Fail> {
    let alloc = rt.alloc();
    let alpha = alpha_part(alloc, &condition(alloc)?)?;
    assert_eq!(rt; (alpha.class, alpha.tests.len()), (0, 2));
    let (five, seven) = (Value::Whole(5), Value::Whole(7));
    let rows = [
        (0, [five, seven, seven], true),
        (1, [five, seven, seven], false),
        (0, [five, seven, five], false),
        (0, [seven, seven, seven], false),
    ];
    for (class, values, passes) in rows {
        let element = element(alloc, class, values)?;
        assert_eq!(rt; alpha_passes(&alpha, &element), passes);
    }
    Ok(())
}
