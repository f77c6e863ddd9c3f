//! Each predicate for each pair of kinds, disjunctions, and tests that bind.

use crate::passes;
use ops_base::conditions::{Operand, Test};
use ops_base::list::Listed;
use ops_base::memory::OutOfMemory;
use ops_base::values::{Pred, Sym, Value};
use std::alloc::Global;
use std::test::Fail;

// The results with a constant and with a variable of this value.
fn at(pred: Pred, field: Value, operand: Value) -> (bool, bool) {
    let constant = Test {
        field: 0,
        pred,
        operand: Operand::Constant(operand),
        binds: false,
    };
    let variable = Test {
        field: 0,
        pred,
        operand: Operand::Variable(0),
        binds: false,
    };
    (
        passes(&constant, field, None),
        passes(&variable, field, Some(operand)),
    )
}

const A: Value = Value::Symbol(Sym(3));

const B: Value = Value::Symbol(Sym(4));

const THREE: Value = Value::Whole(3);

const FOUR: Value = Value::Whole(4);

const PAIRS: [(Value, Value); 8] = [
    (A, A),
    (A, B),
    (B, A),
    (A, THREE),
    (THREE, A),
    (THREE, FOUR),
    (THREE, THREE),
    (FOUR, THREE),
];

// A row for each predicate, with its result for each pair.
const ROWS: [(Pred, [bool; 8]); 7] = [
    (
        Pred::Eq,
        [true, false, false, false, false, false, true, false],
    ),
    (Pred::Ne, [false, true, true, true, true, true, false, true]),
    (
        Pred::Lt,
        [false, false, false, false, false, true, false, false],
    ),
    (
        Pred::Le,
        [false, false, false, false, false, true, true, false],
    ),
    (
        Pred::Gt,
        [false, false, false, false, false, false, false, true],
    ),
    (
        Pred::Ge,
        [false, false, false, false, false, false, true, true],
    ),
    (
        Pred::SameKind,
        [true, true, true, false, false, true, true, true],
    ),
];

#[test]
fn each_predicate_at_each_pair_of_kinds(rt: HostRuntime) {
    for (pred, wants) in ROWS {
        for i in 0..PAIRS.len() {
            let (field, operand) = PAIRS[i];
            let want = wants[i];
            assert_eq!(rt;
                at(pred, field, operand),
                (want, want),
                "{pred:?} of {field:?} and {operand:?}"
            );
        }
    }
}

fn in_disjunction(alloc: Global, values: &[Value], field: Value) -> Result<bool, OutOfMemory> {
    let test = Test {
        field: 0,
        pred: Pred::Eq,
        operand: Operand::OneOf(Listed::from_vec(Vec::from_slice(alloc, values)?)),
        binds: false,
    };
    Ok(passes(&test, field, None))
}

#[test]
fn a_disjunction_looks_at_each_constant(rt: HostRuntime) -> Result<(), Fail> {
    let word = Value::Symbol(Sym(3));
    let values = [Value::Whole(1), Value::Symbol(Sym(2)), word];
    assert!(rt; in_disjunction(rt.alloc(), &values, word)?);
    assert!(rt; in_disjunction(rt.alloc(), &values, Value::Whole(1))?);
    assert!(rt; !in_disjunction(rt.alloc(), &values, Value::Whole(3))?);
    assert!(rt; !in_disjunction(rt.alloc(), &[], word)?);
    Ok(())
}

#[test]
fn a_test_that_binds_passes(rt: HostRuntime) {
    let test = Test {
        field: 0,
        pred: Pred::Lt,
        operand: Operand::Variable(0),
        binds: true,
    };
    assert!(rt; passes(&test, Value::Symbol(Sym(3)), None));
    assert!(rt; passes(&test, Value::Whole(7), Some(Value::Whole(7))));
}
