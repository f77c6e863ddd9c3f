//! Whether two tests, conditions or groups are the same.
ghost use Rattle.std.specs.Prelude.{◌≡◌, ◌↔◌, IsTrue};

use net_base::normal::{NormalCondition, NormalOperand, NormalPart, NormalTest};
use ops_base::conditions::{Operand, Test};
use ops_base::values::Value;

pub(crate) trait Same {
    fn same(&self, other: &Self) -> bool
        ensures { IsTrue result ↔ (self.now ≡ other.now) };
}

/// Compares two lists item by item, up to the first two items that differ.
pub(crate) fn same_items<T: Same>(a: &[T], b: &[T]) -> bool
    ensures { IsTrue result ↔ (a.now ≡ b.now) }
{
    let mut left = a;
    let mut right = b;
    while let Some((x, xs)) = left.split_first() {
        match right.split_first() {
            None => return false,
            Some((y, ys)) => {
                if !x.same(y) {
                    return false;
                }
                left = xs;
                right = ys;
            }
        }
    }
    right.is_empty()
}

impl Same for Value {
    fn same(&self, other: &Self) -> bool {
        *self == *other
    }
}

impl Same for Operand {
    fn same(&self, other: &Self) -> bool {
        match (self, other) {
            (Operand::Constant(x), Operand::Constant(y)) => *x == *y,
            (Operand::OneOf(xs), Operand::OneOf(ys)) => same_items(xs.as_slice(), ys.as_slice()),
            (Operand::Variable(x), Operand::Variable(y)) => *x == *y,
            _ => false,
        }
    }
}

impl Same for Test {
    fn same(&self, other: &Self) -> bool {
        self.field == other.field
            && self.pred == other.pred
            && self.binds == other.binds
            && self.operand.same(&other.operand)
    }
}

impl Same for NormalOperand {
    fn same(&self, other: &Self) -> bool {
        match (self, other) {
            (NormalOperand::Constant(x), NormalOperand::Constant(y)) => *x == *y,
            (NormalOperand::OneOf(xs), NormalOperand::OneOf(ys)) => {
                same_items(xs.as_slice(), ys.as_slice())
            }
            (NormalOperand::Bound(x), NormalOperand::Bound(y)) => *x == *y,
            _ => false,
        }
    }
}

impl Same for NormalTest {
    fn same(&self, other: &Self) -> bool {
        self.field == other.field && self.pred == other.pred && self.operand.same(&other.operand)
    }
}

impl Same for NormalCondition {
    fn same(&self, other: &Self) -> bool {
        self.negated == other.negated
            && self.class == other.class
            && same_items(self.tests.as_slice(), other.tests.as_slice())
    }
}

impl Same for NormalPart {
    fn same(&self, other: &Self) -> bool {
        match (self, other) {
            (NormalPart::One(c), NormalPart::One(d)) => c.same(d),
            (NormalPart::Group(cs), NormalPart::Group(ds)) => {
                same_items(cs.as_slice(), ds.as_slice())
            }
            _ => false,
        }
    }
}
