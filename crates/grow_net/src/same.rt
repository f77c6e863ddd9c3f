//! Whether two alphas are the same.
ghost use Rattle.std.specs.Prelude.{◌≡◌, ◌↔◌, IsTrue};

use net_base::nodes::Alpha;
use ops_base::conditions::{Operand, Test};
use ops_base::values::Value;

trait Same {
    fn same(&self, other: &Self) -> bool
        ensures { IsTrue result ↔ (self.now ≡ other.now) };
}

/// Compares two lists item by item, up to the first two items that differ.
fn same_items<T: Same>(a: &[T], b: &[T]) -> bool
    ensures { IsTrue result ↔ (a.now ≡ b.now) }
{
    let mut left = a;
    let mut right = b;
    while let Some((x, xs)) = left.split_first() {
        match right.split_first() {
            None => return false,
            Some((y, ys)) => {
                if !x.same(y) {
                    return false;
                }
                left = xs;
                right = ys;
            }
        }
    }
    right.is_empty()
}

impl Same for Value {
    fn same(&self, other: &Self) -> bool {
        *self == *other
    }
}

impl Same for Operand {
    fn same(&self, other: &Self) -> bool {
        match (self, other) {
            (Operand::Constant(x), Operand::Constant(y)) => *x == *y,
            (Operand::OneOf(xs), Operand::OneOf(ys)) => same_items(xs.as_slice(), ys.as_slice()),
            (Operand::Variable(x), Operand::Variable(y)) => *x == *y,
            _ => false,
        }
    }
}

impl Same for Test {
    fn same(&self, other: &Self) -> bool {
        self.field == other.field
            && self.pred == other.pred
            && self.binds == other.binds
            && self.operand.same(&other.operand)
    }
}

/// Whether two alphas have the same class and the same tests in the same order. It compares the tests only if the
/// classes are the same.
pub(crate) fn is_same(a: &Alpha, b: &Alpha) -> bool
    ensures { IsTrue result ↔ (a.now ≡ b.now) }
{
    a.class == b.class && same_items(a.tests.as_slice(), b.tests.as_slice())
}
