//! The value of a `compute`: a loop over the steps of an expression, with its operands on a stack.
ghost use Rattle.std.specs.Prelude.{◌≡◌, ◌+ℤ◌, ◌-ℤ◌, ◌*ℤ◌, int_div, IfOk, OnOk, Ok, [], ◌∷◌, ◌++◌, reverse, unwrap_or};
ghost use Rattle.ops_base.specs.Matching.{value_of};
ghost use Rattle.ops_base.specs.Values.{nil};
ghost use Rattle.ops_base.specs.Expression.{after_step, operate};
ghost use Rattle.ops_meaning.specs.Computing.{in_range, is_zero, operated, applied, computed};

use ops_base::endings::ActKind;
use ops_base::expression::{Expr, Op, Step};
use ops_base::matching::{Binding, bound_value};
use ops_base::memory::OutOfMemory;
use ops_base::values::{NOTHING, Value};
use smallvec::SmallVec;
use std::alloc::Global;
use std::marker::Model;

/// How many operands the stack holds before it allocates. A chain of operations keeps two on it, and each parenthesis
/// on the right may keep one more. A larger number would make each `compute` slower, because each one creates its own
/// stack.
const OPERANDS: usize = 4;

/// A number, or the fault of an operation.
type Computed = Result<Value, ActKind>;

fn sum(a: i128, b: i128) -> Computed
    ensures { result ≡ in_range (a +ℤ b) }
{
    match a.checked_add(b) {
        Some(exact) => Ok(Value::Whole(exact)),
        None => Err(ActKind::Overflow),
    }
}

fn difference(a: i128, b: i128) -> Computed
    ensures { result ≡ in_range (a -ℤ b) }
{
    match a.checked_sub(b) {
        Some(exact) => Ok(Value::Whole(exact)),
        None => Err(ActKind::Overflow),
    }
}

fn product(a: i128, b: i128) -> Computed
    ensures { result ≡ in_range (a *ℤ b) }
{
    match a.checked_mul(b) {
        Some(exact) => Ok(Value::Whole(exact)),
        None => Err(ActKind::Overflow),
    }
}

/// Truncated towards zero.
fn quotient(a: i128, b: i128) -> Computed
    ensures { result ≡ operated Op.Div a b }
{
    if b == 0 {
        return Err(ActKind::ZeroDivisor);
    }
    match a.checked_div(b) {
        Some(exact) => Ok(Value::Whole(exact)),
        None => Err(ActKind::Overflow),
    }
}

/// Has the sign of the dividend. The remainder by -1 is 0, even for the least number.
fn remainder(a: i128, b: i128) -> Computed
    ensures { result ≡ operated Op.Rem a b }
{
    match b {
        0 => Err(ActKind::ZeroDivisor),
        -1 => Ok(Value::Whole(0)),
        _ => Ok(Value::Whole(a % b)),
    }
}

fn calculate(op: Op, a: i128, b: i128) -> Computed
    ensures { result ≡ operated op a b }
{
    match op {
        Op::Add => sum(a, b),
        Op::Sub => difference(a, b),
        Op::Mul => product(a, b),
        Op::Div => quotient(a, b),
        Op::Rem => remainder(a, b),
    }
}

/// Applies an operation to the results of its operands. The right operand was computed first.
fn apply(op: Op, left: Computed, right: Computed) -> Computed
    ensures { result ≡ applied op left right }
{
    match (left, right) {
        (_, Err(kind)) | (Err(kind), Ok(_)) => Err(kind),
        (Ok(Value::Whole(a)), Ok(Value::Whole(b))) => calculate(op, a, b),
        (Ok(_), Ok(_)) => Err(ActKind::NotNumber),
    }
}

/// The result of one operand. In contracts it is that result alone, not a struct.
#[derive(Drop)]
struct Operand {
    given: Computed,
}

impl Model for Operand {
    ghost use Rattle.ops_meaning.specs.Computing.{Computed};

    ghost Value = { Computed };

    ghost view = { λ o. o.given };
}

impl Default for Operand {
    fn default() -> Operand {
        Operand {
            given: Ok(Value::Whole(0)),
        }
    }
}

/// The operands so far, the last one at the end.
type Operands = SmallVec<Operand, OPERANDS>;

fn put(stack: &mut Operands, given: Computed) -> Result<(), OutOfMemory>
    ensures { OnOk result (stack.new.items ≡ stack.old.items ++ given ∷ []) }
{
    stack.push(Operand { given })?;
    Ok(())
}

/// Applies an operation to the two operands on top of the stack; the left one is on top of the right one.
fn operate(stack: &mut Operands, op: Op) -> Result<(), OutOfMemory>
    ensures { OnOk result (reverse stack.new.items ≡ operate (applied op) (reverse stack.old.items)) }
{
    if stack.len() < 2 {
        return Ok(());
    }
    if let Some(left) = stack.pop() {
        if let Some(right) = stack.pop() {
            put(stack, apply(op, left.given, right.given))?;
        }
    }
    Ok(())
}

/// Performs one step on the stack.
fn step(stack: &mut Operands, bindings: &[Binding], step: Step) -> Result<(), OutOfMemory>
    ensures { OnOk result (reverse stack.new.items
        ≡ after_step (λ n. Ok (Value.Whole n)) (λ v. Ok (unwrap_or (value_of bindings.now v) nil)) applied step (reverse stack.old.items)) }
{
    match step {
        Step::Number(n) => put(stack, Ok(Value::Whole(n))),
        Step::Variable(variable) => {
            let value = bound_value(bindings, variable).unwrap_or(NOTHING);
            put(stack, Ok(value))
        }
        Step::Apply(op) => operate(stack, op),
    }
}

/// The value of an expression. Takes time in proportion to the number of its operations, and for each variable in
/// proportion to the number of bindings.
#[tactic(auto, using(crate::proofs::Computed::comes_first, crate::proofs::Computed::comes_last))]
pub(crate) fn compute(
    alloc: Global,
    bindings: &[Binding],
    expr: &Expr,
) -> Result<Computed, OutOfMemory>
    ensures { IfOk result (λ r. r ≡ computed (λ v. unwrap_or (value_of bindings.now v) nil) expr.now) }
{
    let mut stack: Operands = SmallVec::new(alloc);
    for each in expr.steps() {
        step(&mut stack, bindings, *each)?;
    }
    match stack.pop() {
        Some(operand) => Ok(operand.given),
        None => unreachable!(),
    }
}
