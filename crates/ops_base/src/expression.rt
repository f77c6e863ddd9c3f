//! What `compute` calculates: flat in memory, and a tree to a contract.
ghost use Rattle.std.specs.Prelude.{◌≡◌, ◌↔◌, IfOk, IsTrue};
ghost use Rattle.ops_base.specs.Expression.{number, variable, apply as applied, steps_of};

use crate::memory::OutOfMemory;
use std::alloc::Global;
use std::marker::Model;

/// An operation on two numbers.
#[derive(Clone, Copy, Debug, PartialEq, Eq)]
pub enum Op {
    Add,
    Sub,
    Mul,
    Div,
    Rem,
}

/// One step of a loop that evaluates an expression on a stack. An operand goes on top. An operation takes two from the
/// top, the left operand above the right one, and puts what it gives of them there.
#[derive(Clone, Copy, Debug, PartialEq, Eq)]
pub enum Step {
    Number(i128),
    /// A variable by its number.
    Variable(usize),
    Apply(Op),
}

/// Operations on numbers and variables, nested to any depth. A text can hold millions of operands in a row, so nothing
/// here recurses: an expression is made, copied, compared and dropped as the list of its steps.
#[derive(Debug, Drop)]
pub struct Expr {
    steps: Vec<Step>,
}

impl Model for Expr {
    ghost use Rattle.std.specs.Prelude.{◌≡◌};
    ghost use Rattle.ops_base.specs.Expression.{Formula, formula_from, steps_of};
    ghost use Rattle.ops_base.specs.ExpressionCode.{formula_code};

    ghost Value = { Formula };

    ghost coded = { formula_code };

    ghost view = { λ e. formula_from e.steps.items };

    ghost invariant = { λ e. steps_of (formula_from e.steps.items) ≡ e.steps.items };
}

impl Expr {
    pub fn number(alloc: Global, n: i128) -> Result<Expr, OutOfMemory>
        ensures { IfOk result (λ e. e ≡ number n) }
    {
        let steps = vec![in alloc; Step::Number(n)]?;
        Ok(Expr { steps })
    }

    /// The variable with the number `v`.
    pub fn variable(alloc: Global, v: usize) -> Result<Expr, OutOfMemory>
        ensures { IfOk result (λ e. e ≡ variable v) }
    {
        let steps = vec![in alloc; Step::Variable(v)]?;
        Ok(Expr { steps })
    }

    /// Takes amortized time in proportion to the steps of `left` alone, so a chain is best made from its right end. A
    /// refusal drops both operands.
    pub fn apply(op: Op, left: Expr, right: Expr) -> Result<Expr, OutOfMemory>
        ensures { IfOk result (λ e. e ≡ applied op left right) }
    {
        let mut steps = right.steps;
        steps.extend_from_slice(left.steps.as_slice())?;
        steps.push(Step::Apply(op))?;
        Ok(Expr { steps })
    }

    /// In the order in which a loop evaluates them, from a stack that is empty to one that holds the value alone.
    pub fn steps(&self) -> &[Step]
        ensures { result.now ≡ steps_of self.now }
    {
        &self.steps
    }

    pub fn copy(&self, alloc: Global) -> Result<Expr, OutOfMemory>
        ensures { IfOk result (λ e. e ≡ self.now) }
    {
        let steps = Vec::from_slice(alloc, self.steps.as_slice())?;
        Ok(Expr { steps })
    }

    /// Whether both are the same tree, which is more than to have the same value.
    pub fn equals(&self, other: &Expr) -> bool
        ensures { IsTrue result ↔ (self.now ≡ other.now) }
    {
        self.steps.as_slice() == other.steps.as_slice()
    }
}
