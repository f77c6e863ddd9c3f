//! A copy of a long expression.

use ops_base::expression::{Expr, Op};
use ops_base::memory::OutOfMemory;

const OPERANDS: usize = 100_000;

// As many boxes, one in another, would overflow the stack.
#[test]
fn long_chain(rt: HostRuntime) -> Result<(), OutOfMemory> {
    let alloc = rt.alloc();
    let mut chain = Expr::variable(alloc, 7)?;
    for _ in 1..OPERANDS {
        chain = Expr::apply(Op::Add, Expr::number(alloc, 1)?, chain)?;
    }
    let copy = chain.copy(alloc)?;
    assert_eq!(rt; copy.steps().len(), 2 * OPERANDS - 1);
    assert!(rt; copy.equals(&chain));
    Ok(())
}
