//! An engine over a small network, with ample memory. Two of three workers share a phase. The gate counts activations.
use crate::counting::Counting;
use crate::networks::{element, twin};
use free_engine::FreeEngine;
use ops_base::elements::Change;
use ops_base::memory::OutOfMemory;
use std::alloc::Global;
use std::sync::Wait;
use std::test::Fail;
use std::thread::Threads;
use work_store::Settled;

// two elements are added
fn two_come<'a, R: Threads + Wait + Sync>(
    rt: &R,
    alloc: Global,
    gate: &'a Counting,
) -> Result<Settled<FreeEngine<&'a Counting>>, OutOfMemory> {
    let engine = FreeEngine::new(alloc, twin(alloc)?, 4, 3, gate)?;
    let changes = [
        Change::Add(element(alloc, 1, 0)?),
        Change::Add(element(alloc, 2, 0)?),
    ];
    engine.settle_freely(rt, alloc, changes.as_slice())
}

// Each element pairs with each: two tasks at the first join, on line 0; two right and two left ones at the second join,
// on line (31 + 7) % 4; and four at the terminal, that of the tags s and t on line ((2 * 31 + s) * 31 + t) % 4.
#[test]
fn workers_find_all_pairs(rt: HostRuntime) -> Result<(), Fail> {
    let alloc = rt.alloc();
    let gate = Counting::new();
    let Settled {
        matcher,
        come,
        gone,
    } = two_come(&rt, alloc, &gate)?;
    assert_eq!(rt; (come.len(), gone.len()), (4, 0));
    assert_eq!(rt; gate.counted(), (10, 4 * 2 + 2 + 3 + 1 + 2));
    assert_eq!(rt; matcher.lines().len(), 4);
    Ok(())
}
