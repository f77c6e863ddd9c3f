//! What two conflict sets differ in.
ghost use Rattle.std.specs.Prelude.{◌≡◌, ◌++◌, IfOk, OnOk};
ghost use Rattle.ops_base.specs.Instances.{IsInOrder};
ghost use Rattle.work_store.specs.Settling.{IsSettled};

use ops_base::memory::OutOfMemory;
use ops_base::rules::Inst;
use std::alloc::Global;
use std::cmp::Ordering;

/// What only the set before has, and what only the set now has.
#[derive(Drop)]
pub(crate) struct Difference {
    pub(crate) gone: Vec<Inst>,
    pub(crate) come: Vec<Inst>,
}

fn add_copies(alloc: Global, from: &[Inst], to: &mut Vec<Inst>) -> Result<(), OutOfMemory>
    ensures { OnOk result (to.new.items ≡ to.old.items ++ from.now) }
{
    for inst in from {
        to.push(inst.copy(alloc)?)?;
    }
    Ok(())
}

/// Goes over the two sets once, side by side. What is in both is not copied.
pub(crate) fn difference_of(
    alloc: Global,
    before: &[Inst],
    now: &[Inst],
) -> Result<Difference, OutOfMemory>
    requires before { IsInOrder before.now }
    requires now { IsInOrder now.now }
    ensures { IfOk result (λ d. IsSettled before.now now.now d.gone.items d.come.items) }
{
    let mut gone = Vec::new(alloc);
    let mut come = Vec::new(alloc);
    let mut before_at = 0;
    let mut now_at = 0;
    'both: while before_at < before.len() && now_at < now.len() {
        let old = &before[before_at];
        let new = &now[now_at];
        match old.compare(new) {
            Ordering::Less => {
                gone.push(old.copy(alloc)?)?;
                before_at += 1;
            }
            Ordering::Equal => {
                before_at += 1;
                now_at += 1;
            }
            Ordering::Greater => {
                come.push(new.copy(alloc)?)?;
                now_at += 1;
            }
        }
    }
    add_copies(alloc, &before[before_at..], &mut gone)?;
    add_copies(alloc, &now[now_at..], &mut come)?;
    Ok(Difference { gone, come })
}
