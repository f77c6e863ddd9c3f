//! Lets the state of the cycle grow by productions that were added.
ghost use Rattle.std.specs.Prelude.{◌≡◌, ◌<◌, ◌≤◌, suc, length, take, IfOk};
ghost use Rattle.ops_base.specs.Names.{Spellings};
ghost use Rattle.ops_io.specs.Coming.{Coming};
ghost use Rattle.cycle.specs.States.{state_course};
ghost use Rattle.live_rules.specs.Renewing.{IsOf};

use cycle::{Maker, State};
use ops_base::memory::OutOfMemory;
use ops_base::programs::Program;
use std::alloc::Global;
use work_store::{Matcher, Settled};

/// A state for the productions before the one with this number, with that production added to it. All that it found
/// stays, with its marks, and what the new production matches has come. If memory runs out, the state is lost.
fn grow<B: Maker>(
    alloc: Global,
    maker: &B,
    state: State<B::M>,
    program: &Program,
    number: usize,
) -> Result<State<B::M>, OutOfMemory>
    requires within { number < length program.now.rules }
    requires before { IsOf B.M.stands_for (take number program.now.rules) state }
    ensures course { IfOk result (λ s. (names : Spellings) (coming : Coming) → state_course B.M.stored s names coming
        ≡ state_course B.M.stored state names coming) }
    ensures after { IfOk result (IsOf B.M.stands_for (take (suc number) program.now.rules)) }
{
    let (matcher, index, firings, _last) = state.apart();
    let Settled {
        matcher,
        come,
        gone,
    } = maker.grow(alloc, matcher, program, number)?;
    // reads the store to get at the matcher's invariants
    let _store = matcher.store();
    let mut index = index;
    index.apply(program, gone.as_slice(), come.as_slice())?;
    State::adopt(alloc, matcher, index, firings)
}

/// A state for the first productions of the program, so many, with all the others added to it, one after the other. If
/// memory runs out, the state is lost.
pub(crate) fn grow_all<B: Maker>(
    alloc: Global,
    maker: &B,
    state: State<B::M>,
    program: &Program,
    first: usize,
) -> Result<State<B::M>, OutOfMemory>
    requires within { first ≤ length program.now.rules }
    requires before { IsOf B.M.stands_for (take first program.now.rules) state }
    ensures course { IfOk result (λ s. (names : Spellings) (coming : Coming) → state_course B.M.stored s names coming
        ≡ state_course B.M.stored state names coming) }
    ensures after { IfOk result (IsOf B.M.stands_for program.now.rules) }
{
    let mut state = state;
    for number in first..program.rules.len() {
        state = grow(alloc, maker, state, program, number)?;
    }
    Ok(state)
}
