//! Makes the state of the cycle follow the program in force.
ghost use Rattle.std.specs.Prelude.{◌≡◌, IfOk, IfSome};
ghost use Rattle.ops_base.specs.Feeding.{fed_again};
ghost use Rattle.ops_base.specs.Names.{Spellings};
ghost use Rattle.ops_io.specs.Coming.{Coming};
ghost use Rattle.conflict_index.specs.Indexed.{KeepsSpecificities};
ghost use Rattle.cycle.specs.Settles.{Settles};
ghost use Rattle.cycle.specs.States.{state_course};
ghost use Rattle.live_rules.specs.Moves.{inst_moved, insts_moved, unmoved};
ghost use Rattle.live_rules.specs.Renewing.{IsFrom, moved_course};

use crate::growing::grow_all;
use crate::moved::Moved;
use conflict_index::Index;
use cycle::{Maker, State, made_over};
use ops_base::elements::{Change, Element};
use ops_base::list::Listed;
use ops_base::memory::OutOfMemory;
use ops_base::programs::Program;
use ops_base::rules::Inst;
use std::alloc::Global;
use work_store::{Matcher, Settled, Store};

/// The changes that rebuild a working memory and the last tag that was assigned, for a program with this many classes.
/// Copies all elements.
pub fn fed(
    alloc: Global,
    store: &Store,
    classes: usize,
    last: u64,
) -> Result<Vec<Change>, OutOfMemory>
    ensures { IfOk result (λ v. v.items ≡ fed_again classes store.now.elements last) }
{
    let mut changes = Vec::new(alloc);
    let mut given = 0;
    for element in store.iter() {
        given = element.tag;
        changes.push(Change::Add(element.copy(alloc)?))?;
    }
    if given != last {
        let fields = Listed::new(alloc);
        changes.push(Change::Add(Element {
            tag: last,
            class: classes,
            fields,
        }))?;
        changes.push(Change::Remove(last))?;
    }
    Ok(changes)
}

/// An instantiation under the new number of its production.
fn inst_moved(inst: Inst, moved: &Moved) -> Option<Inst>
    ensures { result ≡ inst_moved moved.now inst }
{
    let rule = moved.place(inst.rule)?;
    let tags = inst.tags;
    Some(Inst { rule, tags })
}

/// The instantiations of productions that are still in force, under their new numbers.
fn insts_moved(alloc: Global, insts: Vec<Inst>, moved: &Moved) -> Result<Vec<Inst>, OutOfMemory>
    ensures { IfOk result (λ v. v.items ≡ insts_moved moved.now insts.items) }
{
    let mut left = Vec::new(alloc);
    for inst in insts {
        if let Some(inst) = inst_moved(inst, moved) {
            left.push(inst)?;
        }
    }
    Ok(left)
}

/// A state for the program in force, made from a state for an older one: a new matcher is fed all elements, and the
/// instantiations of productions that stay keep their marks. Its cost is that of compiling the program and of one phase
/// in which all elements are added, however many productions came and went. The old matcher is dropped before the new
/// one is made. If memory runs out, the state is lost.
fn remake<B: Maker, H: Fn(B::M, &[Change]) -> Result<Settled<B::M>, OutOfMemory>>(
    alloc: Global,
    maker: &B,
    hand: &H,
    state: State<B::M>,
    program: &Program,
    moved: &Moved,
) -> Result<State<B::M>, OutOfMemory>
    requires settles { Settles B.M.stored B.M.found B.M.stands_for (λ m cs. H.pre hand.now m cs) (λ m cs r. H.post hand.now m cs r) }
    requires from { IsFrom B.M.stands_for moved.now program.now.rules state }
    ensures course { IfOk result (λ s. (names : Spellings) (coming : Coming) → state_course B.M.stored s names coming
        ≡ moved_course moved.now (state_course B.M.stored state names coming)) }
    ensures stands { IfOk result (λ s. B.M.stands_for s.matcher program.now.rules) }
    ensures specificities { IfOk result (λ s. KeepsSpecificities program.now.rules s.index.members) }
{
    let strategy = state.index().strategy();
    let firings = state.firings();
    let marks = insts_moved(alloc, state.index().marks(alloc)?, moved)?;
    let last = state.last_tag();
    let changes = fed(alloc, state.store(), program.classes.len(), last)?;
    drop(state);
    let Settled {
        matcher,
        come,
        gone: _,
    } = made_over(alloc, maker, hand, program, changes.as_slice())?;
    // reads the store to get at the matcher's invariants
    let _store = matcher.store();
    let index = Index::with_marks(alloc, strategy, program, come.as_slice(), marks.as_slice())?;
    State::adopt(alloc, matcher, index, firings)
}

/// The number of productions that a state was made for, if it is to grow to the program in force: none of them was
/// removed, and no more were added than there were. Where more were added, a new matcher is better: the network that is
/// compiled for it shares what the conditions of several productions begin with, and a production that is added later
/// shares nothing.
fn grows_from(program: &Program, moved: &Moved) -> Option<usize>
    ensures { IfSome result (λ n. moved.now ≡ unmoved n) }
{
    let before = moved.unmoved()?;
    if program.rules.len().saturating_sub(before) > before {
        return None;
    }
    Some(before)
}

/// A state for the program in force, made from a state for an older one. Instantiations of productions that stay keep
/// their marks. If productions were only added, and not more than there were, the matcher grows by one after the other:
/// this costs one scan of the numbers of the productions, and for each that was added what it matches, and one look at
/// each element for each of its conditions. Otherwise there is a new matcher: this costs the compilation of the program
/// and one phase in which all elements are added, however many productions came and went. If memory runs out, the state
/// is lost.
pub fn renew<B: Maker, H: Fn(B::M, &[Change]) -> Result<Settled<B::M>, OutOfMemory>>(
    alloc: Global,
    maker: &B,
    hand: &H,
    state: State<B::M>,
    program: &Program,
    moved: &Moved,
) -> Result<State<B::M>, OutOfMemory>
    requires settles { Settles B.M.stored B.M.found B.M.stands_for (λ m cs. H.pre hand.now m cs) (λ m cs r. H.post hand.now m cs r) }
    requires from { IsFrom B.M.stands_for moved.now program.now.rules state }
    ensures course { IfOk result (λ s. (names : Spellings) (coming : Coming) → state_course B.M.stored s names coming
        ≡ moved_course moved.now (state_course B.M.stored state names coming)) }
    ensures stands { IfOk result (λ s. B.M.stands_for s.matcher program.now.rules) }
    ensures specificities { IfOk result (λ s. KeepsSpecificities program.now.rules s.index.members) }
{
    let Some(first) = grows_from(program, moved) else {
        return remake(alloc, maker, hand, state, program, moved);
    };
    // reads the index: its members are the conflict set, so no mark is of a production that was added
    let _index = state.index();
    grow_all(alloc, maker, state, program, first)
}
