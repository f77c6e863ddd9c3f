//! An earlier state as the changes that make it from nothing, with its marks.
ghost use Rattle.std.specs.Prelude.{◌≡◌, ◌++◌, List, [], false, IfOk, OnOk};
ghost use Rattle.ops_base.specs.declared.rules.Rule.{Rule};
ghost use Rattle.ops_base.specs.Names.{Spellings};
ghost use Rattle.ops_base.specs.WorkingMemory.{Lawful};
ghost use Rattle.ops_io.specs.Coming.{Coming};
ghost use Rattle.conflict_index.specs.Indexed.{KeepsSpecificities};
ghost use Rattle.cycle.specs.Settles.{Settles};
ghost use Rattle.cycle.specs.Standing.{Standing, after_firing};
ghost use Rattle.cycle.specs.States.{state_course};
ghost use Rattle.back_trail.specs.Kept.{IsSound, course_over};

use crate::marks::{Marks, drop_marks, insts_of, put_mark};
use crate::oldest::Oldest;
use conflict_index::Index;
use cycle::{Maker, State, made_over};
use ops_base::commands::Strategy;
use ops_base::elements::Change;
use ops_base::memory::OutOfMemory;
use ops_base::programs::Program;
use ops_base::rules::Inst;
use std::alloc::Global;
use std::marker::Model;
use work_store::{Matcher, Settled};

/// The changes that make a working memory from nothing, and the marks.
#[derive(Drop)]
pub(crate) struct Remade {
    changes: Vec<Change>,
    marks: Marks,
}

impl Model for Remade {
    ghost use Rattle.cycle.specs.Standing.{Standing};
    ghost use Rattle.back_trail.specs.Kept.{IsRemade, remade};

    ghost Value = { Standing };

    ghost view = { λ r. remade r.changes.items r.marks.keys };

    ghost invariant = { λ r. IsRemade r.changes.items r.marks.keys };
}

/// Adds copies of changes at the end.
fn add_changes(alloc: Global, changes: &mut Vec<Change>, more: &[Change]) -> Result<(), OutOfMemory>
    ensures { OnOk result (changes.new.items ≡ changes.old.items ++ more.now) }
{
    for change in more {
        let change = match change {
            Change::Add(element) => Change::Add(element.copy(alloc)?),
            Change::Remove(tag) => Change::Remove(*tag),
        };
        changes.push(change)?;
    }
    Ok(())
}

fn copies_of(alloc: Global, insts: &[Inst]) -> Result<Vec<Inst>, OutOfMemory>
    ensures { IfOk result (λ v. v.items ≡ insts.now) }
{
    let mut copies = Vec::new(alloc);
    for inst in insts {
        copies.push(inst.copy(alloc)?)?;
    }
    Ok(copies)
}

impl Remade {
    /// The oldest state.
    pub(crate) fn of(alloc: Global, oldest: &Oldest, classes: usize) -> Result<Remade, OutOfMemory>
        ensures { IfOk result (λ r. r ≡ oldest.now) }
    {
        let changes = oldest.changes(alloc, classes)?;
        let marks = oldest.marks(alloc)?;
        Ok(Remade { changes, marks })
    }

    /// The state after a firing.
    pub(crate) fn follow(
        self,
        alloc: Global,
        inst: &Inst,
        changes: &[Change],
        gone: &[Inst],
    ) -> Result<Remade, OutOfMemory>
        requires { Lawful self.wm self.last changes.now }
        ensures { IfOk result (λ r. r ≡ after_firing (record { inst = inst.now; halted = false; changes = changes.now; gone = gone.now; built = [] }) self) }
    {
        let Remade {
            changes: all,
            marks,
        } = self;
        let mut all = all;
        let mut marks = marks;
        add_changes(alloc, &mut all, changes)?;
        put_mark(&mut marks, inst.copy(alloc)?)?;
        drop_marks(&mut marks, copies_of(alloc, gone)?);
        Ok(Remade {
            changes: all,
            marks,
        })
    }

    /// A state of the cycle: a new matcher does the changes in one phase, and what it finds gets the marks. It costs the
    /// compilation of the program and that phase.
    pub(crate) fn into_state<
        B: Maker,
        H: Fn(B::M, &[Change]) -> Result<Settled<B::M>, OutOfMemory>,
    >(
        self,
        alloc: Global,
        maker: &B,
        hand: &H,
        program: &Program,
        strategy: Strategy,
        firings: u64,
    ) -> Result<State<B::M>, OutOfMemory>
        requires settles { Settles B.M.stored B.M.found B.M.stands_for (λ m cs. H.pre hand.now m cs) (λ m cs r. H.post hand.now m cs r) }
        ensures course { IfOk result (λ s. (names : Spellings) (coming : Coming) → state_course B.M.stored s names coming
            ≡ course_over program.now.rules self strategy firings names coming) }
        ensures sound { IsSound self }
        ensures stands { IfOk result (λ s. B.M.stands_for s.matcher program.now.rules) }
        ensures specificities { IfOk result (λ s. KeepsSpecificities program.now.rules s.index.members) }
    {
        let marks = insts_of(alloc, &self.marks)?;
        let Settled {
            matcher,
            come,
            gone: _,
        } = made_over(alloc, maker, hand, program, self.changes.as_slice())?;
        // the store is looked at for what the matcher keeps true
        let _store = matcher.store();
        let index = Index::with_marks(alloc, strategy, program, come.as_slice(), marks.as_slice())?;
        State::adopt(alloc, matcher, index, firings)
    }
}
