//! The direct engine.
ghost use Rattle.std.specs.Prelude.{◌≡◌, ◌<◌, suc, length, take, IfOk};
ghost use Rattle.ops_base.specs.Instances.{IsConflictSet, IsInOrder};
ghost use Rattle.work_store.specs.Settling.{IsSettled};
ghost use Rattle.work_store.specs.Stored.{nothing_stored};

use crate::difference::{Difference, difference_of};
use ops_base::direct::direct_set_of;
use ops_base::elements::Change;
use ops_base::list::Listed;
use ops_base::memory::OutOfMemory;
use ops_base::programs::Program;
use ops_base::rules::Inst;
use std::alloc::Global;
use std::marker::Model;
use work_store::{Matcher, Settled, Store};

/// A matcher that keeps no more than the conflict set, and finds all of it again in each phase.
#[derive(Drop)]
pub struct DirectEngine {
    program: Program,
    store: Store,
    found: Listed<Inst>,
}

impl Model for DirectEngine {
    ghost use Rattle.std.specs.Coded.{codes};
    ghost use Rattle.ops_base.specs.ExpressionCode.{formula_code};
    ghost use Rattle.ops_base.specs.Instances.{IsConflictSet};
    ghost use Rattle.direct_engine.specs.Engines.{Engine};

    ghost Value = { Engine };

    ghost coded = { Prim.hlevel (codes, formula_code) };

    ghost view = { λ e. record { rules = e.program.rules; stored = e.store; found = e.found } };

    ghost invariant = { λ e. IsConflictSet e.program.rules e.store.elements e.found };
}

/// The conflict set of what is present. Each condition of each rule looks at all of working memory.
fn find(alloc: Global, program: &Program, store: &Store) -> Result<Listed<Inst>, OutOfMemory>
    ensures { IfOk result (IsConflictSet program.now.rules store.now.elements) }
{
    let present = store.present(alloc)?;
    direct_set_of(alloc, program, present.as_slice())
}

/// The engine of this program over this store, and how what it finds differs from what was found before.
fn settled(
    alloc: Global,
    program: Program,
    store: Store,
    before: &Listed<Inst>,
) -> Result<Settled<DirectEngine>, OutOfMemory>
    requires { IsInOrder before.now }
    ensures rules { IfOk result (λ s. s.matcher.rules ≡ program.rules) }
    ensures stored { IfOk result (λ s. s.matcher.stored ≡ store) }
    ensures settled { IfOk result (λ s. IsSettled before.now s.matcher.found s.gone.items s.come.items) }
{
    let found = find(alloc, &program, &store)?;
    let Difference { gone, come } = difference_of(alloc, before.as_slice(), found.as_slice())?;
    let matcher = DirectEngine {
        program,
        store,
        found,
    };
    Ok(Settled {
        matcher,
        come,
        gone,
    })
}

/// A copy of the program that has only the first so many of its productions.
fn beginning(alloc: Global, program: &Program, count: usize) -> Result<Program, OutOfMemory>
    ensures { IfOk result (λ p. p.rules ≡ take count program.now.rules) }
{
    let Program {
        classes,
        rules,
        templates,
        commands,
        text,
    } = program.copy(alloc)?;
    let mut rules = rules.into_vec();
    rules.truncate(count);
    let rules = Listed::from_vec(rules);
    Ok(Program::new(classes, rules, templates, commands, text))
}

impl DirectEngine {
    /// Copies the program. Nothing is stored, and nothing is found.
    pub fn new(alloc: Global, program: &Program) -> Result<DirectEngine, OutOfMemory>
        ensures stands { IfOk result (λ e. e.rules ≡ program.now.rules) }
        ensures empty { IfOk result (λ e. e.stored ≡ nothing_stored) }
    {
        let program = program.copy(alloc)?;
        let store = Store::new(alloc);
        let found = find(alloc, &program, &store)?;
        Ok(DirectEngine {
            program,
            store,
            found,
        })
    }

    /// The engine of the productions before the one with this number, with that production added to it. It keeps its
    /// working memory. What it finds now and did not find before has come. It copies the program, and finds the whole
    /// conflict set again, as a settle does. If memory runs out, the engine is lost.
    pub fn grow(
        self,
        alloc: Global,
        program: &Program,
        number: usize,
    ) -> Result<Settled<DirectEngine>, OutOfMemory>
        requires within { number < length program.now.rules }
        requires before { self.rules ≡ take number program.now.rules }
        ensures stands { IfOk result (λ s. s.matcher.rules ≡ take (suc number) program.now.rules) }
        ensures elements { IfOk result (λ s. s.matcher.stored.elements ≡ self.stored.elements) }
        ensures last { IfOk result (λ s. s.matcher.stored.last ≡ self.stored.last) }
        ensures settled { IfOk result (λ s. IsSettled self.found s.matcher.found s.gone.items s.come.items) }
    {
        let DirectEngine {
            program: _,
            store,
            found: before,
        } = self;
        let program = beginning(alloc, program, number + 1)?;
        settled(alloc, program, store, &before)
    }
}

impl Matcher for DirectEngine {
    ghost stored = { λ e. e.stored };

    ghost found = { λ e. e.found };

    ghost stands_for = { λ e rules. e.rules ≡ rules };

    type Hand = ();

    fn store(&self) -> &Store {
        &self.store
    }

    /// Where there are changes it finds the whole conflict set again: for each rule it takes time in all of working
    /// memory, however few the changes are.
    fn settle(
        self,
        alloc: Global,
        _hand: &mut (),
        changes: &[Change],
    ) -> Result<Settled<DirectEngine>, OutOfMemory> {
        if changes.is_empty() {
            return Ok(Settled {
                matcher: self,
                come: Vec::new(alloc),
                gone: Vec::new(alloc),
            });
        }
        let DirectEngine {
            program,
            mut store,
            found: before,
        } = self;
        store.make_changes(alloc, changes)?;
        store.forget();
        settled(alloc, program, store, &before)
    }
}
