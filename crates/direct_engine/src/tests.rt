//! The direct engine over a few phases.
ghost use Rattle.std.specs.Prelude.{◌≡◌, [], ◌∷◌, false, IfOk};
ghost use Rattle.work_store.specs.Stored.{nothing_stored};

use crate::DirectEngine;
use ops_base::conditions::{Condition, Part};
use ops_base::elements::{Change, Class, Element};
use ops_base::list::Listed;
use ops_base::memory::OutOfMemory;
use ops_base::programs::Program;
use ops_base::rules::{Inst, Rule};
use ops_base::values::Sym;
use std::alloc::Global;
use work_store::{Matcher, Settled};

fn one<T: Drop>(alloc: Global, item: T) -> Result<Listed<T>, OutOfMemory>
    ensures { IfOk result (λ l. l ≡ item ∷ []) }
{
    let mut items = Vec::new(alloc);
    items.push(item)?;
    Ok(Listed::from_vec(items))
}

fn two<T: Drop>(alloc: Global, first: T, second: T) -> Result<Listed<T>, OutOfMemory>
    ensures { IfOk result (λ l. l ≡ first ∷ second ∷ []) }
{
    let mut items = Vec::new(alloc);
    items.push(first)?;
    items.push(second)?;
    Ok(Listed::from_vec(items))
}

fn class(alloc: Global, name: u64) -> Class
    ensures { result ≡ record { name = record { 0 = name }; attrs = []; vector = false } }
{
    Class {
        name: Sym(name),
        attrs: Listed::new(alloc),
        vector: false,
    }
}

/// Of a class, with no test.
fn condition(alloc: Global, class: usize, negated: bool) -> Part
    ensures { result ≡ Part.One (record { class = class; negated = negated; tests = [] }) }
{
    Part::One(Condition {
        class,
        negated,
        tests: Listed::new(alloc),
    })
}

/// `(p free (a) - (b) --> )`
fn program(alloc: Global) -> Result<Program, OutOfMemory> {
    let classes = two(alloc, class(alloc, 1), class(alloc, 2))?;
    let conditions = two(alloc, condition(alloc, 0, false), condition(alloc, 1, true))?;
    let rule = Rule {
        name: Sym(3),
        conditions,
        actions: Listed::new(alloc),
        specificity: 2,
        variables: 0,
        cells: 1,
        first: 0,
        past: 0,
    };
    let rules = one(alloc, rule)?;
    Ok(Program::new(
        classes,
        rules,
        Listed::new(alloc),
        Listed::new(alloc),
        Listed::new(alloc),
    ))
}

fn element(alloc: Global, tag: u64, class: usize) -> Element
    ensures { result ≡ record { tag = tag; class = class; fields = [] } }
{
    Element {
        tag,
        class,
        fields: Listed::new(alloc),
    }
}

/// What a caller above knows of a new matcher, by the words of the trait.
fn ready<M: Matcher>(matcher: M, _program: &Program) -> M
    requires stands { M.stands_for matcher _program.now.rules }
    requires empty { M.stored matcher ≡ nothing_stored }
    ensures { result ≡ matcher }
{
    matcher
}

/// It is one instantiation of the rule, with the one tag.
fn is_only(insts: &[Inst], tag: u64) -> bool {
    match insts {
        [inst] => inst.rule == 0 && inst.tags.as_slice() == [tag].as_slice(),
        _ => false,
    }
}

/// The first phase makes an `a`.
fn begun(alloc: Global, program: &Program) -> Result<Settled<DirectEngine>, OutOfMemory>
    ensures elements { IfOk result
        (λ s. s.matcher.stored.elements ≡ record { tag = 1; class = 0; fields = [] } ∷ []) }
    ensures last { IfOk result (λ s. s.matcher.stored.last ≡ 1) }
{
    let engine = ready(DirectEngine::new(alloc, program)?, program);
    let changes = [Change::Add(element(alloc, 1, 0))];
    engine.settle(alloc, &mut (), changes.as_slice())
}

/// Makes a `b` and removes it.
fn blocked_for_a_moment(
    alloc: Global,
    engine: DirectEngine,
) -> Result<Settled<DirectEngine>, OutOfMemory>
    requires elements { engine.stored.elements ≡ record { tag = 1; class = 0; fields = [] } ∷ [] }
    requires last { engine.stored.last ≡ 1 }
    ensures elements { IfOk result
        (λ s. s.matcher.stored.elements ≡ record { tag = 1; class = 0; fields = [] } ∷ []) }
    ensures last { IfOk result (λ s. s.matcher.stored.last ≡ 2) }
{
    let changes = [Change::Add(element(alloc, 2, 1)), Change::Remove(2)];
    engine.settle(alloc, &mut (), changes.as_slice())
}

/// Removes the `a`.
fn ended(alloc: Global, engine: DirectEngine) -> Result<Settled<DirectEngine>, OutOfMemory>
    requires elements { engine.stored.elements ≡ record { tag = 1; class = 0; fields = [] } ∷ [] }
    requires last { engine.stored.last ≡ 2 }
{
    let changes = [Change::Remove(1)];
    engine.settle(alloc, &mut (), changes.as_slice())
}

#[test]
fn instantiations_come_and_go(rt: HostRuntime) -> Result<(), OutOfMemory> {
    let alloc = rt.alloc();
    let program = program(alloc)?;
    let Settled {
        matcher,
        come,
        gone,
    } = begun(alloc, &program)?;
    assert!(rt; is_only(come.as_slice(), 1));
    assert!(rt; gone.is_empty());

    // what the `b` blocked left and came back
    let Settled {
        matcher,
        come,
        gone,
    } = blocked_for_a_moment(alloc, matcher)?;
    assert!(rt; come.is_empty());
    assert!(rt; gone.is_empty());

    let Settled {
        matcher,
        come,
        gone,
    } = ended(alloc, matcher)?;
    assert!(rt; come.is_empty());
    assert!(rt; is_only(gone.as_slice(), 1));
    assert_eq!(rt; matcher.store().len(), 0);
    assert_eq!(rt; matcher.store().last(), 2);
    Ok(())
}
