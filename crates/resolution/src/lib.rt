//! Conflict resolution: the keys of instantiations, and their comparison.
#![tactic(auto)]

ghost use Rattle.std.specs.Prelude.{◌≡◌, ◌<◌, ◌↔◌, List, IfOk, IsTrue, length};
ghost use Rattle.std.specs.declared.cmp.Ordering.{Ordering};
ghost use Rattle.std.specs.Cmp.{IsTotalOrder};
ghost use Rattle.std.specs.Ordering.{MatchOrdering};
ghost use Rattle.ops_base.specs.declared.rules.Inst.{Inst};
ghost use Rattle.ops_base.specs.declared.rules.Rule.{Rule};
ghost use Rattle.ops_base.specs.Dominance.{compare_insts, dominates};
ghost use Rattle.resolution.specs.Keys.{IsKey, compare_keys, compare_keys_lex, compare_keys_production};

mod keys;
mod sameness;

pub use crate::keys::Key;
use crate::keys::{key_of, specificity_in};
use ops_base::commands::Strategy;
use ops_base::memory::OutOfMemory;
use ops_base::programs::Program;
use ops_base::rules::Inst;
use std::alloc::Global;
use std::cmp::Ordering;

/// The key of an instantiation of one of the program's productions. It copies the tags twice, sorts one copy, and takes
/// memory once.
pub fn key(alloc: Global, program: &Program, inst: &Inst) -> Result<Key, OutOfMemory>
    requires { inst.now.rule < length program.now.rules }
    ensures { IfOk result (λ key. IsKey program.now.rules inst.now key) }
{
    let specificity = specificity_in(program, inst.rule);
    key_of(alloc, inst.rule, specificity, inst.tags.as_slice())
}

/// Decides between instantiations whose tags are the same from the greatest down.
fn compare_by_production(a: &Key, b: &Key) -> Ordering
    ensures { result ≡ compare_keys_production a.now b.now }
{
    match a.specificity.cmp(&b.specificity) {
        Ordering::Equal => {}
        decided => return decided,
    }
    match b.rule.cmp(&a.rule) {
        Ordering::Equal => a.tags().cmp(b.tags()),
        decided => decided,
    }
}

fn compare_by_lex(a: &Key, b: &Key) -> Ordering
    ensures { result ≡ compare_keys_lex a.now b.now }
{
    match a.sorted().cmp(b.sorted()) {
        Ordering::Equal => compare_by_production(a, b),
        decided => decided,
    }
}

fn compare_by(strategy: Strategy, a: &Key, b: &Key) -> Ordering
    ensures { result ≡ compare_keys strategy a.now b.now }
{
    match strategy {
        Strategy::Lex => compare_by_lex(a, b),
        Strategy::Mea => match a.first().cmp(&b.first()) {
            Ordering::Equal => compare_by_lex(a, b),
            decided => decided,
        },
    }
}

/// Compares the instantiations of two keys: greater where the first dominates, less where the second does. It takes no
/// memory, and ends at the first part that decides: it looks at no tag after the first that differs.
pub fn compare(strategy: Strategy, a: &Key, b: &Key) -> Ordering
    ensures dominance { (rules : List Rule) (i j : Inst)
        → IsKey rules i a.now → IsKey rules j b.now
        → MatchOrdering result
        (IsTrue (dominates strategy rules j i))
        (i ≡ j)
        (IsTrue (dominates strategy rules i j)) }
    ensures equal { (rules : List Rule) (i j : Inst)
        → IsKey rules i a.now → IsKey rules j b.now → (result ≡ Ordering.Equal) ↔ (i ≡ j) }
    ensures instantiations { (rules : List Rule) (i j : Inst)
        → IsKey rules i a.now → IsKey rules j b.now → result ≡ compare_insts strategy rules i j }
    ensures keys { result ≡ compare_keys strategy a.now b.now }
    ensures total_order { IsTotalOrder (compare_keys strategy) }
{
    compare_by(strategy, a, b)
}

#[cfg(test)]
mod tests {
    use super::*;
    use ops_base::conditions::{Condition, Part};
    use ops_base::elements::Class;
    use ops_base::list::Listed;
    use ops_base::rules::Rule;
    use ops_base::values::Sym;
    use std::test::Fail;

    /// `(literalize a) (p first (a) --> )`
    fn first(alloc: Global) -> Result<Program, OutOfMemory>
        ensures { IfOk result (λ p. length p.rules ≡ 1) }
    {
        let mut classes = Vec::new(alloc);
        classes.push(Class {
            name: Sym(1),
            attrs: Listed::new(alloc),
            vector: false,
        })?;
        let mut conditions = Vec::new(alloc);
        conditions.push(Part::One(Condition {
            class: 0,
            negated: false,
            tests: Listed::new(alloc),
        }))?;
        let mut rules = Vec::new(alloc);
        rules.push(Rule {
            name: Sym(2),
            conditions: Listed::from_vec(conditions),
            actions: Listed::new(alloc),
            specificity: 1,
            variables: 0,
            cells: 1,
            first: 0,
            past: 0,
        })?;
        Ok(Program::new(
            Listed::from_vec(classes),
            Listed::from_vec(rules),
            Listed::new(alloc),
            Listed::new(alloc),
            Listed::new(alloc),
        ))
    }

    #[test]
    fn a_key_has_what_decides(rt: HostRuntime) -> Result<(), Fail> {
        let program = first(rt.alloc())?;
        let tags = Listed::from_vec(Vec::from_slice(rt.alloc(), &[4])?);
        let found = key(rt.alloc(), &program, &Inst { rule: 0, tags })?;
        assert_eq!(rt; (found.first(), found.specificity, found.rule), (4, 1, 0));
        assert_eq!(rt; found.sorted(), [4].as_slice());
        assert_eq!(rt; found.tags(), [4].as_slice());
        Ok(())
    }

    #[test]
    fn a_key_is_copied(rt: HostRuntime) -> Result<(), Fail> {
        let made = key_of(rt.alloc(), 3, 7, &[4, 9, 4])?;
        let copy = made.copy(rt.alloc())?;
        assert_eq!(rt; (copy.first(), copy.specificity, copy.rule), (4, 7, 3));
        assert_eq!(rt; copy.sorted(), [9, 4, 4].as_slice());
        assert_eq!(rt; copy.tags(), [4, 9, 4].as_slice());
        Ok(())
    }

    #[test]
    fn a_key_becomes_that_of_another(rt: HostRuntime) -> Result<(), Fail> {
        let program = first(rt.alloc())?;
        let tags = Listed::from_vec(Vec::from_slice(rt.alloc(), &[8])?);
        let mut found = key_of(rt.alloc(), 3, 7, &[4, 9, 4])?;
        found.become_of(&program, &Inst { rule: 0, tags })?;
        assert_eq!(rt; (found.first(), found.specificity, found.rule), (8, 1, 0));
        assert_eq!(rt; found.sorted(), [8].as_slice());
        assert_eq!(rt; found.tags(), [8].as_slice());
        Ok(())
    }

    #[test]
    fn the_top_is_the_tag_that_a_strategy_compares_first(rt: HostRuntime) -> Result<(), Fail> {
        let made = key_of(rt.alloc(), 0, 1, &[4, 9, 2])?;
        assert_eq!(rt; made.top(Strategy::Lex), 9);
        assert_eq!(rt; made.top(Strategy::Mea), 4);
        Ok(())
    }

    #[test]
    fn the_first_tag_decides_under_mea(rt: HostRuntime) -> Result<(), Fail> {
        let old = key_of(rt.alloc(), 0, 3, &[1, 3])?;
        let new = key_of(rt.alloc(), 1, 2, &[2])?;
        assert_eq!(rt; compare(Strategy::Lex, &old, &new), Ordering::Greater);
        assert_eq!(rt; compare(Strategy::Mea, &old, &new), Ordering::Less);
        Ok(())
    }

    #[test]
    fn the_longer_list_dominates(rt: HostRuntime) -> Result<(), Fail> {
        let two = key_of(rt.alloc(), 0, 4, &[3, 2])?;
        let three = key_of(rt.alloc(), 1, 3, &[3, 2, 1])?;
        assert_eq!(rt; compare(Strategy::Lex, &three, &two), Ordering::Greater);
        assert_eq!(rt; compare(Strategy::Lex, &two, &three), Ordering::Less);
        Ok(())
    }

    #[test]
    fn the_earlier_production_dominates(rt: HostRuntime) -> Result<(), Fail> {
        let first = key_of(rt.alloc(), 0, 1, &[1])?;
        let second = key_of(rt.alloc(), 1, 1, &[1])?;
        assert_eq!(rt; compare(Strategy::Lex, &first, &second), Ordering::Greater);
        Ok(())
    }

    #[test]
    fn the_condition_order_decides_last(rt: HostRuntime) -> Result<(), Fail> {
        let both = key_of(rt.alloc(), 0, 3, &[2, 2])?;
        let down = key_of(rt.alloc(), 0, 3, &[2, 1])?;
        let up = key_of(rt.alloc(), 0, 3, &[1, 2])?;
        assert_eq!(rt; compare(Strategy::Lex, &both, &down), Ordering::Greater);
        assert_eq!(rt; compare(Strategy::Lex, &down, &up), Ordering::Greater);
        assert_eq!(rt; compare(Strategy::Lex, &up, &up), Ordering::Equal);
        Ok(())
    }
}
