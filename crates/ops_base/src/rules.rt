//! Productions.
ghost use Rattle.std.specs.Prelude.{◌≡◌};
ghost use Rattle.std.specs.Ordering.{MatchOrdering};
ghost use Rattle.ops_base.specs.Instances.{Before, by_rule_and_tags};

use crate::actions::Action;
use crate::conditions::Part;
use crate::list::Listed;
use crate::values::Sym;
use std::cmp::Ordering;

/// A production. Its text is the bytes from `first` to before `past` of the program's text.
#[derive(Debug, Drop)]
pub struct Rule {
    pub name: Sym,
    /// The left side, in text order.
    pub conditions: Listed<Part>,
    pub actions: Listed<Action>,
    /// One per condition, members of groups included, and one per test that does not bind.
    pub specificity: u32,
    /// A number above the number of every variable in it.
    pub variables: usize,
    /// How many cells it has.
    pub cells: usize,
    pub first: usize,
    pub past: usize,
}

/// A production whose conditions are met by the elements with these tags, one per positive condition in order.
#[derive(Debug, Drop)]
pub struct Inst {
    pub rule: usize,
    pub tags: Listed<u64>,
}

impl Inst {
    /// How two instantiations stand in the order of production and then of tags. Takes no memory.
    #[tactic(auto, using(crate::proofs::InstOrder::standing))]
    pub fn compare(&self, other: &Inst) -> Ordering
        ensures value { result ≡ by_rule_and_tags self.now other.now }
        ensures order { MatchOrdering result
            (Before self.now other.now) (self.now ≡ other.now) (Before other.now self.now) }
    {
        let by_rule = self.rule.cmp(&other.rule);
        by_rule.then_with(|| self.tags.as_slice().cmp(other.tags.as_slice()))
    }
}
