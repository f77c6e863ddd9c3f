//! The entries of the order of dominance, and what determines their places.
ghost use Rattle.std.specs.Prelude.{◌≡◌, ◌<◌, length, OnOk, Some, refl};
ghost use Rattle.std.specs.Cmp.{partial_equiv_from_equiv, eq_by_cmp_equiv, partial_order_from_agreeing_total};
ghost use Rattle.std.specs.Ordering.{eq_by_cmp};
ghost use Rattle.conflict_index.specs.Keeping.{rank_in};
ghost use Rattle.conflict_index.specs.Ranking.{compare_by_strategy, compare_ranks, compare_ranks_total};

use ops_base::commands::Strategy;
use ops_base::memory::OutOfMemory;
use ops_base::programs::Program;
use ops_base::rules::Inst;
use resolution::{Key, compare};
use std::cmp::Ordering;
use std::marker::Model;

/// A key with the strategy by which it is compared. Its view is these two. All ranks of one index have the strategy in
/// force. Ranks that compare as equal are equal.
#[derive(Drop)]
pub(crate) struct Rank {
    /// The tag that the strategy compares first. If two differ, they decide, and no list is examined.
    top: u64,
    strategy: Strategy,
    pub(crate) key: Key,
}

impl Model for Rank {
    ghost use Rattle.std.specs.Prelude.{◌≡◌};
    ghost use Rattle.resolution.specs.Keys.{top_of};
    ghost use Rattle.conflict_index.specs.Rank.{Rank as Seen};

    ghost Value = { Seen };

    ghost view = { λ r. record { strategy = r.strategy; key = r.key } };

    ghost invariant = { λ r. r.top ≡ top_of r.strategy r.key };
}

/// The entry at a rank. It is marked as fired only if that happened while another dominated it.
#[derive(Drop)]
pub(crate) struct Held {
    pub(crate) inst: Inst,
    pub(crate) fired: bool,
}

impl PartialEq for Rank {
    ghost eq = { eq_by_cmp compare_ranks };

    ghost laws = { partial_equiv_from_equiv (eq_by_cmp_equiv compare_ranks_total) };

    fn eq(&self, other: &Rank) -> bool {
        self.cmp(other).is_eq()
    }
}

impl Eq for Rank {
    ghost laws = { eq_by_cmp_equiv compare_ranks_total };
}

impl PartialOrd for Rank {
    ghost partial_cmp = { λ a b. Some (compare_ranks a b) };

    ghost laws = { partial_order_from_agreeing_total compare_ranks compare_ranks_total (λ a b. refl) (λ a b. refl) };

    fn partial_cmp(&self, other: &Rank) -> Option<Ordering> {
        Some(self.cmp(other))
    }
}

impl Ord for Rank {
    ghost cmp = { compare_ranks };

    ghost total = { compare_ranks_total };

    ghost matches_partial_cmp = { λ a b. refl };

    ghost matches_eq = { λ a b. refl };

    fn cmp(&self, other: &Rank) -> Ordering {
        if self.top != other.top && self.strategy == other.strategy {
            return self.top.cmp(&other.top);
        }
        match compare_by_strategy(self, other) {
            Ordering::Equal => self.key.first().cmp(&other.key.first()),
            decided => decided,
        }
    }
}

fn compare_by_strategy(a: &Rank, b: &Rank) -> Ordering
    ensures { result ≡ compare_by_strategy a.now b.now }
{
    match (a.strategy, b.strategy) {
        (Strategy::Lex, Strategy::Mea) => Ordering::Less,
        (Strategy::Mea, Strategy::Lex) => Ordering::Greater,
        (strategy, _) => compare(strategy, &a.key, &b.key),
    }
}

impl Rank {
    /// Allocates nothing.
    pub(crate) fn new(strategy: Strategy, key: Key) -> Rank
        ensures { result ≡ record { strategy = strategy; key = key } }
    {
        Rank {
            top: key.top(strategy),
            strategy,
            key,
        }
    }

    /// Becomes the rank of another instantiation. Allocates only if that one has more tags than any before.
    pub(crate) fn become_of(
        &mut self,
        strategy: Strategy,
        program: &Program,
        inst: &Inst,
    ) -> Result<(), OutOfMemory>
        requires { inst.now.rule < length program.now.rules }
        ensures { OnOk result (self.new ≡ rank_in strategy program.now.rules inst.now) }
    {
        let done = self.key.become_of(program, inst);
        self.strategy = strategy;
        self.top = self.key.top(strategy);
        done
    }
}
