//! Iteration over the members that have not fired, in the order of dominance.
ghost use Rattle.std.specs.Iterator.{YieldsFirstRef, item_count};

use crate::rank::{Held, Rank};
use ops_base::rules::Inst;
use std::collections::btree_map;
use std::marker::Model;

/// The instantiations that have not fired, the dominant one first. Its view is the list of those that are left.
#[derive(Drop)]
pub struct ByDominance<'a> {
    pub(crate) held: btree_map::Values<'a, Rank, Held>,
}

impl<'a> Model for ByDominance<'a> {
    ghost use Rattle.std.specs.Prelude.{List, reverse};
    ghost use Rattle.ops_base.specs.declared.rules.Inst.{Inst};
    ghost use Rattle.conflict_index.specs.Keeping.{unfired_insts};

    ghost Value = { List Inst };

    ghost view = { λ d. reverse (unfired_insts d.held) };
}

impl<'a> Iterator for ByDominance<'a> {
    type Item = &'a Inst;

    ghost next_gives = { YieldsFirstRef (λ left. left) };

    ghost remaining = { item_count (λ left. left) };

    fn next(&mut self) -> Option<&'a Inst> {
        while let Some(held) = self.held.next_back() {
            if !held.fired {
                return Some(&held.inst);
            }
        }
        None
    }
}
