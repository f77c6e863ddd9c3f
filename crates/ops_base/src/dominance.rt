//! The laws of dominance and of refraction, proved of their definitions. The functions do nothing when they run.
ghost use Rattle.std.specs.Prelude.{◌≡◌, ◌≢◌, ◌≤◌, ◌↔◌, List, [], ℕ, Some, false, not, IsTrue, AllPairs, Contains, IsPermutation, MatchOption};
ghost use Rattle.ops_base.specs.declared.commands.Strategy.{Strategy};
ghost use Rattle.ops_base.specs.declared.rules.Inst.{Inst};
ghost use Rattle.ops_base.specs.declared.rules.Rule.{Rule};
ghost use Rattle.ops_base.specs.Dominance.{downwards, dominates};
ghost use Rattle.ops_base.specs.Refraction.{is_same_inst, is_among, unfired, still_fired, IsDominant, dominant};

/// Dominance is a strict total order: of two different instantiations exactly one dominates.
pub fn dominance_is_total()
    ensures one { (strategy : Strategy) (rules : List Rule) (i j : Inst)
        → i ≢ j → dominates strategy rules i j ≡ not (dominates strategy rules j i) }
    ensures itself { (strategy : Strategy) (rules : List Rule) (i : Inst)
        → dominates strategy rules i i ≡ false }
    ensures through { (strategy : Strategy) (rules : List Rule) (i j k : Inst)
        → IsTrue (dominates strategy rules i j)
        → IsTrue (dominates strategy rules j k)
        → IsTrue (dominates strategy rules i k) }
{}

/// The tags sorted downwards are the same tags, each as often, from the greatest down, and no other list is.
pub fn downwards_sorts()
    ensures same_tags { (tags : List ℕ) → IsPermutation tags (downwards tags) }
    ensures greatest_first { (tags : List ℕ) → AllPairs (λ x y. y ≤ x) (downwards tags) }
    ensures only { (tags other : List ℕ)
        → IsPermutation tags other → AllPairs (λ x y. y ≤ x) other → other ≡ downwards tags }
{}

/// The dominant instantiation of a list is the one that dominates all others in it. The empty list has none.
pub fn dominant_dominates()
    ensures found { (strategy : Strategy) (rules : List Rule) (insts : List Inst)
        → MatchOption (dominant strategy rules insts) (insts ≡ [])
        (λ i. IsDominant strategy rules insts i) }
    ensures only { (strategy : Strategy) (rules : List Rule) (insts : List Inst) (i : Inst)
        → IsDominant strategy rules insts i → dominant strategy rules insts ≡ Some i }
{}

/// Of any list of instantiations that was found, as a conflict set is: `unfired` leaves out those that have fired, and
/// `still_fired` those that have not. Two instantiations are the same exactly where they are equal.
pub fn refraction_marks()
    ensures same { (i j : Inst) → IsTrue (is_same_inst i j) ↔ (i ≡ j) }
    ensures among { (insts : List Inst) (i : Inst) → IsTrue (is_among insts i) ↔ Contains insts i }
    ensures unmarked { (found fired : List Inst) (i : Inst)
        → Contains (unfired found fired) i ↔ (Contains found i × ¬ Contains fired i) }
    ensures stays { (found fired : List Inst) (i : Inst)
        → Contains (still_fired found fired) i ↔ (Contains found i × Contains fired i) }
{}
