//! Laws of productions that come and go, proved of their definitions. The functions do nothing when they run.
ghost use Rattle.std.specs.Prelude.{◌≡◌, ◌≤◌, ◌++◌, ◌∷◌, [], List, ℕ, Some, length, map};
ghost use Rattle.ops_base.specs.declared.commands.Strategy.{Strategy};
ghost use Rattle.ops_base.specs.declared.elements.Change.TheVariants.{Add};
ghost use Rattle.ops_base.specs.declared.elements.Element.{Element};
ghost use Rattle.ops_base.specs.declared.rules.Inst.{Inst};
ghost use Rattle.ops_base.specs.declared.rules.Rule.{Rule};
ghost use Rattle.ops_base.specs.declared.elements.Class.{Class};
ghost use Rattle.ops_base.specs.declared.filling.Filling.{Filling};
ghost use Rattle.ops_base.specs.Filling.{rule_filled};
ghost use Rattle.ops_base.specs.Valid.{rule_is_valid};
ghost use Rattle.ops_base.specs.ConflictSet.{conflict_set, insts_of, matches_of};
ghost use Rattle.ops_base.specs.Dominance.{dominates};
ghost use Rattle.ops_base.specs.Feeding.{Rises, fed_again};
ghost use Rattle.ops_base.specs.WorkingMemory.{Lawful, done, last_after};
ghost use Rattle.ops_base.specs.Live.{without, moved, renumbered, moved_insts};

/// Where a production comes last, the conflict set gets its instantiations, under the next number. Where one goes, so do
/// its instantiations; the others stay, under their new numbers, and dominate each other as they did.
pub fn productions_come_and_go()
    ensures comes { (rules : List Rule) (r : Rule) (wm : List Element)
        → conflict_set (rules ++ r ∷ []) wm ≡ conflict_set rules wm ++ insts_of (length rules) (matches_of wm r.conditions) }
    ensures goes { (rules : List Rule) (k : ℕ) (wm : List Element)
        → conflict_set (without k rules) wm ≡ moved_insts k (conflict_set rules wm) }
    ensures dominance { (strategy : Strategy) (rules : List Rule) (k a b : ℕ) (i j : Inst)
        → moved k i.rule ≡ Some a → moved k j.rule ≡ Some b
        → dominates strategy (without k rules) (renumbered i a) (renumbered j b) ≡ dominates strategy rules i j }
{}

/// Fed again, a working memory is what it was, and the last tag is the one that was given last.
pub fn working_memory_is_fed_again()
    ensures { (classes : ℕ) (wm : List Element) (last : ℕ)
        → Rises 0 wm → last_after 0 (map Add wm) ≤ last
        → Lawful [] 0 (fed_again classes wm last) × (done [] (fed_again classes wm last) ≡ wm) × (last_after 0 (fed_again classes wm last) ≡ last) }
{}

/// A production with other constants is as valid as it was.
pub fn filled_productions_are_valid()
    ensures { (fs : List Filling) (classes : List Class) (text : ℕ) (r : Rule)
        → rule_is_valid classes text (rule_filled fs r) ≡ rule_is_valid classes text r }
{}
