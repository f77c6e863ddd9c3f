//! A law about the definitions alone, stated as the contract of a function that does nothing.
ghost use Rattle.std.specs.Prelude.{◌≡◌, List};
ghost use Rattle.ops_base.specs.declared.commands.Strategy.{Strategy};
ghost use Rattle.ops_base.specs.declared.rules.Rule.{Rule};
ghost use Rattle.ops_base.specs.Dominance.{dominates, specificity_of};
ghost use Rattle.conflict_index.specs.Indexed.{Member, outranks};

/// If the specificities kept are those of the productions, one member outranks another exactly if its instantiation
/// dominates. So `select` returns the instantiation that dominates all others, and `nth(i)` the one that exactly i
/// others dominate.
pub fn outranking_is_dominance()
    ensures { (strategy : Strategy) (rules : List Rule) (m n : Member)
        → m.specificity ≡ specificity_of rules m.inst.rule → n.specificity ≡ specificity_of rules n.inst.rule
        → outranks strategy m n ≡ dominates strategy rules m.inst n.inst }
{}
