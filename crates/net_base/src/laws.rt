//! A law of the shape that follows from the definitions alone: the contract of a function that does nothing.
ghost use Rattle.std.specs.Prelude.{◌≡◌, List};
ghost use Rattle.ops_base.specs.declared.rules.Rule.{Rule};
ghost use Rattle.net_base.specs.declared.counts.Counts.{Counts};
ghost use Rattle.net_base.specs.Shape.{IsShape};
ghost use Rattle.net_base.specs.Counting.{shape_of};

/// The computed numbers are the shape of the productions, and the shape is unique.
pub fn shape_is_counted()
    ensures counted { (rules : List Rule) → IsShape rules (shape_of rules) }
    ensures one { (rules : List Rule) (counts : Counts) → IsShape rules counts → counts ≡ shape_of rules }
{}
