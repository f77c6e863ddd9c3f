//! What holds of the definitions of this crate: the contracts of functions that do nothing.
ghost use Rattle.std.specs.Prelude.{◌≡◌, ℕ, ◌<◌, List, length, ◌↔◌};
ghost use Rattle.ops_base.specs.declared.conditions.Part.{Part};
ghost use Rattle.ops_base.specs.declared.elements.Element.{Element};
ghost use Rattle.ops_base.specs.declared.matching.Binding.{Binding};
ghost use Rattle.ops_base.specs.declared.rules.Inst.{Inst};
ghost use Rattle.ops_base.specs.declared.rules.Rule.{Rule};
ghost use Rattle.ops_base.specs.declared.values.Value.{Value};
ghost use Rattle.ops_base.specs.Instances.{Meets, IsInst};
ghost use Rattle.ops_base.specs.WorkingMemory.{HasRisingTags};
ghost use Rattle.why.specs.Bindings.{MeetsWith, Binds};
ghost use Rattle.why.specs.Explaining.{Explains, explanation};
ghost use Rattle.why.specs.Partials.{parts_of, IsPartialMatch};

/// The walk that keeps its bindings is the walk that defines an instantiation.
pub fn walks_end_with_bindings()
    ensures { (wm : List Element) (parts : List Part) (bindings : List Binding) (tags : List ℕ)
        → Meets wm parts bindings tags ↔ ((final : List Binding) × MeetsWith wm parts bindings tags final) }
{}

/// A partial match after all parts is an instantiation.
pub fn whole_matches_are_instantiations()
    ensures { (rules : List Rule) (wm : List Element) (i : Inst)
        → IsPartialMatch rules wm i.rule (length (parts_of rules i.rule)) i.tags ↔ IsInst rules wm i }
{}

/// Exactly the instantiations bind, each one list of values.
pub fn instantiations_bind_once()
    ensures some { (rules : List Rule) (wm : List Element) (i : Inst)
        → IsInst rules wm i ↔ ((values : List Value) × Binds rules wm i values) }
    ensures once { (rules : List Rule) (wm : List Element) (i : Inst) (values other : List Value)
        → HasRisingTags wm → Binds rules wm i values → Binds rules wm i other → other ≡ values }
{}

/// What is computed explains each rule.
pub fn explanations_explain()
    ensures { (rules : List Rule) (wm : List Element) (rule : ℕ)
        → rule < length rules → HasRisingTags wm → Explains rules wm rule (explanation rules wm rule) }
{}
