//! The laws of growing, each a clause of a function that does nothing.
ghost use Rattle.grow_laws.specs.Growing.{DueLaw, GrowthLaw, MoreNodesLaw};

/// What holds if nodes are appended to a network whose lines are at rest.
pub fn growth_laws()
    ensures more_nodes { MoreNodesLaw }
    ensures due { DueLaw }
    ensures growth { GrowthLaw }
{}
