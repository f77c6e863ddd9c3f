//! The laws of the match, each a clause of a function that does nothing.
ghost use Rattle.step_core.specs.Laws.{StartLaw, CounterLaw, BalanceLaw, ZeroLaw, OnceLaw, TerminalLaw, InstLaw, TaskLaw, EntryLaw, PhaseLaw, SettleLaw, BundleLaw};
ghost use Rattle.step_core.specs.Rounds.{BeginLaw, EndLaw, NoneLaw, OneLaw, RoundLaw, ShardLaw, StepsLaw};
ghost use Rattle.step_core.specs.Settling.{ChildLaw, EntryStartLaw, FoundLaw, FoundNoneLaw, FoundSetLaw, PlacedLaw, RestLaw, SettledLaw, StoreLaw};

/// What every list of steps preserves, and what the lines hold when nothing is pending.
pub fn match_laws()
    ensures start { StartLaw }
    ensures counter { CounterLaw }
    ensures balance { BalanceLaw }
    ensures zero { ZeroLaw }
    ensures once { OnceLaw }
    ensures terminals { TerminalLaw }
    ensures insts { InstLaw }
    ensures tasks { TaskLaw }
    ensures entry { EntryLaw }
    ensures phase { PhaseLaw }
    ensures settle { SettleLaw }
    ensures bundle { BundleLaw }
{}

/// What an engine finds, what stays true when one store takes the place of another, and what a phase leaves.
pub fn settle_laws()
    ensures found { FoundLaw }
    ensures set { FoundSetLaw }
    ensures none { FoundNoneLaw }
    ensures placed { PlacedLaw }
    ensures children { ChildLaw }
    ensures entry_start { EntryStartLaw }
    ensures rest { RestLaw }
    ensures store { StoreLaw }
    ensures settled { SettledLaw }
{}

/// What carries a phase on until its lines are a bundle: steps and rounds, with shards that are each a run of
/// consecutive lines.
pub fn round_laws()
    ensures begin { BeginLaw }
    ensures steps { StepsLaw }
    ensures end { EndLaw }
    ensures none { NoneLaw }
    ensures one { OneLaw }
    ensures shards { ShardLaw }
    ensures round { RoundLaw }
{}
