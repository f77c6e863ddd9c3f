//! What holds of every phase whose work is shared.
ghost use Rattle.free_engine.specs.Ends.{EndLaw, SetUpLaw};
ghost use Rattle.free_engine.specs.Counts.{ShareLaw};
ghost use Rattle.free_engine.specs.Drained.{DrainLaw};

/// The laws of a phase whose tasks are performed by workers, whatever the order of their turns. It does nothing at
/// run time.
pub fn share_laws()
    ensures drain { DrainLaw }
    ensures share { ShareLaw }
    ensures set_up { SetUpLaw }
    ensures ends { EndLaw }
{}
