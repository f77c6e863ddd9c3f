//! What holds of every phase whose tasks are performed by workers with a deque each.
ghost use Rattle.steal_engine.specs.Logged.{LogLaw};
ghost use Rattle.steal_engine.specs.Rests.{RestLaw};

/// The laws of a phase of which workers do a part, in whatever order their steps come. It does nothing at run time.
pub fn steal_laws()
    ensures rest { RestLaw }
    ensures log { LogLaw }
{}
