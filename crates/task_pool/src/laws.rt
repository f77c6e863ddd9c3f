//! What holds of the entries of every pool.
ghost use Rattle.task_pool.specs.Pools.{BalanceLaw, HoldersLaw, QuietLaw};

/// The laws of a pool's entries. It does nothing at run time.
pub fn pool_laws()
    ensures balance { BalanceLaw }
    ensures quiet { QuietLaw }
    ensures holders { HoldersLaw }
{}
