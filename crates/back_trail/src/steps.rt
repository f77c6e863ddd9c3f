//! Firings that are kept.
ghost use Rattle.std.specs.Prelude.{◌≡◌};

use cycle::Fired;
use ops_base::symbols::Point;

/// A firing, and where the names stood before it.
#[derive(Drop)]
pub(crate) struct Step {
    pub(crate) point: Point,
    pub(crate) fired: Fired,
}

/// A firing of which this many changes are done to the oldest state.
#[derive(Drop)]
pub(crate) struct Late {
    pub(crate) fired: Fired,
    pub(crate) did: usize,
}
