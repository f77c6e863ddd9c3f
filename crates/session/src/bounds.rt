//! A bound that no session reaches.

/// Once the last tag or the number of firings has reached this, no top-level make and no firing begins: out of memory
/// is reported. No session lasts that long.
pub(crate) const UNREACHED: u64 = 1 << 63;
