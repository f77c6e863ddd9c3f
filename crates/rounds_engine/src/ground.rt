//! The data that a round uses.
ghost use Rattle.std.specs.Prelude.{◌≤◌};

use net_base::net::Net;
use std::alloc::Global;
use work_store::Store;

/// The data that a round uses: the network, the store, and the total numbers of lines and shards.
#[derive(Clone, Copy)]
pub(crate) struct Ground<'a> {
    pub(crate) alloc: Global,
    pub(crate) net: &'a Net,
    pub(crate) store: &'a Store,
    pub(crate) lines: usize,
    pub(crate) shards: usize,
    // There is at least one line for each shard.
    ghost some: { 1 ≤ shards },
    ghost room: { shards ≤ lines },
}
