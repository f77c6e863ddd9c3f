//! Help with tasks in flight: a call that performs them, and the tasks that result, in its own way.
ghost use Rattle.std.specs.Prelude.{IfOk};
ghost use Rattle.team_phase.specs.Helping.{CanHelp, HasShared, Helps, MayShare};

use net_base::net::Net;
use ops_base::memory::OutOfMemory;
use step_core::Parts;
use work_store::Store;

/// What a team is given to do: the lines with the tasks in flight, and the number of workers.
#[derive(Drop)]
pub struct Load {
    pub parts: Parts,
    pub workers: usize,
}

/// Calls for help. Each phase that was in progress in what is passed is in progress in what comes back.
pub(crate) fn ask_help<F: Fn(Load) -> Result<Parts, OutOfMemory>>(
    help: &F,
    net: &Net,
    store: &Store,
    load: Load,
) -> Result<Parts, OutOfMemory>
    requires can { CanHelp net.now.nodes store.now (F.pre help.now) }
    requires helps { Helps net.now.alphas net.now.nodes store.now (F.post help.now) }
    requires may { MayShare net.now.nodes store.now load }
    ensures { IfOk result (HasShared net.now.alphas net.now.nodes store.now load.parts) }
{
    // Only contracts read these.
    let _net = net;
    let _store = store;
    help(load)
}
