//! A network grows while its lines are at rest: nodes are appended to it, and get the tokens that they lack.
ghost use Rattle.std.specs.Prelude.{◌≡◌, ◌++◌, All, IfOk, length, map};
ghost use Rattle.work_store.specs.Settling.{IsSettled};
ghost use Rattle.work_store.specs.Stored.{held_of};
ghost use Rattle.net_base.specs.Sound.{IsSound};
ghost use Rattle.activation.specs.Acting.{IsCounted};
ghost use Rattle.step_core.specs.Found.{found_over};
ghost use Rattle.step_core.specs.Phases.{HoldJust, now, sums_over};
ghost use Rattle.step_core.specs.Worlds.{IsReady, joined, numbers_of, placed, seen, world_of};
ghost use Rattle.grow_net.specs.Behind.{IsGrown, StandApart};
ghost use Rattle.grow_laws.specs.Growing.{AreDue};

use crate::phases::work_all;
use grow_laws::laws::growth_laws;
use grow_laws::tasks_due;
use grow_net::Growth;
use net_base::net::Net;
use ops_base::memory::OutOfMemory;
use ops_base::rules::Inst;
use std::alloc::Global;
use step_core::laws::settle_laws;
use step_core::{Gathered, Parts, World, gather_worked};
use work_store::Store;

/// A network that has grown, the world of its lines, and the instantiations that came and those that went.
#[derive(Drop)]
pub struct Grown {
    pub net: Net,
    pub world: World,
    pub come: Vec<Inst>,
    pub gone: Vec<Inst>,
}

/// The lines of the world, with the tasks in flight that are due at the nodes from `first` on. It looks at each line,
/// and costs what `grow_laws::tasks_due` costs.
fn with_due(
    alloc: Global,
    net: &Net,
    first: usize,
    store: &Store,
    world: World,
) -> Result<World, OutOfMemory>
    requires quiet { world.counter ≡ 0 }
    requires counted { All (IsCounted net.now.nodes store.now) world.lines.items }
    ensures due { IfOk result (λ w. AreDue store.now.elements net.now.alphas net.now.nodes first w.flight.items) }
    ensures world { IfOk result (λ w. world_of w ≡ joined (map seen world.lines.items) w.flight.items) }
    ensures ready { IfOk result (λ w. IsReady net.now.nodes store.now w) }
    ensures lines { IfOk result (λ w. w.lines ≡ world.lines) }
{
    let Parts { lines, flight: _ } = world.into_parts();
    let flight = tasks_due(alloc, net, first, store)?;
    let parts = Parts { lines, flight };
    let world = World::from_parts(alloc, parts)?;
    Ok(world)
}

/// Appends the alphas and nodes to the network of lines at rest, and performs all tasks that the new nodes lack, with
/// all that result. Afterwards the lines hold exactly the tokens of the larger network over the store. What came is
/// what it finds and the smaller one did not.
///
/// It costs what is appended, what `grow_laws::tasks_due` costs, and its tasks. It also looks at each line. `enter`
/// gets the line of each task just before it is performed. If memory runs out, the network and the lines are lost.
pub fn grow<F: Fn(usize)>(
    alloc: Global,
    net: Net,
    store: &Store,
    enter: &F,
    mut world: World,
    growth: Growth,
) -> Result<Grown, OutOfMemory>
    requires enter { F.IsAlwaysCallable enter.now }
    requires quiet { world.counter ≡ 0 }
    requires counted { All (IsCounted net.nodes store.now) world.lines.items }
    requires holds { HoldJust (placed (held_of store.now) net.nodes (length world.lines.items)) (sums_over store.now.elements net.alphas net.nodes) (map now (map seen world.lines.items)) }
    requires sound { IsSound (net.alphas ++ growth.alphas.items) (net.nodes ++ growth.nodes.items) }
    requires apart { StandApart net.nodes growth.nodes.items }
    ensures grown { IfOk result (λ g. IsGrown net g.net growth.alphas.items growth.nodes.items) }
    ensures quiet { IfOk result (λ g. g.world.counter ≡ 0) }
    ensures counted { IfOk result (λ g. All (IsCounted g.net.nodes store.now) g.world.lines.items) }
    ensures holds { IfOk result (λ g. HoldJust (placed (held_of store.now) g.net.nodes (length g.world.lines.items)) (sums_over store.now.elements g.net.alphas g.net.nodes) (map now (map seen g.world.lines.items))) }
    ensures lines { IfOk result (λ g. numbers_of g.world ≡ numbers_of world) }
    ensures settled { IfOk result (λ g. IsSettled (found_over net.alphas net.nodes store.now.elements) (found_over g.net.alphas g.net.nodes store.now.elements) g.gone.items g.come.items) }
{
    settle_laws();
    growth_laws();
    let _last = store.last();
    world.clear_phase();
    let first = net.nodes().len();
    let larger = net.extended(alloc, growth.alphas, growth.nodes)?;
    let mut due = with_due(alloc, &larger, first, store, world)?;
    work_all(alloc, &larger, store, enter, &mut due, None)?;
    let Gathered { come, gone } = gather_worked(alloc, &larger, due.lines(), due.worked())?;
    Ok(Grown {
        net: larger,
        world: due,
        come,
        gone,
    })
}
