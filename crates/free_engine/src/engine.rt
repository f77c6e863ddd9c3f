//! The engine of free workers: a matcher over a network whose tasks are performed by several threads in any order.
ghost use Rattle.std.specs.Prelude.{◌≡◌, ◌≤◌, ◌^◌, ◌++◌, All, IfOk, [], length, map};
ghost use Rattle.work_store.specs.Stored.{held_of, nothing_stored};
ghost use Rattle.activation.specs.Acting.{TellsOfLasts};
ghost use Rattle.step_core.specs.Laws.{AreEmpty};
ghost use Rattle.step_core.specs.Phases.{HoldJust, now, sums_over};
ghost use Rattle.step_core.specs.Worlds.{AreNumbered, placed, seen};

use crate::phases::{WORTH, settle};
use grow_net::Growth;
use net_base::net::Net;
use ops_base::elements::Change;
use ops_base::memory::OutOfMemory;
use ops_io::Gate;
use serial_engine::{grow, settle as settle_alone};
use std::alloc::Global;
use std::marker::Model;
use std::sync::Wait;
use std::thread::Threads;
use step_core::laws::{match_laws, settle_laws};
use step_core::{Gathered, World};
use team_phase::Sharing;
use token_line::Line;
use work_store::{Matcher, Settled, Store};

/// The parts of an engine.
#[derive(Drop)]
struct Parts<G> {
    net: Net,
    store: Store,
    world: World,
    gate: G,
    sharing: Sharing,
}

/// A matcher over a network. Between two settles, its lines hold exactly the tokens at each node over its store, each
/// once. The gate is called just before each activation with the number of the worker (0 on the calling thread) and
/// the number of the line. An engine is heap-allocated, so that moving it is cheap.
#[derive(Drop)]
pub struct FreeEngine<G> {
    parts: Box<Parts<G>>,
}

impl<G> Model for FreeEngine<G> {
    ghost use Rattle.std.specs.Coded.{codes};
    ghost use Rattle.net_base.specs.contracts.net.Net as nets;
    ghost use Rattle.step_core.specs.contracts.world.World as worlds;
    ghost use Rattle.team_phase.specs.contracts.phases.Sharing as sharings;
    ghost use Rattle.team_phase.specs.Engines.{CanSettle, Engine};

    ghost Value = { Engine };

    // Networks, worlds and the sharing of phases are distinguished as in their own types.
    ghost coded = { Prim.hlevel (codes, nets.the_row.coded, worlds.the_row.coded, sharings.the_row.coded) };

    ghost view = { λ e. record { net = e.parts.value.net; store = e.parts.value.store; world = e.parts.value.world; sharing = e.parts.value.sharing } };

    ghost invariant = { λ e. CanSettle e.parts.value.net e.parts.value.store e.parts.value.world e.parts.value.sharing.workers };
}

impl<G: Drop> FreeEngine<G> {
    /// An engine over the network with this many lines and workers, and an empty store. It makes each line and looks
    /// at each node, allocates its own place on the heap, and starts no thread.
    pub fn new(
        alloc: Global,
        net: Net,
        lines: usize,
        workers: usize,
        gate: G,
    ) -> Result<FreeEngine<G>, OutOfMemory>
        requires lines { 1 ≤ lines }
        requires workers { 1 ≤ workers }
        requires few { workers ≤ 2 ^ 32 }
        ensures net { IfOk result (λ e. e.net ≡ net) }
        ensures empty { IfOk result (λ e. e.store ≡ nothing_stored) }
        ensures lines { IfOk result (λ e. length e.world.lines.items ≡ lines) }
        ensures workers { IfOk result (λ e. e.sharing.workers ≡ workers) }
        ensures entries { IfOk result (λ e. AreEmpty (map seen e.world.lines.items)) }
    {
        match_laws();
        let world = World::start(alloc, &net, lines)?;
        let parts = Parts {
            net,
            store: Store::new(alloc),
            world,
            gate,
            sharing: Sharing {
                workers,
                worth: WORTH,
                shared: false,
            },
        };
        let parts = Box::new(alloc, parts)?;
        Ok(FreeEngine { parts })
    }
}

impl<G: Drop> FreeEngine<G> {
    ghost use Rattle.work_store.specs.Settling.{IsSettled};
    ghost use Rattle.net_base.specs.Sound.{IsSound};
    ghost use Rattle.step_core.specs.Found.{found_over};
    ghost use Rattle.grow_net.specs.Behind.{IsGrown, StandApart};

    /// The network. Takes no memory.
    pub fn net(&self) -> &Net
        ensures { result.now ≡ self.now.net }
    {
        let parts = self.parts.as_ref();
        &parts.net
    }

    /// The engine for the network with these alphas and nodes after its own. It keeps its working memory and its
    /// lines. What it finds now and did not find before has come. It performs the tasks that are due at the new nodes
    /// and all that result, on the calling thread alone; see the costs of `serial_engine::grow`. It allocates its own
    /// place on the heap again. `enter` gets the line of each task just before it is performed. If memory runs out,
    /// the engine is lost.
    pub fn grow<F: Fn(usize)>(
        self,
        alloc: Global,
        growth: Growth,
        enter: &F,
    ) -> Result<Settled<FreeEngine<G>>, OutOfMemory>
        requires enter { F.IsAlwaysCallable enter.now }
        requires sound { IsSound (self.net.alphas ++ growth.alphas.items) (self.net.nodes ++ growth.nodes.items) }
        requires apart { StandApart self.net.nodes growth.nodes.items }
        ensures grown { IfOk result (λ s. IsGrown self.net s.matcher.net growth.alphas.items growth.nodes.items) }
        ensures elements { IfOk result (λ s. s.matcher.store.elements ≡ self.store.elements) }
        ensures last { IfOk result (λ s. s.matcher.store.last ≡ self.store.last) }
        ensures settled { IfOk result (λ s. IsSettled (found_over self.net.alphas self.net.nodes self.store.elements) (found_over s.matcher.net.alphas s.matcher.net.nodes s.matcher.store.elements) s.gone.items s.come.items) }
        ensures lines { IfOk result (λ s. length s.matcher.world.lines.items ≡ length self.world.lines.items) }
        ensures workers { IfOk result (λ s. s.matcher.sharing.workers ≡ self.sharing.workers) }
    {
        let FreeEngine { parts } = self;
        let Parts {
            net,
            store,
            world,
            gate,
            sharing,
        } = Box::into_inner(parts);
        let grown = grow(alloc, net, &store, enter, world, growth)?;
        let parts = Parts {
            net: grown.net,
            store,
            world: grown.world,
            gate,
            sharing,
        };
        let parts = Box::new(alloc, parts)?;
        Ok(Settled {
            matcher: FreeEngine { parts },
            come: grown.come,
            gone: grown.gone,
        })
    }
}

impl<G: Gate + Drop> FreeEngine<G> {
    ghost use Rattle.std.specs.Prelude.{List};
    ghost use Rattle.ops_base.specs.declared.rules.Rule.{Rule};
    ghost use Rattle.ops_base.specs.WorkingMemory.{Lawful, done, last_after};
    ghost use Rattle.work_store.specs.Settling.{IsSettled};
    ghost use Rattle.work_store.specs.Stored.{HoldsAlso, added_by};
    ghost use Rattle.net_base.specs.Network.{NetOf};
    ghost use Rattle.step_core.specs.Phases.{IsBundle};
    ghost use Rattle.step_core.specs.Found.{found_over};

    /// The lines, in the order of their numbers, with the entries of the last settle or growth. Takes no memory.
    pub fn lines(&self) -> &[Line]
        ensures lines { result.now ≡ self.now.world.lines.items }
        ensures numbered { AreNumbered result.now }
        // They hold exactly the tokens over the store.
        ensures hold { HoldJust (placed (held_of self.now.store) self.now.net.nodes (length result.now)) (sums_over self.now.store.elements self.now.net.alphas self.now.net.nodes) (map now (map seen result.now)) }
        // They report exactly the tasks of the last settle or growth that were for terminals.
        ensures told { All (TellsOfLasts self.now.net.nodes) result.now }
    {
        let parts = self.parts.as_ref();
        parts.world.lines()
    }

    /// Feeds all changes, and performs their tasks and all that result: on the calling thread, or by several workers,
    /// each of which takes a task from a pool and returns its children to it. The work is shared if many tasks are in
    /// flight and the last of them have many partners, and once if at least two but few are fed.
    ///
    /// It takes time for the tasks that it performs, for the lines that they are performed on, and for the nodes that
    /// a change is fed to. If many tasks were in flight it also looks at each line, and moves each if the work was
    /// shared. It may wait for other threads, and it is not proved that its turn ever comes. Removed elements are
    /// kept until the next settle.
    pub fn settle_freely<R: Threads + Wait + Sync>(
        self,
        rt: &R,
        alloc: Global,
        changes: &[Change],
    ) -> Result<Settled<FreeEngine<G>>, OutOfMemory>
        requires { Lawful self.store.elements self.store.last changes.now }
        ensures elements { IfOk result (λ s. s.matcher.store.elements ≡ done self.store.elements changes.now) }
        ensures last { IfOk result (λ s. s.matcher.store.last ≡ last_after self.store.last changes.now) }
        ensures settled { IfOk result (λ s. IsSettled (found_over self.net.alphas self.net.nodes self.store.elements) (found_over s.matcher.net.alphas s.matcher.net.nodes s.matcher.store.elements) s.gone.items s.come.items) }
        ensures stands { IfOk result (λ s. (rules : List Rule) → NetOf self.net rules → NetOf s.matcher.net rules) }
        ensures net { IfOk result (λ s. s.matcher.net ≡ self.net) }
        // Removed elements are still held: what was present or was added is held, and nothing else.
        ensures kept { IfOk result (λ s. HoldsAlso (record self.store { kept = [] }) s.matcher.store (added_by changes.now)) }
        // The lines with their entries are a bundle of the changes.
        ensures bundle { IfOk result (λ s. IsBundle (held_of s.matcher.store) s.matcher.net.alphas s.matcher.net.nodes (placed (held_of s.matcher.store) s.matcher.net.nodes (length s.matcher.world.lines.items)) self.store.elements changes.now (map seen s.matcher.world.lines.items)) }
        ensures lines { IfOk result (λ s. length s.matcher.world.lines.items ≡ length self.world.lines.items) }
        ensures workers { IfOk result (λ s. s.matcher.sharing.workers ≡ self.sharing.workers) }
    {
        let FreeEngine { parts } = self;
        let mut engine = parts;
        let parts = engine.as_mut();
        let Gathered { come, gone } = settle(
            rt,
            alloc,
            &parts.net,
            &mut parts.store,
            &parts.gate,
            &mut parts.world,
            &mut parts.sharing,
            changes,
        )?;
        Ok(Settled {
            matcher: FreeEngine { parts: engine },
            come,
            gone,
        })
    }
}

impl<G: Gate + Drop> Matcher for FreeEngine<G> {
    ghost use Rattle.std.specs.Prelude.{List};
    ghost use Rattle.ops_base.specs.declared.rules.Rule.{Rule};
    ghost use Rattle.ops_base.specs.WorkingMemory.{Lawful, done, last_after};
    ghost use Rattle.work_store.specs.Settling.{IsSettled};
    ghost use Rattle.work_store.specs.Stored.{HoldsAlso, added_by};
    ghost use Rattle.net_base.specs.Network.{NetOf};
    ghost use Rattle.step_core.specs.Phases.{IsBundle};
    ghost use Rattle.step_core.specs.Found.{found_over};

    ghost stored = { λ e. e.store };

    ghost found = { λ e. found_over e.net.alphas e.net.nodes e.store.elements };

    ghost stands_for = { λ e rules. NetOf e.net rules };

    type Hand = ();

    fn store(&self) -> &Store {
        settle_laws();
        let parts = self.parts.as_ref();
        let _last = parts.store.last();
        let _nodes = parts.net.nodes();
        &parts.store
    }

    /// As `settle_freely`, on the calling thread alone, as the serial engine settles.
    fn settle(
        self,
        alloc: Global,
        _hand: &mut (),
        changes: &[Change],
    ) -> Result<Settled<FreeEngine<G>>, OutOfMemory>
        requires { Lawful self.store.elements self.store.last changes.now }
        ensures elements { IfOk result (λ s. s.matcher.store.elements ≡ done self.store.elements changes.now) }
        ensures last { IfOk result (λ s. s.matcher.store.last ≡ last_after self.store.last changes.now) }
        ensures settled { IfOk result (λ s. IsSettled (found_over self.net.alphas self.net.nodes self.store.elements) (found_over s.matcher.net.alphas s.matcher.net.nodes s.matcher.store.elements) s.gone.items s.come.items) }
        ensures stands { IfOk result (λ s. (rules : List Rule) → NetOf self.net rules → NetOf s.matcher.net rules) }
        ensures net { IfOk result (λ s. s.matcher.net ≡ self.net) }
        // Removed elements are still held: what was present or was added is held, and nothing else.
        ensures kept { IfOk result (λ s. HoldsAlso (record self.store { kept = [] }) s.matcher.store (added_by changes.now)) }
        // The lines with their entries are a bundle of the changes.
        ensures bundle { IfOk result (λ s. IsBundle (held_of s.matcher.store) s.matcher.net.alphas s.matcher.net.nodes (placed (held_of s.matcher.store) s.matcher.net.nodes (length s.matcher.world.lines.items)) self.store.elements changes.now (map seen s.matcher.world.lines.items)) }
        ensures lines { IfOk result (λ s. length s.matcher.world.lines.items ≡ length self.world.lines.items) }
        ensures workers { IfOk result (λ s. s.matcher.sharing.workers ≡ self.sharing.workers) }
    {
        let FreeEngine { parts } = self;
        let mut engine = parts;
        let parts = engine.as_mut();
        let gate = &parts.gate;
        let enter = |line: usize| gate.enter(0, line);
        let Gathered { come, gone } = settle_alone(
            alloc,
            &parts.net,
            &mut parts.store,
            &enter,
            &mut parts.world,
            changes,
            &[],
        )?;
        Ok(Settled {
            matcher: FreeEngine { parts: engine },
            come,
            gone,
        })
    }
}
