//! Tasks over a small network, dealt to two shards and performed by them. The gate distinguishes the shards.
ghost use Rattle.std.specs.Prelude.{◌≡◌, ◌≤◌, ◌∷◌, [], IfOk, Some, length, pos};
ghost use Rattle.ops_base.specs.declared.values.Value.TheVariants.{Whole};
ghost use Rattle.work_store.specs.Stored.{held_of};
ghost use Rattle.step_core.specs.Worlds.{ArePartsReady, IsReady};

use crate::ground::Ground;
use crate::rounds::do_shards;
use crate::shards::{Shard, deal, pays};
use net_base::net::Net;
use net_base::nodes::{Alpha, JoinTest, Kind, Node};
use ops_base::elements::{Change, Element};
use ops_base::list::Listed;
use ops_base::memory::OutOfMemory;
use ops_base::values::{Pred, Value};
use ops_io::Gate;
use std::alloc::Global;
use std::sync::atomic::{AtomicU64, Ordering};
use std::test::Fail;
use std::thread::Threads;
use step_core::{Parts, World};
use token_line::Line;
use work_store::Store;

/// Counts each call of worker 0 as 1, and each call of worker 1 as 100. It also adds up the numbers of their lines.
#[derive(Drop)]
struct Counting {
    calls: AtomicU64,
    lines: AtomicU64,
}

impl Gate for Counting {
    fn enter(&self, worker: usize, line: usize) {
        let call = if worker == 0 { 1 } else { 100 };
        self.calls.fetch_add(call, Ordering::SeqCst);
        self.lines.fetch_add(line as u64, Ordering::SeqCst);
    }
}

fn element(alloc: Global, tag: u64, class: usize) -> Result<Element, OutOfMemory>
    ensures { IfOk result (λ e. e ≡ record { tag = tag; class = class; fields = Whole (pos 7) ∷ [] }) }
{
    let fields = Listed::from_array(alloc, [Value::Whole(7)])?;
    Ok(Element { tag, class, fields })
}

fn alpha(alloc: Global, class: usize) -> Alpha
    ensures { result ≡ record { class = class; tests = [] } }
{
    Alpha {
        class,
        tests: Listed::new(alloc),
    }
}

// `(p pair (a ^n <x>) (b ^n <x>) -->)`
fn pair(alloc: Global) -> Result<Net, OutOfMemory> {
    let same = JoinTest {
        field: 0,
        pred: Pred::Eq,
        place: 0,
        other: 0,
    };
    let first = Node {
        kind: Kind::Join,
        parent: None,
        class: 0,
        alpha: 0,
        joins: Listed::new(alloc),
        children: Listed::from_array(alloc, [1])?,
        rights: Listed::new(alloc),
        depth: 1,
    };
    let second = Node {
        kind: Kind::Join,
        parent: Some(0),
        class: 1,
        alpha: 1,
        joins: Listed::from_array(alloc, [same])?,
        children: Listed::from_array(alloc, [2])?,
        rights: Listed::new(alloc),
        depth: 2,
    };
    let terminal = Node {
        kind: Kind::Terminal { rule: 0 },
        parent: Some(1),
        class: 0,
        alpha: 0,
        joins: Listed::new(alloc),
        children: Listed::new(alloc),
        rights: Listed::new(alloc),
        depth: 3,
    };
    let alphas = Listed::from_array(alloc, [alpha(alloc, 0), alpha(alloc, 1)])?;
    let nodes = Listed::from_array(alloc, [first, second, terminal])?;
    Net::new(alloc, alphas, nodes)
}

// element 1 is of the first class, and element 2 of the second
fn store_of_two(alloc: Global) -> Result<Store, OutOfMemory>
    ensures first { IfOk result (λ s. held_of s 1 ≡ Some (record { tag = 1; class = 0; fields = Whole (pos 7) ∷ [] })) }
    ensures second { IfOk result (λ s. held_of s 2 ≡ Some (record { tag = 2; class = 1; fields = Whole (pos 7) ∷ [] })) }
{
    let mut store = Store::new(alloc);
    store.add(element(alloc, 1, 0)?)?;
    store.add(element(alloc, 2, 1)?)?;
    Ok(store)
}

// four lines; both elements have been added
fn begun(alloc: Global, net: &Net, store: &Store) -> Result<World, OutOfMemory>
    requires first { held_of store.now 1 ≡ Some (record { tag = 1; class = 0; fields = Whole (pos 7) ∷ [] }) }
    requires second { held_of store.now 2 ≡ Some (record { tag = 2; class = 1; fields = Whole (pos 7) ∷ [] }) }
    ensures { IfOk result (λ w. IsReady net.now.nodes store.now w) }
{
    let mut world = World::start(alloc, net, 4)?;
    let first = Change::Add(element(alloc, 1, 0)?);
    world.feed(alloc, net, store, &first)?;
    let second = Change::Add(element(alloc, 2, 1)?);
    world.feed(alloc, net, store, &second)?;
    Ok(world)
}

// The tasks in flight, dealt, and their children after a round on two threads.
fn round<R: Threads + Sync>(
    rt: &R,
    ground: &Ground<'_>,
    gate: &Counting,
    parts: Parts,
) -> Result<(Vec<Shard>, Vec<Shard>), OutOfMemory>
    requires ready { ArePartsReady ground.now.net.now.nodes ground.now.store.now parts }
    requires lines { length parts.lines.items ≡ ground.now.lines }
{
    let Parts { mut lines, flight } = parts;
    let dealt = deal(ground, flight)?;
    let made = do_shards(
        rt,
        ground,
        gate,
        true,
        dealt.as_slice(),
        lines.as_mut_slice(),
    )?;
    Ok((dealt, made))
}

#[test]
fn two_shards_do_a_round(rt: HostRuntime) -> Result<(), Fail> {
    let alloc = rt.alloc();
    let net = pair(alloc)?;
    let store = store_of_two(alloc)?;
    let world = begun(alloc, &net, &store)?;
    let gate = Counting {
        calls: AtomicU64::new(0),
        lines: AtomicU64::new(0),
    };
    let lines = world.lines().len();
    assert_eq!(rt; (lines, world.in_flight()), (4, 2));
    if world.done() == 0 && lines > 1 {
        let ground = Ground {
            alloc,
            net: &net,
            store: &store,
            lines,
            shards: 2,
        };
        let (dealt, made) = round(&rt, &ground, &gate, world.into_parts())?;
        assert_eq!(rt; pays(dealt.as_slice(), false), true);
        assert_eq!(rt; pays(dealt.as_slice(), true), false);
        assert_eq!(rt; (dealt.len(), made.len()), (2, 2));
        if let [low, high] = dealt.as_slice() {
            assert_eq!(rt; (low.first, low.count, low.tasks.len()), (0, 2, 1));
            assert_eq!(rt; (high.first, high.count, high.tasks.len()), (2, 2, 1));
        }
        if let [low, high] = made.as_slice() {
            assert_eq!(rt; (low.tasks.len(), high.tasks.len()), (0, 1));
            if let [child] = high.tasks.as_slice() {
                assert_eq!(rt; (child.line, child.task.node), (2, 1));
            }
        }
    }
    // lines 0 and (31 + 7) % 4
    assert_eq!(rt; gate.calls.load(Ordering::SeqCst), 101);
    assert_eq!(rt; gate.lines.load(Ordering::SeqCst), 2);
    Ok(())
}
