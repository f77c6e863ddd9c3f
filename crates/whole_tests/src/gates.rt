//! How often an engine passes the gate.

ghost use Rattle.std.specs.Prelude.{◌≤◌};

use crate::rows::HELLO;
use crate::runs::answer_past;
use beta_net::compile;
use crossbeam_utils::Backoff;
use net_base::net::Net;
use net_base::nodes::Kind;
use net_base::tags::Tags;
use net_base::tasks::{Side, Task};
use ops_base::memory::OutOfMemory;
use ops_check::read_program;
use ops_io::{Gate, MemSink, MemSource};
use ops_meaning::Status;
use std::alloc::Global;
use std::sync::Wait;
use std::sync::atomic::{AtomicU64, Ordering};
use std::test::Fail;
use std::thread::Threads;
use token_line::line_of;
use work_store::Store;

/// A gate that counts how often it is passed.
#[derive(Drop)]
struct Counting {
    calls: AtomicU64,
}

impl Gate for Counting {
    fn enter(&self, _worker: usize, _line: usize) {
        self.calls.fetch_add(1, Ordering::SeqCst);
    }
}

/// Words, each with how many activations the program `hello` makes over the engine that they ask for. Its element comes
/// to its one condition and then to its terminal, and leaves them in the same way.
const CALLS: [(&[&str], u64); 8] = [
    (&["hello"], 4),
    (&["--match=direct", "hello"], 0),
    (&["--match=serial", "hello"], 4),
    (&["--match=serial", "--lines=1", "hello"], 4),
    (&["--match=rounds", "hello"], 4),
    (&["--match=rounds", "--lines=1", "hello"], 4),
    (&["--match=free", "--workers=1", "hello"], 4),
    (&["--match=free", "--lines=1", "hello"], 4),
];

#[test]
fn activations_counted(rt: HostRuntime) -> Result<(), Fail> {
    let alloc = rt.alloc();
    for (words, calls) in CALLS {
        let gate = Counting {
            calls: AtomicU64::new(0),
        };
        let mut input = MemSource::new(Vec::new(alloc), 1, Vec::new(alloc));
        let mut sink = MemSink::new(alloc, 1_000, 1_000, Vec::new(alloc))?;
        let files: [(&str, &[u8]); 1] = [("hello", HELLO)];
        let status = answer_past(&rt, alloc, words, &files, &mut input, &mut sink, &gate)?;
        assert_eq!(rt; status, Status::Done);
        assert_eq!(rt; gate.calls.load(Ordering::SeqCst), calls);
    }
    Ok(())
}

/// Words that run a workload, each with the least number of activations and one that is too large. Direct matching
/// makes none, and takes too long for a test on more items.
const GATED_RUNS: [(&[&str], u64, u64); 5] = [
    (&["--gen", "7", "400", "--match", "serial"], 1_001, 20_000),
    (&["--gen", "7", "400", "--match", "rounds"], 1_001, 20_000),
    (&["--gen", "7", "400", "--match", "free"], 1_001, 20_000),
    (&["--gen", "7", "400", "--match", "steal"], 1_001, 20_000),
    (&["--gen", "7", "20", "--match", "direct"], 0, 1),
];

#[test]
fn activations_of_a_workload(rt: HostRuntime) -> Result<(), Fail> {
    let alloc = rt.alloc();
    for (words, least, past) in GATED_RUNS {
        let gate = Counting {
            calls: AtomicU64::new(0),
        };
        let mut input = MemSource::new(Vec::new(alloc), 1, Vec::new(alloc));
        let mut sink = MemSink::new(alloc, 1_000, 1_000, Vec::new(alloc))?;
        let status = answer_past(&rt, alloc, words, &[], &mut input, &mut sink, &gate)?;
        assert_eq!(rt; status, Status::Done);
        let calls = gate.calls.load(Ordering::SeqCst);
        assert_eq!(rt; least <= calls && calls < past, true);
    }
    Ok(())
}

/// One element, which comes to a condition of each of two productions.
const TWO: &[u8] =
    b"(literalize a n m) (p r (a ^n 1) --> ) (p t (a ^m 1) --> ) (make a ^n 1 ^m 1)\n";

/// How many turns the first call waits at most.
const TURNS: u64 = 1_000_000;

/// A gate that holds the first call until this many calls of another worker have come.
#[derive(Drop)]
struct Meeting {
    wanted: u64,
    /// The worker of the first call, or `NOBODY`.
    first: AtomicU64,
    /// How many calls of other workers have come.
    others: AtomicU64,
    /// How many had come when the first call went on, 0 before.
    met: AtomicU64,
}

const NOBODY: u64 = u64::MAX;

impl Meeting {
    fn of(wanted: u64) -> Meeting {
        Meeting {
            wanted,
            first: AtomicU64::new(NOBODY),
            others: AtomicU64::new(0),
            met: AtomicU64::new(0),
        }
    }
}

impl Gate for Meeting {
    fn enter(&self, worker: usize, _line: usize) {
        let me = worker as u64;
        match self
            .first
            .compare_exchange(NOBODY, me, Ordering::SeqCst, Ordering::SeqCst)
        {
            Ok(_nobody) => {
                let backoff = Backoff::new();
                for _turn in 0..TURNS {
                    if self.others.load(Ordering::SeqCst) >= self.wanted {
                        break;
                    }
                    backoff.snooze();
                }
                let met = self.others.load(Ordering::SeqCst);
                self.met.store(met, Ordering::SeqCst);
            }
            Err(first) => {
                if first != me {
                    self.others.fetch_add(1, Ordering::SeqCst);
                }
            }
        }
    }
}

/// The lines of the tasks that element 1 makes: from the right for the joins, from the left for the terminals.
fn lines_of(alloc: Global, net: &Net, side: Side, lines: usize) -> Result<Vec<usize>, OutOfMemory>
    requires { 1 ≤ lines }
{
    let store = Store::new(alloc);
    let mut found = Vec::new(alloc);
    for (node, kind) in net.nodes().iter().map(|node| node.kind).enumerate() {
        let is_fed = match side {
            Side::Right => kind == Kind::Join,
            Side::Left => matches!(kind, Kind::Terminal { .. }),
        };
        if is_fed {
            let task = Task {
                node,
                side,
                plus: true,
                token: Tags::from_slice(alloc, &[1])?,
            };
            found.push(line_of(net, &store, &task, lines))?;
        }
    }
    Ok(found)
}

/// Whether the tasks for the joins are in different ones of two shards, where there are this many lines.
fn are_in_two_shards(alloc: Global, net: &Net, lines: usize) -> Result<bool, OutOfMemory>
    requires { 1 ≤ lines }
{
    let joins = lines_of(alloc, net, Side::Right, lines)?;
    let mut upper = Vec::new(alloc);
    for line in joins {
        upper.push(line >= lines.saturating_sub(line))?;
    }
    Ok(upper.first() != upper.last())
}

/// Whether the tasks for the joins and for the terminals are on different lines, where there are this many.
fn are_on_four_lines(alloc: Global, net: &Net, lines: usize) -> Result<bool, OutOfMemory>
    requires { 1 ≤ lines }
{
    let mut found = lines_of(alloc, net, Side::Right, lines)?;
    found.extend_from_slice(&lines_of(alloc, net, Side::Left, lines)?)?;
    found.sort()?;
    Ok(found.windows(2).all(|pair| pair.first() != pair.last()))
}

/// What is answered to the program `TWO` over this engine, with two workers and this many lines.
fn answer_to_two<R: Threads + Wait + Clone + Drop + Send + Sync>(
    rt: &R,
    alloc: Global,
    engine: &str,
    lines: usize,
    gate: &Meeting,
) -> Result<Status, Fail> {
    let lines = format!(in alloc; "--lines={lines}")?;
    let words = ["--match", engine, "--workers=2", lines.as_str(), "two"];
    let mut input = MemSource::new(Vec::new(alloc), 1, Vec::new(alloc));
    let mut sink = MemSink::new(alloc, 1_000, 1_000, Vec::new(alloc))?;
    let files: [(&str, &[u8]); 1] = [("two", TWO)];
    answer_past(rt, alloc, &words, &files, &mut input, &mut sink, gate)
}

/// The network of the program `TWO`.
fn net_of_two(alloc: Global) -> Result<Net, Fail> {
    let text = Vec::from_slice(alloc, TWO)?;
    let (program, _names) = read_program(alloc, text)?;
    Ok(compile(alloc, &program)?)
}

/// A shard begins an activation while another one is held in its own.
#[test]
fn two_shards_meet(rt: HostRuntime) -> Result<(), Fail> {
    let alloc = rt.alloc();
    let net = net_of_two(alloc)?;
    for lines in 2..100 {
        if are_in_two_shards(alloc, &net, lines)? {
            let gate = Meeting::of(1);
            let status = answer_to_two(&rt, alloc, "rounds", lines, &gate)?;
            assert_eq!(rt; status, Status::Done);
            assert_eq!(rt; gate.met.load(Ordering::SeqCst) >= 1, true);
            return Ok(());
        }
    }
    panic!(rt; "no number of lines has them in two shards");
}

/// A worker begins an activation and its child while another is held in one: no order of rounds has that.
#[test]
fn two_activations_meet(rt: HostRuntime) -> Result<(), Fail> {
    let alloc = rt.alloc();
    let net = net_of_two(alloc)?;
    for lines in 2..100 {
        if are_on_four_lines(alloc, &net, lines)? {
            let gate = Meeting::of(2);
            let status = answer_to_two(&rt, alloc, "free", lines, &gate)?;
            assert_eq!(rt; status, Status::Done);
            assert_eq!(rt; gate.met.load(Ordering::SeqCst) >= 2, true);
            return Ok(());
        }
    }
    panic!(rt; "no number of lines has them on four lines");
}

/// The same of workers with a deque each.
#[test]
fn two_stealing_workers_meet(rt: HostRuntime) -> Result<(), Fail> {
    let alloc = rt.alloc();
    let net = net_of_two(alloc)?;
    for lines in 2..100 {
        if are_on_four_lines(alloc, &net, lines)? {
            let gate = Meeting::of(2);
            let status = answer_to_two(&rt, alloc, "steal", lines, &gate)?;
            assert_eq!(rt; status, Status::Done);
            assert_eq!(rt; gate.met.load(Ordering::SeqCst) >= 2, true);
            return Ok(());
        }
    }
    panic!(rt; "no number of lines has them on four lines");
}
