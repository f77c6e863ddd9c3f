//! Programs whose match goes on while a right side waits for its input, over each engine.
ghost use Rattle.std.specs.Prelude.{Some};

use crate::runs::{ASK, NAMED_ANN, answer_over, shelf_of, words_of};
use crossbeam_utils::Backoff;
use ops_io::{Failed, Gate, MemSink, MemSource, Source};
use ops_meaning::Status;
use ops_top::ops_run;
use std::sync::atomic::{AtomicU64, Ordering};
use std::test::Fail;

/// Words that run the file `a` so, with each engine.
const RUNS: [&[&str]; 8] = [
    &["--overlap", "a"],
    &["--match=direct", "--overlap", "a"],
    &["a", "--overlap", "--match=serial"],
    &["--match=rounds", "--workers=1", "--overlap", "a"],
    &["--match=rounds", "--workers=7", "--overlap", "a"],
    &["--match=free", "--overlap", "--workers=2", "a"],
    &["--overlap", "--match=steal", "--workers=2", "a"],
    &["--overlap", "--match=steal", "--workers=7", "a"],
];

// What one action takes away, and is settled before an answer, a later one brings back: the mark stays.
const MARKED: &[u8] = b"(literalize a n)
(literalize stop)
(p once (a ^n <x>) - (stop)
  -->
    (make stop) (cbind <s>) (bind <y> (accept)) (remove <s>) (bind <z> (accept)) (write <x> <y> <z> (crlf)))
(make a ^n 1)
(run)
(wm)
";

/// What that writes where the input is `5 6`.
const MARKED_SO: &[u8] = b"1 5 6
end -- no production true
1: (a ^n 1)
";

// A fault after an answer: what was written before it stands.
const FAULTY: &[u8] = b"(literalize s)
(literalize a n)
(p on (s) --> (make a ^n 1) (write |?|) (bind <x> (accept)) (write (compute <x> + 1)))
(make s)
(run)
";

#[test]
fn answers_are_the_same(rt: HostRuntime) -> Result<(), Fail> {
    let alloc = rt.alloc();
    for words in RUNS {
        let mut input = MemSource::new(Vec::from_slice(alloc, b"Ann\n")?, 1, Vec::new(alloc));
        let mut sink = MemSink::new(alloc, 1_000, 1_000, Vec::new(alloc))?;
        let status = answer_over(&rt, alloc, words, &[("a", ASK)], &mut input, &mut sink)?;
        assert_eq!(rt; status, Status::Done);
        assert_eq!(rt; sink.written(), NAMED_ANN);
    }
    for words in RUNS {
        let mut input = MemSource::new(Vec::from_slice(alloc, b"5 6\n")?, 1, Vec::new(alloc));
        let mut sink = MemSink::new(alloc, 1_000, 1_000, Vec::new(alloc))?;
        let status = answer_over(&rt, alloc, words, &[("a", MARKED)], &mut input, &mut sink)?;
        assert_eq!(rt; status, Status::Done);
        assert_eq!(rt; sink.written(), MARKED_SO);
    }
    Ok(())
}

#[test]
fn faults_are_the_same(rt: HostRuntime) -> Result<(), Fail> {
    let alloc = rt.alloc();
    for words in RUNS {
        let mut input = MemSource::new(Vec::from_slice(alloc, b"Ann\n")?, 1, Vec::new(alloc));
        let mut sink = MemSink::new(alloc, 1_000, 1_000, Vec::new(alloc))?;
        let _status = answer_over(&rt, alloc, words, &[("a", FAULTY)], &mut input, &mut sink)?;
        let wanted = b"?\nops: firing 1: on: action 4: not a number\n".as_slice();
        assert_eq!(rt; sink.written(), wanted);
    }
    for words in RUNS {
        // the first read fails
        let mut failing = Vec::new(alloc);
        failing.push(1)?;
        let mut input = MemSource::new(Vec::new(alloc), 1, failing);
        let mut sink = MemSink::new(alloc, 1_000, 1_000, Vec::new(alloc))?;
        let status = answer_over(&rt, alloc, words, &[("a", FAULTY)], &mut input, &mut sink)?;
        assert_eq!(rt; status, Status::ReadFault);
        assert_eq!(rt;
            sink.written(),
            b"?\nops: cannot read the input\n".as_slice()
        );
    }
    Ok(())
}

/// A source that notes that it was asked.
#[derive(Drop)]
struct Asked<'a> {
    input: MemSource,
    asked: &'a AtomicU64,
}

impl<'a> Source for Asked<'a> {
    ghost left = { λ s. Some s.input.left };

    ghost faults = { λ s. s.input.faults };

    fn read(&mut self, buf: &mut [u8]) -> Result<usize, Failed> {
        self.asked.store(1, Ordering::SeqCst);
        self.input.read(buf)
    }
}

/// How many turns the gate waits at most.
const TURNS: u64 = 1_000_000;

/// A gate that holds its third call until the source was asked.
#[derive(Drop)]
struct Holding<'a> {
    calls: AtomicU64,
    asked: &'a AtomicU64,
    met: AtomicU64,
}

impl<'a> Gate for Holding<'a> {
    fn enter(&self, _worker: usize, _line: usize) {
        // the first two calls are the activations of the element that the text makes
        if self.calls.fetch_add(1, Ordering::SeqCst) != 2 {
            return;
        }
        let backoff = Backoff::new();
        for _turn in 0..TURNS {
            if self.asked.load(Ordering::SeqCst) > 0 {
                self.met.store(1, Ordering::SeqCst);
                return;
            }
            backoff.snooze();
        }
    }
}

// The second production gives the new element an activation.
const MEETING: &[u8] = b"(literalize s)
(literalize a n)
(p r (s) --> (make a ^n 1) (bind <x> (accept)))
(p t (a) --> )
(make s)
(run)
";

/// The first activation of an element is held until the action after its `make` asks for input.
#[test]
fn match_and_action_meet(rt: HostRuntime) -> Result<(), Fail> {
    let alloc = rt.alloc();
    let asked = AtomicU64::new(0);
    let gate = Holding {
        calls: AtomicU64::new(0),
        asked: &asked,
        met: AtomicU64::new(0),
    };
    let mut input = Asked {
        input: MemSource::new(Vec::from_slice(alloc, b"5\n")?, 10, Vec::new(alloc)),
        asked: &asked,
    };
    let mut sink = MemSink::new(alloc, 1_000, 1_000, Vec::new(alloc))?;
    let mut shelf = shelf_of(alloc, &[("a", MEETING)], &[])?;
    let words = words_of(alloc, &["--match", "free", "--overlap", "a"])?;
    let status = ops_run(&rt, alloc, &words, &mut shelf, &mut input, &mut sink, &gate);
    assert_eq!(rt; status, Status::Done);
    assert_eq!(rt; gate.met.load(Ordering::SeqCst), 1);
    Ok(())
}
