//! Whole programs of one file through the top call.

use crate::runs::{ASK, BLOCKS, LAID_OUT, LAYOUT, PUT, RUNS, answer, answer_over};
use ops_base::endings::{ActKind, Fault};
use ops_io::{MemSink, MemSource};
use ops_meaning::Status;
use std::alloc::{AllocError, Global};
use std::test::Fail;

pub(super) const HELLO: &[u8] =
    b"(literalize start)\n(p hello (start) --> (write Hello from OPS5 (crlf)) (remove 1))\n(make start)\n(run)\n";

const PREDICATES: &[u8] = b"(literalize a n m)
(p lt (a ^n < 5) --> (write lt (crlf)))
(p same (a ^n <x> ^m <=> <x>) --> (write same (crlf)))
(p one (a ^m << <x> 7 >>) --> (write one (crlf)))
(p lit (a ^n // <x>) --> (write lit (crlf)))
(make a ^n // <x> ^m 7)
(make a ^n 3 ^m // <x>)
(run)
";

const NOTED: &[u8] = b"; note
(literalize |big box| n)
(p |say it| (|big box| ^n <x>) --> (write |a b| <x> (crlf)) (halt))
(make |big box| ^n 12.)
(run)
";

const FREE: &[u8] = b"(literalize a n) (literalize stop n)
(p free (a ^n <x>) - (stop ^n <x>) - (stop ^n > 8) --> (write <x> (crlf)))
(make a ^n 1) (make a ^n 2) (make stop ^n 2)
(run)
";

// Places of a vector are tested one after another, a field past the end is `nil`, and a later list replaces an earlier
// one.
const VECTORS: &[u8] = b"(literalize v n list) (vector-attribute list) (literalize |a b| x)
(p first { <w> (v ^n 1 ^list <h> { } <h>) } - (v ^list nil nil) --> (write first <h> (crlf)) (remove <w>))
(p |second one| { (v ^list { <> c } { } nil) <w> } --> (write second (crlf)) (make v ^list a b ^list c) (remove <w>))
(p third (v ^n nil ^list c) --> (write third (crlf)) (halt))
(make v ^list x y)
(make v ^n 1 ^list a b a ^list 5 6 5 7)
(run)
";

// The later of two elements fires first, each is matched by both conditions, and what is removed fires no more.
const PAIR: &[u8] = b"(literalize a n)
(p pair (a ^n <x>) (a ^n <x>) --> (write pair <x> (crlf)) (remove 1))
(make a ^n 5)
(make a ^n 6)
(run)
";

// A blocker is made and removed in one right side, and the mark stays.
const ONCE: &[u8] = b"(literalize a n) (literalize stop)
(p once (a ^n <x>) - (stop) --> (make stop) (cbind <s>) (remove <s>) (write <x> (crlf)))
(watch 2)
(make a ^n 1)
(run)
(wm)
";

// The second modify goes on from what the first left.
const TWICE: &[u8] = b"(literalize a n)
(p up { <w> (a ^n 0) } --> (modify <w> ^n 1) (modify <w> ^n 2))
(p both (a ^n 2) (a ^n 2) --> (remove 1 2))
(watch 2)
(make a ^n 0)
(run)
";

const VALUES: &[u8] = b"(literalize v n list) (vector-attribute list)
(p r { <w> (v ^list <h> <k>) } --> (make v ^n <k> ^list <h> (substr <w> list inf)) (halt))
(make v ^list a b c)
(run)
(wm)
";

const DIVIDED: &[u8] = b"(literalize s)
(p c (s) -->
  (write (compute 2 * 3 + 4) (compute -7 // 2) (compute -7 \\\\ 2) (crlf))
  (write (compute 1 // 0)))
(make s) (run)
";

const DIVIDED_BY_ZERO: Status = Status::ActFault {
    firing: 1,
    rule: 0,
    action: 2,
    kind: ActKind::ZeroDivisor,
};

/// Texts, each with the status that answers it and what is written.
const ROWS: [(&[u8], Status, &[u8]); 14] = [
    (
        HELLO,
        Status::Done,
        b"Hello from OPS5\nend -- no production true\n",
    ),
    (b"", Status::Done, b""),
    (
        b"(literalize a n) (p r (a ^n 1) --> (halt)) (run)",
        Status::Done,
        b"end -- no production true\n",
    ),
    (
        PREDICATES,
        Status::Done,
        b"lt\none\none\nlit\nend -- no production true\n",
    ),
    (NOTED, Status::Done, b"a b 12\nend -- explicit halt\n"),
    (FREE, Status::Done, b"1\nend -- no production true\n"),
    (
        VECTORS,
        Status::Done,
        b"first 5\nsecond\nthird\nend -- explicit halt\n",
    ),
    (
        PAIR,
        Status::Done,
        b"pair 6\npair 5\nend -- no production true\n",
    ),
    (
        ONCE,
        Status::Done,
        b"=>WM: 1: (a ^n 1)\n1. once 1\n=>WM: 2: (stop)\n<=WM: 2: (stop)\n1\nend -- no production true\n1: (a ^n 1)\n",
    ),
    (
        TWICE,
        Status::Done,
        b"=>WM: 1: (a ^n 0)\n1. up 1\n<=WM: 1: (a ^n 0)\n=>WM: 2: (a ^n 1)\n<=WM: 2: (a ^n 1)\n=>WM: 3: (a ^n 2)\n2. both 3 3\n<=WM: 3: (a ^n 2)\nend -- no production true\n",
    ),
    (
        VALUES,
        Status::Done,
        b"end -- explicit halt\n1: (v ^list a b c)\n2: (v ^n b ^list a a b c)\n",
    ),
    (
        DIVIDED,
        DIVIDED_BY_ZERO,
        b"14 -3 -1\nops: firing 1: c: action 2: zero divisor\n",
    ),
    (LAYOUT, Status::Done, LAID_OUT),
    (BLOCKS, Status::Done, PUT),
];

/// Texts that are refused on their first line, each with its fault, the column and the line that is written.
const REFUSED: [(&[u8], Fault, u64, &[u8]); 5] = [
    (
        b"(literalize a) (make b)",
        Fault::UnknownClass,
        22,
        b"ops: 1:22: unknown class\n",
    ),
    (
        b"(literalize a) (p r (a) --> (write <x>))",
        Fault::UnboundVariable,
        36,
        b"ops: 1:36: unbound variable\n",
    ),
    (
        b"(foo)",
        Fault::UnknownCommand,
        2,
        b"ops: 1:2: unknown command\n",
    ),
    (b")", Fault::Stray, 1, b"ops: 1:1: stray\n"),
    (
        b"(literalize a n) (make a ^n 1.5)",
        Fault::FractionNumber,
        29,
        b"ops: 1:29: fraction\n",
    ),
];

#[test]
fn rows(rt: HostRuntime) -> Result<(), Fail> {
    let alloc = rt.alloc();
    for words in RUNS {
        for (text, status, written) in ROWS {
            let mut sink = MemSink::new(alloc, 1_000, 1_000, Vec::new(alloc))?;
            assert_eq!(rt;
                answer(&rt, alloc, words, &[("a", text)], &mut sink)?,
                status
            );
            assert_eq!(rt; sink.written(), written);
        }
    }
    Ok(())
}

#[test]
fn refusals(rt: HostRuntime) -> Result<(), Fail> {
    let alloc = rt.alloc();
    for (text, fault, column, written) in REFUSED {
        let mut sink = MemSink::new(alloc, 1_000, 1_000, Vec::new(alloc))?;
        let refused = Status::Refused {
            fault,
            line: 1,
            column,
        };
        assert_eq!(rt;
            answer(&rt, alloc, &["a"], &[("a", text)], &mut sink)?,
            refused
        );
        assert_eq!(rt; sink.written(), written);
    }
    Ok(())
}

#[test]
fn failing_sink(rt: HostRuntime) -> Result<(), Fail> {
    let alloc = rt.alloc();
    let mut sink = MemSink::new(alloc, 1_000, 4, vec![in alloc; 3]?)?;
    let status = answer(&rt, alloc, &["a"], &[("a", HELLO)], &mut sink)?;
    assert_eq!(rt; status, Status::WriteFault);
    assert_eq!(rt; sink.written(), b"Hello fr".as_slice());
    Ok(())
}

/// A text whose right side gives the vector attribute this many values.
fn vector_of(alloc: Global, values: usize) -> Result<Vec<u8>, AllocError> {
    let head =
        b"(literalize v x) (vector-attribute x)\n(p |r s| (v) --> (write on (crlf)) (make v ^x";
    let mut text = Vec::from_slice(alloc, head)?;
    for _value in 0..values {
        text.extend_from_slice(b" 1")?;
    }
    text.extend_from_slice(b") (halt))\n(make v)\n(run)\n")?;
    Ok(text)
}

#[test]
fn too_many_fields(rt: HostRuntime) -> Result<(), Fail> {
    let alloc = rt.alloc();
    let mut sink = MemSink::new(alloc, 1_000, 1_000, Vec::new(alloc))?;
    let fits = vector_of(alloc, 126)?;
    let status = answer(&rt, alloc, &["a"], &[("a", fits.as_slice())], &mut sink)?;
    assert_eq!(rt; status, Status::Done);
    let fault = Status::ActFault {
        firing: 1,
        rule: 0,
        action: 2,
        kind: ActKind::TooManyFields,
    };
    let mut sink = MemSink::new(alloc, 1_000, 1_000, Vec::new(alloc))?;
    let passes = vector_of(alloc, 127)?;
    let status = answer(&rt, alloc, &["a"], &[("a", passes.as_slice())], &mut sink)?;
    assert_eq!(rt; status, fault);
    let expected = b"on\nops: firing 1: |r s|: action 2: too many fields\n".as_slice();
    assert_eq!(rt; sink.written(), expected);
    Ok(())
}

const ATOMS: &[u8] = b"(literalize a n m)
(p r (a) --> (make a ^n (accept) ^m (accept)) (make a ^n (accept) ^m (accept)) (halt))
(make a) (run) (wm)
";

/// Texts, each with an input and what is written.
const ACCEPTED: [(&[u8], &[u8], &[u8]); 3] = [
    (ASK, b"  Ann Bob", b"name? Ann\nend -- no production true\n"),
    (ASK, b"", b"name? end-of-file\nend -- no production true\n"),
    (
        ATOMS,
        b"12 1.5 |a b| (x",
        b"end -- explicit halt\n1: (a)\n2: (a ^n 12 ^m |1.5|)\n3: (a ^n |a b| ^m |(x|)\n",
    ),
];

/// The input comes a byte at a time.
#[test]
fn accepted(rt: HostRuntime) -> Result<(), Fail> {
    let alloc = rt.alloc();
    for (text, bytes, written) in ACCEPTED {
        let bytes = Vec::from_slice(alloc, bytes)?;
        let mut input = MemSource::new(bytes, 1, Vec::new(alloc));
        let mut sink = MemSink::new(alloc, 1_000, 1_000, Vec::new(alloc))?;
        let status = answer_over(&rt, alloc, &["a"], &[("a", text)], &mut input, &mut sink)?;
        assert_eq!(rt; status, Status::Done);
        assert_eq!(rt; sink.written(), written);
    }
    Ok(())
}

/// The first read fails.
#[test]
fn failing_input(rt: HostRuntime) -> Result<(), Fail> {
    let alloc = rt.alloc();
    let bytes = Vec::from_slice(alloc, b"Ann")?;
    let mut input = MemSource::new(bytes, 1, vec![in alloc; 1]?);
    let mut sink = MemSink::new(alloc, 1_000, 1_000, Vec::new(alloc))?;
    let status = answer_over(&rt, alloc, &["a"], &[("a", ASK)], &mut input, &mut sink)?;
    assert_eq!(rt; status, Status::ReadFault);
    let expected = b"name?\nops: cannot read the input\n".as_slice();
    assert_eq!(rt; sink.written(), expected);
    Ok(())
}

const COUNTER: &[u8] = b"(literalize n)
(p again (n) --> (make n) (remove 1))
(make n)
(run)
";

/// A run that would go on for ever ends with the limit.
#[test]
fn limit(rt: HostRuntime) -> Result<(), Fail> {
    let alloc = rt.alloc();
    let mut sink = MemSink::new(alloc, 1_000, 1_000, Vec::new(alloc))?;
    let status = answer(
        &rt,
        alloc,
        &["--match=direct", "a"],
        &[("a", COUNTER)],
        &mut sink,
    )?;
    assert_eq!(rt; status, Status::Limit);
    let expected = b"ops: limit of 1000000 firings reached\n".as_slice();
    assert_eq!(rt; sink.written(), expected);
    Ok(())
}

const TWIN: &[u8] = b"(literalize a n) (p twin (a ^n <x>) (a ^n <x>) --> )";

const SHARED: &[u8] = b"(literalize a) (p first (a) --> ) (p second (a) --> )";

// A binding is no test, and the same tests in another order make another node.
const ORDERED: &[u8] = b"(literalize a n m)
(p one (a ^n <x>) (a ^n <x> ^m <x>) --> )
(p two (a ^n <y>) (a ^m <y> ^n <y>) --> )
(p three (a) --> )";

/// Words and a text, each with the status that answers them and what is written: the network of the text, or its fault.
const NETWORKS: [(&[&str], &[u8], Status, &[u8]); 6] = [
    (
        &["--net", "a"],
        b"",
        Status::Done,
        b"alpha 0\njoin 0\nnegated 0\nterminal 0\n",
    ),
    (
        &["--net", "a"],
        TWIN,
        Status::Done,
        b"alpha 1\njoin 2\nnegated 0\nterminal 1\n",
    ),
    (
        &["a", "--net"],
        SHARED,
        Status::Done,
        b"alpha 1\njoin 1\nnegated 0\nterminal 2\n",
    ),
    (
        &["--net", "a"],
        ORDERED,
        Status::Done,
        b"alpha 1\njoin 3\nnegated 0\nterminal 3\n",
    ),
    (
        &["--limit=3", "--net", "a"],
        BLOCKS,
        Status::Done,
        b"alpha 3\njoin 5\nnegated 2\nterminal 4\n",
    ),
    (
        &["--net", "a"],
        b")",
        Status::Refused {
            fault: Fault::Stray,
            line: 1,
            column: 1,
        },
        b"ops: 1:1: stray\n",
    ),
];

#[test]
fn networks(rt: HostRuntime) -> Result<(), Fail> {
    let alloc = rt.alloc();
    for (words, text, status, written) in NETWORKS {
        let mut sink = MemSink::new(alloc, 1_000, 1_000, Vec::new(alloc))?;
        assert_eq!(rt;
            answer(&rt, alloc, words, &[("a", text)], &mut sink)?,
            status
        );
        assert_eq!(rt; sink.written(), written);
    }
    Ok(())
}

/// Words that run a workload, each with the end of what is written. Each move of an item and each of the ten blocks
/// makes a firing. The 59 roads and the items are left, and each move takes a tag more.
const WORKLOADS: [(&[&str], &[u8]); 5] = [
    (&["--gen", "7", "1"], ONE_ITEM),
    (&["7", "1", "--gen", "--match=serial"], ONE_ITEM),
    (&["--match", "rounds", "--gen", "7", "1"], ONE_ITEM),
    (
        &["--gen", "7", "20"],
        b"\nsummary: firings 31 elements 79 last-tag 110\n",
    ),
    (
        &["--gen", "--match=serial", "--lines=1", "7", "20"],
        b"\nsummary: firings 31 elements 79 last-tag 110\n",
    ),
];

const ONE_ITEM: &[u8] =
    b"end -- no production true\n71: (item ^id 1 ^at 9 ^left 0)\nsummary: firings 11 elements 60 last-tag 71\n";

#[test]
fn workloads(rt: HostRuntime) -> Result<(), Fail> {
    let alloc = rt.alloc();
    for (words, ending) in WORKLOADS {
        let mut sink = MemSink::new(alloc, 1_000, 1_000, Vec::new(alloc))?;
        assert_eq!(rt; answer(&rt, alloc, words, &[], &mut sink)?, Status::Done);
        assert_eq!(rt; sink.written().ends_with(ending), true);
    }
    Ok(())
}

/// A session that does not finish has no summary.
#[test]
fn limited_workload(rt: HostRuntime) -> Result<(), Fail> {
    let alloc = rt.alloc();
    let mut sink = MemSink::new(alloc, 1_000, 1_000, Vec::new(alloc))?;
    let words = ["--gen", "--limit=3", "7", "1"];
    assert_eq!(rt; answer(&rt, alloc, &words, &[], &mut sink)?, Status::Limit);
    let expected = b"ops: limit of 3 firings reached\n".as_slice();
    assert_eq!(rt; sink.written(), expected);
    Ok(())
}
