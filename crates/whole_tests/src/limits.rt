//! Inputs, texts and conflict sets at the limit, and past it.

use crate::runs::{ASK, ENGINES, answer_on, answer_to, shelf_of};
use ops_base::endings::Fault;
use ops_io::{MemSink, MemSource};
use ops_meaning::Status;
use ops_top::ActKind;
use std::alloc::{AllocError, Global};
use std::test::Fail;

/// The most bytes that one `accept` takes.
const LONGEST_ATOM: usize = 1_048_576;

/// The most bytes of a text.
const LONGEST_TEXT: usize = 16_777_216;

const TOO_LONG_INPUT: Status = Status::ActFault {
    firing: 1,
    rule: 0,
    action: 2,
    kind: ActKind::InputTooLong,
};

const TOO_LONG_TOLD: &[u8] = b"name?\nops: firing 1: ask: action 2: input too long\n";

/// Inputs of one byte again and again: the byte, how many there are, the status, and what is written, if that is short.
const INPUTS: [(u8, usize, Status, Option<&[u8]>); 4] = [
    (b'a', LONGEST_ATOM, Status::Done, None),
    (b'a', LONGEST_ATOM + 1, TOO_LONG_INPUT, Some(TOO_LONG_TOLD)),
    (
        b' ',
        LONGEST_ATOM,
        Status::Done,
        Some(b"name? end-of-file\nend -- no production true\n"),
    ),
    (b' ', LONGEST_ATOM + 1, TOO_LONG_INPUT, Some(TOO_LONG_TOLD)),
];

/// What is written where the atom has these letters.
fn named(alloc: Global, letters: &[u8]) -> Result<Vec<u8>, AllocError> {
    let mut written = Vec::from_slice(alloc, b"name? ")?;
    written.extend_from_slice(letters)?;
    written.extend_from_slice(b"\nend -- no production true\n")?;
    Ok(written)
}

#[test]
fn inputs_at_the_limit(rt: HostRuntime) -> Result<(), Fail> {
    let alloc = rt.alloc();
    for (byte, count, wanted, told) in INPUTS {
        let bytes = vec![in alloc; byte; count]?;
        let whole = named(alloc, &bytes)?;
        let mut input = MemSource::new(bytes, 8_192, Vec::new(alloc));
        let mut sink = MemSink::new(alloc, LONGEST_ATOM + 1_000, 8_192, Vec::new(alloc))?;
        let status = answer_to(&rt, alloc, &["--match=serial"], ASK, &mut input, &mut sink)?;
        assert_eq!(rt; status, wanted);
        let written = match told {
            Some(told) => sink.written() == told,
            None => sink.written() == whole.as_slice(),
        };
        assert_eq!(rt; written, true);
    }
    Ok(())
}

/// Texts: how they begin, the byte that goes on, their length, their fault if there is one, and what is written.
const TEXTS: [(&[u8], u8, usize, Option<(Fault, u64)>, &[u8]); 3] = [
    (b"", b'\n', LONGEST_TEXT, None, b""),
    (
        b"(write |",
        b'x',
        LONGEST_TEXT - 1,
        Some((Fault::UnknownCommand, 2)),
        b"ops: 1:2: unknown command\n",
    ),
    (
        b"(write |",
        b'x',
        LONGEST_TEXT,
        Some((Fault::TooLong, 1)),
        b"ops: 1:1: text too long\n",
    ),
];

#[test]
fn texts_at_the_limit(rt: HostRuntime) -> Result<(), Fail> {
    let alloc = rt.alloc();
    for (head, byte, length, refusal, told) in TEXTS {
        let mut text = Vec::from_slice(alloc, head)?;
        text.resize(length, byte)?;
        let mut input = MemSource::new(Vec::new(alloc), 1, Vec::new(alloc));
        let mut sink = MemSink::new(alloc, 1_000, 1_000, Vec::new(alloc))?;
        let status = answer_to(
            &rt,
            alloc,
            &["--match=serial"],
            &text,
            &mut input,
            &mut sink,
        )?;
        let wanted = match refusal {
            Some((fault, column)) => Status::Refused {
                fault,
                line: 1,
                column,
            },
            None => Status::Done,
        };
        assert_eq!(rt; status, wanted);
        assert_eq!(rt; sink.written(), told);
    }
    Ok(())
}

/// The conflict set has 160,000 members.
const CROSS: &[u8] = b"(literalize a) (p cross (a) (a) (a) (a) --> (halt)) (watch 1)
(make a)(make a)(make a)(make a)(make a)(make a)(make a)(make a)(make a)(make a)
(make a)(make a)(make a)(make a)(make a)(make a)(make a)(make a)(make a)(make a)
(run)
";

#[test]
fn large_conflict_set(rt: HostRuntime) -> Result<(), Fail> {
    let alloc = rt.alloc();
    for engine in ENGINES {
        let mut input = MemSource::new(Vec::new(alloc), 1, Vec::new(alloc));
        let mut sink = MemSink::new(alloc, 1_000, 1_000, Vec::new(alloc))?;
        let status = answer_to(&rt, alloc, engine, CROSS, &mut input, &mut sink)?;
        assert_eq!(rt; status, Status::Done);
        assert_eq!(rt;
            sink.written(),
            b"1. cross 20 20 20 20\nend -- explicit halt\n".as_slice()
        );
    }
    Ok(())
}

/// The conflict set has 4,096 members, and each is listed.
const LISTED: &[u8] = b"(literalize a) (p cross (a) (a) (a) (a) --> )
(make a)(make a)(make a)(make a)(make a)(make a)(make a)(make a)
(cs)
";

#[test]
fn listed_conflict_set(rt: HostRuntime) -> Result<(), Fail> {
    let alloc = rt.alloc();
    for engine in ENGINES {
        let mut input = MemSource::new(Vec::new(alloc), 1, Vec::new(alloc));
        let mut sink = MemSink::new(alloc, 100_000, 100_000, Vec::new(alloc))?;
        let status = answer_to(&rt, alloc, engine, LISTED, &mut input, &mut sink)?;
        assert_eq!(rt; status, Status::Done);
        let written = sink.written();
        assert_eq!(rt; written.starts_with(b"cross 8 8 8 8\n"), true);
        assert_eq!(rt; written.ends_with(b"\ncross 1 1 1 1\n"), true);
        let lines = written.iter().filter(|byte| **byte == b'\n').count();
        assert_eq!(rt; lines, 4_096);
    }
    Ok(())
}

/// Words of a workload whose workers share one line.
const CROWDED: [&[&str]; 2] = [
    &[
        "--match=free",
        "--workers=64",
        "--lines=1",
        "--gen",
        "7",
        "20",
    ],
    &[
        "--match=rounds",
        "--workers=64",
        "--lines=1",
        "--gen",
        "7",
        "20",
    ],
];

#[test]
fn many_workers_on_one_line(rt: HostRuntime) -> Result<(), Fail> {
    let alloc = rt.alloc();
    for words in CROWDED {
        let mut shelf = shelf_of(alloc, &[], &[])?;
        let mut input = MemSource::new(Vec::new(alloc), 1, Vec::new(alloc));
        let mut sink = MemSink::new(alloc, 10_000, 10_000, Vec::new(alloc))?;
        let status = answer_on(&rt, alloc, words, &mut shelf, &mut input, &mut sink)?;
        assert_eq!(rt; status, Status::Done);
        let end = b"\nsummary: firings 31 elements 79 last-tag 110\n";
        assert_eq!(rt; sink.written().ends_with(end), true);
    }
    Ok(())
}
