//! Words that fit and words that don't, and files that need no program.
use crate::runs::{answer, shelf_of, words_of};
use ops_base::endings::Fault;
use ops_io::{MemSink, MemSource, OpenGate};
use ops_meaning::Status;
use ops_top::{code, still_run};
use std::test::Fail;

const USAGE: &[u8] =
    b"usage: ops [--match direct|serial|rounds|free|steal] [--workers N] [--lines L] [--limit N] [--overlap] FILE.. | ops --gen SEED SIZE | ops --net FILE.. | ops --why FILE..\n";

/// Words that don't fit.
const UNFIT: [&[&str]; 16] = [
    &[],
    &["-x", "f"],
    &["--net=1", "f"],
    &["--limit=1"],
    &["f", "--limit"],
    &["--limit", "0", "f"],
    &["--limit", "3", "--limit", "3", "f"],
    &["--workers", "65", "f"],
    &["--match=queue", "f"],
    &["--gen", "7", "0"],
    &["--gen", "--net", "7", "1"],
    &["--why", "--why", "f"],
    &["--why", "--net", "f"],
    &["--gen", "--why", "7", "1"],
    &["--match=serial", "--lines=0", "f"],
    &["--match=serial", "--lines=65537", "f"],
];

/// Words that fit, each with what is written where no file is there.
const FIT: [(&[&str], &[u8]); 6] = [
    (&["f"], b"ops: cannot read f\n"),
    (&["-"], b"ops: cannot read -\n"),
    (&["--limit=3", "f", "g"], b"ops: cannot read f\n"),
    (&["f", "--workers", "7"], b"ops: cannot read f\n"),
    (&["--match=serial", "f"], b"ops: cannot read f\n"),
    (
        &["--match", "direct", "--", "--limit"],
        b"ops: cannot read --limit\n",
    ),
];

#[test]
fn words_that_do_not_fit(rt: HostRuntime) -> Result<(), Fail> {
    let alloc = rt.alloc();
    for words in UNFIT {
        let mut sink = MemSink::new(alloc, 1_000, 1_000, Vec::new(alloc))?;
        assert_eq!(rt; answer(&rt, alloc, words, &[], &mut sink)?, Status::Usage);
        assert_eq!(rt; sink.written(), USAGE);
    }
    Ok(())
}

/// The sink takes 7 bytes a call, and its third call fails.
#[test]
fn usage_line_is_cut(rt: HostRuntime) -> Result<(), Fail> {
    let alloc = rt.alloc();
    let mut sink = MemSink::new(alloc, 1_000, 7, vec![in alloc; 3]?)?;
    assert_eq!(rt;
        answer(&rt, alloc, &[], &[], &mut sink)?,
        Status::WriteFault
    );
    assert_eq!(rt; sink.written(), b"usage: ops [--".as_slice());
    Ok(())
}

#[test]
fn words_that_fit(rt: HostRuntime) -> Result<(), Fail> {
    let alloc = rt.alloc();
    for (words, written) in FIT {
        let mut sink = MemSink::new(alloc, 1_000, 1_000, Vec::new(alloc))?;
        assert_eq!(rt;
            answer(&rt, alloc, words, &[], &mut sink)?,
            Status::ReadFault
        );
        assert_eq!(rt; sink.written(), written);
    }
    Ok(())
}

/// A call that does not wait leaves words to the one that does, where they ask for it.
#[test]
fn left_to_the_call_that_waits(rt: HostRuntime) -> Result<(), Fail> {
    let alloc = rt.alloc();
    let mut shelf = shelf_of(alloc, &[("f", b"(write 1)")], &[])?;
    let words = words_of(alloc, &["f"])?;
    let mut input = MemSource::new(Vec::new(alloc), 1, Vec::new(alloc));
    let mut sink = MemSink::new(alloc, 1_000, 1_000, Vec::new(alloc))?;
    let status = still_run(
        &rt, alloc, &words, &mut shelf, &mut input, &mut sink, &OpenGate,
    );
    assert_eq!(rt; status, None);
    assert_eq!(rt; sink.written(), b"".as_slice());
    Ok(())
}

const TOO_LONG: Status = Status::Refused {
    fault: Fault::TooLong,
    line: 1,
    column: 1,
};

/// Files, and how many letters there are in `x`. It is too long; it fits, and the LF that it lacks does not; or both
/// fit, and the next file does not.
const LONG: [(&[&str], usize); 3] = [
    (&["x"], 16_777_217),
    (&["x"], 16_777_216),
    (&["x", "y"], 16_777_215),
];

#[test]
fn long_files(rt: HostRuntime) -> Result<(), Fail> {
    let alloc = rt.alloc();
    for (words, count) in LONG {
        let letters = vec![in alloc; b'x'; count]?;
        let files: [(&str, &[u8]); 2] = [("x", letters.as_slice()), ("y", b"\n")];
        let mut sink = MemSink::new(alloc, 1_000, 1_000, Vec::new(alloc))?;
        assert_eq!(rt; answer(&rt, alloc, words, &files, &mut sink)?, TOO_LONG);
        assert_eq!(rt; sink.written(), b"ops: 1:1: text too long\n".as_slice());
    }
    Ok(())
}

#[test]
fn codes(rt: HostRuntime) {
    assert_eq!(rt; code(&TOO_LONG), 1);
}
