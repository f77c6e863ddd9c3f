//! What programs of several files write, with each engine.

use crate::back_rows::TEXTS as UNDONE;
use crate::build_rows::{ASK_BUILT, TEXTS as BUILT};
use crate::live_rows::{ASK_LATE, TEXTS as LIVE};
use crate::partial_rows::TEXTS as PARTIAL;
use crate::runs::{NAMED_ANN, RUNS, answer, answer_over};
use ops_io::{MemSink, MemSource};
use ops_meaning::Status;
use std::test::Fail;

/// Productions come and go, are built, and list their partial matches, and firings are undone.
#[test]
fn each_text_is_written(rt: HostRuntime) -> Result<(), Fail> {
    let alloc = rt.alloc();
    let all: [&[(&[u8], &[u8])]; 4] = [&LIVE, &BUILT, &PARTIAL, &UNDONE];
    for texts in all {
        for (text, written) in texts {
            for words in RUNS {
                let mut sink = MemSink::new(alloc, 1_000, 1_000, Vec::new(alloc))?;
                let status = answer(&rt, alloc, words, &[("a", text)], &mut sink)?;
                assert_eq!(rt; status, Status::Done);
                assert_eq!(rt; sink.written(), *written);
            }
        }
    }
    Ok(())
}

/// A production that is added or built reads the input.
#[test]
fn new_productions_ask(rt: HostRuntime) -> Result<(), Fail> {
    let alloc = rt.alloc();
    for text in [ASK_LATE, ASK_BUILT] {
        for words in RUNS {
            let bytes = Vec::from_slice(alloc, b"Ann Bob")?;
            let mut input = MemSource::new(bytes, 1, Vec::new(alloc));
            let mut sink = MemSink::new(alloc, 1_000, 1_000, Vec::new(alloc))?;
            let status = answer_over(&rt, alloc, words, &[("a", text)], &mut input, &mut sink)?;
            assert_eq!(rt; status, Status::Done);
            assert_eq!(rt; sink.written(), NAMED_ANN);
        }
    }
    Ok(())
}
