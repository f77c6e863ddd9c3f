//! A text that is cut after each of its bytes.

use crate::runs::{BLOCKS, ENGINES, answer_to};
use ops_io::{MemSink, MemSource};
use ops_meaning::Status;
use std::test::Fail;

/// Whether a place is in the text, or at the end of the text with an LF after it.
fn is_place_of(text: &[u8], line: u64, column: u64) -> bool {
    let mut at = (1u64, 1u64);
    let mut is_there = at == (line, column);
    for byte in text.iter().chain(b"\n".iter()) {
        at = if *byte == b'\n' {
            (at.0.saturating_add(1), 1)
        } else {
            (at.0, at.1.saturating_add(1))
        };
        is_there = is_there || at == (line, column);
    }
    is_there
}

/// Each engine answers a part of the text with the same bytes and status: that it is done, or a fault with its place.
#[test]
fn cut_after_each_byte(rt: HostRuntime) -> Result<(), Fail> {
    let alloc = rt.alloc();
    for end in 0..=BLOCKS.len() {
        let text = &BLOCKS[..end];
        let mut first: Option<(Status, MemSink)> = None;
        for engine in ENGINES {
            let mut input = MemSource::new(Vec::new(alloc), 1, Vec::new(alloc));
            let mut sink = MemSink::new(alloc, 1_000, 1_000, Vec::new(alloc))?;
            let status = answer_to(&rt, alloc, engine, text, &mut input, &mut sink)?;
            let is_right = match status {
                Status::Done => true,
                Status::Refused { line, column, .. } => is_place_of(text, line, column),
                _ => false,
            };
            assert_eq!(rt; is_right, true);
            match &first {
                Some((wanted, written)) => {
                    assert_eq!(rt; status, *wanted);
                    assert_eq!(rt; sink.written(), written.written());
                }
                None => first = Some((status, sink)),
            }
        }
    }
    Ok(())
}
