//! The call that does not wait for turns, over each engine that it takes.

use crate::runs::{LAID_OUT, LAYOUT, shelf_of, words_of};
use ops_io::{MemSink, MemSource, OpenGate};
use ops_meaning::Status;
use ops_top::still_run;
use std::test::Fail;

/// Engines whose workers don't wait for each other's turns.
const ENGINES: [&str; 3] = ["--match=direct", "--match=serial", "--match=rounds"];

#[test]
fn sessions_without_turns(rt: HostRuntime) -> Result<(), Fail> {
    let alloc = rt.alloc();
    for engine in ENGINES {
        let words = words_of(alloc, &[engine, "a"])?;
        let mut shelf = shelf_of(alloc, &[("a", LAYOUT)], &[])?;
        let mut input = MemSource::new(Vec::new(alloc), 1, Vec::new(alloc));
        let mut sink = MemSink::new(alloc, 1_000, 1_000, Vec::new(alloc))?;
        let status = still_run(
            &rt, alloc, &words, &mut shelf, &mut input, &mut sink, &OpenGate,
        );
        assert_eq!(rt; status, Some(Status::Done));
        assert_eq!(rt; sink.written(), LAID_OUT);
    }
    Ok(())
}
