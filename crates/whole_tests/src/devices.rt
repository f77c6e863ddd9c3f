//! Outputs, inputs and files that fail at one call after another.
ghost use Rattle.std.specs.Prelude.{◌<◌};

use crate::runs::{
    ASK, BLOCKS, ENGINES, LAID_OUT, LAYOUT, NAMED_ANN, PUT, answer_on, answer_to, shelf_of,
};
use ops_io::{MemSink, MemSource};
use ops_meaning::Status;
use std::alloc::Global;
use std::sync::Wait;
use std::test::Fail;
use std::thread::Threads;

/// More calls than any of these runs makes.
const CALLS: u64 = 1_000;

/// Programs, with what they write where `Ann` is the input.
const PROGRAMS: [(&[u8], &[u8]); 3] = [(ASK, NAMED_ANN), (LAYOUT, LAID_OUT), (BLOCKS, PUT)];

/// How many bytes an output takes at most at a call.
const PIECES: [usize; 3] = [1, 7, 8_192];

/// A run whose output fails at this call: true where it was not called that often, and all was written.
fn is_written_past<R: Threads + Wait + Clone + Drop + Send + Sync>(
    rt: &R,
    alloc: Global,
    engine: &[&str],
    program: (&[u8], &[u8]),
    piece: usize,
    call: u64,
) -> Result<bool, Fail>
    requires { 0 < piece }
{
    let (text, whole) = program;
    let mut input = MemSource::new(Vec::from_slice(alloc, b"Ann")?, 1, Vec::new(alloc));
    let mut sink = MemSink::new(alloc, 1_000, piece, vec![in alloc; call]?)?;
    match answer_to(rt, alloc, engine, text, &mut input, &mut sink)? {
        Status::Done => Ok(sink.written() == whole),
        Status::WriteFault => {
            if !whole.starts_with(sink.written()) {
                return Err(Fail::from("what was written is no prefix"));
            }
            Ok(false)
        }
        _ => Err(Fail::from("another status")),
    }
}

#[test]
fn outputs_that_fail(rt: HostRuntime) -> Result<(), Fail> {
    let alloc = rt.alloc();
    for engine in ENGINES {
        for program in PROGRAMS {
            for piece in PIECES {
                let mut is_whole = false;
                for call in 1..CALLS {
                    if is_written_past(&rt, alloc, engine, program, piece, call)? {
                        is_whole = true;
                        break;
                    }
                }
                assert_eq!(rt; is_whole, true);
            }
        }
    }
    Ok(())
}

/// The input is `Ann`, by one byte a call, and fails at one call after another.
#[test]
fn inputs_that_fail(rt: HostRuntime) -> Result<(), Fail> {
    let alloc = rt.alloc();
    for engine in ENGINES {
        for call in 1..6 {
            let mut input = MemSource::new(
                Vec::from_slice(alloc, b"Ann")?,
                1,
                vec![in alloc; call]?,
            );
            let mut sink = MemSink::new(alloc, 1_000, 8_192, Vec::new(alloc))?;
            let status = answer_to(&rt, alloc, engine, ASK, &mut input, &mut sink)?;
            // three bytes, and the end
            if call <= 4 {
                assert_eq!(rt; status, Status::ReadFault);
                assert_eq!(rt;
                    sink.written(),
                    b"name?\nops: cannot read the input\n".as_slice()
                );
            } else {
                assert_eq!(rt; status, Status::Done);
                assert_eq!(rt; sink.written(), NAMED_ANN);
            }
        }
    }
    Ok(())
}

/// Two files of which one can't be loaded: its number, and what is written.
const LOADS: [(u64, &[u8]); 2] = [(1, b"ops: cannot read f\n"), (2, b"ops: cannot read g\n")];

#[test]
fn files_that_fail(rt: HostRuntime) -> Result<(), Fail> {
    let alloc = rt.alloc();
    for (load, told) in LOADS {
        let mut shelf = shelf_of(alloc, &[("f", b""), ("g", b"")], &[load])?;
        let mut input = MemSource::new(Vec::new(alloc), 1, Vec::new(alloc));
        let mut sink = MemSink::new(alloc, 1_000, 1_000, Vec::new(alloc))?;
        let status = answer_on(&rt, alloc, &["f", "g"], &mut shelf, &mut input, &mut sink)?;
        assert_eq!(rt; status, Status::ReadFault);
        assert_eq!(rt; sink.written(), told);
    }
    Ok(())
}
