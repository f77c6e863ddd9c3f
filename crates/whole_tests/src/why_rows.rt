//! Programs that are explained at their end, over each engine.

use crate::runs::{ENGINES, answer};
use ops_io::MemSink;
use ops_meaning::Status;
use ops_top::code;
use std::test::Fail;

// Each of its productions ends in another way.
const PAIR: &[u8] = b"(literalize a n) (literalize stop)
(p pair (a ^n <x>) (a ^n > <x>) --> )
(p calm (a ^n <x>) - (stop) --> )
(p big (a ^n 9) --> )
(make a ^n 1) (make a ^n 2) (make stop)
(matches pair calm)
";

const PAIR_EXPLAINED: &[u8] = b"pair 1: 1
pair 1: 2
pair 2: 1 2
calm 1: 1
calm 1: 2
why pair 1 2: 1 ^n 1
why calm: condition 2
why big: condition 1
";

// A place of a vector attribute, a group, and a condition that binds nothing.
const PLACES: &[u8] = b"(literalize a n) (literalize b m l) (vector-attribute l) (literalize stop)
(p both (b ^m <x>) - { (a ^n <x>) (stop) } (b ^m <x> ^l { <y> } <z>) --> )
(p any (a) --> )
(make a ^n 7) (make b ^m 1 ^l 2 |b c|)
";

const PLACES_EXPLAINED: &[u8] = b"why both 2 2: 1 ^m 1; 3 ^l/1 2; 3 ^l/2 |b c|
why any 1:
";

// It ends by a fault.
const FAULTY: &[u8] = b"(literalize a n)
(p r (a ^n <x>) --> (bind <y> (compute <x> // 0)))
(make a ^n 1)
(run)
";

#[test]
fn explanations(rt: HostRuntime) -> Result<(), Fail> {
    let alloc = rt.alloc();
    for engine in ENGINES {
        for (text, written) in [(PAIR, PAIR_EXPLAINED), (PLACES, PLACES_EXPLAINED)] {
            let mut words = Vec::from_slice(alloc, engine)?;
            words.push("--why")?;
            words.push("a")?;
            let mut sink = MemSink::new(alloc, 1_000, 1_000, Vec::new(alloc))?;
            let status = answer(&rt, alloc, &words, &[("a", text)], &mut sink)?;
            assert_eq!(rt; status, Status::Done);
            assert_eq!(rt; sink.written(), written);
        }
    }
    Ok(())
}

#[test]
fn no_explanation_after_a_fault(rt: HostRuntime) -> Result<(), Fail> {
    let alloc = rt.alloc();
    let mut sink = MemSink::new(alloc, 1_000, 1_000, Vec::new(alloc))?;
    let status = answer(&rt, alloc, &["--why", "a"], &[("a", FAULTY)], &mut sink)?;
    assert_eq!(rt; code(&status), 3);
    let expected = b"ops: firing 1: r: action 1: zero divisor\n".as_slice();
    assert_eq!(rt; sink.written(), expected);
    Ok(())
}
