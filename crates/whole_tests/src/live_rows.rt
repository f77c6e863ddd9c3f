//! Programs whose productions come and go while they run, over each engine.

use crate::runs::answer;
use ops_io::MemSink;
use ops_meaning::Status;
use std::test::Fail;

// What the excised production has fired is no mark of the one that is added.
const EXCHANGED: &[u8] = b"(literalize a n)
(make a ^n 1)
(make a ^n 2)
(p one (a ^n 1) --> (write one (crlf)))
(run)
(excise one)
(p two (a ^n <x>) --> (write two <x> (crlf)))
(run)
";

// It only adds a production, and runs nothing.
const ADDED: &[u8] = b"(literalize a n)
(make a)
(p r (a) --> )
";

const UNKNOWN: &[u8] = b"(literalize a n)
(p one (a ^n <x>) --> (write one <x> (crlf)))
(make a ^n 1)
(run)
(excise one nobody one)
(p two (a ^n <x>) - (a ^n > <x>) --> (write two <x> (crlf)))
(run)
(make a ^n 2)
(run)
(pm one)
";

// The productions that stay keep their marks and their breaks under other numbers.
const STAYING: &[u8] = b"(literalize a n)
(p one (a) --> (write one (crlf)))
(p two (a) --> (write two (crlf)))
(p three (a ^n 2) --> (write three (crlf)))
(pbreak two)
(make a)
(run)
(excise one)
(run)
(pbreak)
(make a ^n 2)
(run)
(excise two)
(pbreak)
(run)
";

// The element of the last tag is gone when the production comes.
const REMOVED: &[u8] = b"(literalize a n)
(make a ^n 1)
(make a ^n 2)
(remove 2)
(p one (a ^n <x>) --> (write one <x> (crlf)))
(run)
(make a ^n 3)
(cs)
(wm)
";

// Two productions are added to a network that stands over elements: one with a group, one with a negated condition. Later
// changes meet both.
const GROWING: &[u8] = b"(literalize a n)
(literalize b n)
(p one (a ^n <x>) --> (write one <x> (crlf)))
(p none (b ^n 9) --> )
(make a ^n 1)
(make b ^n 1)
(make a ^n 2)
(run)
(p two (a ^n <x>) - { (b ^n <x>) (a ^n > <x>) } --> (write two <x> (crlf)))
(p three (a ^n <x>) (b ^n <x>) - (a ^n > 2) --> (write three <x> (crlf)))
(run)
(make a ^n 3)
(remove 2)
(run)
";

/// Texts, each with what is written.
pub(super) const TEXTS: [(&[u8], &[u8]); 6] = [
    (
        EXCHANGED,
        b"one\nend -- no production true\ntwo 2\ntwo 1\nend -- no production true\n",
    ),
    (ADDED, b""),
    (
        UNKNOWN,
        b"one 1
end -- no production true
no production nobody
no production one
two 1
end -- no production true
two 2
end -- no production true
no production one
",
    ),
    (
        STAYING,
        b"one
two
break -- production two
end -- no production true
break two
three
two
break -- production two
end -- no production true
",
    ),
    (
        REMOVED,
        b"one 1\nend -- no production true\none 3\n1: (a ^n 1)\n3: (a ^n 3)\n",
    ),
    (
        GROWING,
        b"one 2
one 1
end -- no production true
two 2
three 1
end -- no production true
two 3
one 3
two 1
end -- no production true
",
    ),
];

/// A production that is added asks for a name and tells it.
pub(super) const ASK_LATE: &[u8] = b"(literalize s)
(make s)
(p ask (s) --> (write |name?|) (bind <n> (accept)) (write <n> (crlf)) (remove 1))
(run)
";

// The second one is added by a command.
const COUNTED: &[u8] =
    b"(literalize a n) (p first (a) --> ) (make a) (p second (a ^n 1) - (a ^n 2) --> )";

/// The network is that of the productions before the first `make` or `run`.
#[test]
fn network_without_added_productions(rt: HostRuntime) -> Result<(), Fail> {
    let alloc = rt.alloc();
    let mut sink = MemSink::new(alloc, 1_000, 1_000, Vec::new(alloc))?;
    let status = answer(&rt, alloc, &["--net", "a"], &[("a", COUNTED)], &mut sink)?;
    assert_eq!(rt; status, Status::Done);
    let expected = b"alpha 1\njoin 1\nnegated 0\nterminal 1\n".as_slice();
    assert_eq!(rt; sink.written(), expected);
    Ok(())
}
