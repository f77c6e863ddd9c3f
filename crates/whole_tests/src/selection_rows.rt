//! Programs of several files, which show which instantiation fires and how runs and sessions are limited.

use crate::runs::answer;
use ops_base::endings::Fault;
use ops_io::MemSink;
use ops_meaning::Status;
use std::test::Fail;

const GOALS: &[u8] = b"(literalize goal n) (literalize item)
(p old (goal ^n 1) (item) --> (write old (crlf)))
(p new (goal ^n 2) --> (write new (crlf)))
(make goal ^n 1) (make goal ^n 2) (make item)
";

// Its last line is a note that no LF ends.
const CLOSING: &[u8] = b"(literalize a n) (literalize stop)
(p close (a) - (stop) --> (make stop) (write close (crlf)))
(p open { <s> (stop) } --> (remove <s>) (write open (crlf)))
(make a) ; one";

const COUNTING: &[u8] = b"(literalize a n)
(p up { <w> (a ^n <x>) } --> (modify <w> ^n (compute <x> + 1)))
(make a ^n 0)
";

const REFUSED: Status = Status::Refused {
    fault: Fault::UnknownAttribute,
    line: 5,
    column: 10,
};

/// Words, the text of the file `go`, the status that answers them and what is written.
const SELECTED: [(&[&str], &[u8], Status, &[u8]); 17] = [
    (
        &["goals", "go"],
        b"(cs) (strategy mea) (cs)",
        Status::Done,
        b"old 1 3\nnew 2\nnew 2\nold 1 3\n",
    ),
    (
        &["goals", "go"],
        b"(run 1) (strategy mea) (strategy) (run)",
        Status::Done,
        b"old\nbreak -- run count\nstrategy mea\nnew\nend -- no production true\n",
    ),
    (
        &["goals", "go"],
        b"(strategy mea) (run)",
        Status::Done,
        b"new\nold\nend -- no production true\n",
    ),
    // A make after a run is a phase, in which the marks stay.
    (
        &["goals", "go"],
        b"(run) (make item) (run)",
        Status::Done,
        b"old\nnew\nend -- no production true\nold\nend -- no production true\n",
    ),
    (
        &["--limit", "1", "goals", "go"],
        b"(run)",
        Status::Limit,
        b"old\nops: limit of 1 firings reached\n",
    ),
    (
        &["goals", "--limit=2", "go"],
        b"(run)",
        Status::Done,
        b"old\nnew\nend -- no production true\n",
    ),
    // The limit is of all runs together.
    (
        &["goals", "go", "--limit", "1"],
        b"(run 1) (run)",
        Status::Limit,
        b"old\nbreak -- run count\nops: limit of 1 firings reached\n",
    ),
    (
        &["closing", "go"],
        b"(run 4)",
        Status::Done,
        b"close\nopen\nclose\nopen\nbreak -- run count\n",
    ),
    // A file that is empty adds no line.
    (
        &["closing", "none", "go"],
        b"(make a ^q 1)",
        REFUSED,
        b"ops: 5:10: unknown attribute\n",
    ),
    (
        &["closing", "absent", "go"],
        b"(run)",
        Status::ReadFault,
        b"ops: cannot read absent\n",
    ),
    (
        &["counting", "--limit", "3", "go"],
        b"(run)",
        Status::Limit,
        b"ops: limit of 3 firings reached\n",
    ),
    (
        &["counting", "go"],
        b"(run 3) (wm)",
        Status::Done,
        b"break -- run count\n4: (a ^n 3)\n",
    ),
    (
        &["--match=serial", "goals", "go"],
        b"(run) (make item) (run)",
        Status::Done,
        b"old\nnew\nend -- no production true\nold\nend -- no production true\n",
    ),
    (
        &["--match=serial", "goals", "go", "--limit", "1"],
        b"(run 1) (run)",
        Status::Limit,
        b"old\nbreak -- run count\nops: limit of 1 firings reached\n",
    ),
    (
        &["closing", "go", "--match=serial", "--lines=1"],
        b"(run 4)",
        Status::Done,
        b"close\nopen\nclose\nopen\nbreak -- run count\n",
    ),
    (
        &["--match=serial", "closing", "none", "go"],
        b"(make a ^q 1)",
        REFUSED,
        b"ops: 5:10: unknown attribute\n",
    ),
    (
        &["--", "--limit"],
        b"",
        Status::Done,
        b"end -- no production true\n",
    ),
];

#[test]
fn selected(rt: HostRuntime) -> Result<(), Fail> {
    let alloc = rt.alloc();
    for (words, text, status, written) in SELECTED {
        let files: [(&str, &[u8]); 6] = [
            ("goals", GOALS),
            ("closing", CLOSING),
            ("counting", COUNTING),
            ("none", b""),
            ("--limit", b"(run)"),
            ("go", text),
        ];
        let mut sink = MemSink::new(alloc, 1_000, 1_000, Vec::new(alloc))?;
        assert_eq!(rt; answer(&rt, alloc, words, &files, &mut sink)?, status);
        assert_eq!(rt; sink.written(), written);
    }
    Ok(())
}
