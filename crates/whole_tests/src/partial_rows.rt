//! Programs that list partial matches, over each engine.

// An element stands in the way of the second part of `calm`. The makes wait when they are looked at.
const PAIRS: &[u8] = b"(literalize a n) (literalize stop)
(p pair (a ^n <x>) (a ^n > <x>) --> )
(p calm (a ^n <x>) - (stop) --> )
(p big (a ^n 9) --> )
(make a ^n 1) (make a ^n 2) (make stop)
(matches pair calm)
";

// A group is one part, and leaves no tag.
const GROUPED: &[u8] = b"(literalize a n) (literalize b n) (literalize c n)
(p alone (a ^n <x>) - { (b ^n <x>) (c ^n <x>) } (c ^n > <x>) --> )
(make a ^n 1) (make b ^n 1) (make a ^n 2) (make c ^n 1) (make c ^n 5)
(matches alone)
";

// It goes by the productions that are in force where it stands.
const CHANGED: &[u8] = b"(literalize a n)
(p one (a ^n 1) --> )
(make a ^n 1)
(matches one two)
(excise one)
(matches one)
(p two (a ^n <x>) --> )
(matches two nobody two)
";

// What has fired is listed, and so is what was made after the run.
const RUN: &[u8] = b"(literalize a n)
(p step (a ^n 1) --> (make a ^n 2))
(p both (a ^n <x>) (a ^n > <x>) --> )
(make a ^n 1)
(make a ^n 7)
(run)
(make a ^n 3)
(remove 2)
(matches both)
";

/// Texts, each with what is written.
pub(super) const TEXTS: [(&[u8], &[u8]); 4] = [
    (
        PAIRS,
        b"pair 1: 1\npair 1: 2\npair 2: 1 2\ncalm 1: 1\ncalm 1: 2\n",
    ),
    (
        GROUPED,
        b"alone 1: 1\nalone 1: 3\nalone 2: 3\nalone 3: 3 5\n",
    ),
    (
        CHANGED,
        b"one 1: 1
no production two
no production one
two 1: 1
no production nobody
two 1: 1
",
    ),
    (
        RUN,
        b"end -- no production true
both 1: 1
both 1: 3
both 1: 4
both 2: 1 3
both 2: 1 4
both 2: 3 4
",
    ),
];
