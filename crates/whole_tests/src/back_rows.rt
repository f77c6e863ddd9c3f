//! Programs that undo firings, over each engine.

// The tags that were given are given again.
const COUNTED: &[u8] = b"(literalize a n)
(p up { <w> (a ^n { <x> < 3 }) } --> (modify <w> ^n (compute <x> + 1)))
(make a ^n 0)
(run)
(wm)
(back 2)
(wm)
(run 1)
(wm)
(back 3)
";

// So are the fresh atoms, and what had fired may fire again.
const FRESH: &[u8] = b"(literalize s)
(literalize t v)
(p r (s) --> (make t ^v (genatom)))
(make s)
(run)
(back 1)
(run)
(wm)
";

// A mark that the firing's phase had dropped is there again: `once` does not fire a second time.
const MARKED: &[u8] = b"(literalize a n)
(literalize b)
(p once (a ^n 1) --> (write once (crlf)) (make b))
(p off { <a> (a ^n 1) } (b) --> (remove <a>))
(make a ^n 1)
(run)
(back)
(cs)
(run)
";

// What is no firing empties the trail: a make, a remove of what is absent, a production. An excise of none does not.
const EMPTIED: &[u8] = b"(literalize a n)
(p r (a ^n <x>) --> )
(make a ^n 1)
(run)
(excise nobody)
(back)
(run)
(remove 99)
(back)
(make a ^n 2)
(run)
(make a ^n 3)
(back)
(run)
(excise r)
(back)
";

// Of 33 firings the first can't be undone any more.
const MANY: &[u8] = b"(literalize a n)
(p up { <w> (a ^n { <x> < 33 }) } --> (modify <w> ^n (compute <x> + 1)))
(make a ^n 0)
(run)
(back 32)
(wm)
(back)
";

/// Texts, each with what is written.
pub(super) const TEXTS: [(&[u8], &[u8]); 5] = [
    (
        COUNTED,
        b"end -- no production true
4: (a ^n 3)
2: (a ^n 1)
break -- run count
3: (a ^n 2)
back -- 2 firings kept
",
    ),
    (
        FRESH,
        b"end -- no production true
end -- no production true
1: (s)
2: (t ^v g1)
",
    ),
    (
        MARKED,
        b"once
end -- no production true
off 1 2
end -- no production true
",
    ),
    (
        EMPTIED,
        b"end -- no production true
no production nobody
end -- no production true
back -- 0 firings kept
end -- no production true
back -- 0 firings kept
end -- no production true
back -- 0 firings kept
",
    ),
    (
        MANY,
        b"end -- no production true
2: (a ^n 1)
back -- 0 firings kept
",
    ),
];
