//! Programs whose right sides build productions, over each engine.

// A production that is built is printed as its action, and taken out like any other.
const GROWN: &[u8] = b"(literalize a n)
(p grow (a ^n <x>) --> (build made (a ^n \\\\ <x>) --> (write made \\\\ <x> (crlf))))
(make a ^n 5)
(run)
(pm made)
(excise made other)
(cs)
";

// One firing builds two productions. One of them takes the place of the production that fires, so that there is no break
// after it, and what that has fired is forgotten.
const REPLACED: &[u8] = b"(literalize a n)
(p one (a ^n <x>)
  -->
    (write one <x> (crlf))
    (build two (a ^n > \\\\ <x>) --> (write two \\\\ <x> (crlf)))
    (build one (a ^n << 7 \\ <x> >>) --> (write anew // \\\\ <x> (crlf))))
(pbreak one two)
(make a ^n 1)
(make a ^n 2)
(run)
(pbreak)
(make a ^n 3)
(run)
";

// The productions that stay keep their marks and their breaks under other numbers.
const STAYING: &[u8] = b"(literalize a n)
(p first (a) --> (write first (crlf)))
(p learn (a ^n <x>) --> (build first (a ^n <= \\\\ <x>) --> (write up to \\\\ <x> (crlf))))
(p last (a) --> (write last (crlf)))
(pbreak last)
(make a ^n 1)
(run)
(pbreak)
(run)
";

// A value that is bound before counts, one that is bound after does not. No firing up to one that builds is undone.
const BOUND: &[u8] = b"(literalize a n)
(p learn (a ^n <x>)
  -->
    (bind <x> (compute <x> + 1))
    (build made { <e> (a ^n <x>) } - (a ^n \\\\ <x>) --> (write <x> and \\\\ <x> (crlf)))
    (bind <x> 7))
(make a ^n 1)
(run 1)
(back)
(run)
(back 2)
";

/// Texts, each with what is written.
pub(super) const TEXTS: [(&[u8], &[u8]); 4] = [
    (
        GROWN,
        b"made 5
end -- no production true
(build made (a ^n \\\\ <x>) --> (write made \\\\ <x> (crlf)))
no production other
",
    ),
    (
        REPLACED,
        b"no production two
one 2
anew 2
end -- no production true
two 2
end -- no production true
",
    ),
    (
        STAYING,
        b"first
up to 1
last
break -- production last
break last
end -- no production true
",
    ),
    (
        BOUND,
        b"break -- run count
back -- 0 firings kept
1 and 2
end -- no production true
back -- 1 firings kept
",
    ),
];

/// A production that is built asks for a name and tells it.
pub(super) const ASK_BUILT: &[u8] = b"(literalize s)
(p learn (s)
  -->
    (build ask (s) --> (write |name?|) (bind <n> (accept)) (write <n> (crlf)) (remove 1)))
(make s)
(run)
";
