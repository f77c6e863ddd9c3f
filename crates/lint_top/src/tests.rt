//! The lines of a page with fifteen slips, that its corrected page has none, a program with one slip of each kind, and
//! one that builds a production.

use crate::lint::lint_run;
use crate::statuses::LintStatus;
use ops_io::{MemShelf, MemSink};
use std::alloc::Global;
use std::test::Fail;

const CLASSES: &[u8] = b"(literalize part name color size)
(literalize box name)";

const PAGE: &[u8] = b"(p one (part ^name ?x) --> (remove 1))
(p two (part ^color ~red) --> (remove 1))
(p three (part ^size >0) --> (remove 1))
(p four (part ^name <n> ^size <=<n>) --> (remove 1))
(p five (part ^name <n> ^color << red <n> >>) --> (remove 1))
(p six (part) --> (write \"done))
(p seven (part) --> (write done crlf))
(p eight (part ^colour red) --> (remove 1))
(p nine (prat) --> (remove 1))
(p ten (part) --> (write <x>))
(p eleven (part) --> (remove 2))
(p twelve - (part) (box) --> (remove 2))
(p two (box) --> (remove 1))
(make part ^size 1.5)
(rnu 3)
";

const LINES: &[u8] = b"page:8:17: error: unknown attribute
page:9:10: error: unknown class
page:10:26: error: unbound variable
page:11:30: error: bad designator
page:12:11: error: first condition negated
page:13:4: error: declared twice
page:14:18: error: fraction
page:15:2: error: unknown command
page:1:20: warning: ?x is a symbol: a variable is written <name>
page:2:21: warning: ~red is a symbol: the test is written as <> and a space before the value
page:3:22: warning: >0 is a symbol: a predicate stands apart from its value, and a variable is written <name>
page:4:31: warning: <=<n> is one variable: a predicate stands apart from its value
page:5:39: warning: <n> is a symbol between << and >>, not the value of a variable
page:6:26: warning: \"done is a symbol with its quote: words that belong together are written |like this|
page:7:33: warning: crlf is printed as a word: (crlf) ends the line
";

const MENDED: &[u8] = b"(p one (part ^name <x>) --> (write <x>))
(p two (part ^color <> red ^size <s>) --> (modify 1 ^size (compute <s> + 1)))
(p three (part ^size > 0) --> (remove 1))
(p four (part ^name <n> ^size <= <n>) --> (remove 1))
(p five (part ^name <n> ^color << red blue >>) --> (write <n>))
(p six (part ^size 1) --> (write |done|))
(p seven (part ^size 2) --> (write done (crlf)))
(p eight (part ^color red) --> (remove 1))
(p nine (part) --> (remove 1))
(p ten (part ^name <x> ^size 3) --> (write <x>))
(p eleven (part ^size 4) --> (remove 1))
(p twelve (box) - (part) --> (remove 1))
(p thirteen (box) --> (remove 1))
(make part ^color red ^size 15)
(make part ^color blue)
(make box)
(run 3)
";

const PROGRAM: &[u8] = b"(p one (part ^name <x> ^color red) --> (remove 1))
(p two (part ^color green) --> (remove 1))
(p three (part ^size { > 5 < 3 }) --> (remove 1))
(p four (box) --> (remove 1))
(p five (box) --> (write ?x))
(make part ^color red)
(run)
";

const WARNINGS: &[u8] = b"page:1:20: warning: <x> is bound and used nowhere
page:2:1: warning: condition 1 looks for green in ^color of part, and nothing puts it there
page:3:1: warning: condition 1 is met by no element: no value passes its tests of one attribute
page:4:1: warning: condition 1 looks for an element of box, and nothing makes one
page:5:1: warning: five has the conditions of four
page:5:26: warning: ?x is a symbol: a variable is written <name>
";

const BUILDS: &[u8] =
    b"(p one (part ^name <n> ^color red) --> (build two (part ^size << 1 \\\\ <n> >> ^color ~red) (box) -->
  (make part ^size 3)))
(p three (part ^size 4 ^color blue) --> (remove 1))
(make part ^color red)
(pbreak two)
(run)
";

const BUILD_WARNINGS: &[u8] =
    b"page:1:40: warning: condition 2 looks for an element of box, and nothing makes one
page:1:85: warning: ~red is a symbol: the test is written as <> and a space before the value
page:3:1: warning: condition 1 looks for blue in ^color of part, and nothing puts it there
";

fn add_file(
    alloc: Global,
    files: &mut Vec<(String, Vec<u8>)>,
    name: &str,
    bytes: &[u8],
) -> Result<(), Fail> {
    let name = String::from_str(alloc, name)?;
    let bytes = Vec::from_slice(alloc, bytes)?;
    files.push((name, bytes))?;
    Ok(())
}

// the output for the classes and a page
fn said_of(alloc: Global, page: &[u8]) -> Result<(MemSink, LintStatus), Fail> {
    let mut files = Vec::new(alloc);
    add_file(alloc, &mut files, "classes", CLASSES)?;
    add_file(alloc, &mut files, "page", page)?;
    let mut shelf = MemShelf::new(alloc, files, Vec::new(alloc));
    let mut sink = MemSink::new(alloc, 4_096, 100, Vec::new(alloc))?;
    let mut words = Vec::new(alloc);
    words.push(String::from_str(alloc, "classes")?)?;
    words.push(String::from_str(alloc, "page")?)?;
    let status = lint_run(alloc, &words, &mut shelf, &mut sink);
    Ok((sink, status))
}

#[test]
fn fifteen_slips_are_reported(rt: HostRuntime) -> Result<(), Fail> {
    let (sink, status) = said_of(rt.alloc(), PAGE)?;
    assert!(rt; sink.written() == LINES);
    assert!(rt; status == LintStatus::Faulty);
    Ok(())
}

#[test]
fn the_mended_page_is_clean(rt: HostRuntime) -> Result<(), Fail> {
    let (sink, status) = said_of(rt.alloc(), MENDED)?;
    assert!(rt; sink.written().is_empty());
    assert!(rt; status == LintStatus::Clean);
    Ok(())
}

#[test]
fn warnings_are_in_order(rt: HostRuntime) -> Result<(), Fail> {
    let (sink, status) = said_of(rt.alloc(), PROGRAM)?;
    assert!(rt; sink.written() == WARNINGS);
    assert!(rt; status == LintStatus::Warned);
    Ok(())
}

#[test]
fn builds_are_looked_at(rt: HostRuntime) -> Result<(), Fail> {
    let (sink, status) = said_of(rt.alloc(), BUILDS)?;
    assert!(rt; sink.written() == BUILD_WARNINGS);
    assert!(rt; status == LintStatus::Warned);
    Ok(())
}
