//! A run of the top call over files, an input and an output in memory, and the programs that are run.
ghost use Rattle.std.specs.Prelude.{◌≡◌, ◌^◌, ◌<◌, [], IfOk};

use ops_io::{Gate, MemShelf, MemSink, MemSource, OpenGate};
use ops_meaning::Status;
use ops_top::ops_run;
use std::alloc::{AllocError, Global};
use std::sync::Wait;
use std::test::Fail;
use std::thread::Threads;

/// The words of each engine.
pub(super) const ENGINES: [&[&str]; 5] = [
    &["--match=direct"],
    &["--match=serial"],
    &["--match=rounds", "--workers=2"],
    &["--match=free", "--workers=2"],
    &["--match=steal", "--workers=2"],
];

/// Words that run the file `a`, with each engine.
pub(super) const RUNS: [&[&str]; 14] = [
    &["a"],
    &["--match=direct", "a"],
    &["--match", "serial", "a"],
    &["a", "--lines=1", "--match=serial"],
    &["--match=serial", "--lines", "65536", "a"],
    &["--match", "rounds", "a", "--workers=1"],
    &["--match=rounds", "--workers", "2", "a"],
    &["a", "--match=rounds", "--workers=7", "--lines=9"],
    &["--match=free", "a", "--workers=1"],
    &["--match=free", "--workers", "2", "a"],
    &["a", "--match=free", "--workers=7", "--lines=9"],
    &["--match=steal", "a", "--workers=1"],
    &["--match=steal", "--workers", "2", "a"],
    &["a", "--match=steal", "--workers=7", "--lines=9"],
];

/// It asks for a name and tells it.
pub(super) const ASK: &[u8] = b"(literalize s)
(p ask (s) --> (write |name?|) (bind <n> (accept)) (write <n> (crlf)) (remove 1))
(make s)
(run)
";

/// What that writes where `Ann` is the input.
pub(super) const NAMED_ANN: &[u8] = b"name? Ann\nend -- no production true\n";

/// Layout on a line, and commands that list.
pub(super) const LAYOUT: &[u8] = b"(literalize a n)
(p r (a ^n <x>) --> (write <x> (tabto 5) x (rjust 4) 12 (crlf)))
(make a ^n |b c|)
(pbreak r q) (pbreak)
(run)
(pm r) (strategy) (watch) (wm)
(remove *) (wm)
";

/// What that writes.
pub(super) const LAID_OUT: &[u8] = b"no production q
break r
b c x  12
break -- production r
(p r (a ^n <x>) --> (write <x> (tabto 5) x (rjust 4) 12 (crlf)))
strategy lex
watch 0
1: (a ^n |b c|)
";

/// It puts one block on another, and clears what is in the way.
pub(super) const BLOCKS: &[u8] = b"; put one block on another, clearing what is in the way
(literalize block name on)
(literalize goal kind what where)
(strategy mea)
(watch 1)

(p done
    { <g> (goal ^kind put ^what <b> ^where <t>) }
    (block ^name <b> ^on <t>)
  -->
    (write <b> is on <t> (crlf))
    (remove <g>))

(p clear-what
    (goal ^kind put ^what <b> ^where <t>)
    (block ^name <b> ^on <> <t>)
    (block ^name <c> ^on <b>)
  -->
    (make goal ^kind put ^what <c> ^where table))

(p clear-where
    (goal ^kind put ^what <b> ^where <t>)
    (block ^name <b> ^on <> <t>)
    (block ^name <c> ^on { <t> <> table })
  -->
    (make goal ^kind put ^what <c> ^where table))

(p move
    (goal ^kind put ^what <b> ^where <t>)
    { <k> (block ^name <b> ^on <> <t>) }
    - (block ^on <b>)
    - (block ^on { <t> <> table })
  -->
    (modify <k> ^on <t>)
    (write move <b> to <t> (crlf)))

(make block ^name a ^on table)
(make block ^name b ^on a)
(make block ^name c ^on b)
(make goal ^kind put ^what a ^where c)
(run)
(wm)
";

/// What that writes.
pub(super) const PUT: &[u8] = b"1. clear-what 4 1 2
2. clear-what 5 2 3
3. move 6 3
move c to table
4. done 6 7
c is on table
5. move 5 2
move b to table
6. done 5 8
b is on table
7. move 4 1
move a to c
8. done 4 9
a is on c
end -- no production true
7: (block ^name c ^on table)
8: (block ^name b ^on table)
9: (block ^name a ^on c)
";

/// A shelf with these files, of which the loads of these numbers fail.
pub(super) fn shelf_of(
    alloc: Global,
    files: &[(&str, &[u8])],
    failing: &[u64],
) -> Result<MemShelf, AllocError>
    ensures { IfOk result (λ shelf. (shelf.names ≡ []) × (shelf.faults ≡ 0)) }
{
    let mut owned = Vec::new(alloc);
    for (name, bytes) in files {
        let name = String::from_str(alloc, name)?;
        let bytes = Vec::from_slice(alloc, bytes)?;
        owned.push((name, bytes))?;
    }
    let failing = Vec::from_slice(alloc, failing)?;
    Ok(MemShelf::new(alloc, owned, failing))
}

/// The words as those of a command line.
pub(super) fn words_of(alloc: Global, words: &[&str]) -> Result<Vec<String>, AllocError> {
    let mut owned = Vec::new(alloc);
    for word in words {
        owned.push(String::from_str(alloc, word)?)?;
    }
    Ok(owned)
}

/// What is answered to these words over these files and an input, past this gate.
pub(super) fn answer_past<R: Threads + Wait + Clone + Drop + Send + Sync, G: Gate>(
    rt: &R,
    alloc: Global,
    words: &[&str],
    files: &[(&str, &[u8])],
    input: &mut MemSource,
    sink: &mut MemSink,
    gate: &G,
) -> Result<Status, Fail>
    requires input { input.old.faults < 2 ^ 63 }
    requires sink { sink.old.faults < 2 ^ 63 }
{
    let mut shelf = shelf_of(alloc, files, &[])?;
    let words = words_of(alloc, words)?;
    Ok(ops_run(rt, alloc, &words, &mut shelf, input, sink, gate))
}

/// What is answered to these words over these files and an input.
pub(super) fn answer_over<R: Threads + Wait + Clone + Drop + Send + Sync>(
    rt: &R,
    alloc: Global,
    words: &[&str],
    files: &[(&str, &[u8])],
    input: &mut MemSource,
    sink: &mut MemSink,
) -> Result<Status, Fail>
    requires input { input.old.faults < 2 ^ 63 }
    requires sink { sink.old.faults < 2 ^ 63 }
{
    answer_past(rt, alloc, words, files, input, sink, &OpenGate)
}

/// What is answered to these words over these files, where the input is empty.
pub(super) fn answer<R: Threads + Wait + Clone + Drop + Send + Sync>(
    rt: &R,
    alloc: Global,
    words: &[&str],
    files: &[(&str, &[u8])],
    sink: &mut MemSink,
) -> Result<Status, Fail>
    requires { sink.old.faults < 2 ^ 63 }
{
    let mut input = MemSource::new(Vec::new(alloc), 1, Vec::new(alloc));
    answer_over(rt, alloc, words, files, &mut input, sink)
}

/// What is answered to these words over this shelf, input and output.
pub(super) fn answer_on<R: Threads + Wait + Clone + Drop + Send + Sync>(
    rt: &R,
    alloc: Global,
    words: &[&str],
    shelf: &mut MemShelf,
    input: &mut MemSource,
    sink: &mut MemSink,
) -> Result<Status, Fail>
    requires shelf { shelf.old.faults < 2 ^ 63 }
    requires names { shelf.old.names ≡ [] }
    requires input { input.old.faults < 2 ^ 63 }
    requires sink { sink.old.faults < 2 ^ 63 }
{
    let words = words_of(alloc, words)?;
    Ok(ops_run(rt, alloc, &words, shelf, input, sink, &OpenGate))
}

/// What is answered to a file of this text, with the words of an engine, over this input and output.
pub(super) fn answer_to<R: Threads + Wait + Clone + Drop + Send + Sync>(
    rt: &R,
    alloc: Global,
    engine: &[&str],
    text: &[u8],
    input: &mut MemSource,
    sink: &mut MemSink,
) -> Result<Status, Fail>
    requires input { input.old.faults < 2 ^ 63 }
    requires sink { sink.old.faults < 2 ^ 63 }
{
    let mut shelf = shelf_of(alloc, &[("a", text)], &[])?;
    let mut words = Vec::from_slice(alloc, engine)?;
    words.push("a")?;
    answer_on(rt, alloc, &words, &mut shelf, input, sink)
}
