//! Reports the faults and the slips of OPS5 texts.
#![tactic(auto)]

use lint_top::{LintStatus, code, lint_run};
use ops_io::{StdShelf, StdSink};
use ops_words::words_after_name;
use std::alloc::{AllocError, AllocGlobal, Global};
use std::io::IsTerminal;
use std::process::ExitCode;
use std::rt::Env;
use std::{env, io};

/// The words after the program's name. Where one is not UTF-8 no words are given, which name no file.
fn words_of<R: Env + AllocGlobal>(alloc: Global, rt: &R) -> Result<Vec<String>, AllocError> {
    match env::args(rt) {
        Ok(arguments) => words_after_name(alloc, arguments),
        Err(error) => {
            if error.kind() == io::ErrorKind::OutOfMemory {
                return Err(AllocError);
            }
            Ok(Vec::new(alloc))
        }
    }
}

fn main(rt: HostRuntime) -> ExitCode {
    let alloc = rt.alloc();
    let Ok(words) = words_of(alloc, &rt) else {
        return ExitCode::from(code(LintStatus::OutOfMemory));
    };
    let mut shelf = StdShelf::new(alloc, &rt);
    let mut sink = StdSink::new(io::writer(&rt), rt.stdout().is_terminal());
    let status = lint_run(alloc, &words, &mut shelf, &mut sink);
    ExitCode::from(code(status))
}
