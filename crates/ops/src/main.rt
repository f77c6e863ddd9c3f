//! Runs programs of OPS5.
#![tactic(auto)]

use ops_io::{OpenGate, StdShelf, StdSink, StdSource};
use ops_top::{Status, code, ops_run};
use ops_words::words_after_name;
use std::alloc::{AllocError, AllocGlobal, Global};
use std::io::IsTerminal;
use std::process::ExitCode;
use std::rt::Env;
use std::{env, io};

/// The words after the program's name. Where one is not UTF-8 no words are given, which fit as little as that one.
fn words_of<R: Env + AllocGlobal>(alloc: Global, rt: &R) -> Result<Vec<String>, AllocError> {
    match env::args(rt) {
        Ok(arguments) => words_after_name(alloc, arguments),
        Err(error) => {
            if error.kind() == io::ErrorKind::OutOfMemory {
                return Err(AllocError);
            }
            Ok(Vec::new(alloc))
        }
    }
}

fn main(rt: HostRuntime) -> ExitCode {
    let alloc = rt.alloc();
    let Ok(words) = words_of(alloc, &rt) else {
        return ExitCode::from(code(&Status::OutOfMemory));
    };
    let mut shelf = StdShelf::new(alloc, &rt);
    let mut input = StdSource::new(rt.reader());
    let mut sink = StdSink::new(io::writer(&rt), rt.stdout().is_terminal());
    let status = ops_run(
        &rt, alloc, &words, &mut shelf, &mut input, &mut sink, &OpenGate,
    );
    ExitCode::from(code(&status))
}
