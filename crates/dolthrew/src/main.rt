//! The program: runs the command that its words spell over files and standard output, and ends with
//! the number of the status. What it promises are the contracts of `junction_program::run`, and of
//! `given_words` where there are no words.
#![tactic(auto)]

use junction_program::{given_words, run};
use sig_base::{FileShelf, StdSink};
use std::process::ExitCode;
use std::rt::Env;
use std::{env, io};

/// The words after the program's own name.
fn words_of<R: Env + AllocGlobal>(rt: &R) -> io::Result<Vec<String>> {
    let mut words = Vec::new(rt.alloc());
    for word in env::args(rt)?.skip(1) {
        words.push(word)?;
    }
    Ok(words)
}

fn main(rt: HostRuntime) -> ExitCode {
    let words = match given_words(words_of(&rt)) {
        Ok(words) => words,
        Err(status) => return ExitCode::from(status.number()),
    };
    let alloc = rt.alloc();
    let mut shelf = FileShelf::new(&rt, alloc);
    let mut out = StdSink::new(&rt);
    let status = run(alloc, &words, &mut shelf, &mut out);
    ExitCode::from(status.number())
}
