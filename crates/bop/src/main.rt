//! The program: the real ends, the top call, and the process's status.

#![tactic(auto)]

mod words;

use bop_ends::{RealShelf, RealSink, RealSource};
use bop_top::bop_main;
use std::io;
use std::process::ExitCode;
use words::words_of;

fn main(rt: HostRuntime) -> ExitCode {
    let alloc = rt.alloc();
    let words = match words_of(&rt) {
        Ok(words) => words,
        Err(status) => return ExitCode::from(status.code()),
    };
    let mut shelf = RealShelf::new(&rt);
    let mut input = RealSource::new(rt.stdin());
    let output = RealSink::new(io::writer(&rt));
    let mut report = RealSink::new(rt.stderr());
    let (status, _output) = bop_main(alloc, &words, &mut shelf, &mut input, output, &mut report);
    ExitCode::from(status.code())
}
