//! `spy`: judges the log of one recorded run, which comes on standard input.
#![tactic(auto)]

use spy_cli::{Status, run};
use spy_io::{RealSink, RealSource};
use std::alloc::Global;
use std::process::ExitCode;
use std::rt::Env;
use std::{env, io};

/// The words after the program's name.
fn words_of(rt: &(impl Env + AllocGlobal), alloc: Global) -> io::Result<Vec<String>> {
    let mut words = env::args(rt)?;
    let _name = words.next();
    Ok(words.collect(alloc)?)
}

fn main(rt: HostRuntime) -> ExitCode {
    let alloc = rt.alloc();
    let words = match words_of(&rt, alloc) {
        Ok(words) => words,
        Err(error) if error.kind() == io::ErrorKind::OutOfMemory => {
            return ExitCode::from(Status::Memory.number());
        }
        // Words that cannot be had name no command.
        Err(_) => Vec::new(alloc),
    };
    let mut source = RealSource::new(rt.stdin());
    let mut sink = RealSink::new(rt.stdout());
    let status = run(alloc, &words, &mut source, &mut sink);
    ExitCode::from(status.number())
}
