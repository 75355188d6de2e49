//! A change log as lines of JSON, and lines of JSON as a change log.
#![tactic(auto)]

mod decoder;
mod encoder;
mod output;
mod program;
mod reading;
mod writing;

use crate::program::run;
use lt_io::{StdSink, StdSource};
use std::process::ExitCode;
use std::{env, io};

/// Reads standard input, writes standard output, and says on standard error why it ended early.
fn main(rt: HostRuntime) -> ExitCode {
    let mut input = StdSource::new(rt, rt.stdin());
    let mut out = StdSink::new(rt, rt.stdout());
    let mut notes = StdSink::new(rt, rt.stderr());
    let status = match words(&rt) {
        Ok(words) => run(
            rt.alloc(),
            words.as_slice(),
            &mut input,
            &mut out,
            &mut notes,
        ),
        Err(error) if error.kind() == io::ErrorKind::OutOfMemory => 10,
        Err(_) => run(rt.alloc(), &[], &mut input, &mut out, &mut notes),
    };
    ExitCode::from(status)
}

/// The words behind the program's name. An `Err` is out of memory, or a word that is not UTF-8.
fn words(rt: &HostRuntime) -> io::Result<Vec<String>> {
    let mut words = Vec::new(rt.alloc());
    for word in env::args(rt)?.skip(1) {
        words.push(word)?;
    }
    Ok(words)
}
