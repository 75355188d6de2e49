//! A read replica that follows the streams of a change log and answers scans at a timestamp.
#![tactic(auto)]

mod command;
mod output;
mod program;
mod rows;
mod serve;
mod server;

use crate::program::run;
use lt_disk::FileDisk;
use lt_io::{FileFeed, StdSink, StdSource};
use std::process::ExitCode;
use std::{env, io};

/// Runs over the files of the current folder, from standard input to standard output.
fn main(rt: HostRuntime) -> ExitCode {
    let mut disk = FileDisk::new(rt);
    let mut feed = FileFeed::new(rt);
    let mut script = StdSource::new(rt, rt.stdin());
    let mut out = StdSink::new(rt, rt.stdout());
    let status = match words(&rt) {
        Ok(words) => run(
            rt.alloc(),
            words.as_slice(),
            &mut disk,
            &mut feed,
            &mut script,
            &mut out,
        ),
        Err(error) if error.kind() == io::ErrorKind::OutOfMemory => 10,
        Err(_) => run(rt.alloc(), &[], &mut disk, &mut feed, &mut script, &mut out),
    };
    ExitCode::from(status)
}

/// The words behind the program's name. An `Err` is out of memory, or a word that is not UTF-8.
fn words(rt: &HostRuntime) -> io::Result<Vec<String>> {
    let mut words = Vec::new(rt.alloc());
    for word in env::args(rt)?.skip(1) {
        words.push(word)?;
    }
    Ok(words)
}
