//! The program: it makes the standard streams, takes the words, calls `run` and ends with its status.
#![tactic(auto)]

use lv_edge::{StdSink, StdSource};
use lv_run::run;
use std::process::ExitCode;
use std::{env, io};

/// The words behind the program's name, or the status with which the program ends where they can't be had.
fn words(rt: &HostRuntime) -> Result<Vec<String>, u8> {
    let mut words = Vec::new(rt.alloc());
    let args = env::args(rt).map_err(|e| status_without_words(&e))?;
    for word in args.skip(1) {
        words.push(word).map_err(|_| 9u8)?;
    }
    Ok(words)
}

/// 9 where there is no memory for the words, 11 where they can't be had for another cause.
fn status_without_words(error: &io::Error) -> u8 {
    match error.kind() {
        io::ErrorKind::OutOfMemory => 9,
        _ => 11,
    }
}

fn main(rt: HostRuntime) -> ExitCode {
    let words = match words(&rt) {
        Ok(words) => words,
        Err(status) => return ExitCode::from(status),
    };
    let mut source = StdSource::new(rt.stdin());
    let mut out = StdSink::new(rt.stdout());
    let mut err = StdSink::new(rt.stderr());
    let report = run(
        rt.alloc(),
        words.as_slice(),
        &mut source,
        &mut out,
        &mut err,
    );
    ExitCode::from(report.status)
}
