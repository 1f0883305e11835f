//! `twodfq`: fair queuing in two dimensions, for the requests of one service's tenants. The words are
//! a command and its options; input, output and messages are the standard streams.
#![tactic(auto)]

use fq_io::{ProcessClock, StdSink, StdSource};
use program_model::ending::{Failure, Stop};
use std::env;
use std::io::ErrorKind;
use std::process::ExitCode;
use twodfq_main::ending::tell;
use twodfq_main::program::twodfq;

// The words after the program's name.
fn words(rt: &HostRuntime) -> Result<Vec<String>, Failure> {
    match env::args(rt) {
        Ok(args) => Ok(
            args.skip(1)
                .collect::<Vec<String>>(rt.alloc())
                .map_err(Stop::from)?,
        ),
        Err(error) if error.kind() == ErrorKind::OutOfMemory => Err(Stop::NoMemory.into()),
        // A word that is no text is no word of a command line.
        Err(_) => Err(Failure::Words),
    }
}

fn main(rt: HostRuntime) -> ExitCode {
    let mut errs = StdSink::new(rt.stderr());
    let words = match words(&rt) {
        Ok(words) => words,
        Err(failure) => return ExitCode::from(tell(&mut errs, failure)),
    };
    let mut source = StdSource::new(rt.stdin());
    let mut sink = StdSink::new(rt.stdout());
    let clock = ProcessClock::start(&rt);
    let status = twodfq(
        &rt,
        rt.alloc(),
        words.as_slice(),
        &mut source,
        &mut sink,
        &mut errs,
        &clock,
    );
    ExitCode::from(status)
}
