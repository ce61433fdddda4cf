//! The program `testsolv`: the top call over the files and the streams of the system.
#![tactic(auto)]

use solv_io::{RealFiles, RealSink, Status};
use solv_run::run;
use std::alloc::AllocError;
use std::env;
use std::io::ErrorKind;
use std::process::ExitCode;

/// The words of the command line. Where one is not UTF-8 there are none, which is no form of a command line.
fn words(rt: &HostRuntime) -> Result<Vec<String>, AllocError> {
    match env::args(rt) {
        Ok(words) => words.collect(rt.alloc()),
        Err(error) if error.kind() == ErrorKind::OutOfMemory => Err(AllocError),
        Err(_) => Ok(Vec::new(rt.alloc())),
    }
}

/// Runs the top call and gives its status.
fn status(rt: &HostRuntime) -> Result<Status, AllocError> {
    let words = words(rt)?;
    let mut files = RealFiles { rt, faults: 0 };
    let mut out = RealSink {
        to: rt.stdout(),
        faults: 0,
    };
    let mut err = RealSink {
        to: rt.stderr(),
        faults: 0,
    };
    let report = run(rt.alloc(), &words, &mut files, &mut out, &mut err)?;
    Ok(report.status)
}

fn main(rt: HostRuntime) -> ExitCode {
    ExitCode::from(status(&rt).unwrap_or(Status::Memory).number())
}
