//! The program `solv_script_tests`: runs the scripts that its arguments name, each as `testsolv` does, those of the folder `shown` as `testsolv -r`,
//! those of `proved` as `testsolv --proof` and those of `written` as `testsolv --write`. A line with its status and its name comes after what each
//! prints, which is nothing where it carries the lines that it expects and gets them. What is printed for the scripts of `data/` is compared with the
//! file `stdout`.
#![tactic(auto)]

use solv_io::{RealFiles, RealSink};
use solv_run::run;
use std::alloc::{AllocError, Global};
use std::{env, io};

/// The flag that a script is run with, where it is run with one.
fn flag_of(name: &str) -> Option<&'static str> {
    if name.starts_with("shown/") {
        return Some("-r");
    }
    if name.starts_with("proved/") {
        return Some("--proof");
    }
    if name.starts_with("written/") {
        return Some("--write");
    }
    None
}

/// The words of a command line that runs a script.
fn command_line(alloc: Global, name: &str) -> Result<Vec<String>, AllocError> {
    let mut words = Vec::new(alloc);
    words.push(String::from_str(alloc, "testsolv")?)?;
    if let Some(flag) = flag_of(name) {
        words.push(String::from_str(alloc, flag)?)?;
    }
    words.push(String::from_str(alloc, name)?)?;
    Ok(words)
}

/// Runs a script, with both of its streams on standard output, and reports its status.
fn run_script(rt: &HostRuntime, name: &str) -> io::Result<()> {
    let words = command_line(rt.alloc(), name)?;
    let mut files = RealFiles { rt, faults: 0 };
    let mut out = RealSink {
        to: rt.stdout(),
        faults: 0,
    };
    let mut err = RealSink {
        to: rt.stdout(),
        faults: 0,
    };
    let report = run(rt.alloc(), &words, &mut files, &mut out, &mut err)?;
    println!(rt; "{} {name}", report.status.number())
}

fn main(rt: HostRuntime) -> io::Result<()> {
    let words: Vec<String> = env::args(&rt)?.collect(rt.alloc())?;
    for name in words.iter().skip(1) {
        run_script(&rt, name.as_str())?;
    }
    Ok(())
}
