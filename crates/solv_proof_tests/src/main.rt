//! The program `solv_proof_tests`: checks proofs as `proofcheck` does, for each name `NAME` of its arguments the text `NAME.p` against the script `NAME.t`, and says
//! what status each ended with. What is printed for the files of `data/` is compared with the file `stdout`.
#![tactic(auto)]

use solv_io::{RealFiles, RealSink};
use solv_proof_run::proof_run;
use std::alloc::{AllocError, Global};
use std::{env, io};

/// The words of a command line that checks the proofs of a name.
fn command_line(alloc: Global, name: &str) -> Result<Vec<String>, AllocError> {
    let mut words = Vec::new(alloc);
    words.push(String::from_str(alloc, "proofcheck")?)?;
    words.push(format!(in alloc; "{name}.t")?)?;
    words.push(format!(in alloc; "{name}.p")?)?;
    Ok(words)
}

/// Checks the proofs of a name, with both of its streams on standard output.
fn check_proofs(rt: &HostRuntime, name: &str) -> io::Result<()> {
    println!(rt; "== {name}")?;
    let words = command_line(rt.alloc(), name)?;
    let mut files = RealFiles { rt, faults: 0 };
    let mut out = RealSink {
        to: rt.stdout(),
        faults: 0,
    };
    let mut err = RealSink {
        to: rt.stdout(),
        faults: 0,
    };
    let report = proof_run(rt.alloc(), &words, &mut files, &mut out, &mut err)?;
    println!(rt; "status {}", report.status.number())
}

fn main(rt: HostRuntime) -> io::Result<()> {
    let words: Vec<String> = env::args(&rt)?.collect(rt.alloc())?;
    for name in words.iter().skip(1) {
        check_proofs(&rt, name.as_str())?;
    }
    Ok(())
}
