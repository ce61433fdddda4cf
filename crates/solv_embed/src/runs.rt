//! The top call over files that a caller lends.
ghost use Rattle.std.specs.Prelude.{◌≡◌, ◌≤◌, [], IfOk};
ghost use Rattle.solv_embed.specs.Runs.{IsLentRun};

use solv_io::{PlainSink, Status};
use solv_lent::{Lending, LentFile, LentFiles};
use solv_list::Bytes;
use solv_run::run_command;
use solv_words::Command;
use std::alloc::{AllocError, Global};
use std::marker::Brand;

/// What a run comes to: its status, and both texts.
#[derive(Drop)]
pub struct Outcome {
    /// How it ended.
    pub status: Status,
    /// What is printed.
    pub out: Bytes,
    /// The line on what is wrong, or nothing.
    pub err: Bytes,
}

/// A sink in memory with nothing written yet.
fn empty_sink(alloc: Global) -> PlainSink
    ensures { result.taken ≡ [] }
{
    PlainSink {
        taken: Bytes::wrap(Vec::new(alloc)),
    }
}

/// Runs a command over the files that are lent in this run.
#[tactic(auto, using(crate::proofs::LentRuns::missing_file))]
fn run_over<K: Lending>(
    alloc: Global,
    files: &[LentFile],
    command: &Command,
) -> Result<Outcome, AllocError>
    requires files { files.now ≡ K.held }
    requires budget { command.now.budget ≤ 1000000 }
    ensures { IfOk result (IsLentRun K.held command.now) }
{
    let mut lent = LentFiles::<K>::new(alloc, files);
    let mut out = empty_sink(alloc);
    let mut err = empty_sink(alloc);
    let report = run_command(alloc, command, &mut lent, &mut out, &mut err)?;
    Ok(Outcome {
        status: report.status,
        out: out.taken,
        err: err.taken,
    })
}

/// Runs a command, as the program `testsolv` does, over files that the caller lends, and keeps what is printed in memory. No file
/// is asked for but those that are lent, and none of them is kept.
pub fn run_lent(alloc: Global, files: &[LentFile], command: &Command) -> Result<Outcome, AllocError>
    requires { command.now.budget ≤ 1000000 }
    ensures { IfOk result (IsLentRun files.now command.now) }
{
    run_over::<Brand>(alloc, files, command)
}
