//! Rounds as lines.
ghost use Rattle.std.specs.Prelude.{◌≡◌, ◌++◌, ◌∷◌, [], codes, map, OnOk};
ghost use Rattle.solv_io.specs.JoinedWords.{joined};
ghost use Rattle.solv_io.specs.Lines.{ended_lines};
ghost use Rattle.solv_writing.specs.Inner.RoundTexts.{round_text, later_text};
ghost use Rattle.solv_writing.specs.Inner.ScriptParts.{flag_words};

use crate::flag_lines::flags_line;
use crate::line_words::put_line;
use crate::results::put_results;
use solv_list::{Bytes, Items};
use solv_pool::{Flags, Job};
use solv_script::{Kinds, Round};
use std::alloc::{AllocError, Global};

/// Appends the line of a job.
fn put_job(into: &mut Vec<u8>, job: &Job) -> Result<(), AllocError>
    ensures { OnOk result (into.new.items ≡ into.old.items ++ ((codes "job " ++ job.now.text) ++ 10 ∷ [])) }
{
    into.extend_from_slice(b"job ")?;
    put_line(into, job.text.held())
}

/// Appends the lines of jobs.
pub(crate) fn put_jobs(into: &mut Vec<u8>, jobs: &[Job]) -> Result<(), AllocError>
    ensures { OnOk result (into.new.items ≡ into.old.items ++ ended_lines (map (λ job. codes "job " ++ job.text) jobs.now)) }
{
    for job in jobs {
        put_job(into, job)?;
    }
    Ok(())
}

/// Appends the line of flags.
fn put_flags(alloc: Global, flags: &Flags, into: &mut Vec<u8>) -> Result<(), AllocError>
    ensures { OnOk result (into.new.items ≡ into.old.items ++ (joined (codes "solverflags" ∷ flag_words flags.now) ++ 10 ∷ [])) }
{
    let line = flags_line(alloc, flags)?;
    put_line(into, &line)
}

/// Appends the lines of a round: its flags, its jobs, and what is expected of its answer.
pub(crate) fn put_round(
    alloc: Global,
    flags: &Flags,
    jobs: &[Job],
    kinds: &Kinds,
    wanted: &Option<Items<Bytes>>,
    into: &mut Vec<u8>,
) -> Result<(), AllocError>
    ensures { OnOk result (into.new.items ≡ into.old.items ++ ended_lines (round_text (record { flags = flags.now; jobs = jobs.now; kinds = kinds.now; wanted = wanted.now }))) }
{
    put_flags(alloc, flags, into)?;
    put_jobs(into, jobs)?;
    put_results(alloc, kinds, wanted, into)?;
    Ok(())
}

/// Appends the lines of a round after the first one.
fn put_next(alloc: Global, round: &Round, into: &mut Vec<u8>) -> Result<(), AllocError>
    ensures { OnOk result (into.new.items ≡ into.old.items ++ ended_lines (codes "nextjob" ∷ round_text round.now)) }
{
    into.extend_from_slice(b"nextjob\n")?;
    put_round(
        alloc,
        &round.flags,
        round.jobs.held(),
        &round.kinds,
        &round.wanted,
        into,
    )
}

/// Appends the lines of all rounds after the first one.
pub(crate) fn put_later(
    alloc: Global,
    rounds: &[Round],
    into: &mut Vec<u8>,
) -> Result<(), AllocError>
    ensures { OnOk result (into.new.items ≡ into.old.items ++ ended_lines (later_text rounds.now)) }
{
    for round in rounds {
        put_next(alloc, round, into)?;
    }
    Ok(())
}
