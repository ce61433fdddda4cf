//! Jobs.
ghost use Rattle.std.specs.Prelude.{◌≡◌, IfOk, IfErr, OnOk, OnErr, if◌then◌else◌};
ghost use Rattle.solv_draft.specs.Drafts.{drawn, job_by_given, job_given, no_jobs_given};
ghost use Rattle.solv_draft.specs.Inner.Faults.{IsFault};
ghost use Rattle.solv_draft.specs.Inner.Drafts.{HasDrawn, IsDraft, IsKept, job_with};
ghost use Rattle.solv_pool.specs.declared.jobs.Choice.TheVariants as of_choice;

use crate::draft_fault::{DraftFault, fault_of_text};
use crate::job_row::JobRow;
use crate::job_rows::{action_of, is_row, job_of};
use solv_base::DepId;
use solv_list::{Bytes, Items};
use solv_pool::{Choice, Job, Task};
use solv_tags::{Place, read_dep};
use std::alloc::{AllocError, Global};

/// Adds a job that selects packages by their numbers.
pub(crate) fn add_job(task: &mut Task, row: &JobRow<'_>) -> Result<(), DraftFault>
    requires { IsDraft task.old }
    ensures done { OnOk result (HasDrawn task.new (job_given row.now (drawn task.old))) }
    ensures refused { IfErr result (λ fault. IsFault fault (job_given row.now (drawn task.old))) }
    ensures kept { OnErr result (IsKept task.old task.new) }
    ensures pool { task.new.pool ≡ task.old.pool }
{
    if !is_row(task.universe.count(), row) {
        return Err(DraftFault::Misused);
    }
    let Ok(job) = job_of(task.pool.alloc(), row) else {
        return Err(DraftFault::Memory);
    };
    match task.jobs.push(job) {
        Ok(()) => Ok(()),
        Err(_) => Err(DraftFault::Memory),
    }
}

/// What is selected by a dependency.
fn choice_by(provides: bool, dep: DepId) -> Choice
    ensures { result ≡ (if provides then of_choice.Provides dep else of_choice.Name dep) }
{
    if provides {
        Choice::Provides(dep)
    } else {
        Choice::Name(dep)
    }
}

/// A job with this selection.
fn job_with(alloc: Global, row: &JobRow<'_>, choice: Choice) -> Result<Job, AllocError>
    ensures { IfOk result (λ job. job ≡ job_with row.now choice) }
{
    let text = row.text.to_vec(alloc)?;
    Ok(Job {
        action: action_of(row.action),
        choice,
        forcebest: row.forcebest,
        cleandeps: row.cleandeps,
        text: Bytes::wrap(text),
    })
}

/// Adds a job that selects what has the name of a dependency, or what provides it.
pub(crate) fn add_job_by(
    task: &mut Task,
    provides: bool,
    dep: &[u8],
    row: &JobRow<'_>,
) -> Result<(), DraftFault>
    requires { IsDraft task.old }
    ensures done { OnOk result (HasDrawn task.new (job_by_given provides dep.now row.now (drawn task.old))) }
    ensures refused { IfErr result (λ fault. IsFault fault (job_by_given provides dep.now row.now (drawn task.old))) }
    ensures kept { OnErr result (IsKept task.old task.new) }
{
    if row.action >= 12 {
        return Err(DraftFault::Misused);
    }
    let id = match read_dep(&mut task.pool, dep, Place::Plain) {
        Ok(id) => id,
        Err(fault) => return Err(fault_of_text(1, fault)),
    };
    let Ok(job) = job_with(task.pool.alloc(), row, choice_by(provides, id)) else {
        return Err(DraftFault::Memory);
    };
    match task.jobs.push(job) {
        Ok(()) => Ok(()),
        Err(_) => Err(DraftFault::Memory),
    }
}

/// Removes all jobs.
pub(crate) fn clear_jobs(task: &mut Task) -> Result<(), DraftFault>
    requires { IsDraft task.old }
    ensures done { OnOk result (HasDrawn task.new (no_jobs_given (drawn task.old))) }
    ensures refused { IfErr result (λ fault. IsFault fault (no_jobs_given (drawn task.old))) }
    ensures kept { OnErr result (IsKept task.old task.new) }
    ensures pool { task.new.pool ≡ task.old.pool }
{
    task.jobs = Items::wrap(Vec::new(task.pool.alloc()));
    Ok(())
}
