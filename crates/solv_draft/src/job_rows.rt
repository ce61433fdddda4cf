//! Flags and jobs that a caller gives.
ghost use Rattle.std.specs.Prelude.{◌≡◌, ◌++◌, map, IfOk, OnOk};
ghost use Rattle.std.specs.List.{list_all};
ghost use Rattle.solv_draft.specs.JobRows.{action_of, are_rows, choice_of, flags_of, is_number_of, is_row, job_of};

use crate::flag_row::FlagRow;
use crate::job_row::JobRow;
use solv_list::{Bytes, Items};
use solv_pool::{Action, Choice, Flags, Job, PackNo};
use std::alloc::{AllocError, Global};

/// The action of this number. What has no number below is nothing to do.
pub(crate) fn action_of(number: u32) -> Action
    ensures { result ≡ action_of number }
{
    match number {
        0 => Action::Install,
        1 => Action::Erase,
        2 => Action::Update,
        3 => Action::Distupgrade,
        4 => Action::Lock,
        5 => Action::Verify,
        6 => Action::Multiversion,
        7 => Action::AllowUninstall,
        8 => Action::Favor,
        9 => Action::Disfavor,
        10 => Action::UserInstalled,
        _ => Action::Noop,
    }
}

/// Whether a package has this number.
pub(crate) fn is_number_of(count: u32, pack: u32) -> bool
    ensures { result ≡ is_number_of count pack }
{
    0 < pack && pack <= count
}

/// Whether all packages have these numbers.
fn are_numbers(count: u32, packs: &[u32]) -> bool
    ensures { result ≡ list_all (is_number_of count) packs.now }
{
    packs.iter().all(|pack| is_number_of(count, *pack))
}

/// Whether a job is one that there is.
pub(crate) fn is_row(count: u32, row: &JobRow<'_>) -> bool
    ensures { result ≡ is_row count row.now }
{
    row.action < 12 && are_numbers(count, row.packs)
}

/// Whether all are.
pub fn are_rows(count: u32, rows: &[JobRow<'_>]) -> bool
    ensures { result ≡ are_rows count rows.now }
{
    rows.iter().all(|row| is_row(count, row))
}

/// Packages by their numbers.
fn packs_of(alloc: Global, packs: &[u32]) -> Result<Items<PackNo>, AllocError>
    ensures { IfOk result (λ made. made ≡ packs.now) }
{
    let mut made = Vec::with_capacity(alloc, packs.len())?;
    for pack in packs {
        made.push(PackNo(*pack))?;
    }
    Ok(Items::wrap(made))
}

/// Flags.
pub fn flags_of(row: &FlagRow) -> Flags
    ensures { result ≡ flags_of row.now }
{
    Flags {
        allow_downgrade: row.allow_downgrade,
        allow_name_change: row.allow_name_change,
        allow_arch_change: row.allow_arch_change,
        allow_vendor_change: row.allow_vendor_change,
        allow_uninstall: row.allow_uninstall,
        ignore_recommended: row.ignore_recommended,
        no_infarch_check: row.no_infarch_check,
    }
}

/// What a job selects.
fn choice_of(alloc: Global, row: &JobRow<'_>) -> Result<Choice, AllocError>
    ensures { IfOk result (λ choice. choice ≡ choice_of row.now) }
{
    if row.all {
        return Ok(Choice::All);
    }
    let packs = packs_of(alloc, row.packs)?;
    Ok(Choice::OneOf(packs))
}

/// A job.
pub(crate) fn job_of(alloc: Global, row: &JobRow<'_>) -> Result<Job, AllocError>
    ensures { IfOk result (λ job. job ≡ job_of row.now) }
{
    let choice = choice_of(alloc, row)?;
    let text = row.text.to_vec(alloc)?;
    Ok(Job {
        action: action_of(row.action),
        choice,
        forcebest: row.forcebest,
        cleandeps: row.cleandeps,
        text: Bytes::wrap(text),
    })
}

/// Jobs.
pub fn jobs_of(alloc: Global, rows: &[JobRow<'_>]) -> Result<Items<Job>, AllocError>
    ensures { IfOk result (λ jobs. jobs ≡ map job_of rows.now) }
{
    let mut jobs = Vec::new(alloc);
    for row in rows {
        jobs.push(job_of(alloc, row)?)?;
    }
    Ok(Items::wrap(jobs))
}
