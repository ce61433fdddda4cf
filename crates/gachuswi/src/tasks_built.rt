//! The calls that build a task, and the one that answers it.
ghost use Rattle.std.specs.Prelude.{◌≡◌, ◌≤◌, Some, codes, pos};
ghost use Rattle.solv_draft.specs.Drafts.{disabled_given, flags_given, job_by_given, job_given, namespace_given, no_jobs_given, packages_given, repo_given, system_given};
ghost use Rattle.solv_draft.specs.Inner.Calls.{given};
ghost use Rattle.solv_solved.specs.Inner.CallNames.{call_name};
ghost use Rattle.gachuswi.specs.TaskTexts.{package_count};
ghost use Rattle.gachuswi.specs.TasksBuilt.{IsAnswerCall, IsBuildCall, IsOpenCall, done, repo_count};

use crate::answer_numbers::{DONE, MISUSED, MOST_LEARNT, NO_MEMORY, REFUSED};
use crate::task_handles::TaskHandle;
use solv_draft::{Call, FlagRow, JobRow};
use solv_solved::{Again, Given, Held};
use std::alloc::Global;

/// Opens a task without packages, in place of what was kept.
#[unsafe(no_mangle)]
pub extern "C" fn gachuswi_task_open(alloc: Global, task: &mut TaskHandle) -> i32
    ensures { IsOpenCall task.old.value task.new.value result }
{
    match TaskHandle::keep(alloc, Held::open(alloc)) {
        Ok(handle) => {
            *task = handle;
            DONE
        }
        Err(_) => NO_MEMORY,
    }
}

/// Gives what is held what a call gives, and answers the number of how that ended.
fn build_in(alloc: Global, held: &mut Held, call: &Call<'_>) -> i32
    ensures { IsBuildCall (call_name call.now) (given call.now) (Some held.old) (Some held.new) result }
{
    match held.build(alloc, call) {
        Ok(Given::Done) => DONE,
        Ok(Given::Refuses) => REFUSED,
        Ok(Given::Misused) => MISUSED,
        Err(_) => NO_MEMORY,
    }
}

/// The same of what is kept.
fn build(alloc: Global, task: &mut TaskHandle, call: &Call<'_>) -> i32
    ensures { IsBuildCall (call_name call.now) (given call.now) task.old.value task.new.value result }
{
    let Some(mut kept) = task.take(alloc) else {
        return MISUSED;
    };
    let code = build_in(alloc, kept.as_mut(), call);
    task.put(kept);
    code
}

/// How many repositories there are.
#[unsafe(no_mangle)]
pub extern "C" fn gachuswi_task_repos(alloc: Global, task: &mut TaskHandle) -> usize
    ensures count { result ≡ repo_count task.old.value }
    ensures same { task.new.value ≡ task.old.value }
{
    let Some(kept) = task.take(alloc) else {
        return 0;
    };
    let count = kept.as_ref().repo_count();
    task.put(kept);
    count
}

/// Adds a repository after the others, and reports its number, from 0 on, where that is done.
#[unsafe(no_mangle)]
pub extern "C" fn gachuswi_repo_add(
    alloc: Global,
    task: &mut TaskHandle,
    name: &[u8],
    priority: i32,
    repo: &mut usize,
) -> i32
    ensures built { IsBuildCall (codes "repo") (repo_given name.now priority) task.old.value task.new.value result }
    ensures told { result ≡ done → repo.new ≡ repo_count task.old.value }
    ensures untold { (result ≡ done → ⊥) → repo.new ≡ repo.old }
{
    let Some(mut kept) = task.take(alloc) else {
        return MISUSED;
    };
    let number = kept.as_ref().repo_count();
    let code = build_in(alloc, kept.as_mut(), &Call::Repo { name, priority });
    task.put(kept);
    if code == DONE {
        *repo = number;
    }
    code
}

/// Adds the packages of a repository after the others, and reports how many there were and how many there are, where that is done.
#[unsafe(no_mangle)]
pub extern "C" fn gachuswi_packages_add(
    alloc: Global,
    task: &mut TaskHandle,
    repo: usize,
    testtags: &[u8],
    above: &mut u32,
    last: &mut u32,
) -> i32
    ensures built { IsBuildCall (codes "packages") (packages_given repo testtags.now) task.old.value task.new.value result }
    ensures told_above { result ≡ done → above.new ≡ package_count task.old.value }
    ensures told_last { result ≡ done → last.new ≡ package_count task.new.value }
    ensures untold_above { (result ≡ done → ⊥) → above.new ≡ above.old }
    ensures untold_last { (result ≡ done → ⊥) → last.new ≡ last.old }
{
    let Some(mut kept) = task.take(alloc) else {
        return MISUSED;
    };
    let before = kept.as_ref().package_count();
    let code = build_in(alloc, kept.as_mut(), &Call::Packages { repo, testtags });
    let after = kept.as_ref().package_count();
    task.put(kept);
    if code == DONE {
        *above = before;
        *last = after;
    }
    code
}

/// Sets the system, and the repository that is installed, if there is one.
#[unsafe(no_mangle)]
pub extern "C" fn gachuswi_system_set(
    alloc: Global,
    task: &mut TaskHandle,
    arch: u32,
    has_installed: bool,
    installed: usize,
) -> i32
    ensures { IsBuildCall (codes "system") (system_given arch has_installed installed) task.old.value task.new.value result }
{
    build(
        alloc,
        task,
        &Call::System {
            arch,
            has_installed,
            installed,
        },
    )
}

/// Keeps a package from being installed anew.
#[unsafe(no_mangle)]
pub extern "C" fn gachuswi_package_disable(alloc: Global, task: &mut TaskHandle, pack: u32) -> i32
    ensures { IsBuildCall (codes "disable") (disabled_given pack) task.old.value task.new.value result }
{
    build(alloc, task, &Call::Disable(pack))
}

/// Says that these packages have a namespace, besides those that have it already.
#[unsafe(no_mangle)]
pub extern "C" fn gachuswi_namespace_add(
    alloc: Global,
    task: &mut TaskHandle,
    name: &[u8],
    packs: &[u32],
) -> i32
    ensures { IsBuildCall (codes "namespace") (namespace_given name.now packs.now) task.old.value task.new.value result }
{
    build(alloc, task, &Call::Namespace { name, packs })
}

/// Sets the flags, in place of those that are there.
#[unsafe(no_mangle)]
pub extern "C" fn gachuswi_flags_set(alloc: Global, task: &mut TaskHandle, flags: &FlagRow) -> i32
    ensures { IsBuildCall (codes "flags") (flags_given flags.now) task.old.value task.new.value result }
{
    build(alloc, task, &Call::Flags(flags))
}

/// Adds a job after the others.
#[unsafe(no_mangle)]
pub extern "C" fn gachuswi_job_add(alloc: Global, task: &mut TaskHandle, job: &JobRow) -> i32
    ensures { IsBuildCall (codes "job") (job_given job.now) task.old.value task.new.value result }
{
    build(alloc, task, &Call::Job(job))
}

/// The same of a job that selects what has the name of a dependency, or what provides it. What the job itself selects does not count.
#[unsafe(no_mangle)]
pub extern "C" fn gachuswi_job_add_by(
    alloc: Global,
    task: &mut TaskHandle,
    job: &JobRow,
    provides: bool,
    dep: &[u8],
) -> i32
    ensures { IsBuildCall (codes "job") (job_by_given provides dep.now job.now) task.old.value task.new.value result }
{
    build(
        alloc,
        task,
        &Call::JobBy {
            provides,
            dep,
            row: job,
        },
    )
}

/// Lets all jobs go.
#[unsafe(no_mangle)]
pub extern "C" fn gachuswi_jobs_clear(alloc: Global, task: &mut TaskHandle) -> i32
    ensures { IsBuildCall (codes "job") no_jobs_given task.old.value task.new.value result }
{
    build(alloc, task, &Call::NoJobs)
}

/// Answers what is held, and gives the number of how that ended.
fn answer_in(alloc: Global, held: &mut Held, budget: u32) -> i32
    requires { budget ≤ 1000000 }
    ensures { IsAnswerCall budget (Some held.old) (Some held.new) result }
{
    match held.solve(alloc, budget) {
        Ok(Again::Answered) => held.number() as i32,
        Ok(Again::Passes) => REFUSED,
        Ok(Again::Misused) => MISUSED,
        Err(_) => NO_MEMORY,
    }
}

/// Answers the task that is kept, with an index that is made for it. The answer is the new answer's number.
#[unsafe(no_mangle)]
pub extern "C" fn gachuswi_task_answer(alloc: Global, task: &mut TaskHandle, budget: u32) -> i32
    ensures { IsAnswerCall budget task.old.value task.new.value result }
{
    if budget > MOST_LEARNT {
        return MISUSED;
    }
    let Some(mut kept) = task.take(alloc) else {
        return MISUSED;
    };
    let number = answer_in(alloc, kept.as_mut(), budget);
    task.put(kept);
    number
}
