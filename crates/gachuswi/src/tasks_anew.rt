//! The call that answers a task anew.
ghost use Rattle.std.specs.Prelude.{◌≤◌, Some};
ghost use Rattle.gachuswi.specs.TasksAnew.{IsAgainCall};

use crate::answer_numbers::{MISUSED, MOST_LEARNT, NO_MEMORY, REFUSED};
use crate::task_handles::TaskHandle;
use solv_draft::{FlagRow, JobRow};
use solv_solved::{Again, Held};
use std::alloc::Global;

/// Answers what is held anew, and gives the number of how that ended.
fn again(alloc: Global, held: &mut Held, flags: &FlagRow, rows: &[JobRow], budget: u32) -> i32
    requires { budget ≤ 1000000 }
    ensures { IsAgainCall budget flags.now rows.now (Some held.old) (Some held.new) result }
{
    match held.solve_again(alloc, flags, rows, budget) {
        Ok(Again::Answered) => held.number() as i32,
        Ok(Again::Passes) => REFUSED,
        Ok(Again::Misused) => MISUSED,
        Err(_) => NO_MEMORY,
    }
}

/// Answers the task that is kept anew, with these flags and jobs in place of its own, over the index that was made with it. The answer is the new
/// answer's number; where there is none, nothing of what was kept has changed.
#[unsafe(no_mangle)]
pub extern "C" fn gachuswi_task_solve_again(
    alloc: Global,
    task: &mut TaskHandle,
    flags: &FlagRow,
    jobs: &[JobRow],
    budget: u32,
) -> i32
    ensures { IsAgainCall budget flags.now jobs.now task.old.value task.new.value result }
{
    if budget > MOST_LEARNT {
        return MISUSED;
    }
    let Some(mut kept) = task.take(alloc) else {
        return MISUSED;
    };
    let number = again(alloc, kept.as_mut(), flags, jobs, budget);
    task.put(kept);
    number
}
