//! The calls that read a task by numbers.
ghost use Rattle.std.specs.Prelude.{◌≡◌, ◌≤◌, length, map, None, IfOk};
ghost use Rattle.solv_solved.specs.Fillings.{change_row, filled, filled_where, length_where, number_where};
ghost use Rattle.solv_solved.specs.Readings.{problem_rules, solution_count, solution_rules, solution_set};
ghost use Rattle.gachuswi.specs.Tasks.{IsKeptTask, IsTaskCall, number_of, line_of, changes_of, order_of, set_of, cycles_of, cycle_of, problems_of, of_problem, of_solution, code_of, code_where};

use crate::answer_numbers::{DONE, MISUSED, MOST_LEARNT, NO_MEMORY};
use crate::task_handles::TaskHandle;
use solv_lent::LentFile;
use solv_solved::{PackChange, fill, fill_changes, fill_packs, solve_lent};
use std::alloc::{AllocError, Global};

/// Reads the script of this name, answers its first round, and keeps what that comes to.
fn kept_task(
    alloc: Global,
    files: &[LentFile],
    script: &str,
    budget: u32,
) -> Result<(TaskHandle, i32), AllocError>
    requires { budget ≤ 1000000 }
    ensures { IfOk result (λ kept. IsKeptTask files.now script.now budget kept.0.value kept.1) }
{
    let held = solve_lent(alloc, files, script, budget)?;
    let number = held.number() as i32;
    let handle = TaskHandle::keep(alloc, held)?;
    Ok((handle, number))
}

/// Reads the script of this name, which is one of the files that the caller lends, answers its first round, and keeps what that comes
/// to in place of what was kept. The answer is its number.
///
/// No file is asked for but those that are lent. They are read during the call, and not kept. Nothing is written to a stream.
#[unsafe(no_mangle)]
pub extern "C" fn gachuswi_task_solve(
    alloc: Global,
    task: &mut TaskHandle,
    files: &[LentFile],
    script: &[u8],
    budget: u32,
) -> i32
    ensures { IsTaskCall files.now script.now budget task.old.value task.new.value result }
{
    let Ok(script) = std::str::from_utf8(script) else {
        return MISUSED;
    };
    if budget > MOST_LEARNT {
        return MISUSED;
    }
    match kept_task(alloc, files, script, budget) {
        Ok((handle, number)) => {
            *task = handle;
            number
        }
        Err(_) => NO_MEMORY,
    }
}

/// The number of what is kept, or that the call was made wrongly where nothing is.
#[unsafe(no_mangle)]
pub extern "C" fn gachuswi_task_status(alloc: Global, task: &mut TaskHandle) -> i32
    ensures number { result ≡ number_of task.old.value }
    ensures same { task.new.value ≡ task.old.value }
{
    let Some(kept) = task.take(alloc) else {
        return MISUSED;
    };
    let number = kept.as_ref().number() as i32;
    task.put(kept);
    number
}

/// Copies the first bytes of the line on what is wrong, as many as there is room for, and answers how many it has. An answer has none.
#[unsafe(no_mangle)]
pub extern "C" fn gachuswi_task_err(alloc: Global, task: &mut TaskHandle, into: &mut [u8]) -> usize
    ensures copied { into.new ≡ filled (line_of task.old.value) into.old }
    ensures size { result ≡ length (line_of task.old.value) }
    ensures same { task.new.value ≡ task.old.value }
{
    let Some(kept) = task.take(alloc) else {
        return 0;
    };
    let line = kept.as_ref().line();
    fill(into, line);
    let size = line.len();
    task.put(kept);
    size
}

/// Copies the first changes, as many as there is room for, and answers how many there are.
#[unsafe(no_mangle)]
pub extern "C" fn gachuswi_task_changes(
    alloc: Global,
    task: &mut TaskHandle,
    into: &mut [PackChange],
) -> usize
    ensures copied { into.new ≡ filled (map change_row (changes_of task.old.value)) into.old }
    ensures size { result ≡ length (changes_of task.old.value) }
    ensures same { task.new.value ≡ task.old.value }
{
    let Some(kept) = task.take(alloc) else {
        return 0;
    };
    let changes = kept.as_ref().changes();
    fill_changes(into, changes);
    let size = changes.len();
    task.put(kept);
    size
}

/// Copies the first packages of the order in which a transaction is made, likewise.
#[unsafe(no_mangle)]
pub extern "C" fn gachuswi_task_order(
    alloc: Global,
    task: &mut TaskHandle,
    into: &mut [u32],
) -> usize
    ensures copied { into.new ≡ filled (order_of task.old.value) into.old }
    ensures size { result ≡ length (order_of task.old.value) }
    ensures same { task.new.value ≡ task.old.value }
{
    let Some(kept) = task.take(alloc) else {
        return 0;
    };
    let order = kept.as_ref().order();
    fill_packs(into, order);
    let size = order.len();
    task.put(kept);
    size
}

/// Copies the first packages that are there after a transaction, with the system, likewise.
#[unsafe(no_mangle)]
pub extern "C" fn gachuswi_task_set(alloc: Global, task: &mut TaskHandle, into: &mut [u32]) -> usize
    ensures copied { into.new ≡ filled (set_of task.old.value) into.old }
    ensures size { result ≡ length (set_of task.old.value) }
    ensures same { task.new.value ≡ task.old.value }
{
    let Some(kept) = task.take(alloc) else {
        return 0;
    };
    let set = kept.as_ref().set();
    fill_packs(into, set);
    let size = set.len();
    task.put(kept);
    size
}

/// How many cycles there are in what the parts of a transaction require of each other: of pre-requirements, or of all requirements.
#[unsafe(no_mangle)]
pub extern "C" fn gachuswi_task_cycles(alloc: Global, task: &mut TaskHandle, pre: bool) -> usize
    ensures size { result ≡ length (cycles_of pre task.old.value) }
    ensures same { task.new.value ≡ task.old.value }
{
    let Some(kept) = task.take(alloc) else {
        return 0;
    };
    let size = kept.as_ref().cycles(pre).len();
    task.put(kept);
    size
}

/// How many problems there are.
#[unsafe(no_mangle)]
pub extern "C" fn gachuswi_task_problems(alloc: Global, task: &mut TaskHandle) -> usize
    ensures size { result ≡ length (problems_of task.old.value) }
    ensures same { task.new.value ≡ task.old.value }
{
    let Some(kept) = task.take(alloc) else {
        return 0;
    };
    let size = kept.as_ref().problems().len();
    task.put(kept);
    size
}

/// Whether something is named, as an answer to the caller.
pub(crate) fn code(named: bool) -> i32
    ensures { result ≡ code_where named }
{
    if named { DONE } else { MISUSED }
}

/// Copies the first packages of the cycle of this number, as many as there is room for, and reports how many it has. Where the number names
/// none, nothing is written, and the call was made wrongly.
#[unsafe(no_mangle)]
pub extern "C" fn gachuswi_cycle_packages(
    alloc: Global,
    task: &mut TaskHandle,
    pre: bool,
    cycle: usize,
    into: &mut [u32],
    count: &mut usize,
) -> i32
    ensures code { result ≡ code_of (cycle_of pre task.old.value cycle) }
    ensures copied { into.new ≡ filled_where (cycle_of pre task.old.value cycle) into.old }
    ensures told { count.new ≡ length_where (cycle_of pre task.old.value cycle) count.old }
    ensures same { task.new.value ≡ task.old.value }
{
    let Some(kept) = task.take(alloc) else {
        return MISUSED;
    };
    let named = kept.as_ref().read_cycle(pre, cycle, into, count);
    task.put(kept);
    code(named)
}

/// Copies the first rules of the problem of this number, as many as there is room for, and reports how many it has. Where the number names
/// none, nothing is written, and the call was made wrongly.
#[unsafe(no_mangle)]
pub extern "C" fn gachuswi_problem_rules(
    alloc: Global,
    task: &mut TaskHandle,
    problem: usize,
    into: &mut [usize],
    count: &mut usize,
) -> i32
    ensures code { result ≡ code_of (of_problem problem_rules task.old.value problem) }
    ensures copied { into.new ≡ filled_where (of_problem problem_rules task.old.value problem) into.old }
    ensures told { count.new ≡ length_where (of_problem problem_rules task.old.value problem) count.old }
    ensures same { task.new.value ≡ task.old.value }
{
    let Some(kept) = task.take(alloc) else {
        return MISUSED;
    };
    let named = kept.as_ref().read_problem_rules(problem, into, count);
    task.put(kept);
    code(named)
}

/// Tells how many solutions the problem of this number has.
#[unsafe(no_mangle)]
pub extern "C" fn gachuswi_problem_solutions(
    alloc: Global,
    task: &mut TaskHandle,
    problem: usize,
    count: &mut usize,
) -> i32
    ensures code { result ≡ code_of (of_problem solution_count task.old.value problem) }
    ensures told { count.new ≡ number_where (of_problem solution_count task.old.value problem) count.old }
    ensures same { task.new.value ≡ task.old.value }
{
    let Some(kept) = task.take(alloc) else {
        return MISUSED;
    };
    let named = kept.as_ref().read_solution_count(problem, count);
    task.put(kept);
    code(named)
}

/// Copies the first of the rules that a solution drops, likewise.
#[unsafe(no_mangle)]
pub extern "C" fn gachuswi_solution_rules(
    alloc: Global,
    task: &mut TaskHandle,
    problem: usize,
    solution: usize,
    into: &mut [usize],
    count: &mut usize,
) -> i32
    ensures code { result ≡ code_of (of_solution solution_rules task.old.value problem solution) }
    ensures copied { into.new ≡ filled_where (of_solution solution_rules task.old.value problem solution) into.old }
    ensures told { count.new ≡ length_where (of_solution solution_rules task.old.value problem solution) count.old }
    ensures same { task.new.value ≡ task.old.value }
{
    let Some(kept) = task.take(alloc) else {
        return MISUSED;
    };
    let named = kept
        .as_ref()
        .read_solution_rules(problem, solution, into, count);
    task.put(kept);
    code(named)
}

/// Copies the first packages of the set of a solution, likewise.
#[unsafe(no_mangle)]
pub extern "C" fn gachuswi_solution_set(
    alloc: Global,
    task: &mut TaskHandle,
    problem: usize,
    solution: usize,
    into: &mut [u32],
    count: &mut usize,
) -> i32
    ensures code { result ≡ code_of (of_solution solution_set task.old.value problem solution) }
    ensures copied { into.new ≡ filled_where (of_solution solution_set task.old.value problem solution) into.old }
    ensures told { count.new ≡ length_where (of_solution solution_set task.old.value problem solution) count.old }
    ensures same { task.new.value ≡ task.old.value }
{
    let Some(kept) = task.take(alloc) else {
        return MISUSED;
    };
    let named = kept
        .as_ref()
        .read_solution_set(problem, solution, into, count);
    task.put(kept);
    code(named)
}

/// Lets go what is kept, and its memory. It may be called again.
#[unsafe(no_mangle)]
pub extern "C" fn gachuswi_task_close(alloc: Global, task: &mut TaskHandle)
    ensures { task.new.value ≡ None }
{
    *task = TaskHandle::none(alloc);
}
