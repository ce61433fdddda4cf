//! The calls that give texts of a task, and find a package by its text.
ghost use Rattle.std.specs.Prelude.{◌≡◌, ℕ, List, Option, IfOk, IsOk, IsSomeAnd, pos};
ghost use Rattle.gachuswi.specs.TaskTexts.{IsGoodProofOf, IsTextCall, dep_text, package_count, package_found, package_text, proof_text, rule_text, solution_text};
ghost use Rattle.gachuswi.specs.Tasks.{code_of};
ghost use Rattle.solv_solved.specs.Fillings.{number_where};

use crate::answer_numbers::{DONE, MISUSED, NO_MEMORY};
use crate::task_handles::TaskHandle;
use solv_list::Bytes;
use solv_solved::fill;
use std::alloc::{AllocError, Global};

/// Copies the first bytes of a text, as many as there is room for, and reports its length, where there is one.
fn hand_out(made: Result<Option<Bytes>, AllocError>, into: &mut [u8], count: &mut usize) -> i32
    ensures text { (named : Option (List ℕ)) → IfOk made (λ text. text ≡ named) → IsTextCall named into.old into.new count.old count.new result }
    ensures made { result ≡ pos 0 → IsOk made }
{
    match made {
        Ok(Some(text)) => {
            fill(into, text.held());
            *count = text.len();
            DONE
        }
        Ok(None) => MISUSED,
        Err(_) => NO_MEMORY,
    }
}

/// Copies the first bytes of the text of a package, as many as there is room for, and reports its length. Where no package has the
/// number, nothing is written, and the call was made wrongly.
#[unsafe(no_mangle)]
pub extern "C" fn gachuswi_package_text(
    alloc: Global,
    task: &mut TaskHandle,
    pack: u32,
    into: &mut [u8],
    count: &mut usize,
) -> i32
    ensures text { IsTextCall (package_text task.old.value pack) into.old into.new count.old count.new result }
    ensures same { task.new.value ≡ task.old.value }
{
    let Some(kept) = task.take(alloc) else {
        return MISUSED;
    };
    let made = kept.as_ref().package_text(alloc, pack);
    task.put(kept);
    hand_out(made, into, count)
}

/// The same of a dependency.
#[unsafe(no_mangle)]
pub extern "C" fn gachuswi_dep_text(
    alloc: Global,
    task: &mut TaskHandle,
    dep: u32,
    into: &mut [u8],
    count: &mut usize,
) -> i32
    ensures text { IsTextCall (dep_text task.old.value dep) into.old into.new count.old count.new result }
    ensures same { task.new.value ≡ task.old.value }
{
    let Some(kept) = task.take(alloc) else {
        return MISUSED;
    };
    let made = kept.as_ref().dep_text(alloc, dep);
    task.put(kept);
    hand_out(made, into, count)
}

/// The same of what is said of the hard rule of this number.
#[unsafe(no_mangle)]
pub extern "C" fn gachuswi_rule_text(
    alloc: Global,
    task: &mut TaskHandle,
    rule: usize,
    into: &mut [u8],
    count: &mut usize,
) -> i32
    ensures text { IsTextCall (rule_text task.old.value rule) into.old into.new count.old count.new result }
    ensures same { task.new.value ≡ task.old.value }
{
    let Some(kept) = task.take(alloc) else {
        return MISUSED;
    };
    let made = kept.as_ref().rule_text(alloc, rule);
    task.put(kept);
    hand_out(made, into, count)
}

/// The same of what is said of a solution: a line for each thing that it does.
#[unsafe(no_mangle)]
pub extern "C" fn gachuswi_solution_text(
    alloc: Global,
    task: &mut TaskHandle,
    problem: usize,
    solution: usize,
    into: &mut [u8],
    count: &mut usize,
) -> i32
    ensures text { IsTextCall (solution_text task.old.value problem solution) into.old into.new count.old count.new result }
    ensures same { task.new.value ≡ task.old.value }
{
    let Some(kept) = task.take(alloc) else {
        return MISUSED;
    };
    let made = kept.as_ref().solution_text(alloc, problem, solution);
    task.put(kept);
    hand_out(made, into, count)
}

/// The same of the proof of a problem, which is one of round 1 there and has the next number. It is read as a proof, and yes is said of it.
#[unsafe(no_mangle)]
pub extern "C" fn gachuswi_problem_proof(
    alloc: Global,
    task: &mut TaskHandle,
    problem: usize,
    into: &mut [u8],
    count: &mut usize,
) -> i32
    ensures text { IsTextCall (proof_text task.old.value problem) into.old into.new count.old count.new result }
    ensures good { result ≡ pos 0 → IsSomeAnd (proof_text task.old.value problem) (IsGoodProofOf task.old.value) }
    ensures same { task.new.value ≡ task.old.value }
{
    let Some(kept) = task.take(alloc) else {
        return MISUSED;
    };
    let made = kept.as_ref().proof_text(alloc, problem);
    task.put(kept);
    hand_out(made, into, count)
}

/// How many packages the task has, besides the system.
#[unsafe(no_mangle)]
pub extern "C" fn gachuswi_task_packages(alloc: Global, task: &mut TaskHandle) -> u32
    ensures count { result ≡ package_count task.old.value }
    ensures same { task.new.value ≡ task.old.value }
{
    let Some(kept) = task.take(alloc) else {
        return 0;
    };
    let count = kept.as_ref().package_count();
    task.put(kept);
    count
}

/// Tells the number of the package with this text, the lowest of several, and of the system 0. Where no package has it, nothing is
/// written, and the call was made wrongly.
#[unsafe(no_mangle)]
pub extern "C" fn gachuswi_package_find(
    alloc: Global,
    task: &mut TaskHandle,
    text: &[u8],
    pack: &mut u32,
) -> i32
    ensures code { result ≡ code_of (package_found task.old.value text.now) }
    ensures told { pack.new ≡ number_where (package_found task.old.value text.now) pack.old }
    ensures same { task.new.value ≡ task.old.value }
{
    let Some(kept) = task.take(alloc) else {
        return MISUSED;
    };
    let found = kept.as_ref().find_package(text);
    task.put(kept);
    match found {
        Some(number) => {
            *pack = number.0;
            DONE
        }
        None => MISUSED,
    }
}
