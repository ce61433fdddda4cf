//! The calls that read rules of a task by numbers.
ghost use Rattle.std.specs.Prelude.{◌≡◌, length, unwrap_or};
ghost use Rattle.gachuswi.specs.TaskRules.{packs_of_rule, rule_of, rules_of};
ghost use Rattle.gachuswi.specs.Tasks.{code_of};
ghost use Rattle.solv_solved.specs.Fillings.{filled_where, length_where};

use crate::answer_numbers::{DONE, MISUSED};
use crate::task_handles::TaskHandle;
use crate::tasks::code;
use solv_solved::RuleRow;
use std::alloc::Global;

/// How many hard rules the task has that is answered.
#[unsafe(no_mangle)]
pub extern "C" fn gachuswi_task_rules(alloc: Global, task: &mut TaskHandle) -> usize
    ensures size { result ≡ length (rules_of task.old.value) }
    ensures same { task.new.value ≡ task.old.value }
{
    let Some(kept) = task.take(alloc) else {
        return 0;
    };
    let size = kept.as_ref().rule_count();
    task.put(kept);
    size
}

/// Tells the hard rule of this number. Where the number names none, nothing is written, and the call was made wrongly.
#[unsafe(no_mangle)]
pub extern "C" fn gachuswi_rule_get(
    alloc: Global,
    task: &mut TaskHandle,
    rule: usize,
    into: &mut RuleRow,
) -> i32
    ensures code { result ≡ code_of (rule_of task.old.value rule) }
    ensures told { into.new ≡ unwrap_or (rule_of task.old.value rule) into.old }
    ensures same { task.new.value ≡ task.old.value }
{
    let Some(kept) = task.take(alloc) else {
        return MISUSED;
    };
    let found = kept.as_ref().rule(rule);
    task.put(kept);
    match found {
        Some(row) => {
            *into = row;
            DONE
        }
        None => MISUSED,
    }
}

/// Copies the first packages that the hard rule of this number carries, as many as there is room for, and reports how many it has. Where the
/// number names none, nothing is written, and the call was made wrongly.
#[unsafe(no_mangle)]
pub extern "C" fn gachuswi_rule_packages(
    alloc: Global,
    task: &mut TaskHandle,
    rule: usize,
    into: &mut [u32],
    count: &mut usize,
) -> i32
    ensures code { result ≡ code_of (packs_of_rule task.old.value rule) }
    ensures copied { into.new ≡ filled_where (packs_of_rule task.old.value rule) into.old }
    ensures told { count.new ≡ length_where (packs_of_rule task.old.value rule) count.old }
    ensures same { task.new.value ≡ task.old.value }
{
    let Some(kept) = task.take(alloc) else {
        return MISUSED;
    };
    let named = kept.as_ref().read_rule_packs(rule, into, count);
    task.put(kept);
    code(named)
}
