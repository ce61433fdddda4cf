//! The interface for programs in C: `include/gachuswi.h` declares it, and says what a caller owes.
//!
//! - `gachuswi_run`: solves the script in one of the files that a caller lends, and keeps what it comes to as an answer.
//! - `gachuswi_status`, `gachuswi_out`, `gachuswi_err`: the status of an answer, and copies of its two texts.
//! - `gachuswi_close`: frees an answer.
//! - `gachuswi_task_solve`: solves such a script, and keeps its answer as a task that is read by numbers. `gachuswi_task_status`, `_err`,
//!   `_changes`, `_order`, `_set`, `_cycles`, `_problems`, `gachuswi_cycle_packages`, `gachuswi_problem_rules`, `_solutions`, `gachuswi_solution_rules` and `_set` read it,
//!   and `gachuswi_task_rules`, `gachuswi_rule_get` and `_packages` its rules; `gachuswi_task_packages`, `gachuswi_package_find`, `gachuswi_package_text`, `gachuswi_dep_text`,
//!   `gachuswi_rule_text`, `gachuswi_solution_text` and `gachuswi_problem_proof` give texts; `gachuswi_task_close` frees the task.
//! - `gachuswi_task_solve_again`: answers a task that is kept with other jobs, given by numbers.
//! - `gachuswi_task_open`: opens a task that calls build: `gachuswi_repo_add`, `gachuswi_packages_add`, `gachuswi_system_set`, `gachuswi_package_disable`,
//!   `gachuswi_namespace_add`, `gachuswi_flags_set`, `gachuswi_job_add` and `_by`, `gachuswi_jobs_clear`. `gachuswi_task_answer` answers it; `gachuswi_task_repos` counts its repositories.
//! - `gachuswi_evr_compare`: how two versions compare.
//! - `gachuswi_abi`: the number of this interface.
//!
//! An answer is held by a [`Handle`], which C sees as a struct of one pointer, null where there is no answer. What each call
//! does is said by definitions (`specs/Calls`); that an answer's memory is owned by its handle, by `specs/Inner/Held`.
#![tactic(auto)]

mod answer_numbers;
mod asking;
mod calls;
mod handles;
mod loose;
mod task_handles;
mod task_rules;
mod task_texts;
mod tasks;
mod tasks_anew;
mod tasks_built;
mod versions;

pub use asking::Options;
pub use calls::{
    gachuswi_abi, gachuswi_close, gachuswi_err, gachuswi_out, gachuswi_run, gachuswi_status,
};
pub use handles::{Handle, Opaque};
pub use task_handles::TaskHandle;
pub use task_rules::{gachuswi_rule_get, gachuswi_rule_packages, gachuswi_task_rules};
pub use task_texts::{
    gachuswi_dep_text, gachuswi_package_find, gachuswi_package_text, gachuswi_problem_proof,
    gachuswi_rule_text, gachuswi_solution_text, gachuswi_task_packages,
};
pub use tasks::{
    gachuswi_cycle_packages, gachuswi_problem_rules, gachuswi_problem_solutions,
    gachuswi_solution_rules, gachuswi_solution_set, gachuswi_task_changes, gachuswi_task_close,
    gachuswi_task_cycles, gachuswi_task_err, gachuswi_task_order, gachuswi_task_problems,
    gachuswi_task_set, gachuswi_task_solve, gachuswi_task_status,
};
pub use tasks_anew::gachuswi_task_solve_again;
pub use tasks_built::{
    gachuswi_flags_set, gachuswi_job_add, gachuswi_job_add_by, gachuswi_jobs_clear,
    gachuswi_namespace_add, gachuswi_package_disable, gachuswi_packages_add, gachuswi_repo_add,
    gachuswi_system_set, gachuswi_task_answer, gachuswi_task_open, gachuswi_task_repos,
};
pub use versions::gachuswi_evr_compare;
