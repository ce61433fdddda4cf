//! Sets of packages that meet the rules of a task, by its questions.
//!
//! - [`Phases`]: the questions of a task, as the guide of the search.
//! - [`solve`]: a set by a trail in which each package follows or is the first possible candidate of the first open
//!   question, or a refutation, or a spent budget.
//! - [`solve_probing`]: as `solve`, and beside a set the rules that enabled ones refute by what the run has learnt.
//! - [`is_met_by`]: whether a set that is given meets enabled rules, without a run.
//! - [`decide`]: the answer for a task, by one run with every rule enabled, on what an earlier answer left of the plan, if any.
//! - [`set_of`]: the set of a trail.
//!
//! `specs/Deciding` says what each answer is.
#![tactic(auto)]

mod deciding;
mod phases;
mod remembering;
mod sets;
mod solving;

pub use deciding::{Decided, decide};
pub use phases::Phases;
pub use sets::set_of;
pub use solv_core::{Core, Entry, Event, Ledger, Probed, Run, Trail, Verdict};
pub use solv_plan::Rest;
pub use solving::{is_met_by, solve, solve_probing};
