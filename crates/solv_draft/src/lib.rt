//! A task that a program builds by calls.
//!
//! - [`Draft`]: a task so far. What holds of each is kept with it: all that it names is there, and its dependencies have forms that may stand
//!   at their places.
//! - [`Call`]: what a task is given by one call: a repository, packages, the system, flags, jobs and so on. `Draft::give` gives it, or says why
//!   not, as a [`DraftFault`], and then the task is as it was. `Draft::give_or_stay` does so with a task on which an answer rests: its pool is as it was too.
//! - [`FlagRow`] and [`JobRow`]: flags and jobs as C lays them out; [`flags_of`], [`are_rows`] and [`jobs_of`] read them.
//!
//! `specs/Drafts` says what each call gives: what the line of a script gives that says the same.
#![tactic(auto)]

mod call;
mod copying;
mod draft;
mod draft_fault;
mod flag_row;
mod giving;
mod job_row;
mod job_rows;
mod jobs;
mod namespaces;
mod packs;
mod systems;

pub use call::Call;
pub use draft::Draft;
pub use draft_fault::DraftFault;
pub use flag_row::FlagRow;
pub use job_row::JobRow;
pub use job_rows::{are_rows, flags_of, jobs_of};
