//! What jobs select, how they mark packages, and the rules that they give.
//!
//! - [`select`]: the packages that a job selects, ascending.
//! - [`read_marks`]: what all jobs say of each package, and [`is_to_move`] what two of them say together; [`marked_by`]: the packages that bear one mark.
//! - [`job_rules`]: the rules of install, erase and lock jobs, appended.
//!
//! The meaning of each stands in `solv_pool`'s `Selections`, `JobMarks` and `HardRules`. `specs/Inner/Putting` says what it is
//! to put rules after others; the layers above put theirs in the same words.
#![tactic(auto)]

mod appending;
mod marking;
mod ordering;
mod ruling;
mod selecting;

pub use appending::{append_rule, append_with_set, appending_is_transitive};
pub use marking::{Mark, is_to_move, marked_by, read_marks};
pub use ordering::put_in_order;
pub use ruling::job_rules;
pub use selecting::select;
