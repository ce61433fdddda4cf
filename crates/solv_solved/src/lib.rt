//! A script whose first round is answered, for callers that read the answer by numbers.
//!
//! - [`solve_script`]: reads a script and answers its first round: what that comes to is [`Held`], an answer or the line on what
//!   is wrong.
//! - [`solve_lent`]: the same over files that the caller lends.
//! - [`Solved`]: the script with its answer, and the index for texts. What is known of them is kept with it.
//! - The methods of [`Held`] lend what an answer has: changes, order, set, problems and their solutions; those that are called `read_..` copy
//!   what numbers name into a caller's room.
//! - `Held::solve_again`: answers the task anew with other flags and jobs, given as a `FlagRow` and `JobRow`s of `solv_draft`, over the index that is there; how that ended is an [`Again`].
//! - `Held::open`, `Held::build` and `Held::solve`: a task without packages; what a [`Call`](solv_draft::Call) gives to it, and how that ended, as [`Given`]; and the
//!   answer to it. A task that is being built is [`Opened`].
//! - [`fill`], [`fill_packs`] and [`fill_changes`]: copy the first items of a list, as many as there is room for. [`PackChange`] is a
//!   change as C lays it out, and [`RuleRow`] a rule.
//!
//! `specs/Building` says what calls build, `specs/Solvings` what is held after a script was read, `specs/Readings` what each method lends, `specs/RuleRows` what is
//! reported of rules, `specs/Texts` each text, `specs/Proofs` what holds of a problem's proof, and `specs/Fillings` what is copied.
#![tactic(auto)]

mod anew;
mod beside;
mod building;
mod filling;
mod handing;
mod lending;
mod opened;
mod outcomes;
mod pack_change;
mod proving;
mod reading;
mod rule_row;
mod ruling;
mod solving;
mod texts;
mod with_answer;

pub use anew::Again;
pub use building::Given;
pub use filling::{fill, fill_changes, fill_packs};
pub use lending::solve_lent;
pub use opened::Opened;
pub use outcomes::Held;
pub use pack_change::PackChange;
pub use rule_row::RuleRow;
pub use solving::solve_script;
pub use with_answer::Solved;
