//! Derivations and their checker.
//!
//! A derivation shows that no set of packages makes certain clauses true. It is a log of steps: each step is a clause, and
//! hints that lead from its negation to a conflict by unit propagation. A hint names a rule of a rule memory, the book, or
//! an earlier step. The last clause is empty. This is the textbook's reverse unit propagation, with hints as in the LRUP
//! format for proofs of unsatisfiability.
//!
//! - [`Log`], [`Step`], [`Hint`]: a derivation.
//! - [`check`] answers [`Checked::Yes`] exactly for good logs, over a [`Scratch`] that is made once.
//! - [`leaves`]: the rules of the book that a log rests on.
//! - [`trimmed`]: a log with the steps alone that its last one rests on, numbered anew.
//!
//! `specs/Logs` says which steps and logs are good, over the facts and open literals of `solv_pool`'s unit propagation;
//! `specs/Forced` what facts make of a clause; `specs/Leaves` what a log rests on; `specs/Trimming` what is left of a trimmed log, and that a good log stays good; `specs/Range` which packages literals
//! name; `specs/Laws` what a good log says. Each law is the contract of a function of [`laws`].
#![tactic(auto)]

mod checker;
pub mod laws;
mod logs;
mod marks;
mod numbering;
mod rests;
mod trimming;
mod used;

pub use checker::{Scratch, check};
pub use logs::{Checked, Hint, Log, Step};
pub use rests::leaves;
pub use trimming::trimmed;
