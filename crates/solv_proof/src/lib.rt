//! Proofs of unsatisfiability as text.
//!
//! A proof names a problem by its round and its number, lists the rules of the problem by their places in the list of
//! hard rules, and has a derivation over the clauses of a book.
//!
//! - [`Proof`]: one proof.
//! - [`write_proof`] writes a list of proofs as text; [`read_proof`] reads it, or says where the first bad line is and why.
#![tactic(auto)]

mod cutting;
mod faults;
mod kinds;
pub mod laws;
mod numbers;
mod reader;
mod reading;
mod step_lines;
mod writing;

pub use faults::{ProofCause, ProofFault};
pub use kinds::{NextLine, Proof};
pub use reading::read_proof;
pub use writing::write_proof;
