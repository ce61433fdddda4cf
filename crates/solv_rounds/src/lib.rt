//! The rounds of a script, prepared one after the other over one index.
//!
//! - [`to_front`]: brings the round at a place in front, and back.
//! - [`prepare_round`]: the marks and the book of the round at a place.
//! - [`prepare_in_turn`]: each later round in turn, or the first limit that the clauses of one pass.
//!
//! Places count from 0, which is the first round's. What rounds share is made once: the index of providers, which rests on no job, and, where flags and marks count
//! alike, the rules of packages with their clauses.
#![tactic(auto)]

mod limits;
mod turning;

pub use limits::{prepare_in_turn, prepare_round};
pub use turning::to_front;
