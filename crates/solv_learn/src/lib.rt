//! Conflict analysis: the clause that is learnt from a conflict.
//!
//! When a rule is falsified, the search goes back over the literals that are known, and resolves the rule with the reasons of
//! those that refute it. Without a decision nothing is left: the hints derive the empty clause. After decisions it comes to a
//! clause that asserts the negation of one literal, the first unique implication point, before the last choice.
//!
//! - [`Search::learn`] and [`Search::refute`] are the two.
//! - [`Marked`]: a set of literals and their places, visited from the highest place down, and cleared at the cost of what was put in.
//!
//! `specs/Inner/Learning` says what they give; `specs/Inner/Refuting` and `specs/Collecting` what holds on the way.
#![tactic(auto)]

mod marked;
mod places;
mod search;

pub use marked::Marked;
pub use search::Search;
