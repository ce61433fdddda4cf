//! Unit propagation by two watches for each rule.
//!
//! Each rule with two literals or more watches two of them, and is visited only when one of these becomes false. Then it
//! watches another that is not false, if it has one; else it forces its other watched literal, or is falsified. So no
//! pass over all rules is needed, and undoing what is on the trail changes no watch. Clauses keep the order of their literals.
//!
//! It stands on `solv_pack`, which holds the rules and lends them, and on `solv_trail`, which holds what is known and says what is
//! owed for it.
//!
//! - [`Watches`]: the watches of a book and of learnt rules; `Watches::over` makes those of a book.
//! - [`Chains`]: the watches of one memory. `link_next` makes the links of a rule that was learnt, `add` makes it watch two literals,
//!   `pass` passes one with fewer than two literals, `forget` removes all watches, and `hang_anew` makes those of the rules of a
//!   memory in their place.
//! - [`propagate`]: adds what is forced, until a rule is falsified or nothing more is forced.
//! - [`descend`]: propagation and choices in turn, until a rule is falsified or nothing is asked.
//!
//! None of these takes memory but `Watches::over` and `Chains::hang_anew`.
//!
//! `specs/Inner/Propagating` says what propagation needs of the watches and keeps, `specs/Inner/Watching` what the watches of one memory
//! keep, `specs/Inner/Chains` how watches are linked, and `specs/Inner/Spares` which literals a rule may watch.
#![tactic(auto)]

mod chaining;
mod chains;
mod descending;
mod propagation;
mod spares;
mod walking;

pub use chains::{Chains, Watches};
pub use descending::descend;
pub use propagation::propagate;
