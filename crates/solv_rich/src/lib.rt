//! Dependencies as clauses.
//!
//! A set of packages makes the clauses of a dependency all true exactly where the dependency holds in it, and those of its
//! negation exactly where it does not: the law `clauses_say_the_dependency` of `solv_pool`.
//!
//! - [`clause_count`]: how many clauses there are before any is left out, up to one more than 65,536.
//! - [`clauses`]: the clauses, appended; or [`RichFault`].
//!
//! `specs/Counts` says what a count and what appended clauses are; the clauses themselves are those of `solv_pool`'s
//! `Clauses`. The other modules of `specs/` serve inner contracts alone.
//!
//! The count comes first, so that a dependency with too many clauses is refused before any is made. A dependency that packages
//! meet alone then goes straight from its list to literals (`singles`). Any other is an expansion: lists of packages, joined and
//! crossed. Its clauses are made one at a time, each by its number: no product is ever formed, and one with an empty factor is
//! never entered. Both the count and the expansion go by what `operators` says that the clauses of a relation are made of.
//!
//! Of the literals of a clause each is put once. In a short clause they are compared with each other, and in a longer one
//! they are looked up in sets (`long_clauses`).
#![tactic(auto)]

mod appending;
mod counting;
mod expanding;
mod expansion;
mod fault;
mod literals;
mod long_clauses;
mod operators;
mod relations;
mod shortening;
mod singles;

pub use counting::{clause_count, clauses};
pub use fault::RichFault;
