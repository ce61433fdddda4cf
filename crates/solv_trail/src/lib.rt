//! The trail: the literals that are known, in the order in which they came to be.
//!
//! Each literal was chosen, as a guide asked for its package, or is forced by a rule and the literals before it. The rules are
//! those of a book, each with an owner that is enabled or not, and learnt ones after them. `solv_watch` finds what is forced;
//! this crate holds it, and says what is owed for it.
//!
//! - [`Known`]: the literals, with the rule of each and the choices. Nothing in it takes memory once it is made.
//! - [`NumberSet`]: the packages that are known in, as a set of numbers.
//! - [`Guide`]: who chooses, and [`Remembering`], a guide that remembers; [`Ask`] and [`Question`]: what it asks for, and why; [`taken`]: the literal of what is asked for.
//! - [`lits_of`], [`is_in_use`]: a rule by its number, in the book or after it, and whether it is in use.
//!
//! `specs/Inner/Held` says what is held, `specs/Inner/Derivation` and `specs/Propagated` how literals come to be known, `specs/Inner/Used` which
//! clauses are in use, `specs/Asked` what a guide owes, `specs/Descends` what holds between conflicts, and `specs/Walk`
//! which packages a guide takes from nothing, by `solv_pool`'s unit propagation.
#![tactic(auto)]

mod guides;
mod known;
mod numbers;
mod questions;
mod rules;

pub use guides::{Guide, Remembering};
pub use known::Known;
pub use numbers::NumberSet;
pub use questions::{Ask, Question, taken};
pub use rules::{is_in_use, lits_of};
