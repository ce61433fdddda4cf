//! Packages that nobody needs.
//!
//! - [`clean_marks`]: marks besides what erase jobs select what they clean.
//! - [`users`]: the packages of a set that the user asked for.
//! - [`unneeded`]: the packages of a set that nobody needs.
//! - [`unreached`]: which packages nothing asks for, however far it is asked.
//!
//! What needs what, and what is cleaned, stands in `solv_pool`'s `Needs` and `Cleaning`; `specs/Unneeded` says the rest. A
//! member of a set is needed where a walk leads to it, and each member of the walk needs the next. The code has no walks: it
//! keeps one list of members that were found and visits each of them once (`searching`), and goes once through the packages
//! that serve a relation, however many members ask for it (`passing`). Which supplements hold is decided once for the whole set
//! (`supplementing`).
#![tactic(auto)]

mod cleaning;
mod finding;
mod holding;
mod leaving;
mod members;
mod naming;
mod passing;
mod searching;
mod supplementing;
mod tables;
mod unneeding;

pub use cleaning::clean_marks;
pub use leaving::unreached;
pub use unneeding::{unneeded, users};
