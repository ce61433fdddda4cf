//! Packages that nothing can ask for.
//!
//! - [`left_out`]: which packages are left out.
//! - [`all_fit`]: whether the clauses of all rules would pass no limit, where those of the rules that are made pass none.
//!
//! A set that answers a task holds no package that is left out, so no rules have to be made of what such a package requires: each set without it meets them. What is
//! left out is what no walk leads to that begins at a package which may be asked for by itself, and goes on to whatever serves what a package asks for.
#![tactic(auto)]

mod checking;
mod fitting;
mod leaving;
mod searching;
mod starting;
mod wise;

pub use fitting::{all_fit, all_rules_fit};
pub use leaving::left_out;
