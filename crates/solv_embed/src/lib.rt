//! The top call for programs that have their files in memory.
//!
//! - [`run_lent`]: runs a command over files that the caller lends, and gives an [`Outcome`]: its status, and both texts.
//!
//! `specs/Runs` says what that comes to: what `run` of `solv_run` promises for these files, whose bytes it exposes, and that no
//! text is cut off.
#![tactic(auto)]

mod runs;

pub use runs::{Outcome, run_lent};
