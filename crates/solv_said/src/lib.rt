//! What a program says at the end of a run, and the script that it reads.
//!
//! Each program over scripts reads one by the files that it is given, and says how that ended by a status and a text on each
//! of two sinks. What is due, what is asked of the files and what reaches the sinks is said here once. The name that a
//! program writes before its lines is a parameter.
//!
//! - [`Due`]: a status and a text for each sink. [`line_due`] is one line on `err`; [`usage_due`], [`read_fault_due`],
//!   [`fault_due`] and [`limit_due`] are those that programs share, with [`bad_line_text`] for a bad line of any file.
//! - [`say`]: writes what is due.
//! - [`fetch_script`]: fetches a script and reads it, with the files that it names.
#![tactic(auto)]

mod dues;
mod fetching;
mod saying;
mod texts;

pub use dues::{Due, fault_due, limit_due, line_due, read_fault_due, usage_due};
pub use fetching::fetch_script;
pub use saying::say;
pub use texts::bad_line_text;
