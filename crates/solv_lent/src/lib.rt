//! Files that a caller lends for the time of a call, as a program in C has them: names and bytes in memory of its own.
//!
//! It stands on `solv_io`.
//!
//! - [`LentFile`]: a name and bytes, laid out as C lays them out.
//! - [`LentFiles`]: such files as the files that a script is read from. Nothing is copied before it is read. They tell what they
//!   hold, and that a name which cannot be read is one that no file has; [`Lending`] stands for them in what is known at the end.
#![tactic(auto)]

mod files;
mod lent_file;

pub use files::{Lending, LentFiles};
pub use lent_file::LentFile;
