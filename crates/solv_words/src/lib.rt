//! The words of a command line: `testsolv [-r] [--budget N] [--proof] [--write] [--grow SEED] FILE`.
//!
//! - [`command_of`]: what the words say, a [`Command`], of which [`Output`] is what is printed and [`Source`] what is solved; none
//!   where they are not of the form. They are read by `clap`, and the definition of what they say speaks of words alone.
//! `specs/CommandLine` is that definition, and `specs/Inner/Clap` the form of a command line as `clap` sees it.
#![tactic(auto)]

mod command_line;

pub use command_line::{Command, Output, Source, command_of};
