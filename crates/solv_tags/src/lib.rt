//! Testtags files, which list the packages of a repository line by line. `specs/Testtags.antt` defines what they mean.
//!
//! - [`read_testtags`]: reads a file's packages into a universe, or says the first bad line and leaves the universe as it was.
//! - [`read_open_testtags`]: the same of an open file, piece by piece.
//! - [`TagReader`]: the same line by line, for lines that stand in another file.
//! - [`TagFault`]: the first bad line, with its [`TagCause`].
//! - [`read_dep`], [`dep_text`], [`Place`], [`DepFault`]: the dependency text that the entries are written in.
//! - [`trimmed`]: a text without the blanks round it, as vendors and paths are taken.
//! - Laws: [`same_is_equal`], the entries that stand once are those that are equal; [`entries_have_forms`], each dependency
//!   has a form that may stand at its place.
#![tactic(auto)]

mod entries;
mod hand;
mod headings;
mod laws;
mod package_words;
mod pieces;
mod tag;
mod tag_fault;
mod tag_reader;
mod tails;
mod testtags;

pub use headings::trimmed;
pub use laws::{entries_have_forms, same_is_equal};
pub use pieces::read_open_testtags;
pub use solv_deps::{DepFault, Place, dep_text, read_dep};
pub use tag_fault::{TagCause, TagFault};
pub use tag_reader::TagReader;
pub use testtags::read_testtags;
