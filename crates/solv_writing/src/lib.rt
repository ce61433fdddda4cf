//! Scripts written back as one text.
//!
//! - [`write_script`]: a script as one text, with its packages, its system and all its rounds.
//! - [`write_testtags`]: the lines of a repository's packages.
//! - Laws: [`each_script_is_read_back`].
#![tactic(auto)]

mod check_lines;
mod entry_lines;
mod evr;
mod flag_lines;
mod laws;
mod line_words;
mod namespace_lines;
mod package_lines;
mod package_words;
mod repositories;
mod repository_heads;
mod results;
mod round_lines;
mod spans;
mod system_lines;
mod whole_repositories;
mod writing;

pub use laws::each_script_is_read_back;
pub use repositories::write_testtags;
pub use writing::write_script;
