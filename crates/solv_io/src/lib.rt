//! The outside: the traits through which a program meets files and sinks, objects in memory and adapters that meet
//! them, and the lines of a text.
//!
//! It stands on `solv_list`.
//!
//! - [`Files`], [`Sink`]: what a program asks of the outside, each with a count of its faults.
//! - [`put`]: writes a piece whole.
//! - [`MemFiles`], [`AllFiles`] with their [`HeldFile`], [`MemSink`], [`PlainSink`]: files and sinks in memory.
//! - [`RealFiles`], [`RealSink`]: the adapters over std's files and writers. They are the trusted edge.
//! - [`lines`]: the numbered lines of a text; [`split_line`]: its first line; [`cut_line`]: the same where a line feed ends it; [`split_word`]: the first word of a line; [`is_blank`]: what separates words; [`cut_at`]: what a byte separates.
//! - [`lines_are_read_again`], [`words_are_read_again`]: what lines and words are, as laws.
//! - [`Status`]: how a program ends.
#![tactic(auto)]

mod adapters;
mod cutting;
mod faults;
mod fetching;
mod held_file;
mod laws;
mod line_walk;
mod mem_files;
mod mem_sinks;
mod reading;
mod status;
mod text_lines;
mod words;
mod writing;

pub use adapters::{RealFiles, RealSink};
pub use cutting::cut_at;
pub use faults::{FileFault, SinkFault};
pub use fetching::Files;
pub use held_file::HeldFile;
pub use laws::{lines_are_read_again, words_are_read_again};
pub use line_walk::{Lines, cut_line, split_line};
pub use mem_files::{AllFiles, MemFiles};
pub use mem_sinks::{MemSink, PlainSink};
pub use status::Status;
pub use text_lines::lines;
pub use words::{is_blank, split_word};
pub use writing::{Sink, put};
