//! Lists, texts and bytes for public records.
//!
//! A field of a public record that holds a collection has one of these types, so that contracts see a list and never
//! an allocator, a capacity or a pointer. Each is made from a collection of std by `wrap` and lends it by `held`, and
//! neither takes memory.
//!
//! - [`Items`]: a list of values.
//! - [`Text`]: a text, which contracts see as its bytes in UTF-8.
//! - [`Bytes`]: bytes that may be no text.
//!
//! [`Rows`] holds many lists one after another, by their numbers.
#![tactic(auto)]

mod bytes;
mod items;
mod pieces;
mod rows;
mod text;

pub use bytes::Bytes;
pub use items::Items;
pub use pieces::append_all;
pub use rows::Rows;
pub use text::Text;
