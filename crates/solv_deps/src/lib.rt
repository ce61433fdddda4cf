//! Dependency text, read and printed.
//!
//! The text is that of libsolv's testcase format, with rpm's boolean dependencies: `&`, `|`, `+`, `-`, `<IF>`, `<UNLESS>`
//! and `<ELSE>`, or rpm's words `and`, `or`, `with`, `without`, `if`, `unless` and `else` for them, between operands, each a
//! name, a name with a comparison and an EVR, or parentheses. Such a word is an operator where one may stand, and a name
//! or an EVR where one is due; what is printed has the signs.
//!
//! - [`read_dep`]: the dependency that a text spells at a [`Place`], entered into a pool, or the first cause,
//!   [`DepFault`], from left to right. A text is read into a draft first, so that one with a cause of its own enters
//!   nothing, and every such cause comes before the limits of the pool.
//! - [`read_again`]: the same, where the text may be one that was read a while ago, which [`Recent`] keeps.
//! - [`dep_text`]: the canonical text of a dependency; [`comparison_sign`]: that of a comparison.
//! - [`enter_text`]: a text that is no dependency, entered with the same causes.
//! - [`comparison_of`], [`is_namespace_name`]: what a word of such a text is.
//! - Laws, each the contract of a function that does nothing: [`written_is_read`], [`read_is_written`], [`read_has_few_operators`],
//!   [`printed_is_read_again`], [`printed_is_one_line`], [`printed_is_the_same`], [`held_is_entered`], [`parts_are_entered`].
#![tactic(auto)]

mod dependency;
mod draft;
mod fault;
mod forms;
mod laws;
mod lexer;
mod outer;
mod place;
mod printing;
mod reading;
mod recent;
mod sign;
mod single;

pub use dependency::{enter_text, read_dep};
pub use fault::DepFault;
pub use laws::{
    held_is_entered, parts_are_entered, printed_is_one_line, printed_is_read_again,
    printed_is_the_same, read_has_few_operators, read_is_written, written_is_read,
};
pub use place::Place;
pub use printing::{comparison_sign, dep_text};
pub use recent::{Recent, read_again};
pub use sign::{comparison_of, is_namespace_name};
