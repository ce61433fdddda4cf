//! What a set of packages changes, and in which order.
//!
//! - [`Change`]: what becomes of one package, or of two.
//! - [`transaction`]: the changes from the installed packages to a set: first a line for each installed package that is
//!   not in it, then an install line for each other package that comes.
//! - [`order`]: the packages that come and those that go, in order, with the cycles of what they require of each other.
//!
//! `specs/Changes` says which line a package has, and `specs/Effects` what is there after the changes: the set.
//! `specs/Moving` says what comes and goes, `specs/Edges` which part comes before which, and `specs/Orders` what a good order
//! is, in the words of `solv_graph`; `specs/Inner/Readiness` says what a task has to be for it. A requirement is read
//! by its parts. The graphs of an order are over the packages that come or go alone, by their places among them
//! (`specs/Inner/Parting`).
#![tactic(auto)]

mod comparing;
mod counting;
mod edges;
mod kinds;
mod leaving;
mod marks;
mod moving;
mod ordering;
mod parting;
mod transactions;

pub use kinds::Change;
pub use ordering::{Ordered, order};
pub use transactions::transaction;
