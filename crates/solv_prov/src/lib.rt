//! Which packages meet a dependency, have a name, or obsolete a package.
//!
//! [`Providers`] is the index of a task: it is built once, and then answers without memory, each list ascending. It rests
//! on the task's pool, universe and namespaces alone, so the jobs and the flags may change after it was built.
//!
//! [`parts_of`] takes a dependency apart into what single packages can serve.
//!
//! `specs/Index` says what it holds, in the words of `solv_pool`'s `Providing` and `Holding`. The other modules of
//! `specs/` are about how it is made, and no public contract names them, but `PartsBy`.
//!
//! It is made by groups: what packages provide is put into groups by name, from the last package to the first, so each
//! group is in order of packages; a relation then goes through the group of its name alone. The list of `|`, `+` or `-` is
//! merged from those of its operands, which are smaller ids; `&` and conditions have none. The lists lie one after another
//! in one vector, with the place where each ends.
#![tactic(auto)]

mod by_name;
mod by_relation;
mod capability;
mod groups;
mod lists;
mod merging;
mod namespaces;
mod obsoletions;
mod parts;
mod providers;
mod provides;
mod ranking;
mod seeking;

pub use parts::{Parts, parts_of};
pub use providers::Providers;
