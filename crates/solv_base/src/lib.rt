//! Ids, relations and the order of versions: what every other crate speaks of.
//!
//! - [`Pool`]: one id for each text and for each relation, for good. [`NameId`], [`DepId`] and [`DepNode`] are its ids
//!   and relations, [`PoolFault`] why it takes no more.
//! - [`evr_compare`], [`evr_split`], [`evr_meets`]: the order of versions, the parts of an EVR, and when a provided
//!   version meets a wanted one. [`Cmp`] is a comparison.
//! - [`evr_standing`], [`standing_meets`]: how a provided EVR stands to a wanted one, which along EVRs that ascend never
//!   falls, and what meets by that. [`Standing`] is one of six.
//! - Laws, each the contract of a function that does nothing: [`evr_order_is_total`], [`matching_follows_the_order`],
//!   [`standing_follows_the_order`], [`reading_ends`].
#![tactic(auto)]

mod comparison;
mod interning;
mod keys;
mod relation;
mod relation_laws;
mod texts;
mod version;

pub use comparison::Cmp;
pub use interning::{Pool, PoolFault};
pub use relation::{DepId, DepNode, NameId};
pub use relation_laws::reading_ends;
pub use version::{
    Evr, Standing, evr_compare, evr_meets, evr_order_is_total, evr_split, evr_standing,
    matching_follows_the_order, standing_follows_the_order, standing_meets,
};
