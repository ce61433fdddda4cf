//! Whether a dependency holds in a set.
ghost use Rattle.std.specs.Prelude.{ℕ, Bool, ◌≡◌, ◌<◌, ◌⊎◌, Some, None, length, slice_index_or};
ghost use Rattle.std.specs.List.{list_any};
ghost use Rattle.solv_pool.specs.Prelude.{catalog_of, dependency, holds, member_meets};
ghost use Rattle.solv_clean.specs.Inner.Tables.{is_marked};
ghost use Rattle.solv_clean.specs.Inner.Holding.{AreKnown};

use crate::members::Members;
use solv_pool::{DepId, DepNode, PackNo};

/// Whether a package is in the set. One without an entry is not.
pub(crate) fn is_in(in_set: &[bool], pack: PackNo) -> bool
    ensures { result ≡ is_marked in_set.now pack }
{
    let place = pack.0 as usize;
    place < in_set.len() && in_set[place]
}

/// Whether one of these packages is in the set.
fn has_one(in_set: &[bool], packs: &[PackNo]) -> bool
    ensures { result ≡ list_any (is_marked in_set.now) packs.now }
{
    for pack in packs {
        if is_in(in_set, *pack) {
            return true;
        }
    }
    false
}

/// Whether a member of the set meets a relation alone.
fn is_met(members: &Members<'_>, dep: DepId) -> bool
    requires held { dep < length members.now.task.now.pool.nodes }
    ensures { result ≡ member_meets (catalog_of members.now.task.now) (dependency (catalog_of members.now.task.now) dep) (is_marked members.now.in_set.now) }
{
    has_one(members.in_set, members.prov.of(dep))
}

/// What is known of a relation. Of one without an entry nothing is.
fn known_of(known: &[Option<bool>], dep: DepId) -> Option<bool>
    ensures { result ≡ slice_index_or known.now dep None }
{
    match known.get(dep.0 as usize) {
        Some(held) => *held,
        None => None,
    }
}

/// Notes whether a relation holds. One that has no entry is left out.
fn note_known(known: &mut [Option<bool>], dep: DepId, held: bool)
    ensures { (id : ℕ) (b : Bool) → slice_index_or known.new id None ≡ Some b → (slice_index_or known.old id None ≡ Some b) ⊎ ((id ≡ dep) × (b ≡ held)) }
{
    let place = dep.0 as usize;
    if place < known.len() {
        known[place] = Some(held);
    }
}

/// Whether a dependency holds in the set, of which nothing is known.
#[cycle(holding)]
fn holds_anew(members: &Members<'_>, dep: DepId, known: &mut [Option<bool>]) -> bool
    requires held { dep < length members.now.task.now.pool.nodes }
    requires known { AreKnown (catalog_of members.now.task.now) members.now.in_set.now known.old }
    ensures holds { result ≡ holds (catalog_of members.now.task.now) (dependency (catalog_of members.now.task.now) dep) (is_marked members.now.in_set.now) }
    ensures known { AreKnown (catalog_of members.now.task.now) members.now.in_set.now known.new }
{
    match members.task.pool.dep(dep) {
        DepNode::And(a, b) => {
            let first = holds(members, a, known);
            let second = holds(members, b, known);
            first && second
        }
        DepNode::Or(a, b) => {
            let first = holds(members, a, known);
            let second = holds(members, b, known);
            first || second
        }
        DepNode::If(a, b) => {
            let first = holds(members, a, known);
            let given = holds(members, b, known);
            first || !given
        }
        DepNode::Unless(a, b) => {
            let first = holds(members, a, known);
            let given = holds(members, b, known);
            first && !given
        }
        DepNode::IfElse(a, b, c) => {
            let first = holds(members, a, known);
            let given = holds(members, b, known);
            let last = holds(members, c, known);
            if given { first } else { last }
        }
        DepNode::UnlessElse(a, b, c) => {
            let first = holds(members, a, known);
            let given = holds(members, b, known);
            let last = holds(members, c, known);
            if given { last } else { first }
        }
        DepNode::Simple(_) => is_met(members, dep),
        DepNode::Versioned(_, _, _) => is_met(members, dep),
        DepNode::Namespace(_) => is_met(members, dep),
        DepNode::With(_, _) => is_met(members, dep),
        DepNode::Without(_, _) => is_met(members, dep),
    }
}

/// Whether a dependency holds in the set. The result for a relation is recorded, so each is visited once.
#[cycle(holding)]
pub(crate) fn holds(members: &Members<'_>, dep: DepId, known: &mut [Option<bool>]) -> bool
    requires held { dep < length members.now.task.now.pool.nodes }
    requires known { AreKnown (catalog_of members.now.task.now) members.now.in_set.now known.old }
    ensures holds { result ≡ holds (catalog_of members.now.task.now) (dependency (catalog_of members.now.task.now) dep) (is_marked members.now.in_set.now) }
    ensures known { AreKnown (catalog_of members.now.task.now) members.now.in_set.now known.new }
{
    if let Some(held) = known_of(known, dep) {
        return held;
    }
    let held = holds_anew(members, dep, known);
    note_known(known, dep, held);
    held
}
