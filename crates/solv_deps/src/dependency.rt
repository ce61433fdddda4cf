//! Reading a dependency into a pool.
ghost use Rattle.std.specs.Prelude.{ℕ, List, ◌≡◌, ◌<◌, length, IfOk, IfErr, IsTrue, Ok, Err, ◌↔◌, true};
ghost use Rattle.solv_base.specs.Dependency.{Capability, one, plain, versioned, namespace, or, joined};
ghost use Rattle.solv_base.specs.Pool.{Grows, text_at, text_tree};
ghost use Rattle.solv_base.specs.Inner.Pool.{text_tree_of_node, uses_below};
ghost use Rattle.solv_deps.specs.declared.fault.DepFault.{DepFault as Cause};
ghost use Rattle.solv_deps.specs.Inner.Drafts.{said};
ghost use Rattle.solv_deps.specs.Reading.{dependency};
ghost use Rattle.solv_deps.specs.Table.{stands_at};
ghost use Rattle.solv_deps.specs.Inner.Singles.{capability_of};
ghost use Rattle.solv_deps.specs.Entering.{text_entered, relation_entered, dependency_entered};
ghost use Rattle.solv_deps.specs.Inner.Entering.{text_read, IsEntered, IsRefusal, IsOfPool, refusal, link_node, under_node, under_else_node};

use crate::draft::{Draft, Written};
use crate::fault::DepFault;
use crate::forms::may_stand;
use crate::place::Place;
use crate::reading::read_tree;
use crate::sign::{Conditional, Joint};
use crate::single::{Single, pair_of, single_of};
use solv_base::{Cmp, DepId, DepNode, NameId, Pool, PoolFault};

/// The refusal that a pool's is.
fn refused(fault: PoolFault) -> DepFault
    ensures refusal { result ≡ refusal fault }
    ensures of_pool { IsOfPool result }
{
    match fault {
        PoolFault::FullNames => DepFault::FullNames,
        PoolFault::FullRelations => DepFault::FullRelations,
        PoolFault::Memory => DepFault::Memory,
    }
}

/// Enters a text.
pub fn enter_text(pool: &mut Pool, text: &[u8]) -> Result<NameId, DepFault>
    ensures entered { IfOk result (λ id. text_entered text.now pool.old ≡ Ok (record { id = id; held = pool.new })) }
    ensures text { IfOk result (λ id. text_at pool.new id ≡ text.now) }
    ensures within { IfOk result (λ id. id < length pool.new.names) }
    ensures refused { IfErr result (λ e. IsRefusal e (text_entered text.now pool.old)) }
    ensures of_pool { IfErr result IsOfPool }
    ensures grows { Grows pool.old pool.new }
{
    pool.holds_each_once();
    match pool.intern(text) {
        Ok(id) => Ok(id),
        Err(PoolFault::FullNames) => Err(DepFault::FullNames),
        Err(PoolFault::FullRelations) => Err(DepFault::FullRelations),
        Err(PoolFault::Memory) => Err(DepFault::Memory),
    }
}

/// Enters a relation.
fn enter_relation(pool: &mut Pool, node: DepNode) -> Result<DepId, DepFault>
    requires { IsTrue (uses_below (length pool.old.names) (length pool.old.nodes) node) }
    ensures entered { IfOk result (λ id. relation_entered node pool.old ≡ Ok (record { id = id; held = pool.new })) }
    ensures tree { IfOk result (λ id. text_tree pool.new id ≡ text_tree_of_node (text_at pool.old) (text_tree pool.old) node) }
    ensures within { IfOk result (λ id. id < length pool.new.nodes) }
    ensures refused { IfErr result (λ e. IsRefusal e (relation_entered node pool.old)) }
    ensures of_pool { IfErr result IsOfPool }
    ensures grows { Grows pool.old pool.new }
{
    pool.holds_each_once();
    let entered = pool.relation(node);
    pool.holds_each_once();
    match entered {
        Ok(id) => Ok(id),
        Err(fault) => Err(refused(fault)),
    }
}

/// The relation of a chain's operator.
fn link(joint: Joint, left: DepId, right: DepId) -> DepNode
    ensures { result ≡ link_node joint left right }
{
    match joint {
        Joint::Both => DepNode::And(left, right),
        Joint::Either => DepNode::Or(left, right),
        Joint::Jointly => DepNode::With(left, right),
    }
}

/// The relation of a condition.
fn under(kind: Conditional, left: DepId, condition: DepId) -> DepNode
    ensures { result ≡ under_node kind left condition }
{
    match kind {
        Conditional::If => DepNode::If(left, condition),
        Conditional::Unless => DepNode::Unless(left, condition),
    }
}

/// The relation of a condition with `<ELSE>`.
fn under_else(kind: Conditional, left: DepId, condition: DepId, other: DepId) -> DepNode
    ensures { result ≡ under_else_node kind left condition other }
{
    match kind {
        Conditional::If => DepNode::IfElse(left, condition, other),
        Conditional::Unless => DepNode::UnlessElse(left, condition, other),
    }
}

/// Enters a bare name.
fn enter_simple(pool: &mut Pool, name: &[u8]) -> Result<DepId, DepFault>
    ensures entered { IfOk result (λ id. IsEntered (one (plain name.now)) pool.old pool.new id) }
    ensures refused { IfErr result (λ e. IsRefusal e (dependency_entered (one (plain name.now)) pool.old)) }
    ensures of_pool { IfErr result IsOfPool }
    ensures grows { Grows pool.old pool.new }
{
    let id = enter_text(pool, name)?;
    enter_relation(pool, DepNode::Simple(id))
}

/// Enters a namespace.
fn enter_namespace(pool: &mut Pool, name: &[u8]) -> Result<DepId, DepFault>
    ensures entered { IfOk result (λ id. IsEntered (namespace name.now) pool.old pool.new id) }
    ensures refused { IfErr result (λ e. IsRefusal e (dependency_entered (namespace name.now) pool.old)) }
    ensures of_pool { IfErr result IsOfPool }
    ensures grows { Grows pool.old pool.new }
{
    let id = enter_text(pool, name)?;
    enter_relation(pool, DepNode::Namespace(id))
}

/// Enters a name with a comparison and an EVR.
fn enter_versioned(pool: &mut Pool, name: &[u8], cmp: Cmp, evr: &[u8]) -> Result<DepId, DepFault>
    ensures entered { IfOk result (λ id. IsEntered (one (versioned name.now cmp evr.now)) pool.old pool.new id) }
    ensures refused { IfErr result (λ e. IsRefusal e (dependency_entered (one (versioned name.now cmp evr.now)) pool.old)) }
    ensures of_pool { IfErr result IsOfPool }
    ensures grows { Grows pool.old pool.new }
{
    let first = enter_text(pool, name)?;
    let second = enter_text(pool, evr)?;
    enter_relation(pool, DepNode::Versioned(first, cmp, second))
}

/// Enters a dependency of a draft, its operands first.
fn enter(pool: &mut Pool, draft: &Draft<'_>, number: u8) -> Result<DepId, DepFault>
    requires { number < length draft.now }
    ensures entered { IfOk result (λ id. IsEntered (said draft.now number) pool.old pool.new id) }
    ensures refused { IfErr result (λ e. IsRefusal e (dependency_entered (said draft.now number) pool.old)) }
    ensures of_pool { IfErr result IsOfPool }
    ensures grows { Grows pool.old pool.new }
{
    match draft.get(number) {
        Written::Simple(name) => enter_simple(pool, name),
        Written::Versioned(name, cmp, evr) => enter_versioned(pool, name, cmp, evr),
        Written::Namespace(name) => enter_namespace(pool, name),
        Written::Joined(joint, a, b) => {
            let left = enter(pool, draft, a)?;
            let right = enter(pool, draft, b)?;
            enter_relation(pool, link(joint, left, right))
        }
        Written::Without(a, b) => {
            let left = enter(pool, draft, a)?;
            let right = enter(pool, draft, b)?;
            enter_relation(pool, DepNode::Without(left, right))
        }
        Written::Under(kind, a, b) => {
            let left = enter(pool, draft, a)?;
            let condition = enter(pool, draft, b)?;
            enter_relation(pool, under(kind, left, condition))
        }
        Written::UnderElse(kind, a, b, c) => {
            let left = enter(pool, draft, a)?;
            let condition = enter(pool, draft, b)?;
            let other = enter(pool, draft, c)?;
            enter_relation(pool, under_else(kind, left, condition, other))
        }
    }
}

/// Enters a name, or a name with a comparison and an EVR.
fn enter_single(pool: &mut Pool, single: &Single<'_>) -> Result<DepId, DepFault>
    ensures entered { IfOk result (λ id. IsEntered (one (capability_of single.now)) pool.old pool.new id) }
    ensures refused { IfErr result (λ e. IsRefusal e (dependency_entered (one (capability_of single.now)) pool.old)) }
    ensures of_pool { IfErr result IsOfPool }
    ensures grows { Grows pool.old pool.new }
{
    match single {
        Single::Name(name) => enter_simple(pool, name),
        Single::Versioned(name, cmp, evr) => enter_versioned(pool, name, *cmp, evr),
    }
}

/// Enters two names, each with or without a comparison and an EVR, between which `|` stands.
fn enter_either(pool: &mut Pool, left: &Single<'_>, right: &Single<'_>) -> Result<DepId, DepFault>
    ensures entered { IfOk result (λ id. IsEntered (joined or (one (capability_of left.now)) (one (capability_of right.now))) pool.old pool.new id) }
    ensures refused { IfErr result (λ e. IsRefusal e (dependency_entered (joined or (one (capability_of left.now)) (one (capability_of right.now))) pool.old)) }
    ensures of_pool { IfErr result IsOfPool }
    ensures grows { Grows pool.old pool.new }
{
    let first = enter_single(pool, left)?;
    let second = enter_single(pool, right)?;
    enter_relation(pool, DepNode::Or(first, second))
}

/// The dependency that any text spells at a place.
fn read_any(pool: &mut Pool, text: &[u8], place: Place) -> Result<DepId, DepFault>
    ensures read { IfOk result (λ id. dependency place text.now ≡ Ok (text_tree pool.new id)) }
    ensures within { IfOk result (λ id. id < length pool.new.nodes) }
    ensures entered { IfOk result (λ id. text_read place text.now pool.old ≡ Ok (record { id = id; held = pool.new })) }
    ensures cause { (e : Cause) → (IsOfPool e → ⊥) → (result ≡ Err e ↔ dependency place text.now ≡ Err e) }
    ensures unchanged { (e : Cause) → dependency place text.now ≡ Err e → pool.new ≡ pool.old }
    ensures refused { IfErr result (λ e. IsRefusal e (text_read place text.now pool.old)) }
    ensures grows { Grows pool.old pool.new }
{
    let mut draft = Draft::new();
    let number = read_tree(&mut draft, text)?;
    if !may_stand(&draft, number, place) {
        return Err(DepFault::OperatorNotHere);
    }
    enter(pool, &draft, number)
}

/// The dependency that any text spells at a place where `|` may stand. Two names with `|` between need no draft.
fn read_joined(pool: &mut Pool, text: &[u8], place: Place) -> Result<DepId, DepFault>
    requires { (c d : Capability (List ℕ)) → stands_at place (joined or (one c) (one d)) ≡ true }
    ensures read { IfOk result (λ id. dependency place text.now ≡ Ok (text_tree pool.new id)) }
    ensures within { IfOk result (λ id. id < length pool.new.nodes) }
    ensures entered { IfOk result (λ id. text_read place text.now pool.old ≡ Ok (record { id = id; held = pool.new })) }
    ensures cause { (e : Cause) → (IsOfPool e → ⊥) → (result ≡ Err e ↔ dependency place text.now ≡ Err e) }
    ensures unchanged { (e : Cause) → dependency place text.now ≡ Err e → pool.new ≡ pool.old }
    ensures refused { IfErr result (λ e. IsRefusal e (text_read place text.now pool.old)) }
    ensures grows { Grows pool.old pool.new }
{
    match pair_of(text) {
        Some((left, right)) => enter_either(pool, &left, &right),
        None => read_any(pool, text, place),
    }
}

/// The dependency that a text spells at a place. Its texts are entered from left to right, and each relation directly
/// after its operands; a text with a cause of its own enters nothing. After a refusal the pool may hold more than before.
pub fn read_dep(pool: &mut Pool, text: &[u8], place: Place) -> Result<DepId, DepFault>
    ensures read { IfOk result (λ id. dependency place text.now ≡ Ok (text_tree pool.new id)) }
    ensures within { IfOk result (λ id. id < length pool.new.nodes) }
    ensures entered { IfOk result (λ id. text_read place text.now pool.old ≡ Ok (record { id = id; held = pool.new })) }
    ensures cause { (e : Cause) → (IsOfPool e → ⊥) → (result ≡ Err e ↔ dependency place text.now ≡ Err e) }
    ensures unchanged { (e : Cause) → dependency place text.now ≡ Err e → pool.new ≡ pool.old }
    ensures refused { IfErr result (λ e. IsRefusal e (text_read place text.now pool.old)) }
    ensures grows { Grows pool.old pool.new }
{
    if let Some(single) = single_of(text) {
        return enter_single(pool, &single);
    }
    match place {
        Place::Plain => read_any(pool, text, place),
        Place::Requires => read_joined(pool, text, place),
        Place::Conflicts => read_joined(pool, text, place),
    }
}
