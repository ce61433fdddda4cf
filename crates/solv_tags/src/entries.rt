//! The entries of the package in hand: lists of distinct ids.
ghost use Rattle.std.specs.Prelude.{◌≡◌, ◌<◌, ◌==◌, map, length, slice_get, Some, IfSome, IfNone, OnOk, true, false};
ghost use Rattle.std.specs.List.{list_any};
ghost use Rattle.solv_tags.specs.Inner.TagReading.{with_id, also_pre_id, with_need_id, with_entry_id, IsNeedTail, AreTails};
ghost use Rattle.solv_tags.specs.Inner.Tails.{IsTail, stands_once};

use crate::tag::Tag;
use crate::tails::{FIRST, Tail, Tails};
use solv_base::{DepId, NameId};
use solv_list::Items;
use solv_pool::{Need, Package};
use std::alloc::{AllocError, Global};

/// The number of a relation.
fn number_of(dep: DepId) -> u32
    ensures { result ≡ dep }
{
    dep.0
}

/// The number of a name.
fn name_number(name: NameId) -> u32
    ensures { result ≡ name }
{
    name.0
}

/// Whether a relation is one of these.
fn is_dep(deps: &[DepId], dep: DepId) -> bool
    ensures { result ≡ list_any (λ other. dep == other) deps.now }
{
    deps.iter().any(|other| dep == *other)
}

/// Whether a name is one of these.
fn is_name(names: &[NameId], name: NameId) -> bool
    ensures { result ≡ list_any (λ other. name == other) names.now }
{
    names.iter().any(|other| name == *other)
}

/// Whether a relation is one of a list. Behind the first ones it is found by one look.
fn has_dep(tail: &Tail, deps: &[DepId], dep: DepId) -> bool
    requires { IsTail tail.now deps.now }
    ensures { result ≡ list_any (λ other. dep == other) deps.now }
{
    if deps.len() <= FIRST {
        return is_dep(deps, dep);
    }
    if is_dep(&deps[..FIRST], dep) {
        return true;
    }
    tail.has(number_of(dep))
}

/// Whether a name is one of a list, likewise.
fn has_name(tail: &Tail, names: &[NameId], name: NameId) -> bool
    requires { IsTail tail.now names.now }
    ensures { result ≡ list_any (λ other. name == other) names.now }
{
    if names.len() <= FIRST {
        return is_name(names, name);
    }
    if is_name(&names[..FIRST], name) {
        return true;
    }
    tail.has(name_number(name))
}

/// Adds a relation to a long list if it is new.
fn add_far_dep(
    alloc: Global,
    tail: &mut Tail,
    deps: &mut Items<DepId>,
    dep: DepId,
) -> Result<(), AllocError>
    requires { IsTail tail.old deps.old }
    ensures added { OnOk result (deps.new ≡ with_id dep deps.old) }
    ensures tail { OnOk result (IsTail tail.new deps.new) }
{
    if has_dep(tail, deps.held(), dep) {
        return Ok(());
    }
    match tail.note(alloc, deps.len(), number_of(dep)) {
        Ok(()) => {}
        Err(_) => return Err(AllocError),
    }
    deps.push(dep)
}

/// Adds a relation if it is new.
fn add_dep(
    alloc: Global,
    tail: &mut Tail,
    deps: &mut Items<DepId>,
    dep: DepId,
) -> Result<(), AllocError>
    requires { IsTail tail.old deps.old }
    ensures added { OnOk result (deps.new ≡ with_id dep deps.old) }
    ensures tail { OnOk result (IsTail tail.new deps.new) }
{
    if deps.len() >= FIRST {
        return add_far_dep(alloc, tail, deps, dep);
    }
    if is_dep(deps.held(), dep) {
        return Ok(());
    }
    deps.push(dep)
}

/// Adds a name to a long list if it is new.
fn add_far_name(
    alloc: Global,
    tail: &mut Tail,
    names: &mut Items<NameId>,
    name: NameId,
) -> Result<(), AllocError>
    requires { IsTail tail.old names.old }
    ensures added { OnOk result (names.new ≡ with_id name names.old) }
    ensures tail { OnOk result (IsTail tail.new names.new) }
{
    if has_name(tail, names.held(), name) {
        return Ok(());
    }
    match tail.note(alloc, names.len(), name_number(name)) {
        Ok(()) => {}
        Err(_) => return Err(AllocError),
    }
    names.push(name)
}

/// Adds a name if it is new.
fn add_name(
    alloc: Global,
    tail: &mut Tail,
    names: &mut Items<NameId>,
    name: NameId,
) -> Result<(), AllocError>
    requires { IsTail tail.old names.old }
    ensures added { OnOk result (names.new ≡ with_id name names.old) }
    ensures tail { OnOk result (IsTail tail.new names.new) }
{
    if names.len() >= FIRST {
        return add_far_name(alloc, tail, names, name);
    }
    if is_name(names.held(), name) {
        return Ok(());
    }
    names.push(name)
}

/// A requirement, which becomes a pre-requirement if it is of this relation and is said to be one now.
fn also_pre(dep: DepId, pre: bool, need: Need) -> Need
    ensures { result ≡ also_pre_id dep pre need }
{
    if dep == need.dep {
        Need {
            dep: need.dep,
            pre: need.pre || pre,
        }
    } else {
        need
    }
}

/// Makes the requirement at a place a pre-requirement, where it is said to be one. No other is of its relation.
fn mark_at(needs: &mut [Need], place: usize, dep: DepId, pre: bool)
    requires below { place < length needs.old }
    requires once { stands_once dep place (map (λ need. need.dep) needs.old) ≡ true }
    ensures { needs.new ≡ map (also_pre_id dep pre) needs.old }
{
    needs[place] = also_pre(dep, pre, needs[place]);
}

/// Where a relation is required, if it is.
fn place_in(needs: &[Need], dep: DepId) -> Option<usize>
    ensures below { IfSome result (λ place. place < length needs.now) }
    ensures some { IfSome result (λ place. slice_get (map (λ need. need.dep) needs.now) place ≡ Some dep) }
    ensures none { IfNone result (list_any (λ need. dep == need.dep) needs.now ≡ false) }
{
    let mut place = 0;
    for need in needs {
        if dep == need.dep {
            return Some(place);
        }
        place += 1;
    }
    None
}

/// Where a relation is required, if it is. Behind the first ones it is found by one look.
fn place_of(tail: &Tail, needs: &[Need], dep: DepId) -> Option<usize>
    requires { IsNeedTail tail.now needs.now }
    ensures below { IfSome result (λ place. place < length needs.now) }
    ensures once { IfSome result (λ place. stands_once dep place (map (λ need. need.dep) needs.now) ≡ true) }
    ensures none { IfNone result (list_any (λ need. dep == need.dep) needs.now ≡ false) }
{
    let count = needs.len();
    if count <= FIRST {
        return place_in(needs, dep);
    }
    if let Some(place) = place_in(&needs[..FIRST], dep) {
        return Some(place);
    }
    match tail.place(number_of(dep)) {
        Some(place) => Some(FIRST + place),
        None => None,
    }
}

/// Marks the requirement at a place of a list.
fn mark(needs: &mut Vec<Need>, place: usize, dep: DepId, pre: bool)
    requires below { place < length needs.old.items }
    requires once { stands_once dep place (map (λ need. need.dep) needs.old.items) ≡ true }
    ensures { needs.new.items ≡ map (also_pre_id dep pre) needs.old.items }
{
    mark_at(needs.as_mut_slice(), place, dep, pre);
}

/// Adds a requirement to a long list if it is new.
fn add_far_need(
    alloc: Global,
    tail: &mut Tail,
    needs: &mut Vec<Need>,
    dep: DepId,
    pre: bool,
) -> Result<(), AllocError>
    requires { IsNeedTail tail.old needs.old.items }
    ensures added { OnOk result (needs.new.items ≡ with_need_id dep pre needs.old.items) }
    ensures tail { OnOk result (IsNeedTail tail.new needs.new.items) }
{
    if let Some(place) = place_of(tail, needs, dep) {
        mark(needs, place, dep, pre);
        return Ok(());
    }
    match tail.note(alloc, needs.len(), number_of(dep)) {
        Ok(()) => {}
        Err(_) => return Err(AllocError),
    }
    needs.push(Need { dep, pre })?;
    Ok(())
}

/// Adds a requirement if it is new.
fn add_need(
    alloc: Global,
    tail: &mut Tail,
    needs: &mut Vec<Need>,
    dep: DepId,
    pre: bool,
) -> Result<(), AllocError>
    requires { IsNeedTail tail.old needs.old.items }
    ensures added { OnOk result (needs.new.items ≡ with_need_id dep pre needs.old.items) }
    ensures tail { OnOk result (IsNeedTail tail.new needs.new.items) }
{
    if needs.len() >= FIRST {
        return add_far_need(alloc, tail, needs, dep, pre);
    }
    if let Some(place) = place_in(needs, dep) {
        mark(needs, place, dep, pre);
        return Ok(());
    }
    needs.push(Need { dep, pre })?;
    Ok(())
}

/// Adds a requirement of a package if it is new.
fn require(
    alloc: Global,
    tail: &mut Tail,
    hand: &mut Package,
    dep: DepId,
    pre: bool,
) -> Result<(), AllocError>
    requires { IsNeedTail tail.old hand.old.requires_ }
    ensures added { OnOk result (hand.new ≡ record hand.old { requires_ = with_need_id dep pre hand.old.requires_ }) }
    ensures tail { OnOk result (IsNeedTail tail.new hand.new.requires_) }
{
    let nothing = Items::wrap(Vec::new(alloc));
    let mut needs = std::mem::replace(&mut hand.requires_, nothing).into_vec();
    add_need(alloc, tail, &mut needs, dep, pre)?;
    hand.requires_ = Items::wrap(needs);
    Ok(())
}

/// Adds a path to the files of a package if it is new.
pub(crate) fn add_path(
    alloc: Global,
    tails: &mut Tails,
    hand: &mut Package,
    path: NameId,
) -> Result<(), AllocError>
    requires { AreTails tails.old hand.old }
    ensures added { OnOk result (hand.new ≡ record hand.old { files = with_id path hand.old.files }) }
    ensures tails { OnOk result (AreTails tails.new hand.new) }
{
    add_name(alloc, &mut tails.files, &mut hand.files, path)
}

/// Adds a relation to the list of a tag if it is new.
pub(crate) fn add_entry(
    alloc: Global,
    tails: &mut Tails,
    hand: &mut Package,
    tag: Tag,
    dep: DepId,
) -> Result<(), AllocError>
    requires { AreTails tails.old hand.old }
    ensures added { OnOk result (hand.new ≡ with_entry_id tag dep hand.old) }
    ensures tails { OnOk result (AreTails tails.new hand.new) }
{
    match tag {
        Tag::Prv => add_dep(alloc, &mut tails.provides, &mut hand.provides, dep),
        Tag::Req => require(alloc, &mut tails.requires_, hand, dep, false),
        Tag::Prq => require(alloc, &mut tails.requires_, hand, dep, true),
        Tag::Con => add_dep(alloc, &mut tails.conflicts, &mut hand.conflicts, dep),
        Tag::Obs => add_dep(alloc, &mut tails.obsoletes, &mut hand.obsoletes, dep),
        Tag::Rec => add_dep(alloc, &mut tails.recommends, &mut hand.recommends, dep),
        Tag::Sug => add_dep(alloc, &mut tails.suggests, &mut hand.suggests, dep),
        Tag::Sup => add_dep(alloc, &mut tails.supplements, &mut hand.supplements, dep),
        Tag::Enh => add_dep(alloc, &mut tails.enhances, &mut hand.enhances, dep),
        Tag::Pkg | Tag::Vnd | Tag::Fls => Ok(()),
    }
}
