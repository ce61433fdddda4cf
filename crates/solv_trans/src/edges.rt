//! Which parts come before which.
ghost use Rattle.std.specs.Prelude.{ℕ, Bool, ◌≡◌, ◌≤◌, ◌<◌, ◌+◌, ◌∷◌, [], ◌||◌, ◌&&◌, ◌==◌, true, length, nat_le, nat_lt, IfOk, OnOk};
ghost use Rattle.std.specs.List.{list_any, list_all};
ghost use Rattle.solv_pool.specs.Prelude.{catalog_of, dependency, members, packages, package_meets};
ghost use Rattle.solv_prov.specs.Index.{IsIndexOf};
ghost use Rattle.solv_trans.specs.Moving.{comes, goes};
ghost use Rattle.solv_trans.specs.Inner.Readiness.{IsReady};
ghost use Rattle.solv_trans.specs.Inner.Joining.{is_marked, linked, pre_linked, AreTurns, Joins, from_one, to_one, settles, unsettled, to_coming, from_going, owned_by, AreEdges};

use solv_graph::Turn;
use solv_pool::{DepId, Need, PackNo, Task};
use solv_prov::{Parts, Providers, parts_of};
use std::alloc::{AllocError, Global};

/// An edge from a package to another one.
#[derive(Clone, Copy)]
pub(crate) struct Link {
    pub(crate) from: u32,
    pub(crate) to: u32,
    /// Whether it is by a pre-requirement.
    pub(crate) pre: bool,
}

/// Puts an edge to the others.
fn put_link(links: &mut Vec<Link>, from: PackNo, to: PackNo, pre: bool) -> Result<(), AllocError>
    ensures all { OnOk result ((a b : ℕ) → linked links.new.items a b ≡ (linked links.old.items a b || (from == a && to == b))) }
    ensures pre { OnOk result ((a b : ℕ) → pre_linked links.new.items a b ≡ (pre_linked links.old.items a b || (pre && (from == a && to == b)))) }
{
    links.push(Link {
        from: from.0,
        to: to.0,
        pre,
    })?;
    Ok(())
}

/// A requirement by an operand of its dependency.
fn by(need: Need, operand: DepId) -> Need
    ensures { result ≡ record need { dep = operand } }
{
    Need {
        dep: operand,
        pre: need.pre,
    }
}

/// Whether what is met by a package needs nothing that comes: it is the package that requires it, the system, or kept.
fn is_settled_by(task: &Task, in_set: &[bool], pack: PackNo, other: PackNo) -> bool
    requires held { other ≤ length task.now.universe.packages }
    requires size { length in_set.now ≡ length task.now.universe.packages + 1 }
    ensures { result ≡ settles (catalog_of task.now) (is_marked in_set.now) pack other }
{
    if other == pack || other.0 == 0 {
        return true;
    }
    task.universe.installed(other) && in_set[other.0 as usize]
}

/// Whether one of the packages that meet a requirement settles it.
fn is_settled(task: &Task, in_set: &[bool], pack: PackNo, providers: &[PackNo]) -> bool
    requires held { list_all (λ p. nat_le p (length task.now.universe.packages)) providers.now ≡ true }
    requires size { length in_set.now ≡ length task.now.universe.packages + 1 }
    ensures { result ≡ list_any (settles (catalog_of task.now) (is_marked in_set.now) pack) providers.now }
{
    for other in providers {
        if is_settled_by(task, in_set, pack, *other) {
            return true;
        }
    }
    false
}

/// Puts an edge from a package to one that requires what it meets, if it comes.
fn join_from(
    turns: &[Turn],
    pack: PackNo,
    need: &Need,
    other: PackNo,
    links: &mut Vec<Link>,
) -> Result<(), AllocError>
    requires pack { pack < length turns.now }
    requires other { other < length turns.now }
    ensures { OnOk result (Joins (from_one turns.now pack need.now) (other ∷ []) links.old.items links.new.items) }
{
    match turns[other.0 as usize] {
        Turn::Early => {
            put_link(links, other, pack, need.pre)?;
            Ok(())
        }
        Turn::Late => Ok(()),
        Turn::Never => Ok(()),
    }
}

/// Puts edges from the packages that come.
#[tactic(auto, using(crate::proofs::Joined::joins_none, crate::proofs::Joined::joins_more))]
fn join_all_from(
    turns: &[Turn],
    pack: PackNo,
    need: &Need,
    providers: &[PackNo],
    links: &mut Vec<Link>,
) -> Result<(), AllocError>
    requires pack { pack < length turns.now }
    requires held { list_all (λ p. nat_lt p (length turns.now)) providers.now ≡ true }
    ensures { OnOk result (Joins (from_one turns.now pack need.now) providers.now links.old.items links.new.items) }
{
    for other in providers {
        join_from(turns, pack, need, *other, links)?;
    }
    Ok(())
}

/// Puts edges by one requirement of a package that comes, unless it is settled.
fn join_brought(
    task: &Task,
    in_set: &[bool],
    turns: &[Turn],
    pack: PackNo,
    need: &Need,
    providers: &[PackNo],
    links: &mut Vec<Link>,
) -> Result<(), AllocError>
    requires in_set { length in_set.now ≡ length task.now.universe.packages + 1 }
    requires turns { length turns.now ≡ length task.now.universe.packages + 1 }
    requires pack { pack < length turns.now }
    requires held { list_all (λ p. nat_lt p (length turns.now)) providers.now ≡ true }
    ensures { OnOk result (Joins (from_one turns.now pack need.now) (unsettled (catalog_of task.now) (is_marked in_set.now) pack providers.now) links.old.items links.new.items) }
{
    if is_settled(task, in_set, pack, providers) {
        return Ok(());
    }
    join_all_from(turns, pack, need, providers, links)?;
    Ok(())
}

/// Puts the edges to a package that comes, by one requirement of it.
fn join_need_coming(
    task: &Task,
    prov: &Providers,
    in_set: &[bool],
    turns: &[Turn],
    pack: PackNo,
    need: Need,
    links: &mut Vec<Link>,
) -> Result<(), AllocError>
    requires index { IsIndexOf prov.now (catalog_of task.now) }
    requires in_set { length in_set.now ≡ length task.now.universe.packages + 1 }
    requires turns { AreTurns (catalog_of task.now) (is_marked in_set.now) turns.now }
    requires pack { pack < length turns.now }
    requires comes { comes (catalog_of task.now) (is_marked in_set.now) pack ≡ true }
    requires held { need.dep < length task.now.pool.nodes }
    ensures { OnOk result (Joins (to_coming (catalog_of task.now) (is_marked in_set.now) pack) (need ∷ []) links.old.items links.new.items) }
{
    match parts_of(&task.pool, need.dep) {
        Parts::Itself => {
            join_brought(task, in_set, turns, pack, &need, prov.of(need.dep), links)?;
            Ok(())
        }
        Parts::Of(operand) => {
            join_need_coming(task, prov, in_set, turns, pack, by(need, operand), links)?;
            Ok(())
        }
        Parts::OfBoth(first, second) => {
            join_need_coming(task, prov, in_set, turns, pack, by(need, first), links)?;
            join_need_coming(task, prov, in_set, turns, pack, by(need, second), links)?;
            Ok(())
        }
    }
}

/// Puts the edges to a package that comes.
fn join_coming(
    task: &Task,
    prov: &Providers,
    in_set: &[bool],
    turns: &[Turn],
    pack: PackNo,
    links: &mut Vec<Link>,
) -> Result<(), AllocError>
    requires ready { IsReady task.now prov.now }
    requires in_set { length in_set.now ≡ length task.now.universe.packages + 1 }
    requires turns { AreTurns (catalog_of task.now) (is_marked in_set.now) turns.now }
    requires a_package { 0 < pack }
    requires held { pack ≤ length task.now.universe.packages }
    requires comes { comes (catalog_of task.now) (is_marked in_set.now) pack ≡ true }
    ensures { OnOk result (Joins (owned_by (catalog_of task.now) (is_marked in_set.now)) (pack ∷ []) links.old.items links.new.items) }
{
    for need in task.universe.package(pack).requires_() {
        join_need_coming(task, prov, in_set, turns, pack, *need, links)?;
    }
    Ok(())
}

/// Puts an edge to a package, if that is another one and goes.
fn join_to(
    turns: &[Turn],
    pack: PackNo,
    need: &Need,
    other: PackNo,
    links: &mut Vec<Link>,
) -> Result<(), AllocError>
    requires pack { pack < length turns.now }
    requires other { other < length turns.now }
    ensures { OnOk result (Joins (to_one turns.now pack need.now) (other ∷ []) links.old.items links.new.items) }
{
    if pack == other {
        return Ok(());
    }
    match turns[other.0 as usize] {
        Turn::Early => Ok(()),
        Turn::Late => {
            put_link(links, pack, other, need.pre)?;
            Ok(())
        }
        Turn::Never => Ok(()),
    }
}

/// Puts edges to the other packages that go.
#[tactic(auto, using(crate::proofs::Joined::joins_none, crate::proofs::Joined::joins_more))]
fn join_all_to(
    turns: &[Turn],
    pack: PackNo,
    need: &Need,
    providers: &[PackNo],
    links: &mut Vec<Link>,
) -> Result<(), AllocError>
    requires pack { pack < length turns.now }
    requires held { list_all (λ p. nat_lt p (length turns.now)) providers.now ≡ true }
    ensures { OnOk result (Joins (to_one turns.now pack need.now) providers.now links.old.items links.new.items) }
{
    for other in providers {
        join_to(turns, pack, need, *other, links)?;
    }
    Ok(())
}

/// Puts the edges from a package that goes, by one requirement of it.
fn join_need_going(
    task: &Task,
    prov: &Providers,
    turns: &[Turn],
    pack: PackNo,
    need: Need,
    links: &mut Vec<Link>,
) -> Result<(), AllocError>
    requires index { IsIndexOf prov.now (catalog_of task.now) }
    requires turns { length turns.now ≡ length task.now.universe.packages + 1 }
    requires pack { pack < length turns.now }
    requires held { need.dep < length task.now.pool.nodes }
    ensures { (set : ℕ → Bool) → AreTurns (catalog_of task.now) set turns.now → OnOk result (Joins (from_going (catalog_of task.now) set pack) (need ∷ []) links.old.items links.new.items) }
{
    match parts_of(&task.pool, need.dep) {
        Parts::Itself => {
            join_all_to(turns, pack, &need, prov.of(need.dep), links)?;
            Ok(())
        }
        Parts::Of(operand) => {
            join_need_going(task, prov, turns, pack, by(need, operand), links)?;
            Ok(())
        }
        Parts::OfBoth(first, second) => {
            join_need_going(task, prov, turns, pack, by(need, first), links)?;
            join_need_going(task, prov, turns, pack, by(need, second), links)?;
            Ok(())
        }
    }
}

/// Puts the edges from a package that goes.
fn join_going(
    task: &Task,
    prov: &Providers,
    turns: &[Turn],
    pack: PackNo,
    links: &mut Vec<Link>,
) -> Result<(), AllocError>
    requires ready { IsReady task.now prov.now }
    requires turns { length turns.now ≡ length task.now.universe.packages + 1 }
    requires a_package { 0 < pack }
    requires held { pack ≤ length task.now.universe.packages }
    ensures { (set : ℕ → Bool) → AreTurns (catalog_of task.now) set turns.now → goes (catalog_of task.now) set pack ≡ true → OnOk result (Joins (owned_by (catalog_of task.now) set) (pack ∷ []) links.old.items links.new.items) }
{
    for need in task.universe.package(pack).requires_() {
        join_need_going(task, prov, turns, pack, *need, links)?;
    }
    Ok(())
}

/// Puts the edges to a package that comes, or from one that goes.
fn join_package(
    task: &Task,
    prov: &Providers,
    in_set: &[bool],
    turns: &[Turn],
    pack: PackNo,
    links: &mut Vec<Link>,
) -> Result<(), AllocError>
    requires ready { IsReady task.now prov.now }
    requires in_set { length in_set.now ≡ length task.now.universe.packages + 1 }
    requires turns { AreTurns (catalog_of task.now) (is_marked in_set.now) turns.now }
    requires a_package { 0 < pack }
    requires held { pack ≤ length task.now.universe.packages }
    ensures { OnOk result (Joins (owned_by (catalog_of task.now) (is_marked in_set.now)) (pack ∷ []) links.old.items links.new.items) }
{
    match turns[pack.0 as usize] {
        Turn::Early => {
            join_coming(task, prov, in_set, turns, pack, links)?;
            Ok(())
        }
        Turn::Late => {
            join_going(task, prov, turns, pack, links)?;
            Ok(())
        }
        Turn::Never => Ok(()),
    }
}

/// Puts the edges of all packages.
fn join_packages(
    task: &Task,
    prov: &Providers,
    in_set: &[bool],
    turns: &[Turn],
    links: &mut Vec<Link>,
) -> Result<(), AllocError>
    requires ready { IsReady task.now prov.now }
    requires in_set { length in_set.now ≡ length task.now.universe.packages + 1 }
    requires turns { AreTurns (catalog_of task.now) (is_marked in_set.now) turns.now }
    ensures { OnOk result (Joins (owned_by (catalog_of task.now) (is_marked in_set.now)) (packages (catalog_of task.now)) links.old.items links.new.items) }
{
    for before in 0..task.universe.count() {
        join_package(task, prov, in_set, turns, PackNo(before + 1), links)?;
    }
    Ok(())
}

/// The edges between the parts.
pub(crate) fn links_of(
    alloc: Global,
    task: &Task,
    prov: &Providers,
    in_set: &[bool],
    turns: &[Turn],
) -> Result<Vec<Link>, AllocError>
    requires ready { IsReady task.now prov.now }
    requires in_set { length in_set.now ≡ length task.now.universe.packages + 1 }
    requires turns { AreTurns (catalog_of task.now) (is_marked in_set.now) turns.now }
    ensures { IfOk result (λ links. AreEdges (catalog_of task.now) (is_marked in_set.now) links.items) }
{
    let mut links = Vec::new(alloc);
    join_packages(task, prov, in_set, turns, &mut links)?;
    Ok(links)
}
