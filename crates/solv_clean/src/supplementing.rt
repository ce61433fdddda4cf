//! What supplements what in a set.
//!
//! A supplement that many packages have, and that many packages serve, would make as many edges as there are pairs of them. So
//! edges lead through relations: from a member to a relation that it serves, from an operand to a relation that it is a part of,
//! and from a supplement that holds to each member that has it. A relation is visited once.
ghost use Rattle.std.specs.Prelude.{ℕ, ◌≡◌, ◌≤◌, ◌<◌, ◌+◌, ◌∷◌, ◌||◌, ◌&&◌, ◌==◌, [], true, false, length, IfOk, OnOk};
ghost use Rattle.std.specs.List.{list_all};
ghost use Rattle.solv_pool.specs.Prelude.{catalog_of, is_among};
ghost use Rattle.solv_graph.specs.Inner.Graphs.{edge_to};
ghost use Rattle.solv_prov.specs.Index.{providers_of};
ghost use Rattle.solv_clean.specs.Inner.Tables.{is_marked};
ghost use Rattle.solv_clean.specs.Inner.Joining.{Adds, from_member, Grows, AreJoined, LeadFromServing, LeadByOne, has_supplement, supplements_something, LeadTo, AreSupplements};
ghost use Rattle.solv_clean.specs.Inner.Holding.{AreKnown};
ghost use Rattle.solv_clean.specs.Inner.Readiness.{dep_below};

use crate::holding::{holds, is_in};
use crate::members::Members;
use crate::passing::{note_passed, was_passed};
use solv_graph::Graph;
use solv_pool::{DepId, PackNo};
use solv_prov::{Parts, parts_of};
use std::alloc::{AllocError, Global};

/// The vertex of a relation: relations come after the members.
fn vertex_of(in_set: &[bool], dep: DepId, graph: &Graph) -> u32
    requires { length in_set.now + dep < length graph.now }
    ensures { result ≡ length in_set.now + dep }
{
    let _count = graph.count();
    in_set.len() as u32 + dep.0
}

/// Puts an edge from a package, if it is in the set.
fn join_from(in_set: &[bool], to: u32, from: PackNo, graph: &mut Graph) -> Result<(), AllocError>
    requires size { length in_set.now ≤ length graph.old }
    requires to { to < length graph.old }
    ensures { OnOk result (Adds (from_member in_set.now to) (from ∷ []) graph.old graph.new) }
{
    if is_in(in_set, from) {
        graph.join(from.0, to)?;
    }
    Ok(())
}

/// Puts edges from those of these packages that are in the set.
#[tactic(auto, using(crate::proofs::Added::adds_none, crate::proofs::Added::adds_more))]
fn join_all_from(
    in_set: &[bool],
    to: u32,
    packs: &[PackNo],
    graph: &mut Graph,
) -> Result<(), AllocError>
    requires size { length in_set.now ≤ length graph.old }
    requires to { to < length graph.old }
    ensures { OnOk result (Adds (from_member in_set.now to) packs.now graph.old graph.new) }
{
    for from in packs {
        join_from(in_set, to, *from, graph)?;
    }
    Ok(())
}

/// Puts edges to a relation from the members that meet it.
fn join_itself(members: &Members<'_>, dep: DepId, graph: &mut Graph) -> Result<(), AllocError>
    requires held { dep < length members.now.task.now.pool.nodes }
    requires size { length graph.old ≡ length members.now.in_set.now + length members.now.task.now.pool.nodes }
    ensures { OnOk result (Adds (from_member members.now.in_set.now (length members.now.in_set.now + dep)) (providers_of (catalog_of members.now.task.now) dep) graph.old graph.new) }
{
    let to = vertex_of(members.in_set, dep, graph);
    join_all_from(members.in_set, to, members.prov.of(dep), graph)?;
    Ok(())
}

/// Puts an edge from a relation to another.
fn join_over(in_set: &[bool], from: DepId, to: DepId, graph: &mut Graph) -> Result<(), AllocError>
    requires from { length in_set.now + from < length graph.old }
    requires to { length in_set.now + to < length graph.old }
    ensures size { OnOk result (length graph.new ≡ length graph.old) }
    ensures joined { OnOk result ((a b : ℕ) → edge_to graph.new a b ≡ (edge_to graph.old a b || (length in_set.now + from == a && length in_set.now + to == b))) }
{
    let vertex = vertex_of(in_set, from, graph);
    let other = vertex_of(in_set, to, graph);
    graph.join(vertex, other)?;
    Ok(())
}

/// Adds walks to a relation from the members that serve it, unless it was visited already.
fn join_serving(
    members: &Members<'_>,
    dep: DepId,
    passed: &mut [bool],
    graph: &mut Graph,
) -> Result<(), AllocError>
    requires held { dep < length members.now.task.now.pool.nodes }
    requires joined { AreJoined (catalog_of members.now.task.now) members.now.in_set.now passed.old graph.old }
    ensures grows { OnOk result (Grows graph.old graph.new) }
    ensures joined { OnOk result (AreJoined (catalog_of members.now.task.now) members.now.in_set.now passed.new graph.new) }
    ensures served { OnOk result (LeadFromServing (catalog_of members.now.task.now) members.now.in_set.now graph.new dep) }
{
    if was_passed(passed, dep) {
        return Ok(());
    }
    match parts_of(&members.task.pool, dep) {
        Parts::Itself => {
            join_itself(members, dep, graph)?;
            note_passed(passed, dep);
            Ok(())
        }
        Parts::Of(operand) => {
            join_serving(members, operand, passed, graph)?;
            join_over(members.in_set, operand, dep, graph)?;
            note_passed(passed, dep);
            Ok(())
        }
        Parts::OfBoth(first, second) => {
            join_serving(members, first, passed, graph)?;
            join_serving(members, second, passed, graph)?;
            join_over(members.in_set, first, dep, graph)?;
            join_over(members.in_set, second, dep, graph)?;
            note_passed(passed, dep);
            Ok(())
        }
    }
}

/// Puts walks to a member by a supplement, if it holds in the set.
fn join_supplement(
    members: &Members<'_>,
    pack: PackNo,
    dep: DepId,
    known: &mut [Option<bool>],
    passed: &mut [bool],
    graph: &mut Graph,
) -> Result<(), AllocError>
    requires to { is_marked members.now.in_set.now pack ≡ true }
    requires of { has_supplement (catalog_of members.now.task.now) pack dep ≡ true }
    requires held { dep < length members.now.task.now.pool.nodes }
    requires known { AreKnown (catalog_of members.now.task.now) members.now.in_set.now known.old }
    requires joined { AreJoined (catalog_of members.now.task.now) members.now.in_set.now passed.old graph.old }
    ensures known { OnOk result (AreKnown (catalog_of members.now.task.now) members.now.in_set.now known.new) }
    ensures grows { OnOk result (Grows graph.old graph.new) }
    ensures joined { OnOk result (AreJoined (catalog_of members.now.task.now) members.now.in_set.now passed.new graph.new) }
    ensures by { OnOk result (LeadByOne (catalog_of members.now.task.now) members.now.in_set.now graph.new pack dep) }
{
    if !holds(members, dep, known) {
        return Ok(());
    }
    join_serving(members, dep, passed, graph)?;
    let from = vertex_of(members.in_set, dep, graph);
    graph.join(from, pack.0)?;
    Ok(())
}

/// Puts walks to a member by these of its supplements.
fn join_supplements(
    members: &Members<'_>,
    pack: PackNo,
    deps: &[DepId],
    known: &mut [Option<bool>],
    passed: &mut [bool],
    graph: &mut Graph,
) -> Result<(), AllocError>
    requires to { is_marked members.now.in_set.now pack ≡ true }
    requires of { (id : ℕ) → is_among deps.now id ≡ true → has_supplement (catalog_of members.now.task.now) pack id ≡ true }
    requires held { list_all (dep_below (length members.now.task.now.pool.nodes)) deps.now ≡ true }
    requires known { AreKnown (catalog_of members.now.task.now) members.now.in_set.now known.old }
    requires joined { AreJoined (catalog_of members.now.task.now) members.now.in_set.now passed.old graph.old }
    ensures known { OnOk result (AreKnown (catalog_of members.now.task.now) members.now.in_set.now known.new) }
    ensures grows { OnOk result (Grows graph.old graph.new) }
    ensures joined { OnOk result (AreJoined (catalog_of members.now.task.now) members.now.in_set.now passed.new graph.new) }
    ensures by { OnOk result ((id : ℕ) → is_among deps.now id ≡ true → LeadByOne (catalog_of members.now.task.now) members.now.in_set.now graph.new pack id) }
{
    for dep in deps {
        join_supplement(members, pack, *dep, known, passed, graph)?;
    }
    Ok(())
}

/// Puts walks to a package from what supplements it, if it is in the set.
fn join_to(
    members: &Members<'_>,
    pack: PackNo,
    known: &mut [Option<bool>],
    passed: &mut [bool],
    graph: &mut Graph,
) -> Result<(), AllocError>
    requires a_package { 0 < pack }
    requires held { pack ≤ length members.now.task.now.universe.packages }
    requires known { AreKnown (catalog_of members.now.task.now) members.now.in_set.now known.old }
    requires joined { AreJoined (catalog_of members.now.task.now) members.now.in_set.now passed.old graph.old }
    ensures known { OnOk result (AreKnown (catalog_of members.now.task.now) members.now.in_set.now known.new) }
    ensures grows { OnOk result (Grows graph.old graph.new) }
    ensures joined { OnOk result (AreJoined (catalog_of members.now.task.now) members.now.in_set.now passed.new graph.new) }
    ensures to { OnOk result (LeadTo (catalog_of members.now.task.now) members.now.in_set.now graph.new pack) }
{
    if !is_in(members.in_set, pack) {
        return Ok(());
    }
    let package = members.task.universe.package(pack);
    join_supplements(members, pack, package.supplements(), known, passed, graph)?;
    Ok(())
}

/// Puts walks to all packages of the set.
fn join_packages(
    members: &Members<'_>,
    known: &mut [Option<bool>],
    passed: &mut [bool],
    graph: &mut Graph,
) -> Result<(), AllocError>
    requires known { AreKnown (catalog_of members.now.task.now) members.now.in_set.now known.old }
    requires joined { AreJoined (catalog_of members.now.task.now) members.now.in_set.now passed.old graph.old }
    ensures known { OnOk result (AreKnown (catalog_of members.now.task.now) members.now.in_set.now known.new) }
    ensures joined { OnOk result (AreJoined (catalog_of members.now.task.now) members.now.in_set.now passed.new graph.new) }
    ensures to { OnOk result ((q : ℕ) → 0 < q → q < length members.now.task.now.universe.packages + 1 → LeadTo (catalog_of members.now.task.now) members.now.in_set.now graph.new q) }
{
    for before in 0..members.task.universe.count() {
        join_to(members, PackNo(before + 1), known, passed, graph)?;
    }
    Ok(())
}

/// How many vertices there are. A graph of more than its numbers tell apart would find no memory.
fn vertex_count(members: usize, relations: usize) -> Result<u32, AllocError>
    ensures { IfOk result (λ count. count ≡ members + relations) }
{
    let Some(count) = members.checked_add(relations) else {
        return Err(AllocError);
    };
    if count > u32::MAX as usize {
        return Err(AllocError);
    }
    Ok(count as u32)
}

/// Whether a package supplements something.
fn supplements_something(members: &Members<'_>, pack: PackNo) -> bool
    requires a_package { 0 < pack }
    requires held { pack ≤ length members.now.task.now.universe.packages }
    ensures { result ≡ supplements_something (catalog_of members.now.task.now) pack }
{
    !members.task.universe.package(pack).supplements().is_empty()
}

/// Whether one of the packages does.
fn has_supplements(members: &Members<'_>) -> bool
    ensures { result ≡ false → (q : ℕ) → q < length members.now.task.now.universe.packages + 1 → supplements_something (catalog_of members.now.task.now) q ≡ false }
{
    for before in 0..members.task.universe.count() {
        if supplements_something(members, PackNo(before + 1)) {
            return true;
        }
    }
    false
}

/// The graph of what supplements what among the members of the set, over relations. Where no package supplements anything it has
/// no vertices.
pub(crate) fn supplements_in(alloc: Global, members: &Members<'_>) -> Result<Graph, AllocError>
    ensures { IfOk result (λ graph. AreSupplements (catalog_of members.now.task.now) members.now.in_set.now graph) }
{
    if !has_supplements(members) {
        return Graph::new(alloc, 0);
    }
    let relations = members.task.pool.relation_count();
    let count = vertex_count(members.in_set.len(), relations)?;
    let mut graph = Graph::new(alloc, count)?;
    let mut passed = vec![in alloc; false; relations]?;
    let mut known = vec![in alloc; None; relations]?;
    join_packages(members, &mut known, &mut passed, &mut graph)?;
    Ok(graph)
}
