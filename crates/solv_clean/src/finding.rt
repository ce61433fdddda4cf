//! Vertices that are marked and listed: members of a set by number, and relations after them.
ghost use Rattle.std.specs.Prelude.{◌≡◌, ◌≤◌, ◌<◌, ◌∷◌, [], true, length, OnOk};
ghost use Rattle.std.specs.List.{list_all};
ghost use Rattle.solv_pool.specs.Prelude.{catalog_of};
ghost use Rattle.solv_clean.specs.Inner.Finding.{Finds, ArePassed, itself, serving, serving_need, serving_package, next_to};
ghost use Rattle.solv_clean.specs.Inner.Tables.{IsWithRelations};
ghost use Rattle.solv_clean.specs.Inner.Readiness.{dep_below, need_below};

use crate::members::Members;
use crate::passing::{note_passed, was_passed};
use solv_graph::Graph;
use solv_pool::{DepId, Need, PackNo};
use solv_prov::{Parts, parts_of};
use std::alloc::AllocError;

/// Marks and lists a vertex, if it may be and is not yet marked.
fn mark(
    may: &[bool],
    vertex: u32,
    marks: &mut [bool],
    found: &mut Vec<u32>,
) -> Result<(), AllocError>
    requires { length may.now ≤ length marks.old }
    ensures { OnOk result (Finds may.now itself (vertex ∷ []) marks.old found.old.items marks.new found.new.items) }
{
    let place = vertex as usize;
    if place < may.len() && may[place] && !marks[place] {
        found.push(vertex)?;
        marks[place] = true;
    }
    Ok(())
}

/// Marks and lists those of these packages that are in the set.
#[tactic(auto, using(crate::proofs::Found::finds_none, crate::proofs::Found::finds_more))]
pub(crate) fn mark_all(
    in_set: &[bool],
    packs: &[PackNo],
    marks: &mut [bool],
    found: &mut Vec<u32>,
) -> Result<(), AllocError>
    requires { length in_set.now ≤ length marks.old }
    ensures { OnOk result (Finds in_set.now itself packs.now marks.old found.old.items marks.new found.new.items) }
{
    for pack in packs {
        mark(in_set, pack.0, marks, found)?;
    }
    Ok(())
}

/// Marks and lists those of these vertices that may be.
#[tactic(auto, using(crate::proofs::Found::finds_none, crate::proofs::Found::finds_more))]
fn mark_vertices(
    may: &[bool],
    vertices: &[u32],
    marks: &mut [bool],
    found: &mut Vec<u32>,
) -> Result<(), AllocError>
    requires { length may.now ≤ length marks.old }
    ensures { OnOk result (Finds may.now itself vertices.now marks.old found.old.items marks.new found.new.items) }
{
    for vertex in vertices {
        mark(may, *vertex, marks, found)?;
    }
    Ok(())
}

/// Marks and lists what serves a dependency, unless it was visited already.
fn mark_serving(
    members: &Members<'_>,
    dep: DepId,
    passed: &mut [bool],
    marks: &mut [bool],
    found: &mut Vec<u32>,
) -> Result<(), AllocError>
    requires size { length members.now.in_set.now ≤ length marks.old }
    requires held { dep < length members.now.task.now.pool.nodes }
    requires passed { ArePassed (serving (catalog_of members.now.task.now)) members.now.in_set.now passed.old marks.old }
    ensures found { OnOk result (Finds members.now.in_set.now (serving (catalog_of members.now.task.now)) (dep ∷ []) marks.old found.old.items marks.new found.new.items) }
    ensures passed { OnOk result (ArePassed (serving (catalog_of members.now.task.now)) members.now.in_set.now passed.new marks.new) }
{
    if was_passed(passed, dep) {
        return Ok(());
    }
    match parts_of(&members.task.pool, dep) {
        Parts::Itself => {
            mark_all(members.in_set, members.prov.of(dep), marks, found)?;
            note_passed(passed, dep);
            Ok(())
        }
        Parts::Of(operand) => {
            mark_serving(members, operand, passed, marks, found)?;
            note_passed(passed, dep);
            Ok(())
        }
        Parts::OfBoth(first, second) => {
            mark_serving(members, first, passed, marks, found)?;
            mark_serving(members, second, passed, marks, found)?;
            note_passed(passed, dep);
            Ok(())
        }
    }
}

/// Marks and lists what serves one of these requirements.
fn mark_required(
    members: &Members<'_>,
    needs: &[Need],
    passed: &mut [bool],
    marks: &mut [bool],
    found: &mut Vec<u32>,
) -> Result<(), AllocError>
    requires size { length members.now.in_set.now ≤ length marks.old }
    requires held { list_all (need_below (length members.now.task.now.pool.nodes)) needs.now ≡ true }
    requires passed { ArePassed (serving (catalog_of members.now.task.now)) members.now.in_set.now passed.old marks.old }
    ensures found { OnOk result (Finds members.now.in_set.now (serving_need (catalog_of members.now.task.now)) needs.now marks.old found.old.items marks.new found.new.items) }
    ensures passed { OnOk result (ArePassed (serving (catalog_of members.now.task.now)) members.now.in_set.now passed.new marks.new) }
{
    for need in needs {
        mark_serving(members, need.dep, passed, marks, found)?;
    }
    Ok(())
}

/// Marks and lists what serves one of these dependencies.
fn mark_recommended(
    members: &Members<'_>,
    deps: &[DepId],
    passed: &mut [bool],
    marks: &mut [bool],
    found: &mut Vec<u32>,
) -> Result<(), AllocError>
    requires size { length members.now.in_set.now ≤ length marks.old }
    requires held { list_all (dep_below (length members.now.task.now.pool.nodes)) deps.now ≡ true }
    requires passed { ArePassed (serving (catalog_of members.now.task.now)) members.now.in_set.now passed.old marks.old }
    ensures found { OnOk result (Finds members.now.in_set.now (serving (catalog_of members.now.task.now)) deps.now marks.old found.old.items marks.new found.new.items) }
    ensures passed { OnOk result (ArePassed (serving (catalog_of members.now.task.now)) members.now.in_set.now passed.new marks.new) }
{
    for dep in deps {
        mark_serving(members, *dep, passed, marks, found)?;
    }
    Ok(())
}

/// Marks and lists what serves what a package asks for. No other vertex asks for anything.
fn mark_asked(
    members: &Members<'_>,
    vertex: u32,
    passed: &mut [bool],
    marks: &mut [bool],
    found: &mut Vec<u32>,
) -> Result<(), AllocError>
    requires size { length members.now.in_set.now ≤ length marks.old }
    requires passed { ArePassed (serving (catalog_of members.now.task.now)) members.now.in_set.now passed.old marks.old }
    ensures found { OnOk result (Finds members.now.in_set.now (serving_package (catalog_of members.now.task.now)) (vertex ∷ []) marks.old found.old.items marks.new found.new.items) }
    ensures passed { OnOk result (ArePassed (serving (catalog_of members.now.task.now)) members.now.in_set.now passed.new marks.new) }
{
    if vertex == 0 || vertex > members.task.universe.count() {
        return Ok(());
    }
    let package = members.task.universe.package(PackNo(vertex));
    mark_required(members, package.requires_(), passed, marks, found)?;
    mark_recommended(members, package.recommends(), passed, marks, found)?;
    Ok(())
}

/// Marks and lists what a member of the set needs, and what edges of supplements lead to.
pub(crate) fn mark_needed(
    members: &Members<'_>,
    may: &[bool],
    supplements: &Graph,
    vertex: u32,
    passed: &mut [bool],
    marks: &mut [bool],
    found: &mut Vec<u32>,
) -> Result<(), AllocError>
    requires may { IsWithRelations members.now.in_set.now (length members.now.task.now.pool.nodes) may.now }
    requires size { length marks.old ≡ length may.now }
    requires passed { ArePassed (serving (catalog_of members.now.task.now)) members.now.in_set.now passed.old marks.old }
    ensures found { OnOk result (Finds may.now (next_to (catalog_of members.now.task.now) members.now.in_set.now supplements.now) (vertex ∷ []) marks.old found.old.items marks.new found.new.items) }
    ensures passed { OnOk result (ArePassed (serving (catalog_of members.now.task.now)) members.now.in_set.now passed.new marks.new) }
{
    let _may = may;
    mark_asked(members, vertex, passed, marks, found)?;
    mark_vertices(may, supplements.next(vertex), marks, found)?;
    Ok(())
}
