//! Where walks lead.
ghost use Rattle.std.specs.Prelude.{ℕ, ◌≡◌, ◌<◌, ◌+◌, true, false, length, IfOk, OnOk};
ghost use Rattle.solv_pool.specs.Prelude.{catalog_of, is_among};
ghost use Rattle.solv_pool.specs.Cleaning.{needed_from};
ghost use Rattle.solv_clean.specs.Inner.Tables.{is_marked, IsWithRelations};
ghost use Rattle.solv_clean.specs.Inner.Finding.{ArePassed, serving, next_to};
ghost use Rattle.solv_clean.specs.Inner.Joining.{AreSupplements};
ghost use Rattle.solv_clean.specs.Inner.Searching.{HasBegun, edge_in, IsFound};
ghost use Rattle.solv_clean.specs.Inner.Readiness.{IsReady};

use crate::finding::{mark_all, mark_needed};
use crate::members::Members;
use crate::supplementing::supplements_in;
use crate::tables::table_with_relations;
use solv_graph::{Graph, reached_is_where_walks_lead};
use solv_pool::{PackNo, Task};
use solv_prov::Providers;
use std::alloc::{AllocError, Global};

/// Marks these members of the set, and lists them.
fn begin(
    may: &[bool],
    starts: &[PackNo],
    marks: &mut [bool],
    found: &mut Vec<u32>,
) -> Result<(), AllocError>
    requires size { length marks.old ≡ length may.now }
    requires none { (q : ℕ) → is_marked marks.old q ≡ false }
    requires inside { (q : ℕ) → is_among starts.now q ≡ true → is_marked may.now q ≡ true }
    ensures { OnOk result (HasBegun may.now starts.now marks.new found.new.items) }
{
    found.clear();
    mark_all(may, starts, marks, found)?;
    Ok(())
}

/// Visits each vertex that was found, and finds its neighbours.
fn go_on(
    members: &Members<'_>,
    may: &[bool],
    supplements: &Graph,
    starts: &[PackNo],
    passed: &mut [bool],
    marks: &mut [bool],
    found: &mut Vec<u32>,
) -> Result<(), AllocError>
    requires may { IsWithRelations members.now.in_set.now (length members.now.task.now.pool.nodes) may.now }
    requires passed { ArePassed (serving (catalog_of members.now.task.now)) members.now.in_set.now passed.old marks.old }
    requires begun { HasBegun may.now starts.now marks.old found.old.items }
    ensures { OnOk result (IsFound (edge_in may.now (next_to (catalog_of members.now.task.now) members.now.in_set.now supplements.now)) starts.now marks.new) }
{
    let _starts = starts;
    for place in 0..may.len() {
        if place >= found.len() {
            return Ok(());
        }
        let vertex = found[place];
        mark_needed(members, may, supplements, vertex, passed, marks, found)?;
    }
    Ok(())
}

/// Marks the members of a set to which walks lead from these, and what relations the walks lead over.
fn search(
    alloc: Global,
    members: &Members<'_>,
    may: &[bool],
    supplements: &Graph,
    starts: &[PackNo],
    marks: &mut [bool],
) -> Result<(), AllocError>
    requires may { IsWithRelations members.now.in_set.now (length members.now.task.now.pool.nodes) may.now }
    requires supplements { AreSupplements (catalog_of members.now.task.now) members.now.in_set.now supplements.now }
    requires inside { (q : ℕ) → is_among starts.now q ≡ true → is_marked members.now.in_set.now q ≡ true }
    requires size { length marks.old ≡ length may.now }
    requires none { (q : ℕ) → is_marked marks.old q ≡ false }
    ensures { OnOk result ((q : ℕ) → q < length members.now.in_set.now → is_marked marks.new q ≡ is_among (needed_from (catalog_of members.now.task.now) (is_marked members.now.in_set.now) starts.now) q) }
{
    reached_is_where_walks_lead();
    let mut found = Vec::new(alloc);
    let mut passed = vec![in alloc; false; members.task.pool.relation_count()]?;
    begin(may, starts, marks, &mut found)?;
    go_on(
        members,
        may,
        supplements,
        starts,
        &mut passed,
        marks,
        &mut found,
    )?;
    Ok(())
}

/// Which vertices a search finds that begins at these.
fn found_from(
    alloc: Global,
    members: &Members<'_>,
    may: &[bool],
    starts: &[PackNo],
) -> Result<Vec<bool>, AllocError>
    requires may { IsWithRelations members.now.in_set.now (length members.now.task.now.pool.nodes) may.now }
    requires inside { (q : ℕ) → is_among starts.now q ≡ true → is_marked members.now.in_set.now q ≡ true }
    ensures { IfOk result (λ marks. (q : ℕ) → q < length members.now.in_set.now → is_marked marks.items q ≡ is_among (needed_from (catalog_of members.now.task.now) (is_marked members.now.in_set.now) starts.now) q) }
{
    let supplements = supplements_in(alloc, members)?;
    let mut marks = vec![in alloc; false; may.len()]?;
    search(alloc, members, may, &supplements, starts, &mut marks)?;
    Ok(marks)
}

/// Which members of a set walks lead to from these.
pub(crate) fn needed_from(
    alloc: Global,
    task: &Task,
    prov: &Providers,
    in_set: &[bool],
    starts: &[PackNo],
) -> Result<Vec<bool>, AllocError>
    requires ready { IsReady task.now prov.now }
    requires each { length in_set.now ≡ length task.now.universe.packages + 1 }
    requires inside { (q : ℕ) → is_among starts.now q ≡ true → is_marked in_set.now q ≡ true }
    ensures { IfOk result (λ marks. (q : ℕ) → is_marked marks.items q ≡ is_among (needed_from (catalog_of task.now) (is_marked in_set.now) starts.now) q) }
{
    reached_is_where_walks_lead();
    let members = Members { task, prov, in_set };
    let may = table_with_relations(alloc, in_set, task.pool.relation_count())?;
    let mut marks = found_from(alloc, &members, &may, starts)?;
    marks.truncate(in_set.len());
    Ok(marks)
}
