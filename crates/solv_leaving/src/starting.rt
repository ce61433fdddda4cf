//! Packages that may be asked for by themselves.
ghost use Rattle.std.specs.Prelude.{ℕ, ◌≡◌, ◌≤◌, ◌<◌, ◌||◌, ◌==◌, true, length, IfOk, OnOk};
ghost use Rattle.std.specs.List.{list_all};
ghost use Rattle.solv_pool.specs.Prelude.{tree, package_wise, IsOver, catalog_of, package_at, IsClosed, is_among, passes};
ghost use Rattle.solv_prov.specs.Index.{IsIndexOf};
ghost use Rattle.solv_jobs.specs.Marking.{HasMarks};
ghost use Rattle.solv_policy.specs.Inner.Candidates.{IsPlace};
ghost use Rattle.solv_clean.specs.Inner.Readiness.{need_below};
ghost use Rattle.solv_clean.specs.Inner.Tables.{is_marked};
ghost use Rattle.solv_leaving.specs.Inner.Wise.{AreWise};
ghost use Rattle.solv_leaving.specs.Inner.Starting.{AreMarked, AreStarted, AreStarts, kept_by, stands_alone, starts_by};

use crate::wise::is_wise;
use solv_jobs::{Mark, marked_by};
use solv_pool::{Marks, Need, PackNo, Pool, Task};
use solv_prov::Providers;
use solv_updates::{Ready, feature_candidates};
use std::alloc::{AllocError, Global};

/// Whether packages meet these requirements alone.
fn are_met_alone(pool: &Pool, wise: &[bool], needs: &[Need]) -> bool
    requires needs { list_all (need_below (length pool.now.nodes)) needs.now ≡ true }
    requires wise { AreWise pool.now.nodes wise.now }
    ensures { result ≡ list_all (λ need. package_wise (tree pool.now.nodes need.dep)) needs.now }
{
    if wise.is_empty() {
        return true;
    }
    for need in needs {
        if !is_wise(pool, wise, need.dep) {
            return false;
        }
    }
    true
}

/// Whether a package supplements something, or has a requirement that packages do not meet alone.
fn stands_alone(task: &Task, wise: &[bool], pack: PackNo) -> bool
    requires wise { AreWise task.now.pool.nodes wise.now }
    requires over { IsOver task.now.pool task.now.universe }
    requires a_package { 0 < pack }
    requires held { pack ≤ length task.now.universe.packages }
    ensures { result ≡ passes (package_at (catalog_of task.now) pack) (stands_alone (catalog_of task.now)) }
{
    let package = task.universe.package(pack);
    !package.supplements().is_empty() || !are_met_alone(&task.pool, wise, package.requires_())
}

/// Marks a package. One that has no entry is left out.
fn mark(table: &mut [bool], pack: PackNo)
    ensures size { length table.new ≡ length table.old }
    ensures marked { (p : ℕ) → p < length table.old → is_marked table.new p ≡ (is_marked table.old p || (pack == p)) }
{
    let place = pack.0 as usize;
    if place < table.len() {
        table[place] = true;
    }
}

/// Marks packages.
fn mark_all(table: &mut [bool], packs: &[PackNo])
    ensures size { length table.new ≡ length table.old }
    ensures marked { (p : ℕ) → p < length table.old → is_marked table.new p ≡ (is_marked table.old p || is_among packs.now p) }
{
    for pack in packs {
        mark(table, *pack);
    }
}

/// Marks what may stand in the place of a package, if it is installed.
fn mark_kept(
    alloc: Global,
    ready: &Ready<'_>,
    pack: PackNo,
    table: &mut [bool],
) -> Result<(), AllocError>
    requires { IsPlace ready.now.task.now pack }
    ensures { OnOk result (AreMarked (kept_by (catalog_of ready.now.task.now) ready.now.task.now.flags ready.now.marks.now pack) table.old table.new) }
{
    if ready.task.universe.installed(pack) {
        let packs = feature_candidates(alloc, ready.task, ready.prov, ready.marks, pack)?;
        mark_all(table, &packs);
    }
    Ok(())
}

/// Marks what may stand in the place of a package, if it is installed, and the package itself, if it is asked for by itself.
fn mark_started(
    alloc: Global,
    ready: &Ready<'_>,
    wise: &[bool],
    pack: PackNo,
    table: &mut [bool],
) -> Result<(), AllocError>
    requires wise { AreWise ready.now.task.now.pool.nodes wise.now }
    requires place { IsPlace ready.now.task.now pack }
    ensures { OnOk result (AreMarked (starts_by (catalog_of ready.now.task.now) ready.now.task.now.flags ready.now.marks.now pack) table.old table.new) }
{
    mark_kept(alloc, ready, pack, table)?;
    if stands_alone(ready.task, wise, pack) {
        mark(table, pack);
    }
    Ok(())
}

/// Marks all that is started so by one of the packages.
fn mark_each_started(
    alloc: Global,
    ready: &Ready<'_>,
    wise: &[bool],
    table: &mut [bool],
) -> Result<(), AllocError>
    requires { AreWise ready.now.task.now.pool.nodes wise.now }
    ensures { OnOk result (AreStarted (catalog_of ready.now.task.now) ready.now.task.now.flags ready.now.marks.now (length ready.now.task.now.universe.packages) table.old table.new) }
{
    for before in 0..ready.task.universe.count() {
        mark_started(alloc, ready, wise, PackNo(before + 1), table)?;
    }
    Ok(())
}

/// A table of the packages that may be asked for by themselves.
pub(crate) fn starts(
    alloc: Global,
    task: &Task,
    prov: &Providers,
    marks: &Marks,
    wise: &[bool],
) -> Result<Vec<bool>, AllocError>
    requires wise { AreWise task.now.pool.nodes wise.now }
    requires index { IsIndexOf prov.now (catalog_of task.now) }
    requires closed { IsClosed task.now }
    requires marks { HasMarks (length task.now.universe.packages) marks.now }
    ensures { IfOk result (λ table. AreStarts (catalog_of task.now) task.now.flags marks.now task.now.jobs table.items) }
{
    let asked = marked_by(alloc, task, prov, Mark::Asked)?;
    let mut table = asked.into_vec();
    let ready = Ready { task, prov, marks };
    mark_each_started(alloc, &ready, wise, &mut table)?;
    Ok(table)
}
