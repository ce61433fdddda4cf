//! What may take the place of an installed package.
ghost use Rattle.std.specs.Prelude.{ℕ, List, ◌≡◌, ◌&&◌, ◌||◌, ◌==◌, not, true, filter, length, IfOk, OnOk};
ghost use Rattle.std.specs.List.{list_any, list_all};
ghost use Rattle.solv_pool.specs.Prelude.{IsOver, catalog_of, packages, is_installed, same_name, update_candidates, feature_candidates, successors, is_pack};
ghost use Rattle.solv_pool.specs.Best.{top_priority};
ghost use Rattle.solv_pool.specs.Installable.{is_installable};
ghost use Rattle.solv_pool.specs.Providing.{obsoletes};
ghost use Rattle.solv_pool.specs.Updates.{coexist, is_feature, is_legal, flags_allow, feature_set, is_equal_to, is_on_top, may_stay, dup_set};
ghost use Rattle.solv_pool.specs.Inner.Updates.{legal_set};
ghost use Rattle.solv_prov.specs.Index.{IsIndexOf};
ghost use Rattle.solv_jobs.specs.Marking.{HasMarks};
ghost use Rattle.solv_policy.specs.Inner.Candidates.{IsPlace};
ghost use Rattle.solv_updates.specs.Inner.Replacing.{is_near, is_wanted, is_candidate};

use crate::comparing::{coexist, flags_allow, is_equal_to, package};
use crate::ready::Ready;
use solv_jobs::put_in_order;
use solv_policy::{priority_of, top_priority};
use solv_pool::{Marks, PackNo, Task};
use solv_prov::Providers;
use std::alloc::{AllocError, Global};

/// Which packages are asked for.
#[derive(Clone, Copy)]
pub(crate) struct Wanted {
    /// The package itself, besides those that may take its place.
    pub itself: bool,
    /// Those too that need a change which the flags do not allow.
    pub every_change: bool,
}

/// The packages of a package's name, itself among them, ascending.
pub fn namesakes<'a>(task: &Task, prov: &'a Providers, pack: PackNo) -> &'a [PackNo]
    requires index { IsIndexOf prov.now (catalog_of task.now) }
    requires over { IsOver task.now.pool task.now.universe }
    requires pack { IsPlace task.now pack }
    ensures exact { result.now ≡ filter (same_name (catalog_of task.now) pack) (packages (catalog_of task.now)) }
    ensures within { list_all (is_pack (length task.now.universe.packages)) result.now ≡ true }
    ensures itself { same_name (catalog_of task.now) pack pack ≡ true }
{
    prov.of_name(package(task, pack).name())
}

/// The packages of a package's name, itself among them, and those that obsolete it, ascending.
fn near(alloc: Global, ready: &Ready<'_>, pack: PackNo) -> Result<Vec<PackNo>, AllocError>
    requires pack { IsPlace ready.now.task.now pack }
    ensures exact { IfOk result (λ packs. packs.items ≡ filter (is_near (catalog_of ready.now.task.now) pack) (packages (catalog_of ready.now.task.now))) }
    ensures within { IfOk result (λ packs. list_all (is_pack (length ready.now.task.now.universe.packages)) packs.items ≡ true) }
    ensures itself { OnOk result (is_near (catalog_of ready.now.task.now) pack pack ≡ true) }
{
    let name = package(ready.task, pack).name();
    let mut found = Vec::from_slice(alloc, ready.prov.of_name(name))?;
    found.extend_from_slice(ready.prov.obsoleted_by(pack))?;
    put_in_order(&mut found);
    Ok(found)
}

/// Whether a package may take the place of one, were every change allowed, where it is near by.
fn replaces(ready: &Ready<'_>, pack: PackNo, other: PackNo) -> bool
    requires pack { IsPlace ready.now.task.now pack }
    requires other { IsPlace ready.now.task.now other }
    ensures { result ≡ (is_installable (catalog_of ready.now.task.now) other && (not (is_installed (catalog_of ready.now.task.now) other) && not (coexist (catalog_of ready.now.task.now) ready.now.marks.now pack other))) }
{
    ready.task.universe.installable(&ready.task.pool, other)
        && !ready.task.universe.installed(other)
        && !coexist(ready, pack, other)
}

/// Whether a package that is near by is asked for.
fn is_wanted(ready: &Ready<'_>, wanted: &Wanted, pack: PackNo, other: PackNo) -> bool
    requires pack { IsPlace ready.now.task.now pack }
    requires other { IsPlace ready.now.task.now other }
    ensures { result ≡ is_wanted (catalog_of ready.now.task.now) ready.now.task.now.flags ready.now.marks.now wanted.now pack other }
{
    if wanted.itself && other == pack {
        return true;
    }
    replaces(ready, pack, other) && (wanted.every_change || flags_allow(ready.task, pack, other))
}

/// Those of the packages that are asked for.
fn wanted_of(
    alloc: Global,
    ready: &Ready<'_>,
    wanted: &Wanted,
    pack: PackNo,
    packs: &[PackNo],
) -> Result<Vec<PackNo>, AllocError>
    requires pack { IsPlace ready.now.task.now pack }
    requires within { list_all (is_pack (length ready.now.task.now.universe.packages)) packs.now ≡ true }
    ensures { IfOk result (λ made. made.items ≡ filter (is_wanted (catalog_of ready.now.task.now) ready.now.task.now.flags ready.now.marks.now wanted.now pack) packs.now) }
{
    let mut made = Vec::new(alloc);
    for other in packs {
        if is_wanted(ready, wanted, pack, *other) {
            made.push(*other)?;
        }
    }
    Ok(made)
}

/// The packages that are asked for, ascending. Nearly no package is obsoleted by another one, and then those of its name are all
/// that are near by, which the index has in their order.
pub(crate) fn candidates(
    alloc: Global,
    ready: &Ready<'_>,
    wanted: &Wanted,
    pack: PackNo,
) -> Result<Vec<PackNo>, AllocError>
    requires pack { IsPlace ready.now.task.now pack }
    ensures { IfOk result (λ made. made.items ≡ filter (is_candidate (catalog_of ready.now.task.now) ready.now.task.now.flags ready.now.marks.now wanted.now pack) (packages (catalog_of ready.now.task.now))) }
{
    if ready.prov.obsoleted_by(pack).is_empty() {
        let named = namesakes(ready.task, ready.prov, pack);
        return wanted_of(alloc, ready, wanted, pack, named);
    }
    let packs = near(alloc, ready, pack)?;
    let made = wanted_of(alloc, ready, wanted, pack, &packs)?;
    Ok(made)
}

/// The packages that may take the place of a package, were every change allowed, ascending.
pub fn feature(
    alloc: Global,
    task: &Task,
    prov: &Providers,
    marks: &Marks,
    pack: PackNo,
) -> Result<Vec<PackNo>, AllocError>
    requires index { IsIndexOf prov.now (catalog_of task.now) }
    requires over { IsOver task.now.pool task.now.universe }
    requires marks { HasMarks (length task.now.universe.packages) marks.now }
    requires pack { IsPlace task.now pack }
    ensures { IfOk result (λ made. made.items ≡ feature_set (catalog_of task.now) marks.now pack) }
{
    let ready = Ready { task, prov, marks };
    let wanted = Wanted {
        itself: false,
        every_change: true,
    };
    candidates(alloc, &ready, &wanted, pack)
}

/// The packages that may take the place of a package with the changes that the flags allow, ascending.
pub fn legal(
    alloc: Global,
    task: &Task,
    prov: &Providers,
    marks: &Marks,
    pack: PackNo,
) -> Result<Vec<PackNo>, AllocError>
    requires index { IsIndexOf prov.now (catalog_of task.now) }
    requires over { IsOver task.now.pool task.now.universe }
    requires marks { HasMarks (length task.now.universe.packages) marks.now }
    requires pack { IsPlace task.now pack }
    ensures { IfOk result (λ made. made.items ≡ legal_set (catalog_of task.now) task.now.flags marks.now pack) }
{
    let ready = Ready { task, prov, marks };
    let wanted = Wanted {
        itself: false,
        every_change: false,
    };
    candidates(alloc, &ready, &wanted, pack)
}

/// A package and those that may take its place, were every change allowed, ascending.
pub fn feature_candidates(
    alloc: Global,
    task: &Task,
    prov: &Providers,
    marks: &Marks,
    pack: PackNo,
) -> Result<Vec<PackNo>, AllocError>
    requires index { IsIndexOf prov.now (catalog_of task.now) }
    requires over { IsOver task.now.pool task.now.universe }
    requires marks { HasMarks (length task.now.universe.packages) marks.now }
    requires pack { IsPlace task.now pack }
    ensures { IfOk result (λ made. made.items ≡ feature_candidates (catalog_of task.now) task.now.flags marks.now pack) }
{
    let ready = Ready { task, prov, marks };
    let wanted = Wanted {
        itself: true,
        every_change: true,
    };
    candidates(alloc, &ready, &wanted, pack)
}

/// A package and those that may take its place with the changes that the flags allow, ascending.
pub fn update_candidates(
    alloc: Global,
    task: &Task,
    prov: &Providers,
    marks: &Marks,
    pack: PackNo,
) -> Result<Vec<PackNo>, AllocError>
    requires index { IsIndexOf prov.now (catalog_of task.now) }
    requires over { IsOver task.now.pool task.now.universe }
    requires marks { HasMarks (length task.now.universe.packages) marks.now }
    requires pack { IsPlace task.now pack }
    ensures { IfOk result (λ made. made.items ≡ update_candidates (catalog_of task.now) task.now.flags marks.now pack) }
{
    let ready = Ready { task, prov, marks };
    let wanted = Wanted {
        itself: true,
        every_change: false,
    };
    candidates(alloc, &ready, &wanted, pack)
}

/// Whether a package has the greatest priority of a list.
fn is_on_top(task: &Task, top: Option<i32>, pack: PackNo) -> bool
    requires over { IsOver task.now.pool task.now.universe }
    requires pack { IsPlace task.now pack }
    ensures { (list : List ℕ) → top ≡ top_priority (catalog_of task.now) list → result ≡ is_on_top (catalog_of task.now) list pack }
{
    match top {
        Some(top) => priority_of(task, pack) == top,
        None => false,
    }
}

/// Whether a package is the equal of another, and has the greatest priority of a list.
fn is_equal_on_top(task: &Task, top: Option<i32>, pack: PackNo, other: PackNo) -> bool
    requires over { IsOver task.now.pool task.now.universe }
    requires pack { IsPlace task.now pack }
    requires other { IsPlace task.now other }
    ensures { (list : List ℕ) → top ≡ top_priority (catalog_of task.now) list → result ≡ (is_on_top (catalog_of task.now) list other && is_equal_to (catalog_of task.now) pack other) }
{
    is_on_top(task, top, other) && is_equal_to(task, pack, other)
}

/// Whether the equal of a package is among these and has the greatest priority of them.
fn has_equal_on_top(task: &Task, pack: PackNo, packs: &[PackNo]) -> bool
    requires over { IsOver task.now.pool task.now.universe }
    requires pack { IsPlace task.now pack }
    requires within { list_all (is_pack (length task.now.universe.packages)) packs.now ≡ true }
    ensures { result ≡ list_any (λ q. is_on_top (catalog_of task.now) packs.now q && is_equal_to (catalog_of task.now) pack q) packs.now }
{
    let top = top_priority(task, packs);
    for other in packs {
        if is_equal_on_top(task, top, pack, *other) {
            return true;
        }
    }
    false
}

/// Whether a package may stay in a distribution upgrade, where these may take its place.
fn may_stay(task: &Task, pack: PackNo, packs: &[PackNo]) -> bool
    requires over { IsOver task.now.pool task.now.universe }
    requires pack { IsPlace task.now pack }
    requires within { list_all (is_pack (length task.now.universe.packages)) packs.now ≡ true }
    ensures { result ≡ ((length packs.now == 0) || list_any (λ q. is_on_top (catalog_of task.now) packs.now q && is_equal_to (catalog_of task.now) pack q) packs.now) }
{
    packs.is_empty() || has_equal_on_top(task, pack, packs)
}

/// What a distribution upgrade puts in the place of a package, ascending: whatever may take it were every change allowed,
/// and the package itself where that is nothing, or its equal has the greatest priority of all that may.
pub fn dup(
    alloc: Global,
    task: &Task,
    prov: &Providers,
    marks: &Marks,
    pack: PackNo,
) -> Result<Vec<PackNo>, AllocError>
    requires index { IsIndexOf prov.now (catalog_of task.now) }
    requires over { IsOver task.now.pool task.now.universe }
    requires marks { HasMarks (length task.now.universe.packages) marks.now }
    requires pack { IsPlace task.now pack }
    ensures { IfOk result (λ made. made.items ≡ dup_set (catalog_of task.now) marks.now pack) }
{
    let features = feature(alloc, task, prov, marks, pack)?;
    if !may_stay(task, pack, &features) {
        return Ok(features);
    }
    let made = feature_candidates(alloc, task, prov, marks, pack)?;
    Ok(made)
}

/// What a package is held to, ascending: what a distribution upgrade puts in its place, where it is marked for one, else itself
/// and those that may take its place.
pub fn successors(
    alloc: Global,
    task: &Task,
    prov: &Providers,
    marks: &Marks,
    pack: PackNo,
) -> Result<Vec<PackNo>, AllocError>
    requires index { IsIndexOf prov.now (catalog_of task.now) }
    requires over { IsOver task.now.pool task.now.universe }
    requires marks { HasMarks (length task.now.universe.packages) marks.now }
    requires pack { IsPlace task.now pack }
    ensures { IfOk result (λ made. made.items ≡ successors (catalog_of task.now) task.now.flags marks.now pack) }
{
    let moves = marks.dup.held()[pack.0 as usize];
    if moves {
        dup(alloc, task, prov, marks, pack)
    } else {
        update_candidates(alloc, task, prov, marks, pack)
    }
}
