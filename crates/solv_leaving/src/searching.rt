//! What is asked for, however far it is asked. Nothing is promised of what a search finds: `checking` looks at it.
ghost use Rattle.std.specs.Prelude.{◌≡◌, ◌≤◌, ◌<◌, true, length};
ghost use Rattle.std.specs.List.{list_all};
ghost use Rattle.solv_pool.specs.Prelude.{IsOver, catalog_of, IsClosed};
ghost use Rattle.solv_prov.specs.Index.{IsIndexOf};
ghost use Rattle.solv_clean.specs.Inner.Readiness.{dep_below, need_below};
ghost use Rattle.solv_leaving.specs.Inner.Wise.{AreWise};

use crate::leaving::is_plainly_met;
use crate::wise::is_wise;
use solv_pool::{DepId, DepNode, Need, PackNo, Task};
use solv_prov::Providers;
use std::alloc::{AllocError, Global};

/// A task with the index of its providers, and which relations packages meet alone.
#[derive(Drop)]
struct Searched<'a> {
    task: &'a Task,
    prov: &'a Providers,
    wise: &'a [bool],
    ghost over: { IsOver task.now.pool task.now.universe },
    ghost index: { IsIndexOf prov.now (catalog_of task.now) },
    ghost are_wise: { AreWise task.now.pool.nodes wise.now },
}

/// Takes a package from those that are left out, and lists it, if it is there.
fn take_in(pack: PackNo, left: &mut [bool], found: &mut Vec<PackNo>) -> Result<(), AllocError> {
    let place = pack.0 as usize;
    if place < left.len() && left[place] {
        found.push(pack)?;
        left[place] = false;
    }
    Ok(())
}

/// Takes in what meets a relation, unless it was visited already.
fn take_meeting(
    searched: &Searched<'_>,
    dep: DepId,
    passed: &mut [bool],
    left: &mut [bool],
    found: &mut Vec<PackNo>,
) -> Result<(), AllocError>
    requires { dep < length searched.now.task.now.pool.nodes }
{
    let place = dep.0 as usize;
    if place < passed.len() {
        if passed[place] {
            return Ok(());
        }
        passed[place] = true;
    }
    for pack in searched.prov.of(dep) {
        take_in(*pack, left, found)?;
    }
    Ok(())
}

/// Takes in what meets a part of a dependency, and a piece of its conditions, if these are wanted.
fn take_pieces(
    searched: &Searched<'_>,
    dep: DepId,
    conditions: bool,
    passed: &mut [bool],
    left: &mut [bool],
    found: &mut Vec<PackNo>,
) -> Result<(), AllocError>
    requires { dep < length searched.now.task.now.pool.nodes }
{
    if is_wise(&searched.task.pool, searched.wise, dep) {
        return take_meeting(searched, dep, passed, left, found);
    }
    match searched.task.pool.dep(dep) {
        DepNode::Simple(_) | DepNode::Versioned(_, _, _) | DepNode::Namespace(_) => take_meeting(
            searched, dep, passed, left, found,
        ),
        DepNode::With(_, _) | DepNode::Without(_, _) => take_meeting(
            searched, dep, passed, left, found,
        ),
        DepNode::And(a, b) | DepNode::Or(a, b) => {
            take_pieces(searched, a, conditions, passed, left, found)?;
            take_pieces(searched, b, conditions, passed, left, found)
        }
        DepNode::If(a, b) | DepNode::Unless(a, b) => {
            if conditions {
                take_pieces(searched, b, conditions, passed, left, found)?;
            }
            take_pieces(searched, a, conditions, passed, left, found)
        }
        DepNode::IfElse(a, b, c) | DepNode::UnlessElse(a, b, c) => {
            if conditions {
                take_pieces(searched, b, conditions, passed, left, found)?;
            }
            take_pieces(searched, a, conditions, passed, left, found)?;
            take_pieces(searched, c, conditions, passed, left, found)
        }
    }
}

/// Takes in what a dependency asks for.
fn take_asked(
    searched: &Searched<'_>,
    dep: DepId,
    passed: &mut [bool],
    left: &mut [bool],
    found: &mut Vec<PackNo>,
) -> Result<(), AllocError>
    requires { dep < length searched.now.task.now.pool.nodes }
{
    let conditions = !is_plainly_met(&searched.task.pool, searched.wise, dep);
    take_pieces(searched, dep, conditions, passed, left, found)
}

/// Takes in what these requirements ask for.
fn take_needs(
    searched: &Searched<'_>,
    needs: &[Need],
    passed: &mut [bool],
    left: &mut [bool],
    found: &mut Vec<PackNo>,
) -> Result<(), AllocError>
    requires { list_all (need_below (length searched.now.task.now.pool.nodes)) needs.now ≡ true }
{
    for need in needs {
        take_asked(searched, need.dep, passed, left, found)?;
    }
    Ok(())
}

/// Takes in what these dependencies ask for.
fn take_deps(
    searched: &Searched<'_>,
    deps: &[DepId],
    passed: &mut [bool],
    left: &mut [bool],
    found: &mut Vec<PackNo>,
) -> Result<(), AllocError>
    requires { list_all (dep_below (length searched.now.task.now.pool.nodes)) deps.now ≡ true }
{
    for dep in deps {
        take_asked(searched, *dep, passed, left, found)?;
    }
    Ok(())
}

/// Takes in what touches conflicts that no package meets alone.
fn take_conflicts(
    searched: &Searched<'_>,
    deps: &[DepId],
    passed: &mut [bool],
    left: &mut [bool],
    found: &mut Vec<PackNo>,
) -> Result<(), AllocError>
    requires { list_all (dep_below (length searched.now.task.now.pool.nodes)) deps.now ≡ true }
{
    if searched.wise.is_empty() {
        return Ok(());
    }
    for dep in deps {
        if !is_wise(&searched.task.pool, searched.wise, *dep) {
            take_pieces(searched, *dep, true, passed, left, found)?;
        }
    }
    Ok(())
}

/// Takes in what a package asks for. The system asks for nothing.
fn visit(
    searched: &Searched<'_>,
    pack: PackNo,
    passed: &mut [bool],
    left: &mut [bool],
    found: &mut Vec<PackNo>,
) -> Result<(), AllocError> {
    if pack.0 == 0 || pack.0 > searched.task.universe.count() {
        return Ok(());
    }
    let package = searched.task.universe.package(pack);
    take_needs(searched, package.requires_(), passed, left, found)?;
    take_deps(searched, package.recommends(), passed, left, found)?;
    take_conflicts(searched, package.conflicts(), passed, left, found)
}

/// Takes in the system, and what starts.
fn take_starts(
    starts: &[bool],
    left: &mut [bool],
    found: &mut Vec<PackNo>,
) -> Result<(), AllocError> {
    take_in(PackNo(0), left, found)?;
    let mut number = 0;
    for started in starts {
        if *started {
            take_in(PackNo(number), left, found)?;
        }
        if number < u32::MAX {
            number += 1;
        }
    }
    Ok(())
}

/// Visits each package that was found, and takes in what it asks for.
fn visit_each(
    searched: &Searched<'_>,
    passed: &mut [bool],
    left: &mut [bool],
    found: &mut Vec<PackNo>,
) -> Result<(), AllocError> {
    for place in 0..left.len() {
        if place >= found.len() {
            return Ok(());
        }
        let pack = found[place];
        visit(searched, pack, passed, left, found)?;
    }
    Ok(())
}

/// A table of the packages to which no walk leads from the system or from those that a table marks.
pub(crate) fn unreached(
    alloc: Global,
    task: &Task,
    prov: &Providers,
    wise: &[bool],
    starts: &[bool],
) -> Result<Vec<bool>, AllocError>
    requires wise { AreWise task.now.pool.nodes wise.now }
    requires index { IsIndexOf prov.now (catalog_of task.now) }
    requires closed { IsClosed task.now }
{
    let searched = Searched { task, prov, wise };
    let mut left = vec![in alloc; true; starts.len()]?;
    let mut passed = vec![in alloc; false; task.pool.relation_count()]?;
    let mut found = Vec::new(alloc);
    take_starts(starts, &mut left, &mut found)?;
    visit_each(&searched, &mut passed, &mut left, &mut found)?;
    Ok(left)
}
