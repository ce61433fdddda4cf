//! What the clauses of a dependency are made of.
ghost use Rattle.std.specs.Prelude.{◌≡◌, ◌≤◌, ◌<◌, ◌+◌, ◌++◌, length, take, drop, true, Some, IfOk};
ghost use Rattle.solv_pool.specs.Prelude.{clauses_of, clauses_package_wise, catalog_of, dependency};
ghost use Rattle.solv_prov.specs.Index.{IsIndexOf};
ghost use Rattle.solv_rich.specs.Inner.Expansions.{IsExpansion, package_clauses};
ghost use Rattle.solv_rich.specs.Inner.Singles.{without, rising};

use crate::expansion::{Expansion, cross, join};
use crate::operators::{Parts, parts_of};
use solv_pool::{DepId, PackNo, Task};
use solv_prov::Providers;
use std::alloc::{AllocError, Global};

/// How many packages stand in front of one; all where it is not there.
fn place_of(packs: &[PackNo], pack: PackNo) -> usize
    requires { rising 0 packs.now ≡ true }
    ensures within { result ≤ length packs.now }
    ensures without { take result packs.now ++ drop (result + 1) packs.now ≡ without (Some pack) packs.now }
{
    for place in 0..packs.len() {
        if packs[place] == pack {
            return place;
        }
    }
    packs.len()
}

/// How many packages stand in front of one that does not count.
fn place_without(packs: &[PackNo], except: &Option<PackNo>) -> usize
    requires { rising 0 packs.now ≡ true }
    ensures within { result ≤ length packs.now }
    ensures without { take result packs.now ++ drop (result + 1) packs.now ≡ without except.now packs.now }
{
    match except {
        None => packs.len(),
        Some(pack) => place_of(packs, *pack),
    }
}

/// The packages in front of a place.
fn in_front(packs: &[PackNo], place: usize) -> &[PackNo]
    requires { place ≤ length packs.now }
    ensures { result.now ≡ take place packs.now }
{
    &packs[..place]
}

/// The packages after a place.
fn behind(packs: &[PackNo], place: usize) -> &[PackNo]
    ensures { result.now ≡ drop (place + 1) packs.now }
{
    if place < packs.len() {
        &packs[place + 1..]
    } else {
        &[]
    }
}

/// One of these packages is in, or each of them is out.
fn either<'a>(first: &'a [PackNo], others: &'a [PackNo], positive: bool) -> Expansion<'a>
    ensures { IsExpansion (package_clauses positive (first.now ++ others.now)) result }
{
    if positive {
        Expansion::SomeIn(first, others)
    } else {
        Expansion::EachOut(first, others)
    }
}

/// The clauses of a relation that packages meet alone.
fn leaf<'a>(
    task: &Task,
    prov: &'a Providers,
    dep: DepId,
    positive: bool,
    except: &Option<PackNo>,
) -> Expansion<'a>
    requires index { IsIndexOf prov.now (catalog_of task.now) }
    requires held { dep < length task.now.pool.nodes }
    ensures { IsExpansion (clauses_package_wise (catalog_of task.now) except.now positive (dependency (catalog_of task.now) dep)) result }
{
    let packs = prov.of(dep);
    let place = place_without(packs, except);
    either(in_front(packs, place), behind(packs, place), positive)
}

/// The clauses of a relation.
pub(crate) fn expand<'a>(
    alloc: Global,
    task: &Task,
    prov: &'a Providers,
    dep: DepId,
    positive: bool,
    except: &Option<PackNo>,
) -> Result<Expansion<'a>, AllocError>
    requires index { IsIndexOf prov.now (catalog_of task.now) }
    requires held { dep < length task.now.pool.nodes }
    ensures { IfOk result (IsExpansion (clauses_of (catalog_of task.now) except.now positive (dependency (catalog_of task.now) dep))) }
{
    match parts_of(task, dep, positive) {
        Parts::Packages => Ok(leaf(task, prov, dep, positive, except)),
        Parts::Joined(a, b) => {
            let left = expand(alloc, task, prov, a, positive, except)?;
            let right = expand(alloc, task, prov, b, positive, except)?;
            join(alloc, left, right)
        }
        Parts::Crossed(a, b, holds) => {
            let own = expand(alloc, task, prov, a, positive, except)?;
            let other = expand(alloc, task, prov, b, holds, except)?;
            cross(alloc, own, other)
        }
        Parts::Chosen(a, b, c) => {
            let own = expand(alloc, task, prov, a, positive, except)?;
            let refuted = expand(alloc, task, prov, b, !positive, except)?;
            let first = cross(alloc, own, refuted)?;
            let other = expand(alloc, task, prov, c, positive, except)?;
            let against = expand(alloc, task, prov, b, positive, except)?;
            let second = cross(alloc, other, against)?;
            join(alloc, first, second)
        }
        Parts::Nothing => Ok(Expansion::Nothing),
    }
}
