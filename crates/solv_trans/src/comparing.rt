//! Two packages beside each other.
ghost use Rattle.std.specs.Prelude.{◌≡◌, ◌<◌, ◌≤◌, length, true, Some, IfSome};
ghost use Rattle.solv_pool.specs.Prelude.{IsOver, catalog_of, package_at, is_pack};
ghost use Rattle.solv_pool.specs.Best.{evr_of, compare_evrs};
ghost use Rattle.solv_pool.specs.Updates.{same_build};
ghost use Rattle.solv_trans.specs.Inner.Changes.{is_same_build, change_to};
ghost use Rattle.solv_trans.specs.Inner.Order.{greater_of};

use crate::kinds::Change;
use solv_pool::{PackNo, PackageRef, Task, evr_compare};
use std::cmp::Ordering;

/// The record of a package.
pub(crate) fn package(task: &Task, pack: PackNo) -> PackageRef<'_>
    requires over { IsOver task.now.pool task.now.universe }
    requires pack { is_pack (length task.now.universe.packages) pack ≡ true }
    ensures at { package_at (catalog_of task.now) pack ≡ Some result }
    ensures named { result.name < length task.now.pool.names }
    ensures versioned { result.evr < length task.now.pool.names }
{
    task.universe.package(pack)
}

/// The EVR of a package.
fn evr_of(task: &Task, pack: PackNo) -> &[u8]
    requires over { IsOver task.now.pool task.now.universe }
    requires pack { is_pack (length task.now.universe.packages) pack ≡ true }
    ensures { result.now ≡ evr_of (catalog_of task.now) pack }
{
    let evr = package(task, pack).evr();
    task.pool.name(evr)
}

/// The order of two packages' EVRs.
fn compare_evrs(task: &Task, pack: PackNo, other: PackNo) -> Ordering
    requires over { IsOver task.now.pool task.now.universe }
    requires pack { is_pack (length task.now.universe.packages) pack ≡ true }
    requires other { is_pack (length task.now.universe.packages) other ≡ true }
    ensures { result ≡ compare_evrs (catalog_of task.now) pack other }
{
    evr_compare(evr_of(task, pack), evr_of(task, other))
}

/// The second package, where there is no first one or the second has the greater EVR; else the first.
pub(crate) fn greater_of(task: &Task, best: Option<PackNo>, other: PackNo) -> PackNo
    requires over { IsOver task.now.pool task.now.universe }
    requires best { IfSome best (λ b. is_pack (length task.now.universe.packages) b ≡ true) }
    requires other { is_pack (length task.now.universe.packages) other ≡ true }
    ensures exact { result ≡ greater_of (catalog_of task.now) best other }
    ensures held { is_pack (length task.now.universe.packages) result ≡ true }
{
    let Some(pack) = best else {
        return other;
    };
    match compare_evrs(task, other, pack) {
        Ordering::Greater => other,
        _ => pack,
    }
}

/// Whether two packages have one architecture and one vendor.
fn is_same_build(from: &PackageRef<'_>, to: &PackageRef<'_>) -> bool
    ensures { result ≡ is_same_build from.now to.now }
{
    from.arch() == to.arch() && from.vendor() == to.vendor()
}

/// The same of packages by their numbers.
fn same_build(task: &Task, pack: PackNo, other: PackNo) -> bool
    requires over { IsOver task.now.pool task.now.universe }
    requires pack { is_pack (length task.now.universe.packages) pack ≡ true }
    requires other { is_pack (length task.now.universe.packages) other ≡ true }
    ensures { result ≡ same_build (catalog_of task.now) pack other }
{
    is_same_build(&package(task, pack), &package(task, other))
}

/// The change from a package to one of its name.
pub(crate) fn change_to(task: &Task, pack: PackNo, other: PackNo) -> Change
    requires over { IsOver task.now.pool task.now.universe }
    requires pack { is_pack (length task.now.universe.packages) pack ≡ true }
    requires other { is_pack (length task.now.universe.packages) other ≡ true }
    ensures { result ≡ change_to (catalog_of task.now) pack other }
{
    match compare_evrs(task, other, pack) {
        Ordering::Greater => Change::Upgrade(pack, other),
        Ordering::Less => Change::Downgrade(pack, other),
        Ordering::Equal => {
            if same_build(task, pack, other) {
                Change::Reinstall(pack, other)
            } else {
                Change::Alter(pack, other)
            }
        }
    }
}
