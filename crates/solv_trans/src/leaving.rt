//! The packages that leave, and what comes for them.
ghost use Rattle.std.specs.Prelude.{◌≡◌, ◌≤◌, ◌+◌, ◌&&◌, ◌++◌, ◌∷◌, [], length, true, filter, find, None, nat_lt, IfSome, IfOk, OnOk};
ghost use Rattle.std.specs.List.{list_all};
ghost use Rattle.solv_pool.specs.Prelude.{IsOver, catalog_of, packages, same_name, is_pack, when};
ghost use Rattle.solv_pool.specs.Providing.{obsoletes};
ghost use Rattle.solv_prov.specs.Index.{IsIndexOf};
ghost use Rattle.solv_trans.specs.Changes.{partner, obsoleter, line_of, lines_of_leaving};
ghost use Rattle.solv_trans.specs.Inner.Changes.{leaves};
ghost use Rattle.solv_trans.specs.Moving.{comes};
ghost use Rattle.solv_trans.specs.Inner.Order.{greatest_from};
ghost use Rattle.solv_trans.specs.Inner.Joining.{is_marked};

use crate::comparing::{change_to, greater_of, package};
use crate::kinds::Change;
use crate::moving::does_come;
use solv_pool::{PackNo, Task, evr_order_is_total};
use solv_prov::Providers;
use std::alloc::{AllocError, Global};

/// Whether a package is installed and not in the set.
fn leaves(task: &Task, chosen: &[bool], pack: PackNo) -> bool
    requires each { length chosen.now ≡ length task.now.universe.packages + 1 }
    requires held { pack ≤ length task.now.universe.packages }
    ensures { result ≡ leaves (catalog_of task.now) (is_marked chosen.now) pack }
{
    !chosen[pack.0 as usize] && task.universe.installed(pack)
}

/// The packages of a package's name, itself among them, ascending.
fn namesakes<'a>(task: &Task, prov: &'a Providers, pack: PackNo) -> &'a [PackNo]
    requires index { IsIndexOf prov.now (catalog_of task.now) }
    requires over { IsOver task.now.pool task.now.universe }
    requires pack { is_pack (length task.now.universe.packages) pack ≡ true }
    ensures exact { result.now ≡ filter (same_name (catalog_of task.now) pack) (packages (catalog_of task.now)) }
    ensures within { list_all (is_pack (length task.now.universe.packages)) result.now ≡ true }
{
    prov.of_name(package(task, pack).name())
}

/// Of the packages of a list that come the first one with the greatest EVR.
fn greatest(task: &Task, chosen: &[bool], list: &[PackNo]) -> Option<PackNo>
    requires over { IsOver task.now.pool task.now.universe }
    requires each { length chosen.now ≡ length task.now.universe.packages + 1 }
    requires within { list_all (is_pack (length task.now.universe.packages)) list.now ≡ true }
    ensures exact { result ≡ greatest_from (catalog_of task.now) (comes (catalog_of task.now) (is_marked chosen.now)) None list.now }
    ensures held { IfSome result (λ q. is_pack (length task.now.universe.packages) q ≡ true) }
{
    let mut best = None;
    for pack in list {
        if does_come(task, chosen, *pack) {
            best = Some(greater_of(task, best, *pack));
        }
    }
    best
}

/// The package of a package's name that comes for it.
fn partner(task: &Task, prov: &Providers, chosen: &[bool], pack: PackNo) -> Option<PackNo>
    requires index { IsIndexOf prov.now (catalog_of task.now) }
    requires over { IsOver task.now.pool task.now.universe }
    requires each { length chosen.now ≡ length task.now.universe.packages + 1 }
    requires pack { is_pack (length task.now.universe.packages) pack ≡ true }
    ensures exact { result ≡ partner (catalog_of task.now) (is_marked chosen.now) pack }
    ensures held { IfSome result (λ q. is_pack (length task.now.universe.packages) q ≡ true) }
{
    evr_order_is_total();
    greatest(task, chosen, namesakes(task, prov, pack))
}

/// The lowest package of a list that is in the set.
fn first_chosen(chosen: &[bool], list: &[PackNo]) -> Option<PackNo>
    requires { list_all (λ p. nat_lt p (length chosen.now)) list.now ≡ true }
    ensures { result ≡ find (is_marked chosen.now) list.now }
{
    for pack in list {
        if chosen[pack.0 as usize] {
            return Some(*pack);
        }
    }
    None
}

/// The lowest package of the set that obsoletes a package.
fn obsoleter(task: &Task, prov: &Providers, chosen: &[bool], pack: PackNo) -> Option<PackNo>
    requires index { IsIndexOf prov.now (catalog_of task.now) }
    requires each { length chosen.now ≡ length task.now.universe.packages + 1 }
    requires pack { is_pack (length task.now.universe.packages) pack ≡ true }
    ensures { result ≡ obsoleter (catalog_of task.now) (is_marked chosen.now) pack }
{
    first_chosen(chosen, prov.obsoleted_by(pack))
}

/// The line of a package that leaves.
fn line_of(task: &Task, prov: &Providers, chosen: &[bool], pack: PackNo) -> Change
    requires index { IsIndexOf prov.now (catalog_of task.now) }
    requires over { IsOver task.now.pool task.now.universe }
    requires each { length chosen.now ≡ length task.now.universe.packages + 1 }
    requires pack { is_pack (length task.now.universe.packages) pack ≡ true }
    ensures { result ≡ line_of (catalog_of task.now) (is_marked chosen.now) pack }
{
    if let Some(other) = partner(task, prov, chosen, pack) {
        return change_to(task, pack, other);
    }
    match obsoleter(task, prov, chosen, pack) {
        Some(other) => Change::Obsolete(pack, other),
        None => Change::Erase(pack),
    }
}

/// Puts the line of a package at the end, if it leaves.
fn add_line(
    task: &Task,
    prov: &Providers,
    chosen: &[bool],
    pack: PackNo,
    lines: &mut Vec<Change>,
) -> Result<(), AllocError>
    requires index { IsIndexOf prov.now (catalog_of task.now) }
    requires over { IsOver task.now.pool task.now.universe }
    requires each { length chosen.now ≡ length task.now.universe.packages + 1 }
    requires pack { is_pack (length task.now.universe.packages) pack ≡ true }
    ensures { OnOk result (lines.new.items ≡ lines.old.items ++ when (leaves (catalog_of task.now) (is_marked chosen.now) pack) (line_of (catalog_of task.now) (is_marked chosen.now) pack ∷ [])) }
{
    if leaves(task, chosen, pack) {
        lines.push(line_of(task, prov, chosen, pack))?;
    }
    Ok(())
}

/// The lines of all packages that go.
pub(crate) fn lines_of_leaving(
    alloc: Global,
    task: &Task,
    prov: &Providers,
    chosen: &[bool],
) -> Result<Vec<Change>, AllocError>
    requires index { IsIndexOf prov.now (catalog_of task.now) }
    requires over { IsOver task.now.pool task.now.universe }
    requires each { length chosen.now ≡ length task.now.universe.packages + 1 }
    ensures { IfOk result (λ lines. lines.items ≡ lines_of_leaving (catalog_of task.now) (is_marked chosen.now)) }
{
    let mut lines = Vec::new(alloc);
    for number in 0..task.universe.count() {
        add_line(task, prov, chosen, PackNo(number + 1), &mut lines)?;
    }
    Ok(lines)
}
