//! The changes to a set.
ghost use Rattle.std.specs.Prelude.{◌≡◌, ◌≤◌, ◌+◌, ◌&&◌, ◌++◌, ◌∷◌, [], not, length, true, map, filter, IfOk, OnOk};
ghost use Rattle.solv_pool.specs.Prelude.{IsOver, catalog_of, packages, is_pack, is_among, when};
ghost use Rattle.solv_prov.specs.Index.{IsIndexOf};
ghost use Rattle.solv_trans.specs.declared.kinds.Change.TheVariants.{Install};
ghost use Rattle.solv_trans.specs.Changes.{changes};
ghost use Rattle.solv_trans.specs.Moving.{comes};
ghost use Rattle.solv_trans.specs.Effects.{after, IsMemberList};
ghost use Rattle.solv_trans.specs.Inner.Joining.{is_marked};

use crate::kinds::Change;
use crate::leaving::lines_of_leaving;
use crate::marks::{brought_by, marks_of};
use crate::moving::does_come;
use solv_pool::{PackNo, Task};
use solv_prov::Providers;
use std::alloc::{AllocError, Global};

/// Puts the install line of a package at the end, if it comes and no line brings it.
fn add_install(
    task: &Task,
    chosen: &[bool],
    brought: &[bool],
    pack: PackNo,
    lines: &mut Vec<Change>,
) -> Result<(), AllocError>
    requires each { length chosen.now ≡ length task.now.universe.packages + 1 }
    requires each_brought { length brought.now ≡ length task.now.universe.packages + 1 }
    requires held { pack ≤ length task.now.universe.packages }
    ensures { OnOk result (lines.new.items ≡ lines.old.items ++ when (comes (catalog_of task.now) (is_marked chosen.now) pack && not (is_marked brought.now pack)) (Install pack ∷ [])) }
{
    if does_come(task, chosen, pack) && !brought[pack.0 as usize] {
        lines.push(Change::Install(pack))?;
    }
    Ok(())
}

/// Puts the install lines of the packages that come and that no line brings at the end.
fn add_installs(
    task: &Task,
    chosen: &[bool],
    brought: &[bool],
    lines: &mut Vec<Change>,
) -> Result<(), AllocError>
    requires each { length chosen.now ≡ length task.now.universe.packages + 1 }
    requires each_brought { length brought.now ≡ length task.now.universe.packages + 1 }
    ensures { OnOk result (lines.new.items ≡ lines.old.items ++ map Install (filter (λ q. comes (catalog_of task.now) (is_marked chosen.now) q && not (is_marked brought.now q)) (packages (catalog_of task.now)))) }
{
    for number in 0..task.universe.count() {
        add_install(task, chosen, brought, PackNo(number + 1), lines)?;
    }
    Ok(())
}

/// The changes from the installed packages to a set: a line for each installed package that is not in it, in order, and
/// then an install line for each package of it that is not installed and that no line before brings. What stands there
/// after them is the set.
pub fn transaction(
    alloc: Global,
    task: &Task,
    prov: &Providers,
    set: &[PackNo],
) -> Result<Vec<Change>, AllocError>
    requires index { IsIndexOf prov.now (catalog_of task.now) }
    requires over { IsOver task.now.pool task.now.universe }
    ensures exact { IfOk result (λ made. made.items ≡ changes (catalog_of task.now) (is_among set.now)) }
    ensures after { IfOk result (λ made. IsMemberList (length task.now.universe.packages) set.now → after (catalog_of task.now) made.items ≡ set.now) }
{
    let count = task.universe.count();
    let chosen = marks_of(alloc, count, set)?;
    let mut lines = lines_of_leaving(alloc, task, prov, &chosen)?;
    let brought = brought_by(alloc, count, &lines)?;
    add_installs(task, &chosen, &brought, &mut lines)?;
    Ok(lines)
}
