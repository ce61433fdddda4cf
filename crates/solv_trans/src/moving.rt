//! What comes and what goes.
ghost use Rattle.std.specs.Prelude.{ℕ, ◌≡◌, ◌≤◌, ◌<◌, ◌+◌, ◌||◌, false, length, IfOk};
ghost use Rattle.std.specs.List.{list_any};
ghost use Rattle.solv_pool.specs.Prelude.{IsOver, catalog_of, packages};
ghost use Rattle.solv_trans.specs.Moving.{comes, goes};
ghost use Rattle.solv_trans.specs.Inner.Joining.{is_marked, comes_named, turn_of, AreTurns};

use solv_graph::Turn;
use solv_pool::{PackNo, Task};
use std::alloc::{AllocError, Global};

/// Whether a package comes: it is in the set and not installed.
pub(crate) fn does_come(task: &Task, in_set: &[bool], pack: PackNo) -> bool
    requires held { pack ≤ length task.now.universe.packages }
    requires size { length in_set.now ≡ length task.now.universe.packages + 1 }
    ensures { result ≡ comes (catalog_of task.now) (is_marked in_set.now) pack }
{
    pack.0 > 0 && in_set[pack.0 as usize] && !task.universe.installed(pack)
}

/// Marks the name of a package that comes.
fn mark_name(task: &Task, in_set: &[bool], pack: PackNo, names: &mut [bool])
    requires over { IsOver task.now.pool task.now.universe }
    requires a_package { 0 < pack }
    requires held { pack ≤ length task.now.universe.packages }
    requires size { length in_set.now ≡ length task.now.universe.packages + 1 }
    requires names { length names.old ≡ length task.now.pool.names }
    ensures { (n : ℕ) → is_marked names.new n ≡ (is_marked names.old n || comes_named (catalog_of task.now) (is_marked in_set.now) n pack) }
{
    if does_come(task, in_set, pack) {
        let name = task.universe.package(pack).name();
        names[name.0 as usize] = true;
    }
}

/// Marks the names of what comes.
fn mark_names(task: &Task, in_set: &[bool], names: &mut [bool])
    requires over { IsOver task.now.pool task.now.universe }
    requires size { length in_set.now ≡ length task.now.universe.packages + 1 }
    requires names { length names.old ≡ length task.now.pool.names }
    requires none { (n : ℕ) → is_marked names.old n ≡ false }
    ensures { (n : ℕ) → is_marked names.new n ≡ list_any (comes_named (catalog_of task.now) (is_marked in_set.now) n) (packages (catalog_of task.now)) }
{
    for before in 0..task.universe.count() {
        mark_name(task, in_set, PackNo(before + 1), names);
    }
}

/// Whether a package goes.
fn does_go(task: &Task, in_set: &[bool], names: &[bool], pack: PackNo) -> bool
    requires over { IsOver task.now.pool task.now.universe }
    requires held { pack ≤ length task.now.universe.packages }
    requires size { length in_set.now ≡ length task.now.universe.packages + 1 }
    requires names { length names.now ≡ length task.now.pool.names }
    requires named { (n : ℕ) → is_marked names.now n ≡ list_any (comes_named (catalog_of task.now) (is_marked in_set.now) n) (packages (catalog_of task.now)) }
    ensures { result ≡ goes (catalog_of task.now) (is_marked in_set.now) pack }
{
    if !task.universe.installed(pack) || in_set[pack.0 as usize] {
        return false;
    }
    let name = task.universe.package(pack).name();
    !names[name.0 as usize]
}

/// The turn of a package.
fn turn_of(task: &Task, in_set: &[bool], names: &[bool], pack: PackNo) -> Turn
    requires over { IsOver task.now.pool task.now.universe }
    requires held { pack ≤ length task.now.universe.packages }
    requires size { length in_set.now ≡ length task.now.universe.packages + 1 }
    requires names { length names.now ≡ length task.now.pool.names }
    requires named { (n : ℕ) → is_marked names.now n ≡ list_any (comes_named (catalog_of task.now) (is_marked in_set.now) n) (packages (catalog_of task.now)) }
    ensures { result ≡ turn_of (catalog_of task.now) (is_marked in_set.now) pack }
{
    if does_come(task, in_set, pack) {
        return Turn::Early;
    }
    if does_go(task, in_set, names, pack) {
        return Turn::Late;
    }
    Turn::Never
}

/// The turns of all packages, where it is known which names come.
fn turns_by_names(
    alloc: Global,
    task: &Task,
    in_set: &[bool],
    names: &mut [bool],
) -> Result<Vec<Turn>, AllocError>
    requires over { IsOver task.now.pool task.now.universe }
    requires size { length in_set.now ≡ length task.now.universe.packages + 1 }
    requires names { length names.old ≡ length task.now.pool.names }
    requires none { (n : ℕ) → is_marked names.old n ≡ false }
    ensures { IfOk result (λ turns. AreTurns (catalog_of task.now) (is_marked in_set.now) turns.items) }
{
    task.universe.marks_each();
    mark_names(task, in_set, names);
    let mut turns = Vec::new(alloc);
    for pack in 0..task.universe.count() + 1 {
        turns.push(turn_of(task, in_set, names, PackNo(pack)))?;
    }
    Ok(turns)
}

/// The turns of the system and of all packages: what comes is early, and what goes is late.
pub(crate) fn turns_of(alloc: Global, task: &Task, in_set: &[bool]) -> Result<Vec<Turn>, AllocError>
    requires over { IsOver task.now.pool task.now.universe }
    requires size { length in_set.now ≡ length task.now.universe.packages + 1 }
    ensures { IfOk result (λ turns. AreTurns (catalog_of task.now) (is_marked in_set.now) turns.items) }
{
    let mut names = vec![in alloc; false; task.pool.name_count()]?;
    let turns = turns_by_names(alloc, task, in_set, &mut names)?;
    Ok(turns)
}
