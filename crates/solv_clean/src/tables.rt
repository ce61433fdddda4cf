//! Tables of packages by number.
ghost use Rattle.std.specs.Prelude.{ℕ, ◌≡◌, ◌≤◌, ◌<◌, ◌+◌, ◌||◌, ◌==◌, ◌∷◌, ◌++◌, true, filter, length, replicate, IfOk};
ghost use Rattle.std.specs.List.{range_with_len};
ghost use Rattle.solv_pool.specs.Prelude.{catalog_of, installed_set, is_among};
ghost use Rattle.solv_clean.specs.Inner.Tables.{is_marked, table_of, but_not, root_by, gone_by};

use crate::holding::is_in;
use solv_pool::{PackNo, Task};
use std::alloc::{AllocError, Global};

/// Whether a package is installed. The system counts as installed.
fn is_there(task: &Task, pack: PackNo) -> bool
    requires { pack ≤ length task.now.universe.packages }
    ensures { result ≡ installed_set (catalog_of task.now) pack }
{
    pack.0 == 0 || task.universe.installed(pack)
}

/// A table of the system and the installed packages.
pub(crate) fn installed_table(alloc: Global, task: &Task) -> Result<Vec<bool>, AllocError>
    ensures { IfOk result (λ made. made.items ≡ table_of (length task.now.universe.packages + 1) (installed_set (catalog_of task.now))) }
{
    task.universe.marks_each();
    let count = task.universe.count() + 1;
    let mut made = Vec::new(alloc);
    for number in 0..count {
        made.push(is_there(task, PackNo(number)))?;
    }
    Ok(made)
}

/// Whether a package is in one table and not in another.
fn is_but_not(table: &[bool], other: &[bool], pack: PackNo) -> bool
    ensures { result ≡ but_not table.now other.now pack }
{
    is_in(table, pack) && !is_in(other, pack)
}

/// A table of what is in one table and not in another.
pub(crate) fn table_but_not(
    alloc: Global,
    count: u32,
    table: &[bool],
    other: &[bool],
) -> Result<Vec<bool>, AllocError>
    ensures { IfOk result (λ made. made.items ≡ table_of count (but_not table.now other.now)) }
{
    let mut made = Vec::new(alloc);
    for number in 0..count {
        made.push(is_but_not(table, other, PackNo(number)))?;
    }
    Ok(made)
}

/// Whether a package is left, and was asked for or not touched.
fn is_root(left: &[bool], asked: &[bool], touched: &[bool], pack: PackNo) -> bool
    ensures { result ≡ root_by left.now asked.now touched.now pack }
{
    is_in(left, pack) && (is_in(asked, pack) || !is_in(touched, pack))
}

/// A table of what is left, and was asked for or not touched.
pub(crate) fn root_table(
    alloc: Global,
    count: u32,
    left: &[bool],
    asked: &[bool],
    touched: &[bool],
) -> Result<Vec<bool>, AllocError>
    ensures { IfOk result (λ made. made.items ≡ table_of count (root_by left.now asked.now touched.now)) }
{
    let mut made = Vec::new(alloc);
    for number in 0..count {
        made.push(is_root(left, asked, touched, PackNo(number)))?;
    }
    Ok(made)
}

/// Whether a package is to go.
fn is_gone(erased: &[bool], left: &[bool], touched: &[bool], kept: &[bool], pack: PackNo) -> bool
    ensures { result ≡ gone_by erased.now left.now touched.now kept.now pack }
{
    if is_in(erased, pack) {
        return true;
    }
    pack.0 != 0 && is_in(left, pack) && is_in(touched, pack) && !is_in(kept, pack)
}

/// A table of what goes: what is erased, and what is left and touched and not kept.
pub(crate) fn gone_table(
    alloc: Global,
    count: u32,
    erased: &[bool],
    left: &[bool],
    touched: &[bool],
    kept: &[bool],
) -> Result<Vec<bool>, AllocError>
    ensures { IfOk result (λ made. made.items ≡ table_of count (gone_by erased.now left.now touched.now kept.now)) }
{
    let mut made = Vec::new(alloc);
    for number in 0..count {
        made.push(is_gone(erased, left, touched, kept, PackNo(number)))?;
    }
    Ok(made)
}

/// The packages of a table, ascending: the system is none.
pub(crate) fn packs_in(alloc: Global, count: u32, table: &[bool]) -> Result<Vec<PackNo>, AllocError>
    ensures { IfOk result (λ packs. packs.items ≡ filter (is_marked table.now) (range_with_len 1 count)) }
{
    let mut packs = Vec::new(alloc);
    for before in 0..count {
        let pack = PackNo(before + 1);
        if is_in(table, pack) {
            packs.push(pack)?;
        }
    }
    Ok(packs)
}

/// The system, and then these packages.
pub(crate) fn with_system(alloc: Global, packs: &[PackNo]) -> Result<Vec<PackNo>, AllocError>
    ensures { IfOk result (λ made. made.items ≡ 0 ∷ packs.now) }
{
    let mut made = Vec::new(alloc);
    made.push(PackNo(0))?;
    made.extend_from_slice(packs)?;
    Ok(made)
}

/// Marks a package. One that has no entry is left out.
fn mark(table: &mut [bool], pack: PackNo)
    ensures size { length table.new ≡ length table.old }
    ensures marked { (p : ℕ) → p < length table.old → is_marked table.new p ≡ (is_marked table.old p || (pack == p)) }
{
    let place = pack.0 as usize;
    if place < table.len() {
        table[place] = true;
    }
}

/// Marks packages.
fn mark_all(table: &mut [bool], packs: &[PackNo])
    ensures size { length table.new ≡ length table.old }
    ensures marked { (p : ℕ) → p < length table.old → is_marked table.new p ≡ (is_marked table.old p || is_among packs.now p) }
{
    for pack in packs {
        mark(table, *pack);
    }
}

/// A table of the packages among these, with so many entries.
pub(crate) fn table_among(
    alloc: Global,
    count: u32,
    packs: &[PackNo],
) -> Result<Vec<bool>, AllocError>
    ensures size { IfOk result (λ table. length table.items ≡ count) }
    ensures each { IfOk result (λ table. (p : ℕ) → p < count → is_marked table.items p ≡ is_among packs.now p) }
{
    let mut table = vec![in alloc; false; count as usize]?;
    mark_all(&mut table, packs);
    Ok(table)
}

/// A table of a set, and after it of so many relations, which are all in it.
pub(crate) fn table_with_relations(
    alloc: Global,
    in_set: &[bool],
    relations: usize,
) -> Result<Vec<bool>, AllocError>
    ensures { IfOk result (λ table. table.items ≡ in_set.now ++ replicate relations true) }
{
    let mut table = Vec::from_slice(alloc, in_set)?;
    for _made in 0..relations {
        table.push(true)?;
    }
    Ok(table)
}
