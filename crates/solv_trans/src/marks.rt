//! Tables of packages by number.
ghost use Rattle.std.specs.Prelude.{ℕ, ◌≡◌, ◌<◌, ◌+◌, ◌||◌, ◌==◌, length, IfOk};
ghost use Rattle.solv_pool.specs.Prelude.{is_among};
ghost use Rattle.solv_trans.specs.Effects.{is_brought};
ghost use Rattle.solv_trans.specs.Inner.Effects.{brings};
ghost use Rattle.solv_trans.specs.Inner.Joining.{is_marked};

use crate::kinds::Change;
use solv_pool::PackNo;
use std::alloc::{AllocError, Global};

/// Marks a package. One that has no entry is left out.
fn mark(table: &mut [bool], pack: PackNo)
    ensures { (p : ℕ) → p < length table.old → is_marked table.new p ≡ (is_marked table.old p || (pack == p)) }
{
    let place = pack.0 as usize;
    if place < table.len() {
        table[place] = true;
    }
}

/// Marks packages.
fn mark_all(table: &mut [bool], packs: &[PackNo])
    ensures { (p : ℕ) → p < length table.old → is_marked table.new p ≡ (is_marked table.old p || is_among packs.now p) }
{
    for pack in packs {
        mark(table, *pack);
    }
}

/// A table of the packages among these, up to a number.
pub(crate) fn marks_of(alloc: Global, count: u32, packs: &[PackNo]) -> Result<Vec<bool>, AllocError>
    ensures size { IfOk result (λ table. length table.items ≡ count + 1) }
    ensures each { IfOk result (λ table. (p : ℕ) → p < count + 1 → is_marked table.items p ≡ is_among packs.now p) }
{
    let mut table = vec![in alloc; false; count as usize + 1]?;
    mark_all(&mut table, packs);
    Ok(table)
}

/// Marks the package that a change brings, if it brings one.
fn mark_brought(table: &mut [bool], change: Change)
    ensures { (p : ℕ) → p < length table.old → is_marked table.new p ≡ (is_marked table.old p || brings p change) }
{
    match change {
        Change::Install(pack)
        | Change::Upgrade(_, pack)
        | Change::Downgrade(_, pack)
        | Change::Alter(_, pack)
        | Change::Reinstall(_, pack) => mark(table, pack),
        Change::Erase(_) | Change::Obsolete(_, _) => {}
    }
}

/// Marks the packages that changes bring.
fn mark_all_brought(table: &mut [bool], changes: &[Change])
    ensures { (p : ℕ) → p < length table.old → is_marked table.new p ≡ (is_marked table.old p || is_brought changes.now p) }
{
    for change in changes {
        mark_brought(table, *change);
    }
}

/// Which packages up to a number changes bring.
pub(crate) fn brought_by(
    alloc: Global,
    count: u32,
    changes: &[Change],
) -> Result<Vec<bool>, AllocError>
    ensures size { IfOk result (λ table. length table.items ≡ count + 1) }
    ensures each { IfOk result (λ table. (p : ℕ) → p < count + 1 → is_marked table.items p ≡ is_brought changes.now p) }
{
    let mut table = vec![in alloc; false; count as usize + 1]?;
    mark_all_brought(&mut table, changes);
    Ok(table)
}
