//! The first items of a list, copied into a caller's room.
ghost use Rattle.std.specs.Prelude.{◌≡◌, length, map};
ghost use Rattle.solv_solved.specs.Fillings.{change_row, filled};

use crate::pack_change::PackChange;
use solv_pool::PackNo;
use solv_trans::Change;

/// Copies the first items, as many as there is room for.
pub fn fill<T: Copy>(into: &mut [T], items: &[T])
    ensures { into.new ≡ filled items.now into.old }
{
    let count = items.len().min(into.len());
    into[..count].copy_from_slice(&items[..count]);
}

/// Writes the numbers of packages.
fn write_packs(into: &mut [u32], packs: &[PackNo])
    requires { length into.old ≡ length packs.now }
    ensures { into.new ≡ packs.now }
{
    for (place, pack) in packs.iter().enumerate() {
        into[place] = pack.0;
    }
}

/// Copies the numbers of the first packages, as many as there is room for.
pub fn fill_packs(into: &mut [u32], packs: &[PackNo])
    ensures { into.new ≡ filled packs.now into.old }
{
    let count = packs.len().min(into.len());
    write_packs(&mut into[..count], &packs[..count]);
}

/// A change, as C lays it out.
fn change_row(change: &Change) -> PackChange
    ensures { result ≡ change_row change.now }
{
    let (kind, pack, by) = match *change {
        Change::Install(pack) => (0, pack, PackNo(0)),
        Change::Erase(pack) => (1, pack, PackNo(0)),
        Change::Upgrade(pack, by) => (2, pack, by),
        Change::Downgrade(pack, by) => (3, pack, by),
        Change::Alter(pack, by) => (4, pack, by),
        Change::Reinstall(pack, by) => (5, pack, by),
        Change::Obsolete(pack, by) => (6, pack, by),
    };
    PackChange {
        kind,
        pack: pack.0,
        by: by.0,
    }
}

/// Writes changes, as C lays them out.
fn write_changes(into: &mut [PackChange], changes: &[Change])
    requires { length into.old ≡ length changes.now }
    ensures { into.new ≡ map change_row changes.now }
{
    for (place, change) in changes.iter().enumerate() {
        into[place] = change_row(change);
    }
}

/// Copies the first changes, as many as there is room for.
pub fn fill_changes(into: &mut [PackChange], changes: &[Change])
    ensures { into.new ≡ filled (map change_row changes.now) into.old }
{
    let count = changes.len().min(into.len());
    write_changes(&mut into[..count], &changes[..count]);
}
