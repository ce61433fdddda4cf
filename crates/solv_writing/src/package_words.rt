//! Packages by their texts, and the lines of disabled packages.
ghost use Rattle.std.specs.Prelude.{◌≡◌, ◌++◌, ◌∷◌, ◌+◌, ◌≤◌, [], true, length, map, flat_map, nat_le, OnOk};
ghost use Rattle.std.specs.List.{list_all};
ghost use Rattle.solv_io.specs.Lines.{ended_lines};
ghost use Rattle.solv_pool.specs.Prelude.{IsOver, when};
ghost use Rattle.solv_pool.specs.Inner.Catalog.{alone};
ghost use Rattle.solv_pool.specs.Installable.{is_disabled};
ghost use Rattle.solv_pool.specs.PackageText.{package_text};
ghost use Rattle.solv_writing.specs.Inner.ByIds.{disable_text, disabled_texts};

use solv_base::Pool;
use solv_pool::{PackNo, Universe};
use std::alloc::AllocError;

/// Appends a space and the text of a package.
fn add_package(
    pool: &Pool,
    universe: &Universe,
    pack: PackNo,
    line: &mut Vec<u8>,
) -> Result<(), AllocError>
    requires over { IsOver pool.now universe.now }
    requires there { pack ≤ length universe.now.packages }
    ensures { OnOk result (line.new.items ≡ line.old.items ++ 32 ∷ package_text pool.now universe.now pack) }
{
    line.push(b' ')?;
    universe.package_text(pool, pack, line)
}

/// Appends the texts of packages, with a space before each.
pub(crate) fn add_packages(
    pool: &Pool,
    universe: &Universe,
    packs: &[PackNo],
    line: &mut Vec<u8>,
) -> Result<(), AllocError>
    requires over { IsOver pool.now universe.now }
    requires there { list_all (λ p. nat_le p (length universe.now.packages)) packs.now ≡ true }
    ensures { OnOk result (line.new.items ≡ line.old.items ++ flat_map (λ word. 32 ∷ word) (map (package_text pool.now universe.now) packs.now)) }
{
    for pack in packs {
        add_package(pool, universe, *pack, line)?;
    }
    Ok(())
}

/// Appends the line of a disabled package.
fn put_disabled(
    pool: &Pool,
    universe: &Universe,
    pack: PackNo,
    into: &mut Vec<u8>,
) -> Result<(), AllocError>
    requires over { IsOver pool.now universe.now }
    requires there { pack ≤ length universe.now.packages }
    ensures { OnOk result (into.new.items ≡ into.old.items ++ (disable_text pool.now universe.now pack ++ 10 ∷ [])) }
{
    into.extend_from_slice(b"disable pkg")?;
    add_package(pool, universe, pack, into)?;
    into.push(b'\n')?;
    Ok(())
}

/// Appends the line of a package, where it is disabled.
fn put_if_disabled(
    pool: &Pool,
    universe: &Universe,
    pack: PackNo,
    into: &mut Vec<u8>,
) -> Result<(), AllocError>
    requires over { IsOver pool.now universe.now }
    requires there { pack ≤ length universe.now.packages }
    ensures { OnOk result (into.new.items ≡ into.old.items ++ ended_lines (when (is_disabled (alone pool.now universe.now) pack) (disable_text pool.now universe.now pack ∷ []))) }
{
    if universe.disabled(pack) {
        return put_disabled(pool, universe, pack, into);
    }
    Ok(())
}

/// Appends the lines of all disabled packages.
pub(crate) fn put_disabled_packages(
    pool: &Pool,
    universe: &Universe,
    into: &mut Vec<u8>,
) -> Result<(), AllocError>
    requires { IsOver pool.now universe.now }
    ensures { OnOk result (into.new.items ≡ into.old.items ++ ended_lines (disabled_texts pool.now universe.now 1 universe.now.disabled)) }
{
    universe.marks_each();
    for number in 0..universe.count() {
        put_if_disabled(pool, universe, PackNo(number + 1), into)?;
    }
    Ok(())
}
