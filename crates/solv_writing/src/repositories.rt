//! Repositories as lines.
ghost use Rattle.std.specs.Prelude.{◌≡◌, ◌++◌, ◌∷◌, ◌<◌, [], map, length, IfOk, OnOk, Some, slice_get, ◌==◌};
ghost use Rattle.solv_pool.specs.Prelude.{IsOver, written_package};
ghost use Rattle.solv_writing.specs.Inner.TagParts.{tag_lines};
ghost use Rattle.solv_writing.specs.Inner.ScriptParts.{packages_of};
ghost use Rattle.solv_writing.specs.Inner.PackageLines.{HasNames, HasRelations};

use crate::package_lines::push_package;
use solv_base::Pool;
use solv_list::{Bytes, Items};
use solv_pool::{PackNo, PackageRef, RepoNo, Universe};
use std::alloc::{AllocError, Global};

/// Appends the lines of a package, where it is of this repository.
fn push_if_own(
    alloc: Global,
    pool: &Pool,
    pack: &PackageRef<'_>,
    repo: RepoNo,
    lines: &mut Items<Bytes>,
) -> Result<(), AllocError>
    requires names { HasNames pool.now pack.now }
    requires relations { HasRelations pool.now pack.now }
    ensures { OnOk result (lines.new ≡ lines.old ++ tag_lines (packages_of repo (written_package pool.now pack.now ∷ []))) }
{
    if pack.repo() == repo {
        return push_package(alloc, pool, pack, lines);
    }
    Ok(())
}

/// The package of a number.
#[tactic(auto, using(crate::proofs::PackageById::names_there, crate::proofs::PackageById::relations_there))]
pub(crate) fn package_there<'a>(pool: &Pool, universe: &'a Universe, number: u32) -> PackageRef<'a>
    requires over { IsOver pool.now universe.now }
    requires there { number < length universe.now.packages }
    ensures is { slice_get universe.now.packages number ≡ Some result }
    ensures names { HasNames pool.now result }
    ensures relations { HasRelations pool.now result }
{
    let _count = universe.count();
    universe.package(PackNo(number + 1))
}

/// The testtags lines of a repository's packages.
pub fn write_testtags(
    alloc: Global,
    pool: &Pool,
    universe: &Universe,
    repo: RepoNo,
) -> Result<Items<Bytes>, AllocError>
    requires { IsOver pool.now universe.now }
    ensures { IfOk result (λ lines. lines ≡ tag_lines (packages_of repo (map (written_package pool.now) universe.now.packages))) }
{
    let mut lines = Items::wrap(Vec::new(alloc));
    for number in 0..universe.count() {
        push_if_own(
            alloc,
            pool,
            &package_there(pool, universe, number),
            repo,
            &mut lines,
        )?;
    }
    Ok(lines)
}
