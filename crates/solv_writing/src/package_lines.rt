//! Packages as lines.
ghost use Rattle.std.specs.Prelude.{◌≡◌, ◌++◌, ◌∷◌, [], true, length, nat_lt, codes, map, option_to_list, OnOk};
ghost use Rattle.std.specs.List.{list_all};
ghost use Rattle.solv_base.specs.Pool.{text_at};
ghost use Rattle.solv_pool.specs.Prelude.{written_package};
ghost use Rattle.solv_writing.specs.Inner.PackageLines.{HasNames, HasRelations, strong_lines, weak_lines};
ghost use Rattle.solv_writing.specs.Inner.TagParts.{tag_line, package_lines, entry_line};
ghost use Rattle.solv_writing.specs.Inner.LineNames.{package_entry};

use crate::entry_lines::{heading, push_deps, push_names, push_needs, push_text};
use crate::evr::append_evr;
use solv_base::{NameId, Pool};
use solv_list::{Bytes, Items};
use solv_pool::PackageRef;
use std::alloc::{AllocError, Global};

/// Appends `name version release arch`.
fn append_words(pool: &Pool, pack: &PackageRef<'_>, line: &mut Vec<u8>) -> Result<(), AllocError>
    requires { HasNames pool.now pack.now }
    ensures { OnOk result (line.new.items ≡ line.old.items ++ (package_entry (written_package pool.now pack.now)).text) }
{
    line.extend_from_slice(pool.name(pack.name()))?;
    append_evr(line, pool.name(pack.evr()))?;
    line.push(b' ')?;
    line.extend_from_slice(pool.name(pack.arch()))?;
    Ok(())
}

/// Appends the line that begins a package.
fn push_first(
    alloc: Global,
    pool: &Pool,
    pack: &PackageRef<'_>,
    lines: &mut Items<Bytes>,
) -> Result<(), AllocError>
    requires { HasNames pool.now pack.now }
    ensures { OnOk result (lines.new ≡ lines.old ++ entry_line (package_entry (written_package pool.now pack.now)) ∷ []) }
{
    let mut line = heading(alloc, b"Pkg")?;
    append_words(pool, pack, &mut line)?;
    lines.push(Bytes::wrap(line))
}

/// Appends the line of a vendor, if there is one.
fn push_vendor(
    alloc: Global,
    pool: &Pool,
    vendor: Option<NameId>,
    lines: &mut Items<Bytes>,
) -> Result<(), AllocError>
    requires { list_all (λ n. nat_lt n (length pool.now.names)) (option_to_list vendor) ≡ true }
    ensures { OnOk result (lines.new ≡ lines.old ++ map (λ n. tag_line (codes "Vnd") (text_at pool.now n)) (option_to_list vendor)) }
{
    match vendor {
        Some(name) => push_text(alloc, b"Vnd", pool.name(name), lines),
        None => Ok(()),
    }
}

/// Appends the lines of what a package provides, requires, excludes and replaces.
fn push_strong(
    alloc: Global,
    pool: &Pool,
    pack: &PackageRef<'_>,
    lines: &mut Items<Bytes>,
) -> Result<(), AllocError>
    requires { HasRelations pool.now pack.now }
    ensures { OnOk result (lines.new ≡ lines.old ++ strong_lines pool.now pack.now) }
{
    push_deps(alloc, pool, b"Prv", pack.provides(), lines)?;
    push_needs(alloc, pool, pack.requires_(), lines)?;
    push_deps(alloc, pool, b"Con", pack.conflicts(), lines)?;
    push_deps(alloc, pool, b"Obs", pack.obsoletes(), lines)?;
    Ok(())
}

/// Appends the lines of what it recommends, suggests, supplements and enhances.
fn push_weak(
    alloc: Global,
    pool: &Pool,
    pack: &PackageRef<'_>,
    lines: &mut Items<Bytes>,
) -> Result<(), AllocError>
    requires { HasRelations pool.now pack.now }
    ensures { OnOk result (lines.new ≡ lines.old ++ weak_lines pool.now pack.now) }
{
    push_deps(alloc, pool, b"Rec", pack.recommends(), lines)?;
    push_deps(alloc, pool, b"Sug", pack.suggests(), lines)?;
    push_deps(alloc, pool, b"Sup", pack.supplements(), lines)?;
    push_deps(alloc, pool, b"Enh", pack.enhances(), lines)?;
    Ok(())
}

/// Appends the lines of a package.
pub(crate) fn push_package(
    alloc: Global,
    pool: &Pool,
    pack: &PackageRef<'_>,
    lines: &mut Items<Bytes>,
) -> Result<(), AllocError>
    requires names { HasNames pool.now pack.now }
    requires relations { HasRelations pool.now pack.now }
    ensures { OnOk result (lines.new ≡ lines.old ++ package_lines (written_package pool.now pack.now)) }
{
    push_first(alloc, pool, pack, lines)?;
    push_vendor(alloc, pool, pack.vendor(), lines)?;
    push_strong(alloc, pool, pack, lines)?;
    push_weak(alloc, pool, pack, lines)?;
    push_names(alloc, pool, b"Fls", pack.files(), lines)?;
    Ok(())
}
