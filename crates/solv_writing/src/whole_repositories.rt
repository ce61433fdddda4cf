//! Repositories with their packages.
ghost use Rattle.std.specs.Prelude.{◌≡◌, ◌++◌, ◌∷◌, [], ◌<◌, map, length, slice_get, Some, OnOk};
ghost use Rattle.solv_io.specs.Lines.{ended_lines};
ghost use Rattle.solv_pool.specs.Prelude.{IsOver, written_package, written_repo};
ghost use Rattle.solv_pool.specs.declared.packages.Repo.{Repo};
ghost use Rattle.solv_writing.specs.Inner.PackageLines.{HasNames, HasRelations};
ghost use Rattle.solv_writing.specs.Inner.Spans.{IsSpan};
ghost use Rattle.solv_writing.specs.ScriptTexts.{inlined};
ghost use Rattle.solv_writing.specs.Inner.ScriptParts.{packages_of, repositories_from, repository_lines};
ghost use Rattle.solv_writing.specs.Inner.TagParts.{package_lines, tag_lines};

use crate::line_words::{put_block, put_line};
use crate::package_lines::push_package;
use crate::repositories::package_there;
use crate::repository_heads::repository_head;
use crate::spans::{Span, spans_of};
use solv_base::Pool;
use solv_list::Items;
use solv_pool::{PackageRef, RepoNo, Universe};
use std::alloc::{AllocError, Global};

/// Appends the block of a package.
fn put_package(
    alloc: Global,
    pool: &Pool,
    pack: &PackageRef<'_>,
    into: &mut Vec<u8>,
) -> Result<(), AllocError>
    requires names { HasNames pool.now pack.now }
    requires relations { HasRelations pool.now pack.now }
    ensures { OnOk result (into.new.items ≡ into.old.items ++ ended_lines (inlined (package_lines (written_package pool.now pack.now)))) }
{
    let mut lines = Items::wrap(Vec::new(alloc));
    push_package(alloc, pool, pack, &mut lines)?;
    put_block(into, lines.held())
}

/// Appends the block of a package, where it is of this repository.
fn put_if_own(
    alloc: Global,
    pool: &Pool,
    pack: &PackageRef<'_>,
    repo: RepoNo,
    into: &mut Vec<u8>,
) -> Result<(), AllocError>
    requires names { HasNames pool.now pack.now }
    requires relations { HasRelations pool.now pack.now }
    ensures { OnOk result (into.new.items ≡ into.old.items ++ ended_lines (inlined (tag_lines (packages_of repo (written_package pool.now pack.now ∷ []))))) }
{
    if pack.repo() == repo {
        return put_package(alloc, pool, pack, into);
    }
    Ok(())
}

/// Appends the block of a repository's packages.
fn put_packages(
    alloc: Global,
    pool: &Pool,
    universe: &Universe,
    repo: RepoNo,
    span: Span,
    into: &mut Vec<u8>,
) -> Result<(), AllocError>
    requires over { IsOver pool.now universe.now }
    requires span { IsSpan universe.now.packages (length universe.now.packages) repo span }
    ensures { OnOk result (into.new.items ≡ into.old.items ++ ended_lines (inlined (tag_lines (packages_of repo (map (written_package pool.now) universe.now.packages))))) }
{
    for number in span.first..span.end {
        put_if_own(
            alloc,
            pool,
            &package_there(pool, universe, number),
            repo,
            into,
        )?;
    }
    Ok(())
}

/// Appends the lines of a repository with its packages.
#[tactic(auto, using(crate::proofs::RepositoryLines::name_there))]
fn put_repository(
    alloc: Global,
    pool: &Pool,
    universe: &Universe,
    place: RepoNo,
    span: Span,
    into: &mut Vec<u8>,
) -> Result<(), AllocError>
    requires over { IsOver pool.now universe.now }
    requires there { place < length universe.now.repos }
    requires span { IsSpan universe.now.packages (length universe.now.packages) place span }
    ensures { (r : Repo) → slice_get universe.now.repos place ≡ Some r → OnOk result (into.new.items ≡ into.old.items ++ ended_lines (repository_lines (written_repo pool.now r) (packages_of place (map (written_package pool.now) universe.now.packages)))) }
{
    let head = repository_head(alloc, pool, universe.repo(place), span.end == 0)?;
    put_line(into, &head)?;
    put_packages(alloc, pool, universe, place, span, into)?;
    Ok(())
}

/// Appends the lines of all repositories.
pub(crate) fn put_repositories(
    alloc: Global,
    pool: &Pool,
    universe: &Universe,
    into: &mut Vec<u8>,
) -> Result<(), AllocError>
    requires { IsOver pool.now universe.now }
    ensures { OnOk result (into.new.items ≡ into.old.items ++ ended_lines (repositories_from 0 (map (written_repo pool.now) universe.now.repos) (map (written_package pool.now) universe.now.packages))) }
{
    let spans = spans_of(alloc, universe)?;
    for place in 0..spans.len() {
        put_repository(alloc, pool, universe, RepoNo(place), spans[place], into)?;
    }
    Ok(())
}
