//! Package lines.
ghost use Rattle.std.specs.Prelude.{◌≡◌, ◌∷◌, [], length, IfSome, IfNone, OnOk, IfOk};
ghost use Rattle.solv_io.specs.Words.{words_of};
ghost use Rattle.solv_tags.specs.Entries.{evr_text};
ghost use Rattle.solv_tags.specs.Inner.TagReading.{package_of};

use solv_base::NameId;
use solv_io::split_word;
use solv_list::Items;
use solv_pool::{Package, RepoNo};
use std::alloc::{AllocError, Global};

/// The ids of a package's own texts.
#[derive(Clone, Copy)]
pub(crate) struct PackageIds {
    pub(crate) name: NameId,
    pub(crate) evr: NameId,
    pub(crate) arch: NameId,
}

/// Four words.
pub(crate) type Four<'a> = (&'a [u8], &'a [u8], &'a [u8], &'a [u8]);

/// The words of a line that has exactly four.
pub(crate) fn four_words(line: &[u8]) -> Option<Four<'_>>
    ensures words { IfSome result (λ w. words_of line.now ≡ w.0.now ∷ w.1.now ∷ w.2.now ∷ w.3.now ∷ []) }
    ensures others { IfNone result (length (words_of line.now) ≡ 4 → ⊥) }
{
    let (first, line) = split_word(line)?;
    let (second, line) = split_word(line)?;
    let (third, line) = split_word(line)?;
    let (fourth, line) = split_word(line)?;
    match split_word(line) {
        None => Some((first, second, third, fourth)),
        Some(_) => None,
    }
}

/// Writes `version-release`, or `version` where the release is `-`.
pub(crate) fn write_evr(
    into: &mut Vec<u8>,
    version: &[u8],
    release: &[u8],
) -> Result<(), AllocError>
    ensures { OnOk result (into.new.items ≡ evr_text version.now release.now) }
{
    into.clear();
    into.extend_from_slice(version)?;
    if release == b"-".as_slice() {
        return Ok(());
    }
    into.extend_from_slice(b"-")?;
    into.extend_from_slice(release)
}

/// A package without a vendor, dependencies or files.
pub(crate) fn package_with(alloc: Global, repo: RepoNo, ids: PackageIds) -> Package
    ensures { result ≡ package_of repo ids }
{
    Package {
        name: ids.name,
        evr: ids.evr,
        arch: ids.arch,
        vendor: None,
        repo,
        provides: Items::wrap(Vec::new(alloc)),
        requires_: Items::wrap(Vec::new(alloc)),
        conflicts: Items::wrap(Vec::new(alloc)),
        obsoletes: Items::wrap(Vec::new(alloc)),
        recommends: Items::wrap(Vec::new(alloc)),
        suggests: Items::wrap(Vec::new(alloc)),
        supplements: Items::wrap(Vec::new(alloc)),
        enhances: Items::wrap(Vec::new(alloc)),
        files: Items::wrap(Vec::new(alloc)),
    }
}

/// Empties a list. It keeps its room.
fn empty<T: Drop>(alloc: Global, list: &mut Items<T>)
    ensures { list.new ≡ [] }
{
    let mut items = std::mem::replace(list, Items::wrap(Vec::new(alloc))).into_vec();
    items.clear();
    *list = Items::wrap(items);
}

/// Makes a package one of these ids without a vendor, dependencies or files. Its lists keep their room.
pub(crate) fn refill(alloc: Global, held: &mut Package, repo: RepoNo, ids: PackageIds)
    ensures { held.new ≡ package_of repo ids }
{
    held.name = ids.name;
    held.evr = ids.evr;
    held.arch = ids.arch;
    held.vendor = None;
    held.repo = repo;
    empty(alloc, &mut held.provides);
    empty(alloc, &mut held.requires_);
    empty(alloc, &mut held.conflicts);
    empty(alloc, &mut held.obsoletes);
    empty(alloc, &mut held.recommends);
    empty(alloc, &mut held.suggests);
    empty(alloc, &mut held.supplements);
    empty(alloc, &mut held.enhances);
    empty(alloc, &mut held.files);
}
