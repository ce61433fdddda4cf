//! Packages by their places, with all their lists one after another.
ghost use Rattle.std.specs.Prelude.{◌≡◌, ◌<◌, ◌≤◌, ◌+◌, ◌*◌, ◌++◌, ◌∷◌, [], length, take, map, slice_get, Some, OnOk, OnErr};
ghost use Rattle.solv_list.specs.Inner.Layout.{row_at};
ghost use Rattle.solv_pool.specs.Inner.Stored.{head_of, with_lists, relation_rows, kinds};

use crate::numbers::RepoNo;
use crate::packages::{Need, Package};
use solv_base::{DepId, NameId};
use solv_list::Rows;
use std::alloc::{AllocError, Global};
use std::marker::Model;

/// What a package has one of.
#[derive(Clone, Copy)]
pub(crate) struct Head {
    name: NameId,
    evr: NameId,
    arch: NameId,
    vendor: Option<NameId>,
    repo: RepoNo,
}

/// The lists of all packages. A package has a row of needs, a row of files, and a row of relations for each kind.
pub(crate) struct Lists {
    relations: Rows<DepId>,
    needs: Rows<Need>,
    files: Rows<NameId>,
}

impl Drop for Lists {
    fn drop(self) {
        let Lists {
            relations: _,
            needs: _,
            files: _,
        } = self;
    }
}

/// How many kinds of relations there are, and the place of each among the rows of a package.
const KINDS: usize = 7;

const PROVIDES: usize = 0;

const CONFLICTS: usize = 1;

const OBSOLETES: usize = 2;

const RECOMMENDS: usize = 3;

const SUGGESTS: usize = 4;

const SUPPLEMENTS: usize = 5;

const ENHANCES: usize = 6;

/// Appends the head of a package. On a refusal all is as before.
fn push_head(heads: &mut Vec<Head>, added: &Package) -> Result<(), AllocError>
    ensures ok { OnOk result (heads.new.items ≡ heads.old.items ++ head_of added.now ∷ []) }
    ensures err { OnErr result (heads.new.items ≡ heads.old.items) }
{
    heads.push(Head {
        name: added.name,
        evr: added.evr,
        arch: added.arch,
        vendor: added.vendor,
        repo: added.repo,
    })?;
    Ok(())
}

/// Appends rows of relations. On a refusal all is as before.
fn push_rows(relations: &mut Rows<DepId>, rows: &[&[DepId]]) -> Result<(), AllocError>
    ensures ok { OnOk result (relations.new ≡ relations.old ++ map (λ row. row.now) rows.now) }
    ensures err { OnErr result (relations.new ≡ relations.old) }
{
    let before = relations.len();
    for row in rows {
        if relations.push(row).is_err() {
            relations.cut(before);
            return Err(AllocError);
        }
    }
    Ok(())
}

/// Appends the relations of a package, kind by kind. On a refusal all is as before.
fn push_relations(relations: &mut Rows<DepId>, added: &Package) -> Result<(), AllocError>
    ensures ok { OnOk result (relations.new ≡ relations.old ++ relation_rows added.now) }
    ensures err { OnErr result (relations.new ≡ relations.old) }
{
    let rows = [
        added.provides.held(),
        added.conflicts.held(),
        added.obsoletes.held(),
        added.recommends.held(),
        added.suggests.held(),
        added.supplements.held(),
        added.enhances.held(),
    ];
    push_rows(relations, &rows)
}

/// Appends the lists of a package. On a refusal all is as before.
fn push_lists(lists: &mut Lists, added: &Package) -> Result<(), AllocError>
    ensures ok { OnOk result (lists.new ≡ with_lists lists.old added.now) }
    ensures err { OnErr result (lists.new ≡ lists.old) }
{
    let relations = lists.relations.len();
    let needs = lists.needs.len();
    push_relations(&mut lists.relations, added)?;
    if lists.needs.push(added.requires_.held()).is_err() {
        lists.relations.cut(relations);
        return Err(AllocError);
    }
    if lists.files.push(added.files.held()).is_err() {
        lists.relations.cut(relations);
        lists.needs.cut(needs);
        return Err(AllocError);
    }
    Ok(())
}

/// A package's relations of one kind.
fn relations_at(lists: &Lists, place: u32, kind: usize) -> &[DepId]
    requires { kind < kinds }
    ensures { result.now ≡ row_at lists.now.relations (place * kinds + kind) }
{
    lists.relations.row(place as usize * KINDS + kind)
}

/// Packages by their places. Contracts see the list of their records.
pub(crate) struct PackageList {
    heads: Vec<Head>,
    lists: Lists,
}

impl Drop for PackageList {
    fn drop(self) {
        let PackageList { heads: _, lists: _ } = self;
    }
}

impl Model for PackageList {
    ghost use Rattle.std.specs.Prelude.{List, length};
    ghost use Rattle.solv_pool.specs.declared.packages.Package.{Package};
    ghost use Rattle.solv_pool.specs.Inner.Stored.{packages_from, AreOfAll};

    ghost Value = { List Package };

    ghost view = { λ p. packages_from p.lists 0 p.heads.items };

    ghost invariant = { λ p. AreOfAll (length p.heads.items) p.lists };
}

impl PackageList {
    /// No packages. It takes no memory.
    pub(crate) fn new(alloc: Global) -> PackageList
        ensures { result ≡ [] }
    {
        PackageList {
            heads: Vec::new(alloc),
            lists: Lists {
                relations: Rows::new(alloc),
                needs: Rows::new(alloc),
                files: Rows::new(alloc),
            },
        }
    }

    /// How many packages there are.
    pub(crate) fn len(&self) -> usize
        ensures { result ≡ length self.now }
    {
        self.heads.len()
    }

    /// Appends a copy of a package. On a refusal all is as before.
    pub(crate) fn push(&mut self, added: &Package) -> Result<(), AllocError>
        ensures ok { OnOk result (self.new ≡ self.old ++ added.now ∷ []) }
        ensures err { OnErr result (self.new ≡ self.old) }
    {
        let count = self.heads.len();
        push_head(&mut self.heads, added)?;
        if push_lists(&mut self.lists, added).is_err() {
            self.heads.truncate(count);
            return Err(AllocError);
        }
        Ok(())
    }

    /// Keeps the first so many packages. It takes no memory.
    pub(crate) fn cut(&mut self, count: u32)
        requires { count ≤ length self.old }
        ensures { self.new ≡ take count self.old }
    {
        let count = count as usize;
        self.heads.truncate(count);
        self.lists.relations.cut(count * KINDS);
        self.lists.needs.cut(count);
        self.lists.files.cut(count);
    }

    /// The package at a place.
    pub(crate) fn package(&self, place: u32) -> PackageRef<'_>
        requires { place < length self.now }
        ensures { slice_get self.now place ≡ Some result }
    {
        PackageRef {
            head: &self.heads[place as usize],
            lists: &self.lists,
            place,
        }
    }
}

/// A package of a universe. Contracts see its record; its lists are lent by the universe.
#[derive(Drop)]
pub struct PackageRef<'a> {
    head: &'a Head,
    lists: &'a Lists,
    place: u32,
}

impl<'a> Model for PackageRef<'a> {
    ghost use Rattle.solv_pool.specs.declared.packages.Package.{Package};
    ghost use Rattle.solv_pool.specs.Inner.Stored.{package_of};

    ghost Value = { Package };

    ghost view = { λ p. package_of p.lists.now p.place p.head.now };
}

impl<'a> PackageRef<'a> {
    /// Its name.
    pub fn name(&self) -> NameId
        ensures { result ≡ self.now.name }
    {
        self.head.name
    }

    /// `[epoch:]version[-release]`
    pub fn evr(&self) -> NameId
        ensures { result ≡ self.now.evr }
    {
        self.head.evr
    }

    /// Its architecture.
    pub fn arch(&self) -> NameId
        ensures { result ≡ self.now.arch }
    {
        self.head.arch
    }

    /// Its vendor, where it has one.
    pub fn vendor(&self) -> Option<NameId>
        ensures { result ≡ self.now.vendor }
    {
        self.head.vendor
    }

    /// Its repository.
    pub fn repo(&self) -> RepoNo
        ensures { result ≡ self.now.repo }
    {
        self.head.repo
    }

    /// Besides its name at its EVR, which every package provides.
    pub fn provides(&self) -> &'a [DepId]
        ensures { result.now ≡ self.now.provides }
    {
        relations_at(self.lists, self.place, PROVIDES)
    }

    /// Its requirements.
    pub fn requires_(&self) -> &'a [Need]
        ensures { result.now ≡ self.now.requires_ }
    {
        self.lists.needs.row(self.place as usize)
    }

    /// Its conflicts.
    pub fn conflicts(&self) -> &'a [DepId]
        ensures { result.now ≡ self.now.conflicts }
    {
        relations_at(self.lists, self.place, CONFLICTS)
    }

    /// Its obsoletions.
    pub fn obsoletes(&self) -> &'a [DepId]
        ensures { result.now ≡ self.now.obsoletes }
    {
        relations_at(self.lists, self.place, OBSOLETES)
    }

    /// Its recommendations.
    pub fn recommends(&self) -> &'a [DepId]
        ensures { result.now ≡ self.now.recommends }
    {
        relations_at(self.lists, self.place, RECOMMENDS)
    }

    /// Read and kept; it asks nothing.
    pub fn suggests(&self) -> &'a [DepId]
        ensures { result.now ≡ self.now.suggests }
    {
        relations_at(self.lists, self.place, SUGGESTS)
    }

    /// Its supplements.
    pub fn supplements(&self) -> &'a [DepId]
        ensures { result.now ≡ self.now.supplements }
    {
        relations_at(self.lists, self.place, SUPPLEMENTS)
    }

    /// Read and kept; it asks nothing.
    pub fn enhances(&self) -> &'a [DepId]
        ensures { result.now ≡ self.now.enhances }
    {
        relations_at(self.lists, self.place, ENHANCES)
    }

    /// Paths, each of which the package provides as a name.
    pub fn files(&self) -> &'a [NameId]
        ensures { result.now ≡ self.now.files }
    {
        self.lists.files.row(self.place as usize)
    }
}
