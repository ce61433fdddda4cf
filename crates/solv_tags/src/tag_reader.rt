//! The reader of testtags lines.
ghost use Rattle.std.specs.Prelude.{◌≡◌, ◌∷◌, [], ◌≤◌, ◌&&◌, length, option_to_list, Some, None, IfSome, IfErr, OnOk, OnErr};
ghost use Rattle.solv_base.specs.Pool.{Held, Grows};
ghost use Rattle.std.specs.Option.{option_map};
ghost use Rattle.std.specs.Str.{bytes_eq};
ghost use Rattle.solv_pool.specs.Prelude.{written_package};
ghost use Rattle.solv_deps.specs.Inner.Recent.{AreRead};
ghost use Rattle.solv_tags.specs.Entries.{evr_text};
ghost use Rattle.solv_tags.specs.Inner.Tags.{closing_sign, tag};
ghost use Rattle.solv_tags.specs.Headings.{is_heading, letters};
ghost use Rattle.solv_io.specs.Words.{words_of};
ghost use Rattle.solv_tags.specs.Inner.RepositoryReading.{IsTagRefusal, HasOneForm};
ghost use Rattle.solv_tags.specs.Inner.TagReading.{IsCause, IsReading, IsRead, IsHand, HasReadHand, HasEndedHand, IsEnded, HasMore, AreHandTails, package_of, with_packages, tagged_of};
ghost use Rattle.solv_tags.specs.Inner.Lines.{begun, package_entry, entry, entry_of_hand, entry_if_tag, opens_block, outside_block, inside_block, line_read, end_read};

use crate::hand::{enter_package, take_entry};
use crate::headings::{after_heading, is_heading, letters, tag_of, trimmed};
use crate::package_words::{PackageIds, four_words, package_with, refill, write_evr};
use crate::tag::Tag;
use crate::tag_fault::{TagCause, TagFault};
use crate::tails::Tails;
use solv_base::Pool;
use solv_deps::Recent;
use solv_pool::{Package, RepoNo, Universe};
use std::alloc::Global;

/// The most packages besides the system.
const MOST_PACKAGES: u32 = 1_048_575;

/// What the lines of a repository so far gave, besides what the pool and the universe hold. The packages before the one in
/// hand stand in the universe.
#[derive(Drop)]
pub struct TagReader {
    pub(crate) repo: RepoNo,
    /// How many packages stand before the repository's.
    pub(crate) before: u32,
    /// The package that entries belong to.
    pub(crate) hand: Option<Package>,
    /// The letters of the block that is open.
    pub(crate) block: Option<[u8; 3]>,
    /// The EVR of the package line that is read.
    pub(crate) evr: Vec<u8>,
    /// The dependencies that were read recently.
    pub(crate) recent: Recent,
    /// What is known of the lists of the package in hand.
    pub(crate) tails: Tails,
}

/// Why a block of what may be a tag may not open, if so.
fn blocked(hand: &Option<Package>, tag: Option<Tag>) -> Option<TagCause>
    ensures cause { (pool : Held) → result ≡ opens_block (option_map (written_package pool) hand.now) tag }
    ensures form { IfSome result HasOneForm }
{
    match tag {
        None => None,
        Some(Tag::Pkg) => None,
        Some(_) => match hand {
            None => Some(TagCause::TagBeforePackage),
            Some(_) => None,
        },
    }
}

/// Whether a line closes a block of these letters.
fn closes(name: &[u8], line: &[u8]) -> bool
    ensures { result ≡ (is_heading closing_sign line.now && bytes_eq (letters line.now) name.now) }
{
    is_heading(b'-', line) && &line[1..4] == name
}

/// How many packages are in hand.
fn in_hand(hand: &Option<Package>) -> u32
    ensures count { result ≡ length (option_to_list hand.now) }
    ensures one { result ≤ 1 }
{
    match hand {
        None => 0,
        Some(_) => 1,
    }
}

/// Appends a package that is finished.
fn put_behind(universe: &mut Universe, finished: Option<Package>) -> Result<(), TagCause>
    ensures ok { OnOk result (universe.new ≡ with_packages universe.old (option_to_list finished)) }
    ensures refused { OnErr result (universe.new ≡ universe.old) }
    ensures cause { IfErr result (λ c. c ≡ TagCause.Memory) }
{
    match finished {
        None => Ok(()),
        Some(package) => match universe.add_package(package) {
            Ok(_) => Ok(()),
            Err(_) => Err(TagCause::Memory),
        },
    }
}

/// Appends the package in hand, and makes it one with these ids.
fn turn_over(
    alloc: Global,
    universe: &mut Universe,
    hand: &mut Package,
    repo: RepoNo,
    ids: PackageIds,
) -> Result<(), TagCause>
    ensures hand { OnOk result (hand.new ≡ package_of repo ids) }
    ensures ok { OnOk result (universe.new ≡ with_packages universe.old (hand.old ∷ [])) }
    ensures refused { OnErr result (universe.new ≡ universe.old) }
    ensures cause { IfErr result (λ c. c ≡ TagCause.Memory) }
{
    if universe.copy_package(hand).is_err() {
        return Err(TagCause::Memory);
    }
    refill(alloc, hand, repo, ids);
    Ok(())
}

/// Appends the package in hand, if there is one, and takes one with these ids.
fn take_next(
    alloc: Global,
    universe: &mut Universe,
    hand: &mut Option<Package>,
    repo: RepoNo,
    ids: PackageIds,
) -> Result<(), TagCause>
    ensures hand { OnOk result (hand.new ≡ Some (package_of repo ids)) }
    ensures ok { OnOk result (universe.new ≡ with_packages universe.old (option_to_list hand.old)) }
    ensures refused { OnErr result (universe.new ≡ universe.old) }
    ensures cause { IfErr result (λ c. c ≡ TagCause.Memory) }
{
    match hand {
        None => {}
        Some(held) => return turn_over(alloc, universe, held, repo, ids),
    }
    *hand = Some(package_with(alloc, repo, ids));
    Ok(())
}

impl TagReader {
    /// Before the first line of so many bytes.
    pub fn new(alloc: Global, repo: RepoNo, before: u32, bytes: usize) -> TagReader
        ensures repo { result.repo ≡ repo }
        ensures before { result.before ≡ before }
        ensures hand { result.hand ≡ None }
        ensures block { result.block ≡ None }
        ensures recent { (pool : Held) → AreRead pool result.recent }
    {
        TagReader {
            repo,
            before,
            hand: None,
            block: None,
            evr: Vec::new(alloc),
            recent: Recent::new(alloc, bytes),
            tails: Tails::new(alloc),
        }
    }

    /// Takes a package with these ids, and appends the one in hand.
    fn hold(
        &mut self,
        alloc: Global,
        universe: &mut Universe,
        ids: PackageIds,
    ) -> Result<(), TagCause>
        ensures reader { OnOk result (self.new ≡ record self.old { hand = Some (package_of self.old.repo ids) }) }
        ensures ok { OnOk result (universe.new ≡ with_packages universe.old (option_to_list self.old.hand)) }
        ensures refused { OnErr result (universe.new ≡ universe.old) }
        ensures cause { IfErr result (λ c. c ≡ TagCause.Memory) }
    {
        take_next(alloc, universe, &mut self.hand, self.repo, ids)
    }

    /// Begins a package.
    fn begin(
        &mut self,
        pool: &mut Pool,
        universe: &mut Universe,
        name: &[u8],
        version: &[u8],
        release: &[u8],
        arch: &[u8],
    ) -> Result<(), TagCause>
        requires { IsReading self.old pool.old universe.old }
        ensures ok { OnOk result (IsRead self.old self.new pool.new universe.new (begun (tagged_of self.old pool.old universe.old) name.now (evr_text version.now release.now) arch.now)) }
        ensures refused { IfErr result (λ c. IsCause c (begun (tagged_of self.old pool.old universe.old) name.now (evr_text version.now release.now) arch.now)) }
        ensures form { IfErr result HasOneForm }
        ensures more { HasMore universe.old universe.new }
        ensures grows { Grows pool.old pool.new }
    {
        universe.marks_each();
        Universe::stays_over();
        if universe.count() + in_hand(&self.hand) >= MOST_PACKAGES {
            return Err(TagCause::TooManyPackages);
        }
        match write_evr(&mut self.evr, version, release) {
            Ok(()) => {}
            Err(_) => return Err(TagCause::Memory),
        }
        let ids = match enter_package(pool, name, &self.evr, arch) {
            Ok(ids) => ids,
            Err(cause) => return Err(cause),
        };
        self.hold(pool.alloc(), universe, ids)
    }

    /// Reads the words of a package.
    fn package_entry(
        &mut self,
        pool: &mut Pool,
        universe: &mut Universe,
        text: &[u8],
    ) -> Result<(), TagCause>
        requires { IsReading self.old pool.old universe.old }
        ensures ok { OnOk result (IsRead self.old self.new pool.new universe.new (package_entry (tagged_of self.old pool.old universe.old) (words_of text.now))) }
        ensures refused { IfErr result (λ c. IsCause c (package_entry (tagged_of self.old pool.old universe.old) (words_of text.now))) }
        ensures form { IfErr result HasOneForm }
        ensures more { HasMore universe.old universe.new }
        ensures grows { Grows pool.old pool.new }
    {
        let Some((name, version, release, arch)) = four_words(text) else {
            return Err(TagCause::BadPackageLine);
        };
        self.begin(pool, universe, name, version, release, arch)
    }

    /// Reads an entry of the package in hand.
    fn hand_entry(&mut self, pool: &mut Pool, tag: Tag, text: &[u8]) -> Result<(), TagCause>
        requires hand { IsHand pool.old self.old.repo self.old.hand }
        requires recent { AreRead pool.old self.old.recent }
        requires tails { AreHandTails self.old.tails self.old.hand }
        ensures ok { OnOk result (HasReadHand pool.old pool.new self.old self.new (λ s. entry_of_hand s s.hand tag text.now)) }
        ensures refused { IfErr result (λ c. HasEndedHand pool.old self.old (λ s. entry_of_hand s s.hand tag text.now) c) }
        ensures form { IfErr result HasOneForm }
        ensures grows { Grows pool.old pool.new }
    {
        match &mut self.hand {
            None => Err(TagCause::TagBeforePackage),
            Some(hand) => take_entry(pool, &mut self.recent, &mut self.tails, hand, tag, text),
        }
    }

    /// Reads an entry.
    fn entry(
        &mut self,
        pool: &mut Pool,
        universe: &mut Universe,
        tag: Tag,
        text: &[u8],
    ) -> Result<(), TagCause>
        requires { IsReading self.old pool.old universe.old }
        ensures ok { OnOk result (IsRead self.old self.new pool.new universe.new (entry (tagged_of self.old pool.old universe.old) tag text.now)) }
        ensures refused { IfErr result (λ c. IsCause c (entry (tagged_of self.old pool.old universe.old) tag text.now)) }
        ensures form { IfErr result HasOneForm }
        ensures more { HasMore universe.old universe.new }
        ensures grows { Grows pool.old pool.new }
    {
        Universe::stays_over();
        if tag == Tag::Pkg {
            return self.package_entry(pool, universe, text);
        }
        self.hand_entry(pool, tag, text)
    }

    /// Reads an entry of what may be a tag. Other entries are ignored.
    fn entry_if_tag(
        &mut self,
        pool: &mut Pool,
        universe: &mut Universe,
        name: &[u8],
        text: &[u8],
    ) -> Result<(), TagCause>
        requires { IsReading self.old pool.old universe.old }
        ensures ok { OnOk result (IsRead self.old self.new pool.new universe.new (entry_if_tag (tagged_of self.old pool.old universe.old) (tag name.now) text.now)) }
        ensures refused { IfErr result (λ c. IsCause c (entry_if_tag (tagged_of self.old pool.old universe.old) (tag name.now) text.now)) }
        ensures form { IfErr result HasOneForm }
        ensures more { HasMore universe.old universe.new }
        ensures grows { Grows pool.old pool.new }
    {
        match tag_of(name) {
            None => Ok(()),
            Some(tag) => self.entry(pool, universe, tag, text),
        }
    }

    /// Opens a block.
    fn open_block(&mut self, line: &[u8]) -> Result<(), TagCause>
        requires { 4 ≤ length line.now }
        ensures ok { (pool : Held) → OnOk result (opens_block (option_map (written_package pool) self.old.hand) (tag (letters line.now)) ≡ None) }
        ensures reader { OnOk result (self.new ≡ record self.old { block = Some (letters line.now) }) }
        ensures refused { (pool : Held) → IfErr result (λ c. opens_block (option_map (written_package pool) self.old.hand) (tag (letters line.now)) ≡ Some c) }
        ensures form { IfErr result HasOneForm }
    {
        if let Some(cause) = blocked(&self.hand, tag_of(&line[1..4])) {
            return Err(cause);
        }
        self.block = Some([line[1], line[2], line[3]]);
        Ok(())
    }

    /// Reads a line outside a block.
    fn outside(
        &mut self,
        pool: &mut Pool,
        universe: &mut Universe,
        line: &[u8],
    ) -> Result<(), TagCause>
        requires { IsReading self.old pool.old universe.old }
        ensures ok { OnOk result (IsRead self.old self.new pool.new universe.new (outside_block (tagged_of self.old pool.old universe.old) line.now)) }
        ensures refused { IfErr result (λ c. IsCause c (outside_block (tagged_of self.old pool.old universe.old) line.now)) }
        ensures form { IfErr result HasOneForm }
        ensures more { HasMore universe.old universe.new }
        ensures grows { Grows pool.old pool.new }
    {
        if is_heading(b'=', line) {
            return self.entry_if_tag(pool, universe, letters(line), after_heading(line));
        }
        if is_heading(b'+', line) {
            return self.open_block(line);
        }
        Ok(())
    }

    /// Reads a line in a block.
    fn inside(
        &mut self,
        pool: &mut Pool,
        universe: &mut Universe,
        name: [u8; 3],
        line: &[u8],
    ) -> Result<(), TagCause>
        requires { IsReading self.old pool.old universe.old }
        ensures ok { OnOk result (IsRead self.old self.new pool.new universe.new (inside_block (tagged_of self.old pool.old universe.old) name line.now)) }
        ensures refused { IfErr result (λ c. IsCause c (inside_block (tagged_of self.old pool.old universe.old) name line.now)) }
        ensures form { IfErr result HasOneForm }
        ensures more { HasMore universe.old universe.new }
        ensures grows { Grows pool.old pool.new }
    {
        if closes(&name, line) {
            self.block = None;
            return Ok(());
        }
        if trimmed(line).is_empty() {
            return Ok(());
        }
        self.entry_if_tag(pool, universe, &name, line)
    }

    /// Reads a line. After a refusal the reader cannot be used further, and the universe may hold packages of this repository:
    /// truncating to the count before removes them.
    pub fn line(
        &mut self,
        pool: &mut Pool,
        universe: &mut Universe,
        line: &[u8],
    ) -> Result<(), TagCause>
        requires { IsReading self.old pool.old universe.old }
        ensures ok { OnOk result (IsRead self.old self.new pool.new universe.new (line_read (tagged_of self.old pool.old universe.old) line.now)) }
        ensures refused { IfErr result (λ c. IsCause c (line_read (tagged_of self.old pool.old universe.old) line.now)) }
        ensures form { IfErr result HasOneForm }
        ensures more { HasMore universe.old universe.new }
        ensures grows { Grows pool.old pool.new }
    {
        match self.block {
            None => self.outside(pool, universe, line),
            Some(name) => self.inside(pool, universe, name, line),
        }
    }

    /// The end after the line of this number, with which the reader goes. After a refusal the universe may hold packages of
    /// this repository, as after one of a line.
    pub fn end(self, universe: &mut Universe, last: u64) -> Result<(), TagFault>
        ensures ok { OnOk result ((pool : Held) → IsReading self pool universe.old → IsEnded self pool universe.old universe.new (end_read last (tagged_of self pool universe.old))) }
        ensures refused { IfErr result (λ fault. (pool : Held) → IsTagRefusal fault (end_read last (tagged_of self pool universe.old))) }
        ensures form { IfErr result (λ fault. HasOneForm fault.cause) }
        ensures more { HasMore universe.old universe.new }
    {
        if self.block.is_some() {
            return Err(TagFault {
                line: last,
                cause: TagCause::UnclosedBlock,
            });
        }
        match put_behind(universe, self.hand) {
            Ok(()) => Ok(()),
            Err(cause) => Err(TagFault { line: last, cause }),
        }
    }
}
