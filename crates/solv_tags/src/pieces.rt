//! Testtags files that are read piece by piece.
ghost use Rattle.std.specs.Prelude.{ℕ, ◌≡◌, ◌+◌, ◌<◌, ◌≤◌, ◌^◌, ◌++◌, ⊤, true, false, List, [], drop, length, IsOkAnd, IfOk, IfErr, OnOk, OnErr};
ghost use Rattle.std.specs.List.{list_all, enumerate_from};
ghost use Rattle.solv_base.specs.Pool.{Grows};
ghost use Rattle.solv_io.specs.Counters.{CountsFaults};
ghost use Rattle.solv_io.specs.Fetches.{fetch_ending};
ghost use Rattle.solv_io.specs.Lines.{lines_of, numbered_lines, IsLine};
ghost use Rattle.solv_pool.specs.Prelude.{IsOver};
ghost use Rattle.solv_pool.specs.Inner.Catalog.{alone};
ghost use Rattle.solv_pool.specs.TaskForms.{is_formed};
ghost use Rattle.solv_tags.specs.Inner.Lines.{lines_read};
ghost use Rattle.solv_tags.specs.Inner.Pieces.{HasTaken, IsDone, Leaves, HasReadFile};
ghost use Rattle.solv_tags.specs.Inner.RepositoryReading.{IsTaken, IsTagRefusal, HasOneForm};
ghost use Rattle.solv_tags.specs.Inner.TagReading.{IsReading, IsReadTo, HasMore, tagged_of};
ghost use Rattle.solv_tags.specs.Inner.Testtags.{testtags_file};

use crate::tag_fault::TagFault;
use crate::tag_reader::TagReader;
use solv_base::Pool;
use solv_io::{FileFault, Files, cut_line};
use solv_pool::{RepoNo, Universe};
use std::alloc::Global;

/// How many bytes are read at once; of a line that is longer, as many as it has so far.
const PIECE: usize = 65_536;

/// What was read of a file.
#[derive(Drop)]
struct Ahead {
    /// What comes after the lines that were taken.
    text: Vec<u8>,
    /// How many lines were taken.
    lines: u64,
    /// How many bytes were read.
    size: usize,
}

impl Ahead {
    /// Nothing was read.
    fn new(alloc: Global) -> Ahead
        ensures text { result.text.items ≡ [] }
        ensures lines { result.lines ≡ 0 }
        ensures size { result.size ≡ 0 }
    {
        Ahead {
            text: Vec::new(alloc),
            lines: 0,
            size: 0,
        }
    }

    /// Reads the next bytes, where not as many were read as may be, and says whether there were any.
    fn grow<F: Files>(
        &mut self,
        files: &mut F,
        file: &mut F::File,
        most: usize,
    ) -> Result<bool, FileFault>
        requires { (length self.old.text.items ≤ self.old.size) × (self.old.size ≤ most) }
        ensures contents { F.contents files.new ≡ F.contents files.old }
        ensures asked { F.asked files.new ≡ F.asked files.old }
        ensures faults { CountsFaults (fetch_ending result) (F.faults files.old) (F.faults files.new) }
        ensures lines { self.new.lines ≡ self.old.lines }
        ensures taken { OnOk result (HasTaken (F.left file.old) (F.left file.new) self.old.size self.new.size self.old.text.items (λ bytes. self.new.text.items ≡ bytes)) }
        ensures within { OnOk result (self.new.size ≤ most) }
        ensures more { IfOk result (λ more. more ≡ true → self.old.size < self.new.size) }
        ensures same { IfOk result (λ more. more ≡ false → self.new.text.items ≡ self.old.text.items) }
        ensures done { IfOk result (λ more. more ≡ false → IsDone most self.new.size (F.left file.new)) }
    {
        let next = PIECE.max(self.text.len()).min(most - self.size);
        let n = files.read(file, next, &mut self.text)?;
        self.size += n;
        Ok(n > 0)
    }

    /// Reads what is left, as many bytes as may be, and keeps none of it.
    fn skip<F: Files>(
        &mut self,
        files: &mut F,
        file: &mut F::File,
        most: usize,
    ) -> Result<(), FileFault>
        requires { self.old.size ≤ most }
        ensures contents { F.contents files.new ≡ F.contents files.old }
        ensures asked { F.asked files.new ≡ F.asked files.old }
        ensures faults { CountsFaults (fetch_ending result) (F.faults files.old) (F.faults files.new) }
        ensures taken { OnOk result (HasTaken (F.left file.old) (F.left file.new) self.old.size self.new.size [] (λ bytes. ⊤)) }
        ensures within { OnOk result (self.new.size ≤ most) }
        ensures done { OnOk result (IsDone most self.new.size (F.left file.new)) }
    {
        self.text.clear();
        while self.grow(files, file, most)? {
            self.text.clear();
        }
        Ok(())
    }
}

/// Takes the lines of a text that a line feed ends, after so many lines, and gives how many there are then, with the text after
/// them.
fn take_ended<'a>(
    reader: &mut TagReader,
    pool: &mut Pool,
    universe: &mut Universe,
    lines: u64,
    text: &'a [u8],
) -> Result<(u64, &'a [u8]), TagFault>
    requires reading { IsReading reader.old pool.old universe.old }
    requires fits { lines + length text.now < 2 ^ 64 }
    ensures leaves { IfOk result (λ end. (more : List ℕ) → lines_read lines (tagged_of reader.old pool.old universe.old) (enumerate_from (lines + 1) (lines_of (text.now ++ more)))
        ≡ lines_read end.0 (tagged_of reader.new pool.new universe.new) (enumerate_from (end.0 + 1) (lines_of (end.1.now ++ more)))) }
    ensures reading { OnOk result (IsReading reader.new pool.new universe.new) }
    ensures repo { OnOk result (reader.new.repo ≡ reader.old.repo) }
    ensures before { OnOk result (reader.new.before ≡ reader.old.before) }
    ensures open { IfOk result (λ end. IsLine end.1.now) }
    ensures count { IfOk result (λ end. end.0 + length end.1.now ≤ lines + length text.now) }
    ensures refused { IfErr result (λ fault. (more : List ℕ) → IsTagRefusal fault (lines_read lines (tagged_of reader.old pool.old universe.old) (enumerate_from (lines + 1) (lines_of (text.now ++ more))))) }
    ensures form { IfErr result (λ fault. HasOneForm fault.cause) }
    ensures more { HasMore universe.old universe.new }
    ensures grows { Grows pool.old pool.new }
{
    let mut number = lines;
    let mut rest = text;
    while let Some((line, behind)) = cut_line(rest) {
        number += 1;
        match reader.line(pool, universe, line) {
            Ok(()) => {}
            Err(cause) => {
                return Err(TagFault {
                    line: number,
                    cause,
                });
            }
        }
        rest = behind;
    }
    Ok((number, rest))
}

/// Reads a file to its end, as many bytes as may be, and takes the lines that a line feed ends. Where a line is refused no more
/// is read.
fn take_pieces<F: Files>(
    reader: &mut TagReader,
    pool: &mut Pool,
    universe: &mut Universe,
    files: &mut F,
    file: &mut F::File,
    most: usize,
    at: &mut Ahead,
) -> Result<Result<(), TagFault>, FileFault>
    requires reading { IsReading reader.old pool.old universe.old }
    requires lines { at.old.lines ≡ 0 }
    requires size { at.old.size ≡ length at.old.text.items }
    requires within { at.old.size ≤ most }
    ensures contents { F.contents files.new ≡ F.contents files.old }
    ensures asked { F.asked files.new ≡ F.asked files.old }
    ensures faults { CountsFaults (fetch_ending result) (F.faults files.old) (F.faults files.new) }
    ensures within { OnOk result (at.new.size ≤ most) }
    ensures taken { IfOk result (λ said. OnOk said (HasTaken (F.left file.old) (F.left file.new) at.old.size at.new.size at.old.text.items
        (Leaves (tagged_of reader.old pool.old universe.old) at.new.lines (tagged_of reader.new pool.new universe.new) at.new.text.items))) }
    ensures done { IfOk result (λ said. OnOk said (IsDone most at.new.size (F.left file.new))) }
    ensures open { IfOk result (λ said. OnOk said (IsLine at.new.text.items)) }
    ensures count { OnOk result (at.new.lines + length at.new.text.items ≤ at.new.size) }
    ensures reading { IfOk result (λ said. OnOk said (IsReading reader.new pool.new universe.new)) }
    ensures repo { IfOk result (λ said. OnOk said (reader.new.repo ≡ reader.old.repo)) }
    ensures before { IfOk result (λ said. OnOk said (reader.new.before ≡ reader.old.before)) }
    ensures refused { IfOk result (λ said. IfErr said (λ fault. HasTaken (F.left file.old) (F.left file.new) at.old.size at.new.size at.old.text.items
        (λ bytes. (more : List ℕ) → IsTagRefusal fault (lines_read 0 (tagged_of reader.old pool.old universe.old) (numbered_lines (bytes ++ more)))))) }
    ensures form { IfOk result (λ said. IfErr said (λ fault. HasOneForm fault.cause)) }
    ensures more { HasMore universe.old universe.new }
    ensures grows { Grows pool.old pool.new }
{
    let alloc = pool.alloc();
    loop {
        match take_ended(reader, pool, universe, at.lines, &at.text) {
            Ok((lines, rest)) => {
                let Ok(rest) = Vec::from_slice(alloc, rest) else {
                    return Err(FileFault::Memory);
                };
                at.lines = lines;
                at.text = rest;
            }
            Err(fault) => return Ok(Err(fault)),
        }
        if !at.grow(files, file, most)? {
            return Ok(Ok(()));
        }
    }
}

/// Takes the last line, where no line feed ends it, and gives the number of the last line.
fn take_last(
    reader: &mut TagReader,
    pool: &mut Pool,
    universe: &mut Universe,
    lines: u64,
    text: &[u8],
) -> Result<u64, TagFault>
    requires reading { IsReading reader.old pool.old universe.old }
    requires open { IsLine text.now }
    requires fits { lines + length text.now < 2 ^ 64 }
    ensures ok { IfOk result (λ last. IsReadTo last reader.old reader.new pool.new universe.new (lines_read lines (tagged_of reader.old pool.old universe.old) (enumerate_from (lines + 1) (lines_of text.now)))) }
    ensures refused { IfErr result (λ fault. IsTagRefusal fault (lines_read lines (tagged_of reader.old pool.old universe.old) (enumerate_from (lines + 1) (lines_of text.now)))) }
    ensures form { IfErr result (λ fault. HasOneForm fault.cause) }
    ensures more { HasMore universe.old universe.new }
    ensures grows { Grows pool.old pool.new }
{
    if text.is_empty() {
        return Ok(lines);
    }
    match reader.line(pool, universe, text) {
        Ok(()) => Ok(lines + 1),
        Err(cause) => Err(TagFault {
            line: lines + 1,
            cause,
        }),
    }
}

/// Reads a file of which this much was read, to its end or as many bytes as may be, and takes its lines. It gives the number of the
/// last line.
fn take_file<F: Files>(
    reader: &mut TagReader,
    pool: &mut Pool,
    universe: &mut Universe,
    files: &mut F,
    file: &mut F::File,
    most: usize,
    at: &mut Ahead,
) -> Result<Result<u64, TagFault>, FileFault>
    requires reading { IsReading reader.old pool.old universe.old }
    requires lines { at.old.lines ≡ 0 }
    requires size { at.old.size ≡ length at.old.text.items }
    requires within { at.old.size ≤ most }
    ensures contents { F.contents files.new ≡ F.contents files.old }
    ensures asked { F.asked files.new ≡ F.asked files.old }
    ensures faults { CountsFaults (fetch_ending result) (F.faults files.old) (F.faults files.new) }
    ensures within { OnOk result (at.new.size ≤ most) }
    ensures done { OnOk result (IsDone most at.new.size (F.left file.new)) }
    ensures read { IfOk result (λ said. IfOk said (λ last. HasTaken (F.left file.old) (F.left file.new) at.old.size at.new.size at.old.text.items
        (λ bytes. IsReadTo last reader.old reader.new pool.new universe.new (lines_read 0 (tagged_of reader.old pool.old universe.old) (numbered_lines bytes))))) }
    ensures refused { IfOk result (λ said. IfErr said (λ fault. HasTaken (F.left file.old) (F.left file.new) at.old.size at.new.size at.old.text.items
        (λ bytes. IsTagRefusal fault (lines_read 0 (tagged_of reader.old pool.old universe.old) (numbered_lines bytes))))) }
    ensures form { IfOk result (λ said. IfErr said (λ fault. HasOneForm fault.cause)) }
    ensures more { HasMore universe.old universe.new }
    ensures grows { Grows pool.old pool.new }
{
    match take_pieces(reader, pool, universe, files, file, most, at)? {
        Ok(()) => Ok(take_last(reader, pool, universe, at.lines, &at.text)),
        Err(fault) => {
            at.skip(files, file, most)?;
            Ok(Err(fault))
        }
    }
}

/// Reads a file from its start.
fn read_whole<F: Files>(
    pool: &mut Pool,
    universe: &mut Universe,
    files: &mut F,
    file: &mut F::File,
    most: usize,
    repo: RepoNo,
) -> Result<(usize, Result<(), TagFault>), FileFault>
    requires over { IsOver pool.old universe.old }
    requires repo { repo < length universe.old.repos }
    ensures contents { F.contents files.new ≡ F.contents files.old }
    ensures asked { F.asked files.new ≡ F.asked files.old }
    ensures faults { CountsFaults (fetch_ending result) (F.faults files.old) (F.faults files.new) }
    ensures read { IfOk result (λ end. OnOk end.1 (HasReadFile most end.0 (F.left file.old)
        (λ bytes. IsOkAnd (testtags_file pool.old (length universe.old.packages) repo bytes) (λ r. IsTaken r pool.new universe.old universe.new)))) }
    ensures over { IfOk result (λ end. OnOk end.1 (IsOver pool.new universe.new)) }
    ensures refused { IfOk result (λ end. IfErr end.1 (λ fault. HasReadFile most end.0 (F.left file.old)
        (λ bytes. IsTagRefusal fault (testtags_file pool.old (length universe.old.packages) repo bytes)))) }
    ensures form { IfOk result (λ end. IfErr end.1 (λ fault. HasOneForm fault.cause)) }
    ensures more { HasMore universe.old universe.new }
    ensures grows { Grows pool.old pool.new }
{
    universe.marks_each();
    let mut at = Ahead::new(pool.alloc());
    at.grow(files, file, most)?;
    let mut reader = TagReader::new(pool.alloc(), repo, universe.count(), at.text.len());
    match take_file(&mut reader, pool, universe, files, file, most, &mut at)? {
        Ok(last) => Ok((at.size, reader.end(universe, last))),
        Err(fault) => Ok((at.size, Err(fault))),
    }
}

/// Reads an open testtags file from its start, the packages of a repository, into a universe, as [`crate::read_testtags`] reads its
/// bytes, and says how many bytes it has: its first `most` bytes, where it has more. Where a line is refused the rest is read too.
/// Unless all lines are read the universe is unchanged.
pub fn read_open_testtags<F: Files>(
    pool: &mut Pool,
    universe: &mut Universe,
    files: &mut F,
    file: &mut F::File,
    most: usize,
    repo: RepoNo,
) -> Result<(usize, Result<(), TagFault>), FileFault>
    requires over { IsOver pool.old universe.old }
    requires repo { repo < length universe.old.repos }
    ensures contents { F.contents files.new ≡ F.contents files.old }
    ensures asked { F.asked files.new ≡ F.asked files.old }
    ensures faults { CountsFaults (fetch_ending result) (F.faults files.old) (F.faults files.new) }
    ensures read { IfOk result (λ end. OnOk end.1 (HasReadFile most end.0 (F.left file.old)
        (λ bytes. IsOkAnd (testtags_file pool.old (length universe.old.packages) repo bytes) (λ r. IsTaken r pool.new universe.old universe.new)))) }
    ensures over { IfOk result (λ end. OnOk end.1 (IsOver pool.new universe.new)) }
    ensures forms { IfOk result (λ end. OnOk end.1 (list_all (is_formed (alone pool.new universe.new)) (drop (length universe.old.packages) universe.new.packages) ≡ true)) }
    ensures refused { IfOk result (λ end. IfErr end.1 (λ fault. HasReadFile most end.0 (F.left file.old)
        (λ bytes. IsTagRefusal fault (testtags_file pool.old (length universe.old.packages) repo bytes)))) }
    ensures form { IfOk result (λ end. IfErr end.1 (λ fault. HasOneForm fault.cause)) }
    ensures unchanged { IfOk result (λ end. OnErr end.1 (universe.new ≡ universe.old)) }
    ensures unread { OnErr result (universe.new ≡ universe.old) }
    ensures grows { Grows pool.old pool.new }
{
    universe.marks_each();
    let before = universe.count();
    match read_whole(pool, universe, files, file, most, repo) {
        Ok((size, Ok(()))) => Ok((size, Ok(()))),
        Ok((size, Err(fault))) => {
            universe.cut(before);
            Ok((size, Err(fault)))
        }
        Err(fault) => {
            universe.cut(before);
            Err(fault)
        }
    }
}
