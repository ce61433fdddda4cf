//! Testtags files.
ghost use Rattle.std.specs.Prelude.{◌≡◌, ◌<◌, ◌≤◌, true, drop, length, Some, None, IsOkAnd, IfOk, IfErr, OnOk, OnErr};
ghost use Rattle.solv_base.specs.Pool.{Held, Grows};
ghost use Rattle.std.specs.List.{list_all};
ghost use Rattle.solv_pool.specs.Prelude.{IsOver};
ghost use Rattle.solv_pool.specs.Inner.Catalog.{alone};
ghost use Rattle.solv_pool.specs.TaskForms.{is_formed};
ghost use Rattle.solv_io.specs.Lines.{numbered_lines};
ghost use Rattle.solv_tags.specs.Inner.RepositoryReading.{IsTaken, IsTagRefusal, HasOneForm};
ghost use Rattle.solv_tags.specs.Inner.TagReading.{IsReading, HasMore, IsReadTo, tagged_of};
ghost use Rattle.solv_tags.specs.Inner.Testtags.{testtags_file};
ghost use Rattle.solv_tags.specs.Inner.Lines.{lines_read, tags_read};

use crate::tag_fault::TagFault;
use crate::tag_reader::TagReader;
use solv_base::Pool;
use solv_io::lines;
use solv_pool::{RepoNo, Universe};

/// Reads all lines, and gives the number of the last one.
fn read_lines(
    reader: &mut TagReader,
    pool: &mut Pool,
    universe: &mut Universe,
    bytes: &[u8],
) -> Result<u64, TagFault>
    requires { IsReading reader.old pool.old universe.old }
    ensures ok { IfOk result (λ last. IsReadTo last reader.old reader.new pool.new universe.new (lines_read 0 (tagged_of reader.old pool.old universe.old) (numbered_lines bytes.now))) }
    ensures refused { IfErr result (λ fault. IsTagRefusal fault (lines_read 0 (tagged_of reader.old pool.old universe.old) (numbered_lines bytes.now))) }
    ensures form { IfErr result (λ fault. HasOneForm fault.cause) }
    ensures more { HasMore universe.old universe.new }
    ensures grows { Grows pool.old pool.new }
{
    let mut last = 0;
    for (number, line) in lines(bytes) {
        match reader.line(pool, universe, line) {
            Ok(()) => {}
            Err(cause) => {
                return Err(TagFault {
                    line: number,
                    cause,
                });
            }
        }
        last = number;
    }
    Ok(last)
}

/// Reads all lines and the end.
fn read_all(
    mut reader: TagReader,
    pool: &mut Pool,
    universe: &mut Universe,
    bytes: &[u8],
) -> Result<(), TagFault>
    requires reading { IsReading reader pool.old universe.old }
    requires before { reader.before ≡ length universe.old.packages }
    requires hand { reader.hand ≡ None }
    requires block { reader.block ≡ None }
    ensures read { OnOk result (IsOkAnd (tags_read pool.old (length universe.old.packages) reader.repo (numbered_lines bytes.now)) (λ r. IsTaken r pool.new universe.old universe.new)) }
    ensures over { OnOk result (IsOver pool.new universe.new) }
    ensures refused { IfErr result (λ fault. IsTagRefusal fault (tags_read pool.old (length universe.old.packages) reader.repo (numbered_lines bytes.now))) }
    ensures form { IfErr result (λ fault. HasOneForm fault.cause) }
    ensures more { HasMore universe.old universe.new }
    ensures grows { Grows pool.old pool.new }
{
    match read_lines(&mut reader, pool, universe, bytes) {
        Ok(last) => reader.end(universe, last),
        Err(fault) => Err(fault),
    }
}

/// Reads a testtags file, the packages of a repository, into a universe: its packages come after the others, or the first
/// bad line is refused and the universe is unchanged. Each dependency of the packages that are added has a form that may
/// stand at its place, and what they conflict with has no condition. After a refusal the pool may hold more than before.
pub fn read_testtags(
    pool: &mut Pool,
    universe: &mut Universe,
    bytes: &[u8],
    repo: RepoNo,
) -> Result<(), TagFault>
    requires over { IsOver pool.old universe.old }
    requires repo { repo < length universe.old.repos }
    ensures read { OnOk result (IsOkAnd (testtags_file pool.old (length universe.old.packages) repo bytes.now) (λ r. IsTaken r pool.new universe.old universe.new)) }
    ensures over { OnOk result (IsOver pool.new universe.new) }
    ensures forms { OnOk result (list_all (is_formed (alone pool.new universe.new)) (drop (length universe.old.packages) universe.new.packages) ≡ true) }
    ensures refused { IfErr result (λ fault. IsTagRefusal fault (testtags_file pool.old (length universe.old.packages) repo bytes.now)) }
    ensures form { IfErr result (λ fault. HasOneForm fault.cause) }
    ensures unchanged { OnErr result (universe.new ≡ universe.old) }
    ensures grows { Grows pool.old pool.new }
{
    universe.marks_each();
    let before = universe.count();
    let reader = TagReader::new(pool.alloc(), repo, before, bytes.len());
    match read_all(reader, pool, universe, bytes) {
        Ok(()) => Ok(()),
        Err(fault) => {
            universe.cut(before);
            Err(fault)
        }
    }
}
