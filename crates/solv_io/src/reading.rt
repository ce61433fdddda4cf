//! Open files, read piece by piece.
ghost use Rattle.std.specs.Prelude.{◌≡◌, ◌+◌, ◌<◌, ◌≤◌, ◌^◌, length, take, drop, IfOk, OnErr};
ghost use Rattle.std.specs.Io.{ReadsAtMost};
ghost use Rattle.std.specs.Io.KnownBytes.{Consumes, IsAtEnd};
ghost use Rattle.solv_io.specs.Reading.{HasReadPiece};

use crate::FileFault;
use crate::faults::file_fault;
use std::io::{ErrorKind, Read};

/// One read, made anew where a signal interrupts it.
fn read_some<R: Read>(file: &mut R, into: &mut [u8]) -> Result<usize, FileFault>
    ensures bound { ReadsAtMost result into.new }
    ensures size { length into.new ≡ length into.old }
    ensures taken { IfOk result (λ n. Consumes (R.remaining file.old) (R.remaining file.new) (take n into.new)) }
    ensures end { IfOk result (λ n. n ≡ 0 → 0 < length into.new → IsAtEnd (R.remaining file.new)) }
{
    for _ in 0..u64::MAX {
        match file.read(into) {
            Ok(n) => return Ok(n),
            Err(error) if error.kind() == ErrorKind::Interrupted => {}
            Err(error) => return Err(file_fault(&error)),
        }
    }
    Err(FileFault::Failed)
}

/// One read to the place from this index on.
fn read_behind<R: Read>(file: &mut R, into: &mut [u8], start: usize) -> Result<usize, FileFault>
    requires { start ≤ length into.old }
    ensures front { take start into.new ≡ take start into.old }
    ensures size { length into.new ≡ length into.old }
    ensures fits { IfOk result (λ n. start + n ≤ length into.new) }
    ensures taken { IfOk result (λ n. Consumes (R.remaining file.old) (R.remaining file.new) (take n (drop start into.new))) }
    ensures end { IfOk result (λ n. n ≡ 0 → start < length into.new → IsAtEnd (R.remaining file.new)) }
{
    read_some(file, &mut into[start..])
}

/// Appends the next bytes of an open file, at most so many, and says how many they are.
pub(crate) fn read_piece<R: Read>(
    file: &mut R,
    most: usize,
    into: &mut Vec<u8>,
) -> Result<usize, FileFault>
    requires fits { length into.old.items + most < 2 ^ 64 }
    ensures got { IfOk result (λ n. HasReadPiece most n (R.remaining file.old) (R.remaining file.new) into.old.items into.new.items) }
    ensures refused { OnErr result (into.new.items ≡ into.old.items) }
{
    let start = into.len();
    if into.resize(start + most, 0).is_err() {
        return Err(FileFault::Memory);
    }
    match read_behind(file, into.as_mut_slice(), start) {
        Ok(n) => {
            into.truncate(start + n);
            Ok(n)
        }
        Err(fault) => {
            into.truncate(start);
            Err(fault)
        }
    }
}
