ghost use Rattle.std.specs.Prelude.{◌≡◌, ◌+◌, ◌≤◌, false, None, Err, OnOk, length};
ghost use Rattle.std.specs.Io.{StartsWith};
ghost use Rattle.solv_io.specs.Counters.{CountsFaults};
ghost use Rattle.solv_io.specs.Fetches.{fault_ending};

use crate::faults::file_fault;
use crate::reading::read_piece;
use crate::{FileFault, Files, Sink, SinkFault};
use std::alloc::Global;
use std::fs::OpenFile;
use std::io::{ErrorKind, Read, Write};
use std::{fs, io, rt};

/// The files of the system that a program runs on. It exposes neither what they hold nor the names asked for; of an open file it
/// exposes what is left of it where the runtime does.
#[derive(Drop)]
pub struct RealFiles<'a, R: rt::Files> {
    /// The runtime that opens files.
    pub rt: &'a R,
    /// How many calls failed.
    pub faults: u64,
}

/// A writer of std as a sink. It does not expose what was written, and never runs out of memory: whatever error its writer answers counts as a
/// failure.
#[derive(Drop)]
pub struct RealSink<W: io::Write> {
    /// What takes the bytes.
    pub to: W,
    /// How many calls failed.
    pub faults: u64,
}

/// Appends the first bytes of a file of the system to `into`, at most `most`. What is read before a fault
/// stays there.
fn append_file<R: rt::Files>(
    files: &R,
    name: &str,
    most: usize,
    into: &mut Vec<u8>,
) -> Result<(), FileFault>
    ensures front { StartsWith into.new.items into.old.items }
    ensures bound { OnOk result (length into.new.items ≤ length into.old.items + most) }
{
    let end = into.len().saturating_add(most);
    let file = fs::open(files, name).map_err(|e| file_fault(&e))?;
    // Only a hint for how much room to make: what is read decides.
    let size = file.metadata().map_or(0, |told| told.len());
    into.reserve(most.min(size as usize))
        .map_err(|_| FileFault::Memory)?;
    file.take(most as u64)
        .read_to_end(into)
        .map_err(|e| file_fault(&e))?;
    // A reader gives no more than it is asked for, but none of its clauses says so.
    into.truncate(end);
    Ok(())
}

impl<'a, R: rt::Files> RealFiles<'a, R> {
    /// Answers a fault, and counts it where it is a failure.
    fn fail<T>(&mut self, fault: FileFault) -> Result<T, FileFault>
        ensures fault { result ≡ Err fault }
        ensures faults { CountsFaults (fault_ending fault) self.old.faults self.new.faults }
        ensures never_falls { self.old.faults ≤ self.new.faults }
    {
        if fault == FileFault::Failed {
            self.faults = self.faults.saturating_add(1);
        }
        Err(fault)
    }
}

impl<'a, R: rt::Files> Files for RealFiles<'a, R> {
    type File = R::File;

    ghost contents = { λ _. None };

    ghost asked = { λ _. None };

    ghost faults = { λ files. files.faults };

    ghost left = { λ file. R.File.remaining file };

    fn fetch(&mut self, name: &str, most: usize, into: &mut Vec<u8>) -> Result<(), FileFault> {
        let before = into.len();
        let Err(fault) = append_file(self.rt, name, most, into) else {
            return Ok(());
        };
        into.truncate(before);
        self.fail(fault)
    }

    fn open(&mut self, _alloc: Global, name: &str) -> Result<R::File, FileFault> {
        match fs::open(self.rt, name) {
            Ok(file) => Ok(file),
            Err(error) => self.fail(file_fault(&error)),
        }
    }

    fn read(
        &mut self,
        file: &mut R::File,
        most: usize,
        into: &mut Vec<u8>,
    ) -> Result<usize, FileFault> {
        match read_piece(file, most, into) {
            Ok(n) => Ok(n),
            Err(fault) => self.fail(fault),
        }
    }
}

impl<W: io::Write> Sink for RealSink<W> {
    ghost written = { λ _. None };

    ghost faults = { λ sink. sink.faults };

    ghost takes_memory = { false };

    fn write(&mut self, piece: &[u8]) -> Result<usize, SinkFault> {
        for _ in 0..u64::MAX {
            match self.to.write(piece) {
                Ok(0) => break,
                Ok(n) => return Ok(n),
                Err(e) if e.kind() == ErrorKind::Interrupted => {}
                Err(_) => break,
            }
        }
        self.faults = self.faults.saturating_add(1);
        Err(SinkFault::Failed)
    }
}
