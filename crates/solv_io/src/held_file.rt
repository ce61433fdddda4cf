//! Open files whose bytes are held in memory.
ghost use Rattle.std.specs.Prelude.{◌≡◌, Some, IfOk, OnErr, IfErr};
ghost use Rattle.solv_io.specs.Reading.{HasReadPiece};
ghost use Rattle.solv_io.specs.declared.faults.FileFault.TheVariants.{Memory};

use crate::FileFault;
use std::alloc::Global;
use std::marker::Model;

/// An open file in memory. Contracts see it as the bytes that were not read yet.
#[derive(Drop)]
pub struct HeldFile {
    bytes: Vec<u8>,
    at: usize,
}

impl Model for HeldFile {
    ghost use Rattle.std.specs.Prelude.{ℕ, ◌≤◌, List, drop, length};

    ghost Value = { List ℕ };

    ghost view = { λ file. drop file.at file.bytes.items };

    ghost invariant = { λ file. file.at ≤ length file.bytes.items };
}

impl HeldFile {
    // A copy of the bytes, open at its start.
    pub(crate) fn new(alloc: Global, bytes: &[u8]) -> Result<HeldFile, FileFault>
        ensures got { IfOk result (λ file. file ≡ bytes.now) }
        ensures refused { IfErr result (λ fault. fault ≡ Memory) }
    {
        match Vec::from_slice(alloc, bytes) {
            Ok(bytes) => Ok(HeldFile { bytes, at: 0 }),
            Err(_) => Err(FileFault::Memory),
        }
    }

    // Appends the next bytes, at most so many.
    pub(crate) fn append_next(
        &mut self,
        most: usize,
        into: &mut Vec<u8>,
    ) -> Result<usize, FileFault>
        ensures got { IfOk result (λ n. HasReadPiece most n (Some self.old) (Some self.new) into.old.items into.new.items) }
        ensures refused { OnErr result ((into.new.items ≡ into.old.items) × (self.new ≡ self.old)) }
        ensures never_fails { IfErr result (λ fault. fault ≡ Memory) }
    {
        let rest = &self.bytes[self.at..];
        let piece = &rest[..rest.len().min(most)];
        let n = piece.len();
        if into.extend_from_slice(piece).is_err() {
            return Err(FileFault::Memory);
        }
        self.at += n;
        Ok(n)
    }
}
