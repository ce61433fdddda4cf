//! Files in memory of which a read fails in the middle of a file.
ghost use Rattle.std.specs.Prelude.{Some};
ghost use Rattle.solv_io.specs.Inner.Fetches.{file_of};

use solv_io::{FileFault, Files, HeldFile, MemFiles};
use std::alloc::Global;

/// Files in memory of which the read of one number, from 1, fails; none does where the number is 0.
#[derive(Drop)]
pub(crate) struct BreakingFiles {
    pub(crate) files: MemFiles,
    pub(crate) reads: u64,
    pub(crate) breaks: u64,
}

impl Files for BreakingFiles {
    type File = HeldFile;

    ghost contents = { λ b. Some (λ name. file_of b.files.held name) };

    ghost asked = { λ b. Some b.files.asked };

    ghost faults = { λ b. b.files.faults };

    ghost left = { λ file. Some file };

    fn fetch(&mut self, name: &str, most: usize, into: &mut Vec<u8>) -> Result<(), FileFault> {
        self.files.fetch(name, most, into)
    }

    fn open(&mut self, alloc: Global, name: &str) -> Result<HeldFile, FileFault> {
        self.files.open(alloc, name)
    }

    fn read(
        &mut self,
        file: &mut HeldFile,
        most: usize,
        into: &mut Vec<u8>,
    ) -> Result<usize, FileFault> {
        self.reads = self.reads.saturating_add(1);
        if self.reads == self.breaks {
            self.files.faults = self.files.faults.saturating_add(1);
            return Err(FileFault::Failed);
        }
        self.files.read(file, most, into)
    }
}
