ghost use Rattle.std.specs.Prelude.{ℕ, ◌≡◌, ◌++◌, ◌||◌, [], take, List, Some, None, is_none, IfSome, IsSomeAnd, IfOk, OnOk, OnErr, IfErr};
ghost use Rattle.std.specs.Option.{option_copied};
ghost use Rattle.solv_io.specs.Inner.Counters.{FailsExactly, calls_after, counted, faults_after, next_fails};
ghost use Rattle.solv_io.specs.Counters.{CountsFaults};
ghost use Rattle.solv_io.specs.Inner.Fetches.{file_of, file_or_empty};
ghost use Rattle.solv_io.specs.Fetches.{fetch_ending, asked_after, names_after, AppendsUpTo};
ghost use Rattle.solv_io.specs.Reading.{HasReadPiece};
ghost use Rattle.solv_io.specs.declared.faults.FileFault.TheVariants.{Memory};

use crate::held_file::HeldFile;
use crate::{FileFault, Files};
use solv_list::{Bytes, Items, Text};
use std::alloc::Global;

/// Files in memory. The calls whose numbers, from 1, stand in `fails` fail, and so do those for a name that is not
/// held. A call that is refused for memory has no number.
#[derive(Drop)]
pub struct MemFiles {
    /// Each file's name and bytes. Of two with one name the first counts.
    pub held: Items<(Text, Bytes)>,
    /// The names of all calls so far that were answered or failed.
    pub asked: Items<Text>,
    /// The numbers of the calls that are to fail.
    pub fails: Items<u64>,
    /// How many calls have a number.
    pub calls: u64,
    /// How many calls failed.
    pub faults: u64,
}

/// Files in memory that never fail: a name that is not held reads as empty.
#[derive(Drop)]
pub struct AllFiles {
    /// Each file's name and bytes. Of two with one name the first counts.
    pub held: Items<(Text, Bytes)>,
}

/// The bytes of the first file with this name.
fn find_file<'a>(held: &'a [(Text, Bytes)], name: &str) -> Option<&'a [u8]>
    ensures { option_copied result ≡ file_of held.now name.now }
{
    for (held_name, bytes) in held {
        if name == held_name.held() {
            return Some(bytes.held());
        }
    }
    None
}

/// Appends the first `most` bytes to `into`.
fn append_first(into: &mut Vec<u8>, bytes: &[u8], most: usize) -> Result<(), FileFault>
    ensures got { OnOk result (into.new.items ≡ into.old.items ++ take most bytes.now) }
    ensures refused { IfErr result (λ fault. (fault ≡ Memory) × (into.new.items ≡ into.old.items)) }
{
    into.extend_from_slice(&bytes[..bytes.len().min(most)])
        .map_err(|_| FileFault::Memory)
}

impl MemFiles {
    /// The number of the next call, and whether it is to fail.
    fn next_call(&self) -> (u64, bool)
        ensures call { result.0 ≡ counted self.now.calls }
        ensures fails { result.1 ≡ next_fails self.now.fails self.now.calls }
    {
        let call = self.calls.saturating_add(1);
        (call, self.fails.held().contains(&call))
    }
}

impl Files for MemFiles {
    type File = HeldFile;

    ghost contents = { λ files. Some (λ name. file_of files.held name) };

    ghost asked = { λ files. Some files.asked };

    ghost faults = { λ files. files.faults };

    ghost left = { λ file. Some file };

    fn fetch(&mut self, name: &str, most: usize, into: &mut Vec<u8>) -> Result<(), FileFault>
        ensures got { OnOk result (IsSomeAnd (file_of self.old.held name.now)
            (λ bytes. into.new.items ≡ into.old.items ++ take most bytes)) }
        ensures appends { OnOk result (AppendsUpTo most into.old.items into.new.items) }
        ensures refused { OnErr result (into.new.items ≡ into.old.items) }
        ensures exactly { FailsExactly (fetch_ending result)
            (next_fails self.old.fails self.old.calls || is_none (file_of self.old.held name.now)) }
        ensures rest { self.new ≡ record self.old {
          asked = names_after (fetch_ending result) self.old.asked name.now;
          calls = calls_after (fetch_ending result) self.old.calls;
          faults = faults_after (fetch_ending result) self.old.faults;
        } }
        ensures faults { CountsFaults (fetch_ending result) self.old.faults self.new.faults }
    {
        let Ok(copy) = String::from_str(*into.allocator(), name) else {
            return Err(FileFault::Memory);
        };
        let (call, fails) = self.next_call();
        let found = find_file(self.held.held(), name);
        match found {
            Some(bytes) if !fails => {
                let before = into.len();
                append_first(into, bytes, most)?;
                if self.asked.push(Text::wrap(copy)).is_err() {
                    into.truncate(before);
                    return Err(FileFault::Memory);
                }
                self.calls = call;
                Ok(())
            }
            _ => {
                if self.asked.push(Text::wrap(copy)).is_err() {
                    return Err(FileFault::Memory);
                }
                self.calls = call;
                self.faults = self.faults.saturating_add(1);
                Err(FileFault::Failed)
            }
        }
    }

    fn open(&mut self, alloc: Global, name: &str) -> Result<HeldFile, FileFault>
        ensures opened { IfOk result (λ file. IsSomeAnd (file_of self.old.held name.now)
            (λ bytes. file ≡ bytes)) }
        ensures exactly { FailsExactly (fetch_ending result)
            (next_fails self.old.fails self.old.calls || is_none (file_of self.old.held name.now)) }
        ensures rest { self.new ≡ record self.old {
          asked = names_after (fetch_ending result) self.old.asked name.now;
          calls = calls_after (fetch_ending result) self.old.calls;
          faults = faults_after (fetch_ending result) self.old.faults;
        } }
        ensures faults { CountsFaults (fetch_ending result) self.old.faults self.new.faults }
    {
        let Ok(copy) = String::from_str(alloc, name) else {
            return Err(FileFault::Memory);
        };
        let (call, fails) = self.next_call();
        let found = find_file(self.held.held(), name);
        match found {
            Some(bytes) if !fails => {
                let file = HeldFile::new(alloc, bytes)?;
                if self.asked.push(Text::wrap(copy)).is_err() {
                    return Err(FileFault::Memory);
                }
                self.calls = call;
                Ok(file)
            }
            _ => {
                if self.asked.push(Text::wrap(copy)).is_err() {
                    return Err(FileFault::Memory);
                }
                self.calls = call;
                self.faults = self.faults.saturating_add(1);
                Err(FileFault::Failed)
            }
        }
    }

    fn read(
        &mut self,
        file: &mut HeldFile,
        most: usize,
        into: &mut Vec<u8>,
    ) -> Result<usize, FileFault>
        ensures got { IfOk result (λ n. HasReadPiece most n (Some file.old) (Some file.new) into.old.items into.new.items) }
        ensures refused { OnErr result ((into.new.items ≡ into.old.items) × (file.new ≡ file.old)) }
        ensures never_fails { IfErr result (λ fault. fault ≡ Memory) }
        ensures same { self.new ≡ self.old }
    {
        file.append_next(most, into)
    }
}

impl Files for AllFiles {
    type File = HeldFile;

    ghost contents = { λ files. Some (λ name. Some (file_or_empty files.held name)) };

    ghost asked = { λ _. None };

    ghost faults = { λ _. 0 };

    ghost left = { λ file. Some file };

    fn fetch(&mut self, name: &str, most: usize, into: &mut Vec<u8>) -> Result<(), FileFault>
        ensures got { OnOk result (into.new.items ≡ into.old.items ++ take most (file_or_empty self.old.held name.now)) }
        ensures appends { OnOk result (AppendsUpTo most into.old.items into.new.items) }
        ensures refused { OnErr result (into.new.items ≡ into.old.items) }
        ensures never_fails { IfErr result (λ fault. fault ≡ Memory) }
        ensures same { self.new ≡ self.old }
    {
        let Some(bytes) = find_file(self.held.held(), name) else {
            return Ok(());
        };
        append_first(into, bytes, most)
    }

    fn open(&mut self, alloc: Global, name: &str) -> Result<HeldFile, FileFault>
        ensures opened { IfOk result (λ file. file ≡ file_or_empty self.old.held name.now) }
        ensures never_fails { IfErr result (λ fault. fault ≡ Memory) }
        ensures same { self.new ≡ self.old }
    {
        HeldFile::new(alloc, find_file(self.held.held(), name).unwrap_or_default())
    }

    fn read(
        &mut self,
        file: &mut HeldFile,
        most: usize,
        into: &mut Vec<u8>,
    ) -> Result<usize, FileFault>
        ensures got { IfOk result (λ n. HasReadPiece most n (Some file.old) (Some file.new) into.old.items into.new.items) }
        ensures refused { OnErr result ((into.new.items ≡ into.old.items) × (file.new ≡ file.old)) }
        ensures never_fails { IfErr result (λ fault. fault ≡ Memory) }
        ensures same { self.new ≡ self.old }
    {
        file.append_next(most, into)
    }
}
