//! Files that a caller lends.
ghost use Rattle.std.specs.Prelude.{ℕ, ◌≡◌, ◌<◌, ◌++◌, [], true, take, List, Some, IfSome, IsSomeAnd, OnOk, IfErr};
ghost use Rattle.solv_io.specs.declared.faults.FileFault.TheVariants.{Memory};
ghost use Rattle.solv_lent.specs.Inner.Asked.{last_is_missing};
ghost use Rattle.solv_lent.specs.Lent.{lent_bytes};
ghost use Rattle.solv_lent.specs.declared.lent_file.LentFile.{LentFile};

use crate::lent_file::{LentFile, find_file};
use solv_io::{FileFault, Files};
use solv_list::{Items, Text};
use std::alloc::Global;
use std::marker::{Brand, PhantomData};

/// Stands for the files that are lent in one run, so that what is known of them at its end is known of these.
pub trait Lending {
    ghost held: { List LentFile };
}

impl Lending for Brand {
    ghost held = { [] };
}

/// Files that a caller lends. Of two with one name the first counts, and a name that none has cannot be read. They serve one run,
/// which ends there: after such a name every call is refused as if memory had run out.
#[derive(Drop)]
pub struct LentFiles<'a, K: Lending> {
    held: &'a [LentFile<'a>],
    /// The names of all calls so far that were answered or failed.
    pub asked: Items<Text>,
    /// How many calls failed.
    pub faults: u64,
    of: PhantomData<K>,
    ghost own: { held.now ≡ K.held },
    // A call fails only for a name that no file has, and no name is asked for after it.
    pub ghost missing: { 0 < faults → last_is_missing K.held asked ≡ true },
}

impl<'a, K: Lending> LentFiles<'a, K> {
    /// These files, none of which was asked for yet.
    pub fn new(alloc: Global, held: &'a [LentFile<'a>]) -> LentFiles<'a, K>
        requires { held.now ≡ K.held }
        ensures asked { result.asked ≡ [] }
        ensures faults { result.faults ≡ 0 }
    {
        LentFiles {
            held,
            asked: Items::wrap(Vec::new(alloc)),
            faults: 0,
            of: PhantomData,
        }
    }
}

/// Puts the first `most` bytes at the end of `into`.
fn append_first(into: &mut Vec<u8>, bytes: &[u8], most: usize) -> Result<(), FileFault>
    ensures got { OnOk result (into.new.items ≡ into.old.items ++ take most bytes.now) }
    ensures refused { IfErr result (λ fault. (fault ≡ Memory) × (into.new.items ≡ into.old.items)) }
{
    into.extend_from_slice(&bytes[..bytes.len().min(most)])
        .map_err(|_| FileFault::Memory)
}

impl<'a, K: Lending> Files for LentFiles<'a, K> {
    type File = &'a [u8];

    ghost contents = { λ _. Some (lent_bytes K.held) };

    ghost asked = { λ files. Some files.asked };

    ghost faults = { λ files. files.faults };

    ghost left = { λ file. Some file.now };

    #[tactic(auto, using(crate::proofs::HeldFiles::last_behind))]
    fn fetch(&mut self, name: &str, most: usize, into: &mut Vec<u8>) -> Result<(), FileFault> {
        if self.faults > 0 {
            return Err(FileFault::Memory);
        }
        let Ok(copy) = String::from_str(*into.allocator(), name) else {
            return Err(FileFault::Memory);
        };
        match find_file(self.held, name.as_bytes()) {
            Some(bytes) => {
                let before = into.len();
                append_first(into, bytes, most)?;
                if self.asked.push(Text::wrap(copy)).is_err() {
                    into.truncate(before);
                    return Err(FileFault::Memory);
                }
                Ok(())
            }
            None => {
                if self.asked.push(Text::wrap(copy)).is_err() {
                    return Err(FileFault::Memory);
                }
                self.faults = 1;
                Err(FileFault::Failed)
            }
        }
    }

    #[tactic(auto, using(crate::proofs::HeldFiles::last_behind))]
    fn open(&mut self, alloc: Global, name: &str) -> Result<&'a [u8], FileFault> {
        if self.faults > 0 {
            return Err(FileFault::Memory);
        }
        let Ok(copy) = String::from_str(alloc, name) else {
            return Err(FileFault::Memory);
        };
        let found = find_file(self.held, name.as_bytes());
        if self.asked.push(Text::wrap(copy)).is_err() {
            return Err(FileFault::Memory);
        }
        match found {
            Some(bytes) => Ok(bytes),
            None => {
                self.faults = 1;
                Err(FileFault::Failed)
            }
        }
    }

    fn read(
        &mut self,
        file: &mut &'a [u8],
        most: usize,
        into: &mut Vec<u8>,
    ) -> Result<usize, FileFault> {
        let rest: &'a [u8] = *file;
        let n = rest.len().min(most);
        append_first(into, rest, n)?;
        *file = &rest[n..];
        Ok(n)
    }
}
