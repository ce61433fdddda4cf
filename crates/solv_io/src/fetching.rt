ghost use Rattle.std.specs.Prelude.{ℕ, ◌≡◌, ◌≤◌, ◌<◌, ◌+◌, ◌^◌, ◌++◌, take, length, List, Option, Some, IfSome, IsSomeAnd, IfOk, OnOk, OnErr};
ghost use Rattle.solv_io.specs.Counters.{CountsFaults};
ghost use Rattle.solv_io.specs.Fetches.{fetch_ending, asked_after, AppendsUpTo};
ghost use Rattle.solv_io.specs.Reading.{HasReadPiece};

use crate::FileFault;
use std::alloc::Global;

/// Files by name.
///
/// Contracts see three meanings of it: what each name holds, the names of all calls so far that were answered or
/// failed, and the count of its faults. An object may keep the first two to itself, as those over real files do.
pub trait Files {
    /// A file that is open.
    type File: Drop;

    // What was not read yet of an open file, where the object exposes it.
    ghost left: { Self.File → Option (List ℕ) };

    // What each name holds, where the object exposes it: a name of which it exposes no bytes cannot be read.
    ghost contents: { Self → Option (List ℕ → Option (List ℕ)) };

    // The names of all calls so far that answered Ok or `Failed`, in their order, where the object exposes them.
    ghost asked: { Self → Option (List (List ℕ)) };

    // How many calls failed. It stays at 2^64 - 1, and never falls.
    ghost faults: { Self → ℕ };

    /// Appends the first `most` bytes of a file to `into`, or all of them where the file has fewer.
    fn fetch(&mut self, name: &str, most: usize, into: &mut Vec<u8>) -> Result<(), FileFault>
        ensures contents { contents self.new ≡ contents self.old }
        ensures asked { asked self.new ≡ asked_after (fetch_ending result) (asked self.old) name.now }
        ensures faults { CountsFaults (fetch_ending result) (faults self.old) (faults self.new) }
        ensures never_falls { faults self.old ≤ faults self.new }
        ensures got { OnOk result (IfSome (contents self.old) (λ held. IsSomeAnd (held name.now)
            (λ bytes. into.new.items ≡ into.old.items ++ take most bytes))) }
        ensures appends { OnOk result (AppendsUpTo most into.old.items into.new.items) }
        ensures refused { OnErr result (into.new.items ≡ into.old.items) };

    /// Opens a file, to be read from its start.
    fn open(&mut self, alloc: Global, name: &str) -> Result<Self::File, FileFault>
        ensures contents { contents self.new ≡ contents self.old }
        ensures asked { asked self.new ≡ asked_after (fetch_ending result) (asked self.old) name.now }
        ensures faults { CountsFaults (fetch_ending result) (faults self.old) (faults self.new) }
        ensures never_falls { faults self.old ≤ faults self.new }
        ensures opened { IfOk result (λ file. IfSome (contents self.old) (λ held. IsSomeAnd (held name.now)
            (λ bytes. left file ≡ Some bytes))) };

    /// Appends the next bytes of an open file to `into`, at most `most`, and says how many they are: none only at the end of
    /// the file, or where none are asked for.
    fn read(
        &mut self,
        file: &mut Self::File,
        most: usize,
        into: &mut Vec<u8>,
    ) -> Result<usize, FileFault>
        requires fits { length into.old.items + most < 2 ^ 64 }
        ensures contents { contents self.new ≡ contents self.old }
        ensures asked { asked self.new ≡ asked self.old }
        ensures faults { CountsFaults (fetch_ending result) (faults self.old) (faults self.new) }
        ensures never_falls { faults self.old ≤ faults self.new }
        ensures got { IfOk result (λ n. HasReadPiece most n (left file.old) (left file.new) into.old.items into.new.items) }
        ensures refused { OnErr result (into.new.items ≡ into.old.items) };
}
