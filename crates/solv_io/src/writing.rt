ghost use Rattle.std.specs.Prelude.{ℕ, ◌≡◌, ◌<◌, ◌≤◌, [], Bool, true, length, take, List, Option, IfOk, IfErr, IsOk, OnOk, OnErr};
ghost use Rattle.solv_io.specs.Counters.{CountsFaults};
ghost use Rattle.solv_io.specs.Writes.{write_ending, then_bytes, WritesPrefix};
ghost use Rattle.solv_io.specs.declared.faults.SinkFault.TheVariants.{Memory};

use crate::SinkFault;

/// What takes bytes.
///
/// Contracts see three meanings of it: the bytes written so far, which an object may keep to itself, the count of
/// its faults, and whether writing may run out of memory, which is so of all objects of a type or of none.
pub trait Sink {
    // The bytes written so far, where the object exposes them.
    ghost written: { Self → Option (List ℕ) };

    // How many calls failed. It stays at 2^64 - 1, and never falls.
    ghost faults: { Self → ℕ };

    // Whether writing takes memory, so that it may run out.
    ghost takes_memory: { Bool };

    /// Takes a prefix of a piece, of at least one byte, and answers its length. An object that takes nothing answers
    /// `Failed`, and one that takes no memory never answers `Memory`.
    fn write(&mut self, piece: &[u8]) -> Result<usize, SinkFault>
        requires { 0 < length piece.now }
        ensures count { IfOk result (λ n. (0 < n) × (n ≤ length piece.now)) }
        ensures took { IfOk result (λ n. written self.new ≡ then_bytes (written self.old) (take n piece.now)) }
        ensures faults { CountsFaults (write_ending result) (faults self.old) (faults self.new) }
        ensures never_falls { faults self.old ≤ faults self.new }
        ensures refused { OnErr result (written self.new ≡ written self.old) }
        ensures memory { IfErr result (λ fault. fault ≡ Memory → takes_memory ≡ true) };
}

/// Writes a piece whole. An empty piece makes no call.
pub fn put<S: Sink>(sink: &mut S, piece: &[u8]) -> Result<(), SinkFault>
    ensures whole { OnOk result (S.written sink.new ≡ then_bytes (S.written sink.old) piece.now) }
    ensures prefix { OnErr result (WritesPrefix (S.written sink.old) (S.written sink.new) piece.now) }
    ensures faults { CountsFaults (write_ending result) (S.faults sink.old) (S.faults sink.new) }
    ensures never_falls { S.faults sink.old ≤ S.faults sink.new }
    ensures empty { piece.now ≡ [] → IsOk result × (sink.new ≡ sink.old) }
    ensures memory { IfErr result (λ fault. fault ≡ Memory → S.takes_memory ≡ true) }
{
    let mut done = 0;
    while done < piece.len() {
        done += sink.write(&piece[done..])?;
    }
    Ok(())
}
