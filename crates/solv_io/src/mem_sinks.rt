ghost use Rattle.std.specs.Prelude.{ℕ, ◌≡◌, ◌<◌, ◌≤◌, ◌++◌, min, true, length, take, List, Some, IfOk, OnErr, IfErr};
ghost use Rattle.solv_io.specs.Inner.Counters.{FailsExactly, calls_after, faults_after, next_fails};
ghost use Rattle.solv_io.specs.Counters.{CountsFaults};
ghost use Rattle.solv_io.specs.Writes.{write_ending};
ghost use Rattle.solv_io.specs.declared.faults.SinkFault.TheVariants.{Memory};

use crate::{Sink, SinkFault};
use solv_list::{Bytes, Items};

/// A sink in memory. It takes a piece, or its first `most` bytes where it is longer. The calls whose numbers, from 1,
/// stand in `fails` fail, and a call that is refused for memory has no number.
#[derive(Drop)]
pub struct MemSink {
    /// The bytes written so far.
    pub taken: Bytes,
    /// How many bytes it takes at a time.
    pub most: usize,
    /// The numbers of the calls that are to fail.
    pub fails: Items<u64>,
    /// How many calls have a number.
    pub calls: u64,
    /// How many calls failed.
    pub faults: u64,
    ghost takes_some: { 0 < most },
}

/// A sink in memory that takes every piece whole.
#[derive(Drop)]
pub struct PlainSink {
    /// The bytes written so far.
    pub taken: Bytes,
}

impl Sink for MemSink {
    ghost written = { λ sink. Some sink.taken };

    ghost faults = { λ sink. sink.faults };

    ghost takes_memory = { true };

    fn write(&mut self, piece: &[u8]) -> Result<usize, SinkFault>
        ensures count { IfOk result (λ n. n ≡ min self.old.most (length piece.now)) }
        ensures took { IfOk result (λ n. self.new.taken ≡ self.old.taken ++ take n piece.now) }
        ensures refused { OnErr result (self.new.taken ≡ self.old.taken) }
        ensures exactly { FailsExactly (write_ending result) (next_fails self.old.fails self.old.calls) }
        ensures rest { self.new ≡ record self.old {
          taken = self.new.taken;
          calls = calls_after (write_ending result) self.old.calls;
          faults = faults_after (write_ending result) self.old.faults;
        } }
        ensures faults { CountsFaults (write_ending result) self.old.faults self.new.faults }
    {
        let call = self.calls.saturating_add(1);
        if self.fails.held().contains(&call) {
            self.calls = call;
            self.faults = self.faults.saturating_add(1);
            return Err(SinkFault::Failed);
        }
        let n = piece.len().min(self.most);
        if self.taken.append(&piece[..n]).is_err() {
            return Err(SinkFault::Memory);
        }
        self.calls = call;
        Ok(n)
    }
}

impl Sink for PlainSink {
    ghost written = { λ sink. Some sink.taken };

    ghost faults = { λ _. 0 };

    ghost takes_memory = { true };

    fn write(&mut self, piece: &[u8]) -> Result<usize, SinkFault>
        ensures count { IfOk result (λ n. n ≡ length piece.now) }
        ensures took { IfOk result (λ _. self.new.taken ≡ self.old.taken ++ piece.now) }
        ensures refused { OnErr result (self.new.taken ≡ self.old.taken) }
        ensures never_fails { IfErr result (λ fault. fault ≡ Memory) }
    {
        if self.taken.append(piece).is_err() {
            return Err(SinkFault::Memory);
        }
        Ok(piece.len())
    }
}
