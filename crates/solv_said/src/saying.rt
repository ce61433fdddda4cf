//! Writes a run's output to its two sinks.
ghost use Rattle.std.specs.Prelude.{◌≡◌, ◌⊎◌, ℕ, true, List, Option, IfOk, OnErr};
ghost use Rattle.solv_said.specs.Inner.Parts.{IsSaidInPart};
ghost use Rattle.solv_said.specs.Runs.{IsSaid, SinkRun, sink_run};

use crate::dues::Due;
use solv_io::{Sink, SinkFault, Status, put};
use std::alloc::AllocError;

/// Writes each text to its sink, and gives the status: the one that is due, or that of a write fault, which ends the writing.
/// It runs out of memory only where one of the sinks takes some, and then a prefix of each text is written.
pub fn say<O: Sink, E: Sink>(due: &Due, out: &mut O, err: &mut E) -> Result<Status, AllocError>
    ensures said { IfOk result (λ status. IsSaid due.now status
        (sink_run O.written O.faults out.old out.new)
        (sink_run E.written E.faults err.old err.new)) }
    ensures wanting { OnErr result (IsSaidInPart due.now
        (sink_run O.written O.faults out.old out.new)
        (sink_run E.written E.faults err.old err.new)) }
    ensures memory { OnErr result ((O.takes_memory ≡ true) ⊎ (E.takes_memory ≡ true)) }
{
    match put(out, due.out.held()) {
        Ok(()) => {}
        Err(SinkFault::Failed) => return Ok(Status::WriteFault),
        Err(SinkFault::Memory) => return Err(AllocError),
    }
    match put(err, due.err.held()) {
        Ok(()) => Ok(due.status),
        Err(SinkFault::Failed) => Ok(Status::WriteFault),
        Err(SinkFault::Memory) => Err(AllocError),
    }
}
