ghost use Rattle.std.specs.Prelude.{◌≡◌, ◌↔◌};
ghost use Rattle.std.specs.IoError.{error_kind};
ghost use Rattle.std.specs.declared.io.ErrorKind.TheVariants.{OutOfMemory};
ghost use Rattle.solv_io.specs.declared.faults.FileFault.TheVariants.{Memory};

use std::io;
use std::io::ErrorKind;
use thiserror::Error;

/// Why a file was not fetched.
#[derive(Clone, Copy, PartialEq, Eq, Debug, Drop, Error)]
pub enum FileFault {
    /// The file could not be opened or read. A missing file is such a failure.
    #[error("Failed")]
    Failed,
    /// No memory was left for its bytes.
    #[error("Memory")]
    Memory,
}

/// Why a piece was not written.
#[derive(Clone, Copy, PartialEq, Eq, Debug, Drop, Error)]
pub enum SinkFault {
    /// The sink refused the piece, or took nothing of it.
    #[error("Failed")]
    Failed,
    /// No memory was left to keep it.
    #[error("Memory")]
    Memory,
}

/// Why a file of the system was not read.
pub(crate) fn file_fault(error: &io::Error) -> FileFault
    ensures { (result ≡ Memory) ↔ (error_kind error.now ≡ OutOfMemory) }
{
    match error.kind() {
        ErrorKind::OutOfMemory => FileFault::Memory,
        _ => FileFault::Failed,
    }
}
