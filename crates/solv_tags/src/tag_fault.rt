use solv_deps::DepFault;
use thiserror::Error;

/// Why a line of a testtags file is refused.
#[derive(Clone, Copy, PartialEq, Eq, Debug, Error)]
pub enum TagCause {
    /// The dependency's first cause. It is neither `FullNames` nor `Memory`, which are causes of their own.
    #[error("{0}")]
    Dep(DepFault),
    /// A package has other than four words.
    #[error("BadPackageLine")]
    BadPackageLine,
    /// What belongs to a package stands before the first one.
    #[error("TagBeforePackage")]
    TagBeforePackage,
    /// The file ends with a block open. It stands at the last line.
    #[error("UnclosedBlock")]
    UnclosedBlock,
    /// A package is one more than 1,048,575.
    #[error("TooManyPackages")]
    TooManyPackages,
    /// A text is new, and the pool has 2^24.
    #[error("FullNames")]
    FullNames,
    /// There was no memory.
    #[error("Memory")]
    Memory,
}

/// The first bad line of a testtags file.
#[derive(Clone, Copy, PartialEq, Eq, Debug, Error)]
#[error("{line}: {cause}")]
pub struct TagFault {
    /// The number of the line, the first having 1.
    pub line: u64,
    pub cause: TagCause,
}
