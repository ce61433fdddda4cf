//! Why a task is not given what a call gives.
ghost use Rattle.std.specs.Prelude.{◌≡◌};
ghost use Rattle.solv_draft.specs.Inner.Faults.{fault_of_text, fault_of_tag};

use solv_commands::Cause;
use solv_tags::{DepFault, TagCause};

/// Why a task is not given what a call gives.
#[derive(Clone, Copy, PartialEq, Eq, Debug)]
pub enum DraftFault {
    /// A text is refused: the number of its first bad line, from 1, and the cause.
    Refused { line: u64, cause: Cause },
    /// A number names nothing.
    Misused,
    /// Out of memory.
    Memory,
}

/// The fault at a line whose dependency or text is refused so.
pub(crate) fn fault_of_text(line: u64, fault: DepFault) -> DraftFault
    ensures { result ≡ fault_of_text line fault }
{
    let cause = match fault {
        DepFault::BadOperator => Cause::BadOperator,
        DepFault::MissingOperand => Cause::MissingOperand,
        DepFault::MixedOperators => Cause::MixedOperators,
        DepFault::UnclosedParenthesis => Cause::UnclosedParenthesis,
        DepFault::TooDeep => Cause::TooDeep,
        DepFault::OperatorNotHere => Cause::OperatorNotHere,
        DepFault::FullNames => Cause::FullNames,
        DepFault::FullRelations => Cause::FullRelations,
        DepFault::Memory => return DraftFault::Memory,
    };
    DraftFault::Refused { line, cause }
}

/// The fault at a line that the reader of testtags refuses so.
pub(crate) fn fault_of_tag(line: u64, fault: TagCause) -> DraftFault
    ensures { result ≡ fault_of_tag line fault }
{
    let cause = match fault {
        TagCause::Dep(fault) => return fault_of_text(line, fault),
        TagCause::BadPackageLine => Cause::BadPackageLine,
        TagCause::TagBeforePackage => Cause::TagBeforePackage,
        TagCause::UnclosedBlock => Cause::UnclosedBlock,
        TagCause::TooManyPackages => Cause::TooManyPackages,
        TagCause::FullNames => Cause::FullNames,
        TagCause::Memory => return DraftFault::Memory,
    };
    DraftFault::Refused { line, cause }
}
