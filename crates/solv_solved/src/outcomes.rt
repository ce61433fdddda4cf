//! The outcome of a script, or of calls that build a task.
use crate::opened::Opened;
use crate::with_answer::Solved;
use solv_said::Due;

/// What a script comes to: an answer to its first round, or what is due where there is none. Or what calls have built, which has no answer yet.
#[derive(Drop)]
pub enum Held {
    /// The first round is answered, or the task that calls have built.
    Answered(Solved),
    /// The script cannot be read, or is refused, or its clauses pass a limit.
    Refused(Due),
    /// A task that calls build.
    Open(Opened),
}
