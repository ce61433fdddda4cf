//! What calls answer by numbers, besides the numbers of answers and statuses.

/// What a call answers that is done, or whose numbers name something.
pub(crate) const DONE: i32 = 0;

/// What a call answers where a text is refused, or the clauses pass a limit.
pub(crate) const REFUSED: i32 = 2;

/// What a call answers where memory ran out.
pub(crate) const NO_MEMORY: i32 = 6;

/// What a call answers that was made wrongly.
pub(crate) const MISUSED: i32 = 8;

/// The greatest budget. A call with a greater one is made wrongly.
pub(crate) const MOST_LEARNT: u32 = 1_000_000;
