//! What holds over all clauses where it holds over those that are made.
#![tactic(auto)]

pub mod moving;
pub mod places;

ghost use Rattle.std.specs.Prelude.{◌≡◌, true};
ghost use Rattle.solv_over.specs.Inner.Places.{LedgersWiden, LogsWiden};
ghost use Rattle.solv_over.specs.Inner.Trails.{TrailsWiden};
ghost use Rattle.solv_over.specs.Inner.Widened.{ChoicesWiden, PropagationWidens};

pub use moving::{is_inside, moved_ledger, moved_problems};
pub use places::Places;

/// Unit propagation over all clauses knows what it knows over those that are made, and else at most that something is out that is left out.
pub fn propagation_widens()
    ensures { PropagationWidens }
{}

/// A guide's choices are the same over all clauses, and meet a conflict where they do over those that are made.
pub fn choices_widen()
    ensures { ChoicesWiden }
{}

/// A good trail over the clauses that are made is a good trail over all, but for events that say of something left out that it is out.
pub fn trails_widen()
    ensures { TrailsWiden }
{}

/// A good log over the clauses that are made is a good log over all, its hints at the places among all.
pub fn logs_widen()
    ensures { LogsWiden }
{}

/// A good ledger over the clauses that are made is a good ledger over all, where no clause that it holds speaks of what is left out.
pub fn ledgers_widen()
    ensures { LedgersWiden }
{}

/// Cites lemmas that no law cites yet.
pub fn lemmas_hold()
    ensures { true ≡ true }
{}
