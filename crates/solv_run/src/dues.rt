//! The outcome of a run: its output, and the answers that it reports.
ghost use Rattle.std.specs.Prelude.{◌≡◌, ◌&&◌, ◌∷◌, ◌++◌, [], Bool, IfOk, OnOk};
ghost use Rattle.solv_run.specs.Cases.{nothing_reached};
ghost use Rattle.solv_run.specs.Inner.ByOutput.{one_reached};
ghost use Rattle.solv_run.specs.Dues.{status_of};
ghost use Rattle.solv_run.specs.Inner.Phases.{concluded};

use crate::reports::Reached;
use solv_answers::{Answer, Answered};
use solv_io::Status;
use solv_list::Items;
use solv_said::Due;
use std::alloc::{AllocError, Global};

/// The name that stands before the lines on `err`.
pub(crate) const PROGRAM: &str = "testsolv";

/// What a run comes to: what is due, and the answers that are reported with what was learnt for each.
#[derive(Drop)]
pub struct Conclusion {
    pub due: Due,
    pub reached: Reached,
}

/// The status of answers: whether the budget was spent, and else whether all is as the script expects.
pub(crate) fn status_of(spent: bool, as_wanted: bool) -> Status
    ensures { result ≡ status_of spent as_wanted }
{
    if spent {
        Status::Spent
    } else if as_wanted {
        Status::Done
    } else {
        Status::Differs
    }
}

/// No answer.
pub(crate) fn nothing_reached(alloc: Global) -> Reached
    ensures { result ≡ nothing_reached }
{
    Reached {
        answers: Items::wrap(Vec::new(alloc)),
        ledgers: Items::wrap(Vec::new(alloc)),
    }
}

/// What is due where there is no answer.
pub(crate) fn unanswered(alloc: Global, due: Due) -> Conclusion
    ensures { result ≡ concluded due nothing_reached }
{
    Conclusion {
        due,
        reached: nothing_reached(alloc),
    }
}

/// What is due where there is one answer.
pub(crate) fn with_answer(
    alloc: Global,
    due: Due,
    answered: Answered,
) -> Result<Conclusion, AllocError>
    ensures { IfOk result (λ c. c ≡ concluded due (one_reached answered.answer answered.ledger)) }
{
    let mut reached = nothing_reached(alloc);
    reached.push(answered)?;
    Ok(Conclusion { due, reached })
}

impl Reached {
    /// Appends an answer, with what was learnt for it.
    pub(crate) fn push(&mut self, answered: Answered) -> Result<(), AllocError>
        ensures { OnOk result (self.new ≡ record { answers = self.old.answers ++ answered.answer ∷ []; ledgers = self.old.ledgers ++ answered.ledger ∷ [] }) }
    {
        let Answered { answer, ledger } = answered;
        self.answers.push(answer)?;
        self.ledgers.push(ledger)?;
        Ok(())
    }
}
