//! What is read of an answer.
ghost use Rattle.std.specs.Prelude.{◌≡◌};
ghost use Rattle.std.specs.Option.{option_copied};
ghost use Rattle.solv_solved.specs.Proofs.{problems_in};
ghost use Rattle.solv_solved.specs.Readings.{answer_number, changes_in, order_in, set_in, cycles_in, changes_of, order_of, set_of, cycles_of, problems_of, number_of, line_of, problem_of, solutions_of, solution_of};

use crate::outcomes::Held;
use solv_answers::Answer;
use solv_list::Items;
use solv_pool::PackNo;
use solv_remedy::{Problem, Solution};
use solv_trans::Change;

/// The number of an answer.
fn answer_number(answer: &Answer) -> u8
    ensures { result ≡ answer_number answer.now }
{
    match answer {
        Answer::Transaction { .. } => 0,
        Answer::Problems(_) => 9,
        Answer::Spent => 5,
    }
}

/// The changes of an answer.
fn changes_in(answer: &Answer) -> &[Change]
    ensures { result.now ≡ changes_in answer.now }
{
    match answer {
        Answer::Transaction { changes, .. } => changes.held(),
        _ => &[],
    }
}

/// Their order.
fn order_in(answer: &Answer) -> &[PackNo]
    ensures { result.now ≡ order_in answer.now }
{
    match answer {
        Answer::Transaction { ordered, .. } => ordered.parts.held(),
        _ => &[],
    }
}

/// The packages that are there after them, with the system.
fn set_in(answer: &Answer) -> &[PackNo]
    ensures { result.now ≡ set_in answer.now }
{
    match answer {
        Answer::Transaction { set, .. } => set.held(),
        _ => &[],
    }
}

/// The cycles in what its parts require of each other: of pre-requirements, or of all requirements.
fn cycles_in(pre: bool, answer: &Answer) -> &[Items<PackNo>]
    ensures { result.now ≡ cycles_in pre answer.now }
{
    match answer {
        Answer::Transaction { ordered, .. } => {
            if pre {
                ordered.pre_cycles.held()
            } else {
                ordered.cycles.held()
            }
        }
        _ => &[],
    }
}

/// The problems of an answer.
pub(crate) fn problems_in(answer: &Answer) -> &[Problem]
    ensures { result.now ≡ problems_in answer.now }
{
    match answer {
        Answer::Problems(problems) => problems.held(),
        _ => &[],
    }
}

impl Held {
    /// What it is: 0 for a transaction, 9 for problems, 5 where the budget is spent, 10 for a task that has no answer yet, and for a refusal the
    /// number of its status.
    pub fn number(&self) -> u8
        ensures { result ≡ number_of self.now }
    {
        match self {
            Held::Answered(solved) => answer_number(&solved.answer),
            Held::Refused(due) => due.status.number(),
            Held::Open(_) => 10,
        }
    }

    /// The line on what is wrong, of a refusal, or of the last call that was to build. An answer has none.
    pub fn line(&self) -> &[u8]
        ensures { result.now ≡ line_of self.now }
    {
        match self {
            Held::Answered(_) => &[],
            Held::Refused(due) => due.err.held(),
            Held::Open(opened) => opened.said.held(),
        }
    }

    /// What a transaction changes. Where there is none, nothing does.
    pub fn changes(&self) -> &[Change]
        ensures { result.now ≡ changes_of self.now }
    {
        match self {
            Held::Answered(solved) => changes_in(&solved.answer),
            Held::Refused(_) | Held::Open(_) => &[],
        }
    }

    /// The packages that come and those that go, in the order in which a transaction is made.
    pub fn order(&self) -> &[PackNo]
        ensures { result.now ≡ order_of self.now }
    {
        match self {
            Held::Answered(solved) => order_in(&solved.answer),
            Held::Refused(_) | Held::Open(_) => &[],
        }
    }

    /// The packages that are there after a transaction, with the system, ascending.
    pub fn set(&self) -> &[PackNo]
        ensures { result.now ≡ set_of self.now }
    {
        match self {
            Held::Answered(solved) => set_in(&solved.answer),
            Held::Refused(_) | Held::Open(_) => &[],
        }
    }

    /// The cycles in what the parts of a transaction require of each other: of pre-requirements, or of all requirements; each ascending, by their lowest
    /// members.
    pub fn cycles(&self, pre: bool) -> &[Items<PackNo>]
        ensures { result.now ≡ cycles_of pre self.now }
    {
        match self {
            Held::Answered(solved) => cycles_in(pre, &solved.answer),
            Held::Refused(_) | Held::Open(_) => &[],
        }
    }

    /// The problems. A transaction has none.
    pub fn problems(&self) -> &[Problem]
        ensures { result.now ≡ problems_of self.now }
    {
        match self {
            Held::Answered(solved) => problems_in(&solved.answer),
            Held::Refused(_) | Held::Open(_) => &[],
        }
    }

    /// The problem of this number, from 0 on.
    pub fn problem(&self, problem: usize) -> Option<&Problem>
        ensures { option_copied result ≡ problem_of self.now problem }
    {
        self.problems().get(problem)
    }

    /// Its solution of this number, from 0 on.
    pub fn solution(&self, problem: usize, solution: usize) -> Option<&Solution>
        ensures { option_copied result ≡ solution_of self.now problem solution }
    {
        match self.problem(problem) {
            Some(problem) => problem.solutions.held().get(solution),
            None => None,
        }
    }
}
