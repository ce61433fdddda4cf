//! A task that is answered anew, with other flags and jobs.
ghost use Rattle.std.specs.Prelude.{◌≡◌, ◌≤◌, true, length, map, IfOk, IfErr, OnOk, OnErr};
ghost use Rattle.solv_pool.specs.Prelude.{catalog_of, hard_rules};
ghost use Rattle.solv_rules.specs.Books.{IsDue, first_fault};
ghost use Rattle.solv_solved.specs.Anew.{IsAgain, IsHeldAgain, IsHeldSame, IsSame};
ghost use Rattle.solv_draft.specs.JobRows.{are_rows, job_of, with_rows};
ghost use Rattle.solv_solved.specs.Solvings.{IsSolved};

use crate::outcomes::Held;
use crate::solving::{WithRules, answer_of};
use crate::with_answer::Solved;
use solv_answers::Answered;
use solv_draft::{FlagRow, JobRow, are_rows, flags_of, jobs_of};
use solv_list::Items;
use solv_pool::Job;
use solv_rules::BookFault;
use std::alloc::{AllocError, Global};
use std::mem::replace;

/// How a task is answered anew.
#[derive(Clone, Copy, PartialEq, Eq, Debug, Drop)]
pub enum Again {
    /// It has an answer.
    Answered,
    /// Its clauses pass a limit, and nothing changed.
    Passes,
    /// A job is none that there is, or there was no answer before, and nothing changed.
    Misused,
}

impl Solved {
    /// Answers the task with these flags and jobs in place of its own, over its index; or reports the first limit that its clauses pass, and then
    /// nothing changes.
    fn answer_again(
        &mut self,
        alloc: Global,
        flags: &FlagRow,
        rows: &[JobRow<'_>],
        jobs: Items<Job>,
        budget: u32,
    ) -> Result<(), BookFault>
        requires rows { are_rows (length self.old.script.task.universe.packages) rows.now ≡ true }
        requires jobs { jobs ≡ map job_of rows.now }
        requires budget { budget ≤ 1000000 }
        ensures solved { OnOk result (IsSolved budget (with_rows self.old.script flags.now rows.now) self.new) }
        ensures same { OnErr result (IsSame self.old self.new) }
        ensures fault { IfErr result (IsDue (first_fault (catalog_of (with_rows self.old.script flags.now rows.now).task) 0 (hard_rules (with_rows self.old.script flags.now rows.now).task))) }
    {
        let _ = rows;
        let flags_before = replace(&mut self.script.task.flags, flags_of(flags));
        let before = replace(&mut self.script.task.jobs, jobs);
        match answer_of(alloc, &self.script.task, &self.prov, budget) {
            Ok(given) => {
                let WithRules { answered, rules } = given;
                let Answered { answer, ledger } = answered;
                self.answer = answer;
                self.ledger = ledger;
                self.rules = rules;
                Ok(())
            }
            Err(fault) => {
                self.script.task.flags = flags_before;
                self.script.task.jobs = before;
                Err(fault)
            }
        }
    }

    /// The same of jobs by numbers.
    pub fn solve_again(
        &mut self,
        alloc: Global,
        flags: &FlagRow,
        rows: &[JobRow<'_>],
        budget: u32,
    ) -> Result<Again, AllocError>
        requires { budget ≤ 1000000 }
        ensures ended { IfOk result (IsAgain budget flags.now rows.now self.old self.new) }
        ensures same { OnErr result (IsSame self.old self.new) }
    {
        if !are_rows(self.script.task.universe.count(), rows) {
            return Ok(Again::Misused);
        }
        let jobs = jobs_of(alloc, rows)?;
        match self.answer_again(alloc, flags, rows, jobs, budget) {
            Ok(()) => Ok(Again::Answered),
            Err(BookFault::Memory) => Err(AllocError),
            Err(_) => Ok(Again::Passes),
        }
    }
}

impl Held {
    /// Answers the task anew with these flags and jobs in place of its own, over the index that is there, where there is an answer before.
    pub fn solve_again(
        &mut self,
        alloc: Global,
        flags: &FlagRow,
        rows: &[JobRow<'_>],
        budget: u32,
    ) -> Result<Again, AllocError>
        requires { budget ≤ 1000000 }
        ensures ended { IfOk result (IsHeldAgain budget flags.now rows.now self.old self.new) }
        ensures same { OnErr result (IsHeldSame self.old self.new) }
    {
        match self {
            Held::Answered(solved) => solved.solve_again(alloc, flags, rows, budget),
            Held::Refused(_) => Ok(Again::Misused),
            Held::Open(_) => Ok(Again::Misused),
        }
    }
}
