//! A script that is read and answered.
ghost use Rattle.std.specs.Prelude.{◌≡◌, ◌≤◌, true, None, IfOk, IfErr, OnOk};
ghost use Rattle.solv_pool.specs.Prelude.{catalog_of, hard_rules, IsClosed};
ghost use Rattle.solv_pool.specs.TaskForms.{HasForms};
ghost use Rattle.solv_prov.specs.Index.{IsIndexOf};
ghost use Rattle.solv_rules.specs.Books.{IsDue, first_fault, read_rules};
ghost use Rattle.solv_answers.specs.Answers.{IsAnswered, IsPrepared, IsTransactionUnlessChoicesClash};
ghost use Rattle.solv_said.specs.Inner.Faults.{IsFaultDue};
ghost use Rattle.solv_said.specs.Runs.{files_run};
ghost use Rattle.solv_solved.specs.Inner.Answering.{IsRefusalOf};
ghost use Rattle.solv_solved.specs.Inner.Finding.{IsFoundAnswer};
ghost use Rattle.solv_solved.specs.Inner.Proving.{are_proved};
ghost use Rattle.solv_solved.specs.Proofs.{problems_in};
ghost use Rattle.solv_solved.specs.Solvings.{IsHeldFor, IsHeldOf, IsSolved};

use crate::outcomes::Held;
use crate::proving::answer_is_proved;
use crate::with_answer::Solved;
use solv_answers::{Answered, Prepared, answer, prepare};
use solv_io::Files;
use solv_list::Items;
use solv_pool::{Rules, Task};
use solv_prov::Providers;
use solv_rules::{Book, BookFault};
use solv_said::{fault_due, fetch_script, limit_due};
use solv_script::{Script, ScriptFault};
use std::alloc::{AllocError, Global};
use std::mem::replace;

/// The name that stands before the line on what is wrong.
pub(crate) const PROGRAM: &str = "gachuswi";

/// An answer, and the hard rules of its task.
#[derive(Drop)]
pub(crate) struct WithRules {
    pub(crate) answered: Answered,
    pub(crate) rules: Rules,
}

/// The rules that a task was prepared with, which are taken out.
fn take_rules(alloc: Global, task: &Task, prepared: &mut Prepared<'_>) -> Result<Rules, AllocError>
    requires { IsPrepared task.now prepared.old }
    ensures { IfOk result (λ rules. rules ≡ prepared.old.book.rules) }
{
    let none = Rules {
        list: Items::wrap(Vec::new(alloc)),
        sets: Items::wrap(Vec::new(alloc)),
    };
    let Ok(empty) = Book::make(alloc, task, prepared.prov, none) else {
        return Err(AllocError);
    };
    let book = replace(&mut prepared.book, empty);
    let (list, sets) = (book.rules().list.len(), book.rules().sets.len());
    let (rules, draft) = book.front(alloc, list, sets);
    drop(draft);
    Ok(rules)
}

/// The answer to a task that is prepared, with its hard rules.
fn answer_with_rules(
    alloc: Global,
    task: &Task,
    prepared: &mut Prepared<'_>,
    budget: u32,
) -> Result<WithRules, AllocError>
    requires closed { IsClosed task.now }
    requires forms { HasForms task.now }
    requires prepared { IsPrepared task.now prepared.old }
    requires budget { budget ≤ 1000000 }
    ensures good { IfOk result (λ a. IsAnswered task.now budget a.answered.answer a.answered.ledger) }
    ensures direct { IfOk result (λ a. IsTransactionUnlessChoicesClash task.now a.answered.answer) }
    ensures rules { IfOk result (λ a. read_rules a.rules ≡ hard_rules task.now) }
    ensures proved { IfOk result (λ a. are_proved task.now (problems_in a.answered.answer) ≡ true) }
{
    let answered = answer(alloc, task, prepared, budget)?;
    answer_is_proved(task, &answered, budget);
    let rules = take_rules(alloc, task, prepared)?;
    Ok(WithRules { answered, rules })
}

/// The answer to a task by its index, with its hard rules; or the first limit that its clauses pass.
pub(crate) fn answer_of(
    alloc: Global,
    task: &Task,
    prov: &Providers,
    budget: u32,
) -> Result<WithRules, BookFault>
    requires closed { IsClosed task.now }
    requires forms { HasForms task.now }
    requires index { IsIndexOf prov.now (catalog_of task.now) }
    requires budget { budget ≤ 1000000 }
    ensures good { IfOk result (λ a. IsAnswered task.now budget a.answered.answer a.answered.ledger) }
    ensures direct { IfOk result (λ a. IsTransactionUnlessChoicesClash task.now a.answered.answer) }
    ensures rules { IfOk result (λ a. read_rules a.rules ≡ hard_rules task.now) }
    ensures proved { IfOk result (λ a. are_proved task.now (problems_in a.answered.answer) ≡ true) }
    ensures fits { OnOk result (first_fault (catalog_of task.now) 0 (hard_rules task.now) ≡ None) }
    ensures fault { IfErr result (IsDue (first_fault (catalog_of task.now) 0 (hard_rules task.now))) }
{
    let mut prepared = match prepare(alloc, task, prov) {
        Ok(prepared) => prepared,
        Err(fault) => return Err(fault),
    };
    match answer_with_rules(alloc, task, &mut prepared, budget) {
        Ok(answered) => Ok(answered),
        Err(_) => Err(BookFault::Memory),
    }
}

/// The index of a task, and the answer to it with the hard rules; or the first limit that its clauses pass.
pub(crate) fn index_and_answer(
    alloc: Global,
    task: &Task,
    budget: u32,
) -> Result<(Providers, WithRules), BookFault>
    requires closed { IsClosed task.now }
    requires forms { HasForms task.now }
    requires budget { budget ≤ 1000000 }
    ensures index { IfOk result (λ made. IsIndexOf made.0 (catalog_of task.now)) }
    ensures good { IfOk result (λ made. IsAnswered task.now budget made.1.answered.answer made.1.answered.ledger) }
    ensures direct { IfOk result (λ made. IsTransactionUnlessChoicesClash task.now made.1.answered.answer) }
    ensures rules { IfOk result (λ made. read_rules made.1.rules ≡ hard_rules task.now) }
    ensures proved { IfOk result (λ made. are_proved task.now (problems_in made.1.answered.answer) ≡ true) }
    ensures fits { OnOk result (first_fault (catalog_of task.now) 0 (hard_rules task.now) ≡ None) }
    ensures fault { IfErr result (IsDue (first_fault (catalog_of task.now) 0 (hard_rules task.now))) }
{
    let Ok(prov) = Providers::build(alloc, task) else {
        return Err(BookFault::Memory);
    };
    match answer_of(alloc, task, &prov, budget) {
        Ok(answered) => Ok((prov, answered)),
        Err(fault) => Err(fault),
    }
}

/// A script with its answer.
pub(crate) fn solved(script: Script, prov: Providers, given: WithRules, budget: u32) -> Solved
    requires closed { IsClosed script.task }
    requires forms { HasForms script.task }
    requires found { IsFoundAnswer budget script.task prov given }
    ensures { IsSolved budget script result }
{
    let _ = budget;
    let WithRules { answered, rules } = given;
    let Answered { answer, ledger } = answered;
    Solved {
        script,
        prov,
        rules,
        answer,
        ledger,
    }
}

/// What a script comes to that was read.
fn held_for(alloc: Global, script: Script, budget: u32) -> Result<Held, AllocError>
    requires closed { IsClosed script.task }
    requires forms { HasForms script.task }
    requires budget { budget ≤ 1000000 }
    ensures { IfOk result (IsHeldFor budget script) }
{
    match index_and_answer(alloc, &script.task, budget) {
        Ok((prov, given)) => Ok(Held::Answered(solved(script, prov, given, budget))),
        Err(BookFault::Memory) => Err(AllocError),
        Err(fault) => Ok(Held::Refused(limit_due(alloc, PROGRAM, &script.task, fault)?)),
    }
}

/// What a script comes to that was not read.
fn held_for_fault(alloc: Global, fault: ScriptFault) -> Result<Held, AllocError>
    ensures { IfOk result (IsRefusalOf fault) }
{
    Ok(Held::Refused(fault_due(alloc, PROGRAM, fault)?))
}

/// Reads the script in a file, and answers its first round, whatever rounds follow it.
pub fn solve_script<F: Files>(
    alloc: Global,
    file: &str,
    files: &mut F,
    budget: u32,
) -> Result<Held, AllocError>
    requires budget { budget ≤ 1000000 }
    ensures { IfOk result (IsHeldOf file.now (files_run F.contents F.asked F.faults files.old files.new) budget) }
{
    match fetch_script(alloc, file, files) {
        Ok(script) => held_for(alloc, script, budget),
        Err(fault) => held_for_fault(alloc, fault),
    }
}
