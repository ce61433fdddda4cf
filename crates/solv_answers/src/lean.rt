//! The answer to a task by the rules of what can be asked for.
ghost use Rattle.std.specs.Prelude.{◌≡◌, ◌≤◌, [], None, false, true, length, IfOk, IfSome};
ghost use Rattle.std.specs.List.{list_all};
ghost use Rattle.solv_pool.specs.Prelude.{catalog_of, hard_rules as all_rules, IsClosed};
ghost use Rattle.solv_prov.specs.Index.{IsIndexOf};
ghost use Rattle.solv_jobs.specs.Marking.{HasMarks};
ghost use Rattle.solv_rules.specs.Books.{first_fault, read_rules};
ghost use Rattle.solv_pool.specs.TaskForms.{asks_in_form};
ghost use Rattle.solv_over.specs.Inner.Places.{PlacesOf};
ghost use Rattle.solv_answers.specs.Answers.{IsAnswered, IsTransactionUnlessChoicesClash, is_transaction};
ghost use Rattle.solv_answers.specs.Inner.Made.{IsAnsweredMade, answer_at};
ghost use Rattle.solv_answers.specs.Inner.Lean.{HasLeft, IsMade};

use crate::answering::{Given, answer_made};
use crate::answers::{Answer, Answered};
use crate::making::hard_rules;
use crate::preparing::{Prepared, marks, prepare_anew};
use solv_core::Ledger;
use solv_leaving::{all_fit, all_rules_fit, left_out};
use solv_list::Items;
use solv_over::{Places, is_inside, moved_ledger, moved_problems};
use solv_pool::laws::{clauses_name_packages, clauses_say_the_rule};
use solv_pool::{Marks, Rules, Task};
use solv_prov::Providers;
use solv_questions::questions_keep_the_law;
use solv_rules::{BookFault, hard_rules_are_bookable};
use std::alloc::{AllocError, Global};

/// The marks of a task with the packages that nothing can ask for.
fn lean_marks(alloc: Global, task: &Task, prov: &Providers) -> Result<Marks, AllocError>
    requires index { IsIndexOf prov.now (catalog_of task.now) }
    requires closed { IsClosed task.now }
    ensures left { IfOk result (HasLeft task.now) }
    ensures each { IfOk result (λ marks. HasMarks (length task.now.universe.packages) marks) }
{
    let mut lean = marks(alloc, task, prov)?;
    let left = left_out(alloc, task, prov, &lean)?;
    lean.left_out = Items::wrap(left);
    Ok(lean)
}

/// What a task of these marks is prepared with, where the clauses of all hard rules would pass no limit.
fn prepare_lean<'a>(
    alloc: Global,
    task: &Task,
    prov: &'a Providers,
    marks: Marks,
) -> Result<Option<Prepared<'a>>, AllocError>
    requires closed { IsClosed task.now }
    requires formed { list_all (asks_in_form (catalog_of task.now)) task.now.universe.packages ≡ true }
    requires index { IsIndexOf prov.now (catalog_of task.now) }
    requires left { HasLeft task.now marks }
    requires each { HasMarks (length task.now.universe.packages) marks }
    ensures { IfOk result (λ prepared. IfSome prepared (IsMade task.now)) }
{
    all_rules_fit();
    hard_rules_are_bookable();
    let prepared = match prepare_anew(alloc, task, prov, marks) {
        Ok(prepared) => prepared,
        Err(BookFault::Memory) => return Err(AllocError),
        Err(_) => return Ok(None),
    };
    let out = prepared.marks.left_out.held();
    if !all_fit(task, prov, out, prepared.book.words()) {
        return Ok(None);
    }
    Ok(Some(prepared))
}

/// An answer with the numbers of its rules among all hard rules.
fn moved_answer(alloc: Global, places: &Places<'_>, answer: Answer) -> Result<Answer, AllocError>
    ensures { IfOk result (λ moved. moved ≡ answer_at places.now answer) }
{
    match answer {
        Answer::Problems(problems) => {
            Ok(Answer::Problems(moved_problems(alloc, places, problems)?))
        }
        other => Ok(other),
    }
}

/// Whether an answer names rules.
fn names_rules(answer: &Answer) -> bool
    ensures { result ≡ false → (places others : PlacesOf) → answer_at places answer.now ≡ answer_at others answer.now }
{
    match answer {
        Answer::Transaction { .. } => false,
        Answer::Problems(_) => true,
        Answer::Spent => false,
    }
}

/// Whether something was learnt.
fn has_learnt(ledger: &Ledger) -> bool
    ensures { result ≡ false → ledger.now.entries ≡ [] }
{
    !ledger.entries.is_empty()
}

/// Whether an answer, or what was learnt for it, names rules or clauses.
fn names_some(answer: &Answer, ledger: &Ledger) -> bool
    ensures answer { result ≡ false → (places others : PlacesOf) → answer_at places answer.now ≡ answer_at others answer.now }
    ensures learnt { result ≡ false → ledger.now.entries ≡ [] }
{
    names_rules(answer) || has_learnt(ledger)
}

/// An answer by the rules that are made with the numbers of all rules and clauses among those of all hard rules. Nothing where a learnt clause speaks of a package
/// that is left out, which no search gives.
fn moved(
    alloc: Global,
    task: &Task,
    prov: &Providers,
    prepared: &Prepared<'_>,
    budget: u32,
    answered: Answered,
) -> Result<Option<Answered>, AllocError>
    requires closed { IsClosed task.now }
    requires index { IsIndexOf prov.now (catalog_of task.now) }
    requires prepared { IsMade task.now prepared.now }
    requires made { IsAnsweredMade task.now prepared.now.marks.left_out budget answered.answer answered.ledger }
    ensures { IfOk result (λ o. IfSome o (λ a. IsAnswered task.now budget a.answer a.ledger)) }
{
    clauses_name_packages();
    clauses_say_the_rule();
    let left = prepared.marks.left_out.held();
    let Answered { answer, ledger } = answered;
    if !is_inside(&ledger, left, task.universe.count()) {
        return Ok(None);
    }
    let names = names_some(&answer, &ledger);
    let places = Places::of(alloc, task, prov, left, &prepared.book, names)?;
    let ledger = moved_ledger(alloc, &places, ledger)?;
    let answer = moved_answer(alloc, &places, answer)?;
    Ok(Some(Answered { answer, ledger }))
}

/// The hard rules of a task, where an answer names some.
fn rules_named(
    alloc: Global,
    task: &Task,
    prov: &Providers,
    prepared: Prepared<'_>,
    answer: &Answer,
) -> Result<Rules, AllocError>
    requires closed { IsClosed task.now }
    requires formed { list_all (asks_in_form (catalog_of task.now)) task.now.universe.packages ≡ true }
    requires index { IsIndexOf prov.now (catalog_of task.now) }
    requires prepared { IsMade task.now prepared }
    ensures { IfOk result (λ rules. is_transaction answer.now ≡ false → read_rules rules ≡ all_rules task.now) }
{
    match answer {
        Answer::Transaction { .. } => Ok(Rules {
            list: Items::wrap(Vec::new(alloc)),
            sets: Items::wrap(Vec::new(alloc)),
        }),
        _ => {
            let marks = prepared.into_marks(alloc);
            hard_rules(alloc, task, prov, &marks)
        }
    }
}

/// An answer, and the hard rules of its task, where it names some.
#[derive(Drop)]
pub struct LeanAnswer {
    pub answered: Answered,
    pub rules: Rules,
}

/// The answer to a task whose clauses pass no limit, by the rules of what can be asked for. No rules are made of what packages require
/// that nothing can ask for, which most packages of a large repository are. Nothing where a limit may be passed.
pub fn answer_lean(
    alloc: Global,
    task: &Task,
    prov: &Providers,
    budget: u32,
) -> Result<Option<LeanAnswer>, AllocError>
    requires closed { IsClosed task.now }
    requires formed { list_all (asks_in_form (catalog_of task.now)) task.now.universe.packages ≡ true }
    requires index { IsIndexOf prov.now (catalog_of task.now) }
    requires budget { budget ≤ 1000000 }
    ensures good { IfOk result (λ o. IfSome o (λ a. IsAnswered task.now budget a.answered.answer a.answered.ledger)) }
    ensures direct { IfOk result (λ o. IfSome o (λ a. IsTransactionUnlessChoicesClash task.now a.answered.answer)) }
    ensures rules { IfOk result (λ o. IfSome o (λ a. is_transaction a.answered.answer ≡ false → read_rules a.rules ≡ all_rules task.now)) }
    ensures fits { IfOk result (λ o. IfSome o (λ a. first_fault (catalog_of task.now) 0 (all_rules task.now) ≡ None)) }
{
    questions_keep_the_law();
    clauses_name_packages();
    clauses_say_the_rule();
    let marks = lean_marks(alloc, task, prov)?;
    let prepared = match prepare_lean(alloc, task, prov, marks)? {
        Some(prepared) => prepared,
        None => return Ok(None),
    };
    let Given { answered, left } = answer_made(alloc, task, &prepared, None, false, budget)?;
    drop(left);
    match moved(alloc, task, prov, &prepared, budget, answered)? {
        Some(answered) => {
            let rules = rules_named(alloc, task, prov, prepared, &answered.answer)?;
            Ok(Some(LeanAnswer { answered, rules }))
        }
        None => Ok(None),
    }
}
