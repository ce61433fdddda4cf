//! The answer for a task: one run with every rule enabled.
ghost use Rattle.std.specs.Prelude.{◌≡◌, ◌≤◌, ◌+◌, ◌==◌, ◌∷◌, [], None, true, length, replicate, IfOk, IfSome};
ghost use Rattle.std.specs.List.{list_all, range_with_len};
ghost use Rattle.solv_pool.specs.Prelude.{catalog_of, IsClosed};
ghost use Rattle.solv_prov.specs.Index.{IsIndexOf};
ghost use Rattle.solv_jobs.specs.Marking.{HasMarks};
ghost use Rattle.solv_rules.specs.Books.{IsBook, first_fault, is_bookable, read_rules};
ghost use Rattle.solv_core.specs.Cores.{CoreOf};
ghost use Rattle.solv_core.specs.Inner.Cores.{none_in_use, numbers_in_use};
ghost use Rattle.solv_core.specs.Inner.Holding.{IsHeldBy};
ghost use Rattle.solv_core.specs.Ledgers.{IsGoodLedger};
ghost use Rattle.solv_core.specs.Inner.Running.{is_spent_verdict};
ghost use Rattle.solv_core.specs.declared.ledger.Ledger.{Ledger as LedgerOf};
ghost use Rattle.solv_pool.specs.TaskForms.{asks_in_form};
ghost use Rattle.solv_questions.specs.Questions.{asks, request_of, rules_of};
ghost use Rattle.solv_decide.specs.Inner.Deciding.{IsAskedFor, IsDecided};
ghost use Rattle.solv_decide.specs.Inner.Rests.{IsRestFor};

use crate::phases::Phases;
use crate::solving::solve;
use solv_core::{Core, Ledger, Verdict};
use solv_plan::Rest;
use solv_planning::make_rest;
use solv_pool::laws::clauses_name_packages;
use solv_pool::{Marks, Task};
use solv_prov::Providers;
use solv_rules::Book;
use std::alloc::{AllocError, Global};

/// The answer to a task, the ledger of the one run, and what made it: the questions and the core, which further runs may use.
#[derive(Drop)]
pub struct Decided<'a> {
    pub verdict: Verdict,
    pub ledger: Ledger,
    pub phases: Phases,
    pub core: Core<'a>,
}

/// As many rules, each enabled.
fn all_enabled(alloc: Global, rules: usize) -> Result<Vec<bool>, AllocError>
    ensures { IfOk result (λ enabled. enabled.items ≡ replicate rules true) }
{
    let enabled = vec![in alloc; true; rules]?;
    Ok(enabled)
}

/// A core over the clauses of a book.
fn core_of<'a>(alloc: Global, task: &Task, book: &'a Book) -> Result<Core<'a>, AllocError>
    requires book { IsBook (catalog_of task.now) book.now }
    requires bookable { list_all (is_bookable (catalog_of task.now)) (read_rules book.now.rules) ≡ true }
    requires fits { first_fault (catalog_of task.now) 0 (read_rules book.now.rules) ≡ None }
    ensures held { IfOk result (λ core. (ledger : LedgerOf) → IsHeldBy core ledger) }
    ensures core { IfOk result (λ core. core ≡ record { made = record { clauses = book.now.clauses; owners = book.now.owners; packages = length task.now.universe.packages }; in_use = none_in_use }) }
{
    clauses_name_packages();
    task.universe.marks_each();
    Core::new(alloc, book.memory(), book.owners(), task.universe.count())
}

/// The part of a plan that no job changes: what an earlier decision left of it, or made anew.
fn rest_or_made(
    alloc: Global,
    task: &Task,
    prov: &Providers,
    marks: &Marks,
    book: &Book,
    rest: Option<Rest>,
) -> Result<Rest, AllocError>
    requires index { IsIndexOf prov.now (catalog_of task.now) }
    requires closed { IsClosed task.now }
    requires marks { HasMarks (length task.now.universe.packages) marks.now }
    requires rules { read_rules book.now.rules ≡ rules_of (request_of task.now marks.now) }
    requires rest { IfSome rest (IsRestFor (catalog_of task.now) task.now.flags marks.now) }
    ensures { IfOk result (IsRestFor (catalog_of task.now) task.now.flags marks.now) }
{
    match rest {
        Some(rest) => Ok(rest),
        None => make_rest(alloc, task, prov, marks, book.rules()),
    }
}

/// Decides a task whose hard rules, by these marks, a book has: a set that meets them, a refutation, or that a budget of learnt rules is spent. The part of its plan that
/// no job changes may be what an earlier decision left, one for the same packages, flags and marks.
pub fn decide<'a>(
    alloc: Global,
    task: &Task,
    prov: &Providers,
    marks: &Marks,
    book: &'a Book,
    rest: Option<Rest>,
    budget: u32,
) -> Result<Decided<'a>, AllocError>
    requires index { IsIndexOf prov.now (catalog_of task.now) }
    requires closed { IsClosed task.now }
    requires marks { HasMarks (length task.now.universe.packages) marks.now }
    requires formed { list_all (asks_in_form (catalog_of task.now)) task.now.universe.packages ≡ true }
    requires book { IsBook (catalog_of task.now) book.now }
    requires rules { read_rules book.now.rules ≡ rules_of (request_of task.now marks.now) }
    requires bookable { list_all (is_bookable (catalog_of task.now)) (read_rules book.now.rules) ≡ true }
    requires fits { first_fault (catalog_of task.now) 0 (read_rules book.now.rules) ≡ None }
    requires budget { budget ≤ 1000000 }
    requires rest { IfSome rest (IsRestFor (catalog_of task.now) task.now.flags marks.now) }
    ensures budget { IfOk result (λ d. d.ledger.budget ≡ budget) }
    ensures few { IfOk result (λ d. length d.ledger.entries ≤ d.ledger.budget + 1) }
    ensures asked { IfOk result (λ d. IsAskedFor (request_of task.now marks.now) d.phases d.core.made) }
    ensures held { IfOk result (λ d. IsHeldBy d.core d.ledger) }
    ensures core { IfOk result (λ d. d.core.made ≡ record { clauses = book.now.clauses; owners = book.now.owners; packages = length task.now.universe.packages }) }
    ensures run { IfOk result (λ d. d.ledger.runs ≡ (record { enabled = replicate (length book.now.rules.list) true; kept = [] }) ∷ []) }
    ensures in_use { IfOk result (λ d. numbers_in_use d.core.in_use ≡ range_with_len 0 (length d.ledger.entries)) }
    ensures good { IfOk result (λ d. IsGoodLedger book.now.clauses book.now.owners (length task.now.universe.packages) (asks (request_of task.now marks.now)) d.ledger) }
    ensures spent { IfOk result (λ d. is_spent_verdict d.verdict ≡ (length d.ledger.entries == budget + 1)) }
    ensures decided { IfOk result (λ d. IsDecided (request_of task.now marks.now) (replicate (length book.now.rules.list) true) (record { clauses = book.now.clauses; owners = book.now.owners; packages = length task.now.universe.packages }) d.verdict) }
{
    clauses_name_packages();
    task.pool.holds_each_once();
    let rest = rest_or_made(alloc, task, prov, marks, book, rest)?;
    let mut core = core_of(alloc, task, book)?;
    let phases = Phases::on(alloc, task, prov, marks, book, rest)?;
    let enabled = all_enabled(alloc, book.rules().list.len())?;
    let mut ledger = Ledger::new(alloc, budget);
    let verdict = solve(&phases, &mut core, &enabled, &mut ledger)?;
    Ok(Decided {
        verdict,
        ledger,
        phases,
        core,
    })
}
