//! What a search over the rules that are made answers, moved to the numbers among all hard rules.
ghost use Rattle.std.specs.Prelude.{◌≡◌, ◌&&◌, map, IfOk, OnOk};
ghost use Rattle.std.specs.List.{list_all};
ghost use Rattle.solv_pool.specs.Prelude.{marked, names_package};
ghost use Rattle.solv_over.specs.Inner.Places.{clause_place, entry_at, hint_at, is_of_inside, ledger_at, log_at, problem_at, put_before, rule_place, run_at, solution_at, step_at, steps_at};
ghost use Rattle.solv_over.specs.Inner.Widened.{says_neither};

use crate::places::Places;
use solv_core::{Entry, Ledger, Run};
use solv_derive::{Hint, Log, Step};
use solv_list::Items;
use solv_pack::Lit;
use solv_remedy::{Problem, Solution};
use std::alloc::{AllocError, Global};

/// The mark of a package.
fn is_marked(marks: &[bool], pack: usize) -> bool
    ensures { result ≡ marked marks.now pack }
{
    match marks.get(pack) {
        Some(mark) => *mark,
        None => false,
    }
}

/// Whether a literal is of a package from 1 on up to the last, and not of one that is left out.
fn is_literal_inside(lit: Lit, left: &[bool], count: u32) -> bool
    ensures { result ≡ (names_package count lit && says_neither (marked left.now) lit) }
{
    let pack = lit.package();
    pack > 0 && pack <= count && !is_marked(left, pack as usize)
}

/// Whether each literal of a clause is.
fn is_clause_inside(clause: &[Lit], left: &[bool], count: u32) -> bool
    ensures { result ≡ list_all (λ l. names_package count l && says_neither (marked left.now) l) clause.now }
{
    for lit in clause {
        if !is_literal_inside(*lit, left, count) {
            return false;
        }
    }
    true
}

/// Whether each literal of entries is.
fn are_inside(entries: &[Entry], left: &[bool], count: u32) -> bool
    ensures { result ≡ list_all (is_of_inside count (marked left.now)) entries.now }
{
    for entry in entries {
        if !is_clause_inside(entry.clause.held(), left, count) {
            return false;
        }
    }
    true
}

/// Whether each literal of what a ledger holds is of a package, up to so many, that is not left out.
pub fn is_inside(ledger: &Ledger, left: &[bool], count: u32) -> bool
    ensures { result ≡ list_all (is_of_inside count (marked left.now)) ledger.now.entries }
{
    are_inside(ledger.entries.held(), left, count)
}

/// A hint, where it names a clause, with the clause's place.
fn moved_hint(places: &Places<'_>, hint: Hint) -> Result<Hint, AllocError>
    ensures { IfOk result (λ moved. moved ≡ hint_at (clause_place places.now) hint) }
{
    match hint {
        Hint::Book(rule) => Ok(Hint::Book(places.clause(rule)?)),
        Hint::Step(step) => Ok(Hint::Step(step)),
    }
}

/// Moves hints.
fn move_hints(places: &Places<'_>, hints: &mut [Hint]) -> Result<(), AllocError>
    ensures { OnOk result (hints.new ≡ map (hint_at (clause_place places.now)) hints.old) }
{
    for hint in hints.iter_mut() {
        *hint = moved_hint(places, *hint)?;
    }
    Ok(())
}

/// Hints, moved.
fn moved_hints(places: &Places<'_>, hints: Items<Hint>) -> Result<Items<Hint>, AllocError>
    ensures { IfOk result (λ moved. moved ≡ map (hint_at (clause_place places.now)) hints) }
{
    let mut hints = hints.into_vec();
    move_hints(places, hints.as_mut_slice())?;
    Ok(Items::wrap(hints))
}

/// A step, moved.
fn moved_step(places: &Places<'_>, step: Step) -> Result<Step, AllocError>
    ensures { IfOk result (λ moved. moved ≡ step_at (clause_place places.now) step) }
{
    let Step { clause, hints } = step;
    let hints = moved_hints(places, hints)?;
    Ok(Step { clause, hints })
}

/// Steps, moved.
fn moved_steps(
    alloc: Global,
    places: &Places<'_>,
    steps: Items<Step>,
) -> Result<Items<Step>, AllocError>
    ensures { IfOk result (λ moved. moved ≡ steps_at (clause_place places.now) steps) }
{
    let mut moved = Vec::new(alloc);
    for step in steps.into_vec() {
        moved.push(moved_step(places, step)?)?;
    }
    Ok(Items::wrap(moved))
}

/// A log, moved.
fn moved_log(alloc: Global, places: &Places<'_>, log: Log) -> Result<Log, AllocError>
    ensures { IfOk result (λ moved. moved ≡ log_at (clause_place places.now) log) }
{
    let Log { steps } = log;
    let steps = moved_steps(alloc, places, steps)?;
    Ok(Log { steps })
}

/// Logs, moved.
fn moved_logs(
    alloc: Global,
    places: &Places<'_>,
    logs: Items<Log>,
) -> Result<Items<Log>, AllocError>
    ensures { IfOk result (λ moved. moved ≡ map (log_at (clause_place places.now)) logs) }
{
    let mut moved = Vec::new(alloc);
    for log in logs.into_vec() {
        moved.push(moved_log(alloc, places, log)?)?;
    }
    Ok(Items::wrap(moved))
}

/// Moves numbers of rules.
fn move_rules(places: &Places<'_>, rules: &mut [usize]) -> Result<(), AllocError>
    ensures { OnOk result (rules.new ≡ map (rule_place places.now) rules.old) }
{
    for rule in rules.iter_mut() {
        *rule = places.rule(*rule)?;
    }
    Ok(())
}

/// Numbers of rules, moved.
fn moved_rules(places: &Places<'_>, rules: Items<usize>) -> Result<Items<usize>, AllocError>
    ensures { IfOk result (λ moved. moved ≡ map (rule_place places.now) rules) }
{
    let mut rules = rules.into_vec();
    move_rules(places, rules.as_mut_slice())?;
    Ok(Items::wrap(rules))
}

/// A solution, moved.
fn moved_solution(
    alloc: Global,
    places: &Places<'_>,
    solution: Solution,
) -> Result<Solution, AllocError>
    ensures { IfOk result (λ moved. moved ≡ solution_at (clause_place places.now) (rule_place places.now) solution) }
{
    let mut moved = solution;
    let dropped = std::mem::replace(&mut moved.dropped, Items::wrap(Vec::new(alloc)));
    moved.dropped = moved_rules(places, dropped)?;
    let refuted = std::mem::replace(&mut moved.refuted, Items::wrap(Vec::new(alloc)));
    moved.refuted = moved_logs(alloc, places, refuted)?;
    Ok(moved)
}

/// Solutions, moved.
fn moved_solutions(
    alloc: Global,
    places: &Places<'_>,
    solutions: Items<Solution>,
) -> Result<Items<Solution>, AllocError>
    ensures { IfOk result (λ moved. moved ≡ map (solution_at (clause_place places.now) (rule_place places.now)) solutions) }
{
    let mut moved = Vec::new(alloc);
    for solution in solutions.into_vec() {
        moved.push(moved_solution(alloc, places, solution)?)?;
    }
    Ok(Items::wrap(moved))
}

/// A problem, moved.
fn moved_problem(
    alloc: Global,
    places: &Places<'_>,
    problem: Problem,
) -> Result<Problem, AllocError>
    ensures { IfOk result (λ moved. moved ≡ problem_at (clause_place places.now) (rule_place places.now) problem) }
{
    let mut moved = problem;
    let rules = std::mem::replace(&mut moved.rules, Items::wrap(Vec::new(alloc)));
    moved.rules = moved_rules(places, rules)?;
    let steps = std::mem::replace(&mut moved.log.steps, Items::wrap(Vec::new(alloc)));
    moved.log.steps = moved_steps(alloc, places, steps)?;
    let solutions = std::mem::replace(&mut moved.solutions, Items::wrap(Vec::new(alloc)));
    moved.solutions = moved_solutions(alloc, places, solutions)?;
    Ok(moved)
}

/// Problems, with the numbers that their rules and clauses have among all.
pub fn moved_problems(
    alloc: Global,
    places: &Places<'_>,
    problems: Items<Problem>,
) -> Result<Items<Problem>, AllocError>
    ensures { IfOk result (λ moved. moved ≡ map (problem_at (clause_place places.now) (rule_place places.now)) problems) }
{
    let mut moved = Vec::new(alloc);
    for problem in problems.into_vec() {
        moved.push(moved_problem(alloc, places, problem)?)?;
    }
    Ok(Items::wrap(moved))
}

/// Has so many more rules enabled in each run, before all others.
fn put_before_runs(more: usize, runs: &mut [Run]) -> Result<(), AllocError>
    ensures { OnOk result (runs.new ≡ map (run_at (put_before more)) runs.old) }
{
    for run in runs.iter_mut() {
        run.enabled.put_before(more)?;
    }
    Ok(())
}

/// An entry, moved.
fn moved_entry(places: &Places<'_>, entry: Entry) -> Result<Entry, AllocError>
    ensures { IfOk result (λ moved. moved ≡ entry_at (clause_place places.now) entry) }
{
    let Entry { run, clause, hints } = entry;
    let hints = moved_hints(places, hints)?;
    Ok(Entry { run, clause, hints })
}

/// Entries, moved.
fn moved_entries(
    alloc: Global,
    places: &Places<'_>,
    entries: Items<Entry>,
) -> Result<Items<Entry>, AllocError>
    ensures { IfOk result (λ moved. moved ≡ map (entry_at (clause_place places.now)) entries) }
{
    let mut moved = Vec::new(alloc);
    for entry in entries.into_vec() {
        moved.push(moved_entry(places, entry)?)?;
    }
    Ok(Items::wrap(moved))
}

/// A ledger, with the numbers that clauses have among all, and with all rules enabled that are not made: so many true flags before those of each run.
pub fn moved_ledger(
    alloc: Global,
    places: &Places<'_>,
    ledger: Ledger,
) -> Result<Ledger, AllocError>
    ensures { IfOk result (λ moved. moved ≡ ledger_at (clause_place places.now) (put_before places.now.more) ledger) }
{
    let mut moved = ledger;
    let none = Items::wrap(Vec::new(alloc));
    let mut runs = std::mem::replace(&mut moved.runs, none).into_vec();
    put_before_runs(places.more(), runs.as_mut_slice())?;
    moved.runs = Items::wrap(runs);
    let entries = std::mem::replace(&mut moved.entries, Items::wrap(Vec::new(alloc)));
    moved.entries = moved_entries(alloc, places, entries)?;
    Ok(moved)
}
