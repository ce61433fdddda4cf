//! Problems with their solutions.
ghost use Rattle.std.specs.Prelude.{◌≡◌, ◌≤◌, ◌<◌, ◌+◌, ◌*◌, ◌∷◌, [], ℕ, Bool, List, true, false, not, length, map, nat_lt, is_none, IfOk, ◌&&◌};
ghost use Rattle.std.specs.List.{list_all, AllZip};
ghost use Rattle.std.specs.Option.{IfSome};
ghost use Rattle.solv_pool.specs.Prelude.{is_fixed as is_fixed_rule, rule_with, is_among};
ghost use Rattle.solv_derive.specs.Leaves.{leaves};
ghost use Rattle.solv_derive.specs.Logs.{is_good_log};
ghost use Rattle.solv_derive.specs.Range.{steps_over};
ghost use Rattle.solv_core.specs.Inner.Holding.{IsHeldBy};
ghost use Rattle.solv_core.specs.Cores.{CoreOf};
ghost use Rattle.solv_questions.specs.Questions.{Request};
ghost use Rattle.solv_decide.specs.Inner.Deciding.{Asker};
ghost use Rattle.solv_remedy.specs.Inner.Correcting.{IsFoundOn};
ghost use Rattle.solv_rules.specs.Books.{Written, read_rules};
ghost use Rattle.solv_remedy.specs.Remedies.{IsGoodList, droppable_rules, most_runs};
ghost use Rattle.solv_remedy.specs.Inner.Remedies.{IsMadeFor, IsRemedies, is_spent_remedies};
ghost use Rattle.solv_remedy.specs.Inner.Trying.{is_off_in, IsLogOf, IsSetUp};
ghost use Rattle.solv_remedy.specs.Inner.Open.{IsOpen};
ghost use Rattle.solv_remedy.specs.Inner.Runs.{is_spent, HasRuns, IsOf, MayRun, HasRun};
ghost use Rattle.solv_remedy.specs.Inner.Conflicts.{droppable_count, listed_of, AreApart, IsRuleList, AreAll, AreSettled};
ghost use Rattle.solv_remedy.specs.Inner.WaysOut.{most_out, IsConflictAmong, IsWayOut, IsProblemOf};

use crate::collecting::{Collected, all_conflicts};
use crate::conflicts::{clauses_of, unlisted_rules};
use crate::laws::good_logs_refute_their_rules;
use crate::listing::rules_of_log;
use crate::problems::{Problem, Remedies, Solution};
use crate::setting::Setting;
use crate::singles::singles;
use crate::smallest::{Conflict, Way, conflict_of};
use crate::ways_out::{Unlisted, all_refuted, copy_of, solution_with, way_out};
use solv_core::{Core, Ledger, Trail};
use solv_decide::Phases;
use solv_derive::Log;
use solv_list::Items;
use solv_pool::Rule;
use solv_rules::Book;
use std::alloc::{AllocError, Global};

/// For each rule whether it may not be dropped.
fn fixed_rules(alloc: Global, rules: &[Rule]) -> Result<Vec<bool>, AllocError>
    ensures { IfOk result (λ fixed. (sets : List (List ℕ)) → fixed.items ≡ map is_fixed_rule (map (rule_with sets) rules.now)) }
{
    let mut fixed = Vec::new(alloc);
    for rule in rules {
        fixed.push(rule.is_fixed())?;
    }
    Ok(fixed)
}

/// The ways out of a conflict, one for each of its rules. Nothing, where the ledger is spent.
fn ways_out(
    setting: &Setting<'_>,
    core: &mut Core<'_>,
    ledger: &mut Ledger,
    conflict: &Conflict,
    unlisted: &Unlisted<'_>,
) -> Result<Option<Vec<Solution>>, AllocError>
    requires may_run { MayRun setting.now core.old ledger.old }
    requires open_ { IsOpen setting.now core.old.made conflict.now }
    ensures has_run { HasRun setting.now (length conflict.now.rules * most_out (length unlisted.now.rules.now)) core.old core.new ledger.old ledger.new }
    ensures spent { IfOk result (λ o. is_none o ≡ is_spent ledger.new) }
    ensures ways_out { (r : Request) (listed : List ℕ) → IsOf r setting.now core.old.made → IsConflictAmong r core.old.made conflict.now.rules conflict.now.log listed unlisted.now.rules.now → IfOk result (λ o. IfSome o (λ s. AllZip (IsWayOut r core.old.made conflict.now.rules listed) conflict.now.rules s.items)) }
{
    let mut solutions = Vec::new(setting.alloc);
    for rule in conflict.rules.held() {
        let way = Way {
            conflict,
            off: *rule,
        };
        match way_out(setting, core, ledger, &way, unlisted)? {
            Some(solution) => solutions.push(solution)?,
            None => return Ok(None),
        }
    }
    Ok(Some(solutions))
}

/// The way out of a conflict of one rule, where the set over all that no conflict lists is given.
fn lone_way_out(
    alloc: Global,
    conflict: &Conflict,
    off: usize,
    trail: &Trail,
) -> Result<Vec<Solution>, AllocError>
    ensures { (r : Request) (asker : Asker) (core : CoreOf) (book : Written) (fixed : List Bool) (listed unlisted : List ℕ) → IsSetUp r asker core book fixed → IsConflictAmong r core conflict.now.rules conflict.now.log listed unlisted → conflict.now.rules ≡ off ∷ [] → IsFoundOn r (λ k. not (is_among listed k)) trail.now → IfOk result (λ s. AllZip (IsWayOut r core conflict.now.rules listed) conflict.now.rules s.items) }
{
    let log = copy_of(alloc, &conflict.log)?;
    let refuted = all_refuted(Vec::new(alloc), off, log)?;
    let solution = solution_with(alloc, trail, refuted)?;
    let mut solutions = Vec::new(alloc);
    solutions.push(solution)?;
    Ok(solutions)
}

/// The ways out of a conflict. One of a single rule takes no run.
fn each_way_out(
    setting: &Setting<'_>,
    core: &mut Core<'_>,
    ledger: &mut Ledger,
    conflict: &Conflict,
    unlisted: &Unlisted<'_>,
) -> Result<Option<Vec<Solution>>, AllocError>
    requires may_run { MayRun setting.now core.old ledger.old }
    requires open_ { IsOpen setting.now core.old.made conflict.now }
    ensures has_run { HasRun setting.now (length conflict.now.rules * most_out (length unlisted.now.rules.now)) core.old core.new ledger.old ledger.new }
    ensures spent { IfOk result (λ o. is_none o ≡ is_spent ledger.new) }
    ensures ways_out { (r : Request) (listed : List ℕ) → IsOf r setting.now core.old.made → IsConflictAmong r core.old.made conflict.now.rules conflict.now.log listed unlisted.now.rules.now → IsFoundOn r (λ k. not (is_among listed k)) unlisted.now.trail.now → IfOk result (λ o. IfSome o (λ s. AllZip (IsWayOut r core.old.made conflict.now.rules listed) conflict.now.rules s.items)) }
{
    let own = conflict.rules.held();
    if own.len() == 1 {
        let alone = lone_way_out(setting.alloc, conflict, own[0], unlisted.trail)?;
        return Ok(Some(alone));
    }
    ways_out(setting, core, ledger, conflict, unlisted)
}

/// The problem of a conflict, with its solutions. Nothing, where the ledger is spent.
fn problem_with(
    setting: &Setting<'_>,
    core: &mut Core<'_>,
    ledger: &mut Ledger,
    conflict: &Conflict,
    unlisted: &Unlisted<'_>,
) -> Result<Option<Problem>, AllocError>
    requires may_run { MayRun setting.now core.old ledger.old }
    requires open_ { IsOpen setting.now core.old.made conflict.now }
    ensures has_run { HasRun setting.now (length conflict.now.rules * most_out (length unlisted.now.rules.now)) core.old core.new ledger.old ledger.new }
    ensures spent { IfOk result (λ o. is_none o ≡ is_spent ledger.new) }
    ensures problem { (r : Request) (listed : List ℕ) → IsOf r setting.now core.old.made → IsConflictAmong r core.old.made conflict.now.rules conflict.now.log listed unlisted.now.rules.now → IsFoundOn r (λ k. not (is_among listed k)) unlisted.now.trail.now → IfOk result (λ o. IfSome o (IsProblemOf r core.old.made listed conflict.now)) }
{
    match each_way_out(setting, core, ledger, conflict, unlisted)? {
        Some(solutions) => Ok(Some(Problem {
            rules: Items::wrap(rules_of_log(setting.alloc, setting.book, &conflict.log)?),
            log: copy_of(setting.alloc, &conflict.log)?,
            solutions: Items::wrap(solutions),
        })),
        None => Ok(None),
    }
}

/// The problems of conflicts, with their solutions. Nothing, where the ledger is spent.
fn problems_with(
    setting: &Setting<'_>,
    core: &mut Core<'_>,
    ledger: &mut Ledger,
    conflicts: &[Conflict],
    unlisted: &Unlisted<'_>,
) -> Result<Option<Vec<Problem>>, AllocError>
    requires may_run { MayRun setting.now core.old ledger.old }
    requires settled { (r : Request) × (IsOf r setting.now core.old.made × AreSettled r core.old.made conflicts.now) }
    requires droppable { list_all (is_off_in setting.now.fixed.now) (listed_of conflicts.now) ≡ true }
    requires unlisted { (k : ℕ) → is_among unlisted.now.rules.now k ≡ (is_off_in setting.now.fixed.now k && not (is_among (listed_of conflicts.now) k)) }
    ensures has_run { HasRun setting.now (length (listed_of conflicts.now) * most_out (length unlisted.now.rules.now)) core.old core.new ledger.old ledger.new }
    ensures spent { IfOk result (λ o. is_none o ≡ is_spent ledger.new) }
    ensures problems { (r : Request) → IsOf r setting.now core.old.made → AreSettled r core.old.made conflicts.now → IsFoundOn r (λ k. not (is_among (listed_of conflicts.now) k)) unlisted.now.trail.now → IfOk result (λ o. IfSome o (λ found. AllZip (IsProblemOf r core.old.made (listed_of conflicts.now)) conflicts.now found.items)) }
{
    let mut problems = Vec::new(setting.alloc);
    for conflict in conflicts {
        match problem_with(setting, core, ledger, conflict, unlisted)? {
            Some(problem) => problems.push(problem)?,
            None => return Ok(None),
        }
    }
    Ok(Some(problems))
}

/// What all conflicts give.
fn remedies_of(
    setting: &Setting<'_>,
    core: &mut Core<'_>,
    ledger: &mut Ledger,
    found: &Collected,
) -> Result<Remedies, AllocError>
    requires may_run { MayRun setting.now core.old ledger.old }
    requires all { (r : Request) × (IsOf r setting.now core.old.made × AreAll r core.old.made found.now) }
    requires apart { AreApart setting.now.fixed.now found.now.conflicts }
    requires some { 0 < length found.now.conflicts }
    ensures has_run { HasRun setting.now (droppable_count setting.now.fixed.now * most_out (droppable_count setting.now.fixed.now)) core.old core.new ledger.old ledger.new }
    ensures spent { IfOk result (λ m. is_spent_remedies m ≡ is_spent ledger.new) }
    ensures listed { (r : Request) → IsOf r setting.now core.old.made → AreAll r core.old.made found.now → IfOk result (IsRemedies r core.old.made) }
{
    good_logs_refute_their_rules();
    let conflicts = found.conflicts.held();
    let rules = unlisted_rules(setting.alloc, setting.fixed, conflicts)?;
    let clauses = clauses_of(
        setting.alloc,
        setting.book.owners(),
        setting.fixed.len(),
        &rules,
    )?;
    let unlisted = Unlisted {
        rules: &rules,
        clauses: &clauses,
        trail: &found.trail,
    };
    match problems_with(setting, core, ledger, conflicts, &unlisted)? {
        Some(problems) => Ok(Remedies::Listed(Items::wrap(problems))),
        None => Ok(Remedies::Spent),
    }
}

/// What a first conflict gives.
fn remedies_from(
    setting: &Setting<'_>,
    core: &mut Core<'_>,
    ledger: &mut Ledger,
    first: Conflict,
) -> Result<Remedies, AllocError>
    requires may_run { MayRun setting.now core.old ledger.old }
    requires of_log { (r : Request) × (IsOf r setting.now core.old.made × IsLogOf r core.old.made first.rules first.log) }
    requires rules { IsRuleList setting.now.fixed.now first.rules }
    ensures has_run { HasRun setting.now (most_runs (droppable_count setting.now.fixed.now)) core.old core.new ledger.old ledger.new }
    ensures spent { IfOk result (λ m. is_spent_remedies m ≡ is_spent ledger.new) }
    ensures listed { (r : Request) → IsOf r setting.now core.old.made → IsLogOf r core.old.made first.rules first.log → IfOk result (IsRemedies r core.old.made) }
{
    let start = singles(setting, core)?;
    match all_conflicts(setting, core, ledger, start, first)? {
        Some(found) => remedies_of(setting, core, ledger, &found),
        None => Ok(Remedies::Spent),
    }
}

/// The problems of a task that no set meets, each with its solutions, where a first refutation is given; or that the ledger is spent.
///
/// With m rules that may be dropped the ledger gets 4 (m + 1) (m + 1) runs at most, each with every rule enabled that may not be dropped. Where memory runs out, the core and the
/// ledger hold what was learnt before, and it may be tried again.
pub fn problems(
    alloc: Global,
    phases: &Phases,
    book: &Book,
    core: &mut Core<'_>,
    first: Log,
    ledger: &mut Ledger,
) -> Result<Remedies, AllocError>
    requires made { (r : Request) × IsMadeFor r phases.now core.old.made book.now }
    requires good { is_good_log core.old.made.clauses first.steps ≡ true }
    requires over { steps_over core.old.made.packages first.steps ≡ true }
    requires leaves { list_all (λ n. nat_lt n (length core.old.made.clauses)) (leaves first.steps) ≡ true }
    requires budget { ledger.old.budget ≤ 1000000 }
    requires few { length ledger.old.entries ≤ ledger.old.budget + 1 }
    requires held { IsHeldBy core.old ledger.old }
    ensures core { core.new.made ≡ core.old.made }
    ensures held { IsHeldBy core.new ledger.new }
    ensures runs { HasRuns phases.now core.old.made (map is_fixed_rule (read_rules book.now.rules)) (most_runs (droppable_rules (read_rules book.now.rules))) ledger.old ledger.new }
    ensures spent { IfOk result (λ m. is_spent_remedies m ≡ is_spent ledger.new) }
    ensures listed { (r : Request) → IsMadeFor r phases.now core.old.made book.now → IfOk result (IsRemedies r core.old.made) }
{
    good_logs_refute_their_rules();
    if ledger.spent() {
        return Ok(Remedies::Spent);
    }
    let fixed = fixed_rules(alloc, book.rules().list.held())?;
    let conflict = conflict_of(alloc, book, &fixed, first)?;
    let setting = Setting {
        alloc,
        phases,
        book,
        fixed: &fixed,
    };
    remedies_from(&setting, core, ledger, conflict)
}
