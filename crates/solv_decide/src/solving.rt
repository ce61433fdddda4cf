//! Sets that meet the enabled rules of a task, by its questions.
ghost use Rattle.std.specs.Prelude.{◌≡◌, ◌≤◌, ◌+◌, true, length, nat_lt, IfOk};
ghost use Rattle.std.specs.List.{list_all};
ghost use Rattle.solv_core.specs.Inner.Holding.{IsHeldBy};
ghost use Rattle.solv_core.specs.Ledgers.{IsGoodLedger};
ghost use Rattle.solv_core.specs.Inner.Probing.{AreRefutedBeside, verdict_in, verdict_of};
ghost use Rattle.solv_core.specs.Inner.Running.{HasRunOnce};
ghost use Rattle.solv_questions.specs.Questions.{Request, asks};
ghost use Rattle.solv_core.specs.Inner.Meeting.{set_by};
ghost use Rattle.solv_plan.specs.Inner.Plans.{plan_asks};
ghost use Rattle.solv_decide.specs.Deciding.{meets_all};
ghost use Rattle.solv_decide.specs.Inner.Deciding.{Asker, IsAskedFor, IsDecided};

use crate::phases::Phases;
use crate::remembering::run_probing;
use solv_core::{Core, Ledger, Probed, Verdict};
use solv_derive::laws::good_logs_refute;
use solv_pack::RuleNo;
use solv_plan::laws::plans_ask_the_questions;
use solv_pool::laws::clauses_say_the_rule;
use solv_questions::questions_keep_the_law;
use std::alloc::AllocError;
use std::marker::Brand;

/// Searches for a set that meets the enabled rules: decides as the questions of the task ask, propagates, and learns from conflicts. `enabled` has
/// an entry for each rule of the core. The ledger records this run and the clauses that it learnt.
///
/// Where memory runs out, it may be tried again: core and ledger are as before, or both have this run, and what it learnt until then.
pub fn solve(
    phases: &Phases,
    core: &mut Core<'_>,
    enabled: &[bool],
    ledger: &mut Ledger,
) -> Result<Verdict, AllocError>
    requires enabled { list_all (λ o. nat_lt o (length enabled.now)) core.old.made.owners ≡ true }
    requires asked { (r : Request) × IsAskedFor r phases.now core.old.made }
    requires budget { ledger.old.budget ≤ 1000000 }
    requires few { length ledger.old.entries ≤ ledger.old.budget + 1 }
    requires held { IsHeldBy core.old ledger.old }
    ensures run { HasRunOnce (plan_asks phases.now.plan) enabled.now core.old core.new ledger.old ledger.new result }
    ensures good { (r : Request) → IsAskedFor r phases.now core.old.made → IsGoodLedger core.old.made.clauses core.old.made.owners core.old.made.packages (asks r) ledger.old → IsGoodLedger core.old.made.clauses core.old.made.owners core.old.made.packages (asks r) ledger.new }
    ensures decided { (r : Request) → IsAskedFor r phases.now core.old.made → IfOk result (IsDecided r enabled.now core.old.made) }
{
    let probed = solve_probing(phases, core, enabled, ledger, &[])?;
    Ok(probed.into_verdict())
}

/// Whether the set of the system and the packages that a table marks meets each enabled rule. It takes no run, and nothing is asked.
pub fn is_met_by(core: &Core<'_>, enabled: &[bool], inside: &[bool]) -> bool
    requires { list_all (λ o. nat_lt o (length enabled.now)) core.now.made.owners ≡ true }
    ensures { (r : Request) (asker : Asker) → IsAskedFor r asker core.now.made → result ≡ meets_all r enabled.now (set_by inside.now) }
{
    clauses_say_the_rule();
    plans_ask_the_questions();
    core.is_met_by(enabled, inside)
}

/// As `solve`, and where a set is found, some of the rules of these clauses are named, each with a derivation that the enabled ones refute it, whatever
/// is chosen. Nothing is reported of the others.
pub fn solve_probing(
    phases: &Phases,
    core: &mut Core<'_>,
    enabled: &[bool],
    ledger: &mut Ledger,
    clauses: &[RuleNo],
) -> Result<Probed, AllocError>
    requires enabled { list_all (λ o. nat_lt o (length enabled.now)) core.old.made.owners ≡ true }
    requires asked { (r : Request) × IsAskedFor r phases.now core.old.made }
    requires budget { ledger.old.budget ≤ 1000000 }
    requires few { length ledger.old.entries ≤ ledger.old.budget + 1 }
    requires held { IsHeldBy core.old ledger.old }
    ensures run { HasRunOnce (plan_asks phases.now.plan) enabled.now core.old core.new ledger.old ledger.new (verdict_in result) }
    ensures good { (r : Request) → IsAskedFor r phases.now core.old.made → IsGoodLedger core.old.made.clauses core.old.made.owners core.old.made.packages (asks r) ledger.old → IsGoodLedger core.old.made.clauses core.old.made.owners core.old.made.packages (asks r) ledger.new }
    ensures decided { (r : Request) → IsAskedFor r phases.now core.old.made → IfOk result (λ v. IsDecided r enabled.now core.old.made (verdict_of v)) }
    ensures probed { IfOk result (AreRefutedBeside core.old.made.clauses core.old.made.owners core.old.made.packages enabled.now clauses.now) }
{
    clauses_say_the_rule();
    questions_keep_the_law();
    plans_ask_the_questions();
    good_logs_refute();
    let memory = phases.memory()?;
    run_probing::<Brand>(phases, memory, core, enabled, ledger, clauses)
}
