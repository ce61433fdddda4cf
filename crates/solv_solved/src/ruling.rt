//! The hard rules of a task that is answered, by number.
ghost use Rattle.std.specs.Prelude.{ℕ, ◌≡◌, List, length, is_some, slice_get};
ghost use Rattle.std.specs.Option.{option_copied, option_map};
ghost use Rattle.solv_pool.specs.Prelude.{hard_rules, rule_with, set_at};
ghost use Rattle.solv_solved.specs.Fillings.{filled_where, length_where};
ghost use Rattle.solv_solved.specs.RuleRows.{packs_of_rule, rule_of, rule_packs, rule_row, rules_of};

use crate::filling::fill_packs;
use crate::outcomes::Held;
use crate::rule_row::RuleRow;
use crate::with_answer::Solved;
use solv_base::DepId;
use solv_list::Items;
use solv_pool::{JobNo, PackNo, Rule, SetNo};

/// The system, in the place of a package that a rule does not name.
const NO_PACK: PackNo = PackNo(0);

/// A number in the place of a dependency that a rule does not name.
const NO_DEP: DepId = DepId(0);

/// A number in the place of a job that a rule does not name.
const NO_JOB: JobNo = JobNo(0);

/// A rule, as C lays it out.
fn rule_row(rule: &Rule) -> RuleRow
    ensures { (sets : List (List ℕ)) → result ≡ rule_row (rule_with sets rule.now) }
{
    let (kind, pack, dep, other, job) = match *rule {
        Rule::NotInstallable(pack) => (0, pack, NO_DEP, NO_PACK, NO_JOB),
        Rule::Req(pack, dep) => (1, pack, dep, NO_PACK, NO_JOB),
        Rule::Con(pack, dep, other) => (2, pack, dep, other, NO_JOB),
        Rule::RichCon(pack, dep) => (3, pack, dep, NO_PACK, NO_JOB),
        Rule::Obs(pack, dep, other) => (4, pack, dep, other, NO_JOB),
        Rule::Same(pack, other) => (5, pack, NO_DEP, other, NO_JOB),
        Rule::Infarch(pack) => (6, pack, NO_DEP, NO_PACK, NO_JOB),
        Rule::Update(pack, _) => (7, pack, NO_DEP, NO_PACK, NO_JOB),
        Rule::Dup(pack, _) => (8, pack, NO_DEP, NO_PACK, NO_JOB),
        Rule::Feature(pack, _) => (9, pack, NO_DEP, NO_PACK, NO_JOB),
        Rule::Install(job, _) => (10, NO_PACK, NO_DEP, NO_PACK, job),
        Rule::Erase(job, _) => (11, NO_PACK, NO_DEP, NO_PACK, job),
        Rule::Lock(job, _) => (12, NO_PACK, NO_DEP, NO_PACK, job),
        Rule::BestJob(job, _) => (13, NO_PACK, NO_DEP, NO_PACK, job),
        Rule::BestUpdate(job, pack, _) => (14, pack, NO_DEP, NO_PACK, job),
    };
    RuleRow {
        kind,
        pack: pack.0,
        dep: dep.0,
        other: other.0,
        job: job.0,
    }
}

/// The set of a number.
fn set_of(sets: &[Items<PackNo>], set: SetNo) -> &[PackNo]
    ensures { result.now ≡ set_at sets.now set }
{
    match sets.get(set.0 as usize) {
        Some(packs) => packs.held(),
        None => &[],
    }
}

/// The packages that a rule carries.
fn rule_packs<'a>(rule: &Rule, sets: &'a [Items<PackNo>]) -> &'a [PackNo]
    ensures { result.now ≡ rule_packs (rule_with sets.now rule.now) }
{
    match *rule {
        Rule::NotInstallable(_)
        | Rule::Req(_, _)
        | Rule::Con(_, _, _)
        | Rule::RichCon(_, _)
        | Rule::Obs(_, _, _)
        | Rule::Same(_, _)
        | Rule::Infarch(_) => &[],
        Rule::Update(_, set)
        | Rule::Dup(_, set)
        | Rule::Feature(_, set)
        | Rule::Install(_, set)
        | Rule::Erase(_, set)
        | Rule::Lock(_, set)
        | Rule::BestJob(_, set)
        | Rule::BestUpdate(_, _, set) => set_of(sets, set),
    }
}

impl Solved {
    /// The hard rule of this number, as C lays it out.
    fn rule(&self, rule: usize) -> Option<RuleRow>
        ensures { result ≡ option_map rule_row (slice_get (hard_rules self.now.script.task) rule) }
    {
        match self.rules.list.held().get(rule) {
            Some(rule) => Some(rule_row(rule)),
            None => None,
        }
    }

    /// The packages of the hard rule of this number.
    fn packs_of_rule(&self, rule: usize) -> Option<&[PackNo]>
        ensures { option_copied result ≡ option_map rule_packs (slice_get (hard_rules self.now.script.task) rule) }
    {
        match self.rules.list.held().get(rule) {
            Some(rule) => Some(rule_packs(rule, self.rules.sets.held())),
            None => None,
        }
    }
}

impl Held {
    /// How many hard rules there are. A refusal and a task without an answer have none.
    pub fn rule_count(&self) -> usize
        ensures { result ≡ length (rules_of self.now) }
    {
        match self {
            Held::Answered(solved) => solved.rules.list.len(),
            Held::Refused(_) | Held::Open(_) => 0,
        }
    }

    /// The hard rule of this number, from 0 on, as C lays it out.
    pub fn rule(&self, rule: usize) -> Option<RuleRow>
        ensures { result ≡ rule_of self.now rule }
    {
        match self {
            Held::Answered(solved) => solved.rule(rule),
            Held::Refused(_) | Held::Open(_) => None,
        }
    }

    /// Its packages, where it carries some.
    fn packs_of_rule(&self, rule: usize) -> Option<&[PackNo]>
        ensures { option_copied result ≡ packs_of_rule self.now rule }
    {
        match self {
            Held::Answered(solved) => solved.packs_of_rule(rule),
            Held::Refused(_) | Held::Open(_) => None,
        }
    }

    /// Copies the first packages that the hard rule of this number carries, as many as there is room for, and reports how many it has. Where the
    /// number names none, nothing is written.
    pub fn read_rule_packs(&self, rule: usize, into: &mut [u32], count: &mut usize) -> bool
        ensures named { result ≡ is_some (packs_of_rule self.now rule) }
        ensures copied { into.new ≡ filled_where (packs_of_rule self.now rule) into.old }
        ensures told { count.new ≡ length_where (packs_of_rule self.now rule) count.old }
    {
        match self.packs_of_rule(rule) {
            Some(packs) => {
                fill_packs(into, packs);
                *count = packs.len();
                true
            }
            None => false,
        }
    }
}
