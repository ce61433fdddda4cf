//! The checker of derivations.
ghost use Rattle.std.specs.Prelude.{◌≡◌, ◌≤◌, ◌+◌, ◌*◌, ◌↔◌, ◌&&◌, ℕ, true, false, List, ℤ, Bool, map, take, length, slice_index, option_map, IfOk};
ghost use Rattle.solv_derive.specs.Inner.Marks.{Shows};
ghost use Rattle.solv_derive.specs.Range.{steps_over};
ghost use Rattle.solv_pool.specs.Prelude.{is_over, are_over};
ghost use Rattle.solv_derive.specs.Logs.{hint_clause, ends_in_conflict, checked, is_good_log, ends_empty as is_ended};
ghost use Rattle.solv_derive.specs.Leaves.{leaves_true};

use crate::laws::{good_logs_refute, yes_is_for_good_logs};
use crate::logs::{Checked, Hint, Log, Step};
use crate::marks::{all_false, assume_false, clear, learn, the_open};
use solv_pack::{Lit, RuleMem, RuleNo};
use std::alloc::{AllocError, Global};
use std::marker::Model;

/// A table for the checker, over packages from 1 to a number, which is what contracts see.
#[derive(Drop)]
pub struct Scratch {
    count: u32,
    marks: Vec<u64>,
}

impl Model for Scratch {
    ghost use Rattle.std.specs.Prelude.{ℕ, ◌≡◌, ◌+◌, ◌*◌, length};

    ghost Value = { ℕ };

    ghost view = { λ s. s.count };

    ghost invariant = { λ s. length s.marks.items ≡ 2 * s.count + 2 };
}

impl Scratch {
    /// A table for clauses over packages from 1 to `count`.
    pub fn for_packages(alloc: Global, count: u32) -> Result<Scratch, AllocError>
        ensures { IfOk result (λ s. s ≡ count) }
    {
        let marks = vec![in alloc; 0u64; 2 * (count as usize) + 2]?;
        Ok(Scratch { count, marks })
    }

    /// Whether it was made for all packages that the rules and the clauses of the steps name, as [`check`] asks.
    pub fn covers(&self, memory: &RuleMem, log: &Log) -> bool
        ensures { result ≡ (are_over self.now memory.now.rules && steps_over self.now log.now.steps) }
    {
        rules_within(self.count, memory) && steps_within(self.count, log.steps.held())
    }
}

/// Whether a clause names packages up to a number alone.
fn clause_within(count: u32, clause: &[Lit]) -> bool
    ensures { result ≡ is_over count clause.now }
{
    for lit in clause {
        if lit.package() > count {
            return false;
        }
    }
    true
}

/// Whether all rules do.
fn rules_within(count: u32, memory: &RuleMem) -> bool
    ensures { result ≡ are_over count memory.now.rules }
{
    for rule in 0..memory.len() as u32 {
        if !clause_within(count, memory.lits(RuleNo(rule))) {
            return false;
        }
    }
    true
}

/// Whether the clauses of all steps do.
fn steps_within(count: u32, steps: &[Step]) -> bool
    ensures { result ≡ steps_over count steps.now }
{
    for step in steps {
        if !clause_within(count, step.clause.held()) {
            return false;
        }
    }
    true
}

/// The clause that a hint of the step at this place names.
fn clause_at<'a>(
    memory: &'a RuleMem,
    steps: &'a [Step],
    place: usize,
    hint: Hint,
) -> Option<&'a [Lit]>
    requires { place ≤ length steps.now }
    ensures { option_map (λ c. c.now) result ≡ hint_clause memory.now.rules (map (λ s. s.clause) (take place steps.now)) hint }
{
    match hint {
        Hint::Book(rule) => {
            if (rule.0 as usize) < memory.len() {
                Some(memory.lits(rule))
            } else {
                None
            }
        }
        Hint::Step(step) => {
            if step < place {
                Some(steps[step].clause.held())
            } else {
                None
            }
        }
    }
}

/// Whether the hints of the step at this place end in a conflict, from the facts that the marks show.
#[tactic(auto, using(crate::proofs::Hints::found_over, crate::proofs::Hints::forced_over))]
fn leads_to_conflict(
    count: u32,
    memory: &RuleMem,
    steps: &[Step],
    place: usize,
    hints: &[Hint],
    marks: &mut [u64],
    now: u64,
) -> bool
    requires place { place ≤ length steps.now }
    requires memory { are_over count memory.now.rules ≡ true }
    requires steps { steps_over count steps.now ≡ true }
    requires size { length marks.old ≡ 2 * count + 2 }
    ensures upto { (facts : List ℤ) → Shows count marks.old now facts → (k : ℕ) → slice_index marks.new k ≤ now }
    ensures same { (facts : List ℤ) → Shows count marks.old now facts → result ≡ ends_in_conflict (hint_clause memory.now.rules (map (λ s. s.clause) (take place steps.now))) facts hints.now }
{
    for (k, hint) in hints.iter().enumerate() {
        let clause = match clause_at(memory, steps, place, *hint) {
            Some(found) => found,
            None => return false,
        };
        if k + 1 == hints.len() {
            return all_false(count, marks, now, clause);
        }
        match the_open(count, marks, now, clause) {
            Some(lit) => learn(count, marks, now, lit),
            None => return false,
        }
    }
    false
}

/// Whether there is a last step, and its clause is empty.
fn ends_empty(steps: &[Step]) -> bool
    ensures { result ≡ is_ended steps.now }
{
    match steps.last() {
        Some(step) => step.clause.held().is_empty(),
        None => false,
    }
}

/// Goes through the steps. A mark is the number of the step that set it, from 1, so nothing is undone between steps.
fn check_steps(count: u32, memory: &RuleMem, steps: &[Step], marks: &mut [u64]) -> Checked
    requires memory { are_over count memory.now.rules ≡ true }
    requires steps { steps_over count steps.now ≡ true }
    requires size { length marks.old ≡ 2 * count + 2 }
    ensures { result ≡ checked memory.now.rules steps.now }
{
    clear(marks);
    for (i, step) in steps.iter().enumerate() {
        let now = (i as u64) + 1;
        assume_false(count, marks, now, step.clause.held());
        if !leads_to_conflict(count, memory, steps, i, step.hints.held(), marks, now) {
            return Checked::No(i);
        }
    }
    if ends_empty(steps) {
        Checked::Yes
    } else {
        Checked::No(steps.len())
    }
}

/// Whether the log is good over the rules of the book. `Yes` shows that no set makes all its leaves true. It takes no memory.
pub fn check(memory: &RuleMem, log: &Log, scratch: &mut Scratch) -> Checked
    requires memory { are_over scratch.old memory.now.rules ≡ true }
    requires log { steps_over scratch.old log.now.steps ≡ true }
    ensures exact { result ≡ checked memory.now.rules log.now.steps }
    ensures good { (result ≡ Checked.Yes) ↔ (is_good_log memory.now.rules log.now.steps ≡ true) }
    ensures refuted { result ≡ Checked.Yes → (set : ℕ → Bool) → leaves_true memory.now.rules log.now.steps set ≡ false }
    ensures scratch { scratch.new ≡ scratch.old }
{
    good_logs_refute();
    yes_is_for_good_logs();
    check_steps(
        scratch.count,
        memory,
        log.steps.held(),
        scratch.marks.as_mut_slice(),
    )
}
