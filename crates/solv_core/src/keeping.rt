//! Which learnt rules stay in use when a run begins.
ghost use Rattle.std.specs.Prelude.{◌≡◌, ◌<◌, ◌+◌, ◌^◌, ℕ, ℤ, true, List, length, nat_lt, IfOk};
ghost use Rattle.std.specs.List.{list_all};
ghost use Rattle.solv_derive.specs.declared.logs.Step.{Step};
ghost use Rattle.solv_derive.specs.Inner.Trimming.{is_on};
ghost use Rattle.solv_core.specs.Ledgers.{rests_on_enabled};
ghost use Rattle.solv_core.specs.Inner.Holding.{AreEntries, entry_of, hint_stays, numbers_on};

use crate::ledger::Entry;
use crate::parts::{Numbers, Used};
use solv_derive::Hint;
use solv_trail::is_in_use;
use std::alloc::{AllocError, Global};

/// Whether what a hint of an entry rests on stays in use, where it is flagged which entries do.
fn stays(used: &Used<'_>, flags: &[bool], hint: Hint) -> bool
    requires { list_all (λ o. nat_lt o (length used.now.enabled.now)) used.now.owners.now ≡ true }
    ensures { result ≡ hint_stays used.now.owners.now used.now.enabled.now flags.now hint }
{
    match hint {
        Hint::Book(rule) => {
            (rule.0 as usize) < used.owners.len()
                && is_in_use(used.owners, used.enabled, rule.0 as usize)
        }
        Hint::Step(entry) => entry < flags.len() && flags[entry],
    }
}

/// Whether all that an entry rests on stays in use.
fn all_stay(used: &Used<'_>, flags: &[bool], hints: &[Hint]) -> bool
    requires { list_all (λ o. nat_lt o (length used.now.enabled.now)) used.now.owners.now ≡ true }
    ensures { result ≡ list_all (hint_stays used.now.owners.now used.now.enabled.now flags.now) hints.now }
{
    for hint in hints {
        if !stays(used, flags, *hint) {
            return false;
        }
    }
    true
}

/// For each of so many learnt rules whether it stays in use: whether the leaves of its entry are clauses of enabled rules.
pub fn flags_of(
    alloc: Global,
    numbers: &Numbers,
    used: &Used<'_>,
    entries: &[Entry],
    count: usize,
) -> Result<Vec<bool>, AllocError>
    requires owners { list_all (λ o. nat_lt o (length used.now.enabled.now)) used.now.owners.now ≡ true }
    requires small { numbers.now.first + count < 2 ^ 64 }
    requires within { (rule : ℕ) → rule < count → entry_of numbers.now.kept.items numbers.now.first rule < length entries.now }
    requires held { (steps : List Step) × (AreEntries entries.now (entry_of numbers.now.kept.items numbers.now.first) steps × (length steps ≡ count)) }
    ensures size { IfOk result (λ flags. length flags.items ≡ count) }
    ensures each { (clauses : List (List ℤ)) → length used.now.owners.now ≡ length clauses → IfOk result (λ flags. (rule : ℕ) → rule < count → is_on flags.items rule ≡ rests_on_enabled clauses used.now.owners.now used.now.enabled.now entries.now (entry_of numbers.now.kept.items numbers.now.first rule)) }
{
    let mut on = vec![in alloc; false; entries.len()]?;
    let mut flags = Vec::new(alloc);
    for rule in 0..count {
        let entry = numbers.entry_of(rule);
        let here = all_stay(used, &on, entries[entry].hints.held());
        on[entry] = here;
        flags.push(here)?;
    }
    Ok(flags)
}

/// The numbers of the entries of flagged rules.
pub fn kept_of(alloc: Global, numbers: &Numbers, flags: &[bool]) -> Result<Vec<u32>, AllocError>
    requires within { (rule : ℕ) → rule < length flags.now → entry_of numbers.now.kept.items numbers.now.first rule < 2 ^ 32 }
    requires small { numbers.now.first + length flags.now < 2 ^ 64 }
    ensures { IfOk result (λ kept. kept.items ≡ numbers_on (is_on flags.now) (entry_of numbers.now.kept.items numbers.now.first) 0 (length flags.now)) }
{
    let mut kept = Vec::new(alloc);
    for (rule, flag) in flags.iter().enumerate() {
        if *flag {
            kept.push(numbers.entry_of(rule) as u32)?;
        }
    }
    Ok(kept)
}
