//! Probes: what enabled rules refute by unit propagation, without a decision.
ghost use Rattle.std.specs.Prelude.{◌≡◌, ◌<◌, ◌≤◌, ◌+◌, ◌*◌, ◌^◌, ◌||◌, ◌∷◌, [], ℕ, ℤ, Bool, true, List, length, nat_lt, slice_get, slice_index, Some, IfOk};
ghost use Rattle.std.specs.List.{list_all};
ghost use Rattle.std.specs.Option.{IfSome};
ghost use Rattle.solv_derive.specs.Forced.{is_falsified as is_false};
ghost use Rattle.solv_pool.specs.Prelude.{is_over, are_over};
ghost use Rattle.solv_trail.specs.Propagated.{in_use};
ghost use Rattle.solv_trail.specs.Inner.Propagated.{IsReasoned, Propagated};
ghost use Rattle.solv_watch.specs.Inner.Watching.{AreChained, AreHeads, AreNarrow};
ghost use Rattle.solv_core.specs.Inner.Contradictions.{AreRefuted, IsLogWith, IsRefutedRule, IsWhatRefutes};
ghost use Rattle.solv_core.specs.Inner.Probing.{IsFounded};

use crate::ledger::Entry;
use crate::parts::{Learnt, Numbers, Parts, Used};
use crate::refutation::log_of;
use solv_derive::Log;
use solv_learn::Search;
use solv_list::Items;
use solv_pack::{Lit, RuleMem, RuleNo};
use solv_trail::Known;
use solv_watch::{Watches, propagate};
use std::alloc::{AllocError, Global};

/// A rule that is refuted, and the derivation that shows it.
#[derive(Drop)]
pub struct RefutedRule {
    pub rule: usize,
    pub log: Log,
}

/// What enabled rules refute without a decision.
#[derive(Drop)]
pub enum Contradiction {
    /// They refute each other.
    Themselves(Log),
    /// Each of these other rules.
    Others(Items<RefutedRule>),
}

/// Whether each literal of a clause is known to be false.
fn is_falsified(known: &Known, clause: &[Lit]) -> bool
    requires { is_over known.now.count clause.now ≡ true }
    ensures { result ≡ is_false known.now.lits clause.now }
{
    for lit in clause {
        if !known.is_fact(lit.negated()) {
            return false;
        }
    }
    true
}

/// The derivation by a clause that is falsified without a decision. Its leaves are clauses of enabled rules, or that one.
fn log_by(
    alloc: Global,
    known: &Known,
    search: &mut Search,
    used: &Used<'_>,
    learnt: &Learnt<'_>,
    clause: u32,
) -> Result<Log, AllocError>
    requires over { are_over known.now.count used.now.book.now.rules ≡ true }
    requires count { search.old.marked.count ≡ known.now.count }
    requires few { length used.now.book.now.rules ≤ 2 ^ 27 }
    requires clause { clause < length used.now.book.now.rules }
    requires clash { (c : List ℤ) → slice_get used.now.book.now.rules clause ≡ Some c → is_false known.now.lits c ≡ true }
    requires founded { IsFounded used.now.book.now.rules used.now.owners.now used.now.enabled.now known.now learnt.now.rules.now.rules learnt.now.numbers.now.kept.items learnt.now.numbers.now.first learnt.now.entries.now }
    requires no_choice { known.now.marks ≡ [] }
    ensures count { search.new.marked.count ≡ search.old.marked.count }
    ensures log { IfOk result (λ log. (other : ℕ → Bool) → (in_use used.now.owners.now used.now.enabled.now clause || other clause) ≡ true → IsLogWith used.now.book.now.rules used.now.owners.now known.now.count used.now.enabled.now other log) }
{
    let count = learnt.rules.len();
    search.refute(known, used.book, learnt.rules, 0, clause)?;
    let log = log_of(alloc, learnt.numbers, learnt.entries, count, &search.hints)?;
    Ok(log)
}

/// The rule of a clause, if the clause is falsified, and the derivation that refutes it.
fn consider(
    alloc: Global,
    known: &Known,
    search: &mut Search,
    used: &Used<'_>,
    learnt: &Learnt<'_>,
    clause: RuleNo,
) -> Result<Option<RefutedRule>, AllocError>
    requires over { are_over known.now.count used.now.book.now.rules ≡ true }
    requires count { search.old.marked.count ≡ known.now.count }
    requires each { length used.now.owners.now ≡ length used.now.book.now.rules }
    requires few { length used.now.book.now.rules ≤ 2 ^ 27 }
    requires founded { IsFounded used.now.book.now.rules used.now.owners.now used.now.enabled.now known.now learnt.now.rules.now.rules learnt.now.numbers.now.kept.items learnt.now.numbers.now.first learnt.now.entries.now }
    requires no_choice { known.now.marks ≡ [] }
    ensures count { search.new.marked.count ≡ search.old.marked.count }
    ensures refuted { IfOk result (λ found. IfSome found (IsRefutedRule used.now.book.now.rules used.now.owners.now known.now.count used.now.enabled.now (clause ∷ []))) }
{
    if clause.0 as usize >= used.book.len() {
        return Ok(None);
    }
    if !is_falsified(known, used.book.lits(clause)) {
        return Ok(None);
    }
    let log = log_by(alloc, known, search, used, learnt, clause.0)?;
    Ok(Some(RefutedRule {
        rule: used.owners[clause.0 as usize],
        log,
    }))
}

/// Whether the last one found is the rule of a clause.
fn is_last(found: &[RefutedRule], owners: &[usize], clause: RuleNo) -> bool {
    match found.last() {
        Some(last) => match owners.get(clause.0 as usize) {
            Some(owner) => last.rule == *owner,
            None => false,
        },
        None => false,
    }
}

/// Whether so many derivations, each put together from so many entries, are more than a probe is worth.
fn are_many(found: usize, entries: usize) -> bool {
    found.saturating_mul(entries) > 1000000
}

/// The rules of these clauses that are refuted. Of consecutive clauses of one rule the first is enough. Where much was learnt, it stops
/// after some.
fn refuted_among(
    alloc: Global,
    known: &Known,
    search: &mut Search,
    used: &Used<'_>,
    learnt: &Learnt<'_>,
    clauses: &[RuleNo],
) -> Result<Vec<RefutedRule>, AllocError>
    requires over { are_over known.now.count used.now.book.now.rules ≡ true }
    requires count { search.old.marked.count ≡ known.now.count }
    requires each { length used.now.owners.now ≡ length used.now.book.now.rules }
    requires few { length used.now.book.now.rules ≤ 2 ^ 27 }
    requires founded { IsFounded used.now.book.now.rules used.now.owners.now used.now.enabled.now known.now learnt.now.rules.now.rules learnt.now.numbers.now.kept.items learnt.now.numbers.now.first learnt.now.entries.now }
    requires no_choice { known.now.marks ≡ [] }
    ensures count { search.new.marked.count ≡ search.old.marked.count }
    ensures refuted { IfOk result (λ found. AreRefuted used.now.book.now.rules used.now.owners.now known.now.count used.now.enabled.now clauses.now found.items) }
{
    let mut found = Vec::new(alloc);
    for clause in clauses {
        if are_many(found.len(), learnt.entries.len()) {
            return Ok(found);
        }
        if is_last(&found, used.owners, *clause) {
            continue;
        }
        if let Some(one) = consider(alloc, known, search, used, learnt, *clause)? {
            found.push(one)?;
        }
    }
    Ok(found)
}

/// Undoes all decisions.
fn take_back(known: &mut Known)
    requires { (i k : ℕ) → i < k → k < length known.old.marks → slice_index known.old.marks i < slice_index known.old.marks k }
    ensures count { known.new.count ≡ known.old.count }
    ensures no_choice { known.new.marks ≡ [] }
    ensures reasoned { (rules : List (List ℤ)) (used : ℕ → Bool) → IsReasoned rules used known.old → IsReasoned rules used known.new }
{
    if known.choices() == 0 {
        return;
    }
    known.cut(0);
}

/// The rules of these clauses that are refuted once all decisions are undone, by what a run has learnt as well.
pub fn refuted_at_end(
    alloc: Global,
    parts: &mut Parts,
    used: &Used<'_>,
    entries: &[Entry],
    clauses: &[RuleNo],
) -> Result<Vec<RefutedRule>, AllocError>
    requires over { are_over parts.old.known.count used.now.book.now.rules ≡ true }
    requires count { parts.old.search.marked.count ≡ parts.old.known.count }
    requires each { length used.now.owners.now ≡ length used.now.book.now.rules }
    requires few { length used.now.book.now.rules ≤ 2 ^ 27 }
    requires founded { IsFounded used.now.book.now.rules used.now.owners.now used.now.enabled.now parts.old.known parts.old.learnt.rules parts.old.numbers.kept.items parts.old.numbers.first entries.now }
    requires rising { (i k : ℕ) → i < k → k < length parts.old.known.marks → slice_index parts.old.known.marks i < slice_index parts.old.known.marks k }
    ensures count { parts.new.known.count ≡ parts.old.known.count }
    ensures marked { parts.new.search.marked.count ≡ parts.old.search.marked.count }
    ensures learnt { parts.new.learnt.rules ≡ parts.old.learnt.rules }
    ensures numbers { parts.new.numbers ≡ parts.old.numbers }
    ensures watches { parts.new.watches ≡ parts.old.watches }
    ensures refuted { IfOk result (λ found. AreRefuted used.now.book.now.rules used.now.owners.now parts.old.known.count used.now.enabled.now clauses.now found.items) }
{
    if clauses.is_empty() {
        return Ok(Vec::new(alloc));
    }
    take_back(&mut parts.known);
    let learnt = Learnt {
        rules: &parts.learnt,
        numbers: &parts.numbers,
        entries,
    };
    refuted_among(
        alloc,
        &parts.known,
        &mut parts.search,
        used,
        &learnt,
        clauses,
    )
}

/// Adds what enabled rules force where nothing is known yet, without learnt rules. Names the clause that is falsified, if one is.
fn force(alloc: Global, known: &mut Known, watches: &mut Watches, used: &Used<'_>) -> Option<u32>
    requires over { are_over known.old.count used.now.book.now.rules ≡ true }
    requires each { length used.now.owners.now ≡ length used.now.book.now.rules }
    requires owners { list_all (λ o. nat_lt o (length used.now.enabled.now)) used.now.owners.now ≡ true }
    requires few { length used.now.book.now.rules ≤ 2 ^ 27 }
    requires chained { AreChained known.old.count used.now.book.now.rules watches.old.book.heads.items watches.old.book.links.items watches.old.book.watched.items }
    requires narrow { AreNarrow used.now.book.now.rules watches.old.narrow.items }
    requires heads { AreHeads known.old.count watches.old.learnt.heads.items watches.old.learnt.watched.items }
    ensures count { known.new.count ≡ known.old.count }
    ensures no_choice { known.new.marks ≡ [] }
    ensures reasoned { IsReasoned used.now.book.now.rules (in_use used.now.owners.now used.now.enabled.now) known.new }
    ensures done { Propagated used.now.book.now.rules (in_use used.now.owners.now used.now.enabled.now) known.new.lits result }
    ensures chained { AreChained known.old.count used.now.book.now.rules watches.new.book.heads.items watches.new.book.links.items watches.new.book.watched.items }
    ensures narrow { AreNarrow used.now.book.now.rules watches.new.narrow.items }
    ensures heads { AreHeads known.old.count watches.new.learnt.heads.items watches.new.learnt.watched.items }
{
    known.clear();
    let none = RuleMem::new(alloc);
    watches.learnt.forget();
    propagate(known, used.book, &none, watches, used.owners, used.enabled)
}

/// What enabled rules refute, over the parts of a core: themselves, or some of the rules of these clauses.
pub fn refuted_over(
    alloc: Global,
    parts: &mut Parts,
    used: &Used<'_>,
    clauses: &[RuleNo],
) -> Result<Contradiction, AllocError>
    requires over { are_over parts.old.known.count used.now.book.now.rules ≡ true }
    requires count { parts.old.search.marked.count ≡ parts.old.known.count }
    requires each { length used.now.owners.now ≡ length used.now.book.now.rules }
    requires owners { list_all (λ o. nat_lt o (length used.now.enabled.now)) used.now.owners.now ≡ true }
    requires few { length used.now.book.now.rules ≤ 2 ^ 27 }
    requires chained { AreChained parts.old.known.count used.now.book.now.rules parts.old.watches.book.heads.items parts.old.watches.book.links.items parts.old.watches.book.watched.items }
    requires narrow { AreNarrow used.now.book.now.rules parts.old.watches.narrow.items }
    requires heads { AreHeads parts.old.known.count parts.old.watches.learnt.heads.items parts.old.watches.learnt.watched.items }
    ensures count { parts.new.known.count ≡ parts.old.known.count }
    ensures marked { parts.new.search.marked.count ≡ parts.old.search.marked.count }
    ensures chained { AreChained parts.old.known.count used.now.book.now.rules parts.new.watches.book.heads.items parts.new.watches.book.links.items parts.new.watches.book.watched.items }
    ensures narrow { AreNarrow used.now.book.now.rules parts.new.watches.narrow.items }
    ensures heads { AreHeads parts.old.known.count parts.new.watches.learnt.heads.items parts.new.watches.learnt.watched.items }
    ensures learnt { parts.new.learnt.rules ≡ parts.old.learnt.rules }
    ensures numbers { parts.new.numbers ≡ parts.old.numbers }
    ensures refuted { IfOk result (IsWhatRefutes used.now.book.now.rules used.now.owners.now parts.old.known.count used.now.enabled.now clauses.now) }
{
    let none = RuleMem::new(alloc);
    let numbers = Numbers {
        kept: Vec::new(alloc),
        first: 0,
    };
    let learnt = Learnt {
        rules: &none,
        numbers: &numbers,
        entries: &[],
    };
    match force(alloc, &mut parts.known, &mut parts.watches, used) {
        Some(clause) => {
            let log = log_by(
                alloc,
                &parts.known,
                &mut parts.search,
                used,
                &learnt,
                clause,
            )?;
            Ok(Contradiction::Themselves(log))
        }
        None => {
            let others = refuted_among(
                alloc,
                &parts.known,
                &mut parts.search,
                used,
                &learnt,
                clauses,
            )?;
            Ok(Contradiction::Others(Items::wrap(others)))
        }
    }
}
