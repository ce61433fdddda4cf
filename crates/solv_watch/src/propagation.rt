//! Unit propagation.
ghost use Rattle.std.specs.Prelude.{◌≡◌, ◌<◌, ◌≤◌, ◌+◌, ◌-◌, ◌*◌, ◌^◌, ◌++◌, ℕ, ℤ, Bool, [], List, Some, None, true, false, length, take, nat_lt, slice_get, slice_index, Option, IfSome};
ghost use Rattle.std.specs.List.{list_all};
ghost use Rattle.solv_pool.specs.Prelude.{are_over, is_fact};
ghost use Rattle.solv_derive.specs.Forced.{is_falsified};
ghost use Rattle.solv_trail.specs.Propagated.{in_use};
ghost use Rattle.solv_trail.specs.Inner.Propagated.{IsUsed, IsGrown, Propagated};
ghost use Rattle.solv_derive.specs.Inner.Forced.{is_satisfied};
ghost use Rattle.solv_watch.specs.Inner.Watching.{AreChained, AreHeadsKept, IsHeadOf, AreNarrow, AreNarrowTrue, AreGuards, AreGuardsAtChoices, Each, IsPart, always, IsKeptAtChoices, IsKeptUpto};
ghost use Rattle.solv_watch.specs.Inner.Propagating.{AreWatched, AreKeptAtChoices, AreReady, AreSeen};

use crate::chains::{Chains, Watches};
use crate::walking::{Part, head_at, walk};
use solv_pack::{RuleMem, RuleNo};
use solv_trail::{Known, is_in_use};
use std::marker::PhantomData;

/// The rules of the book.
struct OfBook {}

/// The learnt rules.
struct OfLearnt {}

/// Walks through the rules of the book that watch the negation of the literal at a place, from its first watch on.
fn walk_book(
    known: &mut Known,
    book: &RuleMem,
    chains: &mut Chains,
    owners: &[usize],
    enabled: &[bool],
    at: usize,
    first: u32,
) -> Option<u32>
    requires over { are_over known.old.count book.now.rules ≡ true }
    requires owners { list_all (λ o. nat_lt o (length enabled.now)) owners.now ≡ true }
    requires few { length book.now.rules ≤ 2 ^ 28 }
    requires at { at < length known.old.lits }
    requires chained { AreChained known.old.count book.now.rules chains.old.heads.items chains.old.links.items chains.old.watched.items }
    requires first { IsHeadOf known.old.lits at chains.old.heads.items first }
    requires guards { AreGuards book.now.rules (in_use owners.now enabled.now) chains.old.watched.items Each (take at known.old.lits) known.old.lits }
    requires choices { AreGuardsAtChoices book.now.rules (in_use owners.now enabled.now) chains.old.watched.items known.old.lits known.old.marks }
    ensures grown { (all : List (List ℤ)) (used : ℕ → Bool) → IsPart all used 0 book.now.rules (in_use owners.now enabled.now) → IsGrown all used known.old known.new }
    ensures chained { AreChained known.old.count book.now.rules chains.new.heads.items chains.new.links.items chains.new.watched.items }
    ensures heads { AreHeadsKept known.old.lits at chains.old.heads.items chains.new.heads.items }
    ensures choices { AreGuardsAtChoices book.now.rules (in_use owners.now enabled.now) chains.new.watched.items known.new.lits known.new.marks }
    ensures guards { result ≡ None → AreGuards book.now.rules (in_use owners.now enabled.now) chains.new.watched.items Each (take (at + 1) known.new.lits) known.new.lits }
    ensures clash { IfSome result (λ rule. (all : List (List ℤ)) (used : ℕ → Bool) → IsPart all used 0 book.now.rules (in_use owners.now enabled.now) → (c : List ℤ) × IsUsed all used rule c × (is_falsified known.new.lits c ≡ true)) }
{
    let part = Part::<OfBook> {
        rules: book,
        owners,
        enabled,
        base: 0,
        of: PhantomData,
    };
    walk(
        known,
        part,
        chains.heads.as_mut_slice(),
        chains.links.as_mut_slice(),
        chains.watched.as_mut_slice(),
        at,
        first,
    )
}

/// Walks through the learnt rules that watch the negation of the literal at a place. Where there are none, no head of theirs is looked at.
fn walk_learnt(
    known: &mut Known,
    learnt: &RuleMem,
    chains: &mut Chains,
    base: u32,
    at: usize,
) -> Option<u32>
    requires over { are_over known.old.count learnt.now.rules ≡ true }
    requires base { base + length learnt.now.rules ≤ 2 ^ 28 }
    requires at { at < length known.old.lits }
    requires chained { AreChained known.old.count learnt.now.rules chains.old.heads.items chains.old.links.items chains.old.watched.items }
    requires guards { AreGuards learnt.now.rules always chains.old.watched.items Each (take at known.old.lits) known.old.lits }
    requires choices { AreGuardsAtChoices learnt.now.rules always chains.old.watched.items known.old.lits known.old.marks }
    ensures grown { (all : List (List ℤ)) (used : ℕ → Bool) → IsPart all used base learnt.now.rules always → IsGrown all used known.old known.new }
    ensures chained { AreChained known.old.count learnt.now.rules chains.new.heads.items chains.new.links.items chains.new.watched.items }
    ensures choices { AreGuardsAtChoices learnt.now.rules always chains.new.watched.items known.new.lits known.new.marks }
    ensures guards { result ≡ None → AreGuards learnt.now.rules always chains.new.watched.items Each (take (at + 1) known.new.lits) known.new.lits }
    ensures clash { IfSome result (λ rule. (all : List (List ℤ)) (used : ℕ → Bool) → IsPart all used base learnt.now.rules always → (c : List ℤ) × IsUsed all used rule c × (is_falsified known.new.lits c ≡ true)) }
{
    if learnt.is_empty() {
        return None;
    }
    let first = head_at(known, chains, at);
    let part = Part::<OfLearnt> {
        rules: learnt,
        owners: &[],
        enabled: &[],
        base,
        of: PhantomData,
    };
    walk(
        known,
        part,
        chains.heads.as_mut_slice(),
        chains.links.as_mut_slice(),
        chains.watched.as_mut_slice(),
        at,
        first,
    )
}

/// The first watch at the literal that is false by the one at a place: what was read where fewer literals were known, if it stood there then.
fn read_head(known: &Known, chains: &Chains, at: usize, count: usize, read: u32) -> u32
    requires room { length chains.now.heads.items ≡ 2 * known.now.count + 2 }
    requires read { at < count → IsHeadOf known.now.lits at chains.now.heads.items read }
    ensures { IsHeadOf known.now.lits at chains.now.heads.items result }
{
    if at < count {
        return read;
    }
    head_at(known, chains, at)
}

/// Propagates the literals from a place on, until a rule is falsified (which it names) or nothing more is forced. The head of the next literal
/// is read before the rules of one are walked through, so that both waits for memory go beside each other.
fn follow(
    known: &mut Known,
    book: &RuleMem,
    learnt: &RuleMem,
    watches: &mut Watches,
    owners: &[usize],
    enabled: &[bool],
    from: usize,
) -> Option<u32>
    requires over { are_over known.old.count (book.now.rules ++ learnt.now.rules) ≡ true }
    requires owners { list_all (λ o. nat_lt o (length enabled.now)) owners.now ≡ true }
    requires each { length owners.now ≡ length book.now.rules }
    requires rules { length (book.now.rules ++ learnt.now.rules) ≤ 2 ^ 28 }
    requires from { from ≤ length known.old.lits }
    requires book { AreChained known.old.count book.now.rules watches.old.book.heads.items watches.old.book.links.items watches.old.book.watched.items }
    requires learnt { AreChained known.old.count learnt.now.rules watches.old.learnt.heads.items watches.old.learnt.links.items watches.old.learnt.watched.items }
    requires book_choices { IsKeptAtChoices book.now.rules (in_use owners.now enabled.now) watches.old.book.watched.items known.old.lits known.old.marks }
    requires learnt_choices { IsKeptAtChoices learnt.now.rules always watches.old.learnt.watched.items known.old.lits known.old.marks }
    requires book_kept { IsKeptUpto book.now.rules (in_use owners.now enabled.now) watches.old.book.watched.items known.old.lits from }
    requires learnt_kept { IsKeptUpto learnt.now.rules always watches.old.learnt.watched.items known.old.lits from }
    ensures narrow { watches.new.narrow ≡ watches.old.narrow }
    ensures grown { IsGrown (book.now.rules ++ learnt.now.rules) (in_use owners.now enabled.now) known.old known.new }
    ensures done { Propagated (book.now.rules ++ learnt.now.rules) (in_use owners.now enabled.now) known.new.lits result }
    ensures book { AreChained known.old.count book.now.rules watches.new.book.heads.items watches.new.book.links.items watches.new.book.watched.items }
    ensures learnt { AreChained known.old.count learnt.now.rules watches.new.learnt.heads.items watches.new.learnt.links.items watches.new.learnt.watched.items }
    ensures book_choices { IsKeptAtChoices book.now.rules (in_use owners.now enabled.now) watches.new.book.watched.items known.new.lits known.new.marks }
    ensures learnt_choices { IsKeptAtChoices learnt.now.rules always watches.new.learnt.watched.items known.new.lits known.new.marks }
    ensures book_kept { result ≡ None → IsKeptUpto book.now.rules (in_use owners.now enabled.now) watches.new.book.watched.items known.new.lits (length known.new.lits) }
    ensures learnt_kept { result ≡ None → IsKeptUpto learnt.now.rules always watches.new.learnt.watched.items known.new.lits (length known.new.lits) }
{
    let base = book.len() as u32;
    let mut at = from;
    let mut first = head_at(known, &watches.book, at);
    while at < known.len() {
        let count = known.len();
        let read = head_at(known, &watches.book, at + 1);
        if let Some(rule) = walk_book(known, book, &mut watches.book, owners, enabled, at, first) {
            return Some(rule);
        }
        if let Some(rule) = walk_learnt(known, learnt, &mut watches.learnt, base, at) {
            return Some(rule);
        }
        at += 1;
        first = read_head(known, &watches.book, at, count, read);
    }
    known.keep_apart();
    None
}

/// Visits a rule with fewer than two literals, and adds what it forces, where the rules begin at base among all. Returns whether it is not
/// falsified.
#[inline(always)]
fn visit_narrow(
    known: &mut Known,
    rules: &RuleMem,
    owners: &[usize],
    enabled: &[bool],
    base: u32,
    rule: u32,
) -> bool
    requires over { are_over known.old.count rules.now.rules ≡ true }
    requires owners { list_all (λ o. nat_lt o (length enabled.now)) owners.now ≡ true }
    requires base { base + length rules.now.rules ≤ 2 ^ 28 }
    requires rule { rule < length rules.now.rules }
    requires narrow { (c : List ℤ) → slice_get rules.now.rules rule ≡ Some c → length c < 2 }
    ensures grown { (all : List (List ℤ)) (used : ℕ → Bool) → IsPart all used base rules.now.rules (in_use owners.now enabled.now) → IsGrown all used known.old known.new }
    ensures satisfied { result ≡ true → (c : List ℤ) → IsUsed rules.now.rules (in_use owners.now enabled.now) rule c → is_satisfied known.new.lits c ≡ true }
    ensures falsified { result ≡ false → (c : List ℤ) × IsUsed rules.now.rules (in_use owners.now enabled.now) rule c × (is_falsified known.new.lits c ≡ true) }
{
    if !is_in_use(owners, enabled, rule as usize) {
        return true;
    }
    let clause = rules.lits(RuleNo(rule));
    if clause.is_empty() {
        return false;
    }
    let lit = clause[0];
    if known.is_fact(lit) {
        return true;
    }
    if known.is_fact(lit.negated()) {
        return false;
    }
    known.push(lit, base + rule);
    true
}

/// Visits all rules of the book with fewer than two literals, until one is falsified, which it names.
fn visit_all_narrow(
    known: &mut Known,
    rules: &RuleMem,
    narrow: &[u32],
    owners: &[usize],
    enabled: &[bool],
) -> Option<u32>
    requires over { are_over known.old.count rules.now.rules ≡ true }
    requires owners { list_all (λ o. nat_lt o (length enabled.now)) owners.now ≡ true }
    requires few { length rules.now.rules ≤ 2 ^ 28 }
    requires narrow { AreNarrow rules.now.rules narrow.now }
    ensures grown { (all : List (List ℤ)) (used : ℕ → Bool) → IsPart all used 0 rules.now.rules (in_use owners.now enabled.now) → IsGrown all used known.old known.new }
    ensures satisfied { result ≡ None → AreNarrowTrue rules.now.rules (in_use owners.now enabled.now) known.new.lits }
    ensures clash { IfSome result (λ rule. (c : List ℤ) × IsUsed rules.now.rules (in_use owners.now enabled.now) rule c × (is_falsified known.new.lits c ≡ true)) }
{
    for rule in narrow {
        if !visit_narrow(known, rules, owners, enabled, 0, *rule) {
            return Some(*rule);
        }
    }
    None
}

/// Visits a learnt rule, and adds what it forces, if it has fewer than two literals. Returns whether it is not falsified then.
fn visit_learnt(known: &mut Known, rules: &RuleMem, base: u32, rule: u32) -> bool
    requires over { are_over known.old.count rules.now.rules ≡ true }
    requires base { base + length rules.now.rules ≤ 2 ^ 28 }
    requires rule { rule < length rules.now.rules }
    ensures grown { (all : List (List ℤ)) (used : ℕ → Bool) → IsPart all used base rules.now.rules always → IsGrown all used known.old known.new }
    ensures satisfied { result ≡ true → (c : List ℤ) → IsUsed rules.now.rules always rule c → length c < 2 → is_satisfied known.new.lits c ≡ true }
    ensures falsified { result ≡ false → (c : List ℤ) × IsUsed rules.now.rules always rule c × (is_falsified known.new.lits c ≡ true) }
{
    let size = rules.lits(RuleNo(rule)).len();
    if size >= 2 {
        return true;
    }
    visit_narrow(known, rules, &[], &[], base, rule)
}

/// Visits all learnt rules with fewer than two literals, until one is falsified, which it names, by its number among all rules.
fn visit_all_learnt(known: &mut Known, rules: &RuleMem, base: u32) -> Option<u32>
    requires over { are_over known.old.count rules.now.rules ≡ true }
    requires base { base + length rules.now.rules ≤ 2 ^ 28 }
    ensures grown { (all : List (List ℤ)) (used : ℕ → Bool) → IsPart all used base rules.now.rules always → IsGrown all used known.old known.new }
    ensures satisfied { result ≡ None → AreNarrowTrue rules.now.rules always known.new.lits }
    ensures clash { IfSome result (λ rule. (all : List (List ℤ)) (used : ℕ → Bool) → IsPart all used base rules.now.rules always → (c : List ℤ) × IsUsed all used rule c × (is_falsified known.new.lits c ≡ true)) }
{
    let count = rules.len() as u32;
    for rule in 0..count {
        if !visit_learnt(known, rules, base, rule) {
            return Some(base + rule);
        }
    }
    None
}

/// Visits the rules with fewer than two literals, where nothing is known yet.
fn begin(
    known: &mut Known,
    book: &RuleMem,
    learnt: &RuleMem,
    narrow: &[u32],
    owners: &[usize],
    enabled: &[bool],
) -> Option<u32>
    requires over { are_over known.old.count (book.now.rules ++ learnt.now.rules) ≡ true }
    requires owners { list_all (λ o. nat_lt o (length enabled.now)) owners.now ≡ true }
    requires each { length owners.now ≡ length book.now.rules }
    requires rules { length (book.now.rules ++ learnt.now.rules) ≤ 2 ^ 28 }
    requires narrow { AreNarrow book.now.rules narrow.now }
    requires satisfied { 0 < length known.old.lits → AreNarrowTrue book.now.rules (in_use owners.now enabled.now) known.old.lits }
    requires learnt_satisfied { 0 < length known.old.lits → AreNarrowTrue learnt.now.rules always known.old.lits }
    ensures grown { IsGrown (book.now.rules ++ learnt.now.rules) (in_use owners.now enabled.now) known.old known.new }
    ensures satisfied { result ≡ None → AreNarrowTrue book.now.rules (in_use owners.now enabled.now) known.new.lits }
    ensures learnt_satisfied { result ≡ None → AreNarrowTrue learnt.now.rules always known.new.lits }
    ensures clash { IfSome result (λ rule. (c : List ℤ) × IsUsed (book.now.rules ++ learnt.now.rules) (in_use owners.now enabled.now) rule c × (is_falsified known.new.lits c ≡ true)) }
{
    if known.len() > 0 {
        return None;
    }
    if let Some(rule) = visit_all_narrow(known, book, narrow, owners, enabled) {
        return Some(rule);
    }
    visit_all_learnt(known, learnt, book.len() as u32)
}

/// Adds what the rules in use force, until one is falsified (which it names) or nothing more is forced. All literals but the last must have
/// been propagated before. It takes no memory.
pub fn propagate(
    known: &mut Known,
    book: &RuleMem,
    learnt: &RuleMem,
    watches: &mut Watches,
    owners: &[usize],
    enabled: &[bool],
) -> Option<u32>
    requires over { are_over known.old.count (book.now.rules ++ learnt.now.rules) ≡ true }
    requires owners { list_all (λ o. nat_lt o (length enabled.now)) owners.now ≡ true }
    requires each { length owners.now ≡ length book.now.rules }
    requires rules { length (book.now.rules ++ learnt.now.rules) ≤ 2 ^ 28 }
    requires watched { AreWatched known.old.count book.now.rules learnt.now.rules watches.old }
    requires kept { AreKeptAtChoices book.now.rules learnt.now.rules (in_use owners.now enabled.now) watches.old known.old }
    requires ready { AreReady book.now.rules learnt.now.rules (in_use owners.now enabled.now) watches.old known.old }
    ensures grown { IsGrown (book.now.rules ++ learnt.now.rules) (in_use owners.now enabled.now) known.old known.new }
    ensures done { Propagated (book.now.rules ++ learnt.now.rules) (in_use owners.now enabled.now) known.new.lits result }
    ensures watched { AreWatched known.old.count book.now.rules learnt.now.rules watches.new }
    ensures kept { AreKeptAtChoices book.now.rules learnt.now.rules (in_use owners.now enabled.now) watches.new known.new }
    ensures seen { result ≡ None → AreSeen book.now.rules learnt.now.rules (in_use owners.now enabled.now) watches.new known.new }
{
    let from = known.len().saturating_sub(1);
    if let Some(rule) = begin(known, book, learnt, &watches.narrow, owners, enabled) {
        return Some(rule);
    }
    follow(known, book, learnt, watches, owners, enabled, from)
}
