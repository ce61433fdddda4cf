//! Visits the watches of a literal that became false.
ghost use Rattle.std.specs.Prelude.{◌≡◌, ◌<◌, ◌≤◌, ◌+◌, ◌*◌, ◌/◌, ◌%◌, ◌^◌, ℕ, ℤ, pos, neg_ℤ, Bool, true, false, List, Some, None, length, take, nat_lt, slice_get, slice_index, slice_index_or, slice_set, Option, IfSome};
ghost use Rattle.std.specs.List.{list_all};
ghost use Rattle.solv_pool.specs.Prelude.{is_fact, is_over, are_over, names_package};
ghost use Rattle.solv_pack.specs.Inner.Literals.{place_of};
ghost use Rattle.solv_derive.specs.Forced.{is_falsified};
ghost use Rattle.solv_trail.specs.Propagated.{in_use};
ghost use Rattle.solv_trail.specs.Inner.Propagated.{IsUsed, IsGrown};
ghost use Rattle.solv_watch.specs.Inner.Chains.{no_link, other, heads_past, links_past};
ghost use Rattle.solv_watch.specs.Inner.Spares.{IsBesideFalse};
ghost use Rattle.solv_watch.specs.Inner.Watching.{literal_of, AreHeadsKept, IsHeadOf, AreChained, AreGuards, AreGuardsAtChoices, Each, IsPart, Visited};

use crate::chains::{Chains, NOWHERE, beside, rewatch};
use crate::spares::spare_beside;
use solv_pack::{Lit, RuleMem, RuleNo};
use solv_trail::{Known, is_in_use};
use std::marker::PhantomData;

/// What a visit of a rule finds, where its other watched literal is given: nothing has to change; it is falsified; it forces that literal;
/// or another is to be watched.
#[derive(Clone, Copy)]
pub enum Visit {
    Stays,
    Falsified,
    Forces,
    Moves(Lit),
}

/// Rules that stand among all from a number on, and what says which of them are in use. The type names whose they are, so that each kind of
/// rules has a walk of its own, which is compiled into the loop over literals.
#[derive(Drop)]
pub struct Part<'a, Of> {
    pub rules: &'a RuleMem,
    pub owners: &'a [usize],
    pub enabled: &'a [bool],
    pub base: u32,
    pub of: PhantomData<Of>,
}

/// Visits a rule, where its other watched literal is given.
fn visit_rule(
    known: &Known,
    rules: &RuleMem,
    owners: &[usize],
    enabled: &[bool],
    rule: u32,
    beside: Lit,
) -> Visit
    requires over { are_over known.now.count rules.now.rules ≡ true }
    requires owners { list_all (λ o. nat_lt o (length enabled.now)) owners.now ≡ true }
    requires rule { rule < length rules.now.rules }
    requires beside { (c : List ℤ) → slice_get rules.now.rules rule ≡ Some c → IsBesideFalse known.now.lits beside c }
    ensures { Visited rules.now.rules (in_use owners.now enabled.now) known.now.lits rule beside result }
{
    let clause = rules.lits(RuleNo(rule));
    known.keep_apart();
    if known.is_fact(beside) {
        return Visit::Stays;
    }
    if !is_in_use(owners, enabled, rule as usize) {
        return Visit::Stays;
    }
    match spare_beside(known, clause, beside) {
        Some(lit) => Visit::Moves(lit),
        None => {
            if known.is_fact(beside.negated()) {
                Visit::Falsified
            } else {
                Visit::Forces
            }
        }
    }
}

/// The first watch at the literal that is false by the one at a place of what is known, where one stands there.
pub fn head_at(known: &Known, chains: &Chains, at: usize) -> u32
    requires room { length chains.now.heads.items ≡ 2 * known.now.count + 2 }
    ensures head { IsHeadOf known.now.lits at chains.now.heads.items result }
    ensures once { at < length known.now.lits → is_fact (take at known.now.lits) (slice_index_or known.now.lits at (pos 0)) ≡ false }
{
    if at >= known.len() {
        return NOWHERE;
    }
    chains.heads[known.lit_at(at).negated().place()]
}

/// Walks through the rules that watch a literal whose negation stands at a place of what is known, from its first watch on, and adds what they
/// force, until one is falsified, which it names by its number among all rules. It takes no memory.
pub fn walk<Of>(
    known: &mut Known,
    part: Part<'_, Of>,
    heads: &mut [u32],
    links: &mut [u32],
    watched: &mut [Lit],
    at: usize,
    first: u32,
) -> Option<u32>
    requires over { are_over known.old.count part.rules.now.rules ≡ true }
    requires owners { list_all (λ o. nat_lt o (length part.enabled.now)) part.owners.now ≡ true }
    requires base { part.base + length part.rules.now.rules ≤ 2 ^ 28 }
    requires at { at < length known.old.lits }
    requires chained { AreChained known.old.count part.rules.now.rules heads.old links.old watched.old }
    requires first { IsHeadOf known.old.lits at heads.old first }
    requires guards { AreGuards part.rules.now.rules (in_use part.owners.now part.enabled.now) watched.old Each (take at known.old.lits) known.old.lits }
    requires choices { AreGuardsAtChoices part.rules.now.rules (in_use part.owners.now part.enabled.now) watched.old known.old.lits known.old.marks }
    ensures grown { (all : List (List ℤ)) (used : ℕ → Bool) → IsPart all used part.entry.base part.entry.rules.now.rules (in_use part.entry.owners.now part.entry.enabled.now) → IsGrown all used known.old known.new }
    ensures chained { AreChained known.old.count part.entry.rules.now.rules heads.new links.new watched.new }
    ensures heads { AreHeadsKept known.old.lits at heads.old heads.new }
    ensures choices { AreGuardsAtChoices part.entry.rules.now.rules (in_use part.entry.owners.now part.entry.enabled.now) watched.new known.new.lits known.new.marks }
    ensures guards { result ≡ None → AreGuards part.entry.rules.now.rules (in_use part.entry.owners.now part.entry.enabled.now) watched.new Each (take (at + 1) known.new.lits) known.new.lits }
    ensures clash { IfSome result (λ rule. (all : List (List ℤ)) (used : ℕ → Bool) → IsPart all used part.entry.base part.entry.rules.now.rules (in_use part.entry.owners.now part.entry.enabled.now) → (c : List ℤ) × IsUsed all used rule c × (is_falsified known.new.lits c ≡ true)) }
{
    let place = known.lit_at(at).negated().place();
    let mut last = NOWHERE;
    let mut watch = first;
    while watch != NOWHERE {
        let rule = watch / 2;
        let next = links[watch as usize];
        let other = watched[beside(watch) as usize];
        known.keep_apart();
        match visit_rule(known, part.rules, part.owners, part.enabled, rule, other) {
            Visit::Falsified => return Some(part.base + rule),
            Visit::Stays => last = watch,
            Visit::Forces => {
                known.push(other, part.base + rule);
                last = watch;
            }
            Visit::Moves(to) => rewatch(heads, links, watched, place, last, watch, to),
        }
        watch = next;
    }
    None
}
