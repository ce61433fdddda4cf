//! Links rules into the chains of the literals that they watch.
ghost use Rattle.std.specs.Prelude.{◌≡◌, ◌<◌, ◌≤◌, ◌+◌, ◌*◌, ◌^◌, ◌++◌, ◌∷◌, [], ℕ, ℤ, pos, true, List, Some, length, take, slice_get, slice_index, slice_set, IfOk, OnOk, vec_capacity};
ghost use Rattle.solv_pack.specs.Inner.Literals.{place_of};
ghost use Rattle.solv_pool.specs.Prelude.{are_over};
ghost use Rattle.solv_watch.specs.Inner.Chains.{no_link};
ghost use Rattle.solv_watch.specs.Inner.Spares.{AreTwoOf};
ghost use Rattle.solv_watch.specs.Inner.Watching.{AreChained, AreChainedTo, AreHeads, AreHeadsFrom, AreNarrow};

use crate::chains::{Chains, NOWHERE, Watches, hang};
use solv_pack::{Lit, RuleMem, RuleNo};
use std::alloc::{AllocError, Global};

/// Appends two literals where there is room.
fn add_pair(watched: &mut Vec<Lit>, first: Lit, second: Lit)
    requires { length watched.old.items + 2 ≤ vec_capacity watched.old }
    ensures items { watched.new.items ≡ watched.old.items ++ first ∷ second ∷ [] }
    ensures room { vec_capacity watched.old ≤ vec_capacity watched.new }
{
    let _ = watched.extend_from_slice(&[first, second]);
}

/// Makes a rule watch two literals.
fn hang_both(heads: &mut [u32], links: &mut [u32], rule: u32, first: Lit, second: Lit)
    requires rule { 2 * rule + 2 ≤ length links.old }
    requires few { length links.old ≤ 2 ^ 29 }
    requires first { place_of first < length heads.old }
    requires second { place_of second < length heads.old }
    ensures heads { heads.new ≡ slice_set (slice_set heads.old (place_of first) (2 * rule)) (place_of second) (2 * rule + 1) }
    ensures links { links.new ≡ slice_set (slice_set links.old (2 * rule) (slice_index heads.old (place_of first))) (2 * rule + 1) (slice_index (slice_set heads.old (place_of first) (2 * rule)) (place_of second)) }
{
    hang(heads, links, first.place(), 2 * rule);
    hang(heads, links, second.place(), 2 * rule + 1);
}

/// Empties the chains of these literals.
fn clear_heads(heads: &mut [u32], watched: &[Lit])
    ensures cleared { AreHeadsFrom 0 heads.old watched.now → (p : ℕ) → p < length heads.new → slice_index heads.new p ≡ no_link }
    ensures same_length { length heads.new ≡ length heads.old }
{
    for lit in watched {
        let place = lit.place();
        if place < heads.len() {
            heads[place] = NOWHERE;
        }
    }
}

impl Chains {
    /// No watches, over packages from 1 to `packages`. There are links for so many rules, and room for their watches.
    fn with_room(alloc: Global, packages: u32, rules: usize) -> Result<Chains, AllocError>
        requires packages { packages ≤ 1048575 }
        requires rules { rules ≤ 2 ^ 28 }
        ensures heads { IfOk result (λ c. length c.heads.items ≡ 2 * packages + 2) }
        ensures none { IfOk result (λ c. (p : ℕ) → p < length c.heads.items → slice_index c.heads.items p ≡ no_link) }
        ensures links { IfOk result (λ c. length c.links.items ≡ 2 * rules) }
        ensures watched { IfOk result (λ c. c.watched.items ≡ []) }
        ensures room { IfOk result (λ c. 2 * rules ≤ vec_capacity c.watched) }
    {
        let heads = vec![in alloc; NOWHERE; 2 * (packages as usize) + 2]?;
        let links = vec![in alloc; NOWHERE; 2 * rules]?;
        let watched = Vec::with_capacity(alloc, 2 * rules)?;
        Ok(Chains {
            heads,
            links,
            watched,
        })
    }

    /// Adds null links for one more rule, where there is room for them.
    pub fn link_next(&mut self)
        requires { length self.old.links.items + 2 ≤ vec_capacity self.old.links }
        ensures heads { self.new.heads ≡ self.old.heads }
        ensures links { self.new.links.items ≡ self.old.links.items ++ no_link ∷ no_link ∷ [] }
        ensures watched { self.new.watched ≡ self.old.watched }
    {
        let _ = self.links.extend_from_slice(&[NOWHERE, NOWHERE]);
    }

    /// Makes the next rule watch these two literals of it.
    pub fn add(&mut self, rule: u32, first: Lit, second: Lit)
        requires room { length self.old.watched.items + 2 ≤ vec_capacity self.old.watched }
        requires rule { 2 * rule + 2 ≤ length self.old.links.items }
        requires few { length self.old.links.items ≤ 2 ^ 29 }
        requires first { place_of first < length self.old.heads.items }
        requires second { place_of second < length self.old.heads.items }
        ensures heads { length self.new.heads.items ≡ length self.old.heads.items }
        ensures watched { self.new.watched.items ≡ self.old.watched.items ++ first ∷ second ∷ [] }
        ensures room { vec_capacity self.old.watched ≤ vec_capacity self.new.watched }
        ensures chained { (count : ℕ) (rules : List (List ℤ)) (c : List ℤ) → AreChainedTo count rule rules self.old.heads.items self.old.links.items self.old.watched.items → slice_get rules rule ≡ Some c → 2 ≤ length c → AreTwoOf first second c → AreChainedTo count (rule + 1) rules self.new.heads.items self.new.links.items self.new.watched.items }
    {
        add_pair(&mut self.watched, first, second);
        hang_both(
            self.heads.as_mut_slice(),
            self.links.as_mut_slice(),
            rule,
            first,
            second,
        );
    }

    /// Passes the next rule, which has fewer than two literals.
    pub fn pass(&mut self)
        requires { length self.old.watched.items + 2 ≤ vec_capacity self.old.watched }
        ensures heads { self.new.heads ≡ self.old.heads }
        ensures links { self.new.links ≡ self.old.links }
        ensures watched { self.new.watched.items ≡ self.old.watched.items ++ pos 1 ∷ pos 1 ∷ [] }
        ensures room { vec_capacity self.old.watched ≤ vec_capacity self.new.watched }
        ensures chained { (count rule : ℕ) (rules : List (List ℤ)) (c : List ℤ) → AreChainedTo count rule rules self.old.heads.items self.old.links.items self.old.watched.items → slice_get rules rule ≡ Some c → length c < 2 → AreChainedTo count (rule + 1) rules self.new.heads.items self.new.links.items self.new.watched.items }
    {
        add_pair(&mut self.watched, Lit::new(1), Lit::new(1));
    }

    /// Removes the watches of all rules. It takes time in proportion to the rules, not to the literals.
    pub fn forget(&mut self)
        ensures chained { (count : ℕ) → AreHeads count self.old.heads.items self.old.watched.items → AreChained count [] self.new.heads.items self.new.links.items self.new.watched.items }
    {
        clear_heads(self.heads.as_mut_slice(), &self.watched);
        self.links.clear();
        self.watched.clear();
    }
}

/// Makes the next rule watch its first two literals, or passes it, where it has fewer.
fn hang_rule(chains: &mut Chains, rules: &RuleMem, rule: u32, packages: u32)
    requires room { length chains.old.watched.items + 2 ≤ vec_capacity chains.old.watched }
    requires over { are_over packages rules.now.rules ≡ true }
    requires rule { rule < length rules.now.rules }
    requires chained { AreChainedTo packages rule rules.now.rules chains.old.heads.items chains.old.links.items chains.old.watched.items }
    ensures watched { length chains.new.watched.items ≡ length chains.old.watched.items + 2 }
    ensures room { vec_capacity chains.old.watched ≤ vec_capacity chains.new.watched }
    ensures chained { AreChainedTo packages (rule + 1) rules.now.rules chains.new.heads.items chains.new.links.items chains.new.watched.items }
{
    let clause = rules.lits(RuleNo(rule));
    if clause.len() < 2 {
        chains.pass();
        return;
    }
    let first = clause[0];
    let second = clause[1];
    chains.add(rule, first, second);
}

/// Makes the next rule watch two literals, or records that it has fewer.
fn chain_rule(
    chains: &mut Chains,
    narrow: &mut Vec<u32>,
    rules: &RuleMem,
    rule: u32,
    packages: u32,
) -> Result<(), AllocError>
    requires room { length chains.old.watched.items + 2 ≤ vec_capacity chains.old.watched }
    requires over { are_over packages rules.now.rules ≡ true }
    requires rule { rule < length rules.now.rules }
    requires chained { AreChainedTo packages rule rules.now.rules chains.old.heads.items chains.old.links.items chains.old.watched.items }
    requires narrow { AreNarrow (take rule rules.now.rules) narrow.old.items }
    ensures watched { OnOk result (length chains.new.watched.items ≡ length chains.old.watched.items + 2) }
    ensures room { vec_capacity chains.old.watched ≤ vec_capacity chains.new.watched }
    ensures chained { OnOk result (AreChainedTo packages (rule + 1) rules.now.rules chains.new.heads.items chains.new.links.items chains.new.watched.items) }
    ensures narrow { OnOk result (AreNarrow (take (rule + 1) rules.now.rules) narrow.new.items) }
{
    let clause = rules.lits(RuleNo(rule));
    if clause.len() < 2 {
        if narrow.push(rule).is_err() {
            return Err(AllocError);
        }
        hang_rule(chains, rules, rule, packages);
        return Ok(());
    }
    hang_rule(chains, rules, rule, packages);
    Ok(())
}

/// Makes all rules of a book watch two literals, and gives the numbers of those with fewer.
fn chain_all(
    alloc: Global,
    chains: &mut Chains,
    rules: &RuleMem,
    packages: u32,
) -> Result<Vec<u32>, AllocError>
    requires room { 2 * length rules.now.rules ≤ vec_capacity chains.old.watched }
    requires over { are_over packages rules.now.rules ≡ true }
    requires chained { AreChainedTo packages 0 rules.now.rules chains.old.heads.items chains.old.links.items chains.old.watched.items }
    ensures chained { OnOk result (AreChained packages rules.now.rules chains.new.heads.items chains.new.links.items chains.new.watched.items) }
    ensures narrow { IfOk result (λ narrow. AreNarrow rules.now.rules narrow.items) }
{
    let mut narrow = Vec::new(alloc);
    let count = rules.len() as u32;
    for rule in 0..count {
        chain_rule(chains, &mut narrow, rules, rule, packages)?;
    }
    Ok(narrow)
}

/// Makes all rules watch two literals, where none does yet.
fn hang_all(chains: &mut Chains, rules: &RuleMem, packages: u32)
    requires room { 2 * length rules.now.rules ≤ vec_capacity chains.old.watched }
    requires over { are_over packages rules.now.rules ≡ true }
    requires few { length rules.now.rules ≤ 2 ^ 28 }
    requires chained { AreChainedTo packages 0 rules.now.rules chains.old.heads.items chains.old.links.items chains.old.watched.items }
    ensures chained { AreChained packages rules.now.rules chains.new.heads.items chains.new.links.items chains.new.watched.items }
{
    let count = rules.len() as u32;
    for rule in 0..count {
        hang_rule(chains, rules, rule, packages);
    }
}

impl Chains {
    /// Removes all watches, and makes those of these rules. Where memory runs out, there are none.
    pub fn hang_anew(&mut self, rules: &RuleMem, packages: u32) -> Result<(), AllocError>
        requires over { are_over packages rules.now.rules ≡ true }
        requires few { length rules.now.rules ≤ 2 ^ 28 }
        requires heads { AreHeads packages self.old.heads.items self.old.watched.items }
        ensures chained { OnOk result (AreChained packages rules.now.rules self.new.heads.items self.new.links.items self.new.watched.items) }
        ensures heads { AreHeads packages self.new.heads.items self.new.watched.items }
    {
        rules.keeps_its_limits();
        self.forget();
        self.watched.reserve(2 * rules.len())?;
        self.links.resize(2 * rules.len(), NOWHERE)?;
        hang_all(self, rules, packages);
        Ok(())
    }
}

impl Watches {
    /// The watches of a book over packages from 1 to `packages`.
    pub fn over(alloc: Global, book: &RuleMem, packages: u32) -> Result<Watches, AllocError>
        requires packages { packages ≤ 1048575 }
        requires rules { length book.now.rules ≤ 2 ^ 27 }
        requires over { are_over packages book.now.rules ≡ true }
        ensures book { IfOk result (λ w. AreChained packages book.now.rules w.book.heads.items w.book.links.items w.book.watched.items) }
        ensures learnt { IfOk result (λ w. AreChained packages [] w.learnt.heads.items w.learnt.links.items w.learnt.watched.items) }
        ensures heads { IfOk result (λ w. AreHeads packages w.learnt.heads.items w.learnt.watched.items) }
        ensures narrow { IfOk result (λ w. AreNarrow book.now.rules w.narrow.items) }
    {
        book.keeps_its_limits();
        let mut chains = Chains::with_room(alloc, packages, book.len())?;
        let narrow = chain_all(alloc, &mut chains, book, packages)?;
        let learnt = Chains::with_room(alloc, packages, 0)?;
        Ok(Watches {
            book: chains,
            learnt,
            narrow,
        })
    }
}
