//! Conflict analysis: back along the trail, from a falsified rule to a learnt clause.
ghost use Rattle.std.specs.Prelude.{◌≡◌, ◌^◌, ◌<◌, ◌≤◌, ◌+◌, ◌-◌, ◌++◌, ◌∷◌, [], ℕ, ℤ, neg_ℤ, pos, Bool, true, false, List, Option, Some, map, take, length, reverse, slice_get, slice_index, slice_index_or, IfOk, OnOk};
ghost use Rattle.std.specs.List.{list_all};
ghost use Rattle.solv_pool.specs.Prelude.{is_fact, is_refuted, names_package, is_over, are_over};
ghost use Rattle.solv_derive.specs.Forced.{is_falsified};
ghost use Rattle.solv_derive.specs.declared.logs.Hint.{Hint};
ghost use Rattle.solv_trail.specs.Inner.Propagated.{IsUsed, IsReasoned};
ghost use Rattle.solv_learn.specs.Inner.Collecting.{IsCollected, HasMarked, HavePlaces};
ghost use Rattle.solv_learn.specs.Inner.Learning.{IsRefuted, IsLearnt};
ghost use Rattle.solv_learn.specs.Inner.Marks.{has, has_place};
ghost use Rattle.solv_learn.specs.Inner.Refuting.{hint_for, Finds, is_in_use, Refutes};

use crate::marked::Marked;
use solv_derive::Hint;
use solv_pack::{Lit, RuleMem, RuleNo};
use solv_trail::{Known, lits_of};
use std::alloc::{AllocError, Global};

/// What a search has collected: the marked literals; the hints, the last first found; and of a learnt clause all literals but the first.
pub struct Search {
    pub marked: Marked,
    pub hints: Vec<Hint>,
    pub clause: Vec<Lit>,
    pub lowest: usize,
}

impl Drop for Search {
    fn drop(self) {
        let Search {
            marked: _,
            hints: _,
            clause: _,
            lowest: _,
        } = self;
    }
}

/// The places of the first and of the last choice: what refutes a literal before the first is resolved, what stands between them is kept,
/// and from the last on one literal is left. Where there is no choice to go by, both come after all that is known.
#[derive(Clone, Copy)]
struct ChoicePlaces {
    first: usize,
    last: usize,
}

/// The hint at a rule: the learnt ones come after those of the book, and are entries from this number on.
fn hint_at(book: &RuleMem, base: usize, rule: u32) -> Hint
    requires { base + rule < 2 ^ 64 }
    ensures { result ≡ hint_for (length book.now.rules) base rule }
{
    let count = book.len();
    if (rule as usize) < count {
        Hint::Book(RuleNo(rule))
    } else {
        Hint::Step(base + (rule as usize - count))
    }
}

impl Search {
    /// A search that has collected nothing, over packages from 1 to `count`.
    pub fn for_packages(alloc: Global, count: u32) -> Result<Search, AllocError>
        ensures { IfOk result (λ s. s.marked.count ≡ count) }
    {
        Ok(Search {
            marked: Marked::for_packages(alloc, count)?,
            hints: Vec::new(alloc),
            clause: Vec::new(alloc),
            lowest: 0,
        })
    }

    /// Discards what it has collected.
    fn begin(&mut self, known: &Known)
        ensures count { self.new.marked.count ≡ self.old.marked.count }
        ensures marked { (l : ℤ) → has self.new.marked l ≡ false }
        ensures hints { self.new.hints.items ≡ [] }
        ensures clause { self.new.clause.items ≡ [] }
        ensures lowest { self.new.lowest ≡ length known.now.lits }
    {
        self.marked.clear();
        self.hints.clear();
        self.clause.clear();
        self.lowest = known.len();
    }

    /// Marks the negation of a literal that is refuted.
    fn mark(&mut self, known: &Known, choices: ChoicePlaces, lit: Lit) -> Result<(), AllocError>
        requires over { names_package known.now.count lit ≡ true }
        requires count { self.old.marked.count ≡ known.now.count }
        requires order { choices.first ≤ choices.last }
        ensures count { self.new.marked.count ≡ self.old.marked.count }
        ensures hints { self.new.hints.items ≡ self.old.hints.items }
        ensures marks { OnOk result (HasMarked known.now.lits (lit ∷ []) (has self.old.marked) (has self.new.marked)) }
        ensures collected { OnOk result (IsCollected known.now.lits choices.first choices.last (has self.old.marked) self.old.clause.items self.old.lowest → IsCollected known.now.lits choices.first choices.last (has self.new.marked) self.new.clause.items self.new.lowest) }
        ensures places { OnOk result (HavePlaces known.now.lits (has self.old.marked) (has_place self.old.marked) → HavePlaces known.now.lits (has self.new.marked) (has_place self.new.marked)) }
        ensures lowest { self.new.lowest ≤ self.old.lowest }
        ensures nothing_kept { length known.now.lits ≤ choices.first → self.new.clause.items ≡ self.old.clause.items }
    {
        let fact = lit.negated();
        if !known.is_fact(fact) || self.marked.has(fact) {
            return Ok(());
        }
        known.keep_apart();
        let place = known.place(fact);
        prove!(place < known.len());
        self.marked.insert(fact, place);
        if place >= choices.last {
            self.lowest = self.lowest.min(place);
        } else if place >= choices.first {
            self.clause.push(lit)?;
        }
        Ok(())
    }

    /// Marks the negations of all literals of a clause that are refuted.
    fn mark_all(
        &mut self,
        known: &Known,
        choices: ChoicePlaces,
        clause: &[Lit],
    ) -> Result<(), AllocError>
        requires over { is_over known.now.count clause.now ≡ true }
        requires count { self.old.marked.count ≡ known.now.count }
        requires order { choices.first ≤ choices.last }
        ensures count { self.new.marked.count ≡ self.old.marked.count }
        ensures hints { self.new.hints.items ≡ self.old.hints.items }
        ensures marks { OnOk result (HasMarked known.now.lits clause.now (has self.old.marked) (has self.new.marked)) }
        ensures collected { OnOk result (IsCollected known.now.lits choices.first choices.last (has self.old.marked) self.old.clause.items self.old.lowest → IsCollected known.now.lits choices.first choices.last (has self.new.marked) self.new.clause.items self.new.lowest) }
        ensures places { OnOk result (HavePlaces known.now.lits (has self.old.marked) (has_place self.old.marked) → HavePlaces known.now.lits (has self.new.marked) (has_place self.new.marked)) }
        ensures lowest { self.new.lowest ≤ self.old.lowest }
        ensures nothing_kept { length known.now.lits ≤ choices.first → self.new.clause.items ≡ self.old.clause.items }
    {
        for lit in clause {
            self.mark(known, choices, *lit)?;
        }
        Ok(())
    }
}

impl Search {
    /// Marks what refutes a falsified rule.
    fn start(
        &mut self,
        known: &Known,
        book: &RuleMem,
        learnt: &RuleMem,
        base: usize,
        choices: ChoicePlaces,
        rule: u32,
    ) -> Result<(), AllocError>
        requires over { are_over known.now.count (book.now.rules ++ learnt.now.rules) ≡ true }
        requires count { self.old.marked.count ≡ known.now.count }
        requires order { choices.first ≤ choices.last }
        requires rule { rule < length (book.now.rules ++ learnt.now.rules) }
        requires base { base + rule < 2 ^ 64 }
        requires clash { (c : List ℤ) → slice_get (book.now.rules ++ learnt.now.rules) rule ≡ Some c → is_falsified known.now.lits c ≡ true }
        ensures count { self.new.marked.count ≡ self.old.marked.count }
        ensures collected { OnOk result (IsCollected known.now.lits choices.first choices.last (has self.new.marked) self.new.clause.items self.new.lowest) }
        ensures places { OnOk result (HavePlaces known.now.lits (has self.new.marked) (has_place self.new.marked)) }
        ensures refutes { OnOk result ((look : Hint → Option (List ℤ)) (kept : ℤ → Bool) → Finds look (book.now.rules ++ learnt.now.rules) (length book.now.rules) base → Refutes look kept known.now.lits (length known.now.lits) (has self.new.marked) (reverse self.new.hints.items)) }
        ensures hints { OnOk result (self.new.hints.items ≡ hint_for (length book.now.rules) base rule ∷ []) }
        ensures marks { OnOk result ((c : List ℤ) → slice_get (book.now.rules ++ learnt.now.rules) rule ≡ Some c → (m : ℤ) → is_fact c m ≡ true → has self.new.marked (neg_ℤ m) ≡ true) }
        ensures nothing_kept { OnOk result (length known.now.lits ≤ choices.first → self.new.clause.items ≡ []) }
    {
        self.begin(known);
        self.hints.push(hint_at(book, base, rule))?;
        self.mark_all(known, choices, lits_of(book, learnt, rule))?;
        Ok(())
    }

    /// Resolves the literal at a place with its reason, if it is marked.
    fn resolve(
        &mut self,
        known: &Known,
        book: &RuleMem,
        learnt: &RuleMem,
        base: usize,
        choices: ChoicePlaces,
        place: usize,
    ) -> Result<(), AllocError>
        requires over { are_over known.now.count (book.now.rules ++ learnt.now.rules) ≡ true }
        requires count { self.old.marked.count ≡ known.now.count }
        requires order { choices.first ≤ choices.last }
        requires place { place < length known.now.lits }
        requires small { base + length (book.now.rules ++ learnt.now.rules) < 2 ^ 64 }
        requires reasoned { IsReasoned (book.now.rules ++ learnt.now.rules) (λ _. true) known.now }
        requires no_choice { (k : ℕ) → k < length known.now.marks → slice_index known.now.marks k ≡ place → ⊥ }
        ensures count { self.new.marked.count ≡ self.old.marked.count }
        ensures collected { OnOk result (IsCollected known.now.lits choices.first choices.last (has self.old.marked) self.old.clause.items self.old.lowest → IsCollected known.now.lits choices.first choices.last (has self.new.marked) self.new.clause.items self.new.lowest) }
        ensures places { OnOk result (HavePlaces known.now.lits (has self.old.marked) (has_place self.old.marked) → HavePlaces known.now.lits (has self.new.marked) (has_place self.new.marked)) }
        ensures refutes { OnOk result ((look : Hint → Option (List ℤ)) (kept : ℤ → Bool) → Finds look (book.now.rules ++ learnt.now.rules) (length book.now.rules) base → kept (slice_index_or known.now.lits place (pos 0)) ≡ false → Refutes look kept known.now.lits (place + 1) (has self.old.marked) (reverse self.old.hints.items) → Refutes look kept known.now.lits place (has self.new.marked) (reverse self.new.hints.items)) }
        ensures in_use { OnOk result ((used : ℕ → Bool) → IsReasoned (book.now.rules ++ learnt.now.rules) used known.now → list_all (is_in_use used (length book.now.rules) base (length (book.now.rules ++ learnt.now.rules))) self.old.hints.items ≡ true → list_all (is_in_use used (length book.now.rules) base (length (book.now.rules ++ learnt.now.rules))) self.new.hints.items ≡ true) }
        ensures lowest { OnOk result (self.new.lowest ≤ self.old.lowest) }
        ensures nothing_kept { OnOk result (length known.now.lits ≤ choices.first → self.new.clause.items ≡ self.old.clause.items) }
    {
        known.keep_apart();
        let lit = known.lit_at(place);
        if !self.marked.has(lit) {
            return Ok(());
        }
        let rule = known.reason_at(place);
        self.hints.push(hint_at(book, base, rule))?;
        self.mark_all(known, choices, lits_of(book, learnt, rule))?;
        Ok(())
    }
}

impl Search {
    /// Resolves back from the end of the trail to the first unique implication point: the one marked literal that is left from the last
    /// choice on.
    fn to_unique(
        &mut self,
        known: &Known,
        book: &RuleMem,
        learnt: &RuleMem,
        base: usize,
        choices: ChoicePlaces,
    ) -> Result<(), AllocError>
        requires over { are_over known.now.count (book.now.rules ++ learnt.now.rules) ≡ true }
        requires count { self.old.marked.count ≡ known.now.count }
        requires order { choices.first ≤ choices.last }
        requires small { base + length (book.now.rules ++ learnt.now.rules) < 2 ^ 64 }
        requires reasoned { IsReasoned (book.now.rules ++ learnt.now.rules) (λ _. true) known.now }
        requires no_choice { (k : ℕ) → k < length known.now.marks → slice_index known.now.marks k ≤ choices.last }
        requires collected { IsCollected known.now.lits choices.first choices.last (has self.old.marked) self.old.clause.items self.old.lowest }
        requires there { self.old.lowest < length known.now.lits }
        ensures count { self.new.marked.count ≡ self.old.marked.count }
        ensures there { OnOk result (self.new.lowest < length known.now.lits) }
        ensures collected { OnOk result (IsCollected known.now.lits choices.first choices.last (has self.new.marked) self.new.clause.items self.new.lowest) }
        ensures places { OnOk result (HavePlaces known.now.lits (has self.old.marked) (has_place self.old.marked) → HavePlaces known.now.lits (has self.new.marked) (has_place self.new.marked)) }
        ensures refutes { OnOk result ((look : Hint → Option (List ℤ)) → Finds look (book.now.rules ++ learnt.now.rules) (length book.now.rules) base → Refutes look (λ _. false) known.now.lits (length known.now.lits) (has self.old.marked) (reverse self.old.hints.items) → Refutes look (λ _. false) known.now.lits (self.new.lowest + 1) (has self.new.marked) (reverse self.new.hints.items)) }
        ensures in_use { OnOk result ((used : ℕ → Bool) → IsReasoned (book.now.rules ++ learnt.now.rules) used known.now → list_all (is_in_use used (length book.now.rules) base (length (book.now.rules ++ learnt.now.rules))) self.old.hints.items ≡ true → list_all (is_in_use used (length book.now.rules) base (length (book.now.rules ++ learnt.now.rules))) self.new.hints.items ≡ true) }
    {
        let mut place = known.len();
        while place > self.lowest + 1 {
            place -= 1;
            self.resolve(known, book, learnt, base, choices, place)?;
        }
        Ok(())
    }

    /// Resolves all that is marked below a place, before the first choice.
    fn below(
        &mut self,
        known: &Known,
        book: &RuleMem,
        learnt: &RuleMem,
        base: usize,
        end: usize,
    ) -> Result<(), AllocError>
        requires over { are_over known.now.count (book.now.rules ++ learnt.now.rules) ≡ true }
        requires count { self.old.marked.count ≡ known.now.count }
        requires end { end ≤ length known.now.lits }
        requires small { base + length (book.now.rules ++ learnt.now.rules) < 2 ^ 64 }
        requires reasoned { IsReasoned (book.now.rules ++ learnt.now.rules) (λ _. true) known.now }
        requires no_choice { (k : ℕ) → k < length known.now.marks → end ≤ slice_index known.now.marks k }
        requires places { HavePlaces known.now.lits (has self.old.marked) (has_place self.old.marked) }
        ensures count { self.new.marked.count ≡ self.old.marked.count }
        ensures refutes { OnOk result ((look : Hint → Option (List ℤ)) (kept : ℤ → Bool) → Finds look (book.now.rules ++ learnt.now.rules) (length book.now.rules) base → ((k : ℕ) → k < end → kept (slice_index_or known.now.lits k (pos 0)) ≡ false) → Refutes look kept known.now.lits end (has self.old.marked) (reverse self.old.hints.items) → Refutes look kept known.now.lits 0 (has self.new.marked) (reverse self.new.hints.items)) }
        ensures in_use { OnOk result ((used : ℕ → Bool) → IsReasoned (book.now.rules ++ learnt.now.rules) used known.now → list_all (is_in_use used (length book.now.rules) base (length (book.now.rules ++ learnt.now.rules))) self.old.hints.items ≡ true → list_all (is_in_use used (length book.now.rules) base (length (book.now.rules ++ learnt.now.rules))) self.new.hints.items ≡ true) }
        ensures nothing_kept { OnOk result (self.new.clause.items ≡ self.old.clause.items) }
    {
        let all = known.len();
        let none = ChoicePlaces {
            first: all,
            last: all,
        };
        let mut ahead = end;
        while let Some(place) = self.marked.last_below(ahead) {
            self.resolve(known, book, learnt, base, none, place)?;
            ahead = place;
        }
        Ok(())
    }
}

/// The greatest place of what refutes a literal of a clause; 0 where it has none.
fn highest(known: &Known, clause: &[Lit]) -> usize
    requires { (l : ℤ) → is_fact clause.now l ≡ true → is_refuted known.now.lits l ≡ true }
    ensures upper { (l : ℤ) → is_fact clause.now l ≡ true → (e : ℕ) → result < e → is_refuted (take e known.now.lits) l ≡ true }
    ensures reached { 0 < length clause.now → (l : ℤ) × ((is_fact clause.now l ≡ true) × ((e : ℕ) → e ≤ result → is_refuted (take e known.now.lits) l ≡ false)) }
{
    let mut highest = 0;
    for lit in clause {
        let place = known.place(lit.negated());
        highest = place.max(highest);
    }
    highest
}

/// How many choices stand up to a place.
fn choices_up_to(known: &Known, place: usize) -> usize
    ensures few { result ≤ length known.now.marks }
    ensures above { result < length known.now.marks → place < slice_index known.now.marks result }
    ensures below { (k : ℕ) → k < result → slice_index known.now.marks k ≤ place }
{
    let count = known.choices();
    for choice in 0..count {
        if known.mark_at(choice) > place {
            return choice;
        }
    }
    count
}

/// The least number of choices after which each literal of a clause is refuted.
fn choices_back(known: &Known, clause: &[Lit]) -> usize
    requires refuted { (l : ℤ) → is_fact clause.now l ≡ true → is_refuted known.now.lits l ≡ true }
    ensures few { result ≤ length known.now.marks }
    ensures refuted { result < length known.now.marks → (l : ℤ) → is_fact clause.now l ≡ true → is_refuted (take (slice_index known.now.marks result) known.now.lits) l ≡ true }
    ensures least { (k : ℕ) → k < result → (l : ℤ) × ((is_fact clause.now l ≡ true) × (is_refuted (take (slice_index known.now.marks k) known.now.lits) l ≡ false)) }
{
    if clause.is_empty() {
        return 0;
    }
    choices_up_to(known, highest(known, clause))
}

impl Search {
    /// The hints of a conflict without a decision, from first to last: they derive the empty clause.
    pub fn refute(
        &mut self,
        known: &Known,
        book: &RuleMem,
        learnt: &RuleMem,
        base: usize,
        rule: u32,
    ) -> Result<(), AllocError>
        requires over { are_over known.now.count (book.now.rules ++ learnt.now.rules) ≡ true }
        requires count { self.old.marked.count ≡ known.now.count }
        requires small { base + length (book.now.rules ++ learnt.now.rules) < 2 ^ 64 }
        requires rule { rule < length (book.now.rules ++ learnt.now.rules) }
        requires clash { (c : List ℤ) → slice_get (book.now.rules ++ learnt.now.rules) rule ≡ Some c → is_falsified known.now.lits c ≡ true }
        requires reasoned { IsReasoned (book.now.rules ++ learnt.now.rules) (λ _. true) known.now }
        requires no_choice { known.now.marks ≡ [] }
        ensures count { self.new.marked.count ≡ self.old.marked.count }
        ensures refuted { OnOk result ((used : ℕ → Bool) → IsReasoned (book.now.rules ++ learnt.now.rules) used known.now → used rule ≡ true → IsRefuted (book.now.rules ++ learnt.now.rules) used (length book.now.rules) base self.new.hints.items) }
    {
        let all = known.len();
        let none = ChoicePlaces {
            first: all,
            last: all,
        };
        self.start(known, book, learnt, base, none, rule)?;
        self.below(known, book, learnt, base, all)?;
        self.hints.reverse();
        Ok(())
    }

    /// What is learnt from a conflict after choices: the literal that the learnt clause asserts, the others being `clause`; and the least number of
    /// choices after which it asserts it. The hints stand from first to last.
    pub fn learn(
        &mut self,
        known: &Known,
        book: &RuleMem,
        learnt: &RuleMem,
        base: usize,
        rule: u32,
    ) -> Result<(Lit, usize), AllocError>
        requires over { are_over known.now.count (book.now.rules ++ learnt.now.rules) ≡ true }
        requires count { self.old.marked.count ≡ known.now.count }
        requires small { base + length (book.now.rules ++ learnt.now.rules) < 2 ^ 64 }
        requires rule { rule < length (book.now.rules ++ learnt.now.rules) }
        requires clash { (c : List ℤ) → slice_get (book.now.rules ++ learnt.now.rules) rule ≡ Some c → is_falsified known.now.lits c ≡ true }
        requires reasoned { IsReasoned (book.now.rules ++ learnt.now.rules) (λ _. true) known.now }
        requires choice { 0 < length known.now.marks }
        requires within { (k : ℕ) → k < length known.now.marks → slice_index known.now.marks k < length known.now.lits }
        requires rising { (i k : ℕ) → i < k → k < length known.now.marks → slice_index known.now.marks i < slice_index known.now.marks k }
        requires late { (c : List ℤ) → slice_get (book.now.rules ++ learnt.now.rules) rule ≡ Some c → is_falsified (take (slice_index known.now.marks (length known.now.marks - 1)) known.now.lits) c ≡ false }
        ensures count { self.new.marked.count ≡ self.old.marked.count }
        ensures learnt { IfOk result (λ r. (used : ℕ → Bool) → IsReasoned (book.now.rules ++ learnt.now.rules) used known.now → used rule ≡ true → IsLearnt (book.now.rules ++ learnt.now.rules) used (length book.now.rules) base known.now (r.0 ∷ self.new.clause.items) self.new.hints.items r.1) }
    {
        known.keep_apart();
        let first = known.mark_at(0);
        let last = known.mark_at(known.choices() - 1);
        let choices = ChoicePlaces { first, last };
        self.start(known, book, learnt, base, choices, rule)?;
        self.to_unique(known, book, learnt, base, choices)?;
        let unique = known.lit_at(self.lowest);
        self.below(known, book, learnt, base, first)?;
        self.hints.reverse();
        let back = choices_back(known, &self.clause);
        Ok((unique.negated(), back))
    }
}
