//! The literals that are known.
ghost use Rattle.std.specs.Prelude.{◌≡◌, ◌≤◌, ◌<◌, ◌+◌, ◌==◌, ◌||◌, ◌&&◌, not, ℕ, ℤ, pos, nat_abs, nat_lt, neg_ℤ, true, false, [], ◌∷◌, ◌++◌, List, length, take, slice_index, slice_index_or, IfOk};
ghost use Rattle.std.specs.List.{list_all};
ghost use Rattle.solv_pool.specs.Prelude.{is_fact, is_refuted, names_package};
ghost use Rattle.solv_trail.specs.Inner.Held.{code};
ghost use Rattle.solv_trail.specs.Inner.Numbers.{has, room};
ghost use Rattle.std.specs.Ordering.{int_eq};
ghost use Rattle.solv_trail.specs.declared.questions.Question.{Question};

use crate::numbers::NumberSet;
use crate::questions::{Ask, Question, keep_question};
use solv_pack::Lit;
use solv_pool::PackNo;
use std::alloc::{AllocError, Global};
use std::marker::Model;

/// The reason of a literal that was chosen, in place of a rule's number.
const CHOSEN: u32 = u32::MAX;

/// The literals that are known, in the order in which they came to be: each was chosen, or forced by a rule and those
/// before it. Its room is found when it is made, so that nothing takes memory later.
///
/// Contracts see the number of packages, the literals, the rule of each, the places of the choices, and what was asked at
/// each choice.
pub struct Known {
    count: u32,
    values: Vec<u8>,
    ins: NumberSet,
    places: Vec<u32>,
    lits: Vec<Lit>,
    reasons: Vec<u32>,
    marks: Vec<u32>,
    questions: Vec<Question>,
}

impl Drop for Known {
    fn drop(self) {
        let Known {
            count: _,
            values: _,
            ins: _,
            places: _,
            lits: _,
            reasons: _,
            marks: _,
            questions: _,
        } = self;
    }
}

impl Model for Known {
    ghost use Rattle.std.specs.Prelude.{◌≡◌, ◌≤◌, ◌<◌, length, vec_capacity};
    ghost use Rattle.solv_trail.specs.Inner.Held.{Held, IsHeld, AreIn};

    ghost Value = { Held };

    ghost view = { λ t. record { count = t.count; lits = t.lits.items; reasons = t.reasons.items; marks = t.marks.items; questions = t.questions.items } };

    ghost invariant = { λ t. record {
      held : IsHeld t.count t.values.items t.places.items t.lits.items t.reasons.items t.marks.items;
      ins : AreIn t.count t.ins t.lits.items;
      questions : length t.questions.items ≡ length t.marks.items;
      room : t.count ≤ vec_capacity t.lits;
      reasons_room : t.count ≤ vec_capacity t.reasons;
      marks_room : t.count ≤ vec_capacity t.marks;
      questions_room : t.count ≤ vec_capacity t.questions;
    } };
}

/// The byte of a package of which this literal is known: 1 for "in" and 2 for "out"; 0 is for neither.
fn code_of(lit: Lit) -> u8
    ensures { result ≡ code lit }
{
    if lit.is_in() { 1 } else { 2 }
}

/// Adds the package of a literal to the set, where the literal says that it is in.
fn mark(ins: &mut NumberSet, lit: Lit)
    requires some { 0 < nat_abs lit }
    requires space { nat_abs lit < room ins.old }
    ensures space { length ins.new ≡ length ins.old }
    ensures marked { (k : ℕ) → has ins.new k ≡ (int_eq (pos k) lit || has ins.old k) }
{
    if lit.is_in() {
        ins.insert(lit.package());
    }
}

/// Removes the package of a literal from the set, where the literal said that it is in.
fn unmark(ins: &mut NumberSet, lit: Lit)
    requires some { 0 < nat_abs lit }
    ensures space { length ins.new ≡ length ins.old }
    ensures unmarked { (k : ℕ) → has ins.new k ≡ (not (int_eq (pos k) lit) && has ins.old k) }
{
    if lit.is_in() {
        ins.remove(lit.package());
    }
}

impl Known {
    /// Nothing is known of packages from 1 to `count`.
    pub fn new(alloc: Global, count: u32) -> Result<Known, AllocError>
        requires { count ≤ 1048575 }
        ensures { IfOk result (λ t. t ≡ record { count = count; lits = []; reasons = []; marks = []; questions = [] }) }
    {
        let size = count as usize + 1;
        let values = vec![in alloc; 0u8; size]?;
        let ins = NumberSet::new(alloc, count)?;
        let places = vec![in alloc; 0u32; size]?;
        let lits = Vec::with_capacity(alloc, count as usize)?;
        let reasons = Vec::with_capacity(alloc, count as usize)?;
        let marks = Vec::with_capacity(alloc, count as usize)?;
        let questions = Vec::with_capacity(alloc, count as usize)?;
        Ok(Known {
            count,
            values,
            ins,
            places,
            lits,
            reasons,
            marks,
            questions,
        })
    }

    /// Whether the literal is known.
    pub fn is_fact(&self, lit: Lit) -> bool
        requires { names_package self.now.count lit ≡ true }
        ensures { result ≡ is_fact self.now.lits lit }
    {
        self.values[lit.package() as usize] == code_of(lit)
    }

    /// Whether the package is known in. The system always is, and a number above those of the packages never.
    pub fn is_in(&self, pack: PackNo) -> bool
        ensures { result ≡ ((pack == 0) || is_fact self.now.lits (pos pack)) }
    {
        pack.0 == 0 || self.knows_in(pack.0)
    }

    /// Whether the package is known out. The system never is, nor a number above those of the packages.
    pub fn is_out(&self, pack: PackNo) -> bool
        ensures { result ≡ (not (pack == 0) && is_fact self.now.lits (neg_ℤ (pos pack))) }
    {
        pack.0 != 0 && self.knows_out(pack.0)
    }

    fn knows_in(&self, number: u32) -> bool
        requires { 0 < number }
        ensures { result ≡ is_fact self.now.lits (pos number) }
    {
        match self.values.get(number as usize) {
            Some(value) => *value == 1,
            None => false,
        }
    }

    fn knows_out(&self, number: u32) -> bool
        requires { 0 < number }
        ensures { result ≡ is_fact self.now.lits (neg_ℤ (pos number)) }
    {
        match self.values.get(number as usize) {
            Some(value) => *value == 2,
            None => false,
        }
    }

    /// The packages that are known in, without the system.
    pub fn packs_in(&self) -> &NumberSet
        ensures { (k : ℕ) → has result.now k ≡ is_fact self.now.lits (pos k) }
    {
        &self.ins
    }

    /// What holds always: no package is in and out, and each literal names a package.
    pub fn keep_apart(&self)
        ensures small { self.now.count ≤ 1048575 }
        ensures over { list_all (names_package self.now.count) self.now.lits ≡ true }
        ensures apart { (l : ℤ) → is_fact self.now.lits l ≡ true → is_fact self.now.lits (neg_ℤ l) ≡ true → ⊥ }
    {
        let _ = &self.values;
    }

    /// How many literals are known.
    pub fn len(&self) -> usize
        ensures many { result ≡ length self.now.lits }
        ensures room { result ≤ self.now.count }
    {
        self.lits.len()
    }

    /// Adds an open literal that this rule forces. It takes no memory.
    pub fn push(&mut self, lit: Lit, reason: u32)
        requires over { names_package self.old.count lit ≡ true }
        requires unknown { is_fact self.old.lits lit ≡ false }
        requires not_false { is_refuted self.old.lits lit ≡ false }
        ensures room { length self.old.lits < self.old.count }
        ensures added { self.new ≡ record self.old { lits = self.old.lits ++ lit ∷ []; reasons = self.old.reasons ++ reason ∷ [] } }
    {
        let pack = lit.package() as usize;
        self.values[pack] = code_of(lit);
        mark(&mut self.ins, lit);
        self.places[pack] = self.lits.len() as u32;
        let _ = self.lits.push(lit);
        let _ = self.reasons.push(reason);
    }
}

impl Known {
    /// The literal at a place, in the order of their coming.
    pub fn lit_at(&self, place: usize) -> Lit
        requires { place < length self.now.lits }
        ensures lit { result ≡ slice_index_or self.now.lits place (pos 0) }
        ensures over { names_package self.now.count result ≡ true }
        ensures before { (e : ℕ) → is_fact (take e self.now.lits) result ≡ nat_lt place e }
    {
        self.lits[place]
    }

    /// Where a known literal stands.
    pub fn place(&self, lit: Lit) -> usize
        requires { is_fact self.now.lits lit ≡ true }
        ensures within { result < length self.now.lits }
        ensures found { slice_index_or self.now.lits result (pos 0) ≡ lit }
        ensures before { (e : ℕ) → is_fact (take e self.now.lits) lit ≡ nat_lt result e }
    {
        self.places[lit.package() as usize] as usize
    }

    /// The rule that forced the literal at a place.
    pub fn reason_at(&self, place: usize) -> u32
        requires { place < length self.now.reasons }
        ensures { result ≡ slice_index self.now.reasons place }
    {
        self.reasons[place]
    }

    /// How many choices there are.
    pub fn choices(&self) -> usize
        ensures many { result ≡ length self.now.marks }
        ensures few { result ≤ self.now.count }
        ensures room { length self.now.lits ≤ self.now.count }
        ensures asked { length self.now.questions ≡ length self.now.marks }
    {
        self.marks.len()
    }

    /// Where the choice of this number stands.
    pub fn mark_at(&self, choice: usize) -> usize
        requires { choice < length self.now.marks }
        ensures { result ≡ slice_index self.now.marks choice }
    {
        self.marks[choice] as usize
    }

    /// What was asked at the choice of this number.
    pub fn question_at(&self, choice: usize) -> Question
        requires { choice < length self.now.questions }
        ensures { (d : Question) → slice_index_or self.now.questions choice d ≡ result }
    {
        self.questions[choice]
    }

    /// Takes the package of an ask, which this literal says to be in. It takes no memory.
    pub fn choose(&mut self, lit: Lit, ask: Ask)
        requires over { names_package self.old.count lit ≡ true }
        requires unknown { is_fact self.old.lits lit ≡ false }
        requires not_false { is_refuted self.old.lits lit ≡ false }
        ensures room { length self.old.lits < self.old.count }
        ensures added { self.new ≡ record self.old { lits = self.old.lits ++ lit ∷ []; reasons = self.old.reasons ++ 4294967295 ∷ []; marks = self.old.marks ++ length self.old.lits ∷ []; questions = self.old.questions ++ ask.question ∷ [] } }
    {
        let pack = lit.package() as usize;
        let place = self.lits.len() as u32;
        self.values[pack] = code_of(lit);
        mark(&mut self.ins, lit);
        self.places[pack] = place;
        let _ = self.marks.push(place);
        let _ = self.lits.push(lit);
        let _ = self.reasons.push(CHOSEN);
        keep_question(&mut self.questions, ask.question);
    }

    /// Undoes all assignments from a choice on.
    pub fn cut(&mut self, level: usize)
        requires { level < length self.old.marks }
        ensures { self.new ≡ record self.old { lits = take (slice_index self.old.marks level) self.old.lits; reasons = take (slice_index self.old.marks level) self.old.reasons; marks = take level self.old.marks; questions = take level self.old.questions } }
    {
        let end = self.marks[level] as usize;
        self.take_back(end, level);
    }

    /// Undoes all assignments.
    pub fn clear(&mut self)
        ensures { self.new ≡ record self.old { lits = []; reasons = []; marks = []; questions = [] } }
    {
        self.take_back(0, 0);
    }

    /// Undoes the literals from a place on, and the choices from a number on.
    fn take_back(&mut self, end: usize, level: usize)
        requires level { level ≤ length self.old.marks }
        requires end { end ≤ length self.old.lits }
        requires few { level ≤ end }
        requires below { (k : ℕ) → k < level → slice_index self.old.marks k < end }
        ensures { self.new ≡ record self.old { lits = take end self.old.lits; reasons = take end self.old.reasons; marks = take level self.old.marks; questions = take level self.old.questions } }
    {
        self.marks.truncate(level);
        self.questions.truncate(level);
        while self.lits.len() > end {
            if let Some(lit) = self.lits.pop() {
                self.values[lit.package() as usize] = 0;
                unmark(&mut self.ins, lit);
                let _ = self.reasons.pop();
            }
        }
    }
}
