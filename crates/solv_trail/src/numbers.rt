//! Sets of numbers, as bits.
ghost use Rattle.std.specs.Prelude.{◌≡◌, ◌≤◌, ◌<◌, ◌+◌, ◌*◌, ◌/◌, ◌==◌, ◌||◌, ◌&&◌, not, ℕ, List, length, slice_index, true, false, IfOk, IfSome};
ghost use Rattle.std.specs.Int.{bit_at};
ghost use Rattle.solv_trail.specs.Inner.Numbers.{has, room, IsFirst};

use std::alloc::{AllocError, Global};
use std::marker::Model;

/// Numbers below a bound that it was made with, one bit each. Only making it takes memory.
#[derive(Drop)]
pub struct NumberSet {
    words: Vec<u64>,
}

impl Model for NumberSet {
    ghost use Rattle.std.specs.Prelude.{ℕ, List, length, ◌≤◌};

    ghost Value = { List ℕ };

    ghost view = { λ s. s.words.items };

    ghost invariant = { λ s. length s.words.items ≤ 33554432 };
}

/// A word, where the vector has it.
fn word_at(words: &[u64], place: usize) -> u64
    ensures { result ≡ slice_index words.now place }
{
    match words.get(place) {
        Some(word) => *word,
        None => 0,
    }
}

/// The lowest bit of a word from one on.
fn lowest(word: u64, from: u32) -> Option<u32>
    requires { from < 64 }
    ensures first { IsFirst (λ i. bit_at word i == 1) from result }
    ensures within { IfSome result (λ n. n < 64) }
{
    let left = word & (u64::MAX << from);
    if left == 0 {
        None
    } else {
        Some(left.trailing_zeros())
    }
}

/// The bits of a word that the word of the other set lacks.
fn beside(words: &[u64], other: &[u64], place: usize) -> u64
    ensures { (i : ℕ) → i < 64 → (bit_at result i == 1) ≡ (has words.now (place * 64 + i) && not (has other.now (place * 64 + i))) }
{
    word_at(words, place) & !word_at(other, place)
}

/// Whether the other word has all bits of a word.
fn is_within(word: u64, other: u64) -> bool
    ensures { result ≡ true → (i : ℕ) → i < 64 → (bit_at word i == 1) ≡ true → (bit_at other i == 1) ≡ true }
{
    word & !other == 0
}

/// How many words are looked at together.
const GROUP: usize = 8;

/// Bits together with those of a word that another lacks.
fn lacked(before: u64, word: u64, other: u64) -> u64
    ensures { (i : ℕ) → i < 64 → (bit_at result i == 1) ≡ ((bit_at before i == 1) || ((bit_at word i == 1) && not (bit_at other i == 1))) }
{
    before | (word & !other)
}

/// Whether the other set has all numbers of a group of words.
fn is_group_within(words: &[u64], other: &[u64], start: usize) -> bool
    requires words { start + 8 ≤ length words.now }
    requires other { start + 8 ≤ length other.now }
    ensures { result ≡ true → (k : ℕ) → start * 64 ≤ k → k < (start + 8) * 64 → (has words.now k && not (has other.now k)) ≡ false }
{
    let mut lacking = 0;
    for place in start..start + GROUP {
        lacking = lacked(lacking, words[place], other[place]);
    }
    lacking == 0
}

/// A place from one on before which the other set has all numbers of the words from that one on, group by group.
fn skip_groups(words: &[u64], other: &[u64], start: usize) -> usize
    ensures forward { start ≤ result }
    ensures within { (k : ℕ) → start * 64 ≤ k → k < result * 64 → (has words.now k && not (has other.now k)) ≡ false }
{
    let end = words.len().min(other.len());
    let mut place = start;
    while end.saturating_sub(place) >= GROUP && is_group_within(words, other, place) {
        place += GROUP;
    }
    place
}

/// A place from one on before which the other set has all numbers of the words from that one on.
fn skip_from(words: &[u64], other: &[u64], start: usize) -> usize
    ensures forward { start ≤ result }
    ensures within { (k : ℕ) → start * 64 ≤ k → k < result * 64 → (has words.now k && not (has other.now k)) ≡ false }
{
    let end = words.len().min(other.len());
    let mut place = skip_groups(words, other, start);
    while place < end && is_within(words[place], other[place]) {
        place += 1;
    }
    place
}

/// The bits of four words together.
fn joined(a: u64, b: u64, c: u64, d: u64) -> u64
    ensures { (i : ℕ) → (bit_at result i == 1) ≡ (((bit_at a i == 1) || (bit_at b i == 1)) || ((bit_at c i == 1) || (bit_at d i == 1))) }
{
    (a | b) | (c | d)
}

/// Whether the words have all numbers of four sets that are as long.
fn have_all(words: &[u64], a: &[u64], b: &[u64], c: &[u64], d: &[u64]) -> bool
    requires a { length a.now ≡ length words.now }
    requires b { length b.now ≡ length words.now }
    requires c { length c.now ≡ length words.now }
    requires d { length d.now ≡ length words.now }
    ensures { result ≡ true → (k : ℕ) → ((has a.now k || has b.now k) || (has c.now k || has d.now k)) ≡ true → has words.now k ≡ true }
{
    for place in 0..words.len() {
        if !is_within(joined(a[place], b[place], c[place], d[place]), words[place]) {
            return false;
        }
    }
    true
}

/// The first number in the words from a place on that the other set lacks.
fn first_from(words: &[u64], other: &[u64], start: usize) -> Option<u32>
    requires { length words.now ≤ 33554432 }
    ensures small { IfSome result (λ n. n < 2147483648) }
    ensures first { IsFirst (λ k. has words.now k && not (has other.now k)) (start * 64) result }
{
    for place in skip_from(words, other, start)..words.len() {
        match lowest(beside(words, other, place), 0) {
            Some(bit) => return Some(place as u32 * 64 + bit),
            None => {}
        }
    }
    None
}

/// The first number from one on that the other set lacks.
fn next_beside(words: &[u64], other: &[u64], from: u32) -> Option<u32>
    requires { length words.now ≤ 33554432 }
    ensures small { IfSome result (λ n. n < 2147483648) }
    ensures first { IsFirst (λ k. has words.now k && not (has other.now k)) from result }
{
    let place = (from / 64) as usize;
    match lowest(beside(words, other, place), from % 64) {
        Some(bit) => Some(place as u32 * 64 + bit),
        None => first_from(words, other, place + 1),
    }
}

impl NumberSet {
    /// No number, with room for those below `count`.
    pub fn new(alloc: Global, count: u32) -> Result<NumberSet, AllocError>
        requires { count ≤ 2147483583 }
        ensures space { IfOk result (λ set. count < room set) }
        ensures none { IfOk result (λ set. (k : ℕ) → has set k ≡ false) }
    {
        let words = vec![in alloc; 0u64; count as usize / 64 + 1]?;
        Ok(NumberSet { words })
    }

    /// All numbers that it has room for, which are those below `count` and some above.
    pub fn full(alloc: Global, count: u32) -> Result<NumberSet, AllocError>
        requires { count ≤ 2147483583 }
        ensures space { IfOk result (λ set. count < room set) }
        ensures all { IfOk result (λ set. (k : ℕ) → k < room set → has set k ≡ true) }
    {
        let words = vec![in alloc; u64::MAX; count as usize / 64 + 1]?;
        Ok(NumberSet { words })
    }

    /// The numbers below this one fit in.
    pub fn room(&self) -> u32
        ensures { result ≡ room self.now }
    {
        self.words.len() as u32 * 64
    }

    /// Whether the set has the number.
    pub fn has(&self, number: u32) -> bool
        ensures { result ≡ has self.now number }
    {
        let word = word_at(&self.words, (number / 64) as usize);
        (word >> (number % 64)) & 1 == 1
    }

    /// Puts a number in.
    pub fn insert(&mut self, number: u32)
        requires { number < room self.old }
        ensures room { length self.new ≡ length self.old }
        ensures put { (k : ℕ) → has self.new k ≡ ((k == number) || has self.old k) }
    {
        self.words[(number / 64) as usize] |= 1u64 << (number % 64);
    }

    /// Takes a number out, if the set has it.
    pub fn remove(&mut self, number: u32)
        ensures room { length self.new ≡ length self.old }
        ensures taken { (k : ℕ) → has self.new k ≡ (not (k == number) && has self.old k) }
    {
        let place = (number / 64) as usize;
        if place < self.words.len() {
            self.words[place] &= !(1u64 << (number % 64));
        }
    }

    /// The first number from one on.
    pub fn next(&self, from: u32) -> Option<u32>
        ensures first { IsFirst (has self.now) from result }
        ensures small { IfSome result (λ n. n < 2147483648) }
    {
        next_beside(&self.words, &[], from)
    }

    /// Whether the set has all numbers of these four; `false` says nothing where one has more room than another.
    pub fn has_all(&self, a: &NumberSet, b: &NumberSet, c: &NumberSet, d: &NumberSet) -> bool
        ensures { result ≡ true → (k : ℕ) → ((has a.now k || has b.now k) || (has c.now k || has d.now k)) ≡ true → has self.now k ≡ true }
    {
        let (words, count) = (&self.words, self.words.len());
        if a.words.len() != count || b.words.len() != count {
            return false;
        }
        if c.words.len() != count || d.words.len() != count {
            return false;
        }
        have_all(words, &a.words, &b.words, &c.words, &d.words)
    }

    /// The first number from one on that this set has and the other lacks.
    pub fn next_beside(&self, other: &NumberSet, from: u32) -> Option<u32>
        ensures first { IsFirst (λ k. has self.now k && not (has other.now k)) from result }
        ensures small { IfSome result (λ n. n < 2147483648) }
    {
        next_beside(&self.words, &other.words, from)
    }
}
