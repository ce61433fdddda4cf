//! Sets of numbers that are visited from the highest down.
ghost use Rattle.std.specs.Prelude.{◌≡◌, ◌≤◌, ◌<◌, ◌+◌, ◌*◌, ◌/◌, ◌^◌, ◌==◌, ◌||◌, ◌&&◌, ℕ, nat_lt, length, slice_index, true, false, IfOk};
ghost use Rattle.std.specs.Int.{bit_at};
ghost use Rattle.solv_trail.specs.Inner.Numbers.{has, room};
ghost use Rattle.solv_learn.specs.Inner.Places.{IsLast};

use std::alloc::{AllocError, Global};
use std::marker::Model;

/// Numbers below a bound that it was made with, one bit each, and one bit for each word that has some: so an absent number costs nothing, and
/// a long stretch without one costs little. Only making it takes memory.
#[derive(Drop)]
pub struct Places {
    words: Vec<u64>,
    filled: Vec<u64>,
}

impl Model for Places {
    ghost use Rattle.std.specs.Prelude.{ℕ, ◌≡◌, ◌*◌, ◌/◌, ◌≤◌, List, length, true};
    ghost use Rattle.solv_trail.specs.Inner.Numbers.{has};

    ghost Value = { List ℕ };

    ghost view = { λ s. s.words.items };

    ghost invariant = { λ s. record {
      space : length s.words.items ≤ 64 * length s.filled.items;
      filled : (k : ℕ) → has s.words.items k ≡ true → has s.filled.items (k / 64) ≡ true;
    } };
}

/// No bit is left.
pub fn wipe(words: &mut [u64])
    ensures { (k : ℕ) → slice_index words.new k ≡ 0 }
{
    for word in words.iter_mut() {
        *word = 0;
    }
}

/// A word, where the slice has it.
fn word_at(words: &[u64], place: usize) -> u64
    ensures { result ≡ slice_index words.now place }
{
    match words.get(place) {
        Some(word) => *word,
        None => 0,
    }
}

/// Sets the bit of a number.
fn put(words: &mut [u64], number: usize)
    requires { number < room words.old }
    ensures { (k : ℕ) → has words.new k ≡ ((k == number) || has words.old k) }
{
    words[number / 64] |= 1u64 << (number % 64);
}

/// The bits of a word below one.
fn lower(word: u64, end: usize) -> u64
    requires { end < 64 }
    ensures { (i : ℕ) → (bit_at result i == 1) ≡ ((bit_at word i == 1) && nat_lt i end) }
{
    word & ((1u64 << end) - 1)
}

/// The highest bit of a word.
fn highest(word: u64) -> Option<usize>
    ensures { IsLast (λ i. bit_at word i == 1) 0 64 result }
{
    if word == 0 {
        None
    } else {
        Some(63 - word.leading_zeros() as usize)
    }
}

/// The highest number of a word.
fn last_of(words: &[u64], place: usize) -> Option<usize>
    requires { place < 2 ^ 58 }
    ensures { IsLast (has words.now) (place * 64) ((place + 1) * 64) result }
{
    match highest(word_at(words, place)) {
        Some(bit) => Some(place * 64 + bit),
        None => None,
    }
}

/// The highest number below one, of its own word.
fn last_near(words: &[u64], end: usize) -> Option<usize>
    ensures { IsLast (has words.now) (end / 64 * 64) end result }
{
    let place = end / 64;
    match highest(lower(word_at(words, place), end % 64)) {
        Some(bit) => Some(place * 64 + bit),
        None => None,
    }
}

/// The highest number of the words below one.
fn last_of_words(words: &[u64], end: usize) -> Option<usize>
    requires { end < 2 ^ 58 }
    ensures { IsLast (has words.now) 0 (end * 64) result }
{
    let mut place = end;
    while place > 0 {
        place -= 1;
        match last_of(words, place) {
            Some(number) => return Some(number),
            None => {}
        }
    }
    None
}

/// The highest number below one.
fn last_below(words: &[u64], end: usize) -> Option<usize>
    ensures { IsLast (has words.now) 0 end result }
{
    match last_near(words, end) {
        Some(number) => Some(number),
        None => last_of_words(words, end / 64),
    }
}

/// The highest number of the words below one, of which only those that may have some are read.
fn last_of_filled(words: &[u64], filled: &[u64], end: usize) -> Option<usize>
    requires end { end < 2 ^ 58 }
    requires filled { (k : ℕ) → has words.now k ≡ true → has filled.now (k / 64) ≡ true }
    ensures { IsLast (has words.now) 0 (end * 64) result }
{
    let mut from = end;
    while let Some(place) = last_below(filled, from) {
        match last_of(words, place) {
            Some(number) => return Some(number),
            None => {}
        }
        from = place;
    }
    None
}

/// No number is left in the words that may have some, which are all.
fn clear_filled(words: &mut [u64], filled: &[u64])
    requires { (k : ℕ) → has words.old k ≡ true → has filled.now (k / 64) ≡ true }
    ensures { (k : ℕ) → has words.new k ≡ false }
{
    let mut end = words.len();
    while let Some(place) = last_below(filled, end) {
        words[place] = 0;
        end = place;
    }
}

impl Places {
    /// No number, with room for those below `count`.
    pub fn new(alloc: Global, count: u32) -> Result<Places, AllocError>
        ensures space { IfOk result (λ set. count < room set) }
        ensures none { IfOk result (λ set. (k : ℕ) → has set k ≡ false) }
    {
        let size = count as usize / 64 + 1;
        let words = vec![in alloc; 0u64; size]?;
        let filled = vec![in alloc; 0u64; size / 64 + 1]?;
        Ok(Places { words, filled })
    }

    /// Clears the set.
    pub fn clear(&mut self)
        ensures room { length self.new ≡ length self.old }
        ensures none { (k : ℕ) → has self.new k ≡ false }
    {
        clear_filled(self.words.as_mut_slice(), &self.filled);
        wipe(self.filled.as_mut_slice());
    }

    /// Puts a number in.
    pub fn insert(&mut self, number: usize)
        requires { number < room self.old }
        ensures room { length self.new ≡ length self.old }
        ensures put { (k : ℕ) → has self.new k ≡ ((k == number) || has self.old k) }
    {
        put(self.filled.as_mut_slice(), number / 64);
        put(self.words.as_mut_slice(), number);
    }

    /// The highest number below one.
    pub fn last_below(&self, end: usize) -> Option<usize>
        ensures { IsLast (has self.now) 0 end result }
    {
        match last_near(&self.words, end) {
            Some(number) => Some(number),
            None => last_of_filled(&self.words, &self.filled, end / 64),
        }
    }
}
