//! A set of literals.
ghost use Rattle.std.specs.Prelude.{◌≡◌, ◌<◌, ◌==◌, ◌||◌, ℕ, ℤ, true, false, IfOk};
ghost use Rattle.std.specs.Ordering.{int_eq};
ghost use Rattle.solv_pool.specs.Prelude.{names_package};
ghost use Rattle.solv_learn.specs.Inner.Marks.{has, has_place};
ghost use Rattle.solv_learn.specs.Inner.Places.{IsLast};

use crate::places::{Places, wipe};
use solv_pack::Lit;
use std::alloc::{AllocError, Global};
use std::marker::Model;

/// Literals over packages from 1 to a number, each with the place where it stands among those that are known. They are cleared at the cost of what
/// was put in. Contracts see the number, whether each literal is in the set, and whether each place is.
#[derive(Drop)]
pub struct Marked {
    count: u32,
    stamp: u64,
    marks: Vec<u64>,
    places: Places,
}

impl Model for Marked {
    ghost use Rattle.std.specs.Prelude.{ℕ, ◌≡◌, ◌+◌, ◌*◌, ◌<◌, ◌≤◌, length, slice_index};
    ghost use Rattle.solv_trail.specs.Inner.Numbers.{room};
    ghost use Rattle.solv_learn.specs.Inner.Marks.{Marks};

    ghost Value = { Marks };

    ghost view = { λ m. record { count = m.count; stamp = m.stamp; marks = m.marks.items; places = m.places } };

    ghost invariant = { λ m. record {
      size : length m.marks.items ≡ 2 * m.count + 2;
      upto : (k : ℕ) → slice_index m.marks.items k ≤ m.stamp;
      some : 0 < m.stamp;
      space : m.count < room m.places;
    } };
}

impl Marked {
    /// The empty set over packages from 1 to `count`.
    pub fn for_packages(alloc: Global, count: u32) -> Result<Marked, AllocError>
        ensures count { IfOk result (λ m. m.count ≡ count) }
        ensures empty { IfOk result (λ m. (l : ℤ) → has m l ≡ false) }
        ensures no_place { IfOk result (λ m. (k : ℕ) → has_place m k ≡ false) }
    {
        let marks = vec![in alloc; 0u64; 2 * (count as usize) + 2]?;
        let places = Places::new(alloc, count)?;
        Ok(Marked {
            count,
            stamp: 1,
            marks,
            places,
        })
    }

    /// Clears the set.
    pub fn clear(&mut self)
        ensures count { self.new.count ≡ self.old.count }
        ensures empty { (l : ℤ) → has self.new l ≡ false }
        ensures no_place { (k : ℕ) → has_place self.new k ≡ false }
    {
        self.places.clear();
        if self.stamp == u64::MAX {
            wipe(self.marks.as_mut_slice());
            self.stamp = 1;
        } else {
            self.stamp += 1;
        }
    }

    /// Whether the literal is in the set.
    pub fn has(&self, lit: Lit) -> bool
        requires { names_package self.now.count lit ≡ true }
        ensures { result ≡ has self.now lit }
    {
        self.marks[lit.place()] == self.stamp
    }

    /// Puts a literal into the set, with the place where it stands.
    pub fn insert(&mut self, lit: Lit, place: usize)
        requires over { names_package self.old.count lit ≡ true }
        requires place { place < self.old.count }
        ensures count { self.new.count ≡ self.old.count }
        ensures has { (l : ℤ) → has self.new l ≡ (int_eq l lit || has self.old l) }
        ensures place { (k : ℕ) → has_place self.new k ≡ ((k == place) || has_place self.old k) }
    {
        self.marks[lit.place()] = self.stamp;
        self.places.insert(place);
    }

    /// The highest place below one.
    pub fn last_below(&self, end: usize) -> Option<usize>
        ensures { IsLast (has_place self.now) 0 end result }
    {
        self.places.last_below(end)
    }
}
