//! Up to which number all is met that the packages which are in ask for.
ghost use Rattle.std.specs.Prelude.{◌≡◌, ◌≤◌, ◌<◌, ◌==◌, ℕ, true, pos, take, length};
ghost use Rattle.solv_pool.specs.Prelude.{is_fact};

use solv_pack::Lit;
use solv_trail::Known;

/// Of the packages that the first literals say to be in, so many of them, all with numbers below one have what they ask for. So a
/// search for one that has not begins there, or at the least package that came in since.
#[derive(Clone, Copy)]
pub struct Floor {
    pub(crate) seen: usize,
    pub(crate) number: u32,
}

impl Floor {
    /// Nothing is said.
    pub(crate) fn none() -> Floor
        ensures { result ≡ record { seen = 0; number = 0 } }
    {
        Floor { seen: 0, number: 0 }
    }

    /// It is said of all packages that are in, with numbers below this one.
    pub(crate) fn at(known: &Known, number: u32) -> Floor
        ensures { result ≡ record { seen = length known.now.lits; number = number } }
    {
        Floor {
            seen: known.len(),
            number,
        }
    }

    /// The number up to which it is so with the packages too that came in since.
    pub(crate) fn lowered(self, known: &Known) -> u32
        ensures low { result ≤ self.number }
        ensures seen { (k : ℕ) → k < result → is_fact known.now.lits (pos k) ≡ true → is_fact (take self.seen known.now.lits) (pos k) ≡ true }
    {
        let mut low = self.number;
        if low == 0 {
            return low;
        }
        for place in self.seen..known.len() {
            low = low.min(number_of(known.lit_at(place)));
        }
        low
    }
}

/// The number of the package that a literal says to be in, and of one that says "out" a number above all.
fn number_of(lit: Lit) -> u32
    ensures { (k : ℕ) → lit ≡ pos k → result ≡ k }
{
    if lit.is_in() { lit.package() } else { u32::MAX }
}
