//! The facts of a step, as marks in a table.
ghost use Rattle.std.specs.Prelude.{◌≡◌, ℕ, ◌+◌, ◌*◌, ◌<◌, true, [], ◌∷◌, neg_ℤ, map, length, slice_index, List};
ghost use Rattle.std.specs.List.{list_all};
ghost use Rattle.solv_pack.specs.Inner.Literals.{place_of};
ghost use Rattle.solv_derive.specs.Inner.Marks.{Shows, is_marked};
ghost use Rattle.solv_pool.specs.Inner.Propagation.{forced_by};
ghost use Rattle.solv_pool.specs.Prelude.{is_over, names_package};

use solv_pack::Lit;

/// No mark is left.
pub fn clear(marks: &mut [u64])
    ensures { (k : ℕ) → slice_index marks.new k ≡ 0 }
{
    for mark in marks.iter_mut() {
        *mark = 0;
    }
}

/// Whether the literal is a fact.
fn holds(marks: &[u64], now: u64, lit: Lit) -> bool
    requires { place_of lit < length marks.now }
    ensures { result ≡ is_marked marks.now now lit }
{
    marks[lit.place()] == now
}

/// Adds a literal to the facts.
pub fn learn(count: u32, marks: &mut [u64], now: u64, lit: Lit)
    requires over { names_package count lit ≡ true }
    requires size { length marks.old ≡ 2 * count + 2 }
    ensures { (facts : List _) → Shows count marks.old now facts → Shows count marks.new now (lit ∷ facts) }
{
    marks[lit.place()] = now;
}

/// The facts are the negations of the literals of a clause.
pub fn assume_false(count: u32, marks: &mut [u64], now: u64, clause: &[Lit])
    requires over { is_over count clause.now ≡ true }
    requires fresh { Shows count marks.old now [] }
    ensures { Shows count marks.new now (map neg_ℤ clause.now) }
{
    for lit in clause {
        learn(count, marks, now, lit.negated());
    }
}

/// Whether each literal of a clause is refuted.
pub fn all_false(count: u32, marks: &[u64], now: u64, clause: &[Lit]) -> bool
    requires over { is_over count clause.now ≡ true }
    requires size { length marks.now ≡ 2 * count + 2 }
    ensures { result ≡ list_all (λ l. is_marked marks.now now (neg_ℤ l)) clause.now }
{
    for lit in clause {
        let refuted = holds(marks, now, lit.negated());
        if !refuted {
            return false;
        }
    }
    true
}

/// The one open literal of a clause with no true one.
pub fn the_open(count: u32, marks: &[u64], now: u64, clause: &[Lit]) -> Option<Lit>
    requires over { is_over count clause.now ≡ true }
    requires size { length marks.now ≡ 2 * count + 2 }
    ensures { result ≡ forced_by (is_marked marks.now now) clause.now }
{
    let mut open: Option<Lit> = None;
    for lit in clause {
        if holds(marks, now, *lit) {
            return None;
        }
        if !holds(marks, now, lit.negated()) {
            if open.is_some() {
                return None;
            }
            open = Some(*lit);
        }
    }
    open
}
