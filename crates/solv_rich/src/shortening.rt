//! Clauses without what is said of the system or twice.
ghost use Rattle.std.specs.Prelude.{◌≡◌, ◌≤◌, ◌∷◌, ◌++◌, [], ◌&&◌, ◌||◌, not, length, map, take, nat_lt, IfOk, OnOk, true};
ghost use Rattle.std.specs.List.{list_all};
ghost use Rattle.solv_pool.specs.Prelude.{is_in, same_literal, negation as negation_of, contains_literal, is_always_true as is_true_always, number_of, kept, in_numbers};
ghost use Rattle.solv_rich.specs.Inner.Counts.{HasAppended};
ghost use Rattle.solv_rich.specs.Inner.Expansions.{literal_of};
ghost use Rattle.solv_rich.specs.Inner.Shortening.{package_of, has_number, each_first};

use crate::expansion::Said;
use crate::literals::{is_same, lit, negation, number_in};
use crate::long_clauses;
use solv_pack::Lit;
use solv_pool::PackNo;
use std::alloc::{AllocError, Global};

/// The most literals of a clause in which each is compared with the others. Those of a longer one are looked up in sets.
const SHORT: usize = 32;

/// Whether a literal is among others.
fn is_among(said: &[Said], wanted: &Said) -> bool
    ensures { result ≡ contains_literal (map literal_of said.now) (literal_of wanted.now) }
{
    for each in said {
        if is_same(wanted, each) {
            return true;
        }
    }
    false
}

/// Whether every set makes a literal true, or one of the others says the opposite.
fn is_met(said: &[Said], each: &Said) -> bool
    ensures { result ≡ (same_literal (is_in 0) (literal_of each.now) || contains_literal (map literal_of said.now) (negation_of (literal_of each.now))) }
{
    is_same(&Said::In(PackNo(0)), each) || is_among(said, &negation(each))
}

/// Whether every set makes a short clause true.
fn is_short_always_true(said: &[Said]) -> bool
    ensures { result ≡ is_true_always (map literal_of said.now) }
{
    for each in said {
        if is_met(said, each) {
            return true;
        }
    }
    false
}

/// Whether every set makes a clause true.
fn is_always_true(alloc: Global, said: &[Said]) -> Result<bool, AllocError>
    ensures { IfOk result (λ always. always ≡ is_true_always (map literal_of said.now)) }
{
    if said.len() > SHORT {
        long_clauses::is_always_true(alloc, said)
    } else {
        Ok(is_short_always_true(said))
    }
}

/// Whether a literal says something of a package that is no system, and none of those before it says the same.
fn is_new(before: &[Said], each: &Said) -> bool
    ensures { result ≡ (nat_lt 0 (package_of (literal_of each.now)) && not (contains_literal (map literal_of before.now) (literal_of each.now))) }
{
    number_in(each) > 0 && !is_among(before, each)
}

/// The literals before a place.
fn before(said: &[Said], place: usize) -> &[Said]
    requires { place ≤ length said.now }
    ensures { result.now ≡ take place said.now }
{
    &said[..place]
}

/// Appends the literals of a short clause, but those of the system, and each once.
fn put_short_firsts(said: &[Said], lits: &mut Vec<Lit>) -> Result<(), AllocError>
    requires numbers { list_all has_number (map literal_of said.now) ≡ true }
    ensures appended { OnOk result (lits.new.items ≡ lits.old.items ++ map number_of (each_first [] (map literal_of said.now))) }
    ensures kept_literals { take (length lits.old.items) lits.new.items ≡ lits.old.items }
{
    for place in 0..said.len() {
        if is_new(before(said, place), &said[place]) {
            lits.push(lit(&said[place]))?;
        }
    }
    Ok(())
}

/// Appends the literals of a clause, but those of the system, and each once.
fn put_firsts(alloc: Global, said: &[Said], lits: &mut Vec<Lit>) -> Result<(), AllocError>
    requires numbers { list_all has_number (map literal_of said.now) ≡ true }
    ensures appended { OnOk result (lits.new.items ≡ lits.old.items ++ map number_of (each_first [] (map literal_of said.now))) }
    ensures kept_literals { take (length lits.old.items) lits.new.items ≡ lits.old.items }
{
    if said.len() > SHORT {
        long_clauses::put_firsts(alloc, said, lits)
    } else {
        put_short_firsts(said, lits)
    }
}

/// Appends a clause, if there is a set that does not make it true.
pub(crate) fn append_clause(
    said: &[Said],
    lits: &mut Vec<Lit>,
    ends: &mut Vec<usize>,
) -> Result<(), AllocError>
    requires numbers { list_all has_number (map literal_of said.now) ≡ true }
    ensures appended { OnOk result (HasAppended (in_numbers (kept (map literal_of said.now ∷ []))) lits.old.items lits.new.items ends.old.items ends.new.items) }
    ensures kept_literals { take (length lits.old.items) lits.new.items ≡ lits.old.items }
    ensures kept_ends { take (length ends.old.items) ends.new.items ≡ ends.old.items }
{
    let alloc = *lits.allocator();
    if is_always_true(alloc, said)? {
        return Ok(());
    }
    put_firsts(alloc, said, lits)?;
    ends.push(lits.len())?;
    Ok(())
}
