//! Clauses of many literals, which are looked up in sets.
ghost use Rattle.std.specs.Prelude.{◌≡◌, ◌∷◌, ◌++◌, [], ◌&&◌, ◌||◌, not, length, map, take, nat_lt, IfOk, OnOk, true};
ghost use Rattle.std.specs.List.{list_any, list_all};
ghost use Rattle.solv_pool.specs.Prelude.{Clause, is_in, same_literal, negation as negation_of, is_always_true as is_true_always, number_of};
ghost use Rattle.solv_rich.specs.Inner.Expansions.{literal_of};
ghost use Rattle.solv_rich.specs.Inner.LongClauses.{has_literal, IsSetOf};
ghost use Rattle.solv_rich.specs.Inner.Shortening.{package_of, has_number, each_first};

use crate::expansion::Said;
use crate::literals::{is_same, lit, negation, number_in};
use solv_pack::Lit;
use solv_pool::PackNo;
use std::alloc::{AllocError, Global};
use std::collections::BTreeSet;

/// The packages that literals say to be in, and those that they say to be out.
#[derive(Drop)]
pub(crate) struct LiteralSet {
    ins: BTreeSet<u32>,
    outs: BTreeSet<u32>,
}

/// No literal.
fn no_literals(alloc: Global) -> LiteralSet
    ensures { IsSetOf result [] }
{
    LiteralSet {
        ins: BTreeSet::new(alloc),
        outs: BTreeSet::new(alloc),
    }
}

/// Whether a literal is in the set.
fn has(set: &LiteralSet, said: &Said) -> bool
    ensures { result ≡ has_literal set.now (literal_of said.now) }
{
    match *said {
        Said::In(pack) => set.ins.contains(&pack.0),
        Said::Out(pack) => set.outs.contains(&pack.0),
    }
}

/// Adds a literal.
fn add(set: &mut LiteralSet, said: &Said) -> Result<(), AllocError>
    ensures { (c : Clause) → IsSetOf set.old c → OnOk result (IsSetOf set.new (c ++ literal_of said.now ∷ [])) }
{
    match *said {
        Said::In(pack) => {
            set.ins.insert(pack.0)?;
        }
        Said::Out(pack) => {
            set.outs.insert(pack.0)?;
        }
    }
    Ok(())
}

/// The literals of a clause.
fn set_of(alloc: Global, said: &[Said]) -> Result<LiteralSet, AllocError>
    ensures { IfOk result (λ set. IsSetOf set (map literal_of said.now)) }
{
    let mut set = no_literals(alloc);
    for each in said {
        add(&mut set, each)?;
    }
    Ok(set)
}

/// Whether every set makes a literal true, or a literal of the set says the opposite.
fn is_met(set: &LiteralSet, each: &Said) -> bool
    ensures { result ≡ (same_literal (is_in 0) (literal_of each.now) || has_literal set.now (negation_of (literal_of each.now))) }
{
    is_same(&Said::In(PackNo(0)), each) || has(set, &negation(each))
}

/// Whether one of these literals is so.
fn is_any_met(set: &LiteralSet, said: &[Said]) -> bool
    ensures { result ≡ list_any (λ l. same_literal (is_in 0) l || has_literal set.now (negation_of l)) (map literal_of said.now) }
{
    for each in said {
        if is_met(set, each) {
            return true;
        }
    }
    false
}

/// Whether every set makes a clause true.
pub(crate) fn is_always_true(alloc: Global, said: &[Said]) -> Result<bool, AllocError>
    ensures { IfOk result (λ always. always ≡ is_true_always (map literal_of said.now)) }
{
    let set = set_of(alloc, said)?;
    Ok(is_any_met(&set, said))
}

/// Whether a literal says something of a package that is no system, and is not in the set.
fn is_new(set: &LiteralSet, each: &Said) -> bool
    ensures { result ≡ (nat_lt 0 (package_of (literal_of each.now)) && not (has_literal set.now (literal_of each.now))) }
{
    number_in(each) > 0 && !has(set, each)
}

/// Appends the literals of a clause, but those of the system, and each once.
pub(crate) fn put_firsts(
    alloc: Global,
    said: &[Said],
    lits: &mut Vec<Lit>,
) -> Result<(), AllocError>
    requires numbers { list_all has_number (map literal_of said.now) ≡ true }
    ensures appended { OnOk result (lits.new.items ≡ lits.old.items ++ map number_of (each_first [] (map literal_of said.now))) }
    ensures kept_literals { take (length lits.old.items) lits.new.items ≡ lits.old.items }
{
    let mut set = no_literals(alloc);
    for each in said {
        let is_first = is_new(&set, each);
        add(&mut set, each)?;
        if is_first {
            lits.push(lit(each))?;
        }
    }
    Ok(())
}
