//! The clauses of a dependency, each of which is made by its number.
ghost use Rattle.std.specs.Prelude.{◌≡◌, ◌≤◌, ◌<◌, ◌++◌, ◌==◌, ◌&&◌, List, length, map, slice_get, Some, true, IfOk, OnOk};
ghost use Rattle.solv_pool.specs.Prelude.{Clause, is_in, times};
ghost use Rattle.solv_rich.specs.Counts.{saturated};
ghost use Rattle.solv_rich.specs.Inner.Expansions.{literal_of, clauses_in, are_counted, IsExpansion, CrossesAt};

use crate::relations::{product, sum};
use smallvec::SmallVec;
use solv_pool::PackNo;
use std::alloc::{AllocError, Global};

/// What a literal says of a package.
#[derive(Clone, Copy)]
pub(crate) enum Said {
    In(PackNo),
    Out(PackNo),
}

impl Default for Said {
    fn default() -> Self {
        Said::In(PackNo(0))
    }
}

/// The literals of a clause. Most clauses are short, and need no allocation.
pub(crate) type Literals = SmallVec<Said, 16>;

/// What clauses are made of. The packages of a list are the first ones and then the others.
#[derive(Drop)]
pub(crate) enum Expansion<'a> {
    /// One of the packages is in.
    SomeIn(&'a [PackNo], &'a [PackNo]),
    /// Each of the packages is out.
    EachOut(&'a [PackNo], &'a [PackNo]),
    /// The clauses of the first, which are so many, and then those of the second.
    Joined(Box<Expansion<'a>>, u64, Box<Expansion<'a>>),
    /// Each clause of the first with each of the second, which are so many.
    Crossed(Box<Expansion<'a>>, u64, Box<Expansion<'a>>),
    /// No clause.
    Nothing,
}

/// How many clauses there are.
pub(crate) fn count_in(expansion: &Expansion<'_>) -> u64
    requires { are_counted expansion.now ≡ true }
    ensures exact { result ≡ saturated (length (clauses_in expansion.now)) }
    ensures within { result ≤ 65537 }
{
    match expansion {
        Expansion::SomeIn(_, _) => 1,
        Expansion::EachOut(first, others) => { sum(saturated_len(first), saturated_len(others)) }
        Expansion::Joined(_, count, second) => sum(*count, count_in(second)),
        Expansion::Crossed(first, count, _) => product(count_in(first), *count),
        Expansion::Nothing => 0,
    }
}

/// How many packages there are.
fn saturated_len(packs: &[PackNo]) -> u64
    ensures exact { result ≡ saturated (length packs.now) }
    ensures within { result ≤ 65537 }
{
    (packs.len() as u64).min(65_537)
}

/// Appends "in" of each package to what is said.
fn put_ins(packs: &[PackNo], said: &mut Literals) -> Result<(), AllocError>
    ensures { OnOk result (map literal_of said.new.items ≡ map literal_of said.old.items ++ map is_in packs.now) }
{
    for pack in packs {
        said.push(Said::In(*pack))?;
    }
    Ok(())
}

/// The package of a number among the first ones and then the others.
fn at(first: &[PackNo], others: &[PackNo], number: usize) -> PackNo
    requires { number < length (first.now ++ others.now) }
    ensures { slice_get (first.now ++ others.now) number ≡ Some result }
{
    if number < first.len() {
        first[number]
    } else {
        others[number - first.len()]
    }
}

/// The numbers of a clause of the first and of one of the second that make a clause of both.
fn numbers_of(first: &Expansion<'_>, count: u64, second: &Expansion<'_>, number: u64) -> (u64, u64)
    requires counted { (count == saturated (length (clauses_in second.now)) && (are_counted first.now && are_counted second.now)) ≡ true }
    requires few { length (times (clauses_in first.now) (clauses_in second.now)) ≤ 65536 }
    requires there { number < length (times (clauses_in first.now) (clauses_in second.now)) }
    ensures { CrossesAt (clauses_in first.now) (clauses_in second.now) number result.0 result.1 }
{
    (number / count, number % count)
}

/// Appends the literals of the clause of a number to what is said.
pub(crate) fn put_clause(
    expansion: &Expansion<'_>,
    number: u64,
    said: &mut Literals,
) -> Result<(), AllocError>
    requires counted { are_counted expansion.now ≡ true }
    requires few { length (clauses_in expansion.now) ≤ 65536 }
    requires there { number < length (clauses_in expansion.now) }
    ensures { (c : Clause) → slice_get (clauses_in expansion.now) number ≡ Some c → OnOk result (map literal_of said.new.items ≡ map literal_of said.old.items ++ c) }
{
    match expansion {
        Expansion::SomeIn(first, others) => {
            put_ins(first, said)?;
            put_ins(others, said)
        }
        Expansion::EachOut(first, others) => {
            let pack = at(first, others, number as usize);
            said.push(Said::Out(pack))?;
            Ok(())
        }
        Expansion::Joined(first, count, second) => {
            if number < *count {
                put_clause(first, number, said)
            } else {
                put_clause(second, number - *count, said)
            }
        }
        Expansion::Crossed(first, count, second) => {
            let (own, other) = numbers_of(first, *count, second, number);
            put_clause(first, own, said)?;
            put_clause(second, other, said)
        }
        Expansion::Nothing => Ok(()),
    }
}

/// The clauses of one and then of another.
pub(crate) fn join<'a>(
    alloc: Global,
    first: Expansion<'a>,
    second: Expansion<'a>,
) -> Result<Expansion<'a>, AllocError>
    requires first { are_counted first ≡ true }
    requires second { are_counted second ≡ true }
    ensures { (xs ys : List Clause) → IsExpansion xs first.entry → IsExpansion ys second.entry → IfOk result (IsExpansion (xs ++ ys)) }
{
    let count = count_in(&first);
    let first = Box::new(alloc, first)?;
    let second = Box::new(alloc, second)?;
    Ok(Expansion::Joined(first, count, second))
}

/// Each clause of one with each of another.
pub(crate) fn cross<'a>(
    alloc: Global,
    first: Expansion<'a>,
    second: Expansion<'a>,
) -> Result<Expansion<'a>, AllocError>
    requires first { are_counted first ≡ true }
    requires second { are_counted second ≡ true }
    ensures { (xs ys : List Clause) → IsExpansion xs first.entry → IsExpansion ys second.entry → IfOk result (IsExpansion (times xs ys)) }
{
    let count = count_in(&second);
    let first = Box::new(alloc, first)?;
    let second = Box::new(alloc, second)?;
    Ok(Expansion::Crossed(first, count, second))
}
