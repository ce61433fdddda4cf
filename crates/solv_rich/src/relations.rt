//! How many clauses a relation of any form gives, before any of them is made.
ghost use Rattle.std.specs.Prelude.{◌≡◌, ◌≤◌, ◌<◌, ◌+◌, ◌*◌, ℕ, length};
ghost use Rattle.solv_pool.specs.Prelude.{catalog_of, dependency, clause_count};
ghost use Rattle.solv_prov.specs.Index.{IsIndexOf};
ghost use Rattle.solv_rich.specs.Counts.{saturated};
ghost use Rattle.solv_rich.specs.Inner.Operators.{count_package_wise};

use crate::operators::{Parts, parts_of};
use crate::singles::count_of;
use solv_pool::{DepId, PackNo, Task};
use solv_prov::Providers;

/// One more than the most clauses of one dependency.
const TOO_MANY: u64 = 65_537;

/// The sum of two counts.
pub(crate) fn sum(a: u64, b: u64) -> u64
    requires a { a ≤ 65537 }
    requires b { b ≤ 65537 }
    ensures exact { (m n : ℕ) → a ≡ saturated m → b ≡ saturated n → result ≡ saturated (m + n) }
    ensures within { result ≤ 65537 }
{
    (a + b).min(TOO_MANY)
}

/// The product of two counts.
pub(crate) fn product(a: u64, b: u64) -> u64
    requires a { a ≤ 65537 }
    requires b { b ≤ 65537 }
    ensures exact { (m n : ℕ) → a ≡ saturated m → b ≡ saturated n → result ≡ saturated (m * n) }
    ensures within { result ≤ 65537 }
{
    (a * b).min(TOO_MANY)
}

/// The count of a relation that packages meet alone.
fn leaf_count(
    task: &Task,
    prov: &Providers,
    dep: DepId,
    positive: bool,
    except: &Option<PackNo>,
) -> u64
    requires index { IsIndexOf prov.now (catalog_of task.now) }
    requires held { dep < length task.now.pool.nodes }
    ensures exact { result ≡ saturated (count_package_wise (catalog_of task.now) except.now positive (dependency (catalog_of task.now) dep)) }
    ensures within { result ≤ 65537 }
{
    if positive {
        return 1;
    }
    let count = count_of(prov.of(dep), except) as u64;
    count.min(TOO_MANY)
}

/// The count of a relation.
pub(crate) fn count_relation(
    task: &Task,
    prov: &Providers,
    dep: DepId,
    positive: bool,
    except: &Option<PackNo>,
) -> u64
    requires index { IsIndexOf prov.now (catalog_of task.now) }
    requires held { dep < length task.now.pool.nodes }
    ensures exact { result ≡ saturated (clause_count (catalog_of task.now) except.now positive (dependency (catalog_of task.now) dep)) }
    ensures within { result ≤ 65537 }
{
    match parts_of(task, dep, positive) {
        Parts::Packages => leaf_count(task, prov, dep, positive, except),
        Parts::Joined(a, b) => {
            let own = count_relation(task, prov, a, positive, except);
            let other = count_relation(task, prov, b, positive, except);
            sum(own, other)
        }
        Parts::Crossed(a, b, holds) => {
            let own = count_relation(task, prov, a, positive, except);
            let other = count_relation(task, prov, b, holds, except);
            product(own, other)
        }
        Parts::Chosen(a, b, c) => {
            let own = count_relation(task, prov, a, positive, except);
            let refuted = count_relation(task, prov, b, !positive, except);
            let other = count_relation(task, prov, c, positive, except);
            let against = count_relation(task, prov, b, positive, except);
            sum(product(own, refuted), product(other, against))
        }
        Parts::Nothing => 0,
    }
}
