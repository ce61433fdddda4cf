//! Relations that a single package meets or does not.
ghost use Rattle.std.specs.Prelude.{ℕ, ◌≡◌, ◌<◌, true, length, IfOk};
ghost use Rattle.solv_pool.specs.Prelude.{tree, package_wise};
ghost use Rattle.solv_leaving.specs.Inner.Wise.{AreWise};

use solv_pool::{DepId, Pool};
use std::alloc::{AllocError, Global};

/// Whether a single package meets each relation or does not.
fn are_all_wise(pool: &Pool) -> bool
    ensures { result ≡ true → (d : ℕ) → d < length pool.now.nodes → package_wise (tree pool.now.nodes d) ≡ true }
{
    pool.holds_each_once();
    let count = pool.relation_count() as u32;
    for number in 0..count {
        if !pool.package_wise(DepId(number)) {
            return false;
        }
    }
    true
}

/// An entry for each relation: whether a single package meets it or does not.
fn wise_table(alloc: Global, pool: &Pool) -> Result<Vec<bool>, AllocError>
    ensures { IfOk result (λ wise. AreWise pool.now.nodes wise.items) }
{
    pool.holds_each_once();
    let count = pool.relation_count() as u32;
    let mut made = Vec::with_capacity(alloc, count as usize)?;
    for number in 0..count {
        made.push(pool.package_wise(DepId(number)))?;
    }
    Ok(made)
}

/// Of each relation, whether a single package meets it or does not. Where all are so, as in a repository without conditions, the
/// table is empty.
pub(crate) fn wise_relations(alloc: Global, pool: &Pool) -> Result<Vec<bool>, AllocError>
    ensures { IfOk result (λ wise. AreWise pool.now.nodes wise.items) }
{
    if are_all_wise(pool) {
        return Ok(Vec::new(alloc));
    }
    wise_table(alloc, pool)
}

/// Whether a single package meets a relation or does not, as the table has it.
pub(crate) fn is_wise(pool: &Pool, wise: &[bool], dep: DepId) -> bool
    requires dep { dep < length pool.now.nodes }
    requires wise { AreWise pool.now.nodes wise.now }
    ensures { result ≡ package_wise (tree pool.now.nodes dep) }
{
    let _pool = pool;
    match wise.get(dep.0 as usize) {
        Some(is_so) => *is_so,
        None => true,
    }
}
