//! Copies of a pool.
ghost use Rattle.std.specs.Prelude.{◌≡◌, [], IfOk};

use solv_base::{DepId, NameId, Pool};
use std::alloc::AllocError;

/// A pool with the same names under the same ids, and without relations.
fn copy_names(pool: &Pool) -> Result<Pool, AllocError>
    ensures { IfOk result (λ copy. copy ≡ record { names = pool.now.names; nodes = [] }) }
{
    pool.holds_each_once();
    let mut copy = Pool::new(pool.alloc());
    for name in 0..pool.name_count() {
        let Ok(_) = copy.intern(pool.name(NameId(name as u32))) else {
            return Err(AllocError);
        };
    }
    Ok(copy)
}

/// A pool that holds the same under the same ids.
pub(crate) fn copy_of(pool: &Pool) -> Result<Pool, AllocError>
    ensures { IfOk result (λ copy. copy ≡ pool.now) }
{
    pool.holds_each_once();
    let mut copy = copy_names(pool)?;
    for dep in 0..pool.relation_count() {
        let Ok(_) = copy.relation(pool.dep(DepId(dep as u32))) else {
            return Err(AllocError);
        };
    }
    Ok(copy)
}
