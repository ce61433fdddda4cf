//! Packages that nothing asks for, however far it is asked.
ghost use Rattle.std.specs.Prelude.{ℕ, ◌≡◌, ◌+◌, true, false, length, IfOk};
ghost use Rattle.solv_pool.specs.Prelude.{catalog_of, packages, marked, IsClosed, is_among};
ghost use Rattle.solv_pool.specs.Needs.{serves_package};
ghost use Rattle.solv_prov.specs.Index.{IsIndexOf};

use crate::searching::needed_from;
use crate::tables::{packs_in, table_but_not, with_system};
use solv_graph::reached_is_where_walks_lead;
use solv_pool::Task;
use solv_prov::Providers;
use std::alloc::{AllocError, Global};

/// A table of the packages to which no walk leads from the system or from those that a table marks, where each walk goes on to
/// whatever serves what a package asks for.
pub fn unreached(
    alloc: Global,
    task: &Task,
    prov: &Providers,
    starts: &[bool],
) -> Result<Vec<bool>, AllocError>
    requires index { IsIndexOf prov.now (catalog_of task.now) }
    requires closed { IsClosed task.now }
    ensures size { IfOk result (λ table. length table.items ≡ length task.now.universe.packages + 1) }
    ensures system { IfOk result (λ table. marked table.items 0 ≡ false) }
    ensures starts { IfOk result (λ table. (q : ℕ) → marked starts.now q ≡ true → marked table.items q ≡ false) }
    ensures needed { IfOk result (λ table. (p q : ℕ) → is_among (packages (catalog_of task.now)) p ≡ true → marked table.items p ≡ false → serves_package (catalog_of task.now) q p ≡ true → marked table.items q ≡ false) }
{
    reached_is_where_walks_lead();
    task.universe.marks_each();
    let count = task.universe.count() + 1;
    let all = vec![in alloc; true; count as usize]?;
    let packs = packs_in(alloc, task.universe.count(), starts)?;
    let from = with_system(alloc, &packs)?;
    let reached = needed_from(alloc, task, prov, &all, &from)?;
    let table = table_but_not(alloc, count, &all, &reached)?;
    Ok(table)
}
