//! A set of packages, with what its members are looked up in.
ghost use Rattle.std.specs.Prelude.{◌≡◌, ◌+◌, length};
ghost use Rattle.solv_pool.specs.Prelude.{IsOver, catalog_of};
ghost use Rattle.solv_prov.specs.Index.{IsIndexOf};

use solv_pool::Task;
use solv_prov::Providers;

/// A task whose packages are of its pool, with the index of its providers, and a set of its members: a table with an entry for each.
#[derive(Drop)]
pub(crate) struct Members<'a> {
    pub task: &'a Task,
    pub prov: &'a Providers,
    pub in_set: &'a [bool],
    ghost over: { IsOver task.now.pool task.now.universe },
    ghost index: { IsIndexOf prov.now (catalog_of task.now) },
    ghost each: { length in_set.now ≡ length task.now.universe.packages + 1 },
}
