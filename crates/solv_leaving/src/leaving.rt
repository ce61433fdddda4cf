//! Which packages are left out.
ghost use Rattle.std.specs.Prelude.{◌≡◌, ◌<◌, length, IfOk};
ghost use Rattle.solv_pool.specs.Prelude.{tree, catalog_of, IsClosed};
ghost use Rattle.solv_prov.specs.Index.{IsIndexOf};
ghost use Rattle.solv_jobs.specs.Marking.{HasMarks};
ghost use Rattle.solv_leaving.specs.Inner.Wise.{AreWise};
ghost use Rattle.solv_leaving.specs.Inner.Leaving.{LeavesOut, is_plainly_met};

use crate::checking::are_closed;
use crate::searching::unreached;
use crate::starting::starts;
use crate::wise::{is_wise, wise_relations};
use solv_pool::{DepId, DepNode, Marks, Pool, Task};
use solv_prov::Providers;
use std::alloc::{AllocError, Global};

/// Whether whatever can be taken so that a dependency holds meets one of its parts.
#[tactic(auto, using(crate::proofs::Plain::wise_is_plain, crate::proofs::Plain::or_is_plain))]
pub(crate) fn is_plainly_met(pool: &Pool, wise: &[bool], dep: DepId) -> bool
    requires dep { dep < length pool.now.nodes }
    requires wise { AreWise pool.now.nodes wise.now }
    ensures { result ≡ is_plainly_met (tree pool.now.nodes dep) }
{
    if is_wise(pool, wise, dep) {
        return true;
    }
    match pool.dep(dep) {
        DepNode::Simple(_) | DepNode::Versioned(_, _, _) | DepNode::Namespace(_) => true,
        DepNode::With(_, _) | DepNode::Without(_, _) => true,
        DepNode::And(a, b) | DepNode::Or(a, b) => is_plainly_met(pool, wise, a)
            && is_plainly_met(pool, wise, b),
        DepNode::If(a, _) => is_plainly_met(pool, wise, a),
        DepNode::IfElse(_, _, _) | DepNode::Unless(_, _) | DepNode::UnlessElse(_, _, _) => false,
    }
}

/// Which packages are left out, by their numbers. One without an entry is not.
pub fn left_out(
    alloc: Global,
    task: &Task,
    prov: &Providers,
    marks: &Marks,
) -> Result<Vec<bool>, AllocError>
    requires index { IsIndexOf prov.now (catalog_of task.now) }
    requires closed { IsClosed task.now }
    requires marks { HasMarks (length task.now.universe.packages) marks.now }
    ensures { IfOk result (λ left. LeavesOut (catalog_of task.now) task.now.flags task.now.jobs marks.now left.items) }
{
    let wise = wise_relations(alloc, &task.pool)?;
    let starts = starts(alloc, task, prov, marks, &wise)?;
    let left = unreached(alloc, task, prov, &wise, &starts)?;
    if !are_closed(alloc, task, prov, &wise, &starts, &left)? {
        return Ok(Vec::new(alloc));
    }
    Ok(left)
}
