//! The relations whose rows are read: something asks for them.
ghost use Rattle.std.specs.Prelude.{◌≡◌, ◌==◌, ◌<◌, ◌||◌, ℕ, false, length, IfOk};
ghost use Rattle.std.specs.Option.{option_map_or};
ghost use Rattle.solv_pool.specs.Prelude.{catalog_of, package_at, is_among};
ghost use Rattle.solv_pool.specs.declared.job_marks.Marks.{Marks};
ghost use Rattle.solv_policy.specs.Inner.Candidates.{IsPlace};
ghost use Rattle.solv_trail.specs.Inner.Numbers.{has, room};
ghost use Rattle.solv_questions.specs.Questions.{request_of};
ghost use Rattle.solv_plan.specs.Inner.PlanOf.{has_trees, is_asked_by, is_supplement, is_read, all_required, all_recommended};

use solv_plan::Want;
use solv_pool::{DepId, PackNo, Task};
use solv_trail::NumberSet;
use std::alloc::{AllocError, Global};

/// Puts a relation into a set that has room for it.
fn put_dep(dep: DepId, set: &mut NumberSet)
    ensures room { length set.new ≡ length set.old }
    ensures put { (k : ℕ) → k < room set.old → has set.new k ≡ ((dep == k) || has set.old k) }
{
    if dep.0 >= set.room() {
        return;
    }
    set.insert(dep.0);
}

/// Puts relations into a set that has room for them.
fn put_deps(deps: &[DepId], set: &mut NumberSet)
    ensures room { length set.new ≡ length set.old }
    ensures put { (k : ℕ) → k < room set.old → has set.new k ≡ (is_among deps.now k || has set.old k) }
{
    for dep in deps {
        put_dep(*dep, set);
    }
}

/// Puts what is asked for into a set that has room for it.
fn put_wants(wants: &[Want], set: &mut NumberSet)
    ensures room { length set.new ≡ length set.old }
    ensures put { (k : ℕ) → k < room set.old → has set.new k ≡ (is_asked_by wants.now k || has set.old k) }
{
    for want in wants {
        put_dep(want.wanted.dep, set);
    }
}

/// Puts the supplements of a package into a set that has room for them.
fn put_supplements(task: &Task, pack: PackNo, set: &mut NumberSet)
    requires pack { IsPlace task.now pack }
    ensures room { length set.new ≡ length set.old }
    ensures put { (k : ℕ) → k < room set.old → has set.new k ≡ (option_map_or (λ a. is_among a.supplements k) (package_at (catalog_of task.now) pack) false || has set.old k) }
{
    put_deps(task.universe.package(pack).supplements(), set);
}

/// Puts the supplements of all packages into a set that has room for them.
fn put_all_supplements(task: &Task, set: &mut NumberSet)
    ensures room { length set.new ≡ length set.old }
    ensures put { (marks : Marks) (k : ℕ) → k < room set.old → has set.new k ≡ (is_supplement (request_of task.now marks) k || has set.old k) }
{
    for before in 0..task.universe.count() {
        put_supplements(task, PackNo(before + 1), set);
    }
}

/// The relations that these and the supplements of packages ask for.
fn asked_for(
    alloc: Global,
    task: &Task,
    required: &[Want],
    recommended: &[Want],
) -> Result<NumberSet, AllocError>
    ensures { (marks : Marks) → IfOk result (λ set. (k : ℕ) → k < length task.now.pool.nodes → has set k ≡ (is_asked_by required.now k || (is_asked_by recommended.now k || is_supplement (request_of task.now marks) k))) }
{
    task.pool.holds_each_once();
    let mut set = NumberSet::new(alloc, task.pool.relation_count() as u32)?;
    put_all_supplements(task, &mut set);
    put_wants(recommended, &mut set);
    put_wants(required, &mut set);
    Ok(set)
}

/// The relations whose rows are read: those that something asks for, or all where some relation is read by its tree.
pub(crate) fn reads(
    alloc: Global,
    task: &Task,
    by_tree: bool,
    required: &[Want],
    recommended: &[Want],
) -> Result<NumberSet, AllocError>
    requires by_tree { by_tree ≡ has_trees (catalog_of task.now) }
    ensures { (marks : Marks) → required.now ≡ all_required (request_of task.now marks) → recommended.now ≡ all_recommended (request_of task.now marks) → IfOk result (λ set. (k : ℕ) → k < length task.now.pool.nodes → has set k ≡ is_read (request_of task.now marks) k) }
{
    if by_tree {
        task.pool.holds_each_once();
        return NumberSet::full(alloc, task.pool.relation_count() as u32);
    }
    asked_for(alloc, task, required, recommended)
}
