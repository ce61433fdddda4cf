//! That nothing is left out which something asks for.
ghost use Rattle.std.specs.Prelude.{ℕ, ◌≡◌, ◌≤◌, ◌<◌, ◌+◌, true, false, not, length, IfOk};
ghost use Rattle.std.specs.List.{list_all};
ghost use Rattle.solv_pool.specs.Prelude.{IsOver, catalog_of, dependency, is_among, packages, IsClosed, marked};
ghost use Rattle.solv_pool.specs.Needs.{serves};
ghost use Rattle.solv_prov.specs.Index.{IsIndexOf};
ghost use Rattle.solv_clean.specs.Inner.Readiness.{dep_below, need_below};
ghost use Rattle.solv_clean.specs.Inner.Tables.{is_marked};
ghost use Rattle.solv_leaving.specs.Inner.Leaving.{touches};
ghost use Rattle.solv_leaving.specs.Inner.Wise.{AreWise};
ghost use Rattle.solv_leaving.specs.Inner.Checking.{AllIn, AreClosed, AreServedIn, AreTouchedIn, IsPackageIn, asks_for, conflicts_over, need_asks_for};

use crate::fitting::is_left_out;
use crate::leaving::is_plainly_met;
use crate::wise::is_wise;
use solv_pool::{DepId, DepNode, Need, PackNo, Task};
use solv_prov::{Parts, Providers, parts_of};
use std::alloc::{AllocError, Global};

/// Whether none of these packages is left out.
fn are_in(left: &[bool], packs: &[PackNo]) -> bool
    ensures { result ≡ list_all (λ q. not (marked left.now q)) packs.now }
{
    for pack in packs {
        if is_left_out(left, *pack) {
            return false;
        }
    }
    true
}

/// Whether a relation has a mark. One without an entry has none.
fn has_mark(table: &[bool], dep: DepId) -> bool
    ensures { result ≡ is_marked table.now dep }
{
    let place = dep.0 as usize;
    place < table.len() && table[place]
}

/// A task with the index of its providers, and a table of what is left out.
#[derive(Drop)]
struct Leaves<'a> {
    task: &'a Task,
    prov: &'a Providers,
    left: &'a [bool],
    ghost index: { IsIndexOf prov.now (catalog_of task.now) },
    ghost each: { length left.now ≡ length task.now.universe.packages + 1 },
}

/// Whether nothing that serves a relation is left out, by its operands.
fn is_served_in(leaves: &Leaves<'_>, wise: &[bool], table: &[bool], dep: DepId) -> bool
    requires held { dep < length leaves.now.task.now.pool.nodes }
    requires wise { AreWise leaves.now.task.now.pool.nodes wise.now }
    requires table { AreServedIn (catalog_of leaves.now.task.now) leaves.now.left.now table.now }
    ensures { result ≡ true → (q : ℕ) → serves (catalog_of leaves.now.task.now) q (dependency (catalog_of leaves.now.task.now) dep) ≡ true → marked leaves.now.left.now q ≡ false }
{
    if is_wise(&leaves.task.pool, wise, dep) {
        return are_in(leaves.left, leaves.prov.of(dep));
    }
    match parts_of(&leaves.task.pool, dep) {
        Parts::Itself => are_in(leaves.left, leaves.prov.of(dep)),
        Parts::Of(operand) => has_mark(table, operand),
        Parts::OfBoth(first, second) => has_mark(table, first) && has_mark(table, second),
    }
}

/// Of each relation, whether nothing that serves it is left out.
fn served_in(alloc: Global, leaves: &Leaves<'_>, wise: &[bool]) -> Result<Vec<bool>, AllocError>
    requires { AreWise leaves.now.task.now.pool.nodes wise.now }
    ensures { IfOk result (λ table. AreServedIn (catalog_of leaves.now.task.now) leaves.now.left.now table.items) }
{
    leaves.task.pool.holds_each_once();
    let count = leaves.task.pool.relation_count() as u32;
    let mut made = Vec::with_capacity(alloc, count as usize)?;
    for number in 0..count {
        let is_so = is_served_in(leaves, wise, &made, DepId(number));
        made.push(is_so)?;
    }
    Ok(made)
}

/// Whether nothing that touches a relation is left out, by its operands.
fn is_touched_in(leaves: &Leaves<'_>, wise: &[bool], table: &[bool], dep: DepId) -> bool
    requires held { dep < length leaves.now.task.now.pool.nodes }
    requires wise { AreWise leaves.now.task.now.pool.nodes wise.now }
    requires table { AreTouchedIn (catalog_of leaves.now.task.now) leaves.now.left.now table.now }
    ensures { result ≡ true → (q : ℕ) → touches (catalog_of leaves.now.task.now) q (dependency (catalog_of leaves.now.task.now) dep) ≡ true → marked leaves.now.left.now q ≡ false }
{
    if is_wise(&leaves.task.pool, wise, dep) {
        return are_in(leaves.left, leaves.prov.of(dep));
    }
    match leaves.task.pool.dep(dep) {
        DepNode::Simple(_) | DepNode::Versioned(_, _, _) | DepNode::Namespace(_) => false,
        DepNode::With(_, _) | DepNode::Without(_, _) => are_in(leaves.left, leaves.prov.of(dep)),
        DepNode::And(a, b) | DepNode::Or(a, b) | DepNode::If(a, b) | DepNode::Unless(a, b) =>
            has_mark(table, a) && has_mark(table, b),
        DepNode::IfElse(a, b, c) | DepNode::UnlessElse(a, b, c) => has_mark(table, a)
            && has_mark(table, b)
            && has_mark(table, c),
    }
}

/// Of each relation, whether nothing that touches it is left out. Where packages meet each relation alone, the table is empty.
fn touched_in(alloc: Global, leaves: &Leaves<'_>, wise: &[bool]) -> Result<Vec<bool>, AllocError>
    requires { AreWise leaves.now.task.now.pool.nodes wise.now }
    ensures { IfOk result (λ table. AreTouchedIn (catalog_of leaves.now.task.now) leaves.now.left.now table.items) }
{
    leaves.task.pool.holds_each_once();
    if wise.is_empty() {
        return Ok(Vec::new(alloc));
    }
    let count = leaves.task.pool.relation_count() as u32;
    let mut made = Vec::with_capacity(alloc, count as usize)?;
    for number in 0..count {
        let is_so = is_touched_in(leaves, wise, &made, DepId(number));
        made.push(is_so)?;
    }
    Ok(made)
}

/// What is left out, and of each relation whether nothing that serves it is, and nothing that touches it.
#[derive(Drop)]
struct Looked<'a> {
    task: &'a Task,
    left: &'a [bool],
    wise: &'a [bool],
    served: &'a [bool],
    touched: &'a [bool],
    ghost over: { IsOver task.now.pool task.now.universe },
    ghost are_wise: { AreWise task.now.pool.nodes wise.now },
    ghost are_served: { AreServedIn (catalog_of task.now) left.now served.now },
    ghost are_touched: { AreTouchedIn (catalog_of task.now) left.now touched.now },
}

/// Whether nothing is left out for which a dependency asks.
fn is_asked_in(looked: &Looked<'_>, dep: DepId) -> bool
    requires { dep < length looked.now.task.now.pool.nodes }
    ensures { result ≡ true → (q : ℕ) → asks_for (catalog_of looked.now.task.now) dep q ≡ true → marked looked.now.left.now q ≡ false }
{
    has_mark(looked.served, dep)
        && (is_plainly_met(&looked.task.pool, looked.wise, dep) || has_mark(looked.touched, dep))
}

/// Whether it is so with these requirements.
fn are_needs_in(looked: &Looked<'_>, needs: &[Need]) -> bool
    requires { list_all (need_below (length looked.now.task.now.pool.nodes)) needs.now ≡ true }
    ensures { result ≡ true → AllIn looked.now.left.now (need_asks_for (catalog_of looked.now.task.now)) needs.now }
{
    for need in needs {
        if !is_asked_in(looked, need.dep) {
            return false;
        }
    }
    true
}

/// Whether it is so with these dependencies.
fn are_deps_in(looked: &Looked<'_>, deps: &[DepId]) -> bool
    requires { list_all (dep_below (length looked.now.task.now.pool.nodes)) deps.now ≡ true }
    ensures { result ≡ true → AllIn looked.now.left.now (asks_for (catalog_of looked.now.task.now)) deps.now }
{
    for dep in deps {
        if !is_asked_in(looked, *dep) {
            return false;
        }
    }
    true
}

/// Whether nothing is left out that touches a conflict which no package meets alone.
fn is_conflict_in(looked: &Looked<'_>, dep: DepId) -> bool
    requires { dep < length looked.now.task.now.pool.nodes }
    ensures { result ≡ true → (q : ℕ) → conflicts_over (catalog_of looked.now.task.now) dep q ≡ true → marked looked.now.left.now q ≡ false }
{
    is_wise(&looked.task.pool, looked.wise, dep) || has_mark(looked.touched, dep)
}

/// Whether it is so with these conflicts.
fn are_conflicts_in(looked: &Looked<'_>, deps: &[DepId]) -> bool
    requires { list_all (dep_below (length looked.now.task.now.pool.nodes)) deps.now ≡ true }
    ensures { result ≡ true → AllIn looked.now.left.now (conflicts_over (catalog_of looked.now.task.now)) deps.now }
{
    for dep in deps {
        if !is_conflict_in(looked, *dep) {
            return false;
        }
    }
    true
}

/// Whether nothing is left out that a package asks for.
fn is_package_in(looked: &Looked<'_>, pack: PackNo) -> bool
    requires a_package { 0 < pack }
    requires held { pack ≤ length looked.now.task.now.universe.packages }
    ensures { result ≡ true → IsPackageIn (catalog_of looked.now.task.now) looked.now.left.now pack }
{
    let package = looked.task.universe.package(pack);
    if !are_needs_in(looked, package.requires_()) {
        return false;
    }
    if !are_deps_in(looked, package.recommends()) {
        return false;
    }
    are_conflicts_in(looked, package.conflicts())
}

/// Whether it is so with each package that is not left out.
fn are_packages_in(looked: &Looked<'_>) -> bool
    ensures { result ≡ true → (p : ℕ) → is_among (packages (catalog_of looked.now.task.now)) p ≡ true → marked looked.now.left.now p ≡ false → IsPackageIn (catalog_of looked.now.task.now) looked.now.left.now p }
{
    for before in 0..looked.task.universe.count() {
        let pack = PackNo(before + 1);
        if !is_left_out(looked.left, pack) {
            if !is_package_in(looked, pack) {
                return false;
            }
        }
    }
    true
}

/// Whether nothing that starts is left out.
fn are_starts_in(starts: &[bool], left: &[bool]) -> bool
    ensures { result ≡ true → (q : ℕ) → is_marked starts.now q ≡ true → marked left.now q ≡ false }
{
    for place in 0..starts.len() {
        if starts[place] {
            if place < left.len() && left[place] {
                return false;
            }
        }
    }
    true
}

/// Whether nothing that starts is left out, and nothing that a package asks for which is not left out.
pub(crate) fn are_closed(
    alloc: Global,
    task: &Task,
    prov: &Providers,
    wise: &[bool],
    starts: &[bool],
    left: &[bool],
) -> Result<bool, AllocError>
    requires index { IsIndexOf prov.now (catalog_of task.now) }
    requires closed { IsClosed task.now }
    requires wise { AreWise task.now.pool.nodes wise.now }
    requires size { length starts.now ≡ length task.now.universe.packages + 1 }
    ensures { IfOk result (λ ok. ok ≡ true → AreClosed (catalog_of task.now) left.now starts.now) }
{
    if left.len() != starts.len() {
        return Ok(false);
    }
    if is_left_out(left, PackNo(0)) || !are_starts_in(starts, left) {
        return Ok(false);
    }
    let leaves = Leaves { task, prov, left };
    let served = served_in(alloc, &leaves, wise)?;
    let touched = touched_in(alloc, &leaves, wise)?;
    let looked = Looked {
        task,
        left,
        wise,
        served: &served,
        touched: &touched,
    };
    Ok(are_packages_in(&looked))
}
