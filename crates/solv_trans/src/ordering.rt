//! The order in which a transaction is made.
ghost use Rattle.std.specs.Prelude.{ℕ, ◌≡◌, ◌≤◌, ◌<◌, ◌+◌, ◌^◌, true, filter, length, map, nat_le, slice_index, IfOk};
ghost use Rattle.std.specs.List.{list_all};
ghost use Rattle.solv_graph.specs.Classes.{numbers};
ghost use Rattle.solv_graph.specs.Inner.Graphs.{edge_to};
ghost use Rattle.solv_graph.specs.Inner.Orders.{part_of, late_of};
ghost use Rattle.solv_pool.specs.Prelude.{catalog_of, is_among};
ghost use Rattle.solv_trans.specs.Moving.{goes, is_part};
ghost use Rattle.solv_trans.specs.Edges.{edge, pre_edge};
ghost use Rattle.solv_trans.specs.Inner.Joining.{is_marked, linked, pre_linked};
ghost use Rattle.solv_trans.specs.Inner.Parting.{parts_at, IsOrderedAt};
ghost use Rattle.solv_trans.specs.Orders.{IsOrdered};
ghost use Rattle.solv_trans.specs.Inner.Readiness.{IsReady};

use crate::counting::counting_edges;
use crate::edges::{Link, links_of};
use crate::marks::marks_of;
use crate::moving::turns_of;
use crate::parting::{Edges, graphs_of, parts_of, turns_of_parts};
use solv_graph::{Row, Turn};
use solv_list::Items;
use solv_pool::{PackNo, Task};
use solv_prov::Providers;
use std::alloc::{AllocError, Global};

/// The parts of a transaction in order, and the cycles in what they require of each other.
#[derive(Drop)]
pub struct Ordered {
    /// The packages that come and those that go.
    pub parts: Items<PackNo>,
    /// The cycles of pre-requirements, each ascending, by their lowest members.
    pub pre_cycles: Items<Items<PackNo>>,
    /// The cycles of all requirements, likewise.
    pub cycles: Items<Items<PackNo>>,
}

/// The part at a place. Where there is none, it is the system.
fn part_at(parts: &[u32], place: u32) -> PackNo
    ensures { result ≡ slice_index parts.now place }
{
    match parts.get(place as usize) {
        Some(part) => PackNo(*part),
        None => PackNo(0),
    }
}

/// The parts at these places.
fn packs_of(alloc: Global, parts: &[u32], places: &[u32]) -> Result<Items<PackNo>, AllocError>
    ensures { IfOk result (λ packs. packs ≡ parts_at parts.now places.now) }
{
    let mut packs = Vec::with_capacity(alloc, places.len())?;
    for place in places {
        packs.push(part_at(parts, *place))?;
    }
    Ok(Items::wrap(packs))
}

/// The lists of the parts at these places.
fn lists_of(alloc: Global, parts: &[u32], rows: &[Row]) -> Result<Items<Items<PackNo>>, AllocError>
    ensures { IfOk result (λ lists. lists ≡ map (parts_at parts.now) rows.now) }
{
    let mut lists = Vec::with_capacity(alloc, rows.len())?;
    for row in rows {
        let packs = packs_of(alloc, parts, row.held())?;
        lists.push(packs)?;
    }
    Ok(Items::wrap(lists))
}

/// The order of places by the edges between them, as one of the parts.
fn in_order(
    alloc: Global,
    parts: &[u32],
    edges: &Edges,
    turns: &[Turn],
) -> Result<Ordered, AllocError>
    requires parts { length parts.now ≡ length edges.now.all }
    requires size { length turns.now ≡ length edges.now.all }
    requires pre_size { length edges.now.pre ≡ length edges.now.all }
    requires within { (a b : ℕ) → edge_to edges.now.pre a b ≡ true → edge_to edges.now.all a b ≡ true }
    requires starts { (a b : ℕ) → edge_to edges.now.all a b ≡ true → part_of turns.now a ≡ true }
    requires ends { (a b : ℕ) → edge_to edges.now.all a b ≡ true → part_of turns.now b ≡ true }
    ensures { IfOk result (λ made. IsOrderedAt parts.now (part_of turns.now) (late_of turns.now) (edge_to edges.now.all) (edge_to edges.now.pre) made) }
{
    let classes = edges.all.classes(alloc)?;
    let pre_classes = edges.pre.classes(alloc)?;
    let counting = counting_edges(alloc, edges, &classes, &pre_classes)?;
    let order = counting.in_order(alloc, turns)?;
    let placed = packs_of(alloc, parts, &order)?;
    let pre_cycles = lists_of(alloc, parts, pre_classes.lists())?;
    let cycles = lists_of(alloc, parts, classes.lists())?;
    Ok(Ordered {
        parts: placed,
        pre_cycles,
        cycles,
    })
}

/// The order of the parts by the edges between them. All that is made is over the parts alone.
fn order_of_parts(
    alloc: Global,
    parts: &[u32],
    turns: &[Turn],
    links: &[Link],
) -> Result<Ordered, AllocError>
    requires small { length parts.now < 2 ^ 32 }
    requires parts { parts.now ≡ filter (part_of turns.now) (numbers (length turns.now)) }
    requires within { (a b : ℕ) → pre_linked links.now a b ≡ true → linked links.now a b ≡ true }
    requires starts { (a b : ℕ) → linked links.now a b ≡ true → part_of turns.now a ≡ true }
    requires ends { (a b : ℕ) → linked links.now a b ≡ true → part_of turns.now b ≡ true }
    ensures { IfOk result (λ made. IsOrdered (length turns.now) (part_of turns.now) (late_of turns.now) (linked links.now) (pre_linked links.now) made) }
{
    let edges = graphs_of(alloc, parts, links)?;
    let own = turns_of_parts(alloc, parts, turns)?;
    let made = in_order(alloc, parts, &edges, &own)?;
    Ok(made)
}

/// The order of what comes and goes by a table of the set.
fn order_marked(
    alloc: Global,
    task: &Task,
    prov: &Providers,
    in_set: &[bool],
) -> Result<Ordered, AllocError>
    requires ready { IsReady task.now prov.now }
    requires in_set { length in_set.now ≡ length task.now.universe.packages + 1 }
    ensures { IfOk result (λ made. IsOrdered (length task.now.universe.packages + 1) (is_part (catalog_of task.now) (is_marked in_set.now)) (goes (catalog_of task.now) (is_marked in_set.now)) (edge (catalog_of task.now) (is_marked in_set.now)) (pre_edge (catalog_of task.now) (is_marked in_set.now)) made) }
{
    task.universe.marks_each();
    let turns = turns_of(alloc, task, in_set)?;
    let links = links_of(alloc, task, prov, in_set, &turns)?;
    let parts = parts_of(alloc, &turns, task.universe.count() + 1)?;
    let made = order_of_parts(alloc, &parts, &turns, &links)?;
    Ok(made)
}

/// The order in which the packages that come and those that go are installed and erased, so that the installed packages become
/// those of the set.
///
/// It keeps every pre-requirement whose ends are not in one cycle of pre-requirements, and every other requirement whose ends
/// are not in one cycle.
pub fn order(
    alloc: Global,
    task: &Task,
    prov: &Providers,
    set: &[PackNo],
) -> Result<Ordered, AllocError>
    requires ready { IsReady task.now prov.now }
    requires within { list_all (λ p. nat_le p (length task.now.universe.packages)) set.now ≡ true }
    ensures { IfOk result (λ made. IsOrdered (length task.now.universe.packages + 1) (is_part (catalog_of task.now) (is_among set.now)) (goes (catalog_of task.now) (is_among set.now)) (edge (catalog_of task.now) (is_among set.now)) (pre_edge (catalog_of task.now) (is_among set.now)) made) }
{
    let in_set = marks_of(alloc, task.universe.count(), set)?;
    let made = order_marked(alloc, task, prov, &in_set)?;
    Ok(made)
}
