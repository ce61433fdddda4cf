//! The parts by their places in an ascending list, and the graphs over these places.
ghost use Rattle.std.specs.Prelude.{ℕ, ◌≡◌, ◌<◌, ◌^◌, ◌∷◌, ◌++◌, [], ◌||◌, ◌&&◌, ◌==◌, true, false, length, filter, slice_index, if◌then◌else◌, IfOk, OnOk};
ghost use Rattle.solv_graph.specs.Classes.{numbers};
ghost use Rattle.solv_graph.specs.Graphs.{is_in};
ghost use Rattle.solv_graph.specs.Inner.Graphs.{edge_to};
ghost use Rattle.solv_graph.specs.Inner.Orders.{is_placed, turn_at, part_of};
ghost use Rattle.solv_trans.specs.Inner.Joining.{linked};
ghost use Rattle.solv_trans.specs.Inner.Parting.{IsRising, turns_at, Puts, AreJoined};

use crate::edges::Link;
use solv_graph::{Graph, Turn};
use std::alloc::{AllocError, Global};

/// All edges between places, and the pre edges among them.
#[derive(Drop)]
pub(crate) struct Edges {
    pub(crate) all: Graph,
    pub(crate) pre: Graph,
}

/// Appends a package to the parts, if it has a turn.
fn add_part(turn: Turn, pack: u32, parts: &mut Vec<u32>) -> Result<(), AllocError>
    ensures { OnOk result (parts.new.items ≡ parts.old.items ++ (if is_placed turn then pack ∷ [] else [])) }
{
    match turn {
        Turn::Never => Ok(()),
        Turn::Early => {
            parts.push(pack)?;
            Ok(())
        }
        Turn::Late => {
            parts.push(pack)?;
            Ok(())
        }
    }
}

/// The parts: what has a turn, ascending.
pub(crate) fn parts_of(alloc: Global, turns: &[Turn], count: u32) -> Result<Vec<u32>, AllocError>
    requires { count ≡ length turns.now }
    ensures parts { IfOk result (λ parts. parts.items ≡ filter (part_of turns.now) (numbers (length turns.now))) }
    ensures small { IfOk result (λ parts. length parts.items < 2 ^ 32) }
{
    let mut parts = Vec::new(alloc);
    for pack in 0..count {
        add_part(turns[pack as usize], pack, &mut parts)?;
    }
    Ok(parts)
}

/// The turn of a package. One that is not there has none.
fn turn_of(turns: &[Turn], pack: u32) -> Turn
    ensures { result ≡ turn_at turns.now pack }
{
    match turns.get(pack as usize) {
        Some(turn) => *turn,
        None => Turn::Never,
    }
}

/// The turns of the parts.
pub(crate) fn turns_of_parts(
    alloc: Global,
    parts: &[u32],
    turns: &[Turn],
) -> Result<Vec<Turn>, AllocError>
    ensures { IfOk result (λ own. own.items ≡ turns_at turns.now parts.now) }
{
    let mut own = Vec::with_capacity(alloc, parts.len())?;
    for pack in parts {
        own.push(turn_of(turns, *pack))?;
    }
    Ok(own)
}

/// The place of a part.
fn place_of(parts: &[u32], pack: u32) -> u32
    requires small { length parts.now < 2 ^ 32 }
    requires rising { IsRising parts.now }
    requires held { is_in parts.now pack ≡ true }
    ensures below { result < length parts.now }
    ensures there { slice_index parts.now result ≡ pack }
{
    match parts.binary_search(&pack) {
        Ok(place) => place as u32,
        Err(_) => 0,
    }
}

/// Puts an edge to the others.
fn add_edge(edges: &mut Edges, from: u32, to: u32, pre: bool) -> Result<(), AllocError>
    requires from { from < length edges.old.all }
    requires to { to < length edges.old.all }
    requires same { length edges.old.pre ≡ length edges.old.all }
    ensures size { length edges.new.all ≡ length edges.old.all }
    ensures pre_size { length edges.new.pre ≡ length edges.old.pre }
    ensures all { OnOk result ((i j : ℕ) → edge_to edges.new.all i j ≡ (edge_to edges.old.all i j || (from == i && to == j))) }
    ensures pre { OnOk result ((i j : ℕ) → edge_to edges.new.pre i j ≡ (edge_to edges.old.pre i j || (pre && (from == i && to == j)))) }
{
    edges.all.join(from, to)?;
    if pre {
        edges.pre.join(from, to)?;
    }
    Ok(())
}

/// Puts an edge between the places of its ends.
fn put_between(parts: &[u32], link: &Link, edges: &mut Edges) -> Result<(), AllocError>
    requires small { length parts.now < 2 ^ 32 }
    requires rising { IsRising parts.now }
    requires from { is_in parts.now link.now.from ≡ true }
    requires to { is_in parts.now link.now.to ≡ true }
    requires size { length edges.old.all ≡ length parts.now }
    requires pre_size { length edges.old.pre ≡ length parts.now }
    ensures { OnOk result (Puts parts.now (link.now ∷ []) edges.old edges.new) }
{
    let from = place_of(parts, link.from);
    let to = place_of(parts, link.to);
    add_edge(edges, from, to, link.pre)?;
    Ok(())
}

/// Puts edges between the places of their ends.
fn put_all(parts: &[u32], links: &[Link], edges: &mut Edges) -> Result<(), AllocError>
    requires small { length parts.now < 2 ^ 32 }
    requires rising { IsRising parts.now }
    requires starts { (a b : ℕ) → linked links.now a b ≡ true → is_in parts.now a ≡ true }
    requires ends { (a b : ℕ) → linked links.now a b ≡ true → is_in parts.now b ≡ true }
    requires size { length edges.old.all ≡ length parts.now }
    requires pre_size { length edges.old.pre ≡ length parts.now }
    ensures { OnOk result (Puts parts.now links.now edges.old edges.new) }
{
    for link in links {
        put_between(parts, link, edges)?;
    }
    Ok(())
}

/// The graphs of these edges over the places of the parts.
pub(crate) fn graphs_of(alloc: Global, parts: &[u32], links: &[Link]) -> Result<Edges, AllocError>
    requires small { length parts.now < 2 ^ 32 }
    requires rising { IsRising parts.now }
    requires starts { (a b : ℕ) → linked links.now a b ≡ true → is_in parts.now a ≡ true }
    requires ends { (a b : ℕ) → linked links.now a b ≡ true → is_in parts.now b ≡ true }
    ensures { IfOk result (λ edges. AreJoined parts.now links.now edges) }
{
    let all = Graph::new(alloc, parts.len() as u32)?;
    let pre = Graph::new(alloc, parts.len() as u32)?;
    let mut edges = Edges { all, pre };
    put_all(parts, links, &mut edges)?;
    Ok(edges)
}
