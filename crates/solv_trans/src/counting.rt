//! The edges that an order keeps.
ghost use Rattle.std.specs.Prelude.{ℕ, ◌≡◌, ◌<◌, ◌∷◌, [], ◌||◌, ◌&&◌, ◌==◌, not, true, length, slice_index, IfOk, OnOk};
ghost use Rattle.solv_graph.specs.Inner.Graphs.{edge_to};
ghost use Rattle.solv_graph.specs.Graphs.{is_in};
ghost use Rattle.solv_trans.specs.Inner.Joining.{Adds, apart};

use crate::parting::Edges;
use solv_graph::{Classes, Graph};
use std::alloc::{AllocError, Global};

/// Puts an edge between two vertices that are not in one class.
fn join_apart(classes: &Classes, from: u32, to: u32, counting: &mut Graph) -> Result<(), AllocError>
    requires marks { length classes.now.marks ≡ length counting.old }
    requires from { from < length counting.old }
    requires to { to < length counting.old }
    ensures { OnOk result (Adds (λ q a b. from == a && (q == b && not (slice_index classes.now.marks a == slice_index classes.now.marks b))) (to ∷ []) counting.old counting.new) }
{
    if !classes.are_together(from, to) {
        counting.join(from, to)?;
    }
    Ok(())
}

/// Puts the edges from a vertex to those that are not in its class.
#[tactic(auto, using(crate::proofs::Joined::adds_none, crate::proofs::Joined::adds_more))]
fn join_row(
    classes: &Classes,
    from: u32,
    next: &[u32],
    counting: &mut Graph,
) -> Result<(), AllocError>
    requires marks { length classes.now.marks ≡ length counting.old }
    requires from { from < length counting.old }
    requires inside { (q : ℕ) → is_in next.now q ≡ true → q < length counting.old }
    ensures { OnOk result (Adds (λ q a b. from == a && (q == b && not (slice_index classes.now.marks a == slice_index classes.now.marks b))) next.now counting.old counting.new) }
{
    for to in next {
        join_apart(classes, from, *to, counting)?;
    }
    Ok(())
}

/// Puts the edges of a graph whose ends are not in one class.
fn join_counting(graph: &Graph, classes: &Classes, counting: &mut Graph) -> Result<(), AllocError>
    requires marks { length classes.now.marks ≡ length counting.old }
    requires size { length graph.now ≡ length counting.old }
    ensures size { OnOk result (length counting.new ≡ length counting.old) }
    ensures joined { OnOk result ((a b : ℕ) → edge_to counting.new a b ≡ (edge_to counting.old a b || apart classes.now.marks graph.now a b)) }
{
    for from in 0..graph.count() {
        join_row(classes, from, graph.next(from), counting)?;
    }
    Ok(())
}

/// The edges that an order keeps: pre edges whose ends are not in one pre class, and edges whose ends are not in one class.
pub(crate) fn counting_edges(
    alloc: Global,
    edges: &Edges,
    classes: &Classes,
    pre_classes: &Classes,
) -> Result<Graph, AllocError>
    requires marks { length classes.now.marks ≡ length edges.now.all }
    requires pre_marks { length pre_classes.now.marks ≡ length edges.now.all }
    requires same { length edges.now.pre ≡ length edges.now.all }
    ensures size { IfOk result (λ counting. length counting ≡ length edges.now.all) }
    ensures joined { IfOk result (λ counting. (a b : ℕ) → edge_to counting a b ≡ (apart classes.now.marks edges.now.all a b || apart pre_classes.now.marks edges.now.pre a b)) }
{
    let mut counting = Graph::new(alloc, edges.all.count())?;
    join_counting(&edges.all, classes, &mut counting)?;
    join_counting(&edges.pre, pre_classes, &mut counting)?;
    Ok(counting)
}
