//! What the clauses of a relation are made of.
ghost use Rattle.std.specs.Prelude.{◌≡◌, ◌<◌, Option, ℕ, length, true, if◌then◌else◌};
ghost use Rattle.solv_pool.specs.Prelude.{catalog_of, dependency, clauses_of, clause_count};
ghost use Rattle.solv_rich.specs.Inner.Operators.{clauses_by, count_by, are_below};
ghost use Rattle.solv_rich.specs.declared.operators.Parts.TheVariants.{Nothing};

use solv_pool::{DepId, DepNode, Task};

/// What the clauses are made of that say that a relation holds, or that it does not. The clauses of an operand say the same
/// of it, unless another sense is named.
#[derive(Clone, Copy)]
pub(crate) enum Parts {
    /// The packages that meet the relation.
    Packages,
    /// The clauses of the first and then those of the second.
    Joined(DepId, DepId),
    /// Each clause of the first with each of the second, whose clauses say that it holds (`true`) or that it does not.
    Crossed(DepId, DepId, bool),
    /// Each clause of the first with each that says the opposite of the second, and then each of the third with each of the
    /// second.
    Chosen(DepId, DepId, DepId),
    /// No clause.
    Nothing,
}

/// The parts, or no clause where the relation may not stand.
fn parts_if(may_stand: bool, parts: Parts) -> Parts
    ensures { result ≡ (if may_stand then parts else Nothing) }
{
    if may_stand { parts } else { Parts::Nothing }
}

/// What the clauses of a relation are made of, by its form.
fn parts_by_form(task: &Task, dep: DepId, positive: bool) -> Parts
    requires { dep < length task.now.pool.nodes }
    ensures clauses { (x : Option ℕ) → clauses_of (catalog_of task.now) x positive (dependency (catalog_of task.now) dep) ≡ clauses_by (catalog_of task.now) x positive dep result }
    ensures below { are_below dep result ≡ true }
{
    let wise = task.pool.package_wise(dep);
    match task.pool.dep(dep) {
        DepNode::Or(a, b) => {
            if wise {
                Parts::Packages
            } else if positive {
                Parts::Crossed(a, b, true)
            } else {
                Parts::Joined(a, b)
            }
        }
        DepNode::And(left, right) => {
            if positive {
                Parts::Joined(left, right)
            } else {
                Parts::Crossed(left, right, false)
            }
        }
        DepNode::If(a, b) => parts_if(positive, Parts::Crossed(a, b, false)),
        DepNode::IfElse(a, b, c) => parts_if(positive, Parts::Chosen(a, b, c)),
        DepNode::Unless(a, b) => parts_if(!positive, Parts::Crossed(a, b, true)),
        DepNode::UnlessElse(a, b, c) => parts_if(!positive, Parts::Chosen(a, b, c)),
        _ => Parts::Packages,
    }
}

/// What the clauses of a relation are made of, and so how many they are.
pub(crate) fn parts_of(task: &Task, dep: DepId, positive: bool) -> Parts
    requires { dep < length task.now.pool.nodes }
    ensures clauses { (x : Option ℕ) → clauses_of (catalog_of task.now) x positive (dependency (catalog_of task.now) dep) ≡ clauses_by (catalog_of task.now) x positive dep result }
    ensures counts { (x : Option ℕ) → clause_count (catalog_of task.now) x positive (dependency (catalog_of task.now) dep) ≡ count_by (catalog_of task.now) x positive dep result }
    ensures below { are_below dep result ≡ true }
{
    parts_by_form(task, dep, positive)
}
