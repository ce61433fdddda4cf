//! What a dependency is made of, as far as packages serve it.
ghost use Rattle.std.specs.Prelude.{◌<◌, length};
ghost use Rattle.solv_prov.specs.Inner.PartsBy.{AreParts};

use solv_pool::{DepId, DepNode, Pool};

/// The parts of a dependency: those that packages meet alone, and that stand in no condition.
#[derive(Clone, Copy)]
pub enum Parts {
    /// The dependency itself.
    Itself,
    /// Those of another.
    Of(DepId),
    /// Those of one and of another.
    OfBoth(DepId, DepId),
}

/// The parts of a dependency, by its operands. Each operand has a smaller id.
pub fn parts_of(pool: &Pool, dep: DepId) -> Parts
    requires { dep < length pool.now.nodes }
    ensures { AreParts pool.now.nodes dep result }
{
    let wise = pool.package_wise(dep);
    match pool.dep(dep) {
        DepNode::And(a, b) => Parts::OfBoth(a, b),
        DepNode::Or(a, b) => {
            if wise {
                Parts::Itself
            } else {
                Parts::OfBoth(a, b)
            }
        }
        DepNode::If(a, _) => Parts::Of(a),
        DepNode::IfElse(a, _, c) => Parts::OfBoth(a, c),
        DepNode::Unless(a, _) => Parts::Of(a),
        DepNode::UnlessElse(a, _, c) => Parts::OfBoth(a, c),
        _ => Parts::Itself,
    }
}
