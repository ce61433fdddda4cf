ghost use Rattle.std.specs.Prelude.{◌≡◌};
ghost use Rattle.std.specs.Hash as fed;
ghost use Rattle.std.proofs.Common.{ap};
ghost use Rattle.solv_base.specs.Inner.Hashing.{comparison_number, parts_number, node_number, equal_nodes};

use crate::comparison::Cmp;
use std::hash::{Hash, Hasher};
use std::marker::Model;

/// The id of a text in its pool.
#[derive(Clone, Copy, PartialEq, Eq, PartialOrd, Ord, Hash, Debug)]
pub struct NameId(pub u32);

/// The id of a relation in its pool.
#[derive(Clone, Copy, PartialEq, Eq, PartialOrd, Ord, Hash, Debug)]
pub struct DepId(pub u32);

impl Model for NameId {
    ghost use Rattle.std.specs.Prelude.{ℕ};

    ghost Value = { ℕ };

    ghost view = { λ n. n.0 };

    ghost inverse = { λ n. record { 0 = n } };
}

impl Model for DepId {
    ghost use Rattle.std.specs.Prelude.{ℕ};

    ghost Value = { ℕ };

    ghost view = { λ n. n.0 };

    ghost inverse = { λ n. record { 0 = n } };
}

/// A relation, by the ids of its parts: one of rpm's dependencies, plain or boolean.
#[derive(Clone, Copy, PartialEq, Eq, Debug)]
pub enum DepNode {
    /// `name`
    Simple(NameId),
    /// `name >= evr` and its kin
    Versioned(NameId, Cmp, NameId),
    /// `namespace:name(argument)`
    Namespace(NameId),
    /// `a & b`
    And(DepId, DepId),
    /// `a | b`
    Or(DepId, DepId),
    /// `a + b`: one package meets both
    With(DepId, DepId),
    /// `a - b`: one package meets the first and not the second
    Without(DepId, DepId),
    /// `a <IF> b`
    If(DepId, DepId),
    /// `a <IF> b <ELSE> c`
    IfElse(DepId, DepId, DepId),
    /// `a <UNLESS> b`
    Unless(DepId, DepId),
    /// `a <UNLESS> b <ELSE> c`
    UnlessElse(DepId, DepId, DepId),
}

/// A hasher gets a relation as one number, since a pool looks up each relation of each line that it reads.
impl Hash for DepNode {
    ghost hash_input = { λ node. fed.u128 (node_number node) };

    ghost respects_eq = { λ x y h. ap (λ node. fed.u128 (node_number node)) (equal_nodes x y h) };

    fn hash<H: Hasher>(&self, state: &mut H) {
        state.write_u128(number(self));
    }
}

/// A relation as a number: the lowest 96 bits are the ids of its parts, and those above say its kind.
fn number(node: &DepNode) -> u128
    ensures { result ≡ node_number node.now }
{
    match node {
        DepNode::Simple(name) => of_parts(0, name.0, 0, 0),
        DepNode::Namespace(name) => of_parts(1, name.0, 0, 0),
        DepNode::And(a, b) => of_parts(2, a.0, b.0, 0),
        DepNode::Or(a, b) => of_parts(3, a.0, b.0, 0),
        DepNode::With(a, b) => of_parts(4, a.0, b.0, 0),
        DepNode::Without(a, b) => of_parts(5, a.0, b.0, 0),
        DepNode::If(a, b) => of_parts(6, a.0, b.0, 0),
        DepNode::IfElse(a, b, c) => of_parts(7, a.0, b.0, c.0),
        DepNode::Unless(a, b) => of_parts(8, a.0, b.0, 0),
        DepNode::UnlessElse(a, b, c) => of_parts(9, a.0, b.0, c.0),
        DepNode::Versioned(name, cmp, evr) => of_parts(of_comparison(cmp), name.0, evr.0, 0),
    }
}

fn of_parts(kind: u8, a: u32, b: u32, c: u32) -> u128
    ensures { result ≡ parts_number kind a b c }
{
    a as u128 + b as u128 * (1 << 32) + c as u128 * (1 << 64) + kind as u128 * (1 << 96)
}

fn of_comparison(cmp: &Cmp) -> u8
    ensures { result ≡ comparison_number cmp.now }
{
    10 + cmp.less as u8 + 2 * cmp.equal as u8 + 4 * cmp.greater as u8
}
