//! One id for each text and for each relation.
ghost use Rattle.std.specs.Prelude.{◌≡◌, ◌∷◌, [], ◌++◌, ◌<◌, ◌≤◌, ◌↔◌, ℕ, length, slice_get, Some, IfOk, OnOk, OnErr, IsOk, IsErrOf, IsTrue, Contains, true, false, is_some, IfSome};
ghost use Rattle.solv_base.specs.Pool.{most, is_name, name_id, with_name};
ghost use Rattle.solv_base.specs.Inner.Pool.{is_node, node_id, with_node};

use crate::keys::{Relations, Texts};
use crate::relation::{DepId, DepNode, NameId};
use crate::texts::Text;
use std::alloc::{AllocError, Global};
use std::marker::Model;
use thiserror::Error;

/// Why a pool took no more.
#[derive(Clone, Copy, PartialEq, Eq, Debug, Error)]
pub enum PoolFault {
    #[error("FullNames")]
    FullNames,
    #[error("FullRelations")]
    FullRelations,
    #[error("Memory")]
    Memory,
}

/// Texts and relations, each held once and named by an id that stays for good.
#[derive(Drop)]
pub struct Pool {
    alloc: Global,
    texts: Texts,
    relations: Relations,
}

impl Model for Pool {
    ghost use Rattle.solv_base.specs.Pool.{Held, IsPool};

    ghost Value = { Held };

    ghost view = { λ p. record { names = p.texts; nodes = p.relations } };

    ghost invariant = { λ p. IsPool (record { names = p.texts; nodes = p.relations }) };
}

/// The most names, and the most relations.
const MOST: usize = 1 << 24;

impl Pool {
    ghost use Rattle.solv_base.specs.Pool.{Held, IsPool, Grows, text_at, text_tree};
    ghost use Rattle.solv_base.specs.Inner.Pool.{uses_below, text_tree_of_node};
    ghost use Rattle.solv_base.specs.Dependency.{tree, tree_of_node, package_wise as is_package_wise};

    /// An empty pool. It takes no memory.
    pub fn new(alloc: Global) -> Pool
        ensures { result ≡ record { names = []; nodes = [] } }
    {
        Pool {
            alloc,
            texts: Texts::new(alloc),
            relations: Relations::new(alloc),
        }
    }

    /// The allocator of the pool. What is read beside the pool allocates from it too.
    pub fn alloc(&self) -> Global {
        self.alloc
    }

    /// The id of a text, which the text keeps for good. A text that is held already takes no memory: it is looked up before
    /// one is made.
    pub fn intern(&mut self, text: &[u8]) -> Result<NameId, PoolFault>
        ensures id { IfOk result (λ id. id ≡ name_id self.old.names text.now) }
        ensures held { OnOk result (self.new ≡ record self.old { names = with_name self.old.names text.now }) }
        ensures within { IfOk result (λ id. id < length self.new.names) }
        ensures text { IfOk result (λ id. slice_get self.new.names id ≡ Some text.now) }
        ensures grows { Grows self.old self.new }

        ensures known { IsTrue (is_name self.old.names text.now) → IsOk result }
        ensures full { IsErrOf result PoolFault.FullNames ↔ ((is_name self.old.names text.now ≡ false) × (length self.old.names ≡ most)) }
        ensures no_relation { IsErrOf result PoolFault.FullRelations → ⊥ }
        ensures refused { OnErr result (self.new ≡ self.old) }
    {
        if let Some(place) = self.texts.place_of(text) {
            return Ok(NameId(place as u32));
        }
        let place = self.texts.held().len();
        if place >= MOST {
            return Err(PoolFault::FullNames);
        }
        let Ok(copy) = Text::new(self.alloc, text) else {
            return Err(PoolFault::Memory);
        };
        if self.texts.enter(copy).is_err() {
            return Err(PoolFault::Memory);
        }
        Ok(NameId(place as u32))
    }

    /// How many names are held: each id is below.
    pub fn name_count(&self) -> usize
        ensures { result ≡ length self.now.names }
    {
        self.texts.held().len()
    }

    /// The bytes of a name.
    pub fn name(&self, id: NameId) -> &[u8]
        requires { id < length self.now.names }
        ensures held { slice_get self.now.names id ≡ Some result.now }
        ensures text { result.now ≡ text_at self.now id }
    {
        self.texts.held()[id.0 as usize].bytes()
    }

    /// The id of a relation, which the relation keeps for good. One that is held already takes no memory.
    pub fn relation(&mut self, node: DepNode) -> Result<DepId, PoolFault>
        requires { IsTrue (uses_below (length self.old.names) (length self.old.nodes) node) }
        ensures within { IfOk result (λ id. id < length self.new.nodes) }
        ensures id { IfOk result (λ id. slice_get self.new.nodes id ≡ Some node) }
        ensures known { Contains self.old.nodes node → OnOk result (self.new ≡ self.old) }
        ensures added { (Contains self.old.nodes node → ⊥) → OnOk result (self.new ≡ record self.old { nodes = self.old.nodes ++ node ∷ [] }) }
        ensures tree { IfOk result (λ id. tree self.new.nodes id ≡ tree_of_node (tree self.old.nodes) node) }
        ensures text_tree { IfOk result (λ id. text_tree self.new id ≡ text_tree_of_node (text_at self.old) (text_tree self.old) node) }
        ensures grows { Grows self.old self.new }

        ensures succeeds { Contains self.old.nodes node → IsOk result }
        ensures full { IsErrOf result PoolFault.FullRelations ↔ ((Contains self.old.nodes node → ⊥) × (length self.old.nodes ≡ most)) }
        ensures no_name { IsErrOf result PoolFault.FullNames → ⊥ }
        ensures refused { OnErr result (self.new ≡ self.old) }
    {
        if self.has_room_for_relation() {
            return self.relation_once(node).map_err(|_| PoolFault::Memory);
        }
        self.relation_any(node)
    }

    /// Whether there is room for one more relation.
    fn has_room_for_relation(&self) -> bool
        ensures { result ≡ true → length self.now.nodes < most }
    {
        self.relations.held().len() < MOST
    }

    /// The id of a relation, where there is room for one more. It is looked up once, whether it is new or not.
    fn relation_once(&mut self, node: DepNode) -> Result<DepId, AllocError>
        requires uses { IsTrue (uses_below (length self.old.names) (length self.old.nodes) node) }
        requires room { length self.old.nodes < most }
        ensures within { IfOk result (λ id. id < length self.new.nodes) }
        ensures id { IfOk result (λ id. slice_get self.new.nodes id ≡ Some node) }
        ensures known { Contains self.old.nodes node → OnOk result (self.new ≡ self.old) }
        ensures added { (Contains self.old.nodes node → ⊥) → OnOk result (self.new ≡ record self.old { nodes = self.old.nodes ++ node ∷ [] }) }
        ensures tree { IfOk result (λ id. tree self.new.nodes id ≡ tree_of_node (tree self.old.nodes) node) }
        ensures text_tree { IfOk result (λ id. text_tree self.new id ≡ text_tree_of_node (text_at self.old) (text_tree self.old) node) }
        ensures grows { Grows self.old self.new }
        ensures absent { OnErr result (Contains self.old.nodes node → ⊥) }
        ensures refused { OnErr result (self.new ≡ self.old) }
    {
        let place = self.relations.enter(node)?;
        Ok(DepId(place as u32))
    }

    /// The id of any relation. It is looked up before memory is allocated for it.
    fn relation_any(&mut self, node: DepNode) -> Result<DepId, PoolFault>
        requires { IsTrue (uses_below (length self.old.names) (length self.old.nodes) node) }
        ensures within { IfOk result (λ id. id < length self.new.nodes) }
        ensures id { IfOk result (λ id. slice_get self.new.nodes id ≡ Some node) }
        ensures known { Contains self.old.nodes node → OnOk result (self.new ≡ self.old) }
        ensures added { (Contains self.old.nodes node → ⊥) → OnOk result (self.new ≡ record self.old { nodes = self.old.nodes ++ node ∷ [] }) }
        ensures tree { IfOk result (λ id. tree self.new.nodes id ≡ tree_of_node (tree self.old.nodes) node) }
        ensures text_tree { IfOk result (λ id. text_tree self.new id ≡ text_tree_of_node (text_at self.old) (text_tree self.old) node) }
        ensures grows { Grows self.old self.new }

        ensures succeeds { Contains self.old.nodes node → IsOk result }
        ensures full { IsErrOf result PoolFault.FullRelations ↔ ((Contains self.old.nodes node → ⊥) × (length self.old.nodes ≡ most)) }
        ensures no_name { IsErrOf result PoolFault.FullNames → ⊥ }
        ensures refused { OnErr result (self.new ≡ self.old) }
    {
        if let Some(place) = self.relations.place_of(&node) {
            return Ok(DepId(place as u32));
        }
        let place = self.relations.held().len();
        if place >= MOST {
            return Err(PoolFault::FullRelations);
        }
        if self.relations.enter(node).is_err() {
            return Err(PoolFault::Memory);
        }
        Ok(DepId(place as u32))
    }

    /// How many relations are held: each id is below.
    pub fn relation_count(&self) -> usize
        ensures { result ≡ length self.now.nodes }
    {
        self.relations.held().len()
    }

    /// The relation of an id.
    pub fn dep(&self, id: DepId) -> DepNode
        requires { id < length self.now.nodes }
        ensures node { slice_get self.now.nodes id ≡ Some result }
        ensures below { IsTrue (uses_below (length self.now.names) id result) }
        ensures tree { tree self.now.nodes id ≡ tree_of_node (tree self.now.nodes) result }
        ensures text_tree { text_tree self.now id ≡ text_tree_of_node (text_at self.now) (text_tree self.now) result }
    {
        self.node_at(id)
    }

    fn node_at(&self, id: DepId) -> DepNode
        requires { id < length self.now.nodes }
        ensures node { slice_get self.now.nodes id ≡ Some result }
        ensures pool { IsPool self.now }
    {
        self.relations.held()[id.0 as usize]
    }

    /// Whether the relation is one that a single package meets or does not: built of plain, versioned and namespace
    /// dependencies, `|`, `+` and `-` alone.
    pub fn package_wise(&self, id: DepId) -> bool
        requires { id < length self.now.nodes }
        ensures { result ≡ is_package_wise (tree self.now.nodes id) }
    {
        match self.dep(id) {
            DepNode::Simple(_) | DepNode::Versioned(_, _, _) | DepNode::Namespace(_) => true,
            DepNode::Or(a, b) | DepNode::With(a, b) | DepNode::Without(a, b) => {
                self.package_wise(a) && self.package_wise(b)
            }
            _ => false,
        }
    }

    /// What holds of every pool: no text and no relation has two ids, at most 2^24 of each are held, and each operand has
    /// a smaller id than its relation.
    pub fn holds_each_once(&self)
        ensures { IsPool self.now }
    {
        let _texts = &self.texts;
    }

    /// Names are equal exactly where their texts are, and relations exactly where their trees are.
    pub fn tells_apart(&self)
        ensures names { (m n : ℕ) → m < length self.now.names → n < length self.now.names → text_at self.now m ≡ text_at self.now n → m ≡ n }
        ensures relations { (a b : ℕ) → a < length self.now.nodes → b < length self.now.nodes → text_tree self.now a ≡ text_tree self.now b → a ≡ b }
    {
        self.holds_each_once();
    }
}
