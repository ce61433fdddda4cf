//! What a pool holds, each once and by its place, with a table that finds it.
ghost use Rattle.std.specs.Prelude.{◌≡◌, [], ◌<◌, length, is_some, IfSome, IfOk, OnOk, OnErr, false};
ghost use Rattle.solv_base.specs.Pool.{is_name, name_id, with_name};
ghost use Rattle.solv_base.specs.Inner.Pool.{is_node, node_id, with_node};

use crate::relation::DepNode;
use crate::texts::{Text, Wanted};
use indexmap::IndexSet;
use std::alloc::{AllocError, Global};
use std::marker::Model;

/// Texts, each once. Contracts see them in order.
#[derive(Drop)]
pub(crate) struct Texts {
    set: IndexSet<Text>,
}

impl Model for Texts {
    ghost use Rattle.std.specs.Prelude.{ℕ, List};

    ghost Value = { List (List ℕ) };

    ghost view = { λ t. t.set.keys };
}

/// Relations, each once. Contracts see them in order.
#[derive(Drop)]
pub(crate) struct Relations {
    set: IndexSet<DepNode>,
}

impl Model for Relations {
    ghost use Rattle.std.specs.Prelude.{List};
    ghost use Rattle.solv_base.specs.declared.relation.DepNode.{DepNode};

    ghost Value = { List DepNode };

    ghost view = { λ r. r.set.keys };
}

/// The place of a text in a table.
fn place_in(texts: &IndexSet<Text>, text: &[u8]) -> Option<usize>
    ensures found { is_some result ≡ is_name texts.now.keys text.now }
    ensures place { IfSome result (λ i. i ≡ name_id texts.now.keys text.now) }
    ensures within { IfSome result (λ i. i < length texts.now.keys) }
{
    texts.get_index_of(Wanted(text))
}

/// The place of a relation in a table.
fn relation_in(relations: &IndexSet<DepNode>, node: &DepNode) -> Option<usize>
    ensures found { is_some result ≡ is_node relations.now.keys node.now }
    ensures place { IfSome result (λ i. i ≡ node_id relations.now.keys node.now) }
    ensures within { IfSome result (λ i. i < length relations.now.keys) }
{
    relations.get_index_of(node)
}

/// The place of a text in a table, which is entered where it is new.
fn enter_in(texts: &mut IndexSet<Text>, text: Text) -> Result<usize, AllocError>
    ensures place { IfOk result (λ i. i ≡ name_id texts.old.keys text) }
    ensures within { IfOk result (λ i. i < length texts.new.keys) }
    ensures held { OnOk result (texts.new.keys ≡ with_name texts.old.keys text) }
    ensures absent { OnErr result (is_name texts.old.keys text ≡ false) }
    ensures refused { OnErr result (texts.new.keys ≡ texts.old.keys) }
{
    match texts.insert_full(text) {
        Ok((place, _)) => Ok(place),
        Err(_) => Err(AllocError),
    }
}

/// The place of a relation in a table, which is entered where it is new.
fn enter_relation_in(relations: &mut IndexSet<DepNode>, node: DepNode) -> Result<usize, AllocError>
    ensures place { IfOk result (λ i. i ≡ node_id relations.old.keys node) }
    ensures within { IfOk result (λ i. i < length relations.new.keys) }
    ensures held { OnOk result (relations.new.keys ≡ with_node relations.old.keys node) }
    ensures absent { OnErr result (is_node relations.old.keys node ≡ false) }
    ensures refused { OnErr result (relations.new.keys ≡ relations.old.keys) }
{
    match relations.insert_full(node) {
        Ok((place, _)) => Ok(place),
        Err(_) => Err(AllocError),
    }
}

impl Texts {
    /// No texts. They take no memory.
    pub(crate) fn new(alloc: Global) -> Texts
        ensures { result ≡ [] }
    {
        Texts {
            set: IndexSet::new(alloc),
        }
    }

    /// The texts in order.
    pub(crate) fn held(&self) -> &[Text]
        ensures { result.now ≡ self.now }
    {
        self.set.as_slice()
    }

    /// The place of a text.
    pub(crate) fn place_of(&self, text: &[u8]) -> Option<usize>
        ensures found { is_some result ≡ is_name self.now text.now }
        ensures place { IfSome result (λ i. i ≡ name_id self.now text.now) }
        ensures within { IfSome result (λ i. i < length self.now) }
    {
        place_in(&self.set, text)
    }

    /// The place of a text, which is entered where it is new.
    pub(crate) fn enter(&mut self, text: Text) -> Result<usize, AllocError>
        ensures place { IfOk result (λ i. i ≡ name_id self.old text) }
        ensures within { IfOk result (λ i. i < length self.new) }
        ensures held { OnOk result (self.new ≡ with_name self.old text) }
        ensures absent { OnErr result (is_name self.old text ≡ false) }
        ensures refused { OnErr result (self.new ≡ self.old) }
    {
        enter_in(&mut self.set, text)
    }
}

impl Relations {
    /// No relations. They take no memory.
    pub(crate) fn new(alloc: Global) -> Relations
        ensures { result ≡ [] }
    {
        Relations {
            set: IndexSet::new(alloc),
        }
    }

    /// The relations in order.
    pub(crate) fn held(&self) -> &[DepNode]
        ensures { result.now ≡ self.now }
    {
        self.set.as_slice()
    }

    /// The place of a relation.
    pub(crate) fn place_of(&self, node: &DepNode) -> Option<usize>
        ensures found { is_some result ≡ is_node self.now node.now }
        ensures place { IfSome result (λ i. i ≡ node_id self.now node.now) }
        ensures within { IfSome result (λ i. i < length self.now) }
    {
        relation_in(&self.set, node)
    }

    /// The place of a relation, which is entered where it is new.
    pub(crate) fn enter(&mut self, node: DepNode) -> Result<usize, AllocError>
        ensures place { IfOk result (λ i. i ≡ node_id self.old node) }
        ensures within { IfOk result (λ i. i < length self.new) }
        ensures held { OnOk result (self.new ≡ with_node self.old node) }
        ensures absent { OnErr result (is_node self.old node ≡ false) }
        ensures refused { OnErr result (self.new ≡ self.old) }
    {
        enter_relation_in(&mut self.set, node)
    }
}
