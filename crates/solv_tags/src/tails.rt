//! What is known of long lists, so that an entry that is there already is found by one look.
ghost use Rattle.std.specs.Prelude.{◌≡◌, ◌==◌, [], slice_get, Some, IfSome, IfNone, OnOk, false};
ghost use Rattle.std.specs.List.{list_any};
ghost use Rattle.solv_tags.specs.Inner.Tails.{noted};

use indexmap::IndexSet;
use std::alloc::{AllocError, Global};
use std::marker::Model;

/// How many entries of a list are looked through one by one.
pub(crate) const FIRST: usize = 32;

/// The most entries behind the first ones for which the table is emptied and not made anew.
const MOST_EMPTIED: usize = 512;

/// The ids of a list behind its first ones. Contracts see them in their order.
pub struct Tail {
    ids: IndexSet<u32>,
}

impl Drop for Tail {
    fn drop(self) {
        let Tail { ids: _ } = self;
    }
}

impl Model for Tail {
    ghost use Rattle.std.specs.Prelude.{ℕ, List};

    ghost Value = { List ℕ };

    ghost view = { λ tail. tail.ids.keys };
}

impl Tail {
    /// No ids. It takes no memory.
    fn new(alloc: Global) -> Tail
        ensures { result ≡ [] }
    {
        Tail {
            ids: IndexSet::new(alloc),
        }
    }

    /// Takes all ids away. Emptying a table costs what it has room for, so a large one is made anew.
    fn forget(&mut self, alloc: Global)
        ensures { self.new ≡ [] }
    {
        if self.ids.len() > MOST_EMPTIED {
            self.ids = IndexSet::new(alloc);
        } else {
            self.ids.clear();
        }
    }

    /// Whether an id is among them.
    pub(crate) fn has(&self, id: u32) -> bool
        ensures { result ≡ list_any (λ other. id == other) self.now }
    {
        self.ids.contains(&id)
    }

    /// Where an id stands.
    pub(crate) fn place(&self, id: u32) -> Option<usize>
        ensures some { IfSome result (λ place. slice_get self.now place ≡ Some id) }
        ensures none { IfNone result (list_any (λ other. id == other) self.now ≡ false) }
    {
        self.ids.get_index_of(&id)
    }

    /// Notes an id of a list that has so many before it.
    pub(crate) fn note(&mut self, alloc: Global, count: usize, id: u32) -> Result<(), AllocError>
        ensures { OnOk result (self.new ≡ noted count id self.old) }
    {
        if count < FIRST {
            return Ok(());
        }
        if count == FIRST {
            self.forget(alloc);
        }
        match self.ids.insert_full(id) {
            Ok(_) => Ok(()),
            Err(_) => Err(AllocError),
        }
    }
}

/// The tail of each list of the package in hand.
pub struct Tails {
    pub(crate) provides: Tail,
    pub(crate) requires_: Tail,
    pub(crate) conflicts: Tail,
    pub(crate) obsoletes: Tail,
    pub(crate) recommends: Tail,
    pub(crate) suggests: Tail,
    pub(crate) supplements: Tail,
    pub(crate) enhances: Tail,
    pub(crate) files: Tail,
}

impl Drop for Tails {
    fn drop(self) {
        let Tails {
            provides: _,
            requires_: _,
            conflicts: _,
            obsoletes: _,
            recommends: _,
            suggests: _,
            supplements: _,
            enhances: _,
            files: _,
        } = self;
    }
}

impl Tails {
    /// Of no package. They take no memory.
    pub(crate) fn new(alloc: Global) -> Tails {
        Tails {
            provides: Tail::new(alloc),
            requires_: Tail::new(alloc),
            conflicts: Tail::new(alloc),
            obsoletes: Tail::new(alloc),
            recommends: Tail::new(alloc),
            suggests: Tail::new(alloc),
            supplements: Tail::new(alloc),
            enhances: Tail::new(alloc),
            files: Tail::new(alloc),
        }
    }
}
