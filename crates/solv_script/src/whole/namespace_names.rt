//! The names of namespaces, each found by one look.
ghost use Rattle.std.specs.Prelude.{◌≡◌, ◌==◌, ◌<◌, ◌∷◌, ◌++◌, [], length, IfSome, IfNone, OnOk, false};
ghost use Rattle.std.specs.List.{list_any, position_or_len};

use indexmap::IndexSet;
use solv_base::NameId;
use std::alloc::{AllocError, Global};
use std::marker::Model;

/// The names of namespaces. Contracts see them in their order.
pub(crate) struct NamespaceNames {
    ids: IndexSet<u32>,
}

impl Drop for NamespaceNames {
    fn drop(self) {
        let NamespaceNames { ids: _ } = self;
    }
}

impl Model for NamespaceNames {
    ghost use Rattle.std.specs.Prelude.{ℕ, List};

    ghost Value = { List ℕ };

    ghost view = { λ names. names.ids.keys };
}

/// The number of a name.
fn number_of(name: NameId) -> u32
    ensures { result ≡ name }
{
    name.0
}

impl NamespaceNames {
    /// No names. It takes no memory.
    pub(crate) fn new(alloc: Global) -> NamespaceNames
        ensures { result ≡ [] }
    {
        NamespaceNames {
            ids: IndexSet::new(alloc),
        }
    }

    /// The place of a name.
    pub(crate) fn place_of(&self, name: NameId) -> Option<usize>
        ensures some { IfSome result (λ place. place ≡ position_or_len (λ other. name == other) self.now) }
        ensures within { IfSome result (λ place. place < length self.now) }
        ensures none { IfNone result (list_any (λ other. name == other) self.now ≡ false) }
    {
        let id = number_of(name);
        self.ids.get_index_of(&id)
    }

    /// Puts a new name at the end.
    pub(crate) fn push(&mut self, name: NameId) -> Result<(), AllocError>
        requires { list_any (λ other. name == other) self.old ≡ false }
        ensures { OnOk result (self.new ≡ self.old ++ name ∷ []) }
    {
        match self.ids.insert_full(number_of(name)) {
            Ok(_) => {}
            Err(_) => return Err(AllocError),
        }
        Ok(())
    }
}
