//! The names of repositories, each found by one look.
ghost use Rattle.std.specs.Prelude.{◌≡◌, ◌==◌, ◌∷◌, ◌++◌, [], List, map, take, OnOk, OnErr, false};
ghost use Rattle.std.specs.List.{list_any};
ghost use Rattle.solv_pool.specs.declared.packages.Repo.{Repo as Repository};

use indexmap::IndexSet;
use solv_base::NameId;
use std::alloc::{AllocError, Global};
use std::marker::Model;

/// The names of repositories. Contracts see them in their order.
pub(crate) struct RepoNames {
    ids: IndexSet<u32>,
}

impl Drop for RepoNames {
    fn drop(self) {
        let RepoNames { ids: _ } = self;
    }
}

impl Model for RepoNames {
    ghost use Rattle.std.specs.Prelude.{ℕ, List};

    ghost Value = { List ℕ };

    ghost view = { λ names. names.ids.keys };
}

/// The number of a name.
fn number_of(name: NameId) -> u32
    ensures { result ≡ name }
{
    name.0
}

impl RepoNames {
    /// No names. It takes no memory.
    pub(crate) fn new(alloc: Global) -> RepoNames
        ensures { result ≡ [] }
    {
        RepoNames {
            ids: IndexSet::new(alloc),
        }
    }

    /// Whether a name is among them.
    pub(crate) fn has(&self, name: NameId) -> bool
        ensures among { result ≡ list_any (λ other. name == other) self.now }
        ensures taken { (repos : List Repository) → self.now ≡ map (λ repo. repo.name) repos → result ≡ list_any (λ repo. name == repo.name) repos }
    {
        let id = number_of(name);
        self.ids.contains(&id)
    }

    /// Puts a new name at the end.
    pub(crate) fn push(&mut self, name: NameId) -> Result<(), AllocError>
        requires { list_any (λ other. name == other) self.old ≡ false }
        ensures ok { OnOk result (self.new ≡ self.old ++ name ∷ []) }
        ensures err { OnErr result (self.new ≡ self.old) }
    {
        match self.ids.insert_full(number_of(name)) {
            Ok(_) => {}
            Err(_) => return Err(AllocError),
        }
        Ok(())
    }

    /// Drops all but the first so many.
    pub(crate) fn cut(&mut self, count: usize)
        ensures { self.new ≡ take count self.old }
    {
        self.ids.truncate(count);
    }
}
