//! A guide that remembers nothing, in the place of one that does.
ghost use Rattle.std.specs.Prelude.{⊤, ◌≡◌, ◌<◌, ℕ, ℤ, true, List, length, nat_lt};
ghost use Rattle.std.specs.List.{list_all};
ghost use Rattle.solv_pool.specs.Prelude.{is_fact};

use solv_trail::{Ask, Guide, Known, Remembering};

/// A guide that is asked anew each time.
#[derive(Drop)]
pub(crate) struct Forgetful<'a, G> {
    pub(crate) guide: &'a G,
}

impl<'a, G: Guide> Guide for Forgetful<'a, G> {
    ghost is_for = { λ forgetful clauses owners. G.is_for forgetful.guide.now clauses owners };

    ghost is_for_packages = { λ forgetful count. G.is_for_packages forgetful.guide.now count };

    ghost asks = { λ forgetful known enabled. G.asks forgetful.guide.now known enabled };

    fn next(&self, known: &Known, enabled: &[bool]) -> Option<Ask> {
        self.guide.next(known, enabled)
    }

    ghost keeps_law = { λ forgetful count clauses owners enabled law few. G.keeps_law forgetful.guide.now count clauses owners enabled law few };
}

impl<'a, G: Guide> Remembering for Forgetful<'a, G> {
    type Memory = ();

    ghost serves = { λ _ _ _. ⊤ };

    fn begin(&self, known: &Known) {
        let _ = known;
    }

    fn next_remembering(&self, memory: &mut (), known: &Known, enabled: &[bool]) -> Option<Ask> {
        let _ = memory;
        self.guide.next(known, enabled)
    }

    fn end(&self, memory: ()) {
        memory
    }

    ghost keeps_serving = { λ _ _ _ _ _ _. tt };
}
