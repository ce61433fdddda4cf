//! Guides, which make the decisions of a search.
ghost use Rattle.std.specs.Prelude.{◌≡◌, ◌<◌, ℕ, ℤ, Bool, true, List, Option, length, take, nat_lt};
ghost use Rattle.std.specs.List.{list_all};
ghost use Rattle.solv_pool.specs.Prelude.{is_fact};
ghost use Rattle.solv_trail.specs.Inner.Asked.{KeepsLaw};
ghost use Rattle.solv_trail.specs.Asked.{enabled_clauses};
ghost use Rattle.solv_trail.specs.declared.questions.Ask.{Ask};

use crate::known::Known;
use crate::questions::Ask;

/// Decides which package is taken next, over clauses each of which has an owner, a rule that may be enabled or not.
pub trait Guide {
    /// It is for these clauses, with their owners.
    ghost is_for: { Self → List (List ℤ) → List ℕ → Type 0 };

    /// It is for this number of packages.
    ghost is_for_packages: { Self → ℕ → Type 0 };

    /// What it asks where these literals are known and these rules enabled. So the order in which they came to be known does not matter.
    ghost asks: { Self → (ℤ → Bool) → List Bool → Option Ask };

    /// What is to be taken next, or nothing where no question is open. `enabled` has an entry for each owner of clauses that it is for. It takes no memory.
    fn next(&self, known: &Known, enabled: &[bool]) -> Option<Ask>
        requires { (clauses : List (List ℤ)) × ((owners : List ℕ) × (is_for self.now clauses owners × (list_all (λ o. nat_lt o (length enabled.now)) owners ≡ true))) }
        ensures { result ≡ asks self.now (is_fact known.now.lits) enabled.now };

    /// The law: where nothing more is forced and no enabled clause is falsified, it asks nothing only where counting all unknown packages out makes
    /// each enabled clause true, and a package that it asks for is one of those that it is for and not known.
    ghost keeps_law: { (g : Self) (count : ℕ) (clauses : List (List ℤ)) (owners : List ℕ) (enabled : List Bool) → is_for g clauses owners → is_for_packages g count → KeepsLaw count (enabled_clauses enabled clauses owners) (λ known. asks g known enabled) };
}

/// A guide with a memory of what it found out. The memory is valid until an assignment is undone, and the caller owns it.
pub trait Remembering: Guide {
    /// What is remembered.
    type Memory;

    /// What is remembered is valid where these literals are known, in this order.
    ghost serves: { Self → Self.Memory → List ℤ → Type 0 };

    /// Lends what is remembered, valid at what is known. It takes no memory.
    fn begin(&self, known: &Known) -> Self::Memory
        ensures { serves self.now result known.now.lits };

    /// What is to be taken next, as `next` has it. It takes no memory.
    fn next_remembering(
        &self,
        memory: &mut Self::Memory,
        known: &Known,
        enabled: &[bool],
    ) -> Option<Ask>
        requires for_them { (clauses : List (List ℤ)) × ((owners : List ℕ) × (Self.is_for self.now clauses owners × (list_all (λ o. nat_lt o (length enabled.now)) owners ≡ true))) }
        requires serves { serves self.now memory.old known.now.lits }
        ensures asked { result ≡ Self.asks self.now (is_fact known.now.lits) enabled.now }
        ensures serves { serves self.now memory.new known.now.lits };

    /// Hands back what is remembered. It takes no memory.
    fn end(&self, memory: Self::Memory);

    /// The law: it stays valid as the trail grows.
    ghost keeps_serving: { (g : Self) (memory : Self.Memory) (before after : List ℤ) → take (length before) after ≡ before → serves g memory before → serves g memory after };
}

/// Asks the guide again, at what is known now.
fn next_ask<G: Guide>(guide: &G, known: &Known, enabled: &[bool]) -> Option<Ask>
    requires { (clauses : List (List ℤ)) × ((owners : List ℕ) × (G.is_for guide.now clauses owners × (list_all (λ o. nat_lt o (length enabled.now)) owners ≡ true))) }
    ensures { result ≡ G.asks guide.now (is_fact known.now.lits) enabled.now }
{
    guide.next(known, enabled)
}
