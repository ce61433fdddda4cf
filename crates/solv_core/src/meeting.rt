//! Whether a set makes the clauses of enabled owners true.
ghost use Rattle.std.specs.Prelude.{◌≡◌, ℕ, true, length, nat_lt};
ghost use Rattle.std.specs.List.{list_all};
ghost use Rattle.solv_pool.specs.Prelude.{literal_true, clause_true, all_true};
ghost use Rattle.solv_trail.specs.Asked.{enabled_clauses};
ghost use Rattle.solv_core.specs.Inner.Meeting.{set_by};

use solv_pack::{Lit, RuleMem, RuleNo};

/// Whether a literal is true in the set that a table gives.
fn is_true(inside: &[bool], lit: Lit) -> bool
    ensures { result ≡ literal_true (set_by inside.now) lit }
{
    let marked = match inside.get(lit.package() as usize) {
        Some(mark) => *mark,
        None => false,
    };
    lit.is_in() == marked
}

/// Whether some literal of a clause is true in the set that a table gives.
pub fn is_met(inside: &[bool], clause: &[Lit]) -> bool
    ensures { result ≡ clause_true (set_by inside.now) clause.now }
{
    for lit in clause {
        if is_true(inside, *lit) {
            return true;
        }
    }
    false
}

/// Whether the set that a table gives makes each clause of the enabled owners true.
pub fn are_met(book: &RuleMem, owners: &[usize], enabled: &[bool], inside: &[bool]) -> bool
    requires each { length owners.now ≡ length book.now.rules }
    requires owners { list_all (λ o. nat_lt o (length enabled.now)) owners.now ≡ true }
    ensures { result ≡ all_true (set_by inside.now) (enabled_clauses enabled.now book.now.rules owners.now) }
{
    book.keeps_its_limits();
    for (clause, owner) in owners.iter().enumerate() {
        if enabled[*owner] && !is_met(inside, book.lits(RuleNo(clause as u32))) {
            return false;
        }
    }
    true
}
