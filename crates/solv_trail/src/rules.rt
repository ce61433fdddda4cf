//! The rules of a book, each with an owner that is enabled or not, and learnt ones after them.
ghost use Rattle.std.specs.Prelude.{◌≡◌, ◌<◌, ◌++◌, true, length, nat_lt, slice_get, Some};
ghost use Rattle.std.specs.List.{list_all};
ghost use Rattle.solv_trail.specs.Propagated.{in_use};

use solv_pack::{Lit, RuleMem, RuleNo};

/// Whether the rule of this number is in use: its owner is enabled. `owners` has the owner of each rule of the book; the learnt
/// ones, which come after them, have none and are always in use.
pub fn is_in_use(owners: &[usize], enabled: &[bool], rule: usize) -> bool
    requires { list_all (λ o. nat_lt o (length enabled.now)) owners.now ≡ true }
    ensures { result ≡ in_use owners.now enabled.now rule }
{
    match owners.get(rule) {
        Some(owner) => enabled[*owner],
        None => true,
    }
}

/// The literals of a rule of the book, or of a learnt one after them.
pub fn lits_of<'a>(book: &'a RuleMem, learnt: &'a RuleMem, rule: u32) -> &'a [Lit]
    requires { rule < length (book.now.rules ++ learnt.now.rules) }
    ensures { slice_get (book.now.rules ++ learnt.now.rules) rule ≡ Some result.now }
{
    let count = book.len();
    if (rule as usize) < count {
        return book.lits(RuleNo(rule));
    }
    learnt.lits(RuleNo(rule - count as u32))
}
