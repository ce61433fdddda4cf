//! A descent: propagation and decisions in turn.
ghost use Rattle.std.specs.Prelude.{◌≡◌, ◌<◌, ◌≤◌, ◌^◌, ◌++◌, ℕ, ℤ, true, List, length, nat_lt};
ghost use Rattle.std.specs.List.{list_all};
ghost use Rattle.solv_pool.specs.Prelude.{are_over};
ghost use Rattle.solv_trail.specs.Propagated.{in_use};
ghost use Rattle.solv_trail.specs.Inner.Descends.{AsksUnknown, Ended, IsKept};
ghost use Rattle.solv_watch.specs.Inner.Propagating.{AreWatched, AreKeptAtChoices, AreReady};

use crate::chains::Watches;
use crate::propagation::propagate;
use solv_pack::RuleMem;
use solv_trail::{Guide, Known, Remembering, taken};

/// Propagates and decides as the guide asks, until a rule is falsified (which it names) or nothing is asked. Nothing is undone
/// meanwhile, so the guide is asked to begin once. It takes no memory.
pub fn descend<G: Guide + Remembering>(
    known: &mut Known,
    book: &RuleMem,
    learnt: &RuleMem,
    watches: &mut Watches,
    owners: &[usize],
    enabled: &[bool],
    guide: &G,
) -> Option<u32>
    requires over { are_over known.old.count (book.now.rules ++ learnt.now.rules) ≡ true }
    requires owners { list_all (λ o. nat_lt o (length enabled.now)) owners.now ≡ true }
    requires each { length owners.now ≡ length book.now.rules }
    requires rules { length (book.now.rules ++ learnt.now.rules) ≤ 2 ^ 28 }
    requires next { (clauses : List (List ℤ)) × ((all : List ℕ) × (G.is_for guide.now clauses all × (list_all (λ o. nat_lt o (length enabled.now)) all ≡ true))) }
    requires asks { AsksUnknown known.old.count (book.now.rules ++ learnt.now.rules) (in_use owners.now enabled.now) (λ facts. G.asks guide.now facts enabled.now) }
    requires kept { IsKept (book.now.rules ++ learnt.now.rules) (in_use owners.now enabled.now) (λ facts. G.asks guide.now facts enabled.now) known.old }
    requires watched { AreWatched known.old.count book.now.rules learnt.now.rules watches.old }
    requires choices { AreKeptAtChoices book.now.rules learnt.now.rules (in_use owners.now enabled.now) watches.old known.old }
    requires ready { AreReady book.now.rules learnt.now.rules (in_use owners.now enabled.now) watches.old known.old }
    ensures count { known.new.count ≡ known.old.count }
    ensures kept { IsKept (book.now.rules ++ learnt.now.rules) (in_use owners.now enabled.now) (λ facts. G.asks guide.now facts enabled.now) known.new }
    ensures ended { Ended (book.now.rules ++ learnt.now.rules) (in_use owners.now enabled.now) (λ facts. G.asks guide.now facts enabled.now) known.new.lits result }
    ensures watched { AreWatched known.old.count book.now.rules learnt.now.rules watches.new }
    ensures choices { AreKeptAtChoices book.now.rules learnt.now.rules (in_use owners.now enabled.now) watches.new known.new }
{
    let mut memory = guide.begin(known);
    loop {
        if let Some(rule) = propagate(known, book, learnt, watches, owners, enabled) {
            known.keep_apart();
            guide.end(memory);
            return Some(rule);
        }
        known.keep_apart();
        match guide.next_remembering(&mut memory, known, enabled) {
            None => {
                guide.end(memory);
                return None;
            }
            Some(ask) => known.choose(taken(ask.pack), ask),
        }
    }
}
