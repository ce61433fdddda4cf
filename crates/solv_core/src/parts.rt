//! What a running search works on.
ghost use Rattle.std.specs.Prelude.{◌≡◌, ◌<◌, ◌+◌, ◌^◌};
ghost use Rattle.solv_core.specs.Inner.Holding.{entry_of};

use crate::ledger::Entry;
use solv_learn::Search;
use solv_pack::RuleMem;
use solv_trail::Known;
use solv_watch::Watches;

/// The numbers of the entries of learnt rules: first those that the last run kept, then those that it learnt, from a first one on.
#[derive(Drop)]
pub struct Numbers {
    pub kept: Vec<u32>,
    pub first: usize,
}

impl Numbers {
    /// The number of the entry of a learnt rule.
    pub fn entry_of(&self, rule: usize) -> usize
        requires { self.now.first + rule < 2 ^ 64 }
        ensures { result ≡ entry_of self.now.kept.items self.now.first rule }
    {
        if rule < self.kept.len() {
            self.kept[rule] as usize
        } else {
            self.first + (rule - self.kept.len())
        }
    }
}

/// The parts of a core that a run changes: what is known, the analysis of conflicts, the learnt clauses in use with the numbers of their
/// entries, and the watches of these and of the book. The assignment, and the watches of learnt clauses, begin anew with each run.
#[derive(Drop)]
pub struct Parts {
    pub known: Known,
    pub search: Search,
    pub learnt: RuleMem,
    pub numbers: Numbers,
    pub watches: Watches,
}

/// The book's clauses, their owners, and which of these are enabled.
#[derive(Drop)]
pub struct Used<'a> {
    pub book: &'a RuleMem,
    pub owners: &'a [usize],
    pub enabled: &'a [bool],
}

/// Learnt clauses, and the entries that derive them, under these numbers.
#[derive(Drop)]
pub struct Learnt<'a> {
    pub rules: &'a RuleMem,
    pub numbers: &'a Numbers,
    pub entries: &'a [Entry],
}
