//! A core, and its runs.
ghost use Rattle.std.specs.Prelude.{◌≡◌, ◌^◌, ◌≤◌, ◌+◌, ◌*◌, ◌++◌, ◌∷◌, [], true, List, length, nat_lt, IfOk, OnOk, OnErr};
ghost use Rattle.std.specs.List.{list_all};
ghost use Rattle.solv_pool.specs.Prelude.{are_over, all_true};
ghost use Rattle.solv_trail.specs.Asked.{enabled_clauses};
ghost use Rattle.solv_core.specs.Inner.Meeting.{set_by};
ghost use Rattle.solv_trail.specs.Propagated.{in_use};
ghost use Rattle.solv_watch.specs.Inner.Watching.{AreChained, AreHeads, AreNarrow};
ghost use Rattle.solv_core.specs.Inner.Cores.{core_of, none_in_use};
ghost use Rattle.solv_core.specs.Inner.Holding.{IsBegun, IsHeldBy, entry_of};
ghost use Rattle.solv_core.specs.Inner.Ledgers.{run_of};
ghost use Rattle.solv_core.specs.Inner.Contradictions.{IsWhatRefutes};
ghost use Rattle.solv_core.specs.Inner.Probing.{AreRefutedBeside, verdict_in};
ghost use Rattle.solv_core.specs.Inner.Settling.{HasLearnt};
ghost use Rattle.solv_core.specs.Inner.Running.{HasRunOnce, IsAnswered};
ghost use Rattle.solv_core.specs.declared.ledger.Entry.{Entry};
ghost use Rattle.solv_core.specs.declared.ledger.Ledger.{Ledger as LedgerOf};

use crate::events::events_of;
use crate::flags::Flags;
use crate::forgetful::Forgetful;
use crate::keeping::{flags_of, kept_of};
use crate::ledger::{Ledger, Run};
use crate::meeting::are_met;
use crate::parts::{Numbers, Parts, Used};
use crate::refutation::log_of;
use crate::refuting::{Contradiction, refuted_at_end, refuted_over};
use crate::settling::{Outcome, settle};
use crate::verdicts::{Probed, Trail, Verdict};
use solv_learn::Search;
use solv_list::Items;
use solv_pack::{RuleMem, RuleNo};
use solv_trail::{Guide, Known, Remembering};
use solv_watch::Watches;
use std::alloc::{AllocError, Global};
use std::marker::Model;

/// The clause-learning core over clauses that are lent to it with their owners. Contracts see these and the number of packages, and what it has learnt and
/// still uses.
pub struct Core<'a> {
    alloc: Global,
    packages: u32,
    book: &'a RuleMem,
    owners: &'a [usize],
    parts: Parts,
}

impl Drop for Core<'_> {
    fn drop(self) {
        let Core {
            alloc: _,
            packages: _,
            book: _,
            owners: _,
            parts: _,
        } = self;
    }
}

impl<'a> Model for Core<'a> {
    ghost use Rattle.std.specs.Prelude.{◌≡◌, ◌≤◌, ◌+◌, ◌*◌, ◌^◌, true, length};
    ghost use Rattle.solv_watch.specs.Inner.Watching.{AreChained, AreHeads, AreNarrow};
    ghost use Rattle.solv_pool.specs.Prelude.{are_over};
    ghost use Rattle.solv_core.specs.Inner.Cores.{LearningCore};

    ghost Value = { LearningCore };

    ghost view = { λ c. record {
      made = record { clauses = c.book.now.rules; owners = c.owners.now; packages = c.packages };
      in_use = record { kept = c.parts.numbers.kept.items; first = c.parts.numbers.first; clauses = c.parts.learnt.rules };
    } };

    ghost invariant = { λ c. record {
      each : length c.owners.now ≡ length c.book.now.rules;
      few : length c.book.now.rules ≤ 2 ^ 27;
      over : are_over c.packages c.book.now.rules ≡ true;
      known : c.parts.known.count ≡ c.packages;
      marked : c.parts.search.marked.count ≡ c.packages;
      chained : AreChained c.packages c.book.now.rules c.parts.watches.book.heads.items c.parts.watches.book.links.items c.parts.watches.book.watched.items;
      narrow : AreNarrow c.book.now.rules c.parts.watches.narrow.items;
      heads : AreHeads c.packages c.parts.watches.learnt.heads.items c.parts.watches.learnt.watched.items;
    } };
}

/// Records a run in the ledger, and compacts the learnt rules that stay in use: those whose leaves are clauses of enabled rules. Room
/// for the run's record is found first.
fn begin(
    alloc: Global,
    parts: &mut Parts,
    used: &Used<'_>,
    ledger: &mut Ledger,
) -> Result<(), AllocError>
    requires each { length used.now.owners.now ≡ length used.now.book.now.rules }
    requires owners { list_all (λ o. nat_lt o (length used.now.enabled.now)) used.now.owners.now ≡ true }
    requires few { length ledger.old.entries ≤ 1000001 }
    requires held { IsHeldBy (core_of used.now parts.old) ledger.old }
    ensures budget { ledger.new.budget ≡ ledger.old.budget }
    ensures entries { ledger.new.entries ≡ ledger.old.entries }
    ensures begun { OnOk result (IsBegun used.now.book.now.rules used.now.owners.now parts.old.known.count used.now.enabled.now ledger.old.entries (run_of (core_of used.now parts.old) used.now.enabled.now ledger.old.entries).kept parts.new.numbers.kept.items parts.new.numbers.first parts.new.learnt.rules) }
    ensures added { OnOk result (ledger.new.runs ≡ ledger.old.runs ++ run_of (core_of used.now parts.old) used.now.enabled.now ledger.old.entries ∷ []) }
    ensures refused { OnErr result (ledger.new ≡ ledger.old) }
    ensures refused_numbers { OnErr result (parts.new.numbers ≡ parts.old.numbers) }
    ensures refused_learnt { OnErr result (parts.new.learnt ≡ parts.old.learnt) }
    ensures known { parts.new.known ≡ parts.old.known }
    ensures search { parts.new.search ≡ parts.old.search }
    ensures watches { parts.new.watches ≡ parts.old.watches }
{
    let count = parts.learnt.len();
    let flags = flags_of(alloc, &parts.numbers, used, ledger.entries.held(), count)?;
    let kept = kept_of(alloc, &parts.numbers, &flags)?;
    let enabled = Flags::from_slice(alloc, used.enabled)?;
    let noted = Vec::from_slice(alloc, &kept)?;
    ledger.runs.push(Run {
        enabled,
        kept: Items::wrap(noted),
    })?;
    parts.learnt.keep_only(&flags);
    parts.numbers = Numbers {
        kept,
        first: ledger.entries.len(),
    };
    Ok(())
}

/// A run that is recorded: its number in the ledger, and the clauses whose rules it probes at its end.
#[derive(Drop)]
struct Noted<'a> {
    run: usize,
    clauses: &'a [RuleNo],
}

/// A run that is recorded, over the parts of a core.
fn run_over<G: Guide + Remembering>(
    alloc: Global,
    parts: &mut Parts,
    used: &Used<'_>,
    packages: u32,
    guide: &G,
    ledger: &mut Ledger,
    noted: &Noted<'_>,
) -> Result<Probed, AllocError>
    requires count { packages ≡ parts.old.known.count }
    requires over { are_over parts.old.known.count used.now.book.now.rules ≡ true }
    requires each { length used.now.owners.now ≡ length used.now.book.now.rules }
    requires owners { list_all (λ o. nat_lt o (length used.now.enabled.now)) used.now.owners.now ≡ true }
    requires book { length used.now.book.now.rules ≤ 2 ^ 27 }
    requires marked { parts.old.search.marked.count ≡ parts.old.known.count }
    requires guide { G.is_for guide.now used.now.book.now.rules used.now.owners.now }
    requires packages { G.is_for_packages guide.now parts.old.known.count }
    requires chained { AreChained parts.old.known.count used.now.book.now.rules parts.old.watches.book.heads.items parts.old.watches.book.links.items parts.old.watches.book.watched.items }
    requires narrow { AreNarrow used.now.book.now.rules parts.old.watches.narrow.items }
    requires heads { AreHeads parts.old.known.count parts.old.watches.learnt.heads.items parts.old.watches.learnt.watched.items }
    requires begun { IsBegun used.now.book.now.rules used.now.owners.now parts.old.known.count used.now.enabled.now ledger.old.entries parts.old.numbers.kept.items parts.old.numbers.kept.items parts.old.numbers.first parts.old.learnt.rules }
    requires budget { ledger.old.budget ≤ 1000000 }
    requires unspent { length ledger.old.entries ≤ ledger.old.budget }
    ensures count { parts.new.known.count ≡ parts.old.known.count }
    ensures marked { parts.new.search.marked.count ≡ parts.old.search.marked.count }
    ensures budget { ledger.new.budget ≡ ledger.old.budget }
    ensures runs { ledger.new.runs ≡ ledger.old.runs }
    ensures few { length ledger.new.entries ≤ ledger.new.budget + 1 }
    ensures learnt { (new : List Entry) × HasLearnt used.now.book.now.rules parts.old.learnt.rules (in_use used.now.owners.now used.now.enabled.now) (λ facts. G.asks guide.now facts used.now.enabled.now) (entry_of parts.old.numbers.kept.items parts.old.numbers.first) parts.old.known.count noted.now.run ledger.old.entries ledger.new.entries parts.new.learnt.rules new }
    ensures numbers { parts.new.numbers ≡ parts.old.numbers }
    ensures answered { IsAnswered (core_of used.now parts.old).made (λ facts. G.asks guide.now facts used.now.enabled.now) used.now.enabled.now ledger.new (verdict_in result) }
    ensures probed { IfOk result (AreRefutedBeside used.now.book.now.rules used.now.owners.now parts.old.known.count used.now.enabled.now noted.now.clauses.now) }
    ensures chained { AreChained parts.old.known.count used.now.book.now.rules parts.new.watches.book.heads.items parts.new.watches.book.links.items parts.new.watches.book.watched.items }
    ensures narrow { AreNarrow used.now.book.now.rules parts.new.watches.narrow.items }
    ensures heads { AreHeads parts.old.known.count parts.new.watches.learnt.heads.items parts.new.watches.learnt.watched.items }
{
    parts.known.clear();
    parts.watches.learnt.hang_anew(&parts.learnt, packages)?;
    match settle(alloc, parts, used, guide, ledger, noted.run)? {
        Outcome::Spent => Ok(Probed::Spent),
        Outcome::Refuted => {
            let count = parts.learnt.len();
            let log = log_of(
                alloc,
                &parts.numbers,
                ledger.entries.held(),
                count,
                &parts.search.hints,
            )?;
            Ok(Probed::Unsat(log))
        }
        Outcome::Settled => {
            parts.known.keep_apart();
            let events = events_of(alloc, &parts.known)?;
            let refuted = refuted_at_end(alloc, parts, used, ledger.entries.held(), noted.clauses)?;
            let trail = Trail {
                events: Items::wrap(events),
            };
            Ok(Probed::Sat(trail, Items::wrap(refuted)))
        }
    }
}

impl<'a> Core<'a> {
    /// A core over these clauses, which are lent to it, the owner of each, and packages from 1 to `packages`.
    pub fn new(
        alloc: Global,
        memory: &'a RuleMem,
        owners: &'a [usize],
        packages: u32,
    ) -> Result<Core<'a>, AllocError>
        requires each { length owners.now ≡ length memory.now.rules }
        requires few { length memory.now.rules ≤ 2 ^ 27 }
        requires over { are_over packages memory.now.rules ≡ true }
        requires packages { packages ≤ 1048575 }
        ensures core { IfOk result (λ core. core ≡ record { made = record { clauses = memory.now.rules; owners = owners.now; packages = packages }; in_use = none_in_use }) }
        ensures held { IfOk result (λ core. (ledger : LedgerOf) → IsHeldBy core ledger) }
    {
        let watches = Watches::over(alloc, memory, packages)?;
        Ok(Core {
            alloc,
            packages,
            book: memory,
            owners,
            parts: Parts {
                known: Known::new(alloc, packages)?,
                search: Search::for_packages(alloc, packages)?,
                learnt: RuleMem::new(alloc),
                numbers: Numbers {
                    kept: Vec::new(alloc),
                    first: 0,
                },
                watches,
            },
        })
    }

    /// Searches for a set that satisfies every clause of an enabled rule: decides as the guide asks, propagates, and learns
    /// from conflicts. The ledger records this run and the clauses that it learnt.
    ///
    /// The ledger is the one of the runs before, as they left it, or core and ledger are new. Of the clauses learnt in those runs
    /// the core keeps those that rest on enabled rules alone.
    ///
    /// Where memory runs out, the core may be run again. Core and ledger are as before, or the ledger has this run, and what it learnt
    /// until then.
    pub fn run<G: Guide>(
        &mut self,
        enabled: &[bool],
        guide: &G,
        ledger: &mut Ledger,
    ) -> Result<Verdict, AllocError>
        requires enabled { list_all (λ o. nat_lt o (length enabled.now)) self.old.made.owners ≡ true }
        requires guide { G.is_for guide.now self.old.made.clauses self.old.made.owners }
        requires packages { G.is_for_packages guide.now self.old.made.packages }
        requires budget { ledger.old.budget ≤ 1000000 }
        requires few { length ledger.old.entries ≤ ledger.old.budget + 1 }
        requires held { IsHeldBy self.old ledger.old }
        ensures run { HasRunOnce (G.asks guide.now) enabled.now self.old self.new ledger.old ledger.new result }
    {
        self.run_remembering(enabled, &Forgetful { guide }, ledger)
    }

    /// As `run`, with a guide that remembers.
    pub fn run_remembering<G: Guide + Remembering>(
        &mut self,
        enabled: &[bool],
        guide: &G,
        ledger: &mut Ledger,
    ) -> Result<Verdict, AllocError>
        requires enabled { list_all (λ o. nat_lt o (length enabled.now)) self.old.made.owners ≡ true }
        requires guide { G.is_for guide.now self.old.made.clauses self.old.made.owners }
        requires packages { G.is_for_packages guide.now self.old.made.packages }
        requires budget { ledger.old.budget ≤ 1000000 }
        requires few { length ledger.old.entries ≤ ledger.old.budget + 1 }
        requires held { IsHeldBy self.old ledger.old }
        ensures run { HasRunOnce (G.asks guide.now) enabled.now self.old self.new ledger.old ledger.new result }
    {
        let probed = self.run_probing(enabled, guide, ledger, &[])?;
        Ok(probed.into_verdict())
    }

    /// As `run_remembering`, and where a set is found, some of the rules of these clauses are named, each with a derivation that the enabled
    /// ones refute it: those that are falsified once all decisions are undone, by learnt clauses as well. Nothing is reported of the
    /// others.
    pub fn run_probing<G: Guide + Remembering>(
        &mut self,
        enabled: &[bool],
        guide: &G,
        ledger: &mut Ledger,
        clauses: &[RuleNo],
    ) -> Result<Probed, AllocError>
        requires enabled { list_all (λ o. nat_lt o (length enabled.now)) self.old.made.owners ≡ true }
        requires guide { G.is_for guide.now self.old.made.clauses self.old.made.owners }
        requires packages { G.is_for_packages guide.now self.old.made.packages }
        requires budget { ledger.old.budget ≤ 1000000 }
        requires few { length ledger.old.entries ≤ ledger.old.budget + 1 }
        requires held { IsHeldBy self.old ledger.old }
        ensures run { HasRunOnce (G.asks guide.now) enabled.now self.old self.new ledger.old ledger.new (verdict_in result) }
        ensures probed { IfOk result (AreRefutedBeside self.old.made.clauses self.old.made.owners self.old.made.packages enabled.now clauses.now) }
    {
        let alloc = self.alloc;
        let run = ledger.runs.len();
        let used = Used {
            book: self.book,
            owners: self.owners,
            enabled,
        };
        begin(alloc, &mut self.parts, &used, ledger)?;
        if ledger.spent() {
            return Ok(Probed::Spent);
        }
        let noted = Noted { run, clauses };
        run_over(
            alloc,
            &mut self.parts,
            &used,
            self.packages,
            guide,
            ledger,
            &noted,
        )
    }

    /// Whether the set of the system and the packages that a table marks makes each clause of the enabled owners true. It is no run.
    pub fn is_met_by(&self, enabled: &[bool], inside: &[bool]) -> bool
        requires { list_all (λ o. nat_lt o (length enabled.now)) self.now.made.owners ≡ true }
        ensures { result ≡ all_true (set_by inside.now) (enabled_clauses enabled.now self.now.made.clauses self.now.made.owners) }
    {
        are_met(self.book, self.owners, enabled, inside)
    }

    /// Probes: propagates the clauses of enabled owners without a decision, and gives what they refute, each other or some of the
    /// owners of these clauses, each with a derivation. Nothing is reported of the others. It learns nothing, and no ledger records it.
    pub fn refuted_by(
        &mut self,
        enabled: &[bool],
        clauses: &[RuleNo],
    ) -> Result<Contradiction, AllocError>
        requires enabled { list_all (λ o. nat_lt o (length enabled.now)) self.old.made.owners ≡ true }
        ensures core { self.new ≡ self.old }
        ensures refuted { IfOk result (IsWhatRefutes self.old.made.clauses self.old.made.owners self.old.made.packages enabled.now clauses.now) }
    {
        let alloc = self.alloc;
        let used = Used {
            book: self.book,
            owners: self.owners,
            enabled,
        };
        refuted_over(alloc, &mut self.parts, &used, clauses)
    }
}
