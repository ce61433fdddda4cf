//! The first limit that the clauses of packages pass, found package by package before all rules are there.
ghost use Rattle.std.specs.Prelude.{◌≡◌, ◌<◌, ◌≤◌, [], length, map, nat_lt, true, None, OnOk, IfErr};
ghost use Rattle.std.specs.List.{list_all};
ghost use Rattle.solv_pool.specs.Prelude.{IsOver, catalog_of, package_rules, rule_with};
ghost use Rattle.solv_pool.specs.Inner.HardRules.{rules_of_package};
ghost use Rattle.solv_prov.specs.Index.{IsIndexOf};
ghost use Rattle.solv_rules.specs.Books.{first_fault, is_bookable, IsDue};
ghost use Rattle.solv_rules.specs.Inner.Drafting.{IsCounted, Weighs};
ghost use Rattle.solv_rules.specs.Inner.Making.{IsReady};

use crate::books::hard_rules_are_bookable;
use crate::dependencies::Scratch;
use crate::drafts::{Draft, MOST_WORDS, let_go};
use crate::each_package::add_package;
use crate::fault::BookFault;
use crate::making_book::add_rule;
use solv_list::Items;
use solv_pool::{DepId, Marks, PackNo, Rule, Task};
use solv_prov::Providers;
use std::alloc::Global;

/// The words of a clause of two literals.
const WORDS_OF_PAIR: u64 = 6;

/// How many packages meet dependencies, each as often as it meets one.
fn meeting(prov: &Providers, deps: &[DepId]) -> u64
    requires { list_all (λ d. nat_lt d (length prov.now.providers)) deps.now ≡ true }
{
    let mut pairs: u64 = 0;
    for dep in deps {
        pairs = pairs.saturating_add(prov.of(*dep).len() as u64);
    }
    pairs
}

/// How many packages relations cover, each as often as one covers it.
fn covered(prov: &Providers, deps: &[DepId]) -> u64
    requires { list_all (λ d. nat_lt d (length prov.now.named)) deps.now ≡ true }
{
    let mut pairs: u64 = 0;
    for dep in deps {
        pairs = pairs.saturating_add(prov.named(*dep).len() as u64);
    }
    pairs
}

/// At most the pairs that a package's namesakes, conflicts and obsoletions make.
fn pairs_of(task: &Task, prov: &Providers, pack: PackNo) -> u64
    requires over { IsOver task.now.pool task.now.universe }
    requires index { IsIndexOf prov.now (catalog_of task.now) }
    requires a_package { 0 < pack }
    requires held { pack ≤ length task.now.universe.packages }
{
    let held = task.universe.package(pack);
    let namesakes = prov.of_name(held.name()).len() as u64;
    let conflicting = meeting(prov, held.conflicts());
    let obsoleted = covered(prov, held.obsoletes());
    namesakes
        .saturating_add(conflicting)
        .saturating_add(obsoleted)
}

/// Whether the clauses of the pairs of all packages may pass the limit.
fn may_pass(task: &Task, prov: &Providers) -> bool
    requires over { IsOver task.now.pool task.now.universe }
    requires index { IsIndexOf prov.now (catalog_of task.now) }
{
    let count = task.universe.count();
    let mut pairs: u64 = 0;
    for before in 0..count {
        pairs = pairs.saturating_add(pairs_of(task, prov, PackNo(before + 1)));
        if pairs > MOST_WORDS / WORDS_OF_PAIR {
            return true;
        }
    }
    false
}

/// Counts the words of the clauses of rules, which carry no set.
fn weigh_rules(
    task: &Task,
    prov: &Providers,
    list: &[Rule],
    draft: &mut Draft,
    scratch: &mut Scratch,
) -> Result<(), BookFault>
    requires index { IsIndexOf prov.now (catalog_of task.now) }
    requires draft { IsCounted draft.old }
    requires bookable { list_all (is_bookable (catalog_of task.now)) (map (rule_with []) list.now) ≡ true }
    ensures { Weighs (catalog_of task.now) (map (rule_with []) list.now) result draft.old draft.new }
{
    for rule in list {
        match add_rule(task, prov, &[], draft, scratch, 0, rule) {
            Ok(()) => {}
            Err(fault) => return Err(fault),
        }
    }
    Ok(())
}

/// Counts the words of the clauses of a package's rules, and keeps none of them.
fn weigh_package(
    alloc: Global,
    task: &Task,
    prov: &Providers,
    marks: &Marks,
    pack: PackNo,
    draft: &mut Draft,
    scratch: &mut Scratch,
) -> Result<(), BookFault>
    requires ready { IsReady task.now prov.now marks.now }
    requires a_package { 0 < pack }
    requires held { pack ≤ length task.now.universe.packages }
    requires draft { IsCounted draft.old }
    requires bookable { list_all (is_bookable (catalog_of task.now)) (rules_of_package (catalog_of task.now) marks.now pack) ≡ true }
    ensures { Weighs (catalog_of task.now) (rules_of_package (catalog_of task.now) marks.now pack) result draft.old draft.new }
{
    let mut list = Items::wrap(Vec::new(alloc));
    match add_package(task, prov, marks, pack, &mut list) {
        Ok(()) => {}
        Err(_) => return Err(BookFault::Memory),
    }
    match weigh_rules(task, prov, list.held(), draft, scratch) {
        Ok(()) => {}
        Err(fault) => return Err(fault),
    }
    let_go(draft);
    Ok(())
}

/// The first limit that the clauses of packages pass. It takes the memory of one package's rules and clauses.
#[inline(never)]
fn weigh_all(alloc: Global, task: &Task, prov: &Providers, marks: &Marks) -> Result<(), BookFault>
    requires { IsReady task.now prov.now marks.now }
    ensures fits { OnOk result (first_fault (catalog_of task.now) 0 (package_rules (catalog_of task.now) marks.now) ≡ None) }
    ensures fault { IfErr result (IsDue (first_fault (catalog_of task.now) 0 (package_rules (catalog_of task.now) marks.now))) }
{
    hard_rules_are_bookable();
    let mut draft = Draft::empty(alloc);
    let mut scratch = Scratch::empty(alloc);
    let count = task.universe.count();
    for before in 0..count {
        match weigh_package(
            alloc,
            task,
            prov,
            marks,
            PackNo(before + 1),
            &mut draft,
            &mut scratch,
        ) {
            Ok(()) => {}
            Err(fault) => return Err(fault),
        }
    }
    Ok(())
}

/// The first limit that the clauses of packages pass, before their rules are listed: where so many packages conflict, are obsolete or
/// have one name that the clauses of these pairs alone may pass it. Else nothing is looked at, and a book's maker finds the limit. It takes
/// the memory of one package's rules and clauses.
pub fn weigh_packages(
    alloc: Global,
    task: &Task,
    prov: &Providers,
    marks: &Marks,
) -> Result<(), BookFault>
    requires { IsReady task.now prov.now marks.now }
    ensures { IfErr result (IsDue (first_fault (catalog_of task.now) 0 (package_rules (catalog_of task.now) marks.now))) }
{
    if may_pass(task, prov) {
        weigh_all(alloc, task, prov, marks)
    } else {
        Ok(())
    }
}
