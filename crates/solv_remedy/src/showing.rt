//! Sets that may show that a rule of a conflict is needed, so that no run has to.
ghost use Rattle.std.specs.Prelude.{◌≡◌, ◌<◌, ◌==◌, ◌&&◌, ◌||◌, ℕ, Bool, Vec, not, true, length, IfOk, OnOk};
ghost use Rattle.std.specs.List.{list_all};
ghost use Rattle.std.specs.declared.alloc.Global.{Global as Anywhere};
ghost use Rattle.solv_pool.specs.Prelude.{is_among, is_fact, is_over};
ghost use Rattle.solv_trail.specs.Asked.{is_enabled, set_of as set_of_known};
ghost use Rattle.solv_core.specs.GoodTrails.{facts_of};
ghost use Rattle.solv_core.specs.Inner.Cores.{LearningCore};
ghost use Rattle.solv_core.specs.Inner.Meeting.{set_by};
ghost use Rattle.solv_questions.specs.Questions.{Request};
ghost use Rattle.solv_remedy.specs.Inner.Runs.{IsOf};
ghost use Rattle.solv_remedy.specs.Inner.Showing.{AreGoodSets, HasGoodSet};
ghost use Rattle.solv_remedy.specs.Inner.Trying.{IsNeeded, MeetsOn};

use crate::setting::Setting;
use crate::smallest::switch_on;
use solv_core::{Core, Trail, is_met};
use solv_decide::{is_met_by, set_of};
use solv_pack::RuleNo;
use solv_pool::{PackNo, Rule};
use solv_rules::Book;
use std::alloc::{AllocError, Global};

/// How many sets are kept: that of what is installed, and those of the last runs.
const MOST: usize = 5;

/// Sets as tables of packages, in the order in which they came. Each of them meets the fixed rules.
#[derive(Drop)]
pub struct Sets {
    tables: Vec<Vec<bool>>,
}

/// Marks a package, if there is room for it.
fn mark(table: &mut [bool], pack: u32) {
    if (pack as usize) < table.len() {
        table[pack as usize] = true;
    }
}

/// The installed package that a rule holds, if it holds one.
fn held_by(rule: &Rule) -> Option<PackNo> {
    match *rule {
        Rule::Update(pack, _) | Rule::Dup(pack, _) | Rule::Feature(pack, _) => Some(pack),
        _ => None,
    }
}

/// What is installed and held by rules, as a table of so many packages.
fn installed(alloc: Global, rules: &[Rule], count: u32) -> Result<Vec<bool>, AllocError> {
    let mut table = vec![in alloc; false; count as usize + 1]?;
    for rule in rules {
        if let Some(pack) = held_by(rule) {
            mark(table.as_mut_slice(), pack.0);
        }
    }
    Ok(table)
}

/// Marks packages, those for which there is room.
fn mark_each(table: &mut [bool], packs: &[PackNo])
    ensures size { length table.new ≡ length table.old }
    ensures on { (p : ℕ) → p < length table.old → is_enabled table.new p ≡ (is_enabled table.old p || is_among packs.now p) }
{
    for pack in packs {
        let place = pack.0 as usize;
        if place < table.len() {
            table[place] = true;
        }
    }
}

/// These packages as a table of so many entries.
fn table_of(alloc: Global, count: usize, packs: &[PackNo]) -> Result<Vec<bool>, AllocError>
    ensures size { IfOk result (λ table. length table.items ≡ count) }
    ensures on { IfOk result (λ table. (p : ℕ) → p < count → is_enabled table.items p ≡ is_among packs.now p) }
{
    let mut table = vec![in alloc; false; count]?;
    mark_each(table.as_mut_slice(), packs);
    Ok(table)
}

/// What a trail has in, as a table of so many packages.
fn inside(alloc: Global, trail: &Trail, count: u32) -> Result<Vec<bool>, AllocError>
    ensures { IfOk result (λ table. is_over count (facts_of trail.now.events) ≡ true → (p : ℕ) → set_by table.items p ≡ set_of_known (is_fact (facts_of trail.now.events)) p) }
{
    let packs = set_of(alloc, trail)?;
    let table = table_of(alloc, count as usize + 1, &packs)?;
    Ok(table)
}

/// Whether a set makes the clauses of a rule true.
fn meets(book: &Book, table: &[bool], rule: usize) -> bool {
    if rule >= book.rules().list.len() {
        return false;
    }
    let memory = book.memory();
    let (first, count) = book.clauses_of(rule);
    for clause in first..first.saturating_add(count) {
        if clause < memory.len() && !is_met(table, memory.lits(RuleNo(clause as u32))) {
            return false;
        }
    }
    true
}

/// Whether it does for each of some rules but one.
fn meets_others(book: &Book, table: &[bool], rules: &[usize], off: usize) -> bool {
    for rule in rules {
        if *rule != off && !meets(book, table, *rule) {
            return false;
        }
    }
    true
}

/// Of so many rules these are enabled, but for one.
fn others_of(
    alloc: Global,
    count: usize,
    rules: &[usize],
    off: usize,
) -> Result<Vec<bool>, AllocError>
    ensures size { IfOk result (λ others. length others.items ≡ count) }
    ensures on { IfOk result (λ others. (k : ℕ) → k < count → is_enabled others.items k ≡ (is_among rules.now k && not (k == off))) }
{
    let mut others = vec![in alloc; false; count]?;
    switch_on(others.as_mut_slice(), rules);
    if off < others.len() {
        others[off] = false;
    }
    Ok(others)
}

/// Those of some rules whose clauses a set makes true.
fn met_among(
    alloc: Global,
    book: &Book,
    table: &[bool],
    rules: &[usize],
) -> Result<Vec<usize>, AllocError>
    ensures { (p : ℕ → Bool) → list_all p rules.now ≡ true → IfOk result (λ met. list_all p met.items ≡ true) }
{
    let mut met = Vec::new(alloc);
    for rule in rules {
        if meets(book, table, *rule) {
            met.push(*rule)?;
        }
    }
    Ok(met)
}

/// Of so many rules these are enabled.
pub fn only(alloc: Global, count: usize, rules: &[usize]) -> Result<Vec<bool>, AllocError>
    ensures size { IfOk result (λ enabled. length enabled.items ≡ count) }
    ensures on { IfOk result (λ enabled. (k : ℕ) → k < count → is_enabled enabled.items k ≡ is_among rules.now k) }
{
    let mut enabled = vec![in alloc; false; count]?;
    switch_on(enabled.as_mut_slice(), rules);
    Ok(enabled)
}

/// Those of some rules that the set of a trail meets.
pub fn met_by(
    setting: &Setting<'_>,
    core: &Core<'_>,
    rules: &[usize],
    trail: &Trail,
) -> Result<Vec<usize>, AllocError>
    requires { (r : Request) × IsOf r setting.now core.now.made }
    ensures among { (p : ℕ → Bool) → list_all p rules.now ≡ true → IfOk result (λ met. list_all p met.items ≡ true) }
    ensures met { (r : Request) → IsOf r setting.now core.now.made → is_over setting.now.phases.now.packages (facts_of trail.now.events) ≡ true → IfOk result (λ met. MeetsOn r (is_among met.items) (set_of_known (is_fact (facts_of trail.now.events)))) }
{
    let table = inside(setting.alloc, trail, setting.phases.packages())?;
    let met = met_among(setting.alloc, setting.book, &table, rules)?;
    let enabled = only(setting.alloc, setting.fixed.len(), &met)?;
    if !is_met_by(core, &enabled, &table) {
        return Ok(Vec::new(setting.alloc));
    }
    Ok(met)
}

impl Sets {
    /// Leaves an older set out, where there are many.
    fn make_room(&mut self)
        ensures { (test : Vec Bool Anywhere → Bool) → list_all test self.old.tables.items ≡ true → list_all test self.new.tables.items ≡ true }
    {
        if self.tables.len() < MOST {
            return;
        }
        let _ = self.tables.remove(1);
    }

    /// Keeps a set, in the place of an older one where there are many.
    fn put(&mut self, table: Vec<bool>) -> Result<(), AllocError>
        ensures { (test : Vec Bool Anywhere → Bool) → list_all test self.old.tables.items ≡ true → test table ≡ true → OnOk result (list_all test self.new.tables.items ≡ true) }
    {
        self.make_room();
        self.tables.push(table)?;
        Ok(())
    }

    /// What is installed, where it meets the fixed rules.
    pub fn installed(setting: &Setting<'_>, core: &Core<'_>) -> Result<Sets, AllocError>
        requires { (r : Request) × IsOf r setting.now core.now.made }
        ensures { IfOk result (AreGoodSets setting.now core.now) }
    {
        let count = setting.phases.packages();
        let table = installed(setting.alloc, setting.book.rules().list.held(), count)?;
        let mut sets = Sets {
            tables: Vec::new(setting.alloc),
        };
        if !is_met_by(core, setting.fixed, &table) {
            return Ok(sets);
        }
        sets.put(table)?;
        Ok(sets)
    }

    /// Keeps the set of a run.
    pub fn note(&mut self, setting: &Setting<'_>, trail: &Trail) -> Result<(), AllocError>
        ensures { (core : LearningCore) → HasGoodSet setting.now core trail.now → AreGoodSets setting.now core self.old → OnOk result (AreGoodSets setting.now core self.new) }
    {
        let count = setting.phases.packages();
        let table = inside(setting.alloc, trail, count)?;
        self.put(table)
    }

    /// Whether one of the sets shows that this one of some rules is needed: it meets the others, beside the fixed rules.
    pub fn show(
        &self,
        setting: &Setting<'_>,
        core: &Core<'_>,
        rules: &[usize],
        off: usize,
    ) -> Result<bool, AllocError>
        requires of_ { (r : Request) × IsOf r setting.now core.now.made }
        requires good { AreGoodSets setting.now core.now self.now }
        ensures { IfOk result (λ shown. shown ≡ true → (r : Request) → IsOf r setting.now core.now.made → IsNeeded r rules.now off) }
    {
        let others = others_of(setting.alloc, setting.fixed.len(), rules, off)?;
        for table in &self.tables {
            if meets_others(setting.book, table, rules, off) && is_met_by(core, &others, table) {
                return Ok(true);
            }
        }
        Ok(false)
    }
}
