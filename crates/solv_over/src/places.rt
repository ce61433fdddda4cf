//! Where the rules that are made, and their clauses, stand among all hard rules.
ghost use Rattle.std.specs.Prelude.{◌≡◌, ◌≤◌, ◌<◌, ◌+◌, suc, true, false, length, map, nat_lt, slice_get, Some, None, IfOk};
ghost use Rattle.std.specs.List.{list_all};
ghost use Rattle.std.specs.Option.{option_map_or};
ghost use Rattle.solv_pool.specs.Prelude.{Catalog, catalog_of, hard_rules_by, is_among, marked, marks_of, members, IsClosed};
ghost use Rattle.solv_prov.specs.Index.{IsIndexOf};
ghost use Rattle.solv_rules.specs.Books.{IsBook, read_rules};
ghost use Rattle.solv_leaving.specs.Inner.Leaving.{leaving, LeavesOut};
ghost use Rattle.solv_over.specs.Inner.Places.{ArePlaces, clause_place, rule_place, with_clauses};
ghost use Rattle.solv_over.specs.Inner.Sums.{are_others, gives_clause, needed_clauses, stage, stage_at, sum_at, sums_from, unmade_before, unmade_clauses, unmade_rules, IsAscending, AreAscending};

use solv_pack::RuleNo;
use solv_pool::{Need, PackNo, Rule, Task};
use solv_prov::Providers;
use solv_rules::Book;
use std::alloc::{AllocError, Global};
use std::marker::Model;

/// The places of the rules of a book that leaves out what some packages require, and of its clauses, among all hard rules of the task. Contracts see what tells them.
pub struct Places<'a> {
    rules: &'a [Rule],
    owners: &'a [usize],
    count: u32,
    more: usize,
    rules_before: Vec<usize>,
    clauses_before: Vec<usize>,
}

impl Drop for Places<'_> {
    fn drop(self) {
        let Places {
            rules: _,
            owners: _,
            count: _,
            more: _,
            rules_before: _,
            clauses_before: _,
        } = self;
    }
}

impl<'a> Model for Places<'a> {
    ghost use Rattle.solv_over.specs.Inner.Places.{PlacesOf};

    ghost Value = { PlacesOf };

    ghost view = { λ p. record { rules = p.rules.now; owners = p.owners.now; count = p.count; rules_before = p.rules_before.items; clauses_before = p.clauses_before.items; more = p.more } };
}

/// The sum of two numbers. One that does not fit would find no memory.
fn added(first: usize, second: usize) -> Result<usize, AllocError>
    ensures { IfOk result (λ sum. sum ≡ first + second) }
{
    match first.checked_add(second) {
        Some(sum) => Ok(sum),
        None => Err(AllocError),
    }
}

/// The number of a clause. One that does not fit would find no memory.
fn numbered(place: usize) -> Result<RuleNo, AllocError>
    ensures { IfOk result (λ number. number ≡ place) }
{
    match u32::try_from(place) {
        Ok(number) => Ok(RuleNo(number)),
        Err(_) => Err(AllocError),
    }
}

/// Whether a package is among ascending ones.
fn is_among(packs: &[PackNo], pack: PackNo) -> bool
    requires { IsAscending packs.now }
    ensures { result ≡ is_among packs.now pack }
{
    match packs.binary_search(&pack) {
        Ok(_) => true,
        Err(_) => false,
    }
}

/// Whether neither the system nor this package is among ascending ones.
fn are_others(pack: PackNo, packs: &[PackNo]) -> bool
    requires { IsAscending packs.now }
    ensures { result ≡ are_others pack packs.now }
{
    if is_among(packs, PackNo(0)) {
        return false;
    }
    !is_among(packs, pack)
}

/// Whether packages meet a relation alone, but neither the system nor this package does.
fn gives_clause(prov: &Providers, pack: PackNo, need: Need) -> bool
    requires held { need.dep < length prov.now.providers }
    requires ascending { AreAscending prov.now.providers }
    ensures { (catalog : Catalog) → IsIndexOf prov.now catalog → result ≡ gives_clause catalog pack need.dep }
{
    are_others(pack, prov.of(need.dep))
}

/// How many clauses these requirements of a package give, which packages meet alone.
fn needed_clauses(prov: &Providers, pack: PackNo, needs: &[Need]) -> usize
    requires held { list_all (λ need. nat_lt need.dep (length prov.now.providers)) needs.now ≡ true }
    requires ascending { AreAscending prov.now.providers }
    ensures { (catalog : Catalog) → IsIndexOf prov.now catalog → result ≡ needed_clauses catalog pack needs.now }
{
    let mut clauses = 0;
    for need in needs {
        if gives_clause(prov, pack, *need) {
            clauses += 1;
        }
    }
    clauses
}

/// Whether a package is left out.
fn is_left_out(left: &[bool], pack: PackNo) -> bool
    ensures { result ≡ marked left.now pack }
{
    match left.get(pack.0 as usize) {
        Some(out) => *out,
        None => false,
    }
}

/// How many rules of a package are not made.
fn unmade_rules(task: &Task, left: &[bool], pack: PackNo) -> usize
    requires a_package { 0 < pack }
    requires there { pack ≤ length task.now.universe.packages }
    ensures { result ≡ unmade_rules (catalog_of task.now) left.now pack }
{
    if is_left_out(left, pack) {
        return task.universe.package(pack).requires_().len();
    }
    0
}

/// How many clauses they have.
fn unmade_clauses(task: &Task, prov: &Providers, left: &[bool], pack: PackNo) -> usize
    requires closed { IsClosed task.now }
    requires index { IsIndexOf prov.now (catalog_of task.now) }
    requires a_package { 0 < pack }
    requires there { pack ≤ length task.now.universe.packages }
    ensures { result ≡ unmade_clauses (catalog_of task.now) left.now pack }
{
    if is_left_out(left, pack) {
        return needed_clauses(prov, pack, task.universe.package(pack).requires_());
    }
    0
}

/// How many rules of each package are not made, the system first.
fn rules_each(alloc: Global, task: &Task, left: &[bool]) -> Result<Vec<usize>, AllocError>
    ensures { IfOk result (λ each. each.items ≡ map (unmade_rules (catalog_of task.now) left.now) (members (catalog_of task.now))) }
{
    let mut each = Vec::new(alloc);
    each.push(0)?;
    for before in 0..task.universe.count() {
        each.push(unmade_rules(task, left, PackNo(before + 1)))?;
    }
    Ok(each)
}

/// How many clauses these have, the system first.
fn clauses_each(
    alloc: Global,
    task: &Task,
    prov: &Providers,
    left: &[bool],
) -> Result<Vec<usize>, AllocError>
    requires closed { IsClosed task.now }
    requires index { IsIndexOf prov.now (catalog_of task.now) }
    ensures { IfOk result (λ each. each.items ≡ map (unmade_clauses (catalog_of task.now) left.now) (members (catalog_of task.now))) }
{
    let mut each = Vec::new(alloc);
    each.push(0)?;
    for before in 0..task.universe.count() {
        each.push(unmade_clauses(task, prov, left, PackNo(before + 1)))?;
    }
    Ok(each)
}

/// The sums of the first so many numbers, from none to all.
fn sums(alloc: Global, numbers: &[usize]) -> Result<Vec<usize>, AllocError>
    ensures { IfOk result (λ sums. sums.items ≡ sums_from 0 numbers.now) }
{
    let mut sums = Vec::new(alloc);
    let mut sum = 0;
    for number in numbers {
        sums.push(sum)?;
        sum = added(sum, *number)?;
    }
    sums.push(sum)?;
    Ok(sums)
}

/// How many packages, the system one of them, have what is not made before a rule.
fn stage(count: u32, rule: &Rule) -> usize
    ensures { result ≡ stage count rule.now }
{
    match *rule {
        Rule::NotInstallable(pack) => pack.0 as usize,
        Rule::Req(pack, _)
        | Rule::Con(pack, _, _)
        | Rule::RichCon(pack, _)
        | Rule::Obs(pack, _, _)
        | Rule::Same(pack, _) => pack.0 as usize + 1,
        Rule::Infarch(_)
        | Rule::Update(_, _)
        | Rule::Dup(_, _)
        | Rule::Feature(_, _)
        | Rule::Install(_, _)
        | Rule::Erase(_, _)
        | Rule::Lock(_, _)
        | Rule::BestJob(_, _)
        | Rule::BestUpdate(_, _, _) => count as usize + 1,
    }
}

/// So many before the rule of a number. All come before what stands behind the last.
fn stage_at(rules: &[Rule], count: u32, number: usize) -> usize
    ensures { result ≡ stage_at rules.now count number }
{
    match rules.get(number) {
        Some(rule) => stage(count, rule),
        None => count as usize + 1,
    }
}

/// So many before the rule that owns a clause.
fn owner_stage(rules: &[Rule], owners: &[usize], count: u32, number: usize) -> usize
    ensures { result ≡ option_map_or (stage_at rules.now count) (slice_get owners.now number) (suc count) }
{
    match owners.get(number) {
        Some(owner) => stage_at(rules, count, *owner),
        None => count as usize + 1,
    }
}

/// The number at a place of a table.
fn sum_at(table: &[usize], place: usize) -> usize
    ensures { result ≡ sum_at table.now place }
{
    match table.get(place) {
        Some(sum) => *sum,
        None => 0,
    }
}

/// The sums of how many clauses of each package are not made. Nothing where they are not to be told.
fn clause_table(
    alloc: Global,
    task: &Task,
    prov: &Providers,
    left: &[bool],
    tells: bool,
) -> Result<Vec<usize>, AllocError>
    requires closed { IsClosed task.now }
    requires index { IsIndexOf prov.now (catalog_of task.now) }
    ensures { tells ≡ true → IfOk result (λ table. table.items ≡ unmade_before (catalog_of task.now) left.now) }
{
    if tells {
        sums(alloc, &clauses_each(alloc, task, prov, left)?)
    } else {
        Ok(Vec::new(alloc))
    }
}

impl<'a> Places<'a> {
    /// The places of the rules of a book that leaves out what these packages require, and, where `tells` is set, of its clauses. Without these no requirement is
    /// looked at.
    pub fn of(
        alloc: Global,
        task: &Task,
        prov: &Providers,
        left: &[bool],
        book: &'a Book,
        tells: bool,
    ) -> Result<Places<'a>, AllocError>
        requires closed { IsClosed task.now }
        requires index { IsIndexOf prov.now (catalog_of task.now) }
        requires out { LeavesOut (catalog_of task.now) task.now.flags task.now.jobs (marks_of task.now) left.now }
        requires book { IsBook (catalog_of task.now) book.now }
        requires rules { read_rules book.now.rules ≡ hard_rules_by (catalog_of task.now) task.now.flags task.now.jobs (leaving (marks_of task.now) left.now) }
        ensures told { tells ≡ true → IfOk result (ArePlaces task.now left.now) }
        ensures rules { IfOk result (λ places. ArePlaces task.now left.now (with_clauses (unmade_before (catalog_of task.now) left.now) places)) }
    {
        let rules_before = sums(alloc, &rules_each(alloc, task, left)?)?;
        let clauses_before = clause_table(alloc, task, prov, left, tells)?;
        let count = task.universe.count();
        Ok(Places {
            rules: book.rules().list.held(),
            owners: book.owners(),
            count,
            more: sum_at(&rules_before, count as usize + 1),
            rules_before,
            clauses_before,
        })
    }

    /// The place of a rule among all.
    pub(crate) fn rule(&self, number: usize) -> Result<usize, AllocError>
        ensures { IfOk result (λ k. k ≡ rule_place self.now number) }
    {
        added(
            number,
            sum_at(&self.rules_before, stage_at(self.rules, self.count, number)),
        )
    }

    /// The place of a clause among those of all.
    pub(crate) fn clause(&self, number: RuleNo) -> Result<RuleNo, AllocError>
        ensures { IfOk result (λ k. k ≡ clause_place self.now number) }
    {
        let place = number.0 as usize;
        let stage = owner_stage(self.rules, self.owners, self.count, place);
        numbered(added(place, sum_at(&self.clauses_before, stage))?)
    }

    /// How many rules are not made.
    pub fn more(&self) -> usize
        ensures { result ≡ self.now.more }
    {
        self.more
    }
}
