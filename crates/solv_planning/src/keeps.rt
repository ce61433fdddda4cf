//! What is asked of installed packages.
ghost use Rattle.std.specs.Prelude.{ℕ, List, ◌≡◌, ◌∷◌, [], ◌++◌, ◌+◌, ◌<◌, true, false, length, map, filter, not, nat_le, ◌≤◌, IfOk, OnOk};
ghost use Rattle.std.specs.BTreeSet.{contains};
ghost use Rattle.std.specs.List.{list_all, range_with_len};
ghost use Rattle.std.specs.Ordering.{nat_cmp};
ghost use Rattle.solv_pool.specs.Prelude.{catalog_of, is_installed, successors, is_to_move, rule_with, update, dup, feature, best_update, is_pack, when, is_among};
ghost use Rattle.solv_rules.specs.Books.{read_rules};
ghost use Rattle.solv_questions.specs.Questions.{Request, request_of, far_candidates};
ghost use Rattle.solv_questions.specs.Inner.Questions.{without_those, close_candidates};
ghost use Rattle.solv_plan.specs.Inner.PlanOf.{numbered, keeps_of};
ghost use Rattle.solv_jobs.specs.Marking.{HasMarks};
ghost use Rattle.solv_policy.specs.Inner.Candidates.{IsPlace};
ghost use Rattle.solv_planning.specs.Inner.Filling.{filled, entered};
ghost use Rattle.solv_planning.specs.Inner.Readiness.{asks_for_packages};
ghost use Rattle.solv_planning.specs.Inner.Rows.{no_rules, add_to_pack, keep_with, is_marked, is_other};

use crate::appending::append;
use crate::demands::{demand, set_at};
use crate::ordering::in_order;
use solv_jobs::is_to_move;
use solv_list::Items;
use solv_plan::{Demand, Keep};
use solv_policy::Asked;
use solv_pool::{JobNo, PackNo, Rule, Rules, Task};
use solv_trail::Question;
use solv_updates::{Ready, feature_candidates, successors};
use std::alloc::{AllocError, Global};
use std::collections::BTreeSet;

/// The rules on a package: what they ask for as its best updates, and the numbers of those that hold it to its successors, and of those
/// on what may take its place were every change allowed.
#[derive(Drop)]
pub(crate) struct PackRules {
    pub(crate) pack: PackNo,
    pub(crate) best: Items<Demand>,
    pub(crate) updates: Items<usize>,
    pub(crate) features: Items<usize>,
}

/// Appends a demand of one of the best updates.
fn push_best(row: &mut PackRules, demand: Demand) -> Result<(), AllocError>
    ensures { OnOk result (row.new ≡ record { pack = row.old.pack; best = row.old.best ++ demand ∷ []; updates = row.old.updates; features = row.old.features }) }
{
    row.best.push(demand)
}

/// Appends the number of a rule that holds it to its successors.
fn push_update(row: &mut PackRules, rule: usize) -> Result<(), AllocError>
    ensures { OnOk result (row.new ≡ record { pack = row.old.pack; best = row.old.best; updates = row.old.updates ++ rule ∷ []; features = row.old.features }) }
{
    row.updates.push(rule)
}

/// Appends the number of a rule on what may take its place were every change allowed.
fn push_feature(row: &mut PackRules, rule: usize) -> Result<(), AllocError>
    ensures { OnOk result (row.new ≡ record { pack = row.old.pack; best = row.old.best; updates = row.old.updates; features = row.old.features ++ rule ∷ [] }) }
{
    row.features.push(rule)
}

/// Adds a rule that a job is to have the best update of a package to the table of packages.
fn enter_best(
    alloc: Global,
    ready: &Ready<'_>,
    number: usize,
    job: JobNo,
    pack: PackNo,
    packs: &[PackNo],
    table: &mut [PackRules],
) -> Result<(), AllocError>
    requires within { list_all (is_pack (length ready.now.task.now.universe.packages)) packs.now ≡ true }
    ensures { OnOk result (table.new ≡ entered (add_to_pack (request_of ready.now.task.now ready.now.marks.now)) 0 (number, best_update job pack packs.now) table.old) }
{
    if pack.0 as usize >= table.len() {
        return Ok(());
    }
    let question = Question::BestUpdate(job, pack);
    let asked = demand(alloc, ready, number, question, packs)?;
    push_best(&mut table[pack.0 as usize], asked)
}

/// Adds the number of a rule that holds a package to its successors to the table of packages.
fn enter_update(number: usize, pack: PackNo, table: &mut [PackRules]) -> Result<(), AllocError>
    ensures update { (r : Request) (xs : List ℕ) → OnOk result (table.new ≡ entered (add_to_pack r) 0 (number, update pack xs) table.old) }
    ensures dup { (r : Request) (xs : List ℕ) → OnOk result (table.new ≡ entered (add_to_pack r) 0 (number, dup pack xs) table.old) }
{
    if pack.0 as usize >= table.len() {
        return Ok(());
    }
    push_update(&mut table[pack.0 as usize], number)
}

/// Adds the number of a rule on what may take a package's place, were every change allowed, to the table of packages.
fn enter_feature(number: usize, pack: PackNo, table: &mut [PackRules]) -> Result<(), AllocError>
    ensures { (r : Request) (xs : List ℕ) → OnOk result (table.new ≡ entered (add_to_pack r) 0 (number, feature pack xs) table.old) }
{
    if pack.0 as usize >= table.len() {
        return Ok(());
    }
    push_feature(&mut table[pack.0 as usize], number)
}

/// Adds a rule to the table of packages.
fn enter(
    alloc: Global,
    ready: &Ready<'_>,
    sets: &[Items<PackNo>],
    number: usize,
    rule: &Rule,
    table: &mut [PackRules],
) -> Result<(), AllocError>
    requires packages { asks_for_packages (length ready.now.task.now.universe.packages) (rule_with sets.now rule.now) ≡ true }
    ensures { OnOk result (table.new ≡ entered (add_to_pack (request_of ready.now.task.now ready.now.marks.now)) 0 (number, rule_with sets.now rule.now) table.old) }
{
    match *rule {
        Rule::Update(pack, _) | Rule::Dup(pack, _) => enter_update(number, pack, table),
        Rule::Feature(pack, _) => enter_feature(number, pack, table),
        Rule::BestUpdate(job, pack, set) => {
            let packs = set_at(sets, set);
            enter_best(alloc, ready, number, job, pack, packs, table)
        }
        _ => Ok(()),
    }
}

/// A package of which no rule is known.
fn no_rules(alloc: Global, pack: PackNo) -> PackRules
    ensures { result ≡ no_rules pack }
{
    PackRules {
        pack,
        best: Items::wrap(Vec::new(alloc)),
        updates: Items::wrap(Vec::new(alloc)),
        features: Items::wrap(Vec::new(alloc)),
    }
}

/// The number of the last installed package; 0, where none is.
fn last_installed(task: &Task) -> u32
    ensures within { result ≤ length task.now.universe.packages }
    ensures last { (p : ℕ) → result < p → p ≤ length task.now.universe.packages → is_installed (catalog_of task.now) p ≡ false }
{
    let mut last = task.universe.count();
    while last > 0 && !task.universe.installed(PackNo(last)) {
        last -= 1;
    }
    last
}

/// A row for the system and for each package up to one.
fn pack_table(alloc: Global, last: u32) -> Result<Vec<PackRules>, AllocError>
    ensures { IfOk result (λ table. table.items ≡ map no_rules (range_with_len 0 (last + 1))) }
{
    let mut table = Vec::new(alloc);
    table.push(no_rules(alloc, PackNo(0)))?;
    for before in 0..last {
        table.push(no_rules(alloc, PackNo(before + 1)))?;
    }
    Ok(table)
}

/// Adds all rules to the table of packages.
fn enter_all(
    alloc: Global,
    ready: &Ready<'_>,
    rules: &Rules,
    table: &mut [PackRules],
) -> Result<(), AllocError>
    requires packages { list_all (asks_for_packages (length ready.now.task.now.universe.packages)) (read_rules rules.now) ≡ true }
    ensures { OnOk result (table.new ≡ filled (add_to_pack (request_of ready.now.task.now ready.now.marks.now)) 0 (numbered (read_rules rules.now)) table.old) }
{
    let sets = rules.sets.held();
    for (number, rule) in rules.list.held().iter().enumerate() {
        enter(alloc, ready, sets, number, rule, table)?;
    }
    Ok(())
}

/// The table of packages up to one with all rules.
fn filled_table(
    alloc: Global,
    ready: &Ready<'_>,
    rules: &Rules,
    last: u32,
) -> Result<Vec<PackRules>, AllocError>
    requires packages { list_all (asks_for_packages (length ready.now.task.now.universe.packages)) (read_rules rules.now) ≡ true }
    ensures { IfOk result (λ table. table.items ≡ filled (add_to_pack (request_of ready.now.task.now ready.now.marks.now)) 0 (numbered (read_rules rules.now)) (map no_rules (range_with_len 0 (last + 1)))) }
{
    let mut table = pack_table(alloc, last)?;
    enter_all(alloc, ready, rules, &mut table)?;
    Ok(table)
}

/// The set of the numbers of a list.
fn numbers_of(alloc: Global, packs: &[PackNo]) -> Result<BTreeSet<u32>, AllocError>
    ensures { IfOk result (λ made. (p : ℕ) → contains nat_cmp made p ≡ is_among packs.now p) }
{
    let mut made = BTreeSet::new(alloc);
    for pack in packs {
        made.insert(pack.0)?;
    }
    Ok(made)
}

/// Those of these packages that are not in a set.
fn outside(
    alloc: Global,
    numbers: &BTreeSet<u32>,
    packs: &[PackNo],
) -> Result<Vec<PackNo>, AllocError>
    ensures { IfOk result (λ made. made.items ≡ filter (λ q. not (contains nat_cmp numbers.now q)) packs.now) }
{
    let mut made = Vec::new(alloc);
    for pack in packs {
        if !numbers.contains(&pack.0) {
            made.push(*pack)?;
        }
    }
    Ok(made)
}

/// Lists up to this length are searched for each package; longer ones are put into a set.
const FEW: usize = 8;

/// Whether a package is one of these.
fn is_one_of(packs: &[PackNo], pack: PackNo) -> bool
    ensures { result ≡ is_among packs.now pack }
{
    packs.iter().any(|one| *one == pack)
}

/// Those of these packages that are not among a few others.
fn without_few(
    alloc: Global,
    others: &[PackNo],
    packs: &[PackNo],
) -> Result<Vec<PackNo>, AllocError>
    ensures { IfOk result (λ made. made.items ≡ without_those others.now packs.now) }
{
    let mut made = Vec::new(alloc);
    for pack in packs {
        if !is_one_of(others, *pack) {
            made.push(*pack)?;
        }
    }
    Ok(made)
}

/// Those of these packages that are not among the others.
fn without_those(
    alloc: Global,
    others: &[PackNo],
    packs: &[PackNo],
) -> Result<Vec<PackNo>, AllocError>
    ensures { IfOk result (λ made. made.items ≡ without_those others.now packs.now) }
{
    if others.len() <= FEW {
        return without_few(alloc, others, packs);
    }
    let numbers = numbers_of(alloc, others)?;
    let made = outside(alloc, &numbers, packs)?;
    Ok(made)
}

/// The rest of a package and what may take its place were every change allowed, in the order in which they are tried.
fn far_candidates(
    alloc: Global,
    ready: &Ready<'_>,
    pack: PackNo,
    close: &[PackNo],
) -> Result<Items<PackNo>, AllocError>
    requires pack { IsPlace ready.now.task.now pack }
    requires exact { close.now ≡ successors (catalog_of ready.now.task.now) ready.now.task.now.flags ready.now.marks.now pack }
    ensures { IfOk result (λ made. made ≡ far_candidates (catalog_of ready.now.task.now) ready.now.task.now.flags ready.now.marks.now pack) }
{
    let features = feature_candidates(alloc, ready.task, ready.prov, ready.marks, pack)?;
    let rest = without_those(alloc, close, &features)?;
    in_order(alloc, ready, Asked::Kept(pack), &rest)
}

/// What may stand in a package's place, in the order in which they are tried: its successors, and the rest of itself and what
/// might were every change allowed.
#[derive(Drop)]
struct Successors {
    close: Items<PackNo>,
    far: Items<PackNo>,
}

/// Those of a package.
fn find_successors(alloc: Global, ready: &Ready<'_>, pack: PackNo) -> Result<Successors, AllocError>
    requires pack { IsPlace ready.now.task.now pack }
    ensures { IfOk result (λ made. made ≡ record { close = close_candidates (catalog_of ready.now.task.now) ready.now.task.now.flags ready.now.marks.now pack; far = far_candidates (catalog_of ready.now.task.now) ready.now.task.now.flags ready.now.marks.now pack }) }
{
    let held = successors(alloc, ready.task, ready.prov, ready.marks, pack)?;
    let close = in_order(alloc, ready, Asked::Kept(pack), &held)?;
    let far = far_candidates(alloc, ready, pack, &held)?;
    Ok(Successors { close, far })
}

/// What is asked of a package with these rules on it.
fn keep(alloc: Global, ready: &Ready<'_>, row: PackRules) -> Result<Keep, AllocError>
    requires pack { IsPlace ready.now.task.now row.pack }
    ensures { IfOk result (λ made. made ≡ keep_with (request_of ready.now.task.now ready.now.marks.now) row) }
{
    let pack = row.pack;
    let found = find_successors(alloc, ready, pack)?;
    Ok(Keep {
        pack,
        best: row.best,
        is_asked: !ready.marks.erased.held()[pack.0 as usize],
        dup: ready.marks.dup.held()[pack.0 as usize],
        updates: row.updates,
        features: row.features,
        close: found.close,
        far: found.far,
    })
}

/// The installed packages that are marked to move, and the other installed ones.
#[derive(Drop)]
struct Installed {
    marked: Items<Keep>,
    others: Items<Keep>,
}

/// Appends what is asked of a package of its kind, where it is installed.
fn put_keep(
    alloc: Global,
    ready: &Ready<'_>,
    row: PackRules,
    made: &mut Installed,
) -> Result<(), AllocError>
    requires within { row.pack ≤ length ready.now.task.now.universe.packages }
    ensures marked { OnOk result (made.new.marked ≡ made.old.marked ++ when (is_marked (request_of ready.now.task.now ready.now.marks.now) row.pack) (keep_with (request_of ready.now.task.now ready.now.marks.now) row ∷ [])) }
    ensures others { OnOk result (made.new.others ≡ made.old.others ++ when (is_other (request_of ready.now.task.now ready.now.marks.now) row.pack) (keep_with (request_of ready.now.task.now ready.now.marks.now) row ∷ [])) }
{
    if !ready.task.universe.installed(row.pack) {
        return Ok(());
    }
    let moves = is_to_move(ready.task, ready.marks, row.pack);
    let asked = keep(alloc, ready, row)?;
    if moves {
        made.marked.push(asked)
    } else {
        made.others.push(asked)
    }
}

/// What is asked of the installed packages among these, of each kind.
fn installed_of(
    alloc: Global,
    ready: &Ready<'_>,
    table: Vec<PackRules>,
) -> Result<Installed, AllocError>
    requires within { list_all (λ row. nat_le row.pack (length ready.now.task.now.universe.packages)) table.items ≡ true }
    ensures marked { IfOk result (λ made. made.marked ≡ map (keep_with (request_of ready.now.task.now ready.now.marks.now)) (filter (λ row. is_marked (request_of ready.now.task.now ready.now.marks.now) row.pack) table.items)) }
    ensures others { IfOk result (λ made. made.others ≡ map (keep_with (request_of ready.now.task.now ready.now.marks.now)) (filter (λ row. is_other (request_of ready.now.task.now ready.now.marks.now) row.pack) table.items)) }
{
    let mut made = Installed {
        marked: Items::wrap(Vec::new(alloc)),
        others: Items::wrap(Vec::new(alloc)),
    };
    for row in table {
        put_keep(alloc, ready, row, &mut made)?;
    }
    Ok(made)
}

/// What is asked of the installed packages among these.
fn keeps_of(
    alloc: Global,
    ready: &Ready<'_>,
    table: Vec<PackRules>,
) -> Result<Items<Keep>, AllocError>
    requires within { list_all (λ row. nat_le row.pack (length ready.now.task.now.universe.packages)) table.items ≡ true }
    ensures { IfOk result (λ made. made ≡ map (keep_with (request_of ready.now.task.now ready.now.marks.now)) (filter (λ row. is_marked (request_of ready.now.task.now ready.now.marks.now) row.pack) table.items) ++ map (keep_with (request_of ready.now.task.now ready.now.marks.now)) (filter (λ row. is_other (request_of ready.now.task.now ready.now.marks.now) row.pack) table.items)) }
{
    let made = installed_of(alloc, ready, table)?;
    let Installed { mut marked, others } = made;
    append(others, &mut marked)?;
    Ok(marked)
}

/// What is asked of the installed packages that are marked to move, and then of the other installed ones.
pub(crate) fn keeps(
    alloc: Global,
    ready: &Ready<'_>,
    rules: &Rules,
) -> Result<Items<Keep>, AllocError>
    requires packages { list_all (asks_for_packages (length ready.now.task.now.universe.packages)) (read_rules rules.now) ≡ true }
    ensures { IfOk result (λ made. made ≡ keeps_of (request_of ready.now.task.now ready.now.marks.now) (numbered (read_rules rules.now))) }
{
    let table = filled_table(alloc, ready, rules, last_installed(ready.task))?;
    keeps_of(alloc, ready, table)
}
