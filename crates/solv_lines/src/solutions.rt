//! The texts of solutions.
ghost use Rattle.std.specs.Prelude.{ℕ, List, ◌≡◌, ◌++◌, map, slice_get, filter_map, IfOk, OnOk};
ghost use Rattle.solv_pool.specs.Prelude.{IsOver, catalog_of, rule_with};
ghost use Rattle.solv_lines.specs.Inner.Features.{HasFeatures, HasSets};
ghost use Rattle.solv_lines.specs.RuleTexts.{named};
ghost use Rattle.solv_lines.specs.SolutionTexts.{job_text, going_text, element, solution_texts};
ghost use Rattle.solv_lines.specs.Inner.LineNames.{update_text, dup_text, staying_text};

use crate::features::{packs_of, replacement, sets_of};
use crate::writing::{begun_text, write_package, write_pair};
use solv_list::Bytes;
use solv_pool::{JobNo, PackNo, Rule, Rules, SetNo, Task};
use std::alloc::{AllocError, Global};
use std::collections::{BTreeMap, BTreeSet};

/// The rules that a solution drops, and the packages whose feature rules are among them.
#[derive(Drop)]
struct Gone {
    rules: Vec<Rule>,
    packs: BTreeSet<u32>,
}

/// Words and the text of a package.
fn package_text(alloc: Global, task: &Task, words: &[u8], pack: PackNo) -> Result<Bytes, AllocError>
    requires { IsOver task.now.pool task.now.universe }
    ensures { IfOk result (λ text. text ≡ words.now ++ named (catalog_of task.now) pack) }
{
    let mut text = begun_text(alloc)?;
    write_package(task, words, pack, &mut text)?;
    Ok(Bytes::wrap(text))
}

/// Appends the words of a job's line. A number that is no job has none.
fn write_job(task: &Task, job: JobNo, into: &mut Vec<u8>) -> Result<(), AllocError>
    ensures { OnOk result (into.new.items ≡ into.old.items ++ job_text task.now job) }
{
    match task.jobs.held().get(job.0 as usize) {
        Some(job) => into.extend_from_slice(job.text.held()),
        None => Ok(()),
    }
}

/// Words and the words of a job's line.
fn job_text(alloc: Global, task: &Task, words: &[u8], job: JobNo) -> Result<Bytes, AllocError>
    ensures { IfOk result (λ text. text ≡ words.now ++ job_text task.now job) }
{
    let mut text = begun_text(alloc)?;
    text.extend_from_slice(words)?;
    write_job(task, job, &mut text)?;
    Ok(Bytes::wrap(text))
}

/// What becomes of an installed package that need not stay.
fn going_text(
    alloc: Global,
    task: &Task,
    rules: &Rules,
    features: &BTreeMap<u32, SetNo>,
    set: &[PackNo],
    pack: PackNo,
) -> Result<Bytes, AllocError>
    requires over { IsOver task.now.pool task.now.universe }
    requires features { HasSets features.now rules.now.list }
    ensures { IfOk result (λ text. text ≡ going_text task.now (map (rule_with rules.now.sets) rules.now.list) set.now pack) }
{
    match replacement(rules, features, pack, set) {
        Some(other) => {
            let mut text = begun_text(alloc)?;
            write_pair(task, b"replace", pack, other, &mut text)?;
            Ok(Bytes::wrap(text))
        }
        None => package_text(alloc, task, b"erase ", pack),
    }
}

/// What is said where an update rule is dropped, beside the others that are.
fn update_text(
    alloc: Global,
    task: &Task,
    rules: &Rules,
    features: &BTreeMap<u32, SetNo>,
    gone: &Gone,
    set: &[PackNo],
    pack: PackNo,
) -> Result<Option<Bytes>, AllocError>
    requires over { IsOver task.now.pool task.now.universe }
    requires features { HasSets features.now rules.now.list }
    requires gone { HasFeatures gone.now.packs gone.now.rules.items }
    ensures { IfOk result (λ text. text ≡ update_text task.now (map (rule_with rules.now.sets) rules.now.list) (map (rule_with rules.now.sets) gone.now.rules.items) set.now pack) }
{
    if gone.packs.contains(&pack.0) {
        return Ok(None);
    }
    Ok(Some(going_text(alloc, task, rules, features, set, pack)?))
}

/// What becomes of an installed package that need not move.
fn staying_text(
    alloc: Global,
    task: &Task,
    set: &[PackNo],
    pack: PackNo,
) -> Result<Bytes, AllocError>
    requires { IsOver task.now.pool task.now.universe }
    ensures { IfOk result (λ text. text ≡ staying_text task.now set.now pack) }
{
    if set.contains(&pack) {
        package_text(alloc, task, b"keep ", pack)
    } else {
        package_text(alloc, task, b"erase ", pack)
    }
}

/// What is said where the rule on a distribution upgrade is dropped, beside the others that are.
fn dup_text(
    alloc: Global,
    task: &Task,
    gone: &Gone,
    set: &[PackNo],
    pack: PackNo,
) -> Result<Option<Bytes>, AllocError>
    requires over { IsOver task.now.pool task.now.universe }
    requires gone { HasFeatures gone.now.packs gone.now.rules.items }
    ensures { (sets : List (List ℕ)) → IfOk result (λ text. text ≡ dup_text task.now (map (rule_with sets) gone.now.rules.items) set.now pack) }
{
    if !gone.packs.contains(&pack.0) {
        return Ok(Some(staying_text(alloc, task, set, pack)?));
    }
    Ok(None)
}

/// What is said of a dropped rule, beside the others that are dropped.
fn element(
    alloc: Global,
    task: &Task,
    rules: &Rules,
    features: &BTreeMap<u32, SetNo>,
    gone: &Gone,
    set: &[PackNo],
    rule: &Rule,
) -> Result<Option<Bytes>, AllocError>
    requires over { IsOver task.now.pool task.now.universe }
    requires features { HasSets features.now rules.now.list }
    requires gone { HasFeatures gone.now.packs gone.now.rules.items }
    ensures { IfOk result (λ text. text ≡ element task.now (map (rule_with rules.now.sets) rules.now.list) (map (rule_with rules.now.sets) gone.now.rules.items) set.now (rule_with rules.now.sets rule.now)) }
{
    match *rule {
        Rule::Infarch(pack) => Ok(Some(package_text(alloc, task, b"allow ", pack)?)),
        Rule::Update(pack, _) => update_text(alloc, task, rules, features, gone, set, pack),
        Rule::Dup(pack, _) => dup_text(alloc, task, gone, set, pack),
        Rule::Feature(pack, _) => Ok(Some(package_text(alloc, task, b"erase ", pack)?)),
        Rule::Install(job, _) | Rule::Erase(job, _) | Rule::Lock(job, _) => {
            Ok(Some(job_text(alloc, task, b"deljob ", job)?))
        }
        Rule::BestJob(job, _) => Ok(Some(job_text(alloc, task, b"dropbest ", job)?)),
        Rule::BestUpdate(_, pack, _) => Ok(Some(package_text(alloc, task, b"keepold ", pack)?)),
        Rule::NotInstallable(_)
        | Rule::Req(_, _)
        | Rule::Con(_, _, _)
        | Rule::RichCon(_, _)
        | Rule::Obs(_, _, _)
        | Rule::Same(_, _) => Ok(None),
    }
}

/// The rule at a place.
fn rule_at(rules: &[Rule], place: usize) -> Option<Rule>
    ensures { result ≡ slice_get rules.now place }
{
    match rules.get(place) {
        Some(rule) => Some(*rule),
        None => None,
    }
}

/// The rules at these places.
fn rules_at(alloc: Global, rules: &[Rule], places: &[usize]) -> Result<Vec<Rule>, AllocError>
    ensures { IfOk result (λ found. found.items ≡ filter_map (slice_get rules.now) places.now) }
{
    let mut found = Vec::new(alloc);
    for place in places {
        if let Some(rule) = rule_at(rules, *place) {
            found.push(rule)?;
        }
    }
    Ok(found)
}

/// The rules at the places that a solution drops.
fn gone_at(alloc: Global, rules: &[Rule], dropped: &[usize]) -> Result<Gone, AllocError>
    ensures rules { IfOk result (λ gone. gone.rules.items ≡ filter_map (slice_get rules.now) dropped.now) }
    ensures packs { IfOk result (λ gone. HasFeatures gone.packs gone.rules.items) }
{
    let rules = rules_at(alloc, rules, dropped)?;
    let packs = packs_of(alloc, &rules)?;
    Ok(Gone { rules, packs })
}

/// What is said of these dropped rules.
fn elements(
    alloc: Global,
    task: &Task,
    rules: &Rules,
    features: &BTreeMap<u32, SetNo>,
    gone: &Gone,
    set: &[PackNo],
) -> Result<Vec<Bytes>, AllocError>
    requires over { IsOver task.now.pool task.now.universe }
    requires features { HasSets features.now rules.now.list }
    requires gone { HasFeatures gone.now.packs gone.now.rules.items }
    ensures { IfOk result (λ texts. texts.items ≡ filter_map (element task.now (map (rule_with rules.now.sets) rules.now.list) (map (rule_with rules.now.sets) gone.now.rules.items) set.now) (map (rule_with rules.now.sets) gone.now.rules.items)) }
{
    let mut texts = Vec::new(alloc);
    for rule in &gone.rules {
        if let Some(text) = element(alloc, task, rules, features, gone, set, rule)? {
            texts.push(text)?;
        }
    }
    Ok(texts)
}

/// The texts of a solution.
pub(crate) fn texts_of(
    alloc: Global,
    task: &Task,
    rules: &Rules,
    features: &BTreeMap<u32, SetNo>,
    dropped: &[usize],
    set: &[PackNo],
) -> Result<Vec<Bytes>, AllocError>
    requires over { IsOver task.now.pool task.now.universe }
    requires features { HasSets features.now rules.now.list }
    ensures { IfOk result (λ texts. texts.items ≡ solution_texts task.now (map (rule_with rules.now.sets) rules.now.list) dropped.now set.now) }
{
    let gone = gone_at(alloc, rules.list.held(), dropped)?;
    elements(alloc, task, rules, features, &gone, set)
}

/// What is said of a solution.
pub fn solution_lines(
    alloc: Global,
    task: &Task,
    rules: &Rules,
    dropped: &[usize],
    set: &[PackNo],
) -> Result<Vec<Bytes>, AllocError>
    requires { IsOver task.now.pool task.now.universe }
    ensures { IfOk result (λ texts. texts.items ≡ solution_texts task.now (map (rule_with rules.now.sets) rules.now.list) dropped.now set.now) }
{
    let features = sets_of(alloc, rules.list.held())?;
    texts_of(alloc, task, rules, &features, dropped, set)
}
