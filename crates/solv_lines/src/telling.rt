//! What is said of rules.
ghost use Rattle.std.specs.Prelude.{◌≡◌, ◌++◌, ◌<◌, ◌==◌, length, IfOk, OnOk, codes};
ghost use Rattle.std.specs.List.{list_all};
ghost use Rattle.solv_pool.specs.Prelude.{IsOver, catalog_of, dependency, install, not_installable, same, infarch, set_at, rule_with};
ghost use Rattle.solv_prov.specs.Index.{IsIndexOf};
ghost use Rattle.solv_lines.specs.RuleTexts.{named, asked, has_provider, requirement_text, text_of_rule};
ghost use Rattle.solv_lines.specs.Inner.LineNames.{dependency_of_job};
ghost use Rattle.solv_lines.specs.Inner.RuleTexts.{rule_text_at};

use crate::writing::{append_package, begun_text, write_package, write_relation};
use solv_list::{Bytes, Items};
use solv_pool::{Choice, DepId, JobNo, PackNo, Rule, Rules, SetNo, Task};
use solv_prov::{Parts, Providers, parts_of};
use std::alloc::{AllocError, Global};

/// Whether a package, or the system, meets a part of a relation that is there.
fn serves_some(task: &Task, prov: &Providers, dep: DepId) -> bool
    requires index { IsIndexOf prov.now (catalog_of task.now) }
    requires held { dep < length task.now.pool.nodes }
    ensures { result ≡ has_provider (catalog_of task.now) (dependency (catalog_of task.now) dep) }
{
    match parts_of(&task.pool, dep) {
        Parts::Itself => !prov.of(dep).is_empty(),
        Parts::Of(operand) => serves_some(task, prov, operand),
        Parts::OfBoth(first, second) => {
            let own = serves_some(task, prov, first);
            let other = serves_some(task, prov, second);
            own || other
        }
    }
}

/// Whether a package, or the system, meets a part of a relation. Nothing meets an id that is none.
fn has_provider(task: &Task, prov: &Providers, dep: DepId) -> bool
    requires index { IsIndexOf prov.now (catalog_of task.now) }
    ensures { result ≡ has_provider (catalog_of task.now) (dependency (catalog_of task.now) dep) }
{
    if dep.0 as usize >= task.pool.relation_count() {
        return false;
    }
    serves_some(task, prov, dep)
}

/// A package and what it does by a relation.
fn write_asking(
    task: &Task,
    pack: PackNo,
    words: &[u8],
    dep: DepId,
    into: &mut Vec<u8>,
) -> Result<(), AllocError>
    requires { IsOver task.now.pool task.now.universe }
    ensures { OnOk result (into.new.items ≡ into.old.items ++ (codes "package " ++ (named (catalog_of task.now) pack ++ (words.now ++ asked (catalog_of task.now) dep)))) }
{
    write_package(task, b"package ", pack, into)?;
    write_relation(task, words, dep, into)
}

/// A requirement.
fn write_requirement(
    task: &Task,
    prov: &Providers,
    pack: PackNo,
    dep: DepId,
    into: &mut Vec<u8>,
) -> Result<(), AllocError>
    requires over { IsOver task.now.pool task.now.universe }
    requires index { IsIndexOf prov.now (catalog_of task.now) }
    ensures { OnOk result (into.new.items ≡ into.old.items ++ requirement_text (catalog_of task.now) pack dep) }
{
    if has_provider(task, prov, dep) {
        write_asking(task, pack, b" requires ", dep, into)?;
        return into.extend_from_slice(b", but none of the providers can be installed");
    }
    write_relation(task, b"nothing provides ", dep, into)?;
    write_package(task, b" needed by ", pack, into)
}

/// A package that is not installable.
fn write_not_installable(task: &Task, pack: PackNo, into: &mut Vec<u8>) -> Result<(), AllocError>
    requires { IsOver task.now.pool task.now.universe }
    ensures { OnOk result (into.new.items ≡ into.old.items ++ text_of_rule task.now (not_installable pack)) }
{
    write_package(task, b"package ", pack, into)?;
    into.extend_from_slice(b" is not installable")
}

/// Two packages, of which the first does something to the second by a relation.
fn write_between(
    task: &Task,
    pack: PackNo,
    words: &[u8],
    dep: DepId,
    other: PackNo,
    into: &mut Vec<u8>,
) -> Result<(), AllocError>
    requires { IsOver task.now.pool task.now.universe }
    ensures { OnOk result (into.new.items ≡ into.old.items ++ (codes "package " ++ (named (catalog_of task.now) pack ++ (words.now ++ (asked (catalog_of task.now) dep ++ (codes " provided by " ++ named (catalog_of task.now) other)))))) }
{
    write_asking(task, pack, words, dep, into)?;
    write_package(task, b" provided by ", other, into)
}

/// Two packages of one name.
fn write_same(
    task: &Task,
    pack: PackNo,
    other: PackNo,
    into: &mut Vec<u8>,
) -> Result<(), AllocError>
    requires { IsOver task.now.pool task.now.universe }
    ensures { OnOk result (into.new.items ≡ into.old.items ++ text_of_rule task.now (same pack other)) }
{
    write_package(task, b"cannot install both ", pack, into)?;
    write_package(task, b" and ", other, into)
}

/// A package of an inferior architecture.
fn write_inferior(task: &Task, pack: PackNo, into: &mut Vec<u8>) -> Result<(), AllocError>
    requires { IsOver task.now.pool task.now.universe }
    ensures { OnOk result (into.new.items ≡ into.old.items ++ text_of_rule task.now (infarch pack)) }
{
    append_package(task, pack, into)?;
    into.extend_from_slice(b" has inferior architecture")
}

/// An installed package that neither stays nor is replaced.
fn write_installed(task: &Task, pack: PackNo, into: &mut Vec<u8>) -> Result<(), AllocError>
    requires { IsOver task.now.pool task.now.universe }
    ensures { OnOk result (into.new.items ≡ into.old.items ++ (codes "problem with installed package " ++ named (catalog_of task.now) pack)) }
{
    write_package(task, b"problem with installed package ", pack, into)
}

/// The dependency by which a job selects.
fn dependency_of_job(task: &Task, job: JobNo) -> Option<DepId>
    ensures { result ≡ dependency_of_job task.now job }
{
    let job = task.jobs.held().get(job.0 as usize)?;
    match &job.choice {
        Choice::Name(dep) => Some(*dep),
        Choice::Provides(dep) => Some(*dep),
        Choice::Pkg(_) | Choice::OneOf(_) | Choice::All | Choice::Nothing => None,
    }
}

/// Whether the set of a number has no package. A number that is none names no package.
fn is_empty_set(sets: &[Items<PackNo>], set: SetNo) -> bool
    ensures { result ≡ (length (set_at sets.now set) == 0) }
{
    match sets.get(set.0 as usize) {
        Some(packs) => packs.is_empty(),
        None => true,
    }
}

/// An install job.
fn write_install(
    task: &Task,
    sets: &[Items<PackNo>],
    job: JobNo,
    set: SetNo,
    into: &mut Vec<u8>,
) -> Result<(), AllocError>
    ensures { OnOk result (into.new.items ≡ into.old.items ++ text_of_rule task.now (install job (set_at sets.now set))) }
{
    if !is_empty_set(sets, set) {
        return into.extend_from_slice(b"conflicting requests");
    }
    match dependency_of_job(task, job) {
        Some(dep) => write_relation(task, b"nothing provides requested ", dep, into),
        None => into.extend_from_slice(b"conflicting requests"),
    }
}

/// A rule.
fn write_rule(
    task: &Task,
    prov: &Providers,
    sets: &[Items<PackNo>],
    rule: &Rule,
    into: &mut Vec<u8>,
) -> Result<(), AllocError>
    requires over { IsOver task.now.pool task.now.universe }
    requires index { IsIndexOf prov.now (catalog_of task.now) }
    ensures { OnOk result (into.new.items ≡ into.old.items ++ text_of_rule task.now (rule_with sets.now rule.now)) }
{
    match *rule {
        Rule::NotInstallable(pack) => write_not_installable(task, pack, into),
        Rule::Req(pack, dep) => write_requirement(task, prov, pack, dep, into),
        Rule::Con(pack, dep, other) => {
            write_between(task, pack, b" conflicts with ", dep, other, into)
        }
        Rule::RichCon(pack, dep) => write_asking(task, pack, b" conflicts with ", dep, into),
        Rule::Obs(pack, dep, other) => {
            write_between(task, pack, b" obsoletes ", dep, other, into)
        }
        Rule::Same(pack, other) => write_same(task, pack, other, into),
        Rule::Infarch(pack) => write_inferior(task, pack, into),
        Rule::Update(pack, _) => write_installed(task, pack, into),
        Rule::Dup(pack, _) => write_installed(task, pack, into),
        Rule::Feature(pack, _) => write_installed(task, pack, into),
        Rule::Install(job, set) => write_install(task, sets, job, set, into),
        Rule::Erase(_, _) | Rule::Lock(_, _) => into.extend_from_slice(b"conflicting requests"),
        Rule::BestJob(_, _) => {
            into.extend_from_slice(b"cannot install the best candidate for the job")
        }
        Rule::BestUpdate(_, pack, _) => write_package(
            task,
            b"cannot install the best update candidate for package ",
            pack,
            into,
        ),
    }
}

/// Appends the text of the rule at a place. A place after the last one has none.
pub(crate) fn write_rule_at(
    task: &Task,
    prov: &Providers,
    rules: &Rules,
    rule: usize,
    into: &mut Vec<u8>,
) -> Result<(), AllocError>
    requires over { IsOver task.now.pool task.now.universe }
    requires index { IsIndexOf prov.now (catalog_of task.now) }
    ensures { OnOk result (into.new.items ≡ into.old.items ++ rule_text_at task.now rules.now rule) }
{
    match rules.list.held().get(rule) {
        Some(rule) => write_rule(task, prov, rules.sets.held(), rule, into),
        None => Ok(()),
    }
}

/// What is said of the rule at a place; nothing where there is none. What a rule names and is not there has no text.
pub fn rule_text(
    alloc: Global,
    task: &Task,
    prov: &Providers,
    rules: &Rules,
    rule: usize,
) -> Result<Bytes, AllocError>
    requires over { IsOver task.now.pool task.now.universe }
    requires index { IsIndexOf prov.now (catalog_of task.now) }
    ensures { IfOk result (λ text. text ≡ rule_text_at task.now rules.now rule) }
{
    let mut text = begun_text(alloc)?;
    write_rule_at(task, prov, rules, rule, &mut text)?;
    Ok(Bytes::wrap(text))
}
