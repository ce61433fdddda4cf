//! How jobs mark packages.
ghost use Rattle.std.specs.Prelude.{◌≡◌, ◌<◌, ◌≤◌, ◌+◌, ◌||◌, ◌∷◌, pos, not, true, length, filter, map, nat_lt, nat_le, IfOk, OnOk};
ghost use Rattle.std.specs.List.{list_all};
ghost use Rattle.solv_pool.specs.Prelude.{catalog_of, packages, mark_each, favour_of, is_to_move, IsClosed, choice_fits, is_pack};
ghost use Rattle.solv_pool.specs.Selections.{selection};
ghost use Rattle.solv_pool.specs.Inner.JobMarks.{marks_by};
ghost use Rattle.solv_prov.specs.Index.{IsIndexOf};
ghost use Rattle.solv_jobs.specs.Inner.Marking.{with_values, with_job, with_favour, favour_given, makes, is_of_installed, may_bear, bears};
ghost use Rattle.solv_jobs.specs.Marking.{HasMarks};

use crate::selecting::selected;
use solv_list::Items;
use solv_pool::{Action, Job, Marks, PackNo, Task};
use solv_prov::Providers;
use std::alloc::{AllocError, Global};

/// The marks that are true or false.
#[derive(Clone, Copy)]
pub enum Mark {
    Update,
    Dup,
    Verify,
    Multiversion,
    AllowUninstall,
    Erased,
    /// Selected by an install job.
    Asked,
    /// Installed, and what the user asked for.
    UserInstalled,
    /// Installed, and to go with what nobody needs any more.
    GivenUp,
}

/// Whether a job makes a mark.
fn makes(mark: Mark, job: &Job) -> bool
    ensures { result ≡ makes mark job.now }
{
    match mark {
        Mark::Update => matches!(job.action, Action::Update),
        Mark::Dup => matches!(job.action, Action::Distupgrade),
        Mark::Verify => matches!(job.action, Action::Verify),
        Mark::Multiversion => matches!(job.action, Action::Multiversion),
        Mark::AllowUninstall => matches!(job.action, Action::AllowUninstall),
        Mark::Erased => matches!(job.action, Action::Erase),
        Mark::Asked => matches!(job.action, Action::Install),
        Mark::UserInstalled => matches!(job.action, Action::UserInstalled),
        Mark::GivenUp => matches!(job.action, Action::Erase) && job.cleandeps,
    }
}

/// Whether a mark is one of installed packages alone.
fn is_of_installed(mark: Mark) -> bool
    ensures { result ≡ is_of_installed mark }
{
    match mark {
        Mark::Update | Mark::Dup | Mark::Verify | Mark::AllowUninstall => true,
        Mark::UserInstalled | Mark::GivenUp => true,
        Mark::Multiversion | Mark::Erased | Mark::Asked => false,
    }
}

/// Marks those of the packages that may bear the mark.
fn put_marks(task: &Task, mark: Mark, packs: &[PackNo], table: &mut [bool])
    requires held { list_all (is_pack (length task.now.universe.packages)) packs.now ≡ true }
    requires each { length table.old ≡ length task.now.universe.packages + 1 }
    ensures { table.new ≡ with_values true (filter (may_bear (catalog_of task.now) mark) packs.now) table.old }
{
    let all = !is_of_installed(mark);
    for pack in packs {
        if all || task.universe.installed(*pack) {
            table[pack.0 as usize] = true;
        }
    }
}

/// What one job adds to the table of a mark.
fn put_job(
    alloc: Global,
    task: &Task,
    prov: &Providers,
    mark: Mark,
    job: &Job,
    table: &mut [bool],
) -> Result<(), AllocError>
    requires index { IsIndexOf prov.now (catalog_of task.now) }
    requires fits { choice_fits (length task.now.pool.nodes) (length task.now.universe.packages) job.now.choice ≡ true }
    requires each { length table.old ≡ length task.now.universe.packages + 1 }
    ensures made { OnOk result (table.new ≡ with_job (catalog_of task.now) mark job.now table.old) }
    ensures each { length table.new ≡ length table.old }
{
    if makes(mark, job) {
        let packs = selected(alloc, task, prov, &job.choice)?;
        put_marks(task, mark, &packs, table);
    }
    Ok(())
}

/// The packages that bear a mark, by their numbers.
pub fn marked_by(
    alloc: Global,
    task: &Task,
    prov: &Providers,
    mark: Mark,
) -> Result<Items<bool>, AllocError>
    requires index { IsIndexOf prov.now (catalog_of task.now) }
    requires closed { IsClosed task.now }
    ensures { IfOk result (λ table. table ≡ mark_each (catalog_of task.now) task.now.jobs (bears (catalog_of task.now) task.now.jobs mark)) }
{
    let mut table = vec![in alloc; false; task.universe.count() as usize + 1]?;
    for job in task.jobs.held() {
        put_job(alloc, task, prov, mark, job, &mut table)?;
    }
    Ok(Items::wrap(table))
}

/// The favour that a job gives.
fn favour_given(action: Action) -> Option<i8>
    ensures { result ≡ favour_given action }
{
    match action {
        Action::Favor => Some(1),
        Action::Disfavor => Some(-1),
        _ => None,
    }
}

/// Writes the favour of these packages.
fn put_favour(task: &Task, packs: &[PackNo], favour: i8, table: &mut [i8])
    requires held { list_all (is_pack (length task.now.universe.packages)) packs.now ≡ true }
    requires each { length table.old ≡ length task.now.universe.packages + 1 }
    ensures { table.new ≡ with_values favour packs.now table.old }
{
    for pack in packs {
        table[pack.0 as usize] = favour;
    }
}

/// What one job adds to the table of favour.
fn put_favour_of(
    alloc: Global,
    task: &Task,
    prov: &Providers,
    job: &Job,
    table: &mut [i8],
) -> Result<(), AllocError>
    requires index { IsIndexOf prov.now (catalog_of task.now) }
    requires fits { choice_fits (length task.now.pool.nodes) (length task.now.universe.packages) job.now.choice ≡ true }
    requires each { length table.old ≡ length task.now.universe.packages + 1 }
    ensures made { OnOk result (table.new ≡ with_favour (catalog_of task.now) job.now table.old) }
    ensures each { length table.new ≡ length table.old }
{
    if let Some(favour) = favour_given(job.action) {
        let packs = selected(alloc, task, prov, &job.choice)?;
        put_favour(task, &packs, favour, table);
    }
    Ok(())
}

/// The favour of each package, by their numbers.
fn favours(alloc: Global, task: &Task, prov: &Providers) -> Result<Items<i8>, AllocError>
    requires index { IsIndexOf prov.now (catalog_of task.now) }
    requires closed { IsClosed task.now }
    ensures { IfOk result (λ table. table ≡ pos 0 ∷ map (favour_of (catalog_of task.now) task.now.jobs) (packages (catalog_of task.now))) }
{
    let mut table = vec![in alloc; 0i8; task.universe.count() as usize + 1]?;
    for job in task.jobs.held() {
        put_favour_of(alloc, task, prov, job, &mut table)?;
    }
    Ok(Items::wrap(table))
}

/// What the jobs of a task say of each package, before anything is cleaned.
pub fn read_marks(alloc: Global, task: &Task, prov: &Providers) -> Result<Marks, AllocError>
    requires index { IsIndexOf prov.now (catalog_of task.now) }
    requires closed { IsClosed task.now }
    ensures exact { IfOk result (λ marks. marks ≡ marks_by (catalog_of task.now) task.now.jobs) }
    ensures each { IfOk result (λ marks. HasMarks (length task.now.universe.packages) marks) }
{
    Ok(Marks {
        update: marked_by(alloc, task, prov, Mark::Update)?,
        dup: marked_by(alloc, task, prov, Mark::Dup)?,
        verify: marked_by(alloc, task, prov, Mark::Verify)?,
        multiversion: marked_by(alloc, task, prov, Mark::Multiversion)?,
        allow_uninstall: marked_by(alloc, task, prov, Mark::AllowUninstall)?,
        erased: marked_by(alloc, task, prov, Mark::Erased)?,
        favour: favours(alloc, task, prov)?,
        left_out: Items::wrap(Vec::new(alloc)),
    })
}

/// Whether a package is marked to move, for update or for a distribution upgrade.
pub fn is_to_move(task: &Task, marks: &Marks, pack: PackNo) -> bool
    requires marks { HasMarks (length task.now.universe.packages) marks.now }
    requires within { pack ≤ length task.now.universe.packages }
    ensures { result ≡ is_to_move marks.now pack }
{
    marks.update.held()[pack.0 as usize] || marks.dup.held()[pack.0 as usize]
}
