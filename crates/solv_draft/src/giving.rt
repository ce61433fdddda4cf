//! What calls give to a task.
ghost use Rattle.std.specs.Prelude.{◌≡◌, Ok, IfErr, OnOk, OnErr, false};
ghost use Rattle.solv_draft.specs.Drafts.{IsAsBefore, drawn};
ghost use Rattle.solv_draft.specs.Inner.Calls.{enters_texts, given};
ghost use Rattle.solv_draft.specs.Inner.Faults.{IsFault};
ghost use Rattle.solv_draft.specs.Inner.Drafts.{HasDrawn, IsDraft, IsKept};
ghost use Rattle.solv_script.specs.States.{no_line};

use crate::call::Call;
use crate::copying::copy_of;
use crate::draft::Draft;
use crate::draft_fault::DraftFault;
use crate::jobs::{add_job, add_job_by, clear_jobs};
use crate::namespaces::add_namespace;
use crate::packs::{add_packages, add_repo};
use crate::systems::{disable, set_flags, set_system};
use solv_base::Pool;
use solv_list::Items;
use solv_pool::{Flags, Task, Universe};
use std::alloc::Global;
use std::mem::replace;

/// Gives a task what a call gives, or says why not.
fn give(task: &mut Task, call: &Call<'_>) -> Result<(), DraftFault>
    requires { IsDraft task.old }
    ensures done { OnOk result (HasDrawn task.new (given call.now (drawn task.old))) }
    ensures refused { IfErr result (λ fault. IsFault fault (given call.now (drawn task.old))) }
    ensures kept { OnErr result (IsKept task.old task.new) }
    ensures pool { enters_texts call.now ≡ false → task.new.pool ≡ task.old.pool }
{
    match *call {
        Call::Repo { name, priority } => add_repo(task, name, priority),
        Call::Packages { repo, testtags } => add_packages(task, repo, testtags),
        Call::System {
            arch,
            has_installed,
            installed,
        } => set_system(task, arch, has_installed, installed),
        Call::Disable(pack) => disable(task, pack),
        Call::Namespace { name, packs } => add_namespace(task, name, packs),
        Call::Flags(row) => set_flags(task, row),
        Call::Job(row) => add_job(task, row),
        Call::JobBy { provides, dep, row } => add_job_by(task, provides, dep, row),
        Call::NoJobs => clear_jobs(task),
    }
}

/// The same, over a copy of the task's pool. The pool itself is restored where nothing is given.
fn give_over_copy(task: &mut Task, call: &Call<'_>) -> Result<(), DraftFault>
    requires { IsDraft task.old }
    ensures done { OnOk result (HasDrawn task.new (given call.now (drawn task.old))) }
    ensures refused { IfErr result (λ fault. IsFault fault (given call.now (drawn task.old))) }
    ensures same { OnErr result (task.new ≡ task.old) }
{
    let Ok(copy) = copy_of(&task.pool) else {
        return Err(DraftFault::Memory);
    };
    let before = replace(&mut task.pool, copy);
    match give(task, call) {
        Ok(()) => Ok(()),
        Err(fault) => {
            task.pool = before;
            Err(fault)
        }
    }
}

/// The same, over the task's own pool where no texts go into it.
fn give_or_stay(task: &mut Task, call: &Call<'_>) -> Result<(), DraftFault>
    requires { IsDraft task.old }
    ensures done { OnOk result (HasDrawn task.new (given call.now (drawn task.old))) }
    ensures refused { IfErr result (λ fault. IsFault fault (given call.now (drawn task.old))) }
    ensures same { OnErr result (task.new ≡ task.old) }
{
    if call.enters_texts() {
        return give_over_copy(task, call);
    }
    give(task, call)
}

impl Draft {
    /// The task before the first call: no package, and the flags that a script has that says nothing of them. It takes no memory.
    pub fn new(alloc: Global) -> Draft
        ensures { drawn result.task ≡ no_line }
    {
        Draft {
            task: Task {
                pool: Pool::new(alloc),
                universe: Universe::new(alloc),
                flags: Flags::default(),
                namespaces: Items::wrap(Vec::new(alloc)),
                jobs: Items::wrap(Vec::new(alloc)),
            },
        }
    }

    /// Gives the task what a call gives, or says why not, and then the task is as it was.
    pub fn give(&mut self, call: &Call<'_>) -> Result<(), DraftFault>
        ensures done { OnOk result (given call.now (drawn self.old.task) ≡ Ok (drawn self.new.task)) }
        ensures refused { IfErr result (λ fault. IsFault fault (given call.now (drawn self.old.task))) }
        ensures same { OnErr result (IsAsBefore self.old.task self.new.task) }
    {
        match give(&mut self.task, call) {
            Ok(()) => Ok(()),
            Err(fault) => Err(fault),
        }
    }

    /// The same, and where nothing is given, nothing at all has changed: the task's pool holds no more texts either. For a task on which something
    /// rests that may have to stay. The pool is copied where texts come.
    pub fn give_or_stay(&mut self, call: &Call<'_>) -> Result<(), DraftFault>
        ensures done { OnOk result (given call.now (drawn self.old.task) ≡ Ok (drawn self.new.task)) }
        ensures refused { IfErr result (λ fault. IsFault fault (given call.now (drawn self.old.task))) }
        ensures same { OnErr result (self.new.task ≡ self.old.task) }
    {
        match give_or_stay(&mut self.task, call) {
            Ok(()) => Ok(()),
            Err(fault) => Err(fault),
        }
    }
}
