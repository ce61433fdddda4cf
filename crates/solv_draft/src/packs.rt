//! Repositories and their packages.
ghost use Rattle.std.specs.Prelude.{IfErr, OnOk, OnErr};
ghost use Rattle.solv_draft.specs.Drafts.{drawn, packages_given, repo_given};
ghost use Rattle.solv_draft.specs.Inner.Faults.{IsFault};
ghost use Rattle.solv_draft.specs.Inner.Drafts.{HasDrawn, IsDraft, IsKept};

use crate::draft_fault::{DraftFault, fault_of_tag, fault_of_text};
use solv_commands::Cause;
use solv_deps::enter_text;
use solv_pool::{RepoNo, Task};
use solv_tags::read_testtags;

/// Adds a repository after the others.
pub(crate) fn add_repo(task: &mut Task, name: &[u8], priority: i32) -> Result<(), DraftFault>
    requires { IsDraft task.old }
    ensures done { OnOk result (HasDrawn task.new (repo_given name.now priority (drawn task.old))) }
    ensures refused { IfErr result (λ fault. IsFault fault (repo_given name.now priority (drawn task.old))) }
    ensures kept { OnErr result (IsKept task.old task.new) }
{
    if task.universe.repo_named(&task.pool, name).is_some() {
        return Err(DraftFault::Refused {
            line: 1,
            cause: Cause::DuplicateRepo,
        });
    }
    let id = match enter_text(&mut task.pool, name) {
        Ok(id) => id,
        Err(fault) => return Err(fault_of_text(1, fault)),
    };
    // No repository has this name, so only memory can be wanting.
    match task.universe.add_repo(id, priority) {
        Ok(_) => Ok(()),
        Err(_) => Err(DraftFault::Memory),
    }
}

/// Adds the packages of a repository after the others.
pub(crate) fn add_packages(task: &mut Task, repo: usize, testtags: &[u8]) -> Result<(), DraftFault>
    requires { IsDraft task.old }
    ensures done { OnOk result (HasDrawn task.new (packages_given repo testtags.now (drawn task.old))) }
    ensures refused { IfErr result (λ fault. IsFault fault (packages_given repo testtags.now (drawn task.old))) }
    ensures kept { OnErr result (IsKept task.old task.new) }
{
    if repo >= task.universe.repos() {
        return Err(DraftFault::Misused);
    }
    match read_testtags(&mut task.pool, &mut task.universe, testtags, RepoNo(repo)) {
        Ok(()) => Ok(()),
        Err(fault) => Err(fault_of_tag(fault.line, fault.cause)),
    }
}
