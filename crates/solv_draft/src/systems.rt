//! The system, packages that are disabled, and flags.
ghost use Rattle.std.specs.Prelude.{◌≡◌, ◌||◌, not, nat_lt, IfErr, OnOk, OnErr};
ghost use Rattle.solv_draft.specs.Drafts.{arch_of, disabled_given, drawn, flags_given, installed_of, system_given};
ghost use Rattle.solv_draft.specs.Inner.Faults.{IsFault};
ghost use Rattle.solv_draft.specs.Inner.Drafts.{HasDrawn, IsDraft, IsKept};

use crate::draft_fault::DraftFault;
use crate::flag_row::FlagRow;
use crate::job_rows::{flags_of, is_number_of};
use solv_pool::{Arch, PackNo, RepoNo, Task};

/// The architecture of this number.
fn arch_of(number: u32) -> Option<Arch>
    ensures { result ≡ arch_of number }
{
    match number {
        0 => Some(Arch::X86_64),
        1 => Some(Arch::I686),
        2 => Some(Arch::Aarch64),
        _ => None,
    }
}

/// The repository that is installed, if there is one.
fn installed_of(has_installed: bool, installed: usize) -> Option<RepoNo>
    ensures { result ≡ installed_of has_installed installed }
{
    if has_installed {
        Some(RepoNo(installed))
    } else {
        None
    }
}

/// Whether it is one of so many, or there is none.
fn fits_installed(count: usize, has_installed: bool, installed: usize) -> bool
    ensures { result ≡ (not has_installed || nat_lt installed count) }
{
    !has_installed || installed < count
}

/// Sets the system, and the repository that is installed, if there is one.
pub(crate) fn set_system(
    task: &mut Task,
    arch: u32,
    has_installed: bool,
    installed: usize,
) -> Result<(), DraftFault>
    requires { IsDraft task.old }
    ensures done { OnOk result (HasDrawn task.new (system_given arch has_installed installed (drawn task.old))) }
    ensures refused { IfErr result (λ fault. IsFault fault (system_given arch has_installed installed (drawn task.old))) }
    ensures kept { OnErr result (IsKept task.old task.new) }
    ensures pool { task.new.pool ≡ task.old.pool }
{
    if !fits_installed(task.universe.repos(), has_installed, installed) {
        return Err(DraftFault::Misused);
    }
    let Some(arch) = arch_of(arch) else {
        return Err(DraftFault::Misused);
    };
    task.universe
        .set_system(arch, installed_of(has_installed, installed));
    Ok(())
}

/// Keeps a package from being installed anew.
pub(crate) fn disable(task: &mut Task, pack: u32) -> Result<(), DraftFault>
    requires { IsDraft task.old }
    ensures done { OnOk result (HasDrawn task.new (disabled_given pack (drawn task.old))) }
    ensures refused { IfErr result (λ fault. IsFault fault (disabled_given pack (drawn task.old))) }
    ensures kept { OnErr result (IsKept task.old task.new) }
    ensures pool { task.new.pool ≡ task.old.pool }
{
    if !is_number_of(task.universe.count(), pack) {
        return Err(DraftFault::Misused);
    }
    task.universe.disable(PackNo(pack));
    Ok(())
}

/// Sets flags, in place of those that are there.
pub(crate) fn set_flags(task: &mut Task, row: &FlagRow) -> Result<(), DraftFault>
    requires { IsDraft task.old }
    ensures done { OnOk result (HasDrawn task.new (flags_given row.now (drawn task.old))) }
    ensures refused { IfErr result (λ fault. IsFault fault (flags_given row.now (drawn task.old))) }
    ensures kept { OnErr result (IsKept task.old task.new) }
    ensures pool { task.new.pool ≡ task.old.pool }
{
    task.flags = flags_of(row);
    Ok(())
}
