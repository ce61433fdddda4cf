//! What goes with what is erased, and what nobody needs.
ghost use Rattle.std.specs.Prelude.{◌≡◌};
ghost use Rattle.solv_pool.specs.Prelude.{catalog_of, IsClosed, is_among};
ghost use Rattle.solv_prov.specs.Index.{IsIndexOf};

use crate::fixture::{are, are_packages, read, set_of};
use solv_clean::{clean_marks, unneeded, users};
use solv_jobs::read_marks;
use solv_pool::{PackNo, Task};
use solv_prov::Providers;
use std::alloc::{AllocError, Global};
use std::test::Fail;

/// A (1) is there, and not installed.
const NONE_INSTALLED: &str = "repo system 0 empty
repo available 0 testtags <inline>
#>=Pkg: A 1 1 noarch
system x86_64 rpm system
job erase name A [cleandeps]
";

/// A (1), B (2), which requires A, and C (3) are installed.
const THREE: &str = "repo system 0 testtags <inline>
#>=Pkg: A 1 1 noarch
#>=Pkg: B 1 1 noarch
#>=Req: A
#>=Pkg: C 1 1 noarch
system x86_64 rpm system
job erase name B [cleandeps]
";

/// The same with another job.
const ASKED: &str = "repo system 0 testtags <inline>
#>=Pkg: A 1 1 noarch
#>=Pkg: B 1 1 noarch
#>=Req: A
#>=Pkg: C 1 1 noarch
system x86_64 rpm system
job userinstalled name B
";

/// Scripts, each with which of the system and of its packages are to go, before anything is cleaned and afterwards. B is erased, and A goes with
/// it; what is not installed takes nothing with it.
const CLEANED: &[(&str, &[bool], &[bool])] = &[
    (NONE_INSTALLED, &[false, true], &[false, true]),
    (
        THREE,
        &[false, false, true, false],
        &[false, true, true, false],
    ),
];

/// Whether it is so of a script.
fn go(alloc: Global, script: &str, before: &[bool], after: &[bool]) -> Result<bool, AllocError> {
    let task = read(alloc, script)?;
    let prov = Providers::build(alloc, &task)?;
    let mut marks = read_marks(alloc, &task, &prov)?;
    let is_so = marks.erased.held() == before;
    clean_marks(alloc, &task, &prov, &mut marks)?;
    Ok(is_so && marks.erased.held() == after)
}

#[test]
fn what_was_needed_goes_too(rt: HostRuntime) -> Result<(), Fail> {
    for (script, before, after) in CLEANED {
        assert!(rt; go(rt.alloc(), script, before, after)?, "{script}");
    }
    Ok(())
}

/// Whether the system is in a set.
fn has_system(set: &[PackNo]) -> bool
    ensures { result ≡ is_among set.now 0 }
{
    set.iter().any(|pack| pack.0 == 0)
}

/// Whether of a set the user asked for these, and nobody needs those.
fn are_asked_for(
    alloc: Global,
    task: &Task,
    set: &[PackNo],
    asked: &[u32],
    idle: &[u32],
) -> Result<bool, AllocError>
    requires { IsClosed task.now }
{
    if !are_packages(task, set) || !has_system(set) {
        return Ok(false);
    }
    let prov = Providers::build(alloc, task)?;
    let found = users(alloc, task, &prov, set)?;
    let left = unneeded(alloc, task, &prov, set)?;
    Ok(are(&found, asked) && are(&left, idle))
}

/// Packages besides the system, which of them the user asked for, and which of them nobody needs: B needs A, and nobody needs C.
const NEEDED: &[(&[u32], &[u32], &[u32])] = &[
    (&[], &[], &[]),
    (&[1, 2, 3], &[2], &[3]),
    (&[1, 3], &[], &[1, 3]),
];

/// Whether it is so of a set.
fn is_needed(
    alloc: Global,
    task: &Task,
    numbers: &[u32],
    asked: &[u32],
    idle: &[u32],
) -> Result<bool, AllocError>
    requires { IsClosed task.now }
{
    let set = set_of(alloc, numbers)?;
    are_asked_for(alloc, task, &set, asked, idle)
}

#[test]
fn what_nobody_needs_is_told(rt: HostRuntime) -> Result<(), Fail> {
    let task = read(rt.alloc(), ASKED)?;
    for (place, (set, asked, idle)) in NEEDED.iter().enumerate() {
        assert!(rt;
            is_needed(rt.alloc(), &task, set, asked, idle)?,
            "at {place}"
        );
    }
    Ok(())
}
