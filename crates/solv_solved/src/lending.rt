//! A script among files that a caller lends.
ghost use Rattle.std.specs.Prelude.{◌≡◌, ◌≤◌, IfOk};
ghost use Rattle.solv_solved.specs.Solvings.{IsHeldOfLent};

use crate::outcomes::Held;
use crate::solving::solve_script;
use solv_lent::{Lending, LentFile, LentFiles};
use solv_list::Text;
use std::alloc::{AllocError, Global};
use std::marker::Brand;

/// Reads the script of this name among the files that are lent in this run, and answers its first round.
fn solve_over<K: Lending>(
    alloc: Global,
    files: &[LentFile],
    name: &Text,
    budget: u32,
) -> Result<Held, AllocError>
    requires files { files.now ≡ K.held }
    requires budget { budget ≤ 1000000 }
    ensures { IfOk result (IsHeldOfLent K.held name.now budget) }
{
    let mut lent = LentFiles::<K>::new(alloc, files);
    solve_script(alloc, name.held(), &mut lent, budget)
}

/// Reads the script of this name, which is one of the files that the caller lends, and answers its first round. No file is asked for but
/// those that are lent, and none of them is kept.
pub fn solve_lent(
    alloc: Global,
    files: &[LentFile],
    name: &str,
    budget: u32,
) -> Result<Held, AllocError>
    requires { budget ≤ 1000000 }
    ensures { IfOk result (IsHeldOfLent files.now name.now budget) }
{
    let name = Text::wrap(String::from_str(alloc, name)?);
    solve_over::<Brand>(alloc, files, &name, budget)
}
