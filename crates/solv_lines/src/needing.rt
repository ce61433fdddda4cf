//! The lines of what the user asked for, and of what nobody needs.
ghost use Rattle.std.specs.Prelude.{◌≡◌, ◌++◌, true, length, nat_le, map, IfOk, OnOk};
ghost use Rattle.std.specs.List.{list_all};
ghost use Rattle.solv_pool.specs.Prelude.{IsOver, catalog_of, IsClosed, is_among, when};
ghost use Rattle.solv_prov.specs.Index.{IsIndexOf};
ghost use Rattle.solv_clean.specs.Unneeded.{users as users_of, unneeded as unneeded_of};
ghost use Rattle.solv_lines.specs.Inner.LineNames.{with_lines, pack_line, need_lines, user_word, unneeded_word};

use crate::line_sets::Lines;
use crate::writing::{begun_text, write_single};
use solv_clean::{unneeded, users};
use solv_list::Bytes;
use solv_pool::{PackNo, Task};
use solv_prov::Providers;
use solv_script::Kinds;
use std::alloc::{AllocError, Global};

/// The line of a word and a package.
fn pack_line(alloc: Global, task: &Task, word: &[u8], pack: PackNo) -> Result<Bytes, AllocError>
    requires { IsOver task.now.pool task.now.universe }
    ensures { IfOk result (λ line. line ≡ pack_line (catalog_of task.now) word.now pack) }
{
    let mut line = begun_text(alloc)?;
    write_single(task, word, pack, &mut line)?;
    Ok(Bytes::wrap(line))
}

/// Puts the lines of a word and of each of these packages into a set.
fn put_packs(
    alloc: Global,
    task: &Task,
    word: &[u8],
    packs: &[PackNo],
    lines: &mut Lines,
) -> Result<(), AllocError>
    requires { IsOver task.now.pool task.now.universe }
    ensures { OnOk result (lines.new ≡ with_lines lines.old (map (pack_line (catalog_of task.now) word.now) packs.now)) }
{
    for pack in packs {
        lines.insert(pack_line(alloc, task, word, *pack)?)?;
    }
    Ok(())
}

/// Puts the lines of what the user asked for of a set into a set of lines, where they are asked for.
fn put_users(
    alloc: Global,
    kinds: Kinds,
    task: &Task,
    prov: &Providers,
    set: &[PackNo],
    lines: &mut Lines,
) -> Result<(), AllocError>
    requires closed { IsClosed task.now }
    requires index { IsIndexOf prov.now (catalog_of task.now) }
    requires within { list_all (λ p. nat_le p (length task.now.universe.packages)) set.now ≡ true }
    ensures { OnOk result (lines.new ≡ with_lines lines.old (when kinds.userinstalled (map (pack_line (catalog_of task.now) user_word) (users_of (catalog_of task.now) task.now.jobs (is_among set.now))))) }
{
    if kinds.userinstalled {
        let packs = users(alloc, task, prov, set)?;
        return put_packs(alloc, task, b"userinstalled", &packs, lines);
    }
    Ok(())
}

/// Puts the lines of what nobody needs of a set into a set of lines, where they are asked for.
fn put_unneeded(
    alloc: Global,
    kinds: Kinds,
    task: &Task,
    prov: &Providers,
    set: &[PackNo],
    lines: &mut Lines,
) -> Result<(), AllocError>
    requires closed { IsClosed task.now }
    requires index { IsIndexOf prov.now (catalog_of task.now) }
    requires within { list_all (λ p. nat_le p (length task.now.universe.packages)) set.now ≡ true }
    requires system { is_among set.now 0 ≡ true }
    ensures { OnOk result (lines.new ≡ with_lines lines.old (when kinds.unneeded (map (pack_line (catalog_of task.now) unneeded_word) (unneeded_of (catalog_of task.now) task.now.jobs (is_among set.now))))) }
{
    if kinds.unneeded {
        let packs = unneeded(alloc, task, prov, set)?;
        return put_packs(alloc, task, b"unneeded", &packs, lines);
    }
    Ok(())
}

/// Puts the lines of who needs the packages of a set into a set of lines, of the kinds that are asked for.
pub(crate) fn put_needs(
    alloc: Global,
    kinds: Kinds,
    task: &Task,
    prov: &Providers,
    set: &[PackNo],
    lines: &mut Lines,
) -> Result<(), AllocError>
    requires closed { IsClosed task.now }
    requires index { IsIndexOf prov.now (catalog_of task.now) }
    requires within { list_all (λ p. nat_le p (length task.now.universe.packages)) set.now ≡ true }
    requires system { is_among set.now 0 ≡ true }
    ensures { OnOk result (lines.new ≡ with_lines lines.old (need_lines (catalog_of task.now) task.now.jobs kinds set.now)) }
{
    put_users(alloc, kinds, task, prov, set, lines)?;
    put_unneeded(alloc, kinds, task, prov, set, lines)?;
    Ok(())
}
