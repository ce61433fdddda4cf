//! Scripts as one text.
ghost use Rattle.std.specs.Prelude.{◌≡◌, ◌≤◌, ◌++◌, true, length, IfOk, OnOk};
ghost use Rattle.std.specs.List.{All, list_all};
ghost use Rattle.solv_io.specs.Lines.{ended_lines};
ghost use Rattle.solv_pool.specs.Prelude.{IsOver, IsClosed, line_fits, written_task};
ghost use Rattle.solv_script.specs.Reads.{written_script};
ghost use Rattle.solv_script.specs.Rounds.{tasks};
ghost use Rattle.solv_script.specs.Grammar.{most_file};
ghost use Rattle.solv_writing.specs.Inner.ScriptParts.{universe_lines};
ghost use Rattle.solv_writing.specs.ScriptTexts.{text_of_script};
ghost use Rattle.solv_writing.specs.WrittenBack.{IsReadBack, CameFromText};

use crate::check_lines::put_checks;
use crate::laws::each_script_is_read_back;
use crate::namespace_lines::put_namespaces;
use crate::package_words::put_disabled_packages;
use crate::round_lines::{put_later, put_round};
use crate::system_lines::put_system;
use crate::whole_repositories::put_repositories;
use solv_list::Bytes;
use solv_pool::Task;
use solv_script::Script;
use std::alloc::{AllocError, Global};

/// Appends the lines on the universe: repositories with their packages, the system, disabled packages, and namespaces.
fn put_universe(alloc: Global, task: &Task, into: &mut Vec<u8>) -> Result<(), AllocError>
    requires over { IsOver task.now.pool task.now.universe }
    requires namespaces { list_all (line_fits (length task.now.pool.names) (length task.now.universe.packages)) task.now.namespaces ≡ true }
    ensures { OnOk result (into.new.items ≡ into.old.items ++ ended_lines (universe_lines (written_task task.now))) }
{
    task.universe.marks_each();
    put_repositories(alloc, &task.pool, &task.universe, into)?;
    put_system(&task.pool, &task.universe, into)?;
    put_disabled_packages(&task.pool, &task.universe, into)?;
    put_namespaces(&task.pool, &task.universe, task.namespaces.held(), into)?;
    Ok(())
}

/// A script as one text: its repositories with their packages, the system, the disabled packages, the namespaces, the comparisons,
/// and its rounds. Of what was read it has no comments, no blank lines and no names of files.
///
/// Where the script was read, and the text is no longer than a file may be, it is read as the same script (`sense`).
pub fn write_script(alloc: Global, script: &Script) -> Result<Bytes, AllocError>
    requires closed { All IsClosed (tasks script.now) }
    ensures text { IfOk result (λ text. text ≡ text_of_script (written_script script.now)) }
    ensures sense { IfOk result (λ text. CameFromText script.now → length text ≤ most_file → IsReadBack (written_script script.now) text) }
{
    each_script_is_read_back();
    let mut text = Vec::new(alloc);
    put_universe(alloc, &script.task, &mut text)?;
    put_checks(&mut text, script.checks.held())?;
    put_round(
        alloc,
        &script.task.flags,
        script.task.jobs.held(),
        &script.kinds,
        &script.wanted,
        &mut text,
    )?;
    put_later(alloc, script.later.held(), &mut text)?;
    Ok(Bytes::wrap(text))
}
