//! The script that a run reads.
ghost use Rattle.std.specs.Prelude.{◌≡◌, ℕ, List, Option, Some, IfOk, IfErr};
ghost use Rattle.std.specs.List.{All};
ghost use Rattle.solv_pool.specs.Prelude.{IsClosed};
ghost use Rattle.solv_pool.specs.TaskForms.{HasForms};
ghost use Rattle.solv_script.specs.FileRuns.{FilesRun};
ghost use Rattle.solv_script.specs.Rounds.{tasks};
ghost use Rattle.solv_script.specs.Inner.FileRuns.{HasEnded, IsRead, script_piece};
ghost use Rattle.solv_said.specs.Fetches.{WasFetched};
ghost use Rattle.solv_said.specs.Inner.Faults.{HasNoScript, IsReadFaultOf};
ghost use Rattle.solv_said.specs.Runs.{files_run};

use solv_io::{FileFault, Files};
use solv_list::Text;
use solv_script::{Script, ScriptFault, read_script};
use std::alloc::Global;

/// One more byte than a script may have, so that a script that is too long is seen to be.
const MOST_FETCHED: usize = 67_108_865;

/// The fault of a file that could not be read.
fn read_fault(alloc: Global, file: &str) -> ScriptFault
    ensures { IsReadFaultOf file.now result }
{
    match String::from_str(alloc, file) {
        Ok(name) => ScriptFault::ReadFault {
            name: Text::wrap(name),
        },
        Err(_) => ScriptFault::Memory,
    }
}

/// Reads the script that has these bytes, and frees them.
fn read_fetched<F: Files>(
    alloc: Global,
    file: &str,
    bytes: Vec<u8>,
    files: &mut F,
) -> Result<Script, ScriptFault>
    ensures read { IfOk result (IsRead (script_piece file.now bytes.items)
        (files_run F.contents F.asked F.faults files.old files.new)) }
    ensures closed { IfOk result (λ script. All IsClosed (tasks script)) }
    ensures forms { IfOk result (λ script. All HasForms (tasks script)) }
    ensures ended { IfErr result (HasEnded (script_piece file.now bytes.items)
        (files_run F.contents F.asked F.faults files.old files.new)) }
    ensures contents { F.contents files.new ≡ F.contents files.old }
{
    read_script(alloc, file, &bytes, files)
}

/// Fetches a script and reads it, with the files that it names.
///
/// What is due for a fault is due for the files (`IsUnreadDue`), and no file is asked for that the script does not ask for.
pub fn fetch_script<F: Files>(
    alloc: Global,
    file: &str,
    files: &mut F,
) -> Result<Script, ScriptFault>
    ensures read { IfOk result (WasFetched (Some file.now)
        (files_run F.contents F.asked F.faults files.old files.new)) }
    ensures closed { IfOk result (λ script. All IsClosed (tasks script)) }
    ensures forms { IfOk result (λ script. All HasForms (tasks script)) }
    ensures ended { IfErr result (HasNoScript (Some file.now)
        (files_run F.contents F.asked F.faults files.old files.new)) }
    ensures contents { F.contents files.new ≡ F.contents files.old }
{
    let mut bytes = Vec::new(alloc);
    match files.fetch(file, MOST_FETCHED, &mut bytes) {
        Ok(()) => read_fetched(alloc, file, bytes, files),
        Err(FileFault::Failed) => Err(read_fault(alloc, file)),
        Err(FileFault::Memory) => Err(ScriptFault::Memory),
    }
}
