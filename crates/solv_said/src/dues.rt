//! What is due at the end of a run.
ghost use Rattle.std.specs.Prelude.{◌≡◌, IfOk};
ghost use Rattle.solv_pool.specs.Prelude.{IsOver};
ghost use Rattle.solv_said.specs.Dues.{limit_due, line_due, read_fault_due};
ghost use Rattle.solv_said.specs.Inner.Dues.{usage_due};
ghost use Rattle.solv_said.specs.Inner.Faults.{IsFaultDue};

use crate::texts::{bad_line_text, limit_text, read_fault_text};
use solv_io::Status;
use solv_list::Bytes;
use solv_pool::Task;
use solv_rules::BookFault;
use solv_script::ScriptFault;
use std::alloc::{AllocError, Global};

/// What is due at the end of a run: how it ends, and the texts for both sinks.
#[derive(Drop)]
pub struct Due {
    pub status: Status,
    pub out: Bytes,
    pub err: Bytes,
}

/// One line on `err`, and nothing else.
pub fn line_due(alloc: Global, status: Status, line: Vec<u8>) -> Due
    ensures { result ≡ line_due status line.items }
{
    Due {
        status,
        out: Bytes::wrap(Vec::new(alloc)),
        err: Bytes::wrap(line),
    }
}

/// What is due for words that are not of the form that a line shows.
pub fn usage_due(alloc: Global, usage: &[u8]) -> Result<Due, AllocError>
    ensures { IfOk result (λ due. due ≡ usage_due usage.now) }
{
    let line = usage.to_vec(alloc)?;
    Ok(line_due(alloc, Status::Usage, line))
}

/// What is due for a file that cannot be read.
pub fn read_fault_due(alloc: Global, program: &str, file: &str) -> Result<Due, AllocError>
    ensures { IfOk result (λ due. due ≡ read_fault_due program.now file.now) }
{
    let line = read_fault_text(alloc, program, file)?;
    Ok(line_due(alloc, Status::ReadFault, line.into_bytes()))
}

/// What is due where no script was read, unless memory ran out.
pub fn fault_due(alloc: Global, program: &str, fault: ScriptFault) -> Result<Due, AllocError>
    ensures { IfOk result (IsFaultDue program.now fault) }
{
    match fault {
        ScriptFault::Refused { file, line, cause } => {
            let text = bad_line_text(alloc, program, file.held(), line, cause.name())?;
            Ok(line_due(alloc, Status::Refused, text.into_bytes()))
        }
        ScriptFault::ReadFault { name } => read_fault_due(alloc, program, name.held()),
        ScriptFault::Memory => Err(AllocError),
    }
}

/// What is due for a limit that the clauses of a task pass.
pub fn limit_due(
    alloc: Global,
    program: &str,
    task: &Task,
    fault: BookFault,
) -> Result<Due, AllocError>
    requires { IsOver task.now.pool task.now.universe }
    ensures { IfOk result (λ due. due ≡ limit_due program.now task.now fault) }
{
    let line = limit_text(alloc, program, task, fault)?;
    Ok(line_due(alloc, Status::Refused, line))
}
