//! What is due for a script that was read.
ghost use Rattle.std.specs.Prelude.{◌≡◌, ◌≤◌, [], true, false, None, Some, IfOk};
ghost use Rattle.std.specs.List.{All};
ghost use Rattle.solv_pool.specs.Prelude.{catalog_of, hard_rules, IsClosed};
ghost use Rattle.solv_pool.specs.TaskForms.{HasForms};
ghost use Rattle.solv_prov.specs.Index.{IsIndexOf};
ghost use Rattle.solv_rules.specs.Books.{first_fault};
ghost use Rattle.solv_answers.specs.Answers.{IsPrepared, first_limit};
ghost use Rattle.solv_answers.specs.Inner.Fronts.{MayGoOn};
ghost use Rattle.solv_script.specs.Rounds.{tasks, turns};
ghost use Rattle.solv_script.specs.Inner.Turns.{first_turn};
ghost use Rattle.solv_words.specs.declared.command_line.Output.TheVariants as output;
ghost use Rattle.solv_run.specs.Cases.{nothing_reached};
ghost use Rattle.solv_run.specs.Inner.ByOutput.{IsDueForScript, asks_answers, answers_due, answers_status};
ghost use Rattle.solv_run.specs.Inner.Rounds.{AreAll};
ghost use Rattle.solv_run.specs.Texts.{printed};

use crate::checks::{append_false, are_true};
use crate::dues::{Conclusion, PROGRAM, nothing_reached, status_of, unanswered};
use crate::lean::lean_due;
use crate::outputs::{asks_answers, prints_lines};
use crate::proving::proofs_due;
use crate::rounds::{Begun, answer_with, later_rounds};
use crate::texts::spent_text_where;
use solv_answers::{Prepared, prepare_first};
use solv_io::Status;
use solv_list::Bytes;
use solv_prov::Providers;
use solv_rules::BookFault;
use solv_said::{Due, limit_due};
use solv_script::Script;
use solv_words::Command;
use solv_writing::write_script;
use std::alloc::{AllocError, Global};

/// The status of the answers to the rounds of a script, where lines are asked for.
fn answers_status(command: &Command, script: &Script, begun: &Begun) -> Status
    requires plain { command.now.output ≡ output.Lines }
    requires all { AreAll command.now (tasks script.now) (turns script.now) begun.now }
    ensures { result ≡ answers_status script.now begun.now.reached.answers }
{
    let _ = command;
    let as_wanted = are_true(script.checks.held()) && begun.as_wanted;
    status_of(begun.spent, as_wanted)
}

/// What is printed of them.
fn answers_text(
    alloc: Global,
    command: &Command,
    script: &Script,
    begun: &Begun,
) -> Result<Vec<u8>, AllocError>
    requires plain { command.now.output ≡ output.Lines }
    requires all { AreAll command.now (tasks script.now) (turns script.now) begun.now }
    ensures { IfOk result (λ text. text.items ≡ printed command.now.shows script.now begun.now.reached.answers) }
{
    let _ = command;
    let mut out = Vec::new(alloc);
    append_false(script.checks.held(), &mut out)?;
    out.extend_from_slice(&begun.text)?;
    Ok(out)
}

/// What is due for the answers to the rounds of a script, where lines are asked for.
fn answers_due(
    alloc: Global,
    command: &Command,
    script: &Script,
    begun: &Begun,
) -> Result<Due, AllocError>
    requires plain { command.now.output ≡ output.Lines }
    requires all { AreAll command.now (tasks script.now) (turns script.now) begun.now }
    ensures { IfOk result (λ due. due ≡ answers_due command.now script.now begun.now.reached.answers) }
{
    let out = answers_text(alloc, command, script, begun)?;
    let err = spent_text_where(alloc, begun.spent, command.budget)?;
    Ok(Due {
        status: answers_status(command, script, begun),
        out: Bytes::wrap(out),
        err: Bytes::wrap(err),
    })
}

/// What the rounds of a script come to, where lines are asked for.
fn answers_concluded(
    alloc: Global,
    command: &Command,
    script: &Script,
    begun: Begun,
) -> Result<Conclusion, AllocError>
    requires plain { command.now.output ≡ output.Lines }
    requires fits { first_limit (tasks script.now) ≡ None }
    requires all { AreAll command.now (tasks script.now) (turns script.now) begun }
    ensures { IfOk result (λ conclusion. IsDueForScript command.now script.now conclusion.due conclusion.reached) }
{
    let due = answers_due(alloc, command, script, &begun)?;
    Ok(Conclusion {
        due,
        reached: begun.reached,
    })
}

/// What they come to where proofs are asked for.
fn proofs_concluded(
    alloc: Global,
    command: &Command,
    script: &Script,
    begun: Begun,
) -> Result<Conclusion, AllocError>
    requires asked { command.now.output ≡ output.Proofs }
    requires fits { first_limit (tasks script.now) ≡ None }
    requires all { AreAll command.now (tasks script.now) (turns script.now) begun }
    ensures { IfOk result (λ conclusion. IsDueForScript command.now script.now conclusion.due conclusion.reached) }
{
    let due = proofs_due(alloc, command.budget, script, begun.spent, &begun.reached)?;
    Ok(Conclusion {
        due,
        reached: begun.reached,
    })
}

/// What is due for a limit that the clauses of a round pass.
fn passed_due(
    alloc: Global,
    command: &Command,
    script: &Script,
    fault: BookFault,
) -> Result<Conclusion, AllocError>
    requires asks { asks_answers command.now.output ≡ true }
    requires closed { IsClosed script.now.task }
    requires passed { first_limit (tasks script.now) ≡ Some fault }
    ensures { IfOk result (λ conclusion. IsDueForScript command.now script.now conclusion.due conclusion.reached) }
{
    let due = limit_due(alloc, PROGRAM, &script.task, fault)?;
    Ok(unanswered(alloc, due))
}

/// What the rounds of a script come to, of which all are answered.
pub(crate) fn concluded(
    alloc: Global,
    command: &Command,
    script: &Script,
    begun: Begun,
) -> Result<Conclusion, AllocError>
    requires asks { asks_answers command.now.output ≡ true }
    requires fits { first_limit (tasks script.now) ≡ None }
    requires all { AreAll command.now (tasks script.now) (turns script.now) begun }
    ensures { IfOk result (λ conclusion. IsDueForScript command.now script.now conclusion.due conclusion.reached) }
{
    if prints_lines(command.output) {
        answers_concluded(alloc, command, script, begun)
    } else {
        proofs_concluded(alloc, command, script, begun)
    }
}

/// Nothing begun, and the whole budget left.
pub(crate) fn none_begun(alloc: Global, budget: u32) -> Begun
    ensures reached { result.reached ≡ nothing_reached }
    ensures text { result.text.items ≡ [] }
    ensures as_wanted { result.as_wanted ≡ true }
    ensures left { result.left ≡ budget }
{
    Begun {
        reached: nothing_reached(alloc),
        text: Vec::new(alloc),
        as_wanted: true,
        spent: false,
        left: budget,
    }
}

/// Answers a script whose first round is prepared. A limit that the clauses of a later round pass is reported, whatever was answered
/// before.
fn rounds_due(
    alloc: Global,
    command: &Command,
    script: &mut Script,
    first: Prepared<'_>,
) -> Result<Conclusion, AllocError>
    requires asks { asks_answers command.now.output ≡ true }
    requires closed { All IsClosed (tasks script.old) }
    requires forms { All HasForms (tasks script.old) }
    requires first { IsPrepared script.old.task first }
    requires goes_on { MayGoOn (catalog_of script.old.task) first }
    requires budget { command.now.budget ≤ 1000000 }
    ensures { IfOk result (λ conclusion. IsDueForScript command.now script.old conclusion.due conclusion.reached) }
{
    let mut begun = none_begun(alloc, command.budget);
    let first = answer_with(alloc, command, script, first, &mut begun)?;
    match later_rounds(alloc, command, script, first, &mut begun) {
        Ok(()) => concluded(alloc, command, script, begun),
        Err(BookFault::Memory) => Err(AllocError),
        Err(fault) => passed_due(alloc, command, script, fault),
    }
}

/// What is due for a script that was read, by all hard rules of its rounds.
fn whole_due(
    alloc: Global,
    command: &Command,
    script: &mut Script,
    prov: &Providers,
) -> Result<Conclusion, AllocError>
    requires asks { asks_answers command.now.output ≡ true }
    requires closed { All IsClosed (tasks script.old) }
    requires forms { All HasForms (tasks script.old) }
    requires index { IsIndexOf prov.now (catalog_of script.old.task) }
    requires budget { command.now.budget ≤ 1000000 }
    ensures { IfOk result (λ conclusion. IsDueForScript command.now script.old conclusion.due conclusion.reached) }
{
    match prepare_first(alloc, &script.task, prov) {
        Ok(first) => rounds_due(alloc, command, script, first),
        Err(BookFault::Memory) => Err(AllocError),
        Err(fault) => passed_due(alloc, command, script, fault),
    }
}

/// What is due for a script that was read, where its answers are asked for.
fn solved_due(
    alloc: Global,
    command: &Command,
    script: &mut Script,
) -> Result<Conclusion, AllocError>
    requires asks { asks_answers command.now.output ≡ true }
    requires closed { All IsClosed (tasks script.old) }
    requires forms { All HasForms (tasks script.old) }
    requires budget { command.now.budget ≤ 1000000 }
    ensures { IfOk result (λ conclusion. IsDueForScript command.now script.old conclusion.due conclusion.reached) }
{
    let prov = Providers::build(alloc, &script.task)?;
    match lean_due(alloc, command, script, &prov)? {
        Some(conclusion) => Ok(conclusion),
        None => whole_due(alloc, command, script, &prov),
    }
}

/// What is due where the script itself is asked for.
fn written_due(alloc: Global, command: &Command, script: &Script) -> Result<Conclusion, AllocError>
    requires asked { command.now.output ≡ output.Script }
    requires closed { All IsClosed (tasks script.now) }
    ensures { IfOk result (λ conclusion. IsDueForScript command.now script.now conclusion.due conclusion.reached) }
{
    let _ = command;
    let due = Due {
        status: Status::Done,
        out: write_script(alloc, script)?,
        err: Bytes::wrap(Vec::new(alloc)),
    };
    Ok(unanswered(alloc, due))
}

/// What is due for a script that was read.
pub(crate) fn script_due(
    alloc: Global,
    command: &Command,
    script: &mut Script,
) -> Result<Conclusion, AllocError>
    requires closed { All IsClosed (tasks script.old) }
    requires forms { All HasForms (tasks script.old) }
    requires budget { command.now.budget ≤ 1000000 }
    ensures { IfOk result (λ conclusion. IsDueForScript command.now script.old conclusion.due conclusion.reached) }
{
    if asks_answers(command.output) {
        solved_due(alloc, command, script)
    } else {
        written_due(alloc, command, script)
    }
}
