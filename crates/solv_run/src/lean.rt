//! What is due where the rules of what can be asked for give the answer.
ghost use Rattle.std.specs.Prelude.{◌≡◌, ◌≤◌, [], None, false, true, IfOk, IfSome};
ghost use Rattle.std.specs.List.{All};
ghost use Rattle.solv_pool.specs.Prelude.{catalog_of, hard_rules, IsClosed};
ghost use Rattle.solv_pool.specs.TaskForms.{HasForms};
ghost use Rattle.solv_prov.specs.Index.{IsIndexOf};
ghost use Rattle.solv_rules.specs.Books.{first_fault, read_rules};
ghost use Rattle.solv_answers.specs.Answers.{is_transaction};
ghost use Rattle.solv_script.specs.Rounds.{tasks};
ghost use Rattle.solv_run.specs.Inner.ByOutput.{IsDueForScript, asks_answers};
ghost use Rattle.solv_run.specs.Rounds.{IsGoodAnswer};

use crate::dues::Conclusion;
use crate::running::{concluded, none_begun};
use solv_answers::{LeanAnswer, answer_lean};
use solv_prov::Providers;
use solv_script::Script;
use solv_words::Command;
use std::alloc::{AllocError, Global};

/// What is due for the answer to a script of one round.
fn answer_due(
    alloc: Global,
    command: &Command,
    script: &Script,
    prov: &Providers,
    given: LeanAnswer,
) -> Result<Conclusion, AllocError>
    requires asks { asks_answers command.now.output ≡ true }
    requires closed { IsClosed script.now.task }
    requires alone { script.now.later ≡ [] }
    requires index { IsIndexOf prov.now (catalog_of script.now.task) }
    requires good { IsGoodAnswer script.now.task command.now.budget given.answered.answer given.answered.ledger }
    requires rules { is_transaction given.answered.answer ≡ false → read_rules given.rules ≡ hard_rules script.now.task }
    requires fits { first_fault (catalog_of script.now.task) 0 (hard_rules script.now.task) ≡ None }
    ensures { IfOk result (λ conclusion. IsDueForScript command.now script.now conclusion.due conclusion.reached) }
{
    let mut begun = none_begun(alloc, command.budget);
    let LeanAnswer { answered, rules } = given;
    begun.add(alloc, command, script, prov, &rules, answered)?;
    drop(rules);
    concluded(alloc, command, script, begun)
}

/// What is due for a script of one round, where the rules of what can be asked for give the answer.
pub(crate) fn lean_due(
    alloc: Global,
    command: &Command,
    script: &Script,
    prov: &Providers,
) -> Result<Option<Conclusion>, AllocError>
    requires asks { asks_answers command.now.output ≡ true }
    requires closed { All IsClosed (tasks script.now) }
    requires forms { All HasForms (tasks script.now) }
    requires index { IsIndexOf prov.now (catalog_of script.now.task) }
    requires budget { command.now.budget ≤ 1000000 }
    ensures { IfOk result (λ due. IfSome due (λ conclusion. IsDueForScript command.now script.now conclusion.due conclusion.reached)) }
{
    if !script.later.is_empty() {
        return Ok(None);
    }
    match answer_lean(alloc, &script.task, prov, command.budget)? {
        Some(given) => {
            let due = answer_due(alloc, command, script, prov, given)?;
            Ok(Some(due))
        }
        None => Ok(None),
    }
}
