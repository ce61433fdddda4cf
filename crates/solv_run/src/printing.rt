//! What is printed for an answer.
ghost use Rattle.std.specs.Prelude.{◌≡◌, ◌++◌, ◌∷◌, [], ◌||◌, map, true, false, length, is_none, IfOk, OnOk};
ghost use Rattle.solv_io.specs.Lines.{ended_lines};
ghost use Rattle.solv_pool.specs.Prelude.{when, IsClosed, catalog_of, hard_rules};
ghost use Rattle.solv_prov.specs.Index.{IsIndexOf};
ghost use Rattle.solv_rules.specs.Books.{read_rules};
ghost use Rattle.solv_answers.specs.Answers.{is_transaction};
ghost use Rattle.solv_script.specs.Inner.Turns.{first_turn};
ghost use Rattle.solv_run.specs.Inner.Outcomes.{has_listed};
ghost use Rattle.solv_run.specs.Inner.Texts.{problems_lines, is_as_wanted};
ghost use Rattle.solv_run.specs.Texts.{answer_lines, told_lines, differing_lines, differences, round_lines};
ghost use Rattle.solv_lines.specs.LineSets.{line_set};

use solv_answers::Answer;
use solv_lines::{LineSet, Outcome, compare, line_set, result_lines};
use solv_list::Bytes;
use solv_pool::Rules;
use solv_prov::Providers;
use solv_remedy::Problem;
use solv_script::Script;
use std::alloc::{AllocError, Global};

/// The result lines of problems.
fn lines_of_problems(
    alloc: Global,
    script: &Script,
    prov: &Providers,
    rules: &Rules,
    problems: &[Problem],
) -> Result<LineSet, AllocError>
    requires closed { IsClosed script.now.task }
    requires index { IsIndexOf prov.now (catalog_of script.now.task) }
    ensures { IfOk result (λ lines. lines ≡ line_set (problems_lines script.now.task (read_rules rules.now) script.now.kinds problems.now)) }
{
    let failed = Outcome::Failed(problems);
    result_lines(alloc, script.kinds, &script.task, prov, rules, &failed)
}

/// The result lines of an answer to a script.
fn answer_lines(
    alloc: Global,
    script: &Script,
    prov: &Providers,
    rules: &Rules,
    answer: &Answer,
) -> Result<LineSet, AllocError>
    requires closed { IsClosed script.now.task }
    requires index { IsIndexOf prov.now (catalog_of script.now.task) }
    requires rules { is_transaction answer.now ≡ false → read_rules rules.now ≡ hard_rules script.now.task }
    requires listed { has_listed (length script.now.task.universe.packages) answer.now ≡ true }
    ensures { IfOk result (λ lines. lines ≡ line_set (answer_lines script.now.task script.now.kinds answer.now)) }
{
    let task = &script.task;
    match answer {
        Answer::Transaction {
            trail,
            set,
            changes,
            ordered,
        } => {
            let solved = Outcome::Solved {
                changes: changes.held(),
                ordered,
                trail,
                set: set.held(),
            };
            result_lines(alloc, script.kinds, task, prov, rules, &solved)
        }
        Answer::Problems(problems) => {
            lines_of_problems(alloc, script, prov, rules, problems.held())
        }
        Answer::Spent => {
            let spent = Outcome::Spent;
            result_lines(alloc, script.kinds, task, prov, rules, &spent)
        }
    }
}

/// What is printed for an answer, and whether its lines are as the script expects them.
#[derive(Drop)]
pub(crate) struct Said {
    pub(crate) text: Vec<u8>,
    pub(crate) as_wanted: bool,
}

/// Appends lines, each with a sign before it.
fn append_signed(
    alloc: Global,
    sign: u8,
    lines: &[Bytes],
    signed: &mut Vec<Bytes>,
) -> Result<(), AllocError>
    ensures { OnOk result (signed.new.items ≡ signed.old.items ++ map (λ line. (sign ∷ []) ++ line) lines.now) }
{
    for line in lines {
        let mut text = Vec::new(alloc);
        text.push(sign)?;
        text.extend_from_slice(line.held())?;
        signed.push(Bytes::wrap(text))?;
    }
    Ok(())
}

/// How lines differ from those that are expected.
fn differing_lines(
    alloc: Global,
    wanted: &LineSet,
    given: &LineSet,
) -> Result<Vec<Bytes>, AllocError>
    ensures { IfOk result (λ lines. lines.items ≡ differing_lines wanted.now given.now) }
{
    let compared = compare(alloc, wanted, given)?;
    let mut lines = Vec::new(alloc);
    append_signed(alloc, b'-', compared.missing.held(), &mut lines)?;
    append_signed(alloc, b'+', compared.extra.held(), &mut lines)?;
    Ok(lines)
}

/// How the result lines of an answer differ from those that the script expects.
fn differences(
    alloc: Global,
    script: &Script,
    answer: &Answer,
    given: &LineSet,
) -> Result<Vec<Bytes>, AllocError>
    requires { given.now ≡ told_lines (first_turn script.now) answer.now }
    ensures { IfOk result (λ lines. lines.items ≡ differences (first_turn script.now) answer.now) }
{
    if answer.is_spent() {
        return Ok(Vec::new(alloc));
    }
    match &script.wanted {
        None => Ok(Vec::new(alloc)),
        Some(wanted) => {
            let wanted = line_set(alloc, wanted.held())?;
            differing_lines(alloc, &wanted, given)
        }
    }
}

/// Appends lines, each ended by a line feed.
fn append_lines(lines: &[Bytes], text: &mut Vec<u8>) -> Result<(), AllocError>
    ensures { OnOk result (text.new.items ≡ text.old.items ++ ended_lines lines.now) }
{
    for line in lines {
        text.extend_from_slice(line.held())?;
        text.push(b'\n')?;
    }
    Ok(())
}

/// Appends the result lines, where they are asked for or the script expects none.
fn append_told(
    shows: bool,
    script: &Script,
    given: &LineSet,
    text: &mut Vec<u8>,
) -> Result<(), AllocError>
    ensures { OnOk result (text.new.items ≡ text.old.items ++ ended_lines (when (shows || is_none script.now.wanted) given.now)) }
{
    if shows || script.wanted.is_none() {
        append_lines(given.lines(), text)
    } else {
        Ok(())
    }
}

/// What is printed for the answer to the first round of a script. The rules are those that problems name; a transaction names none.
pub(crate) fn round_said(
    alloc: Global,
    shows: bool,
    script: &Script,
    prov: &Providers,
    rules: &Rules,
    answer: &Answer,
) -> Result<Said, AllocError>
    requires closed { IsClosed script.now.task }
    requires index { IsIndexOf prov.now (catalog_of script.now.task) }
    requires rules { is_transaction answer.now ≡ false → read_rules rules.now ≡ hard_rules script.now.task }
    requires listed { has_listed (length script.now.task.universe.packages) answer.now ≡ true }
    ensures text { IfOk result (λ made. made.text.items ≡ ended_lines (round_lines shows (first_turn script.now) answer.now)) }
    ensures as_wanted { IfOk result (λ made. made.as_wanted ≡ is_as_wanted (first_turn script.now) answer.now) }
{
    let given = answer_lines(alloc, script, prov, rules, answer)?;
    let differing = differences(alloc, script, answer, &given)?;
    let mut text = Vec::new(alloc);
    append_told(shows, script, &given, &mut text)?;
    append_lines(&differing, &mut text)?;
    let as_wanted = differing.is_empty();
    Ok(Said { text, as_wanted })
}
