//! The rounds of a script, answered in turn within one budget.
ghost use Rattle.std.specs.Prelude.{◌≡◌, ◌<◌, ◌≤◌, ◌+◌, ◌-◌, ◌++◌, ◌∷◌, [], ◌&&◌, None, Some, codes, false, true, length, map, slice_get, IfErr, IfOk, IfSome, OnOk};
ghost use Rattle.std.specs.List.{All};
ghost use Rattle.solv_io.specs.Lines.{ended_lines};
ghost use Rattle.solv_pool.specs.Prelude.{catalog_of, hard_rules, IsClosed};
ghost use Rattle.solv_pool.specs.TaskForms.{HasForms};
ghost use Rattle.solv_prov.specs.Index.{IsIndexOf};
ghost use Rattle.solv_rules.specs.Books.{IsDue, first_fault, read_rules};
ghost use Rattle.solv_rounds.specs.Inner.Fronts.{IsDueAt, IsLimitAt};
ghost use Rattle.solv_answers.specs.Answers.{IsPrepared, first_limit, is_transaction};
ghost use Rattle.solv_answers.specs.Inner.Fronts.{MayGoOn};
ghost use Rattle.solv_script.specs.Rounds.{tasks, turn_of, turns, with_jobs_of};
ghost use Rattle.solv_script.specs.Inner.Turns.{first_turn};
ghost use Rattle.solv_run.specs.Inner.Outcomes.{has_listed};
ghost use Rattle.solv_run.specs.Inner.Rounds.{AreAll, GoesOn, HasBegun, HasNext, HasPrinted, HasTaken, IsOneMore};
ghost use Rattle.solv_run.specs.Inner.Texts.{is_as_wanted};
ghost use Rattle.solv_run.specs.Rounds.{IsGoodAnswer};
ghost use Rattle.solv_run.specs.Texts.{round_lines};

use crate::outputs::prints_lines;
use crate::printing::round_said;
use crate::reports::Reached;
use solv_answers::{Answer, Answered, Prepared, answer_in_turn, prepare_next};
use solv_pool::Rules;
use solv_prov::Providers;
use solv_rules::BookFault;
use solv_script::Script;
use solv_words::Command;
use std::alloc::{AllocError, Global};

/// The rounds that were begun.
#[derive(Drop)]
pub(crate) struct Begun {
    pub(crate) reached: Reached,
    /// What is printed of them, where lines are asked for.
    pub(crate) text: Vec<u8>,
    /// Whether the lines of each are as it expects.
    pub(crate) as_wanted: bool,
    /// Whether the last one spent the budget.
    pub(crate) spent: bool,
    /// What is left of the budget, where it is not spent.
    pub(crate) left: u32,
}

/// What an answer leaves of a budget.
fn left_by(left: u32, answered: &Answered) -> u32
    ensures left { length answered.now.ledger.entries ≤ left → result ≡ left - length answered.now.ledger.entries }
    ensures less { result ≤ left }
{
    (left as usize).saturating_sub(answered.ledger.entries.len()) as u32
}

impl Begun {
    /// Adds what is printed of the first round of a script.
    fn print(
        &mut self,
        alloc: Global,
        shows: bool,
        script: &Script,
        prov: &Providers,
        rules: &Rules,
        answer: &Answer,
    ) -> Result<(), AllocError>
        requires closed { IsClosed script.now.task }
        requires index { IsIndexOf prov.now (catalog_of script.now.task) }
        requires rules { is_transaction answer.now ≡ false → read_rules rules.now ≡ hard_rules script.now.task }
        requires listed { has_listed (length script.now.task.universe.packages) answer.now ≡ true }
        ensures { OnOk result (HasPrinted shows (first_turn script.now) answer.now self.old self.new) }
    {
        let said = round_said(alloc, shows, script, prov, rules, answer)?;
        self.text.extend_from_slice(&said.text)?;
        self.as_wanted = self.as_wanted && said.as_wanted;
        Ok(())
    }

    /// Adds an answer.
    fn take(&mut self, answered: Answered) -> Result<(), AllocError>
        ensures taken { OnOk result (HasTaken answered self.old self.new) }
        ensures left { self.new.left ≤ self.old.left }
    {
        self.spent = answered.answer.is_spent();
        self.left = left_by(self.left, &answered);
        self.reached.push(answered)
    }

    /// Adds the answer to the first round of a script, and what is printed of it, where lines are asked for.
    pub(crate) fn add(
        &mut self,
        alloc: Global,
        command: &Command,
        script: &Script,
        prov: &Providers,
        rules: &Rules,
        answered: Answered,
    ) -> Result<(), AllocError>
        requires closed { IsClosed script.now.task }
        requires index { IsIndexOf prov.now (catalog_of script.now.task) }
        requires good { IsGoodAnswer script.now.task self.old.left answered.answer answered.ledger }
        requires rules { is_transaction answered.answer ≡ false → read_rules rules.now ≡ hard_rules script.now.task }
        ensures one_more { OnOk result (IsOneMore command.now [] (first_turn script.now) self.old self.new) }
        ensures left { OnOk result (self.new.left ≤ self.old.left) }
    {
        if !prints_lines(command.output) {
            return self.take(answered);
        }
        self.print(alloc, command.shows, script, prov, rules, &answered.answer)?;
        self.take(answered)
    }
}

/// Answers the first round of a script, after those before.
pub(crate) fn answer_round(
    alloc: Global,
    command: &Command,
    script: &Script,
    prepared: &mut Prepared<'_>,
    begun: &mut Begun,
) -> Result<(), AllocError>
    requires closed { IsClosed script.now.task }
    requires forms { HasForms script.now.task }
    requires prepared { IsPrepared script.now.task prepared.old }
    requires goes_on { MayGoOn (catalog_of script.now.task) prepared.old }
    requires left { begun.old.left ≤ 1000000 }
    ensures one_more { OnOk result (IsOneMore command.now [] (first_turn script.now) begun.old begun.new) }
    ensures left { OnOk result (begun.new.left ≤ 1000000) }
    ensures goes_on { MayGoOn (catalog_of script.now.task) prepared.new }
{
    let keeps = !script.later.is_empty();
    let answered = answer_in_turn(alloc, &script.task, prepared, keeps, begun.left)?;
    let (prov, rules) = (prepared.prov, prepared.book.rules());
    begun.add(alloc, command, script, prov, rules, answered)
}

/// Answers the first round of a script with what it was prepared with, and hands that on.
pub(crate) fn answer_with<'a>(
    alloc: Global,
    command: &Command,
    script: &Script,
    mut prepared: Prepared<'a>,
    begun: &mut Begun,
) -> Result<Prepared<'a>, AllocError>
    requires closed { IsClosed script.now.task }
    requires forms { HasForms script.now.task }
    requires prepared { IsPrepared script.now.task prepared }
    requires goes_on { MayGoOn (catalog_of script.now.task) prepared }
    requires left { begun.old.left ≤ 1000000 }
    ensures one_more { OnOk result (IsOneMore command.now [] (first_turn script.now) begun.old begun.new) }
    ensures left { OnOk result (begun.new.left ≤ 1000000) }
    ensures goes_on { IfOk result (MayGoOn (catalog_of script.now.task)) }
{
    answer_round(alloc, command, script, &mut prepared, begun)?;
    Ok(prepared)
}

/// Appends the line before a later round to the text, where lines are asked for.
fn print_next(command: &Command, begun: &mut Begun) -> Result<(), AllocError>
    ensures { OnOk result (HasNext command.now begun.old begun.new) }
{
    if prints_lines(command.output) {
        begun.text.extend_from_slice(b"nextjob\n")?;
    }
    Ok(())
}

/// Answers the first round of a script with the line before a later round, where the budget is not spent yet.
fn answer_after<'a>(
    alloc: Global,
    command: &Command,
    script: &Script,
    prepared: Prepared<'a>,
    begun: &mut Begun,
) -> Result<Prepared<'a>, AllocError>
    requires closed { IsClosed script.now.task }
    requires forms { HasForms script.now.task }
    requires prepared { IsPrepared script.now.task prepared }
    requires goes_on { MayGoOn (catalog_of script.now.task) prepared }
    requires left { begun.old.left ≤ 1000000 }
    ensures begun { OnOk result (GoesOn command.now (first_turn script.now) begun.old begun.new) }
    ensures left { OnOk result (begun.new.left ≤ 1000000) }
    ensures goes_on { IfOk result (MayGoOn (catalog_of script.now.task)) }
{
    if begun.spent {
        return Ok(prepared);
    }
    print_next(command, begun)?;
    answer_with(alloc, command, script, prepared, begun)
}

/// Prepares the first round of a script after another, and answers it, where the budget is not spent yet; or reports the first limit that
/// its clauses pass.
fn next_round<'a>(
    alloc: Global,
    command: &Command,
    script: &Script,
    before: Prepared<'a>,
    begun: &mut Begun,
) -> Result<Prepared<'a>, BookFault>
    requires closed { IsClosed script.now.task }
    requires forms { HasForms script.now.task }
    requires before { MayGoOn (catalog_of script.now.task) before }
    requires left { begun.old.left ≤ 1000000 }
    ensures begun { OnOk result (GoesOn command.now (first_turn script.now) begun.old begun.new) }
    ensures left { OnOk result (begun.new.left ≤ 1000000) }
    ensures goes_on { IfOk result (MayGoOn (catalog_of script.now.task)) }
    ensures fits { OnOk result (first_fault (catalog_of script.now.task) 0 (hard_rules script.now.task) ≡ None) }
    ensures fault { IfErr result (IsDue (first_fault (catalog_of script.now.task) 0 (hard_rules script.now.task))) }
{
    let prepared = match prepare_next(alloc, &script.task, before) {
        Ok(prepared) => prepared,
        Err(fault) => return Err(fault),
    };
    match answer_after(alloc, command, script, prepared, begun) {
        Ok(prepared) => Ok(prepared),
        Err(_) => Err(BookFault::Memory),
    }
}

/// Prepares the later round at this place, and answers it, where the budget is not spent yet; or reports the first limit that its clauses pass.
/// The script is as before.
fn later_round<'a>(
    alloc: Global,
    command: &Command,
    script: &mut Script,
    before: Prepared<'a>,
    place: usize,
    begun: &mut Begun,
) -> Result<Prepared<'a>, BookFault>
    requires place { place < length script.old.later }
    requires closed { All IsClosed (tasks script.old) }
    requires forms { All HasForms (tasks script.old) }
    requires before { MayGoOn (catalog_of script.old.task) before }
    requires left { begun.old.left ≤ 1000000 }
    ensures script { script.new ≡ script.old }
    ensures begun { OnOk result (IfSome (slice_get script.old.later place) (λ r. GoesOn command.now (turn_of script.old r) begun.old begun.new)) }
    ensures left { OnOk result (begun.new.left ≤ 1000000) }
    ensures goes_on { IfOk result (MayGoOn (catalog_of script.old.task)) }
    ensures fits { OnOk result (IsLimitAt (tasks script.old) (place + 1) None) }
    ensures fault { IfErr result (IsDueAt (tasks script.old) (place + 1)) }
{
    script.turn(place);
    let prepared = next_round(alloc, command, script, before, begun);
    script.turn(place);
    prepared
}

/// Prepares the later rounds of a script in turn, and answers them until one spends the budget; or reports the first limit that the clauses of one
/// pass, whatever was answered before. The script is as before.
pub(crate) fn later_rounds(
    alloc: Global,
    command: &Command,
    script: &mut Script,
    first: Prepared<'_>,
    begun: &mut Begun,
) -> Result<(), BookFault>
    requires closed { All IsClosed (tasks script.old) }
    requires forms { All HasForms (tasks script.old) }
    requires first { MayGoOn (catalog_of script.old.task) first }
    requires left { begun.old.left ≤ 1000000 }
    requires begun { HasBegun command.now (tasks script.old) (turns script.old) (map (with_jobs_of script.old.task) script.old.later) (map (turn_of script.old) script.old.later) begun.old }
    ensures script { script.new ≡ script.old }
    ensures all { OnOk result (AreAll command.now (tasks script.old) (turns script.old) begun.new) }
    ensures fits { OnOk result (first_limit (map (with_jobs_of script.old.task) script.old.later) ≡ None) }
    ensures fault { IfErr result (IsDue (first_limit (map (with_jobs_of script.old.task) script.old.later))) }
{
    let mut prepared = first;
    for place in 0..script.later.len() {
        prepared = match later_round(alloc, command, script, prepared, place, begun) {
            Ok(next) => next,
            Err(fault) => return Err(fault),
        };
    }
    Ok(())
}
