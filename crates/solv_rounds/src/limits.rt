//! The rounds of a script, prepared.
ghost use Rattle.std.specs.Prelude.{◌≡◌, ◌≤◌, None, length, map, IfOk, IfErr, OnOk};
ghost use Rattle.std.specs.List.{All};
ghost use Rattle.solv_pool.specs.Prelude.{catalog_of, IsClosed};
ghost use Rattle.solv_pool.specs.TaskForms.{HasForms};
ghost use Rattle.solv_rules.specs.Books.{IsDue};
ghost use Rattle.solv_answers.specs.Answers.{IsPrepared, first_limit};
ghost use Rattle.solv_answers.specs.Inner.Fronts.{MayGoOn};
ghost use Rattle.solv_script.specs.Rounds.{tasks, with_jobs_of};
ghost use Rattle.solv_rounds.specs.Inner.Fronts.{IsDueAt, IsPreparedAt};

use crate::turning::to_front;
use solv_answers::{Prepared, prepare_next};
use solv_rules::BookFault;
use solv_script::Script;
use std::alloc::Global;

/// The marks and the book of the round at this place, or the first limit that its clauses pass. What another round was prepared with goes, but for what both
/// share. The script is as before.
pub fn prepare_round<'a>(
    alloc: Global,
    script: &mut Script,
    before: Prepared<'a>,
    place: usize,
) -> Result<Prepared<'a>, BookFault>
    requires place { place ≤ length script.old.later }
    requires closed { All IsClosed (tasks script.old) }
    requires forms { All HasForms (tasks script.old) }
    requires before { MayGoOn (catalog_of script.old.task) before }
    ensures script { script.new ≡ script.old }
    ensures prepared { IfOk result (IsPreparedAt (tasks script.old) place) }
    ensures goes_on { IfOk result (MayGoOn (catalog_of script.old.task)) }
    ensures fault { IfErr result (IsDueAt (tasks script.old) place) }
{
    to_front(script, place);
    let prepared = prepare_next(alloc, &script.task, before);
    to_front(script, place);
    prepared
}

/// Prepares the later rounds of a script in turn, where the first one is prepared: what the last one is prepared with, or the first limit that the clauses
/// of one pass. Each book takes the place of the one before. The script is as before.
pub fn prepare_in_turn<'a>(
    alloc: Global,
    script: &mut Script,
    first: Prepared<'a>,
) -> Result<Prepared<'a>, BookFault>
    requires closed { All IsClosed (tasks script.old) }
    requires forms { All HasForms (tasks script.old) }
    requires first { IsPrepared script.old.task first }
    requires goes_on { MayGoOn (catalog_of script.old.task) first }
    ensures script { script.new ≡ script.old }
    ensures last { IfOk result (IsPreparedAt (tasks script.old) (length script.old.later)) }
    ensures goes_on { IfOk result (MayGoOn (catalog_of script.old.task)) }
    ensures fits { OnOk result (first_limit (map (with_jobs_of script.old.task) script.old.later) ≡ None) }
    ensures fault { IfErr result (IsDue (first_limit (map (with_jobs_of script.old.task) script.old.later))) }
{
    let mut prepared = first;
    for place in 0..script.later.len() {
        prepared = match prepare_round(alloc, script, prepared, place + 1) {
            Ok(next) => next,
            Err(fault) => return Err(fault),
        };
    }
    Ok(prepared)
}
