//! What follows of what a run says: each law is the contract of a function that does nothing, or calls laws of the layers below.
ghost use Rattle.solv_run.specs.Laws.{EachTaskHasItsAnswer, PrintedProofsAreGood, PrintedProofsAreRead, PrintedScriptsAreRead};

use solv_proof::laws::written_is_read;
use solv_verdicts::laws::{problems_are_proved, problems_may_be_written};
use solv_writing::each_script_is_read_back;

/// One task has one answer, also where its budget is spent, and no task has none.
pub fn each_task_has_its_answer()
    ensures { EachTaskHasItsAnswer }
{}

/// The proofs that a run with `--proof` prints are listed as a text of proofs wants it, and yes is said of each.
pub fn printed_proofs_are_good()
    ensures { PrintedProofsAreGood }
{
    problems_may_be_written();
    problems_are_proved();
}

/// The text that a run with `--proof` prints is read as the proofs of the problems of its answers.
pub fn printed_proofs_are_read()
    ensures { PrintedProofsAreRead }
{
    written_is_read();
}

/// The text that a run with `--write` prints is read as the script that was read.
pub fn printed_scripts_are_read()
    ensures { PrintedScriptsAreRead }
{
    each_script_is_read_back();
}
