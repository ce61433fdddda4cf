//! What an answer has besides its task, so that the task may be taken out and put back.
ghost use Rattle.std.specs.Prelude.{◌≡◌};
ghost use Rattle.solv_pool.specs.Prelude.{IsClosed};
ghost use Rattle.solv_pool.specs.TaskForms.{HasForms};
ghost use Rattle.solv_solved.specs.Anew.{IsSame};
ghost use Rattle.solv_solved.specs.Inner.Besides.{IsAnswerTo, beside_of};
ghost use Rattle.solv_solved.specs.declared.with_answer.Solved.{Solved};

use crate::with_answer::Solved;
use solv_answers::Answer;
use solv_core::Ledger;
use solv_list::{Bytes, Items};
use solv_pool::{Rules, Task};
use solv_prov::Providers;
use solv_script::{EvrCheck, Kinds, Round, Script};

/// What a script with an answer has besides its task.
pub(crate) struct Beside {
    pub(crate) kinds: Kinds,
    pub(crate) wanted: Option<Items<Bytes>>,
    pub(crate) checks: Items<EvrCheck>,
    pub(crate) later: Items<Round>,
    pub(crate) prov: Providers,
    pub(crate) rules: Rules,
    pub(crate) answer: Answer,
    pub(crate) ledger: Ledger,
}

impl Drop for Beside {
    fn drop(self) {
        let Beside {
            kinds: _,
            wanted: _,
            checks: _,
            later: _,
            prov: _,
            rules: _,
            answer: _,
            ledger: _,
        } = self;
    }
}

impl Beside {
    /// The script with its answer, where the task is the one that it had.
    pub(crate) fn joined(self, task: Task) -> Solved
        requires closed { IsClosed task }
        requires forms { HasForms task }
        requires answer { IsAnswerTo task self }
        ensures { (old : Solved) → task ≡ old.script.task → self ≡ beside_of old → IsSame old result }
    {
        let Beside {
            kinds,
            wanted,
            checks,
            later,
            prov,
            rules,
            answer,
            ledger,
        } = self;
        Solved {
            script: Script {
                task,
                kinds,
                wanted,
                checks,
                later,
            },
            prov,
            rules,
            answer,
            ledger,
        }
    }
}
