//! A script with the answer to its first round.
ghost use Rattle.std.specs.Prelude.{◌≡◌, true, None};
ghost use Rattle.solv_pool.specs.Prelude.{catalog_of, hard_rules, IsClosed};
ghost use Rattle.solv_pool.specs.TaskForms.{HasForms};
ghost use Rattle.solv_prov.specs.Index.{IsIndexOf};
ghost use Rattle.solv_rules.specs.Books.{first_fault, read_rules};
ghost use Rattle.solv_solved.specs.Inner.Proving.{are_proved};
ghost use Rattle.solv_solved.specs.Proofs.{problems_in};

use crate::beside::Beside;
use solv_answers::Answer;
use solv_core::Ledger;
use solv_pool::{Rules, Task};
use solv_prov::Providers;
use solv_script::Script;

/// A script with the answer to its first round, what was learnt for it, the index of providers, and the hard rules of this round.
pub struct Solved {
    pub script: Script,
    pub prov: Providers,
    pub rules: Rules,
    pub answer: Answer,
    pub ledger: Ledger,
    pub ghost closed: { IsClosed script.task },
    pub ghost forms: { HasForms script.task },
    pub ghost hard: { read_rules rules ≡ hard_rules script.task },
    pub ghost fits: { first_fault (catalog_of script.task) 0 (hard_rules script.task) ≡ None },
    pub ghost index: { IsIndexOf prov (catalog_of script.task) },
    pub ghost proved: { are_proved script.task (problems_in answer) ≡ true },
}

impl Drop for Solved {
    fn drop(self) {
        let Solved {
            script: _,
            prov: _,
            rules: _,
            answer: _,
            ledger: _,
        } = self;
    }
}

impl Solved {
    /// The task. Its answer is dropped.
    pub(crate) fn into_task(self) -> Task
        ensures task { result ≡ self.script.task }
        ensures closed { IsClosed result }
        ensures forms { HasForms result }
    {
        let Solved {
            script,
            prov: _,
            rules: _,
            answer: _,
            ledger: _,
        } = self;
        let Script {
            task,
            kinds: _,
            wanted: _,
            checks: _,
            later: _,
        } = script;
        task
    }
}

impl Solved {
    ghost use Rattle.solv_solved.specs.Inner.Besides.{IsAnswerTo, beside_of};

    /// The task, and what there is besides it.
    pub(crate) fn apart(self) -> (Task, Beside)
        ensures task { result.0 ≡ self.script.task }
        ensures beside { result.1 ≡ beside_of self }
        ensures closed { IsClosed result.0 }
        ensures forms { HasForms result.0 }
        ensures answer { IsAnswerTo result.0 result.1 }
    {
        let Solved {
            script,
            prov,
            rules,
            answer,
            ledger,
        } = self;
        let Script {
            task,
            kinds,
            wanted,
            checks,
            later,
        } = script;
        let beside = Beside {
            kinds,
            wanted,
            checks,
            later,
            prov,
            rules,
            answer,
            ledger,
        };
        (task, beside)
    }
}
