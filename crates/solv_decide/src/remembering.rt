//! The questions of a task as a guide that remembers which are settled.
ghost use Rattle.std.specs.Prelude.{◌≡◌, ◌≤◌, ◌+◌, [], true, length, nat_lt, IfOk, IfSome};
ghost use Rattle.std.specs.List.{list_all};
ghost use Rattle.solv_core.specs.Inner.Holding.{IsHeldBy};
ghost use Rattle.solv_pool.specs.Prelude.{is_fact};
ghost use Rattle.solv_core.specs.Inner.Probing.{AreRefutedBeside, verdict_in};
ghost use Rattle.solv_core.specs.Inner.Running.{HasRunOnce};
ghost use Rattle.solv_plan.specs.Inner.Plans.{plan_asks};
ghost use Rattle.solv_plan.specs.Inner.Settling.{AreFit, is_right_for};
ghost use Rattle.solv_plan.specs.declared.plans.Plan.{Plan};
ghost use Rattle.solv_decide.specs.Inner.Deciding.{IsLawful};
ghost use Rattle.solv_decide.specs.Inner.GuideLaw.{lawful};
ghost use Rattle.solv_decide.specs.Inner.Serving.{serves_on, still_fits};

use crate::phases::Phases;
use solv_core::{Ask, Core, Guide, Known, Ledger, Probed, Remembering};
use solv_pack::RuleNo;
use solv_plan::{Memory, next_remembering};
use std::alloc::AllocError;
use std::cell::Cell;
use std::marker::{Brand, PhantomData};

/// Identifies one plan, so that what is remembered of it is not taken for what is remembered of another.
pub trait Planned {
    ghost plan: { Plan };
}

impl Planned for Brand {
    ghost plan = { record { demands = []; keeps = []; relations = record { nodes = []; rows = []; standings = [] }; required = []; recommended = []; supplements = [] } };
}

/// What is settled of the plan.
#[derive(Drop)]
struct Remembered<K: Planned> {
    memory: Memory,
    of: PhantomData<K>,
    ghost right: { is_right_for K.plan memory ≡ true },
}

/// The questions of a task, and which of them are settled. During a descent, from one conflict to the next, what it remembers is
/// lent to the core.
#[derive(Drop)]
struct RememberingPhases<'a, K: Planned> {
    phases: &'a Phases,
    remembered: Cell<Option<Remembered<K>>>,
    ghost own: { phases.now.plan ≡ K.plan },
}

impl<'a, K: Planned> Guide for RememberingPhases<'a, K> {
    ghost is_for = { λ guide clauses owners. IsLawful guide.phases.now clauses owners };

    ghost is_for_packages = { λ guide count. guide.phases.now.packages ≡ count };

    ghost asks = { λ guide known enabled. plan_asks guide.phases.now.plan known enabled };

    fn next(&self, known: &Known, enabled: &[bool]) -> Option<Ask> {
        self.phases.next(known, enabled)
    }

    ghost keeps_law = { λ guide count clauses owners enabled law few. lawful guide.phases.now count clauses owners enabled law few };
}

impl<'a, K: Planned> Remembering for RememberingPhases<'a, K> {
    type Memory = Option<Remembered<K>>;

    ghost serves = { λ guide lent lits. IfSome lent (λ remembered. AreFit K.plan lits remembered.memory) };

    fn begin(&self, known: &Known) -> Option<Remembered<K>> {
        let Some(remembered) = self.remembered.take() else {
            return None;
        };
        let Remembered { mut memory, of } = remembered;
        memory.fit(known);
        Some(Remembered { memory, of })
    }

    fn next_remembering(
        &self,
        memory: &mut Option<Remembered<K>>,
        known: &Known,
        enabled: &[bool],
    ) -> Option<Ask> {
        let Some(remembered) = memory.take() else {
            return self.phases.next(known, enabled);
        };
        let Remembered {
            memory: mut held,
            of,
        } = remembered;
        let ask = next_remembering(self.phases.plan(), &mut held, known, enabled);
        *memory = Some(Remembered { memory: held, of });
        ask
    }

    fn end(&self, memory: Option<Remembered<K>>) {
        self.remembered.set(memory);
    }

    ghost keeps_serving = { λ guide lent before after grown serves. serves_on lent serves (λ remembered fits. still_fits K.plan remembered.memory before after grown fits) };
}

/// A run that remembers which questions are settled, and at its end probes the rules of these clauses.
pub(crate) fn run_probing<K: Planned>(
    phases: &Phases,
    memory: Memory,
    core: &mut Core<'_>,
    enabled: &[bool],
    ledger: &mut Ledger,
    clauses: &[RuleNo],
) -> Result<Probed, AllocError>
    requires plan { phases.now.plan ≡ K.plan }
    requires right { is_right_for phases.now.plan memory ≡ true }
    requires enabled { list_all (λ o. nat_lt o (length enabled.now)) core.old.made.owners ≡ true }
    requires lawful { IsLawful phases.now core.old.made.clauses core.old.made.owners }
    requires packages { phases.now.packages ≡ core.old.made.packages }
    requires budget { ledger.old.budget ≤ 1000000 }
    requires few { length ledger.old.entries ≤ ledger.old.budget + 1 }
    requires held { IsHeldBy core.old ledger.old }
    ensures run { HasRunOnce (plan_asks phases.now.plan) enabled.now core.old core.new ledger.old ledger.new (verdict_in result) }
    ensures probed { IfOk result (AreRefutedBeside core.old.made.clauses core.old.made.owners core.old.made.packages enabled.now clauses.now) }
{
    let remembered = Remembered::<K> {
        memory,
        of: PhantomData,
    };
    let guide = RememberingPhases::<K> {
        phases,
        remembered: Cell::new(Some(remembered)),
    };
    core.run_probing(enabled, &guide, ledger, clauses)
}
