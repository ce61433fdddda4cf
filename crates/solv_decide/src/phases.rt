//! The questions of a task, as a guide of the search.
ghost use Rattle.std.specs.Prelude.{◌≡◌, true, length, IfOk};
ghost use Rattle.solv_pool.specs.Prelude.{catalog_of, IsClosed};
ghost use Rattle.solv_prov.specs.Index.{IsIndexOf};
ghost use Rattle.solv_jobs.specs.Marking.{HasMarks};
ghost use Rattle.solv_rules.specs.Books.{read_rules};
ghost use Rattle.solv_questions.specs.Questions.{rules_of, request_of};
ghost use Rattle.solv_plan.specs.Inner.RestOfPlan.{rest_by, rest_in};
ghost use Rattle.solv_plan.specs.Inner.Plans.{plan_asks};
ghost use Rattle.solv_plan.specs.Inner.PlanOf.{plan_of};
ghost use Rattle.solv_plan.specs.Inner.Settling.{is_right_for};
ghost use Rattle.solv_decide.specs.Inner.Deciding.{IsLawful};
ghost use Rattle.solv_decide.specs.Inner.GuideLaw.{lawful};

use solv_core::{Ask, Guide, Known};
use solv_plan::{Memory, Plan, Rest, next};
use solv_planning::{make_plan, make_plan_on};
use solv_pool::{Marks, Task};
use solv_prov::Providers;
use solv_rules::Book;
use std::alloc::{AllocError, Global};
use std::marker::Model;

/// The questions of a task in their order, over the rules of a book. Contracts see the plan of the questions, and the number of packages.
pub struct Phases {
    alloc: Global,
    plan: Plan,
    packages: u32,
}

impl Drop for Phases {
    fn drop(self) {
        let Phases {
            alloc: _,
            plan: _,
            packages: _,
        } = self;
    }
}

impl Model for Phases {
    ghost use Rattle.solv_decide.specs.Inner.Deciding.{Asker};

    ghost Value = { Asker };

    ghost view = { λ p. record { plan = p.plan; packages = p.packages } };
}

impl Phases {
    /// The questions of a task by these marks, where the book has the task's hard rules. It copies what it needs.
    pub fn new(
        alloc: Global,
        task: &Task,
        prov: &Providers,
        marks: &Marks,
        book: &Book,
    ) -> Result<Phases, AllocError>
        requires index { IsIndexOf prov.now (catalog_of task.now) }
        requires closed { IsClosed task.now }
        requires marks { HasMarks (length task.now.universe.packages) marks.now }
        requires rules { read_rules book.now.rules ≡ rules_of (request_of task.now marks.now) }
        ensures { IfOk result (λ p. p ≡ record { plan = plan_of (request_of task.now marks.now); packages = length task.now.universe.packages }) }
    {
        let plan = make_plan(alloc, task, prov, marks, book.rules())?;
        Ok(Phases {
            alloc,
            plan,
            packages: task.universe.count(),
        })
    }

    /// As `new`, on what stands in the plan after its demands and its installed packages.
    pub fn on(
        alloc: Global,
        task: &Task,
        prov: &Providers,
        marks: &Marks,
        book: &Book,
        rest: Rest,
    ) -> Result<Phases, AllocError>
        requires index { IsIndexOf prov.now (catalog_of task.now) }
        requires closed { IsClosed task.now }
        requires marks { HasMarks (length task.now.universe.packages) marks.now }
        requires rules { read_rules book.now.rules ≡ rules_of (request_of task.now marks.now) }
        requires rest { rest ≡ rest_by (catalog_of task.now) task.now.flags marks.now }
        ensures { IfOk result (λ p. p ≡ record { plan = plan_of (request_of task.now marks.now); packages = length task.now.universe.packages }) }
    {
        let plan = make_plan_on(alloc, task, prov, marks, book.rules(), rest)?;
        Ok(Phases {
            alloc,
            plan,
            packages: task.universe.count(),
        })
    }

    /// How many packages there are besides the system.
    pub fn packages(&self) -> u32
        ensures { result ≡ self.now.packages }
    {
        self.packages
    }

    /// What stands in the plan after its demands and its installed packages.
    pub fn into_rest(self) -> Rest
        ensures { result ≡ rest_in self.plan }
    {
        let Phases {
            alloc: _,
            plan,
            packages: _,
        } = self;
        plan.into_rest()
    }

    /// The plan of the questions.
    pub(crate) fn plan(&self) -> &Plan
        ensures { result.now ≡ self.now.plan }
    {
        &self.plan
    }

    /// Room for what is settled of the questions.
    pub(crate) fn memory(&self) -> Result<Memory, AllocError>
        ensures { IfOk result (λ memory. is_right_for self.now.plan memory ≡ true) }
    {
        Memory::new(self.alloc, &self.plan, self.packages)
    }
}

impl Guide for Phases {
    ghost is_for = { λ guide clauses owners. IsLawful guide clauses owners };

    ghost is_for_packages = { λ guide count. guide.packages ≡ count };

    ghost asks = { λ guide known enabled. plan_asks guide.plan known enabled };

    fn next(&self, known: &Known, enabled: &[bool]) -> Option<Ask> {
        next(&self.plan, known, enabled)
    }

    ghost keeps_law = { λ guide count clauses owners enabled law few. lawful guide count clauses owners enabled law few };
}
