//! What calls build, and the answer to it.
ghost use Rattle.std.specs.Prelude.{◌≡◌, ◌≤◌, None, Some, IfOk, IsOk, OnErr};
ghost use Rattle.std.specs.Option.{option_map};
ghost use Rattle.solv_pool.specs.Prelude.{IsClosed};
ghost use Rattle.solv_pool.specs.TaskForms.{HasForms};
ghost use Rattle.solv_draft.specs.Inner.Calls.{given};
ghost use Rattle.solv_solved.specs.Building.{IsBuilt, IsEmpty, IsEmptyHeld, IsGiven, IsStill, IsStillOpen, IsTaskSolved, script_of, task_of};
ghost use Rattle.solv_solved.specs.Inner.CallNames.{call_name};
ghost use Rattle.solv_solved.specs.Inner.Finding.{IsFound, IsFoundIn, IsSolveOf};
ghost use Rattle.solv_solved.specs.Inner.Limits.{IsLimitSaid};
ghost use Rattle.solv_solved.specs.Inner.Tellings.{IsTold};
ghost use Rattle.solv_solved.specs.declared.outcomes.Held.TheVariants.{Answered};

use crate::anew::Again;
use crate::opened::Opened;
use crate::outcomes::Held;
use crate::solving::{PROGRAM, WithRules, index_and_answer, solved};
use crate::with_answer::Solved;
use solv_draft::{Call, Draft, DraftFault};
use solv_list::{Bytes, Items};
use solv_pool::Task;
use solv_prov::Providers;
use solv_rules::BookFault;
use solv_said::{bad_line_text, limit_due};
use solv_script::{Kinds, Script};
use std::alloc::{AllocError, Global};
use std::mem::replace;

/// How a call ended that was to build.
#[derive(Clone, Copy, PartialEq, Eq, Debug, Drop)]
pub enum Given {
    /// The task has what was given.
    Done,
    /// A text is refused, and the task is as it was.
    Refuses,
    /// A number names nothing, or there is no task. The task is as it was.
    Misused,
}

/// The name of a call, which stands before the number of a bad line.
fn call_name(call: &Call<'_>) -> &'static str
    ensures { result.now ≡ call_name call.now }
{
    match call {
        Call::Repo { .. } => "repo",
        Call::Packages { .. } => "packages",
        Call::System { .. } => "system",
        Call::Disable(_) => "disable",
        Call::Namespace { .. } => "namespace",
        Call::Flags(_) => "flags",
        Call::Job(_) | Call::JobBy { .. } | Call::NoJobs => "job",
    }
}

/// The line on how a call ended, and how that was. Running out of memory is no end.
fn told(
    alloc: Global,
    call: &Call<'_>,
    ended: Result<(), DraftFault>,
) -> Result<(Bytes, Given), AllocError>
    ensures told { IfOk result (λ told. IsTold (call_name call.now) ended told.0 told.1) }
    ensures nothing { IsOk ended → IsOk result }
{
    let none = Bytes::wrap(Vec::new(alloc));
    match ended {
        Ok(()) => Ok((none, Given::Done)),
        Err(DraftFault::Refused { line, cause }) => {
            let text = bad_line_text(alloc, PROGRAM, call_name(call), line, cause.name())?;
            Ok((Bytes::wrap(text.into_bytes()), Given::Refuses))
        }
        Err(DraftFault::Misused) => Ok((none, Given::Misused)),
        Err(DraftFault::Memory) => Err(AllocError),
    }
}

impl Opened {
    /// A task before the first call. It takes no memory.
    fn empty(alloc: Global) -> Opened
        ensures { IsEmpty result }
    {
        Opened {
            draft: Draft::new(alloc),
            said: Bytes::wrap(Vec::new(alloc)),
        }
    }

    /// Gives the task what a call gives, or says why not.
    fn build(&mut self, alloc: Global, call: &Call<'_>) -> Result<Given, AllocError>
        ensures built { IfOk result (IsGiven (call_name call.now) (given call.now) self.old.draft.task self.new) }
        ensures same { OnErr result (IsStillOpen self.old self.new) }
    {
        let ended = self.draft.give(call);
        match told(alloc, call, ended) {
            Ok((said, given)) => {
                self.said = said;
                Ok(given)
            }
            Err(_) => Err(AllocError),
        }
    }
}

impl Solved {
    /// Gives the task what a call gives, or says why not, and drops its answer then. Where memory runs out the answer stays.
    fn build(self, alloc: Global, call: &Call<'_>) -> (Held, Result<Given, AllocError>)
        ensures built { IfOk result.1 (IsBuilt (call_name call.now) (given call.now) (Answered self) result.0) }
        ensures same { OnErr result.1 (IsStill (Answered self) result.0) }
    {
        let (task, beside) = self.apart();
        let mut draft = Draft::of(task);
        let ended = draft.give_or_stay(call);
        match told(alloc, call, ended) {
            Ok((said, given)) => (Held::Open(Opened { draft, said }), Ok(given)),
            Err(_) => {
                let solved = beside.joined(draft.into_task());
                (Held::Answered(solved), Err(AllocError))
            }
        }
    }
}

/// A task without an answer, and the line on what is wrong.
fn opened(task: Task, said: Bytes) -> Opened
    requires closed { IsClosed task }
    requires forms { HasForms task }
    ensures task { result.draft.task ≡ task }
    ensures said { result.said ≡ said }
{
    Opened {
        draft: Draft::of(task),
        said,
    }
}

/// The script whose only round is this task. It takes no memory.
fn script_of(alloc: Global, task: Task) -> Script
    requires closed { IsClosed task }
    requires forms { HasForms task }
    ensures script { result ≡ script_of task }
    ensures task { result.task ≡ task }
    ensures closed { IsClosed result.task }
    ensures forms { HasForms result.task }
{
    Script {
        task,
        kinds: Kinds {
            transaction: true,
            problems: true,
            order: false,
            reason: false,
            userinstalled: false,
            unneeded: false,
        },
        wanted: None,
        checks: Items::wrap(Vec::new(alloc)),
        later: Items::wrap(Vec::new(alloc)),
    }
}

/// The line on a limit.
fn limit_said(alloc: Global, task: &Task, limit: BookFault) -> Result<Bytes, AllocError>
    requires { IsClosed task.now }
    ensures { IfOk result (IsLimitSaid task.now limit) }
{
    match limit {
        BookFault::Memory => Err(AllocError),
        limit => {
            let due = limit_due(alloc, PROGRAM, task, limit)?;
            Ok(due.err)
        }
    }
}

/// What is found of a task before what is held is changed.
#[derive(Drop)]
enum Found {
    /// An answer, with the index of the task.
    Answer(Providers, WithRules),
    /// The line on a limit that its clauses pass.
    Limit(Bytes),
}

/// What is found of a task.
fn found_of(alloc: Global, task: &Task, budget: u32) -> Result<Found, AllocError>
    requires closed { IsClosed task.now }
    requires forms { HasForms task.now }
    requires budget { budget ≤ 1000000 }
    ensures { IfOk result (IsFound budget task.now) }
{
    match index_and_answer(alloc, task, budget) {
        Ok((prov, given)) => Ok(Found::Answer(prov, given)),
        Err(limit) => {
            let said = limit_said(alloc, task, limit)?;
            Ok(Found::Limit(said))
        }
    }
}

/// What is held of a task of which this is found.
fn held_of(alloc: Global, task: Task, found: Found, budget: u32) -> (Held, Again)
    requires closed { IsClosed task }
    requires forms { HasForms task }
    requires found { IsFound budget task found }
    ensures { IsSolveOf budget task result.0 result.1 }
{
    match found {
        Found::Answer(prov, given) => {
            let script = script_of(alloc, task);
            (
                Held::Answered(solved(script, prov, given, budget)),
                Again::Answered,
            )
        }
        Found::Limit(said) => (Held::Open(opened(task, said)), Again::Passes),
    }
}

impl Held {
    /// A task before the first call. It takes no memory.
    pub fn open(alloc: Global) -> Held
        ensures { IsEmptyHeld result }
    {
        Held::Open(Opened::empty(alloc))
    }

    /// Takes the task out and drops its answer. A refusal has no task, and stays.
    fn take_task(&mut self, alloc: Global) -> Option<Opened>
        ensures task { option_map (λ opened. opened.draft.task) result ≡ task_of self.old }
        ensures stays { task_of self.old ≡ None → self.new ≡ self.old }
    {
        match replace(self, Held::open(alloc)) {
            Held::Answered(solved) => {
                let none = Bytes::wrap(Vec::new(alloc));
                Some(opened(solved.into_task(), none))
            }
            Held::Refused(due) => {
                *self = Held::Refused(due);
                None
            }
            Held::Open(opened) => Some(opened),
        }
    }

    /// Gives the task that is held what a call gives, or says why not, and then the task is as it was. Its answer is dropped, but where memory runs
    /// out all stays.
    pub fn build(&mut self, alloc: Global, call: &Call<'_>) -> Result<Given, AllocError>
        ensures built { IfOk result (IsBuilt (call_name call.now) (given call.now) self.old self.new) }
        ensures same { OnErr result (IsStill self.old self.new) }
    {
        match replace(self, Held::open(alloc)) {
            Held::Answered(solved) => {
                let (held, given) = solved.build(alloc, call);
                *self = held;
                given
            }
            Held::Refused(due) => {
                *self = Held::Refused(due);
                Ok(Given::Misused)
            }
            Held::Open(mut opened) => {
                let given = opened.build(alloc, call);
                *self = Held::Open(opened);
                given
            }
        }
    }

    /// What is found of the task that is held, where there is one. Nothing is changed.
    fn found(&self, alloc: Global, budget: u32) -> Result<Option<Found>, AllocError>
        requires { budget ≤ 1000000 }
        ensures { IfOk result (IsFoundIn budget self.now) }
    {
        match self {
            Held::Answered(solved) => {
                let found = found_of(alloc, &solved.script.task, budget)?;
                Ok(Some(found))
            }
            Held::Refused(_) => Ok(None),
            Held::Open(opened) => {
                let found = found_of(alloc, opened.draft.lent(), budget)?;
                Ok(Some(found))
            }
        }
    }

    /// Holds what was found of the task that is held.
    fn come_to(&mut self, alloc: Global, found: Found, budget: u32) -> Again
        requires { IsFoundIn budget self.old (Some found) }
        ensures { IsTaskSolved budget self.old self.new result }
    {
        match self.take_task(alloc) {
            None => Again::Misused,
            Some(opened) => {
                let Opened { draft, said: _ } = opened;
                let (held, ended) = held_of(alloc, draft.into_task(), found, budget);
                *self = held;
                ended
            }
        }
    }

    /// Answers the task that is held, over an index that is made for it. What was held stays until the answer is there.
    pub fn solve(&mut self, alloc: Global, budget: u32) -> Result<Again, AllocError>
        requires { budget ≤ 1000000 }
        ensures solved { IfOk result (IsTaskSolved budget self.old self.new) }
        ensures same { OnErr result (self.new ≡ self.old) }
    {
        match self.found(alloc, budget) {
            Ok(None) => Ok(Again::Misused),
            Ok(Some(found)) => Ok(self.come_to(alloc, found, budget)),
            Err(_) => Err(AllocError),
        }
    }
}
