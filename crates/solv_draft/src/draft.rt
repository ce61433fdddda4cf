//! A task while calls build it.
ghost use Rattle.std.specs.Prelude.{◌≡◌};
ghost use Rattle.solv_pool.specs.Prelude.{IsClosed};
ghost use Rattle.solv_pool.specs.TaskForms.{HasForms};
ghost use Rattle.solv_draft.specs.Inner.Drafts.{IsDraft};

use solv_pool::Task;

/// A task so far. All that it names is there, and its dependencies have forms that may stand at their places.
pub struct Draft {
    pub task: Task,
    pub ghost is: { IsDraft task },
}

impl Drop for Draft {
    fn drop(self) {
        let Draft { task: _ } = self;
    }
}

impl Draft {
    /// A task that was made otherwise, to be built further.
    pub fn of(task: Task) -> Draft
        requires closed { IsClosed task }
        requires forms { HasForms task }
        ensures { result.task ≡ task }
    {
        Draft { task }
    }

    /// The task, to be read.
    pub fn lent(&self) -> &Task
        ensures task { result.now ≡ self.now.task }
        ensures closed { IsClosed result.now }
        ensures forms { HasForms result.now }
    {
        &self.task
    }

    /// The task.
    pub fn into_task(self) -> Task
        ensures task { result ≡ self.task }
        ensures closed { IsClosed result }
        ensures forms { HasForms result }
    {
        let Draft { task } = self;
        task
    }
}
