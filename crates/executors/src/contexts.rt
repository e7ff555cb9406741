ghost use Rattle.std.specs.Prelude.{◌≡◌, ◌<◌, ◌^◌, IfOk, vec_len};
ghost use Rattle.executors.specs.Contexts.{marked, numbered};
ghost use Rattle.executors.specs.declared.contexts.Verdict.TheVariants.{Success, Refused};

use crate::refusals::TaskRefusal;
use crate::tasks::Task;
use plain_data::OutOfMemory;
use std::alloc::Global;

/// A task that an executor is to complete (Elasticsearch's `ClusterStateTaskExecutor.TaskContext`). It can't be
/// dropped: each is spent once, by `success` or by `failure`.
#[derive(Debug)]
pub struct TaskContext {
    position: u32,
    task: Task,
}

/// How a task was completed.
#[derive(Clone, Copy, Debug, PartialEq, Eq)]
pub enum Verdict {
    Success,
    Refused(TaskRefusal),
}

/// That the task at a place of its batch was completed. Only a context that is spent makes one, and none is made of
/// another.
#[derive(Debug, Drop, PartialEq, Eq)]
pub struct Mark {
    position: u32,
    verdict: Verdict,
}

impl TaskContext {
    /// The task at a place of its batch, counted from 0.
    pub fn new(position: u32, task: Task) -> TaskContext
        ensures { result ≡ record { position = position; task = task } }
    {
        TaskContext { position, task }
    }

    pub fn task(&self) -> &Task
        ensures { result.now ≡ self.now.task }
    {
        &self.task
    }

    /// Completes the task.
    pub fn success(self) -> Mark
        ensures { result ≡ marked self.position Success }
    {
        let TaskContext { position, task: _ } = self;
        Mark {
            position,
            verdict: Verdict::Success,
        }
    }

    /// Refuses the task.
    pub fn failure(self, refusal: TaskRefusal) -> Mark
        ensures { result ≡ marked self.position (Refused refusal) }
    {
        let TaskContext { position, task: _ } = self;
        Mark {
            position,
            verdict: Verdict::Refused(refusal),
        }
    }
}

impl Mark {
    /// The task's place in its batch.
    pub fn position(&self) -> u32
        ensures { result ≡ self.now.position }
    {
        self.position
    }

    pub fn verdict(&self) -> Verdict
        ensures { result ≡ self.now.verdict }
    {
        self.verdict
    }
}

/// Numbers tasks by their places in a batch, from 0.
pub fn number(alloc: Global, tasks: Vec<Task>) -> Result<Vec<TaskContext>, OutOfMemory>
    requires { vec_len tasks < 2 ^ 32 }
    ensures { IfOk result (λ made. made.items ≡ numbered 0 tasks.items) }
{
    let count = tasks.len();
    let mut contexts = Vec::with_capacity(alloc, count)?;
    let mut position: u32 = 0;
    let mut left = tasks.into_iter();
    while let Some(task) = left.next() {
        contexts.push(TaskContext::new(position, task)).unwrap();
        position += 1;
    }
    Ok(contexts)
}
