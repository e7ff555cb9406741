ghost use Rattle.std.specs.Prelude.{◌≡◌, IfOk, Bool, List, IsTrue};
ghost use Rattle.std.specs.List.{list_all};
ghost use Rattle.meta_state.specs.declared.cluster_state.ClusterState.{ClusterState};
ghost use Rattle.meta_state.specs.States.{IsRoomy};
ghost use Rattle.executors.specs.declared.tasks.Task.{Task};
ghost use Rattle.executors.specs.declared.contexts.TaskContext.{TaskContext};
ghost use Rattle.executors.specs.declared.executions.Executed.{Executed};
ghost use Rattle.executors.specs.Executions.{AreMarked, KeepsVersions, tasks_of};
ghost use Rattle.executors.specs.Touching.{ChangesOnly, touched_by};

use crate::contexts::{Mark, TaskContext};
use crate::refusals::TaskRefusal;
use crate::tasks::Task;
use meta_state::ClusterState;
use plain_data::{Items, OutOfMemory};
use std::alloc::Global;

/// What an executor made of a batch.
#[derive(Debug, Drop)]
pub enum Executed {
    /// The state that the tasks left, and one mark per task, in order.
    Made {
        state: ClusterState,
        marks: Items<Mark>,
    },

    /// The whole batch failed, for the task at this place and for this cause, whatever was marked before. The state
    /// is the initial one.
    Failed {
        position: u32,
        refusal: TaskRefusal,
    },
}

/// What runs a queue's waiting tasks as one batch (Elasticsearch's `ClusterStateTaskExecutor`).
pub trait Executor {
    /// Whether it takes a task.
    ghost takes: { Self → Task → Bool };

    /// Whether it runs only on a master in office.
    ghost masters: { Self → Bool };

    /// What it makes of a batch on a state.
    ghost makes: { Self → ClusterState → List TaskContext → Executed };

    /// Whether it is an executor of tasks of this kind.
    fn accepts(&self, task: &Task) -> bool
        ensures { result ≡ takes self.now task.now };

    /// Whether it fails its tasks where the master is out of office.
    fn needs_master(&self) -> bool
        ensures { result ≡ masters self.now };

    /// Completes each context once and answers the state that they leave, with one mark for each context, in order.
    /// Its identifier, version and metadata version are those of `initial`, and its indices, settings and nodes differ
    /// from those of `initial` at the names alone that `touched_by` tells of the tasks. Want of memory leaves nothing.
    fn execute(
        &self,
        alloc: Global,
        initial: &ClusterState,
        contexts: Vec<TaskContext>,
    ) -> Result<Executed, OutOfMemory>
        requires roomy { IsRoomy initial.now }
        requires accepted { IsTrue (list_all (takes self.now) (tasks_of contexts.items)) }
        ensures made { IfOk result (λ made. made ≡ makes self.now initial.now contexts.items) }
        ensures marks { IfOk result (AreMarked contexts.items) }
        ensures versions { IfOk result (KeepsVersions initial.now) }
        ensures touches { IfOk result (ChangesOnly (touched_by (tasks_of contexts.items)) initial.now) };
}
