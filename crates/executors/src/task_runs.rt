ghost use Rattle.std.specs.Prelude.{◌≡◌, IfOk};
ghost use Rattle.executors.specs.Executions.{CanRise};
ghost use Rattle.executors.specs.TaskRuns.{task_outcome};

use crate::alias_tasks::run_alias;
use crate::contexts::Verdict;
use crate::index_tasks::{run_creation, run_deletion, run_index_setting, run_opening};
use crate::node_tasks::{run_join, run_leave};
use crate::setting_tasks::run_setting;
use crate::tasks::Task;
use meta_state::ClusterState;
use plain_data::OutOfMemory;
use std::alloc::Global;

/// Runs one task. After want of memory the state is to be given up.
#[tactic(auto, unfolding(crate::specs::TaskRuns::task_outcome))]
pub(crate) fn run_task(
    alloc: Global,
    state: &mut ClusterState,
    task: &Task,
) -> Result<Verdict, OutOfMemory>
    requires { CanRise state.old }
    ensures { IfOk result (λ verdict. (state.new, verdict) ≡ task_outcome state.old task.now) }
{
    match task {
        Task::CreateIndex {
            index,
            shards,
            replicas,
        } => run_creation(alloc, state, index, *shards, *replicas),
        Task::DeleteIndex { index } => run_deletion(state, index),
        Task::IndexSetting { index, key, value } => {
            run_index_setting(alloc, state, index, key, *value)
        }
        Task::OpenClose { index, opened } => run_opening(alloc, state, index, *opened),
        Task::Alias { index, alias, add } => run_alias(alloc, state, index, alias, *add),
        Task::ClusterSetting { key, value } => run_setting(state, key, value),
        Task::Join { node } => run_join(alloc, state, node),
        Task::Leave { name } => run_leave(state, name),
        Task::Reelect => {
            state.term += 1;
            Ok(Verdict::Success)
        }
    }
}
