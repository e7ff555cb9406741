ghost use Rattle.std.specs.Prelude.{◌≡◌, Bool};
ghost use Rattle.executors.specs.Executions.{executed};
ghost use Rattle.executors.specs.Kinds.{accepts, form_of, is_atomic, needs_master};

use crate::contexts::TaskContext;
use crate::executions::{Executed, Executor};
use crate::folds::{run_all, run_atomic};
use crate::task_forms::TaskForm;
use crate::tasks::Task;
use meta_state::ClusterState;
use plain_data::OutOfMemory;
use std::alloc::Global;

/// The executors, each of tasks of one form, which two share: `Aliases` runs each task for itself, and `AliasesAtomic`
/// fails its whole batch where one is refused.
#[derive(Clone, Copy, Debug, PartialEq, Eq)]
pub enum Kind {
    CreateIndex,
    DeleteIndex,
    IndexSettings,
    OpenClose,
    Aliases,
    AliasesAtomic,
    ClusterSettings,

    /// Lets nodes join and leave.
    Nodes,

    /// Puts the master into office.
    Reelect,
}

impl Kind {
    /// The form of the tasks that it takes.
    pub fn form(&self) -> TaskForm
        ensures { result ≡ form_of self.now }
    {
        match self {
            Kind::CreateIndex => TaskForm::CreateIndex,
            Kind::DeleteIndex => TaskForm::DeleteIndex,
            Kind::IndexSettings => TaskForm::IndexSetting,
            Kind::OpenClose => TaskForm::OpenClose,
            Kind::Aliases => TaskForm::Alias,
            Kind::AliasesAtomic => TaskForm::Alias,
            Kind::ClusterSettings => TaskForm::ClusterSetting,
            Kind::Nodes => TaskForm::Node,
            Kind::Reelect => TaskForm::Reelect,
        }
    }

    /// Whether one refused task fails its whole batch.
    fn fails_as_a_whole(&self) -> bool
        ensures { result ≡ is_atomic self.now }
    {
        matches!(self, Kind::AliasesAtomic)
    }
}

impl Executor for Kind {
    ghost takes = { accepts };

    ghost masters = { needs_master };

    ghost makes = { executed };

    fn accepts(&self, task: &Task) -> bool {
        self.form().has(task)
    }

    fn needs_master(&self) -> bool {
        match self {
            Kind::Reelect => false,
            _ => true,
        }
    }

    #[tactic(auto, unfolding(crate::specs::Executions::executed))]
    fn execute(
        &self,
        alloc: Global,
        initial: &ClusterState,
        contexts: Vec<TaskContext>,
    ) -> Result<Executed, OutOfMemory> {
        if self.fails_as_a_whole() {
            return run_atomic(alloc, initial, contexts);
        }
        let ran = run_all(alloc, initial, contexts)?;
        Ok(ran.made())
    }
}
