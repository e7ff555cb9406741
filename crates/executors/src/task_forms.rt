ghost use Rattle.std.specs.Prelude.{◌≡◌};
ghost use Rattle.executors.specs.TaskForms.{is_of_form};

use crate::tasks::Task;

/// The forms of tasks. An executor takes the tasks of one form.
#[derive(Clone, Copy, Debug, PartialEq, Eq)]
pub enum TaskForm {
    CreateIndex,
    DeleteIndex,
    IndexSetting,
    OpenClose,
    Alias,
    ClusterSetting,

    /// A join or a leave.
    Node,
    Reelect,
}

impl TaskForm {
    /// Whether a task is of this form.
    pub fn has(&self, task: &Task) -> bool
        ensures { result ≡ is_of_form self.now task.now }
    {
        match (self, task) {
            (TaskForm::CreateIndex, Task::CreateIndex { .. }) => true,
            (TaskForm::DeleteIndex, Task::DeleteIndex { .. }) => true,
            (TaskForm::IndexSetting, Task::IndexSetting { .. }) => true,
            (TaskForm::OpenClose, Task::OpenClose { .. }) => true,
            (TaskForm::Alias, Task::Alias { .. }) => true,
            (TaskForm::ClusterSetting, Task::ClusterSetting { .. }) => true,
            (TaskForm::Node, Task::Join { .. }) => true,
            (TaskForm::Node, Task::Leave { .. }) => true,
            (TaskForm::Reelect, Task::Reelect) => true,
            _ => false,
        }
    }
}
