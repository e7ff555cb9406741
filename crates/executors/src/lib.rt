//! Tasks, and the executors that run a queue's waiting tasks as one batch on a cluster state.
#![tactic(auto)]

mod alias_tasks;
mod contexts;
mod executions;
mod folds;
mod index_tasks;
mod kinds;
mod letters;
mod node_tasks;
mod refusals;
mod setting_tasks;
mod task_forms;
mod task_runs;
mod tasks;
mod touching;

pub use contexts::{Mark, TaskContext, Verdict, number};
pub use executions::{Executed, Executor};
pub use kinds::Kind;
pub use letters::{does_begin_well, is_alphanumeric};
pub use refusals::TaskRefusal;
pub use setting_tasks::is_setting_key;
pub use task_forms::TaskForm;
pub use tasks::Task;
pub use touching::touched_by;
