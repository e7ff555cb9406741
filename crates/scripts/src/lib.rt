//! Scripts: who takes part, what each client does, and when a script is valid.
#![tactic(auto)]

mod faults;
mod names;
mod queues;
mod steps;
mod task_id;
mod whole_script;

pub use faults::{Fault, FaultKind};
pub use names::is_a_name;
pub use queues::{Priority, QueueSpec};
pub use steps::{Ack, Goal, Step};
pub use task_id::TaskId;
pub use whole_script::{Script, ScriptNode, ScriptTurn};
