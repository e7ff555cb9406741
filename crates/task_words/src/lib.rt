//! The words of tasks: how far each is, and which wins between a batch and a timeout.
#![tactic(auto)]

mod answers;
mod end_codes;
mod lane_faults;
mod plain_tasks;
mod words;

pub use answers::{Acquired, Expiry, TaskPoll};
pub use end_codes::{EndCode, Outcome};
pub use lane_faults::LaneFull;
pub use plain_tasks::PlainTasks;
pub use words::Word;
