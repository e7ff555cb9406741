//! What waits: the tasks that were submitted to queues, and which queue the master takes next.
#![tactic(auto)]

mod entries;
mod parts;
mod refusals;
mod urgencies;
mod wait_lists;

pub use entries::{Submission, Taken, Waiting, WaitingTask};
pub use refusals::{IntakeRefusal, NotSubmitted};
pub use wait_lists::WaitList;
