//! What a session of a master and its nodes is made of, when it is lawful, and its report.
#![tactic(auto)]

mod batches;
mod joining;
mod laws;
mod lines;
mod node_lines;
mod node_records;
mod reads;
mod replies;
mod reply_lines;
mod reports;
mod sessions;
mod summaries;
mod task_ends;
mod view_json;
mod watches;
mod worlds;

pub use batches::{Batch, BatchResult, Entry};
pub use laws::{
    answers_are_first_hits, applied_was_handed, others_keep_the_state, tasks_stand_once,
    versions_are_in_order, views_agree_with_looks,
};
pub use node_records::{Apply, ApplyEnd, Change, NodeRec, View};
pub use reads::Read;
pub use replies::{AckEnd, AckReply, Reply};
pub use reports::report_text;
pub use sessions::Session;
pub use summaries::summary_text;
pub use task_ends::TaskEnd;
pub use watches::{Watch, WatchEnd};
pub use worlds::{NodeWorld, Reach, Stepped, World};
