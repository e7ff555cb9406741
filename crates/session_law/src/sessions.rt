use crate::batches::Batch;
use crate::node_records::NodeRec;
use crate::reads::Read;
use crate::replies::{AckReply, Reply};
use crate::watches::Watch;
use meta_state::ClusterState;
use plain_data::Items;

/// All that came of a script: what a report tells, line by line.
#[derive(Debug, Drop)]
pub struct Session {
    /// In the order in which they ran; the first is batch 1.
    pub batches: Items<Batch>,

    /// By client and step.
    pub replies: Items<Reply>,

    /// By client and step.
    pub acks: Items<AckReply>,

    /// By client, step and part.
    pub watches: Items<Watch>,

    /// By client and step.
    pub reads: Items<Read>,

    /// In the order of the script's nodes.
    pub nodes: Items<NodeRec>,

    /// The state after all batches.
    pub last: ClusterState,
}
