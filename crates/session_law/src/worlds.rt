use crate::TaskEnd;
use crate::batches::BatchResult;
use meta_state::ClusterState;
use plain_data::Items;

/// What the master and its nodes have, between two batches.
#[derive(Debug, Drop)]
pub struct World {
    /// The current state: the last one that was committed.
    pub state: ClusterState,

    /// How many states were proposed so far.
    pub proposals: u64,

    /// Whether the master is in office.
    pub in_office: bool,

    /// What each node of the script has, in their order.
    pub nodes: Items<NodeWorld>,
}

/// What a node has, between two batches.
#[derive(Debug, Drop)]
pub struct NodeWorld {
    /// The state that it last accepted.
    pub accepted: ClusterState,

    /// How many publications were sent to it.
    pub sent: u64,
}

/// How far a publication reached.
#[derive(Debug, Drop)]
pub struct Reach {
    /// What each node has then.
    pub nodes: Items<NodeWorld>,

    /// How many accepted it by a diff.
    pub diffs: u64,

    /// How many accepted it in full.
    pub fulls: u64,

    /// How many eligible nodes accepted it.
    pub votes: u64,

    /// Whether the master accepted it.
    pub master: bool,
}

/// What came of one batch, beside the world after it.
#[derive(Debug, Drop)]
pub struct Stepped {
    pub result: BatchResult,

    /// How each of its tasks ended, in order.
    pub ends: Items<TaskEnd>,
}
