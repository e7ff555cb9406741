use crate::faults::Fault;
use crate::queues::QueueSpec;
use crate::steps::Step;
use plain_data::{Items, Text};

/// A script: who takes part, and what each client does.
#[derive(Debug, Drop)]
pub struct Script {
    /// The version of the script's form, 1.
    pub version: u64,

    /// The cluster's name.
    pub cluster: Text,

    /// The nodes; the first is the master.
    pub nodes: Items<ScriptNode>,
    pub queues: Items<QueueSpec>,

    /// The steps of each client.
    pub clients: Items<Items<Step>>,
    pub faults: Items<Fault>,

    /// The order of turns that a replay follows first.
    pub schedule: Items<ScriptTurn>,
}

/// A node of a script.
#[derive(Debug, Drop)]
pub struct ScriptNode {
    pub name: Text,

    /// Whether its acceptance counts for the majority.
    pub eligible: bool,

    /// Whether it is in the first state.
    pub member: bool,
}

/// Whose turn it is.
#[derive(Debug, Drop)]
pub enum ScriptTurn {
    Master,

    /// The client's number.
    Client(u32),

    /// The node's name.
    Node(Text),
}
