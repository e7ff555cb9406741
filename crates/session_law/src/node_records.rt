ghost use Rattle.std.specs.Prelude.{◌≡◌};
ghost use Rattle.session_law.specs.NodeLines.{has_applied};

use plain_data::{Items, Map, Text};

/// What a node was handed and what it made of it.
#[derive(Debug, Drop)]
pub struct NodeRec {
    /// The node's name.
    pub node: Text,

    /// The versions that it was handed, in order.
    pub handed: Items<u64>,

    /// The version of its first state.
    pub first: u64,

    /// One for each version that it was handed, in order.
    pub applies: Items<Apply>,

    /// What its appliers made of the last state that it applied.
    pub view: View,
}

/// How a node applied one handed state.
#[derive(Debug, Drop)]
pub struct Apply {
    /// The version that it had applied before.
    pub from: u64,

    /// The version that it was handed.
    pub to: u64,
    pub end: ApplyEnd,
}

/// What came of an apply.
#[derive(Debug, Drop)]
pub enum ApplyEnd {
    /// It failed before any applier ran.
    Failed,

    /// The versions of the applied state as each phase ran, and what changed.
    Applied {
        high: u64,
        normal: u64,
        low: u64,
        listeners: u64,
        change: Change,
    },
}

impl ApplyEnd {
    /// Whether the state was applied.
    pub fn has_applied(&self) -> bool
        ensures { result ≡ has_applied self.now }
    {
        match self {
            ApplyEnd::Failed => false,
            ApplyEnd::Applied { .. } => true,
        }
    }
}

/// What changed between two states: lists of names in byte order.
#[derive(Debug, Drop)]
pub struct Change {
    /// Indices that are new.
    pub created: Items<Text>,

    /// Indices that are gone.
    pub deleted: Items<Text>,

    /// Indices that have other contents.
    pub changed: Items<Text>,

    /// Nodes that are new.
    pub joined: Items<Text>,

    /// Nodes that are gone.
    pub left: Items<Text>,

    /// Keys of settings that were added, removed or changed.
    pub settings: Items<Text>,
}

/// What a node's appliers keep of the applied state.
#[derive(Debug, Drop)]
pub struct View {
    /// The names of the indices that have it, for each alias.
    pub aliases: Map<Items<Text>>,

    /// The identifier of each index.
    pub indices: Map<u64>,

    /// The value of each setting.
    pub settings: Map<Text>,
}
