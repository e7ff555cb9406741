use plain_data::Text;

/// What is to go wrong at one publication to one node.
#[derive(Debug, Drop)]
pub struct Fault {
    /// The node's name. It isn't the master.
    pub node: Text,

    /// At which publication to this node, counted from 1.
    pub publication: u64,
    pub kind: FaultKind,
}

/// How it goes wrong.
#[derive(Clone, Copy, Debug, PartialEq, Eq)]
pub enum FaultKind {
    /// The node takes no message, and isn't handed the commit.
    Unreachable,

    /// The node accepts the state, and isn't handed its commit.
    LostCommit,

    /// The node is handed the commit, and fails to apply it.
    Apply,
}
