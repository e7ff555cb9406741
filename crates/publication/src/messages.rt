ghost use Rattle.std.specs.Prelude.{◌≡◌};
ghost use Rattle.publication.specs.Messages.{kind_of, target_id};

use meta_state::ClusterState;
use state_diff::StateDiff;

/// What is sent to a node so that it comes to hold a new state.
#[derive(Drop)]
pub enum Message {
    /// The whole state.
    Full(ClusterState),

    /// What leads to it from the state before.
    Diff(StateDiff),
}

impl Message {
    /// The identifier of the state that it leads to.
    pub fn target(&self) -> u64
        ensures { result ≡ target_id self.now }
    {
        match self {
            Message::Full(state) => state.id,
            Message::Diff(diff) => diff.to_id(),
        }
    }

    /// Whether it is a whole state or a diff.
    pub fn kind(&self) -> MessageKind
        ensures { result ≡ kind_of self.now }
    {
        match self {
            Message::Full(_) => MessageKind::Full,
            Message::Diff(_) => MessageKind::Diff,
        }
    }
}

/// Whether a message is a whole state or a diff.
#[derive(Clone, Copy, Debug, PartialEq, Eq)]
pub enum MessageKind {
    Full,
    Diff,
}
