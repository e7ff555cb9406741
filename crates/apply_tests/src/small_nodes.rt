use meta_state::ClusterState;
use node_apply::{ApplyOutcome, CommitEnd, CommitStart, NodeApplier, NodeLink, commit_pair};
use plain_data::{OutOfMemory, Text};
use publication::{Link, LinkFault, Message, Receipt, Replica};
use scripts::Fault;
use session_law::NodeRec;
use state_diff::StateDiff;
use std::alloc::Global;
use std::marker::Model;

/// A node with the link to it: what it accepts it is handed, and this is passed on at once.
#[derive(Drop)]
pub struct SmallNode {
    link: NodeLink,
    applier: NodeApplier,
}

impl Model for SmallNode {
    ghost use Rattle.std.specs.Prelude.{◌≡◌};
    ghost use Rattle.node_apply.specs.Applying.{Node};
    ghost use Rattle.node_apply.specs.NodeLinks.{NodeLinkView};

    ghost Value = { NodeLinkView × Node };

    ghost view = { λ n. (n.link, n.applier) };

    ghost invariant = { λ n. n.link.meaning.name ≡ n.applier.name };
}

impl SmallNode {
    ghost use Rattle.std.specs.Prelude.{◌≡◌, IfOk, OnErr, IsTrue};
    ghost use Rattle.node_apply.specs.Applying.{after_next, record_of};

    /// A node of this name that holds a first state, and has applied it. Its link fails at these faults, and its applies
    /// of the publications of these numbers.
    pub fn create(
        alloc: Global,
        name: &str,
        first: &ClusterState,
        faults: Vec<Fault>,
        failing: Vec<u64>,
    ) -> Result<SmallNode, OutOfMemory> {
        let node = Text::from_str(alloc, name)?;
        let held = Replica::new(first.copy(alloc)?);
        let (start, end) = commit_pair(alloc, 8)?;
        let applier = NodeApplier::create(alloc, node.copy()?, first.copy(alloc)?, end, failing)?;
        let link = NodeLink::create(alloc, node, held, start, faults);
        Ok(SmallNode { link, applier })
    }

    /// Publishes a state to it, as what leads there from another one or whole. Whether the node took the message, or was out
    /// of reach.
    pub fn publish(
        &mut self,
        alloc: Global,
        old: &ClusterState,
        new: &ClusterState,
        whole: bool,
    ) -> Result<bool, OutOfMemory> {
        let message = message_to(alloc, old, new, whole)?;
        self.send(&message)
    }

    // Sends a message, and hands and passes on what it leads to where it is accepted and the commit isn't lost. Whether
    // the node took the message.
    fn send(&mut self, message: &Message) -> Result<bool, OutOfMemory> {
        match self.link.receive(message) {
            Ok(Receipt::Accepted) => {
                self.hand()?;
                Ok(true)
            }
            Ok(Receipt::Incompatible { .. }) => Ok(false),
            Err(LinkFault::Unreachable) => Ok(true),
            Err(LinkFault::OutOfMemory) => Err(OutOfMemory),
        }
    }

    fn hand(&mut self) -> Result<(), OutOfMemory>
        requires { IsTrue self.old.0.meaning.ready }
    {
        let version = self.link.state().version;
        if version >= 1 << 32 || self.link.room() == 0 {
            return Err(OutOfMemory);
        }
        // a commit that is lost is the link's own fault, and the script's
        let _lost = self.link.hand(version);
        self.link.pass(&mut self.applier)
    }

    /// Applies the next commit that it was handed.
    pub fn apply(&mut self) -> Result<ApplyOutcome, OutOfMemory>
        ensures ok { IfOk result (λ outcome. (outcome, self.new.1) ≡ after_next self.old.1) }
        ensures link { self.new.0 ≡ self.old.0 }
        ensures err { OnErr result (self.new.1 ≡ self.old.1) }
    {
        self.applier.apply_next()
    }

    /// The version that it has applied.
    pub fn applied(&self) -> u64
        ensures { result ≡ self.now.1.state.version }
    {
        self.applier.state().version
    }

    /// The record of what it was handed and applied.
    pub fn finish(self) -> NodeRec
        ensures { result ≡ record_of self.1 }
    {
        self.applier.finish()
    }
}

// What leads from one state to the next, or that whole where it is asked for or nothing leads there.
fn message_to(
    alloc: Global,
    old: &ClusterState,
    new: &ClusterState,
    whole: bool,
) -> Result<Message, OutOfMemory> {
    if whole || old.id == new.id {
        Ok(Message::Full(new.copy(alloc)?))
    } else {
        Ok(Message::Diff(StateDiff::between(alloc, old, new)?))
    }
}
