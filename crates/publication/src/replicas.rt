ghost use Rattle.std.specs.Prelude.{◌≡◌, IfOk, IfSome};
ghost use Rattle.publication.specs.Messages.{made_of};

use crate::messages::Message;
use crate::receipts::Receipt;
use meta_state::ClusterState;
use plain_data::OutOfMemory;
use state_diff::{ApplyRefusal, StateDiff};
use std::alloc::Global;
use std::marker::Model;

/// The state that a node last accepted. Contracts see it as this state.
#[derive(Debug, Drop)]
pub struct Replica {
    state: ClusterState,
}

impl Model for Replica {
    ghost use Rattle.meta_state.specs.declared.cluster_state.ClusterState.{ClusterState};

    ghost Value = { ClusterState };

    ghost view = { λ replica. replica.state };
}

impl Replica {
    ghost use Rattle.std.specs.Prelude.{false, OnErr};
    ghost use Rattle.publication.specs.Messages.{is_accepted, received, AcceptsTarget};

    /// A replica that holds this state.
    pub fn new(state: ClusterState) -> Replica
        ensures { result ≡ state }
    {
        Replica { state }
    }

    /// The state that it holds.
    pub fn state(&self) -> &ClusterState
        ensures { result.now ≡ self.now }
    {
        &self.state
    }

    /// Takes a message. A whole state is accepted; a diff is accepted where it was made from the state that is held, or
    /// leads to it. A refused diff and want of memory leave what is held as it was.
    #[tactic(auto, unfolding(crate::specs::Messages::received))]
    pub fn receive(&mut self, alloc: Global, message: &Message) -> Result<Receipt, OutOfMemory>
        ensures receipt { IfOk result (λ receipt. (receipt, self.new) ≡ received self.old message.now) }

        // A refused diff leaves what is held as it was.
        ensures refused { IfOk result (λ receipt. is_accepted receipt ≡ false → self.new ≡ self.old) }

        // What is accepted is the message's state.
        ensures leads { IfOk result (λ receipt. AcceptsTarget receipt self.new message.now) }
        ensures err { OnErr result (self.new ≡ self.old) }
    {
        match message {
            Message::Full(state) => {
                self.state = state.copy(alloc)?;
                Ok(Receipt::Accepted)
            }
            Message::Diff(diff) => match apply_to(alloc, diff, &self.state)? {
                Some(state) => {
                    self.state = state;
                    Ok(Receipt::Accepted)
                }
                None => Ok(Receipt::Incompatible {
                    has: self.state.id,
                    wants: diff.from_id(),
                }),
            },
        }
    }
}

/// What a diff makes of a state, where it can be applied to it.
#[tactic(auto, using(crate::proofs::Targets::target_of), unfolding(crate::specs::Messages::made_of))]
fn apply_to(
    alloc: Global,
    diff: &StateDiff,
    state: &ClusterState,
) -> Result<Option<ClusterState>, OutOfMemory>
    ensures made { IfOk result (λ made. made ≡ made_of diff.now state.now) }
    ensures leads { IfOk result (λ made. IfSome made (λ state. state.id ≡ diff.now.to_id)) }
{
    match diff.apply(alloc, state.copy(alloc)?) {
        Ok(made) => Ok(Some(made)),
        Err(fault) => match fault.why {
            ApplyRefusal::OutOfMemory => Err(OutOfMemory),
            ApplyRefusal::Incompatible { .. } => Ok(None),
        },
    }
}
