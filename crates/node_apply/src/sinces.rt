ghost use Rattle.std.specs.Prelude.{◌≡◌, true, false, IfOk, OnErr, Option};
ghost use Rattle.meta_state.specs.declared.cluster_state.ClusterState.{ClusterState};
ghost use Rattle.meta_state.specs.Touches.{touched_by_both};
ghost use Rattle.publication.specs.Messages.{is_accepted, received, AcceptsTarget};
ghost use Rattle.node_apply.specs.NodeLinks.{IsSince, since_on};
ghost use Rattle.node_apply.specs.Sinces.{told_by};
ghost use Rattle.node_apply.specs.TouchedNames.{touched_of};

use crate::preparing::touched_union;
use crate::touched_names::touched_by;
use meta_state::Touched;
use plain_data::OutOfMemory;
use publication::{Message, Receipt, Replica};
use state_diff::StateDiff;
use std::alloc::Global;

/// What may have changed between the state of the last commit that a node was handed and the one that it holds.
#[derive(Drop)]
pub(crate) enum Since {
    /// It isn't known.
    Unknown,

    /// They are the same state.
    Same,

    /// They agree outside of this.
    Among(Touched),
}

/// What may have changed, told of a commit.
pub(crate) fn told(since: Since) -> Option<Touched>
    ensures { result ≡ told_by since }
{
    match since {
        Since::Unknown | Since::Same => None,
        Since::Among(touched) => Some(touched),
    }
}

/// What may have changed after a message that is accepted.
fn since_after(alloc: Global, since: &Since, message: &Message) -> Result<Since, OutOfMemory>
    ensures { IfOk result (λ made. made ≡ since_on since.now message.now) }
{
    match (since, message) {
        (_, Message::Full(_)) | (Since::Unknown, Message::Diff(_)) => Ok(Since::Unknown),
        (Since::Same, Message::Diff(diff)) => Ok(Since::Among(touched_by(alloc, diff)?)),
        (Since::Among(touched), Message::Diff(diff)) => {
            Ok(Since::Among(touched_with(alloc, touched, diff)?))
        }
    }
}

// What may have changed by something else or by a diff.
fn touched_with(alloc: Global, touched: &Touched, diff: &StateDiff) -> Result<Touched, OutOfMemory>
    ensures { IfOk result (λ made. made ≡ touched_by_both touched.now (touched_of diff.now)) }
{
    let more = touched_by(alloc, diff)?;
    touched_union(alloc, touched, &more)
}

/// A replica takes a message, and what may have changed is told on. Want of memory leaves both as they were.
#[tactic(auto, using(crate::proofs::Receiving::since_received))]
pub(crate) fn take_message(
    alloc: Global,
    replica: &mut Replica,
    since: &mut Since,
    message: &Message,
) -> Result<Receipt, OutOfMemory>
    ensures receipt { IfOk result (λ receipt. (receipt, replica.new) ≡ received replica.old message.now) }
    ensures refused { IfOk result (λ receipt. is_accepted receipt ≡ false → replica.new ≡ replica.old) }
    ensures leads { IfOk result (λ receipt. AcceptsTarget receipt replica.new message.now) }
    ensures since { IfOk result (λ receipt. (before : Option ClusterState) → IsSince since.old before replica.old → IsSince since.new before replica.new) }
    ensures err { OnErr result (replica.new ≡ replica.old) }
    ensures kept { OnErr result (since.new ≡ since.old) }
{
    let made = since_after(alloc, since, message)?;
    let receipt = replica.receive(alloc, message);
    put_accepted(receipt, since, made)
}

// Puts a value in a place where a message was accepted.
fn put_accepted<T: Drop>(
    receipt: Result<Receipt, OutOfMemory>,
    place: &mut T,
    value: T,
) -> Result<Receipt, OutOfMemory>
    ensures receipt { result ≡ receipt }
    ensures accepted { IfOk result (λ receipt. is_accepted receipt ≡ true → place.new ≡ value) }
    ensures refused { IfOk result (λ receipt. is_accepted receipt ≡ false → place.new ≡ place.old) }
    ensures err { OnErr result (place.new ≡ place.old) }
{
    if matches!(receipt, Ok(Receipt::Accepted)) {
        *place = value;
    }
    receipt
}
