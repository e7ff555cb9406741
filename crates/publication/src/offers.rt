ghost use Rattle.std.specs.Prelude.{IfOk, OnErr};
ghost use Rattle.publication.specs.LinkMeanings.{HoldsOldOrSent};
ghost use Rattle.publication.specs.Offers.{IsOffered};

use crate::link_faults::LinkFault;
use crate::links::Link;
use crate::messages::Message;
use crate::receipts::Receipt;
use plain_data::OutOfMemory;

/// What came of a message to a node.
#[derive(Clone, Copy, Debug, PartialEq, Eq)]
pub(crate) enum Offer {
    Accepted,

    /// It is the diff of a state that the node doesn't have.
    Refused,

    /// The node can't be reached.
    Missed,
}

/// Sends a node a message.
pub(crate) fn ask<L: Link>(link: &mut L, message: &Message) -> Result<Offer, OutOfMemory>
    ensures offered { IfOk result (IsOffered message.now (L.meaning link.old) (L.meaning link.new)) }
    ensures out_of_memory { OnErr result (HoldsOldOrSent message.now (L.meaning link.old) (L.meaning link.new)) }
{
    match link.receive(message) {
        Ok(Receipt::Accepted) => Ok(Offer::Accepted),
        Ok(Receipt::Incompatible { .. }) => Ok(Offer::Refused),
        Err(LinkFault::Unreachable) => Ok(Offer::Missed),
        Err(LinkFault::OutOfMemory) => Err(OutOfMemory),
    }
}
