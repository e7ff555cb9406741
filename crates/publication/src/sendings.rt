ghost use Rattle.std.specs.Prelude.{◌≡◌, Some, true, false, IfOk, OnErr};
ghost use Rattle.plain_data.specs.Pairs.{lookup};
ghost use Rattle.meta_state.specs.Voters.{is_eligible};
ghost use Rattle.state_diff.specs.StateDiffs.{applied, state_between};
ghost use Rattle.publication.specs.Deliveries.{CanTake, HoldsOldOrNew, IsDelivered, is_in, is_sent_diff};
ghost use Rattle.publication.specs.Offers.{IsBrought, answer_by};

use crate::deliveries::{Answer, NOT_ASKED};
use crate::links::Link;
use crate::messages::Message;
use crate::offers::{Offer, ask};
use meta_state::{ClusterState, NodeInfo};
use plain_data::{Map, OutOfMemory, Text};
use state_diff::StateDiff;
use std::alloc::Global;
use std::marker::Model;

/// A new state on its way to nodes, as the two messages that bring it.
#[derive(Drop)]
pub(crate) struct Outgoing<'a> {
    prev: &'a ClusterState,
    new: &'a ClusterState,
    diff: Message,
    full: Message,
}

impl<'a> Model for Outgoing<'a> {
    ghost use Rattle.publication.specs.Offers.{AreMessagesOf, Change};

    ghost Value = { Change };

    ghost view = { λ o. record { prev = o.prev.now; new = o.new.now } };

    ghost invariant = { λ o. AreMessagesOf (record { prev = o.prev.now; new = o.new.now }) o.diff o.full };
}

/// How a node came to hold a new state.
#[derive(Clone, Copy, Debug, PartialEq, Eq)]
pub(crate) enum Brought {
    ByDiff,
    InFull,

    /// It didn't: it can't be reached.
    Missed,
}

impl<'a> Outgoing<'a> {
    /// A new state, by the diff that leads to it and whole.
    pub(crate) fn new(
        alloc: Global,
        prev: &'a ClusterState,
        new: &'a ClusterState,
        diff: StateDiff,
    ) -> Result<Outgoing<'a>, OutOfMemory>
        requires between { diff ≡ state_between prev.now new.now }
        requires leads { applied diff prev.now ≡ Some new.now }
        ensures { IfOk result (λ made. made ≡ record { prev = prev.now; new = new.now }) }
    {
        let full = Message::Full(new.copy(alloc)?);
        Ok(Outgoing {
            prev,
            new,
            diff: Message::Diff(diff),
            full,
        })
    }

    /// Sends it over a link, if the new state has its node.
    pub(crate) fn send<L: Link>(&self, link: &mut L) -> Result<Answer, OutOfMemory>
        requires { CanTake self.now.prev self.now.new (L.meaning link.old) }
        ensures sent { IfOk result (IsDelivered self.now.prev self.now.new false (L.meaning link.old) (L.meaning link.new)) }
        ensures out_of_memory { OnErr result (HoldsOldOrNew self.now.new (L.meaning link.old) (L.meaning link.new)) }
    {
        if !self.new.nodes.contains_key(link.node()) {
            return Ok(NOT_ASKED);
        }
        let is_eligible = can_vote(&self.new.nodes, link.node());
        let is_master = *link.node() == self.new.master;
        let brought = self.bring(link)?;
        Ok(answer_to(brought, is_eligible, is_master))
    }

    /// Brings it to the node of a link, by the diff where it was in the state before and has that.
    fn bring<L: Link>(&self, link: &mut L) -> Result<Brought, OutOfMemory>
        requires { CanTake self.now.prev self.now.new (L.meaning link.old) }
        ensures brought { IfOk result (IsBrought self.now (L.meaning link.old) (L.meaning link.new)) }
        ensures out_of_memory { OnErr result (HoldsOldOrNew self.now.new (L.meaning link.old) (L.meaning link.new)) }
    {
        if self.prev.nodes.contains_key(link.node()) {
            self.bring_diff(link)
        } else {
            self.bring_full(link)
        }
    }

    /// Sends the diff, and the whole state where the node doesn't have the state before.
    fn bring_diff<L: Link>(&self, link: &mut L) -> Result<Brought, OutOfMemory>
        requires takes { CanTake self.now.prev self.now.new (L.meaning link.old) }
        requires there { is_in self.now.prev (L.meaning link.old) ≡ true }
        ensures brought { IfOk result (IsBrought self.now (L.meaning link.old) (L.meaning link.new)) }
        ensures out_of_memory { OnErr result (HoldsOldOrNew self.now.new (L.meaning link.old) (L.meaning link.new)) }
    {
        match ask(link, &self.diff)? {
            Offer::Accepted => Ok(Brought::ByDiff),
            Offer::Refused => self.bring_full(link),
            Offer::Missed => Ok(Brought::Missed),
        }
    }

    /// Sends the whole state, which every node accepts.
    fn bring_full<L: Link>(&self, link: &mut L) -> Result<Brought, OutOfMemory>
        requires { is_sent_diff self.now.prev (L.meaning link.old) ≡ false }
        ensures brought { IfOk result (IsBrought self.now (L.meaning link.old) (L.meaning link.new)) }
        ensures out_of_memory { OnErr result (HoldsOldOrNew self.now.new (L.meaning link.old) (L.meaning link.new)) }
    {
        match ask(link, &self.full)? {
            Offer::Accepted => Ok(Brought::InFull),
            Offer::Refused => unreachable!(),
            Offer::Missed => Ok(Brought::Missed),
        }
    }

    /// Lets it go. In a generic function it isn't dropped in place, since the prover takes very long there.
    pub(crate) fn close(self) {}
}

/// The answer of a node in the new state, before the commit.
fn answer_to(brought: Brought, is_eligible: bool, is_master: bool) -> Answer
    ensures { result ≡ answer_by brought is_eligible is_master }
{
    let accepted = !matches!(brought, Brought::Missed);
    Answer {
        asked: true,
        accepted,
        by_diff: matches!(brought, Brought::ByDiff),
        votes: accepted && is_eligible,
        leads: accepted && is_master,
        handed: false,
    }
}

/// Whether a node counts for the majority.
fn can_vote(nodes: &Map<NodeInfo>, name: &Text) -> bool
    ensures { result ≡ is_eligible (lookup name.now nodes.now) }
{
    match nodes.get(name) {
        None => false,
        Some(node) => node.eligible,
    }
}
