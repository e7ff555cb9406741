ghost use Rattle.std.specs.Prelude.{◌≡◌, ◌<◌, ◌^◌, Some, IfOk, OnErr, false, length, map};
ghost use Rattle.std.specs.List.{AllByRecursion, AllZip};
ghost use Rattle.state_diff.specs.StateDiffs.{applied, state_between};
ghost use Rattle.publication.specs.Deliveries.{CanTake, HoldsOldOrNew, IsDelivered, IsDelivery};
ghost use Rattle.publication.specs.Handings.{CanBeHanded, IsSettled};
ghost use Rattle.publication.specs.Threes.{AllThree};

use crate::all_links::{hand_all, send_all};
use crate::commits::{commits, count_votes, has_leader};
use crate::links::Link;
use crate::sendings::Outgoing;
use meta_state::ClusterState;
use plain_data::{Items, OutOfMemory};
use state_diff::StateDiff;
use std::alloc::Global;

/// What came of a publication at the node of one link.
#[derive(Clone, Copy, Debug, PartialEq, Eq)]
pub struct Answer {
    /// Whether it was sent the new state, which has it as a node.
    pub asked: bool,

    /// Whether it accepted the new state, and by the diff.
    pub accepted: bool,
    pub by_diff: bool,

    /// Whether it accepted, and counts for the majority.
    pub votes: bool,

    /// Whether it accepted, and is the master.
    pub leads: bool,

    /// Whether it was handed the commit.
    pub handed: bool,
}

/// The answer of a node that isn't sent the new state.
pub(crate) const NOT_ASKED: Answer = Answer {
    asked: false,
    accepted: false,
    by_diff: false,
    votes: false,
    leads: false,
    handed: false,
};

/// What came of a publication: whether it committed, and what came of it at each link, in their order.
#[derive(Debug, Drop)]
pub struct Delivery {
    pub commits: bool,
    pub answers: Items<Answer>,
}

impl Delivery {
    ghost use Rattle.std.specs.Prelude.{◌≡◌, ◌<◌, ◌^◌};
    ghost use Rattle.std.specs.List.{list_any};
    ghost use Rattle.publication.specs.Deliveries.{diffs_in, fulls_in, votes_in};

    /// How many nodes accepted the diff.
    pub fn diffs(&self) -> u64
        ensures count { result ≡ diffs_in self.now.answers }
        ensures few { result < 2 ^ 63 }
    {
        let answers = self.answers.as_slice();
        answers.iter().filter(|answer| answer.by_diff).count() as u64
    }

    /// How many accepted the whole state.
    pub fn fulls(&self) -> u64
        ensures count { result ≡ fulls_in self.now.answers }
        ensures few { result < 2 ^ 63 }
    {
        let answers = self.answers.as_slice();
        answers
            .iter()
            .filter(|answer| answer.accepted && !answer.by_diff)
            .count() as u64
    }

    /// How many that accepted count for the majority.
    pub fn votes(&self) -> u64
        ensures count { result ≡ votes_in self.now.answers }
        ensures few { result < 2 ^ 63 }
    {
        count_votes(self.answers.as_slice())
    }

    /// Whether the master accepted.
    pub fn has_master(&self) -> bool
        ensures { result ≡ list_any (λ a. a.leads) self.now.answers }
    {
        has_leader(self.answers.as_slice())
    }
}

/// Brings a new state over links to the nodes that it has, by the diff that leads to it from the state before, or
/// whole to a node that wasn't in that state or doesn't have it. It commits where the master and more than half of the
/// eligible nodes accepted it, and then hands each node that accepted the commit. Both messages are made before the
/// first is sent. After want of memory each node holds what it held, or the new state, and the session is to be given
/// up.
#[tactic(auto, using(crate::proofs::Holding::all_hold_what_they_held, crate::proofs::Settling::can_all_be_handed))]
pub fn deliver<L: Link>(
    alloc: Global,
    prev: &ClusterState,
    new: &ClusterState,
    diff: StateDiff,
    links: &mut [L],
) -> Result<Delivery, OutOfMemory>
    requires between { diff ≡ state_between prev.now new.now }
    requires leads { applied diff prev.now ≡ Some new.now }
    requires links { AllByRecursion (CanTake prev.now new.now) (map L.meaning links.old) }
    requires bound { new.now.version < 2 ^ 32 }
    ensures delivered { IfOk result (IsDelivery prev.now new.now (map L.meaning links.old) (map L.meaning links.new)) }
    ensures out_of_memory { OnErr result (AllZip (HoldsOldOrNew new.now) (map L.meaning links.old) (map L.meaning links.new)) }
{
    let outgoing = Outgoing::new(alloc, prev, new, diff)?;
    let sent = send(alloc, &outgoing, links);
    outgoing.close();
    let answers = sent?;
    Ok(settle(new, links, answers))
}

/// Sends a new state over links, with an answer for each.
#[tactic(auto, using(crate::proofs::Holding::all_hold_what_they_held))]
fn send<L: Link>(
    alloc: Global,
    outgoing: &Outgoing,
    links: &mut [L],
) -> Result<Vec<Answer>, OutOfMemory>
    requires { AllByRecursion (CanTake outgoing.now.prev outgoing.now.new) (map L.meaning links.old) }
    ensures sent { IfOk result (λ answers. AllThree (IsDelivered outgoing.now.prev outgoing.now.new false) (map L.meaning links.old) (map L.meaning links.new) answers.items) }
    ensures places { IfOk result (λ answers. length answers.items ≡ length links.new) }
    ensures out_of_memory { OnErr result (AllZip (HoldsOldOrNew outgoing.now.new) (map L.meaning links.old) (map L.meaning links.new)) }
{
    let mut answers = no_answers(alloc, links.len())?;
    send_all(outgoing, links, &mut answers)?;
    Ok(answers)
}

/// So many answers, of links that weren't asked.
fn no_answers(alloc: Global, count: usize) -> Result<Vec<Answer>, OutOfMemory>
    ensures { IfOk result (λ answers. length answers.items ≡ count) }
{
    Ok(vec![in alloc; NOT_ASKED; count]?)
}

/// Decides whether a new state that was sent over links is committed, and if so hands each node that accepted it the
/// commit.
fn settle<L: Link>(new: &ClusterState, links: &mut [L], answers: Vec<Answer>) -> Delivery
    requires places { length answers.items ≡ length links.old }
    requires ready { AllZip (CanBeHanded new.now) (map L.meaning links.old) answers.items }
    requires bound { new.now.version < 2 ^ 32 }
    ensures { IsSettled new.now (map L.meaning links.old) (map L.meaning links.new) answers.items result }
{
    let mut answers = answers;
    let commits = commits(new, &answers);
    if commits {
        hand_all(new, links, &mut answers);
    }
    Delivery {
        commits,
        answers: Items::from_vec(answers),
    }
}
