ghost use Rattle.std.specs.Prelude.{◌≡◌, ◌<◌, ◌^◌, IfOk, OnErr, map};
ghost use Rattle.std.specs.List.{AllByRecursion, AllZip};
ghost use Rattle.publication.specs.Deliveries.{CanTake, HoldsOldOrNew};
ghost use Rattle.publication.specs.Publications.{IsPublication, accepted_places, handed_places, publication_of};

use crate::deliveries::{Answer, Delivery, deliver};
use crate::links::Link;
use meta_state::ClusterState;
use plain_data::{Items, OutOfMemory};
use state_diff::StateDiff;
use std::alloc::Global;

/// What came of a publication. Places are those of the links, from 0, and rise.
#[derive(Debug, Drop)]
pub enum Publication {
    /// The master and more than half of the eligible nodes accepted the new state.
    Committed {
        /// How many accepted it by the diff.
        diffs: u64,

        /// How many accepted it whole.
        fulls: u64,

        /// Which accepted it.
        accepted: Items<u64>,

        /// Which were handed the commit.
        handed: Items<u64>,
    },

    /// Too few did, so that it isn't committed.
    NotCommitted {
        diffs: u64,
        fulls: u64,
        accepted: Items<u64>,
    },
}

/// Publishes a new state, which has another identifier than the state before: it is delivered over the links to its
/// nodes, by the diff between the two states or whole (Elasticsearch's `PublicationTransportHandler`). Each link has
/// room for a commit, none holds a state of the new one's identifier, and one that holds a state of the former's holds
/// that state. After want of memory each node holds what it held, or the new state, and the session is to be given up.
#[tactic(auto, using(crate::proofs::Holding::all_hold_what_they_held, crate::proofs::Holding::delivery_holds))]
pub fn publish<L: Link>(
    alloc: Global,
    prev: &ClusterState,
    new: &ClusterState,
    links: &mut [L],
) -> Result<Publication, OutOfMemory>
    requires differ { prev.now.id ≡ new.now.id → ⊥ }
    requires links { AllByRecursion (CanTake prev.now new.now) (map L.meaning links.old) }
    requires bound { new.now.version < 2 ^ 32 }
    ensures published { IfOk result (IsPublication prev.now new.now (map L.meaning links.old) (map L.meaning links.new)) }
    ensures out_of_memory { OnErr result (AllZip (HoldsOldOrNew new.now) (map L.meaning links.old) (map L.meaning links.new)) }
{
    let diff = StateDiff::between(alloc, prev, new)?;
    let delivery = deliver(alloc, prev, new, diff, links)?;
    tell(alloc, delivery)
}

/// Tells a delivery, by the places of the links.
fn tell(alloc: Global, delivery: Delivery) -> Result<Publication, OutOfMemory>
    ensures { IfOk result (λ told. told ≡ publication_of delivery) }
{
    let diffs = delivery.diffs();
    let fulls = delivery.fulls();
    let answers = delivery.answers.as_slice();
    let accepted = who_accepted(alloc, answers)?;
    if delivery.commits {
        Ok(Publication::Committed {
            diffs,
            fulls,
            accepted,
            handed: who_was_handed(alloc, answers)?,
        })
    } else {
        Ok(Publication::NotCommitted {
            diffs,
            fulls,
            accepted,
        })
    }
}

/// The places of those that accepted.
fn who_accepted(alloc: Global, answers: &[Answer]) -> Result<Items<u64>, OutOfMemory>
    ensures { IfOk result (λ places. places ≡ accepted_places answers.now) }
{
    let mut places = Items::new(alloc);
    for (place, answer) in answers.iter().enumerate() {
        if answer.accepted {
            places.push(place as u64)?;
        }
    }
    Ok(places)
}

/// The places of those that were handed the commit.
fn who_was_handed(alloc: Global, answers: &[Answer]) -> Result<Items<u64>, OutOfMemory>
    ensures { IfOk result (λ places. places ≡ handed_places answers.now) }
{
    let mut places = Items::new(alloc);
    for (place, answer) in answers.iter().enumerate() {
        if answer.handed {
            places.push(place as u64)?;
        }
    }
    Ok(places)
}
