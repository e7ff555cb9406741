ghost use Rattle.std.specs.Prelude.{◌≡◌, ◌<◌, ◌^◌, false, OnOk, OnErr, length, map};
ghost use Rattle.std.specs.List.{AllByRecursion, AllZip};
ghost use Rattle.publication.specs.Deliveries.{CanTake, HoldsOldOrNew, IsDelivered};
ghost use Rattle.publication.specs.Fours.{AllFour};
ghost use Rattle.publication.specs.Handings.{CanBeHanded, IsHanded};
ghost use Rattle.publication.specs.Threes.{AllThree};

use crate::deliveries::Answer;
use crate::handings::hand_to;
use crate::links::Link;
use crate::sendings::Outgoing;
use meta_state::ClusterState;
use plain_data::OutOfMemory;

/// Sends a new state over each link. What comes of it at each is written at its place among the answers.
pub(crate) fn send_all<L: Link>(
    outgoing: &Outgoing,
    links: &mut [L],
    answers: &mut [Answer],
) -> Result<(), OutOfMemory>
    requires links { AllByRecursion (CanTake outgoing.now.prev outgoing.now.new) (map L.meaning links.old) }
    requires places { length answers.old ≡ length links.old }
    ensures sent { OnOk result (AllThree (IsDelivered outgoing.now.prev outgoing.now.new false) (map L.meaning links.old) (map L.meaning links.new) answers.new) }
    ensures out_of_memory { OnErr result (AllZip (HoldsOldOrNew outgoing.now.new) (map L.meaning links.old) (map L.meaning links.new)) }
{
    for (place, link) in links.iter_mut().enumerate() {
        answers[place] = outgoing.send(link)?;
    }
    Ok(())
}

/// Hands the new state, which was committed, over each link whose node accepted it.
pub(crate) fn hand_all<L: Link>(new: &ClusterState, links: &mut [L], answers: &mut [Answer])
    requires places { length answers.old ≡ length links.old }
    requires ready { AllZip (CanBeHanded new.now) (map L.meaning links.old) answers.old }
    requires bound { new.now.version < 2 ^ 32 }
    ensures { AllFour IsHanded (map L.meaning links.old) (map L.meaning links.new) answers.old answers.new }
{
    for (place, link) in links.iter_mut().enumerate() {
        answers[place] = hand_to(new, link, answers[place]);
    }
}
