ghost use Rattle.std.specs.Prelude.{◌≡◌, ◌<◌, ◌^◌, true};
ghost use Rattle.meta_state.specs.declared.cluster_state.ClusterState.{ClusterState};
ghost use Rattle.publication.specs.Handings.{IsHanded, IsReadyFor};

use crate::deliveries::Answer;
use crate::links::Link;
use meta_state::ClusterState;

/// Hands a node the new state, which was committed, where it accepted it.
pub(crate) fn hand_to<L: Link>(new: &ClusterState, link: &mut L, answer: Answer) -> Answer
    requires ready { answer.accepted ≡ true → IsReadyFor new.now (L.meaning link.old) }
    requires bound { new.now.version < 2 ^ 32 }
    ensures { IsHanded (L.meaning link.old) (L.meaning link.new) answer result }
{
    let mut answer = answer;
    answer.handed = answer.accepted && link.hand(new.version).is_ok();
    answer
}
