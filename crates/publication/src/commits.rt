ghost use Rattle.std.specs.Prelude.{◌≡◌, ◌<◌, ◌^◌};
ghost use Rattle.std.specs.List.{list_any};
ghost use Rattle.meta_state.specs.Voters.{electorate};
ghost use Rattle.publication.specs.Deliveries.{does_commit, votes_in};

use crate::deliveries::Answer;
use meta_state::{ClusterState, NodeInfo};
use plain_data::Map;

/// Whether a publication commits: the master and more than half of the eligible nodes accepted it.
pub(crate) fn commits(new: &ClusterState, answers: &[Answer]) -> bool
    ensures { result ≡ does_commit new.now answers.now }
{
    let votes = count_votes(answers);
    has_leader(answers) && count_voters(&new.nodes) < votes + votes
}

/// How many of those that accepted count for the majority.
pub(crate) fn count_votes(answers: &[Answer]) -> u64
    ensures count { result ≡ votes_in answers.now }
    ensures few { result < 2 ^ 63 }
{
    answers.iter().filter(|answer| answer.votes).count() as u64
}

/// Whether the master is one of those that accepted.
pub(crate) fn has_leader(answers: &[Answer]) -> bool
    ensures { result ≡ list_any (λ a. a.leads) answers.now }
{
    answers.iter().any(|answer| answer.leads)
}

/// How many nodes of a state count for the majority. There are no more than nodes.
#[tactic(auto, using(crate::proofs::Counting::electorate_fits))]
fn count_voters(nodes: &Map<NodeInfo>) -> u64
    ensures { result ≡ electorate nodes.now }
{
    let most = nodes.len();
    let mut count: u64 = 0;
    for (_, node) in nodes.iter() {
        prove!(count as usize <= most);
        if node.eligible {
            count += 1;
        }
    }
    count
}
