ghost use Rattle.std.specs.Prelude.{◌≡◌, [], IfOk, map};
ghost use Rattle.session_law.specs.Worlds.{first_node, first_state_of, first_world, members_of};

use meta_state::{ClusterState, NodeInfo};
use plain_data::{Items, OutOfMemory};
use scripts::{Script, ScriptNode};
use session_law::{NodeWorld, World};
use std::alloc::Global;

/// The world in which a script begins.
#[tactic(auto, unfolding(session_law::specs::Worlds::first_world))]
pub(crate) fn open_world(alloc: Global, script: &Script) -> Result<World, OutOfMemory>
    ensures { IfOk result (λ made. made ≡ first_world script.now) }
{
    let members = members(alloc, script.nodes.as_slice())?;
    let state = ClusterState::first(alloc, &script.cluster, members.as_slice())?;
    let zero = ClusterState::zero(alloc, &script.cluster)?;
    let nodes = open_nodes(alloc, script.nodes.as_slice(), &state, &zero)?;
    Ok(World {
        state,
        proposals: 0,
        in_office: true,
        nodes,
    })
}

/// The nodes of the first state.
fn members(alloc: Global, nodes: &[ScriptNode]) -> Result<Vec<NodeInfo>, OutOfMemory>
    ensures { IfOk result (λ made. made.items ≡ members_of nodes.now) }
{
    let mut made = Vec::new(alloc);
    for node in nodes {
        if node.member {
            made.push(NodeInfo {
                name: node.name.copy()?,
                eligible: node.eligible,
            })?;
        }
    }
    Ok(made)
}

/// What each node begins with.
fn open_nodes(
    alloc: Global,
    nodes: &[ScriptNode],
    first: &ClusterState,
    zero: &ClusterState,
) -> Result<Items<NodeWorld>, OutOfMemory>
    ensures { IfOk result (λ made. made ≡ map (first_node first.now zero.now) nodes.now) }
{
    let mut made = Items::new(alloc);
    for node in nodes {
        let accepted = if node.member { first } else { zero };
        made.push(NodeWorld {
            accepted: accepted.copy(alloc)?,
            sent: 0,
        })?;
    }
    Ok(made)
}
