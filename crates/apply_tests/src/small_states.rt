ghost use Rattle.std.specs.Prelude.{◌≡◌, IfOk};

use meta_state::{ClusterState, IndexMetadata, NodeInfo};
use plain_data::{Items, NameSet, OutOfMemory, Text};
use session_law::{NodeRec, Session, report_text};
use std::alloc::Global;

/// The state in which the cluster `demo` begins on these eligible nodes, of which the first is the master.
pub fn first_state(alloc: Global, names: &[&str]) -> Result<ClusterState, OutOfMemory> {
    let nodes = eligible_nodes(alloc, names)?;
    ClusterState::first(alloc, &Text::from_str(alloc, "demo")?, nodes.as_slice())
}

fn eligible_nodes(alloc: Global, names: &[&str]) -> Result<Items<NodeInfo>, OutOfMemory> {
    let mut nodes = Items::new(alloc);
    for name in names {
        let name = Text::from_str(alloc, name)?;
        nodes.push(NodeInfo {
            name,
            eligible: true,
        })?;
    }
    Ok(nodes)
}

/// The state that follows one by the creation of an index, the `created`th one, under this identifier and version.
pub fn with_index(
    alloc: Global,
    before: &ClusterState,
    id: u64,
    created: u64,
    name: &str,
) -> Result<ClusterState, OutOfMemory> {
    let mut state = before.copy(alloc)?;
    state.id = id;
    state.version = id;
    state.metadata.version = id;
    state.metadata.created = created;
    let index = new_index(alloc, created);
    state
        .metadata
        .indices
        .set(Text::from_str(alloc, name)?, index)?;
    Ok(state)
}

fn new_index(alloc: Global, id: u64) -> IndexMetadata {
    IndexMetadata {
        id,
        version: 1,
        settings_version: 1,
        aliases_version: 1,
        opened: true,
        shards: 1,
        replicas: 1,
        aliases: NameSet::new(alloc),
    }
}

/// The first state on these nodes, and then one more for each of these indices, which it creates. Identifiers and versions
/// rise from 1.
pub fn states_with(
    alloc: Global,
    nodes: &[&str],
    names: &[&str],
) -> Result<Items<ClusterState>, OutOfMemory> {
    let mut states = Items::new(alloc);
    states.push(first_state(alloc, nodes)?)?;
    let mut created: u32 = 0;
    for name in names {
        created = created.saturating_add(1);
        push_next(alloc, &mut states, created, name)?;
    }
    Ok(states)
}

fn push_next(
    alloc: Global,
    states: &mut Items<ClusterState>,
    created: u32,
    name: &str,
) -> Result<(), OutOfMemory> {
    let created = u64::from(created);
    match states.as_slice().last() {
        None => Ok(()),
        Some(last) => {
            let next = with_index(alloc, last, created + 1, created, name)?;
            states.push(next)?;
            Ok(())
        }
    }
}

/// An equal state under another identifier and version.
pub fn renumbered(
    alloc: Global,
    state: &ClusterState,
    id: u64,
) -> Result<ClusterState, OutOfMemory> {
    let mut state = state.copy(alloc)?;
    state.id = id;
    state.version = id;
    Ok(state)
}

/// The report of a session in which nothing else is told than the record of one node. Its last state is the zero state.
pub fn report_of(alloc: Global, node: NodeRec) -> Result<Text, OutOfMemory> {
    let mut nodes = Items::new(alloc);
    nodes.push(node)?;
    let last = ClusterState::zero(alloc, &Text::from_str(alloc, "demo")?)?;
    report_text(
        alloc,
        &Session {
            batches: Items::new(alloc),
            replies: Items::new(alloc),
            acks: Items::new(alloc),
            watches: Items::new(alloc),
            reads: Items::new(alloc),
            nodes,
            last,
        },
    )
}
