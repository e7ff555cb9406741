use meta_state::{ClusterState, NodeInfo};
use plain_data::{OutOfMemory, Text};
use std::alloc::Global;

/// A state of the cluster `demo` with these eligible nodes, of which the first is the master, and with these settings,
/// each of the value `v`. Its version is its identifier.
pub fn state_of(
    alloc: Global,
    id: u64,
    nodes: &[&str],
    settings: &[&str],
) -> Result<ClusterState, OutOfMemory> {
    let mut state = ClusterState::zero(alloc, &Text::from_str(alloc, "demo")?)?;
    state.id = id;
    state.version = id;
    for name in nodes.iter().rev() {
        let text = Text::from_str(alloc, name)?;
        state.master = text.copy()?;
        let node = NodeInfo {
            name: text.copy()?,
            eligible: true,
        };
        state.nodes.set(text, node)?;
    }
    for key in settings {
        let key = Text::from_str(alloc, key)?;
        state
            .metadata
            .settings
            .set(key, Text::from_str(alloc, "v")?)?;
    }
    Ok(state)
}
