ghost use Rattle.std.specs.Prelude.{◌≡◌, [], IfOk, codes};
ghost use Rattle.plain_data.specs.Pairs.{with};
ghost use Rattle.meta_state.specs.States.{no_metadata, zero_state};

use meta_state::ClusterState;
use plain_data::{OutOfMemory, Text};
use std::alloc::Global;

/// A state of the cluster `demo` that has one setting of this key, and else only an identifier and a version.
pub fn state_with(
    alloc: Global,
    id: u64,
    version: u64,
    key: &str,
) -> Result<ClusterState, OutOfMemory>
    ensures { IfOk result (λ made. made ≡ record (zero_state (codes "demo")) { id = id; version = version; metadata = record (no_metadata 0) { settings = with key.now (codes "v") [] } }) }
{
    let mut state = ClusterState::zero(alloc, &Text::from_str(alloc, "demo")?)?;
    state.id = id;
    state.version = version;
    let key = Text::from_str(alloc, key)?;
    state
        .metadata
        .settings
        .set(key, Text::from_str(alloc, "v")?)?;
    Ok(state)
}
