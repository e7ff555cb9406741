ghost use Rattle.std.specs.Prelude.{◌≡◌, IfOk};
ghost use Rattle.meta_state.specs.Exact.{node_decides};

use plain_data::{Exact, OutOfMemory, Text};
use std::alloc::Global;

/// A node of the cluster.
#[derive(Clone, Debug, Drop, PartialEq, Eq)]
pub struct NodeInfo {
    /// Its name, under which it stands in the state.
    pub name: Text,

    /// Whether its acceptance counts for the majority by which a publication commits.
    pub eligible: bool,
}

impl NodeInfo {
    /// An equal node.
    pub fn copy(&self, _alloc: Global) -> Result<NodeInfo, OutOfMemory>
        ensures { IfOk result (λ made. made ≡ self.now) }
    {
        let name = self.name.copy()?;
        Ok(NodeInfo {
            name,
            eligible: self.eligible,
        })
    }
}

impl Exact for NodeInfo {
    ghost exact = { node_decides };
}
