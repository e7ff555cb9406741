ghost use Rattle.std.specs.Prelude.{◌≡◌, [], IfOk, IsTrue, ◌↔◌};
ghost use Rattle.meta_state.specs.Exact.{state_decides};
ghost use Rattle.meta_state.specs.States.{first_state, zero_state, no_metadata, with_nodes, IsRoomy, IsRoomyIndex, AreRoomy};

use crate::cluster_metadata::Metadata;
use crate::index_metadata::IndexMetadata;
use crate::index_table::IndexTable;
use crate::node_info::NodeInfo;
use plain_data::{Exact, Map, OutOfMemory, Text};
use std::alloc::Global;

/// The cluster state (Elasticsearch's `ClusterState`, in this profile): what the master alone changes and every
/// node applies.
#[derive(Clone, Debug, Drop, PartialEq, Eq)]
pub struct ClusterState {
    /// The cluster's name.
    pub cluster: Text,

    /// Which state it is: one more than the count of states proposed before. It stands for a UUID.
    pub id: u64,

    /// Rises by one with each task that elects the master anew.
    pub term: u64,

    /// Rises by one with each published state.
    pub version: u64,

    /// The master's name.
    pub master: Text,

    /// The nodes, by name.
    pub nodes: Map<NodeInfo>,

    pub metadata: Metadata,
}

impl ClusterState {
    /// The state in which a cluster begins: identifier, term, version and metadata version 1, no indices and no
    /// settings. The first of `nodes` is the master. Where two have one name, the later one stands.
    pub fn first(
        alloc: Global,
        cluster: &Text,
        nodes: &[NodeInfo],
    ) -> Result<ClusterState, OutOfMemory>
        ensures { IfOk result (λ made. made ≡ first_state cluster.now nodes.now) }
    {
        let master = match nodes.first() {
            None => Text::new(alloc),
            Some(node) => node.name.copy()?,
        };
        let nodes = nodes_by_name(alloc, nodes)?;
        Ok(ClusterState {
            cluster: cluster.copy()?,
            id: 1,
            term: 1,
            version: 1,
            master,
            nodes,
            metadata: empty_metadata(alloc, 1),
        })
    }

    /// The state of a node that has received none: every number 0, no master, no nodes, nothing else.
    pub fn zero(alloc: Global, cluster: &Text) -> Result<ClusterState, OutOfMemory>
        ensures { IfOk result (λ made. made ≡ zero_state cluster.now) }
    {
        Ok(ClusterState {
            cluster: cluster.copy()?,
            id: 0,
            term: 0,
            version: 0,
            master: Text::new(alloc),
            nodes: Map::new(alloc),
            metadata: empty_metadata(alloc, 0),
        })
    }

    /// An equal state, which shares its maps: its cost doesn't grow with them.
    pub fn copy(&self, alloc: Global) -> Result<ClusterState, OutOfMemory>
        ensures { IfOk result (λ made. made ≡ self.now) }
    {
        let cluster = self.cluster.copy()?;
        let master = self.master.copy()?;
        let nodes = self.nodes.copy()?;
        let metadata = self.metadata.copy(alloc)?;
        Ok(ClusterState {
            cluster,
            id: self.id,
            term: self.term,
            version: self.version,
            master,
            nodes,
            metadata,
        })
    }

    /// Whether every counter is below 2^63, so that it can rise: identifier, term and version of the state, version
    /// and count of created indices of the metadata, and the three versions of each index.
    pub fn roomy(&self) -> bool
        ensures { IsTrue result ↔ IsRoomy self.now }
    {
        self.id < ROOM
            && self.term < ROOM
            && self.version < ROOM
            && self.metadata.version < ROOM
            && self.metadata.created < ROOM
            && are_indices_roomy(&self.metadata.indices)
    }
}

impl Exact for ClusterState {
    ghost exact = { state_decides };
}

const ROOM: u64 = 1 << 63;

fn nodes_by_name(alloc: Global, nodes: &[NodeInfo]) -> Result<Map<NodeInfo>, OutOfMemory>
    ensures { IfOk result (λ made. made ≡ with_nodes nodes.now []) }
{
    let mut made = Map::new(alloc);
    for node in nodes {
        made.set(node.name.copy()?, node.copy(alloc)?)?;
    }
    Ok(made)
}

fn empty_metadata(alloc: Global, version: u64) -> Metadata
    ensures { result ≡ no_metadata version }
{
    Metadata {
        version,
        created: 0,
        settings: Map::new(alloc),
        indices: IndexTable::new(alloc),
    }
}

fn is_index_roomy(index: &IndexMetadata) -> bool
    ensures { IsTrue result ↔ IsRoomyIndex index.now }
{
    index.version < ROOM && index.settings_version < ROOM && index.aliases_version < ROOM
}

fn are_indices_roomy(indices: &IndexTable) -> bool
    ensures { IsTrue result ↔ AreRoomy indices.now }
{
    for (_, index) in indices.iter() {
        if !is_index_roomy(index) {
            return false;
        }
    }
    true
}
