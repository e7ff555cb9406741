//! The cluster state: nodes, index metadata, settings; the rules of index names and of versions; predicates and
//! looks; and the state as JSON.
#![tactic(auto)]

mod cluster_metadata;
mod cluster_state;
mod index_metadata;
mod index_names;
mod index_table;
mod looks;
mod node_info;
mod predicates;
mod states_as_json;
mod touches;
mod versions;
mod watch_id;

pub use cluster_metadata::Metadata;
pub use cluster_state::ClusterState;
pub use index_metadata::IndexMetadata;
pub use index_names::{InvalidName, check_index_name};
pub use index_table::IndexTable;
pub use looks::{Found, Look, lookup};
pub use node_info::NodeInfo;
pub use predicates::Pred;
pub use states_as_json::to_json;
pub use touches::Touched;
pub use versions::{Next, next_state, next_state_among};
pub use watch_id::WatchId;
