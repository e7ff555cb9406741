ghost use Rattle.std.specs.Prelude.{◌≡◌};
ghost use Rattle.plain_data.specs.Agreements as maps;
ghost use Rattle.plain_data.specs.Pairs.{pairs_eq};
ghost use Rattle.meta_state.specs.Exact.{metadata_eq, node_eq};
ghost use Rattle.meta_state.specs.States.{IsRoomy};
ghost use Rattle.meta_state.specs.Touches.{AgreeOutside};
ghost use Rattle.meta_state.specs.Versions.{next_of, contents_of, rest_eq};

use crate::cluster_metadata::Metadata;
use crate::cluster_state::ClusterState;
use crate::touches::Touched;
use plain_data::is_same_among;

/// What an executor's result makes of the state before it.
#[derive(Debug, Drop)]
pub enum Next {
    /// The contents agree, so nothing is published and no version rises.
    Same,

    /// The state to publish.
    Changed(ClusterState),
}

/// The version rule (Elasticsearch's `MasterService`: only the master raises versions, and an unchanged state isn't
/// published). `Same` where the contents of `made` are those of `prev`: all but identifier, version and metadata
/// version. Else the contents of `made` under the identifier `id`, the version after that of `prev`, and the metadata
/// version of `prev`, which rises by one where the metadata differ. It compares all of both states.
pub fn next_state(prev: &ClusterState, made: ClusterState, id: u64) -> Next
    requires { IsRoomy prev.now }
    ensures { result ≡ next_of prev.now made id }
{
    let same_metadata = are_contents_same(&prev.metadata, &made.metadata);
    let same_nodes = prev.nodes == made.nodes;
    next_by(prev, made, id, same_metadata, same_nodes)
}

/// The same where the two states are known to agree outside of what `touched` names: beside their numbers and their
/// own names only that is compared, so that it costs what may have changed, and not what there is.
pub fn next_state_among(prev: &ClusterState, made: ClusterState, id: u64, touched: &Touched) -> Next
    requires roomy { IsRoomy prev.now }
    requires agree { AgreeOutside touched.now prev.now made }
    ensures { result ≡ next_of prev.now made id }
{
    let same_metadata = are_contents_same_among(&prev.metadata, &made.metadata, touched);
    let same_nodes = is_same_among(&prev.nodes, &made.nodes, &touched.nodes);
    next_by(prev, made, id, same_metadata, same_nodes)
}

/// The version rule, where it is known whether the metadata but for their versions and the nodes are the same.
fn next_by(
    prev: &ClusterState,
    made: ClusterState,
    id: u64,
    same_metadata: bool,
    same_nodes: bool,
) -> Next
    requires roomy { IsRoomy prev.now }
    requires metadata { same_metadata ≡ metadata_eq (contents_of prev.now.metadata) (contents_of made.metadata) }
    requires nodes { same_nodes ≡ pairs_eq node_eq prev.now.nodes made.nodes }
    ensures { result ≡ next_of prev.now made id }
{
    if same_metadata && same_nodes && is_rest_same(prev, &made) {
        return Next::Same;
    }
    let version = if same_metadata {
        prev.metadata.version
    } else {
        prev.metadata.version + 1
    };
    let mut next = made;
    next.id = id;
    next.version = prev.version + 1;
    next.metadata.version = version;
    Next::Changed(next)
}

/// Whether the names and the term of two states are the same.
fn is_rest_same(a: &ClusterState, b: &ClusterState) -> bool
    ensures { result ≡ rest_eq a.now b.now }
{
    a.cluster == b.cluster && a.term == b.term && a.master == b.master
}

/// Whether two metadata are the same but for their versions.
fn are_contents_same(a: &Metadata, b: &Metadata) -> bool
    ensures { result ≡ metadata_eq (contents_of a.now) (contents_of b.now) }
{
    a.created == b.created && a.settings == b.settings && a.indices == b.indices
}

/// The same where the two are known to agree outside of what `touched` names.
fn are_contents_same_among(a: &Metadata, b: &Metadata, touched: &Touched) -> bool
    requires settings { maps.AgreeOutside touched.now.settings a.now.settings b.now.settings }
    requires indices { maps.AgreeOutside touched.now.indices a.now.indices b.now.indices }
    ensures { result ≡ metadata_eq (contents_of a.now) (contents_of b.now) }
{
    a.created == b.created
        && is_same_among(&a.settings, &b.settings, &touched.settings)
        && a.indices.is_same_among(&b.indices, &touched.indices)
}
