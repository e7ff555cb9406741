ghost use Rattle.std.specs.Prelude.{◌≡◌, IfOk, string_bytes};
ghost use Rattle.serde_json.specs.View.{view};
ghost use Rattle.meta_state.specs.Json.{state_data, state_json, metadata_data, index_data, node_data, settings_data, indices_data, nodes_data, names_data};

use crate::cluster_metadata::Metadata;
use crate::cluster_state::ClusterState;
use crate::index_metadata::IndexMetadata;
use crate::index_table::IndexTable;
use crate::node_info::NodeInfo;
use plain_data::{Map, NameSet, OutOfMemory, Text};
use serde_json::{Value, json, put};
use std::alloc::{AllocError, Global};

/// The state as compact JSON, with the members of each object in byte order.
#[tactic(auto, using(crate::proofs::NoFloat::state_has_no_float), unfolding(crate::specs::Json::state_json))]
pub fn to_json(alloc: Global, state: &ClusterState) -> Result<Text, OutOfMemory>
    ensures { IfOk result (λ text. text ≡ state_json state.now) }
{
    let value = state_value(alloc, state)?;
    let text = value.to_string(alloc)?;
    Ok(Text::from_string(text))
}

#[tactic(auto, unfolding(crate::specs::Json::state_data))]
fn state_value(alloc: Global, state: &ClusterState) -> Result<Value, AllocError>
    ensures { IfOk result (λ made. view made ≡ state_data state.now) }
{
    let metadata = metadata_value(alloc, &state.metadata)?;
    let nodes = nodes_value(alloc, &state.nodes)?;
    let cluster = state.cluster.as_str();
    let master = state.master.as_str();
    let id = state.id;
    let term = state.term;
    let version = state.version;
    json!(in alloc; {
        "cluster": cluster,
        "id": id,
        "master": master,
        "metadata": metadata,
        "nodes": nodes,
        "term": term,
        "version": version
    })
}

#[tactic(auto, unfolding(crate::specs::Json::metadata_data))]
fn metadata_value(alloc: Global, metadata: &Metadata) -> Result<Value, AllocError>
    ensures { IfOk result (λ made. view made ≡ metadata_data metadata.now) }
{
    let indices = indices_value(alloc, &metadata.indices)?;
    let settings = settings_value(alloc, &metadata.settings)?;
    let created = metadata.created;
    let version = metadata.version;
    json!(in alloc; {
        "created": created,
        "indices": indices,
        "settings": settings,
        "version": version
    })
}

#[tactic(auto, unfolding(crate::specs::Json::index_data))]
fn index_value(alloc: Global, index: &IndexMetadata) -> Result<Value, AllocError>
    ensures { IfOk result (λ made. view made ≡ index_data index.now) }
{
    let aliases = names_value(alloc, &index.aliases)?;
    let aliases_version = index.aliases_version;
    let id = index.id;
    let open = index.opened;
    let replicas = index.replicas;
    let settings_version = index.settings_version;
    let shards = index.shards;
    let version = index.version;
    json!(in alloc; {
        "aliases": aliases,
        "aliases_version": aliases_version,
        "id": id,
        "open": open,
        "replicas": replicas,
        "settings_version": settings_version,
        "shards": shards,
        "version": version
    })
}

#[tactic(auto, unfolding(crate::specs::Json::node_data))]
fn node_value(alloc: Global, node: &NodeInfo) -> Result<Value, AllocError>
    ensures { IfOk result (λ made. view made ≡ node_data node.now) }
{
    let eligible = node.eligible;
    json!(in alloc; {"eligible": eligible})
}

fn indices_value(alloc: Global, indices: &IndexTable) -> Result<Value, AllocError>
    ensures { IfOk result (λ made. view made ≡ indices_data indices.now) }
{
    let mut members = serde_json::Map::new(alloc);
    for (name, index) in indices.iter() {
        let value = index_value(alloc, index)?;
        put(&mut members, alloc, name.as_str(), value)?;
    }
    Ok(Value::Object(members))
}

fn nodes_value(alloc: Global, nodes: &Map<NodeInfo>) -> Result<Value, AllocError>
    ensures { IfOk result (λ made. view made ≡ nodes_data nodes.now) }
{
    let mut members = serde_json::Map::new(alloc);
    for (name, node) in nodes.iter() {
        let value = node_value(alloc, node)?;
        put(&mut members, alloc, name.as_str(), value)?;
    }
    Ok(Value::Object(members))
}

fn settings_value(alloc: Global, settings: &Map<Text>) -> Result<Value, AllocError>
    ensures { IfOk result (λ made. view made ≡ settings_data settings.now) }
{
    let mut members = serde_json::Map::new(alloc);
    for (key, text) in settings.iter() {
        let value = Value::try_from_str(alloc, text.as_str())?;
        put(&mut members, alloc, key.as_str(), value)?;
    }
    Ok(Value::Object(members))
}

fn names_value(alloc: Global, names: &NameSet) -> Result<Value, AllocError>
    ensures { IfOk result (λ made. view made ≡ names_data names.now) }
{
    let mut list = Vec::new(alloc);
    for name in names.iter() {
        let value = Value::try_from_str(alloc, name.as_str())?;
        list.push(value)?;
    }
    Ok(Value::Array(list))
}
