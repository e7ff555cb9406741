ghost use Rattle.std.specs.Prelude.{◌≡◌, IfOk, string_bytes};
ghost use Rattle.serde_json.specs.View.{view};
ghost use Rattle.session_law.specs.ViewJson.{aliases_data, ids_data, index_names_data, values_data, view_data, view_json};

use crate::node_records::View;
use plain_data::{Items, Map, OutOfMemory, Text};
use serde_json::{Value, json, put};
use std::alloc::{AllocError, Global};

/// A node's views as compact JSON, with the members of each object in byte order.
#[tactic(auto, using(crate::proofs::NoFloat::view_has_no_float), unfolding(crate::specs::ViewJson::view_json))]
pub(crate) fn view_text(alloc: Global, made: &View) -> Result<String, OutOfMemory>
    ensures { IfOk result (λ text. string_bytes text ≡ view_json made.now) }
{
    let value = view_value(alloc, made)?;
    Ok(value.to_string(alloc)?)
}

#[tactic(auto, unfolding(crate::specs::ViewJson::view_data))]
fn view_value(alloc: Global, made: &View) -> Result<Value, AllocError>
    ensures { IfOk result (λ value. view value ≡ view_data made.now) }
{
    let aliases = aliases_value(alloc, &made.aliases)?;
    let indices = ids_value(alloc, &made.indices)?;
    let settings = values_value(alloc, &made.settings)?;
    json!(in alloc; {
        "aliases": aliases,
        "indices": indices,
        "settings": settings
    })
}

fn index_names_value(alloc: Global, names: &Items<Text>) -> Result<Value, AllocError>
    ensures { IfOk result (λ value. view value ≡ index_names_data names.now) }
{
    let mut list = Vec::new(alloc);
    for name in names.as_slice() {
        let value = Value::try_from_str(alloc, name.as_str())?;
        list.push(value)?;
    }
    Ok(Value::Array(list))
}

fn aliases_value(alloc: Global, aliases: &Map<Items<Text>>) -> Result<Value, AllocError>
    ensures { IfOk result (λ value. view value ≡ aliases_data aliases.now) }
{
    let mut members = serde_json::Map::new(alloc);
    for (alias, names) in aliases.iter() {
        let value = index_names_value(alloc, names)?;
        put(&mut members, alloc, alias.as_str(), value)?;
    }
    Ok(Value::Object(members))
}

fn ids_value(alloc: Global, ids: &Map<u64>) -> Result<Value, AllocError>
    ensures { IfOk result (λ value. view value ≡ ids_data ids.now) }
{
    let mut members = serde_json::Map::new(alloc);
    for (name, id) in ids.iter() {
        let value = Value::from(*id);
        put(&mut members, alloc, name.as_str(), value)?;
    }
    Ok(Value::Object(members))
}

fn values_value(alloc: Global, values: &Map<Text>) -> Result<Value, AllocError>
    ensures { IfOk result (λ value. view value ≡ values_data values.now) }
{
    let mut members = serde_json::Map::new(alloc);
    for (key, text) in values.iter() {
        let value = Value::try_from_str(alloc, text.as_str())?;
        put(&mut members, alloc, key.as_str(), value)?;
    }
    Ok(Value::Object(members))
}
