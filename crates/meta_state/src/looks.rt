ghost use Rattle.std.specs.Prelude.{◌≡◌, IfOk};
ghost use Rattle.std.specs.Option.{option_copied};
ghost use Rattle.meta_state.specs.Looks.{found_at, found_index, found_names, found_value};

use crate::cluster_state::ClusterState;
use crate::index_metadata::IndexMetadata;
use plain_data::{Items, OutOfMemory, Text};
use std::alloc::Global;

/// What a reader looks at in a state.
#[derive(Clone, Debug, Drop, PartialEq, Eq)]
pub enum Look {
    /// The index of a name.
    Index(Text),

    /// The indices that have an alias.
    Alias(Text),

    /// The cluster setting of a key.
    Setting(Text),
}

/// What a look found.
#[derive(Clone, Debug, Drop, PartialEq, Eq)]
pub enum Found {
    /// Nothing of the kind.
    Missing,

    /// The index.
    Index {
        id: u64,
        opened: bool,
        shards: u64,
        replicas: u64,
    },

    /// The names of the indices that have the alias, in byte order.
    Names(Items<Text>),

    /// The value of the setting.
    Value(Text),
}

/// What a look finds in a state.
#[tactic(auto, unfolding(crate::specs::Looks::found_at))]
pub fn lookup(alloc: Global, state: &ClusterState, look: &Look) -> Result<Found, OutOfMemory>
    ensures { IfOk result (λ made. made ≡ found_at state.now look.now) }
{
    match look {
        Look::Index(name) => Ok(index_found(state.metadata.indices.get(name))),
        Look::Alias(alias) => {
            let names = state.metadata.indices.names_with(alloc, alias)?;
            Ok(names_found(names))
        }
        Look::Setting(key) => value_found(state.metadata.settings.get(key)),
    }
}

fn index_found(index: Option<&IndexMetadata>) -> Found
    ensures { result ≡ found_index (option_copied index.entry) }
{
    match index {
        None => Found::Missing,
        Some(index) => Found::Index {
            id: index.id,
            opened: index.opened,
            shards: index.shards,
            replicas: index.replicas,
        },
    }
}

fn names_found(names: Items<Text>) -> Found
    ensures { result ≡ found_names names }
{
    if names.is_empty() {
        Found::Missing
    } else {
        Found::Names(names)
    }
}

fn value_found(value: Option<&Text>) -> Result<Found, OutOfMemory>
    ensures { IfOk result (λ made. made ≡ found_value (option_copied value.entry)) }
{
    match value {
        None => Ok(Found::Missing),
        Some(text) => Ok(Found::Value(text.copy()?)),
    }
}
