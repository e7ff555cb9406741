ghost use Rattle.std.specs.Prelude.{◌≡◌, IfOk};
ghost use Rattle.meta_state.specs.Aliases.{has_alias};
ghost use Rattle.meta_state.specs.Exact.{metadata_decides};

use crate::index_table::IndexTable;
use plain_data::{Exact, Map, OutOfMemory, Text};
use std::alloc::Global;

/// The part of the cluster state that is to last (Elasticsearch's `Metadata`, in this profile).
#[derive(Clone, Debug, Drop, PartialEq, Eq)]
pub struct Metadata {
    /// Rises by one with each published state whose metadata differ from those before.
    pub version: u64,

    /// How many indices were created so far.
    pub created: u64,

    /// The cluster settings, by key.
    pub settings: Map<Text>,

    /// The indices, by name.
    pub indices: IndexTable,
}

impl Metadata {
    /// Equal metadata, which share their maps.
    pub fn copy(&self, _alloc: Global) -> Result<Metadata, OutOfMemory>
        ensures { IfOk result (λ made. made ≡ self.now) }
    {
        let settings = self.settings.copy()?;
        let indices = self.indices.copy()?;
        Ok(Metadata {
            version: self.version,
            created: self.created,
            settings,
            indices,
        })
    }

    /// Whether some index has an alias: a look-up, whose cost doesn't grow with the indices that have it.
    pub fn has_alias(&self, alias: &Text) -> bool
        ensures { result ≡ has_alias alias.now self.now.indices }
    {
        self.indices.has_alias(alias)
    }
}

impl Exact for Metadata {
    ghost exact = { metadata_decides };
}
