ghost use Rattle.std.specs.Prelude.{◌≡◌, IfOk};
ghost use Rattle.meta_state.specs.Exact.{index_decides};

use plain_data::{Exact, NameSet, OutOfMemory};
use std::alloc::Global;

/// The metadata of an index (Elasticsearch's `IndexMetadata`, in this profile).
#[derive(Clone, Debug, Drop, PartialEq, Eq)]
pub struct IndexMetadata {
    /// Which index it is: the count of indices created so far, as it was created. It stands for a UUID.
    pub id: u64,

    /// Rises by one with each task that changes the index.
    pub version: u64,

    /// Rises by one with each task that changes its settings.
    pub settings_version: u64,

    /// Rises by one with each task that changes its aliases.
    pub aliases_version: u64,

    /// Whether it is open.
    pub opened: bool,

    /// `index.number_of_shards`, which never changes.
    pub shards: u64,

    /// `index.number_of_replicas`.
    pub replicas: u64,

    /// The aliases that it has.
    pub aliases: NameSet,
}

impl IndexMetadata {
    /// Equal metadata, which shares its aliases.
    pub fn copy(&self, _alloc: Global) -> Result<IndexMetadata, OutOfMemory>
        ensures { IfOk result (λ made. made ≡ self.now) }
    {
        let aliases = self.aliases.copy()?;
        Ok(IndexMetadata {
            id: self.id,
            version: self.version,
            settings_version: self.settings_version,
            aliases_version: self.aliases_version,
            opened: self.opened,
            shards: self.shards,
            replicas: self.replicas,
            aliases,
        })
    }
}

impl Exact for IndexMetadata {
    ghost exact = { index_decides };
}
