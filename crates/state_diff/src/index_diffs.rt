ghost use Rattle.std.specs.Prelude.{◌≡◌, IfOk};
ghost use Rattle.plain_data.specs.Agreements.{AgreeOutside};
ghost use Rattle.state_diff.specs.IndexDiffs.{index_between, index_patched, indices_between, indices_patched};

use crate::diffables::{Copied, Diffable, Unpatched};
use crate::map_diffs::{MapDiff, between_maps_among};
use crate::patching::{Keyed, or_unpatched, patch_pairs};
use crate::set_diffs::patch_names;
use meta_state::{IndexMetadata, IndexTable};
use plain_data::{Map, NameSet, OutOfMemory, Text};
use std::alloc::Global;

/// What leads from the metadata of an index to others: of each part but the aliases the new value, where it differs.
#[derive(Drop)]
pub struct IndexDiff {
    pub id: Option<u64>,
    pub version: Option<u64>,
    pub settings_version: Option<u64>,
    pub aliases_version: Option<u64>,
    pub opened: Option<bool>,
    pub shards: Option<u64>,
    pub replicas: Option<u64>,
    pub aliases: MapDiff<()>,
}

impl Copied for IndexMetadata {
    fn copied(&self, alloc: Global) -> Result<IndexMetadata, OutOfMemory> {
        self.copy(alloc)
    }
}

impl Diffable for IndexMetadata {
    type Diff = IndexDiff;

    ghost between = { index_between };

    ghost patched = { index_patched };

    #[tactic(auto, using(crate::proofs::Records::index_leads))]
    fn between(
        alloc: Global,
        a: &IndexMetadata,
        b: &IndexMetadata,
    ) -> Result<IndexDiff, OutOfMemory> {
        Ok(IndexDiff {
            id: u64::between(alloc, &a.id, &b.id)?,
            version: u64::between(alloc, &a.version, &b.version)?,
            settings_version: u64::between(alloc, &a.settings_version, &b.settings_version)?,
            aliases_version: u64::between(alloc, &a.aliases_version, &b.aliases_version)?,
            opened: bool::between(alloc, &a.opened, &b.opened)?,
            shards: u64::between(alloc, &a.shards, &b.shards)?,
            replicas: u64::between(alloc, &a.replicas, &b.replicas)?,
            aliases: NameSet::between(alloc, &a.aliases, &b.aliases)?,
        })
    }

    fn patch(
        alloc: Global,
        diff: &IndexDiff,
        value: IndexMetadata,
    ) -> Result<IndexMetadata, Unpatched<IndexMetadata>> {
        let made = patch_index(alloc, diff, &value);
        or_unpatched(made, value)
    }
}

fn patch_index(
    alloc: Global,
    diff: &IndexDiff,
    index: &IndexMetadata,
) -> Result<IndexMetadata, OutOfMemory>
    ensures { IfOk result (λ made. made ≡ index_patched diff.now index.now) }
{
    Ok(IndexMetadata {
        id: diff.id.unwrap_or(index.id),
        version: diff.version.unwrap_or(index.version),
        settings_version: diff.settings_version.unwrap_or(index.settings_version),
        aliases_version: diff.aliases_version.unwrap_or(index.aliases_version),
        opened: diff.opened.unwrap_or(index.opened),
        shards: diff.shards.unwrap_or(index.shards),
        replicas: diff.replicas.unwrap_or(index.replicas),
        aliases: patch_names(alloc, &diff.aliases, &index.aliases)?,
    })
}

impl Copied for IndexTable {
    fn copied(&self, _alloc: Global) -> Result<IndexTable, OutOfMemory> {
        self.copy()
    }
}

impl Diffable for IndexTable {
    type Diff = MapDiff<IndexMetadata>;

    ghost between = { indices_between };

    ghost patched = { indices_patched };

    fn between(
        alloc: Global,
        a: &IndexTable,
        b: &IndexTable,
    ) -> Result<MapDiff<IndexMetadata>, OutOfMemory> {
        Map::between(alloc, a.by_name(), b.by_name())
    }

    fn patch(
        alloc: Global,
        diff: &MapDiff<IndexMetadata>,
        value: IndexTable,
    ) -> Result<IndexTable, Unpatched<IndexTable>> {
        let made = patch_pairs(alloc, diff, &value);
        or_unpatched(made, value)
    }
}

/// What leads from some indices to others, where it is known outside of which names they agree.
pub(crate) fn between_indices_among(
    alloc: Global,
    a: &IndexTable,
    b: &IndexTable,
    names: &Map<()>,
) -> Result<MapDiff<IndexMetadata>, OutOfMemory>
    requires { AgreeOutside names.now a.now b.now }
    ensures made { IfOk result (λ made. made ≡ indices_between a.now b.now) }
    ensures leads { IfOk result (λ made. indices_patched made a.now ≡ b.now) }
{
    between_maps_among(alloc, a.by_name(), b.by_name(), names)
}

impl Keyed<IndexMetadata> for IndexTable {
    ghost pairs = { λ t. t };

    fn share(&self) -> Result<IndexTable, OutOfMemory> {
        self.copy()
    }

    fn put(&mut self, key: Text, value: IndexMetadata) -> Result<(), OutOfMemory> {
        self.set(key, value)
    }

    fn take_out(&mut self, key: &Text) -> Result<(), OutOfMemory> {
        self.remove(key)
    }

    // A diff that leaves the aliases costs no walk over them.
    fn patch_at(&mut self, alloc: Global, key: &Text, diff: &IndexDiff) -> Result<(), OutOfMemory> {
        match self.get(key) {
            None => Ok(()),
            Some(index) => {
                let made = patch_index(alloc, diff, index)?;
                if diff.aliases.is_empty() {
                    self.set_keeping_aliases(key.copy()?, made)
                } else {
                    self.set(key.copy()?, made)
                }
            }
        }
    }
}
