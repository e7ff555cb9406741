ghost use Rattle.std.specs.Prelude.{◌≡◌, IfOk};
ghost use Rattle.state_diff.specs.MetadataDiffs.{metadata_between, metadata_patched};

use crate::diffables::{Copied, Diffable, Unpatched};
use crate::map_diffs::MapDiff;
use crate::patching::{or_unpatched, patch_pairs};
use meta_state::{IndexMetadata, IndexTable, Metadata};
use plain_data::{Map, OutOfMemory, Text};
use std::alloc::Global;

/// What leads from metadata to others: their version and the count of created indices where they differ, and the diffs
/// of their settings and indices.
#[derive(Drop)]
pub struct MetadataDiff {
    pub version: Option<u64>,
    pub created: Option<u64>,
    pub settings: MapDiff<Text>,
    pub indices: MapDiff<IndexMetadata>,
}

impl Copied for Metadata {
    fn copied(&self, alloc: Global) -> Result<Metadata, OutOfMemory> {
        self.copy(alloc)
    }
}

impl Diffable for Metadata {
    type Diff = MetadataDiff;

    ghost between = { metadata_between };

    ghost patched = { metadata_patched };

    #[tactic(auto, using(crate::proofs::Records::metadata_leads))]
    fn between(alloc: Global, a: &Metadata, b: &Metadata) -> Result<MetadataDiff, OutOfMemory> {
        Ok(MetadataDiff {
            version: u64::between(alloc, &a.version, &b.version)?,
            created: u64::between(alloc, &a.created, &b.created)?,
            settings: Map::between(alloc, &a.settings, &b.settings)?,
            indices: IndexTable::between(alloc, &a.indices, &b.indices)?,
        })
    }

    fn patch(
        alloc: Global,
        diff: &MetadataDiff,
        value: Metadata,
    ) -> Result<Metadata, Unpatched<Metadata>> {
        let made = patch_metadata(alloc, diff, &value);
        or_unpatched(made, value)
    }
}

fn patch_metadata(
    alloc: Global,
    diff: &MetadataDiff,
    metadata: &Metadata,
) -> Result<Metadata, OutOfMemory>
    ensures { IfOk result (λ made. made ≡ metadata_patched diff.now metadata.now) }
{
    Ok(Metadata {
        version: diff.version.unwrap_or(metadata.version),
        created: diff.created.unwrap_or(metadata.created),
        settings: patch_pairs(alloc, &diff.settings, &metadata.settings)?,
        indices: patch_pairs(alloc, &diff.indices, &metadata.indices)?,
    })
}
