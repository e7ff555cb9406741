ghost use Rattle.std.specs.Prelude.{◌≡◌, [], IfOk, IsTrue, ◌↔◌};
ghost use Rattle.plain_data.specs.Agreements.{AgreeOutside};
ghost use Rattle.state_diff.specs.MapDiffs.{map_between, map_patched};

use crate::diffables::{Copied, Diffable, Unpatched};
use crate::noting::{deletes_at, diffs_at, upserts_at};
use crate::patching::{or_unpatched, patch_pairs};
use plain_data::{Map, NameSet, OutOfMemory};
use std::alloc::Global;

/// What leads from one map to another.
#[derive(Drop)]
pub struct MapDiff<V: Diffable> {
    /// The keys that the second map lacks.
    pub deletes: NameSet,

    /// What leads from the first map's value to the second's, at each key that both have with different values.
    pub diffs: Map<V::Diff>,

    /// The values that the second map has at keys that the first one lacks.
    pub upserts: Map<V>,
}

impl<V: Diffable> MapDiff<V> {
    /// Whether it leads from each map to itself.
    pub fn is_empty(&self) -> bool
        ensures { IsTrue result ↔ (self.now ≡ record { deletes = []; diffs = []; upserts = [] }) }
    {
        self.deletes.is_empty() && self.diffs.is_empty() && self.upserts.is_empty()
    }
}

/// What leads from one map to another, where it is known outside of which names the two agree. It costs look-ups at
/// each of these.
pub(crate) fn between_maps_among<V: Diffable>(
    alloc: Global,
    a: &Map<V>,
    b: &Map<V>,
    names: &Map<()>,
) -> Result<MapDiff<V>, OutOfMemory>
    requires { AgreeOutside names.now a.now b.now }
    ensures made { IfOk result (λ made. made ≡ map_between V.eq V.between a.now b.now) }
    ensures leads { IfOk result (λ made. map_patched V.patched made a.now ≡ b.now) }
{
    // The keys of all three stand in order.
    let _ = (a.len(), b.len(), names.len());
    let deletes = deletes_at(alloc, a, b, names)?;
    let diffs = diffs_at(alloc, a, b, names)?;
    let upserts = upserts_at(alloc, a, b, names)?;
    Ok(MapDiff {
        deletes: NameSet::from_map(deletes),
        diffs,
        upserts,
    })
}

impl<V: Diffable> Copied for Map<V> {
    fn copied(&self, _alloc: Global) -> Result<Map<V>, OutOfMemory> {
        self.copy()
    }
}

impl<V: Diffable> Diffable for Map<V> {
    type Diff = MapDiff<V>;

    ghost between = { map_between V.eq V.between };

    ghost patched = { map_patched V.patched };

    // It costs look-ups at each key of both.
    fn between(alloc: Global, a: &Map<V>, b: &Map<V>) -> Result<MapDiff<V>, OutOfMemory> {
        // The keys of both stand in order.
        let _ = (a.len(), b.len());
        let deletes = deletes_at(alloc, a, b, a)?;
        let diffs = diffs_at(alloc, a, b, a)?;
        let upserts = upserts_at(alloc, a, b, b)?;
        Ok(MapDiff {
            deletes: NameSet::from_map(deletes),
            diffs,
            upserts,
        })
    }

    fn patch(alloc: Global, diff: &MapDiff<V>, value: Map<V>) -> Result<Map<V>, Unpatched<Map<V>>> {
        let made = patch_pairs(alloc, diff, &value);
        or_unpatched(made, value)
    }
}
