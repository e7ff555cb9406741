ghost use Rattle.std.specs.Prelude.{◌≡◌, IfOk};
ghost use Rattle.state_diff.specs.SetDiffs.{names_between, names_patched, unit_between, unit_patched};

use crate::diffables::{Copied, Diffable, Unpatched};
use crate::map_diffs::MapDiff;
use crate::patching::{or_unpatched, patch_pairs};
use plain_data::{Map, NameSet, OutOfMemory};
use std::alloc::Global;

// What a set has at a name: there is nothing to tell apart.

impl Copied for () {
    fn copied(&self, _alloc: Global) -> Result<(), OutOfMemory> {
        Ok(())
    }
}

impl Diffable for () {
    type Diff = ();

    ghost between = { unit_between };

    ghost patched = { unit_patched };

    fn between(_alloc: Global, _a: &(), _b: &()) -> Result<(), OutOfMemory> {
        Ok(())
    }

    fn patch(_alloc: Global, _diff: &(), value: ()) -> Result<(), Unpatched<()>> {
        Ok(value)
    }
}

impl Copied for NameSet {
    fn copied(&self, _alloc: Global) -> Result<NameSet, OutOfMemory> {
        self.copy()
    }
}

/// A set counts as a map whose values are empty.
impl Diffable for NameSet {
    type Diff = MapDiff<()>;

    ghost between = { names_between };

    ghost patched = { names_patched };

    fn between(alloc: Global, a: &NameSet, b: &NameSet) -> Result<MapDiff<()>, OutOfMemory> {
        Map::between(alloc, a.as_map(), b.as_map())
    }

    fn patch(
        alloc: Global,
        diff: &MapDiff<()>,
        value: NameSet,
    ) -> Result<NameSet, Unpatched<NameSet>> {
        let made = patch_names(alloc, diff, &value);
        or_unpatched(made, value)
    }
}

/// A set with a diff patched onto it.
pub(crate) fn patch_names(
    alloc: Global,
    diff: &MapDiff<()>,
    names: &NameSet,
) -> Result<NameSet, OutOfMemory>
    ensures { IfOk result (λ made. made ≡ names_patched diff.now names.now) }
{
    let made = patch_pairs(alloc, diff, names.as_map())?;
    Ok(NameSet::from_map(made))
}
