ghost use Rattle.std.specs.Prelude.{◌≡◌, Ok, IfOk, IfErr, OnOk};
ghost use Rattle.plain_data.specs.Agreements.{with_all};
ghost use Rattle.plain_data.specs.Pairs.{with, without};
ghost use Rattle.state_diff.specs.MapDiffs.{all_patched, map_patched, patched_at, without_all};

use crate::diffables::{Diffable, Unpatched};
use crate::map_diffs::MapDiff;
use plain_data::{Map, NameSet, OutOfMemory, Text};
use std::alloc::Global;

/// What a diff of a map can be patched onto: a map, or what keeps one and something beside it.
pub(crate) trait Keyed<V: Diffable>: Drop {
    ghost use Rattle.std.specs.Prelude.{List, ℕ};

    ghost pairs: { Self → List (List ℕ × V) };

    fn share(&self) -> Result<Self, OutOfMemory>
        ensures { IfOk result (λ made. pairs made ≡ pairs self.now) };

    fn put(&mut self, key: Text, value: V) -> Result<(), OutOfMemory>
        ensures { OnOk result (pairs self.new ≡ with key value (pairs self.old)) };

    fn take_out(&mut self, key: &Text) -> Result<(), OutOfMemory>
        ensures { OnOk result (pairs self.new ≡ without key.now (pairs self.old)) };

    /// Patches the value at a key, where there is one.
    fn patch_at(&mut self, alloc: Global, key: &Text, diff: &V::Diff) -> Result<(), OutOfMemory>
        ensures { OnOk result (pairs self.new ≡ patched_at V.patched key.now diff.now (pairs self.old)) };
}

/// An equal value with a diff patched onto it.
pub(crate) fn patch_copy<V: Diffable>(
    alloc: Global,
    diff: &V::Diff,
    value: &V,
) -> Result<V, OutOfMemory>
    ensures { IfOk result (λ made. made ≡ V.patched diff.now value.now) }
{
    match V::patch(alloc, diff, value.copied(alloc)?) {
        Err(_) => Err(OutOfMemory),
        Ok(made) => Ok(made),
    }
}

/// A value that was patched, or the one before, for want of memory.
pub(crate) fn or_unpatched<T: Drop>(
    made: Result<T, OutOfMemory>,
    value: T,
) -> Result<T, Unpatched<T>>
    ensures ok { IfOk result (λ after. made ≡ Ok after) }
    ensures err { IfErr result (λ left. left.value ≡ value) }
{
    match made {
        Err(_) => Err(Unpatched { value }),
        Ok(made) => Ok(made),
    }
}

/// A map with a diff patched onto it, which shares with the one before what stayed. It costs as much as the diff is
/// long.
pub(crate) fn patch_pairs<V: Diffable, M: Keyed<V>>(
    alloc: Global,
    diff: &MapDiff<V>,
    map: &M,
) -> Result<M, OutOfMemory>
    ensures { IfOk result (λ made. M.pairs made ≡ map_patched V.patched diff.now (M.pairs map.now)) }
{
    let mut made = map.share()?;
    put_all(alloc, &mut made, &diff.upserts)?;
    patch_all(alloc, &mut made, &diff.diffs)?;
    take_out_all(&mut made, &diff.deletes)?;
    Ok(made)
}

fn put_all<V: Diffable, M: Keyed<V>>(
    alloc: Global,
    map: &mut M,
    upserts: &Map<V>,
) -> Result<(), OutOfMemory>
    ensures { OnOk result (M.pairs map.new ≡ with_all upserts.now (M.pairs map.old)) }
{
    for (key, value) in upserts.iter() {
        map.put(key.copy()?, value.copied(alloc)?)?;
    }
    Ok(())
}

fn patch_all<V: Diffable, M: Keyed<V>>(
    alloc: Global,
    map: &mut M,
    diffs: &Map<V::Diff>,
) -> Result<(), OutOfMemory>
    ensures { OnOk result (M.pairs map.new ≡ all_patched V.patched diffs.now (M.pairs map.old)) }
{
    for (key, diff) in diffs.iter() {
        map.patch_at(alloc, key, diff)?;
    }
    Ok(())
}

fn take_out_all<V: Diffable, M: Keyed<V>>(map: &mut M, deletes: &NameSet) -> Result<(), OutOfMemory>
    ensures { OnOk result (M.pairs map.new ≡ without_all deletes.now (M.pairs map.old)) }
{
    for key in deletes.iter() {
        map.take_out(key)?;
    }
    Ok(())
}

impl<V: Diffable> Keyed<V> for Map<V> {
    ghost pairs = { λ m. m };

    fn share(&self) -> Result<Map<V>, OutOfMemory> {
        self.copy()
    }

    fn put(&mut self, key: Text, value: V) -> Result<(), OutOfMemory> {
        self.set(key, value)
    }

    fn take_out(&mut self, key: &Text) -> Result<(), OutOfMemory> {
        self.remove(key)
    }

    fn patch_at(&mut self, alloc: Global, key: &Text, diff: &V::Diff) -> Result<(), OutOfMemory> {
        match self.get(key) {
            None => Ok(()),
            Some(value) => {
                let made = patch_copy(alloc, diff, value)?;
                self.set(key.copy()?, made)
            }
        }
    }
}
