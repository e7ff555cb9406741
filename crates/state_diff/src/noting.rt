ghost use Rattle.std.specs.Prelude.{◌≡◌, [], Some, OnOk, IfOk};
ghost use Rattle.std.specs.List.{AllByRecursion};
ghost use Rattle.plain_data.specs.Agreements.{with_all, read_off};
ghost use Rattle.plain_data.specs.Pairs.{lookup};
ghost use Rattle.state_diff.specs.MapDiffs.{only_first, only_second, both_differ, put_at, Lead, LeadAt};

use crate::diffables::Diffable;
use plain_data::{Map, OutOfMemory, Text};
use std::alloc::Global;

/// Puts what was found for a key, where anything was.
fn put<X: Drop>(made: &mut Map<X>, key: &Text, found: Option<X>) -> Result<(), OutOfMemory>
    ensures { OnOk result (made.new ≡ put_at key.now found made.old) }
{
    match found {
        None => Ok(()),
        Some(found) => made.set(key.copy()?, found),
    }
}

/// What the diff of two maps has for a key among its deletes.
fn delete_at<V>(a: &Map<V>, b: &Map<V>, key: &Text) -> Option<()>
    ensures { result ≡ only_first (lookup key.now a.now) (lookup key.now b.now) }
{
    if a.contains_key(key) && !b.contains_key(key) {
        Some(())
    } else {
        None
    }
}

/// What it has among its upserts.
fn upsert_at<V: Diffable>(
    alloc: Global,
    a: &Map<V>,
    b: &Map<V>,
    key: &Text,
) -> Result<Option<V>, OutOfMemory>
    ensures { IfOk result (λ made. made ≡ only_second (lookup key.now a.now) (lookup key.now b.now)) }
{
    if a.contains_key(key) {
        return Ok(None);
    }
    match b.get(key) {
        None => Ok(None),
        Some(new) => Ok(Some(new.copied(alloc)?)),
    }
}

/// What it has among its diffs.
fn diff_at<V: Diffable>(
    alloc: Global,
    a: &Map<V>,
    b: &Map<V>,
    key: &Text,
) -> Result<Option<V::Diff>, OutOfMemory>
    ensures made { IfOk result (λ made. made ≡ both_differ V.eq V.between (lookup key.now a.now) (lookup key.now b.now)) }
    ensures leads { IfOk result (λ made. LeadAt V.eq V.between V.patched a.now b.now key.now) }
{
    match a.get(key) {
        None => Ok(None),
        Some(old) => match b.get(key) {
            None => Ok(None),
            Some(new) => diff_of(alloc, old, new),
        },
    }
}

/// None where two values are equal, else what leads from the one to the other.
fn diff_of<V: Diffable>(alloc: Global, old: &V, new: &V) -> Result<Option<V::Diff>, OutOfMemory>
    ensures made { IfOk result (λ made. made ≡ both_differ V.eq V.between (Some old.now) (Some new.now)) }
    ensures leads { IfOk result (λ made. Lead V.eq V.between V.patched (Some old.now) (Some new.now)) }
{
    if old == new {
        return Ok(None);
    }
    Ok(Some(V::between(alloc, old, new)?))
}

/// The deletes of the diff of two maps, as far as they are found at some keys.
#[tactic(auto, using(crate::proofs::ReadOff::goes_on))]
pub(crate) fn deletes_at<V, W>(
    alloc: Global,
    a: &Map<V>,
    b: &Map<V>,
    keys: &Map<W>,
) -> Result<Map<()>, OutOfMemory>
    ensures { IfOk result (λ made. made ≡ with_all (read_off (λ key. only_first (lookup key a.now) (lookup key b.now)) keys.now) []) }
{
    let mut made = Map::new(alloc);
    for (key, _) in keys.iter() {
        put(&mut made, key, delete_at(a, b, key))?;
    }
    Ok(made)
}

/// Its upserts, as far as they are found at some keys.
#[tactic(auto, using(crate::proofs::ReadOff::goes_on))]
pub(crate) fn upserts_at<V: Diffable, W>(
    alloc: Global,
    a: &Map<V>,
    b: &Map<V>,
    keys: &Map<W>,
) -> Result<Map<V>, OutOfMemory>
    ensures { IfOk result (λ made. made ≡ with_all (read_off (λ key. only_second (lookup key a.now) (lookup key b.now)) keys.now) []) }
{
    let mut made = Map::new(alloc);
    for (key, _) in keys.iter() {
        put(&mut made, key, upsert_at(alloc, a, b, key)?)?;
    }
    Ok(made)
}

/// Its diffs, as far as they are found at some keys.
#[tactic(auto, using(crate::proofs::ReadOff::goes_on))]
pub(crate) fn diffs_at<V: Diffable, W>(
    alloc: Global,
    a: &Map<V>,
    b: &Map<V>,
    keys: &Map<W>,
) -> Result<Map<V::Diff>, OutOfMemory>
    ensures made { IfOk result (λ made. made ≡ with_all (read_off (λ key. both_differ V.eq V.between (lookup key a.now) (lookup key b.now)) keys.now) []) }
    ensures leads { IfOk result (λ made. AllByRecursion (λ p. LeadAt V.eq V.between V.patched a.now b.now p.0) keys.now) }
{
    let mut made = Map::new(alloc);
    for (key, _) in keys.iter() {
        put(&mut made, key, diff_at(alloc, a, b, key)?)?;
    }
    Ok(made)
}
