ghost use Rattle.std.specs.Prelude.{◌≡◌, [], IfOk};
ghost use Rattle.plain_data.specs.Agreements.{AgreeOutside, with_all};
ghost use Rattle.node_apply.specs.Identifiers.{id_at, identifiers};
ghost use Rattle.node_apply.specs.Updated.{updated};

use crate::appliers::Applier;
use crate::changed_events::ChangedEvent;
use crate::putting::put;
use crate::updates::update;
use meta_state::{ClusterState, IndexTable};
use plain_data::{Map, NameSet, OutOfMemory, Text};
use std::alloc::Global;
use std::marker::Model;

/// The identifier of each index, as the applier of normal priority keeps it.
#[derive(Drop)]
pub struct IndexView {
    shown: Map<u64>,
    next: Option<Map<u64>>,
    seen: u64,
}

impl Model for IndexView {
    ghost use Rattle.std.specs.Prelude.{List, ℕ};
    ghost use Rattle.node_apply.specs.Kept.{Kept};

    ghost Value = { Kept (List (List ℕ × ℕ)) };

    ghost view = { λ v. record { shown = v.shown; next = v.next; seen = v.seen } };
}

impl IndexView {
    ghost use Rattle.std.specs.Prelude.{None};
    ghost use Rattle.meta_state.specs.declared.cluster_state.ClusterState.{ClusterState};
    ghost use Rattle.node_apply.specs.Kept.{just};
    ghost use Rattle.node_apply.specs.Parts.{ids_of};

    /// The view of a state, made by a walk over its indices.
    pub fn of(alloc: Global, state: &ClusterState) -> Result<IndexView, OutOfMemory>
        ensures { IfOk result (λ made. made ≡ just (ids_of state.now)) }
    {
        Ok(IndexView {
            shown: ids_in(alloc, &state.metadata.indices)?,
            next: None,
            seen: 0,
        })
    }

    /// The identifier of each index.
    pub fn ids(&self) -> &Map<u64>
        ensures { result.now ≡ self.now.shown }
    {
        &self.shown
    }

    /// Gives them away. It takes no memory.
    pub fn into_ids(self) -> Map<u64>
        ensures { result ≡ self.shown }
    {
        let IndexView { shown, .. } = self;
        shown
    }

    /// The version of the applied state as it last took over a state; 0 where it has not.
    pub fn seen(&self) -> u64
        ensures { result ≡ self.now.seen }
    {
        self.seen
    }
}

impl Applier for IndexView {
    ghost use Rattle.std.specs.Prelude.{◌≡◌, true, Some, None, is_some, OnOk, OnErr};
    ghost use Rattle.node_apply.specs.Kept.{taken_over};
    ghost use Rattle.node_apply.specs.Parts.{ids_of};

    ghost shows = { λ v s. v.shown ≡ ids_of s };

    ghost awaits = { λ v s. v.next ≡ Some (ids_of s) };

    ghost is_ready = { λ v. is_some v.next };

    fn prepare(&mut self, event: &ChangedEvent<'_>) -> Result<(), OutOfMemory>
        requires { self.old.shown ≡ ids_of event.now.old }
        ensures kept { self.new.shown ≡ self.old.shown }
        ensures seen { self.new.seen ≡ self.old.seen }
        ensures ok { OnOk result (self.new.next ≡ Some (ids_of event.now.new)) }
        ensures err { OnErr result (self.new.next ≡ None) }
    {
        put(&mut self.next, None);
        let old = &event.old_state().metadata.indices;
        let new = &event.new_state().metadata.indices;
        let names = &event.touched().indices;
        let next = ids_after(&self.shown, old, new, names)?;
        put(&mut self.next, Some(next));
        Ok(())
    }

    fn commit(&mut self, applied: u64)
        requires { is_some self.old.next ≡ true }
        ensures { self.new ≡ taken_over applied self.old }
    {
        if let Some(next) = self.next.take() {
            self.shown = next;
        }
        self.seen = applied;
    }
}

// The identifiers of indices, from nothing.
#[tactic(auto, using(crate::proofs::Identifying::all_identifiers))]
fn ids_in(alloc: Global, indices: &IndexTable) -> Result<Map<u64>, OutOfMemory>
    ensures { IfOk result (λ made. made ≡ identifiers indices.now) }
{
    // The names stand in order.
    let _ = indices.len();
    ids_put(alloc, indices)
}

fn ids_put(alloc: Global, indices: &IndexTable) -> Result<Map<u64>, OutOfMemory>
    ensures { IfOk result (λ made. made ≡ with_all (identifiers indices.now) []) }
{
    let mut made = Map::new(alloc);
    for (name, index) in indices.iter() {
        update(&mut made, name, Some(index.id))?;
    }
    Ok(made)
}

// The identifiers of the new indices, made of those of the old ones, which agree with them outside of some names.
#[tactic(auto, using(crate::proofs::Identifying::updated_identifiers))]
fn ids_after(
    before: &Map<u64>,
    old: &IndexTable,
    new: &IndexTable,
    names: &NameSet,
) -> Result<Map<u64>, OutOfMemory>
    requires before { before.now ≡ identifiers old.now }
    requires agree { AgreeOutside names.now old.now new.now }
    ensures { IfOk result (λ made. made ≡ identifiers new.now) }
{
    // The names of both stand in order.
    let _ = (old.len(), new.len());
    updated_ids(before, new, names)
}

fn updated_ids(
    before: &Map<u64>,
    new: &IndexTable,
    names: &NameSet,
) -> Result<Map<u64>, OutOfMemory>
    ensures { IfOk result (λ made. made ≡ updated (id_at new.now) names.now before.now) }
{
    let mut made = before.copy()?;
    for name in names.iter() {
        update(&mut made, name, id_in(new, name))?;
    }
    Ok(made)
}

fn id_in(indices: &IndexTable, name: &Text) -> Option<u64>
    ensures { result ≡ id_at indices.now name.now }
{
    match indices.get(name) {
        None => None,
        Some(index) => Some(index.id),
    }
}
