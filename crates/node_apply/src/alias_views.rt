ghost use Rattle.std.specs.Prelude.{◌≡◌, [], IfOk, OnOk};
ghost use Rattle.plain_data.specs.Agreements.{AgreeOutside, with_all};
ghost use Rattle.plain_data.specs.Pairs.{InOrder};
ghost use Rattle.meta_state.specs.Tables.{aliases_at};
ghost use Rattle.session_law.specs.Views.{with_aliases_of_all};
ghost use Rattle.node_apply.specs.AliasLists.{AreInOrderAt, AreSetsInOrder, aliases_among, list_of, some_names};
ghost use Rattle.node_apply.specs.TouchedNames.{with_names_of};
ghost use Rattle.node_apply.specs.Updated.{updated, updated_at};

use crate::appliers::Applier;
use crate::changed_events::ChangedEvent;
use crate::putting::put;
use crate::touched_names::names_of;
use crate::updates::update;
use meta_state::{ClusterState, IndexTable};
use plain_data::{Items, Map, NameSet, OutOfMemory, Text};
use std::alloc::Global;
use std::marker::Model;

/// For each alias the names of the indices that have it, in byte order, as the applier of low priority keeps it.
#[derive(Drop)]
pub struct AliasView {
    alloc: Global,
    shown: Map<Items<Text>>,
    next: Option<Map<Items<Text>>>,
    seen: u64,
}

impl Model for AliasView {
    ghost use Rattle.std.specs.Prelude.{List, ℕ};
    ghost use Rattle.node_apply.specs.Kept.{Kept};

    ghost Value = { Kept (List (List ℕ × List (List ℕ))) };

    ghost view = { λ v. record { shown = v.shown; next = v.next; seen = v.seen } };
}

impl AliasView {
    ghost use Rattle.meta_state.specs.declared.cluster_state.ClusterState.{ClusterState};
    ghost use Rattle.node_apply.specs.Kept.{just};
    ghost use Rattle.node_apply.specs.Parts.{alias_names_of};

    /// The view of a state, made by a walk over its indices. The walk shows that the aliases of each stand in order.
    pub fn of(alloc: Global, state: &ClusterState) -> Result<AliasView, OutOfMemory>
        ensures view { IfOk result (λ made. made ≡ just (alias_names_of state.now)) }
        ensures sets { OnOk result (AreSetsInOrder state.now.metadata.indices) }
    {
        Ok(AliasView {
            alloc,
            shown: lists_of(alloc, &state.metadata.indices)?,
            next: None,
            seen: 0,
        })
    }

    /// For each alias the names of the indices that have it, in byte order.
    pub fn names(&self) -> &Map<Items<Text>>
        ensures { result.now ≡ self.now.shown }
    {
        &self.shown
    }

    /// Gives them away. It takes no memory.
    pub fn into_names(self) -> Map<Items<Text>>
        ensures { result ≡ self.shown }
    {
        let AliasView { shown, .. } = self;
        shown
    }

    /// The version of the applied state as it last took over a state; 0 where it has not.
    pub fn seen(&self) -> u64
        ensures { result ≡ self.now.seen }
    {
        self.seen
    }
}

impl Applier for AliasView {
    ghost use Rattle.std.specs.Prelude.{◌≡◌, true, Some, None, is_some, OnOk, OnErr};
    ghost use Rattle.node_apply.specs.AliasLists.{AreSetsInOrder};
    ghost use Rattle.node_apply.specs.Kept.{taken_over};
    ghost use Rattle.node_apply.specs.Parts.{alias_names_of};

    ghost shows = { λ v s. (v.shown ≡ alias_names_of s) × AreSetsInOrder s.metadata.indices };

    ghost awaits = { λ v s. (v.next ≡ Some (alias_names_of s)) × AreSetsInOrder s.metadata.indices };

    ghost is_ready = { λ v. is_some v.next };

    fn prepare(&mut self, event: &ChangedEvent<'_>) -> Result<(), OutOfMemory>
        requires view { self.old.shown ≡ alias_names_of event.now.old }
        requires sets { AreSetsInOrder event.now.old.metadata.indices }
        ensures kept { self.new.shown ≡ self.old.shown }
        ensures seen { self.new.seen ≡ self.old.seen }
        ensures ok { OnOk result (self.new.next ≡ Some (alias_names_of event.now.new)) }
        ensures sets { OnOk result (AreSetsInOrder event.now.new.metadata.indices) }
        ensures err { OnErr result (self.new.next ≡ None) }
    {
        put(&mut self.next, None);
        let old = &event.old_state().metadata.indices;
        let new = &event.new_state().metadata.indices;
        let names = &event.touched().indices;
        let next = lists_after(self.alloc, &self.shown, old, new, names)?;
        put(&mut self.next, Some(next));
        Ok(())
    }

    fn commit(&mut self, applied: u64)
        requires { is_some self.old.next ≡ true }
        ensures { self.new ≡ taken_over applied self.old }
    {
        if let Some(next) = self.next.take() {
            self.shown = next;
        }
        self.seen = applied;
    }
}

// The lists of indices: those of no indices, with what all say.
#[tactic(auto, using(crate::proofs::AliasListing::lists_from_none, crate::proofs::AliasListing::sets_from_all))]
fn lists_of(alloc: Global, indices: &IndexTable) -> Result<Map<Items<Text>>, OutOfMemory>
    ensures lists { IfOk result (λ made. made ≡ with_aliases_of_all indices.now []) }
    ensures sets { OnOk result (AreSetsInOrder indices.now) }
{
    // The names stand in order.
    let _ = indices.len();
    let aliases = all_aliases(alloc, indices)?;
    updated_lists(alloc, &Map::new(alloc), indices, &aliases)
}

fn all_aliases(alloc: Global, indices: &IndexTable) -> Result<NameSet, OutOfMemory>
    ensures all { IfOk result (λ made. made ≡ aliases_among indices.now (with_names_of indices.now []) []) }
    ensures sets { OnOk result (AreInOrderAt indices.now (with_names_of indices.now [])) }
{
    let names = names_of(alloc, indices.by_name())?;
    aliases_of(alloc, indices, &names)
}

fn aliases_of(alloc: Global, indices: &IndexTable, names: &NameSet) -> Result<NameSet, OutOfMemory>
    ensures all { IfOk result (λ made. made ≡ aliases_among indices.now names.now []) }
    ensures sets { OnOk result (AreInOrderAt indices.now names.now) }
{
    let mut made = NameSet::new(alloc);
    put_aliases(&mut made, indices, names)?;
    Ok(made)
}

// The lists of the new indices, made of those of the old ones, which agree with them outside of some names.
#[tactic(auto, using(crate::proofs::AliasListing::lists_after, crate::proofs::AliasListing::sets_after))]
fn lists_after(
    alloc: Global,
    before: &Map<Items<Text>>,
    old: &IndexTable,
    new: &IndexTable,
    names: &NameSet,
) -> Result<Map<Items<Text>>, OutOfMemory>
    requires before { before.now ≡ with_aliases_of_all old.now [] }
    requires sets { AreSetsInOrder old.now }
    requires agree { AgreeOutside names.now old.now new.now }
    ensures lists { IfOk result (λ made. made ≡ with_aliases_of_all new.now []) }
    ensures sets { OnOk result (AreSetsInOrder new.now) }
{
    // The names of both stand in order.
    let _ = (old.len(), new.len());
    let aliases = aliases_of_both(alloc, old, new, names)?;
    updated_lists(alloc, before, new, &aliases)
}

// The aliases that the indices of some names have in either.
fn aliases_of_both(
    alloc: Global,
    old: &IndexTable,
    new: &IndexTable,
    names: &NameSet,
) -> Result<NameSet, OutOfMemory>
    ensures all { IfOk result (λ made. made ≡ aliases_among new.now names.now (aliases_among old.now names.now [])) }
    ensures sets { OnOk result (AreInOrderAt new.now names.now) }
{
    let mut made = aliases_of(alloc, old, names)?;
    put_aliases(&mut made, new, names)?;
    Ok(made)
}

// Puts the aliases of the indices of some names into others.
fn put_aliases(made: &mut NameSet, indices: &IndexTable, names: &NameSet) -> Result<(), OutOfMemory>
    ensures all { OnOk result (made.new ≡ aliases_among indices.now names.now made.old) }
    ensures sets { OnOk result (AreInOrderAt indices.now names.now) }
{
    for name in names.iter() {
        put_aliases_at(made, indices, name)?;
    }
    Ok(())
}

#[tactic(auto, using(plain_data::proofs::At::in_order_empty))]
fn put_aliases_at(made: &mut NameSet, indices: &IndexTable, name: &Text) -> Result<(), OutOfMemory>
    ensures all { OnOk result (made.new ≡ with_all (aliases_at name.now indices.now) made.old) }
    ensures set { InOrder (aliases_at name.now indices.now) }
{
    match indices.get(name) {
        None => Ok(()),
        Some(index) => {
            // The aliases stand in order.
            let _ = index.aliases.len();
            made.include(&index.aliases)
        }
    }
}

// Lists with what indices say of some aliases.
fn updated_lists(
    alloc: Global,
    before: &Map<Items<Text>>,
    indices: &IndexTable,
    aliases: &NameSet,
) -> Result<Map<Items<Text>>, OutOfMemory>
    ensures { IfOk result (λ made. made ≡ updated (list_of indices.now) aliases.now before.now) }
{
    let mut made = before.copy()?;
    update_lists(alloc, &mut made, indices, aliases)?;
    Ok(made)
}

fn update_lists(
    alloc: Global,
    made: &mut Map<Items<Text>>,
    indices: &IndexTable,
    aliases: &NameSet,
) -> Result<(), OutOfMemory>
    ensures { OnOk result (made.new ≡ updated (list_of indices.now) aliases.now made.old) }
{
    for alias in aliases.iter() {
        update_list(alloc, made, indices, alias)?;
    }
    Ok(())
}

fn update_list(
    alloc: Global,
    made: &mut Map<Items<Text>>,
    indices: &IndexTable,
    alias: &Text,
) -> Result<(), OutOfMemory>
    ensures { OnOk result (made.new ≡ updated_at alias.now (list_of indices.now alias.now) made.old) }
{
    let names = indices.names_with(alloc, alias)?;
    update(made, alias, some_names(names))
}

// An alias that no index has isn't listed.
fn some_names(names: Items<Text>) -> Option<Items<Text>>
    ensures { result ≡ some_names names }
{
    if names.is_empty() { None } else { Some(names) }
}
