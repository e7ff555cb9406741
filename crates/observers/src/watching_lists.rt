ghost use Rattle.std.specs.Prelude.{◌≡◌};

use crate::watchings::{FinalShown, WatchPart, Watching};
use indexmap::IndexMap;
use meta_state::{ClusterState, WatchId};
use plain_data::OutOfMemory;
use std::alloc::Global;
use std::marker::Model;

/// The watches that were registered at a node, in the order of registration. One is found by its identifier, and reached
/// by its number, without a walk over the others.
#[derive(Drop)]
pub struct WatchingList {
    map: IndexMap<WatchId, Watching>,
}

impl Model for WatchingList {
    ghost use Rattle.std.specs.Prelude.{List};
    ghost use Rattle.std.specs.Coded.{codes};
    ghost use Rattle.meta_state.specs.contracts.predicates.Pred as pred;
    ghost use Rattle.indexmap.specs.IndexMap.{values};
    ghost use Rattle.observers.specs.Listings.{AreKeyed};
    ghost use Rattle.observers.specs.Watchings.{Watching as Watched};

    ghost Value = { List Watched };

    ghost coded = { Prim.hlevel (codes, pred.the_row.coded) };

    ghost view = { λ l. values l.map };

    ghost invariant = { λ l. AreKeyed l.map.entries };
}

impl WatchingList {
    ghost use Rattle.std.specs.Prelude.{◌≡◌, ◌+◌, ◌<◌, ◌≤◌, ◌∷◌, ◌++◌, ◌^◌, [], false, flat_map, length, map, slice_get, IfSome, IsTrue, OnErr, OnOk, vec_capacity, vec_len};
    ghost use Rattle.std.specs.List.{list_any};
    ghost use Rattle.std.specs.Option.{option_copied};
    ghost use Rattle.observers.specs.Listings.{changed_at, final_in, found_watch, is_watch};
    ghost use Rattle.observers.specs.Watchings.{parts_of, shown_to};
    ghost use Rattle.observers.specs.Registries.{IsGoingOn, IsNextAt, ended_if, part_count};

    /// The empty list. It takes no memory.
    pub(crate) fn new(alloc: Global) -> WatchingList
        ensures { result ≡ [] }
    {
        WatchingList {
            map: IndexMap::new(alloc),
        }
    }

    /// How many were registered.
    pub fn len(&self) -> usize
        ensures { result ≡ length self.now }
    {
        self.map.len()
    }

    /// The watch of an identifier.
    pub fn get(&self, watch: WatchId) -> Option<&Watching>
        ensures { option_copied result ≡ found_watch watch self.now }
    {
        self.map.get(&watch)
    }

    /// The watch of a number, in the order of registration.
    pub fn at(&self, number: u32) -> Option<&Watching>
        ensures { option_copied result ≡ slice_get self.now number }
    {
        match self.map.get_index(number as usize) {
            None => None,
            Some((_, watching)) => Some(watching),
        }
    }

    /// Adds a watch at the end. Want of memory leaves the list as it was.
    pub(crate) fn add(&mut self, watching: Watching) -> Result<(), OutOfMemory>
        requires { list_any (is_watch watching.spec.watch) self.old ≡ false }
        ensures ok { OnOk result (self.new ≡ self.old ++ watching ∷ []) }
        ensures err { OnErr result (self.new ≡ self.old) }
    {
        let watch = watching.spec().watch;
        self.map.insert(watch, watching)?;
        Ok(())
    }

    /// Shows the watch of a number, which goes on, the state of this place, behind the final one that it was shown. It
    /// takes no memory.
    pub(crate) fn show(&mut self, number: u32, state: &ClusterState, place: u64)
        requires going { IsGoingOn (slice_get self.old number) }
        requires next { IsNextAt place (slice_get self.old number) }
        requires place { place < 2 ^ 32 }
        ensures { self.new ≡ changed_at (shown_to state.now) number self.old }
    {
        if let Some(watching) = self.map.get_index_mut(number as usize) {
            watching.show(state);
        }
    }

    /// Ends the watch of an identifier, and tells the final state that it was shown. It takes no memory.
    pub(crate) fn end(&mut self, watch: WatchId) -> FinalShown
        requires { IsTrue (list_any (is_watch watch) self.old) }
        ensures shown { result ≡ final_in watch self.old }
        ensures list { self.new ≡ map (ended_if watch) self.old }
    {
        match self.map.get_mut(&watch) {
            None => unreachable!(),
            Some(watching) => {
                watching.end();
                watching.final_shown()
            }
        }
    }

    /// Adds all parts to a list with room for them, by watch in the order of registration. It takes no memory.
    pub(crate) fn into_parts(self, parts: Vec<WatchPart>) -> Vec<WatchPart>
        requires { vec_len parts + part_count self ≤ vec_capacity parts }
        ensures { result.items ≡ parts.items ++ flat_map parts_of self }
    {
        let mut parts = parts;
        for watching in self.map.into_values() {
            watching.add_parts(&mut parts);
        }
        parts
    }
}
