ghost use Rattle.std.specs.Prelude.{◌≡◌, ◌+◌, ◌<◌, ◌≤◌, ◌^◌, length, slice_get, true, vec_capacity, vec_len};
ghost use Rattle.std.specs.List.{AllByRecursion};
ghost use Rattle.observers.specs.Registries.{AreRising, board_of, is_shown_if, IsNextAt, IsWordOf, kept_with, shown_each, shown_so, told};
ghost use Rattle.observers.specs.Words.{IsWithin, waits_on, word_at};

use crate::plain_watches::PlainWatches;
use crate::watching_lists::WatchingList;
use crate::watchings::{FinalShown, WatchPart, WatchSpec, Watching};
use meta_state::{ClusterState, WatchId};
use plain_data::{Items, OutOfMemory};
use std::alloc::Global;
use std::marker::Model;
use std::mem;

/// The watches that were registered at a node, and which of them are still shown each state that the node applies.
/// Memory is taken where a watch is registered, and by no other call.
#[derive(Drop)]
pub struct PlainRegistry {
    alloc: Global,
    watchings: WatchingList,

    // The numbers of those that are kept, in order.
    kept: Vec<u32>,

    // An empty list with room for those that are kept after the next state.
    next: Vec<u32>,

    // How many parts may come, and an empty list with room for these.
    coming: usize,
    parts: Vec<WatchPart>,
}

impl Model for PlainRegistry {
    ghost use Rattle.std.specs.Prelude.{vec_capacity};
    ghost use Rattle.std.specs.Coded.{codes};
    ghost use Rattle.meta_state.specs.contracts.predicates.Pred as pred;
    ghost use Rattle.observers.specs.Registries.{IsRoomy, Registry};

    ghost Value = { Registry };

    ghost coded = { Prim.hlevel (codes, pred.the_row.coded) };

    ghost view = { λ r. record { watchings = r.watchings; kept = r.kept.items } };

    ghost invariant = { λ r. IsRoomy (record { watchings = r.watchings; kept = r.kept.items }) r.next.items r.parts.items r.coming (vec_capacity r.kept) (vec_capacity r.next) (vec_capacity r.parts) };
}

impl PlainRegistry {
    ghost use Rattle.std.specs.Prelude.{◌≡◌, ◌+◌, ◌-◌, ◌<◌, ◌≤◌, ◌++◌, ◌∷◌, ◌^◌, [], false, length, true, OnErr, OnOk};
    ghost use Rattle.std.specs.List.{list_any};
    ghost use Rattle.std.specs.Option.{option_copied};
    ghost use Rattle.observers.specs.Listings.{final_in, found_watch, is_watch};
    ghost use Rattle.observers.specs.Registries.{all_parts, AreNextAt, empty_registry, HaveWords, IsKeptWell, IsRegistered, placed, placed_over, registered, retired, shown};
    ghost use Rattle.observers.specs.Words.{IsWithin, waits_on, word_at};

    /// The registry of a node at which no watch was registered.
    pub fn new(alloc: Global) -> PlainRegistry
        ensures { result ≡ empty_registry }
    {
        PlainRegistry {
            alloc,
            watchings: WatchingList::new(alloc),
            kept: Vec::new(alloc),
            next: Vec::new(alloc),
            coming: 0,
            parts: Vec::new(alloc),
        }
    }

    /// How many were registered.
    pub fn len(&self) -> usize
        ensures count { result ≡ length self.now.watchings }
        ensures few { result < 2 ^ 18 }
        ensures well { IsKeptWell self.now }
    {
        self.watchings.len()
    }

    /// The watch of an identifier.
    pub fn get(&self, watch: WatchId) -> Option<&Watching>
        ensures { option_copied result ≡ found_watch watch self.now.watchings }
    {
        self.watchings.get(watch)
    }

    /// Registers a watch at a node which has this state, the one of this place among those that it had: it is shown that
    /// state at once, and kept where it waits on. Want of memory leaves all as it was.
    pub fn register(
        &mut self,
        watches: &mut PlainWatches,
        node: u32,
        spec: WatchSpec,
        state: &ClusterState,
        place: u64,
    ) -> Result<(), OutOfMemory>
        requires word { IsWithin watches.old spec.watch }
        requires fresh { list_any (is_watch spec.watch) self.old.watchings ≡ false }
        requires some { 0 < length spec.preds }
        requires few { length spec.preds ≤ 9 }
        requires version { state.now.version < 2 ^ 32 }
        requires place { place < 2 ^ 32 }
        requires room { length self.old.watchings + 1 < 2 ^ 18 }
        ensures ok { OnOk result (record { registry = self.new; words = watches.new } ≡ registered node spec state.now place (record { registry = self.old; words = watches.old })) }
        ensures err { OnErr result (self.new ≡ self.old) }
        ensures err_words { OnErr result (watches.new ≡ watches.old) }
    {
        let mut watching = Watching::begin(self.alloc, spec, state, place)?;
        if watches.waiting(node, watching.spec().watch) {
            watching.test(state);
            self.place(watches, node, watching)
        } else {
            self.place_over(watching)
        }
    }

    /// Shows each kept watch that waits the state that the node has applied, the one of this place among those that it
    /// had. How many watches are kept no more: they are answered by it, or waited no more. It takes no memory.
    pub fn shown(
        &mut self,
        watches: &mut PlainWatches,
        node: u32,
        state: &ClusterState,
        place: u64,
    ) -> u32
        requires next { AreNextAt place self.old }
        requires words { HaveWords (record { registry = self.old; words = watches.old }) }
        requires version { state.now.version < 2 ^ 32 }
        requires place { place < 2 ^ 32 }
        ensures board { record { registry = self.new; words = watches.new } ≡ shown node state.now (record { registry = self.old; words = watches.old }) }
        ensures gone { result ≡ length self.old.kept - length self.new.kept }
    {
        show_each(
            &mut self.watchings,
            watches,
            node,
            self.kept.as_slice(),
            state,
            place,
            &mut self.next,
        );
        let gone = self.kept.len() - self.next.len();
        self.kept.clear();
        mem::swap(&mut self.kept, &mut self.next);
        gone as u32
    }

    /// Lets a watch that was registered be shown no more states, and tells the final one that it was shown. It takes no
    /// memory.
    pub fn retire(&mut self, watch: WatchId) -> FinalShown
        requires { IsRegistered watch self.old }
        ensures shown { result ≡ final_in watch self.old.watchings }
        ensures registry { self.new ≡ retired watch self.old }
    {
        self.watchings.end(watch)
    }

    /// All parts, by watch in the order of registration. It takes no memory.
    pub fn finish(self) -> Items<WatchPart>
        ensures { result ≡ all_parts self }
    {
        let PlainRegistry {
            watchings,
            parts,
            ..
        } = self;
        Items::from_vec(watchings.into_parts(parts))
    }

    // Adds a watch that waited, after its first state was tested.
    fn place(
        &mut self,
        watches: &mut PlainWatches,
        node: u32,
        watching: Watching,
    ) -> Result<(), OutOfMemory>
        requires word { IsWithin watches.old watching.spec.watch }
        requires waits { waits_on node (word_at watches.old watching.spec.watch) ≡ true }
        requires fresh { list_any (is_watch watching.spec.watch) self.old.watchings ≡ false }
        requires few { length watching.spec.preds ≤ 9 }
        requires version { watching.version < 2 ^ 32 }
        requires room { length self.old.watchings + 1 < 2 ^ 18 }
        ensures ok { OnOk result (record { registry = self.new; words = watches.new } ≡ placed node watching (record { registry = self.old; words = watches.old })) }
        ensures err { OnErr result (self.new ≡ self.old) }
        ensures err_words { OnErr result (watches.new ≡ watches.old) }
    {
        let number = self.watchings.len() as u32;
        self.place_over(watching)?;
        let Some(watching) = self.watchings.at(number) else {
            unreachable!()
        };
        tell(watches, node, number, watching, &mut self.kept);
        Ok(())
    }

    // Adds a watch that is shown no more states.
    fn place_over(&mut self, watching: Watching) -> Result<(), OutOfMemory>
        requires fresh { list_any (is_watch watching.spec.watch) self.old.watchings ≡ false }
        requires few { length watching.spec.preds ≤ 9 }
        requires room { length self.old.watchings + 1 < 2 ^ 18 }
        ensures ok { OnOk result (self.new ≡ record self.old { watchings = self.old.watchings ++ watching ∷ [] }) }
        ensures err { OnErr result (self.new ≡ self.old) }
    {
        let count = self.watchings.len();
        let coming = self.coming + watching.spec().preds.len();
        self.kept.reserve(count + 1)?;
        self.next.reserve(count + 1)?;
        self.parts.reserve(coming)?;
        self.watchings.add(watching)?;
        self.coming = coming;
        Ok(())
    }
}

// Shows the watches of these numbers a state, each that waits, and adds the numbers of those that are kept.
fn show_each(
    watchings: &mut WatchingList,
    watches: &mut PlainWatches,
    node: u32,
    numbers: &[u32],
    state: &ClusterState,
    place: u64,
    kept: &mut Vec<u32>,
)
    requires next { AllByRecursion (λ number. IsNextAt place (slice_get watchings.old number)) numbers.now }
    requires words { AllByRecursion (λ number. IsWordOf watches.old (slice_get watchings.old number)) numbers.now }
    requires rising { AreRising 0 (length watchings.old) numbers.now }
    requires version { state.now.version < 2 ^ 32 }
    requires place { place < 2 ^ 32 }
    requires room { vec_len kept.old + length numbers.now ≤ vec_capacity kept.old }
    ensures board { board_of watchings.new kept.new.items watches.new ≡ shown_each node state.now numbers.now (board_of watchings.old kept.old.items watches.old) }
    ensures few { vec_len kept.new ≤ vec_len kept.old + length numbers.now }
    ensures capacity { vec_capacity kept.new ≡ vec_capacity kept.old }
{
    for number in numbers {
        show_one(watchings, watches, node, *number, state, place, kept);
    }
}

// Shows the watch of a number a state, where it waits, and adds its number where it is kept.
#[tactic(auto, using(crate::proofs::Showing::going_where_shown))]
fn show_one(
    watchings: &mut WatchingList,
    watches: &mut PlainWatches,
    node: u32,
    number: u32,
    state: &ClusterState,
    place: u64,
    kept: &mut Vec<u32>,
)
    requires next { IsNextAt place (slice_get watchings.old number) }
    requires word { IsWordOf watches.old (slice_get watchings.old number) }
    requires version { state.now.version < 2 ^ 32 }
    requires place { place < 2 ^ 32 }
    requires room { vec_len kept.old < vec_capacity kept.old }
    ensures board { board_of watchings.new kept.new.items watches.new ≡ shown_so node state.now number (slice_get watchings.old number) (board_of watchings.old kept.old.items watches.old) }
    ensures few { vec_len kept.new ≤ vec_len kept.old + 1 }
    ensures capacity { vec_capacity kept.new ≡ vec_capacity kept.old }
{
    if !is_shown(watchings, watches, node, number) {
        return;
    }
    watchings.show(number, state, place);
    let Some(watching) = watchings.at(number) else {
        unreachable!()
    };
    tell(watches, node, number, watching, kept);
}

// Whether the watch of a number is shown a state of the node.
fn is_shown(watchings: &WatchingList, watches: &PlainWatches, node: u32, number: u32) -> bool
    requires { IsWordOf watches.now (slice_get watchings.now number) }
    ensures { result ≡ is_shown_if node (slice_get watchings.now number) watches.now }
{
    match watchings.at(number) {
        None => false,
        Some(watching) => { !watching.is_over() && watches.waiting(node, watching.spec().watch) }
    }
}

// Tells what came of a state that a watch which waited was shown: it is answered where it is over, and kept elsewhere.
fn tell(
    watches: &mut PlainWatches,
    node: u32,
    number: u32,
    watching: &Watching,
    kept: &mut Vec<u32>,
)
    requires word { IsWithin watches.old watching.now.spec.watch }
    requires waits { waits_on node (word_at watches.old watching.now.spec.watch) ≡ true }
    requires version { watching.now.version < 2 ^ 32 }
    requires room { vec_len kept.old < vec_capacity kept.old }
    ensures words { watches.new ≡ told node watching.now watches.old }
    ensures kept { kept.new.items ≡ kept_with number watching.now kept.old.items }
    ensures few { vec_len kept.new ≤ vec_len kept.old + 1 }
    ensures capacity { vec_capacity kept.new ≡ vec_capacity kept.old }
{
    if watching.is_over() {
        let _ = watches.answer(node, watching.spec().watch, watching.version());
    } else {
        kept.push_reserved(number);
    }
}
