use meta_state::{ClusterState, Pred, WatchId};
use observers::{PlainRegistry, PlainWatches, WatchPart, WatchSpec, WatchWord};
use plain_data::{Items, OutOfMemory};
use std::alloc::Global;
use std::marker::Model;

/// A node with the states that it has had, and the watches of one client on it, which has four steps.
#[derive(Drop)]
pub struct SmallBoard {
    states: Items<ClusterState>,
    words: PlainWatches,
    registry: PlainRegistry,
}

impl Model for SmallBoard {
    ghost use Rattle.std.specs.Prelude.{◌≡◌, List};
    ghost use Rattle.meta_state.specs.declared.cluster_state.ClusterState.{ClusterState};
    ghost use Rattle.apply_tests.specs.Boards.{IsBoard};
    ghost use Rattle.observers.specs.Registries.{Board};
    ghost use Rattle.std.specs.Coded.{codes};
    ghost use Rattle.meta_state.specs.contracts.predicates.Pred as pred;

    ghost Value = { List ClusterState × Board };

    ghost coded = { Prim.hlevel (codes, pred.the_row.coded) };

    ghost view = { λ b. (b.states, record { registry = b.registry; words = b.words }) };

    ghost invariant = { λ b. IsBoard b.states (record { registry = b.registry; words = b.words }) };
}

impl SmallBoard {
    ghost use Rattle.std.specs.Prelude.{◌≡◌, ◌<◌, ◌≤◌, ◌+◌, ◌^◌, ◌++◌, ◌∷◌, [], false, length, OnErr, OnOk};
    ghost use Rattle.std.specs.List.{list_any};
    ghost use Rattle.observers.specs.declared.watch_words.WatchWord.{WatchWord};
    ghost use Rattle.observers.specs.Laws.{IsCurrent};
    ghost use Rattle.observers.specs.Listings.{is_watch};
    ghost use Rattle.observers.specs.Registries.{all_parts, registered, shown};
    ghost use Rattle.observers.specs.Words.{IsWithin, with_word, word_at};

    /// A node that has one state, with no watch.
    #[tactic(auto, using(crate::proofs::Boards::first_board))]
    pub fn create(alloc: Global, first: ClusterState) -> Result<SmallBoard, OutOfMemory> {
        let mut states = Items::new(alloc);
        states.push(first)?;
        let words = PlainWatches::create(alloc, [4].as_slice(), 1)?;
        Ok(SmallBoard {
            states,
            words,
            registry: PlainRegistry::new(alloc),
        })
    }

    /// The watch of a step begins on the state that the node has, for each of these predicates in turn. False where the
    /// step has one already, or there is nothing to wait for.
    #[tactic(auto, using(crate::proofs::Boards::four_within, crate::proofs::Boards::fresh_where_none))]
    pub fn begin(
        &mut self,
        step: u32,
        last: Option<u64>,
        preds: Items<Pred>,
    ) -> Result<bool, OutOfMemory> {
        let watch = WatchId { client: 0, step };
        if step >= 4 || preds.is_empty() || preds.len() > 9 || self.registry.get(watch).is_some() {
            return Ok(false);
        }
        match self.words.word(watch) {
            WatchWord::Vacant => {
                self.words.arm(0, watch, 0, 9);
                self.register(WatchSpec {
                    watch,
                    last,
                    preds,
                    at: 0,
                    deadline: 9,
                })?;
                Ok(true)
            }
            _ => Ok(false),
        }
    }

    // Registers a watch on the state that the node has.
    #[tactic(auto, using(crate::proofs::Boards::registered_board, crate::proofs::Boards::current_at))]
    fn register(&mut self, spec: WatchSpec) -> Result<(), OutOfMemory>
        requires word { IsWithin self.old.1.words spec.watch }
        requires fresh { list_any (is_watch spec.watch) self.old.1.registry.watchings ≡ false }
        requires some { 0 < length spec.preds }
        requires few { length spec.preds ≤ 9 }
    {
        let count = self.states.len();
        if count == 0 || count > 1 << 32 || self.registry.len() + 1 >= 1 << 18 {
            return Err(OutOfMemory);
        }
        match self.states.get(count - 1) {
            Some(state) => {
                if state.version >= 1 << 32 {
                    return Err(OutOfMemory);
                }
                self.registry
                    .register(&mut self.words, 0, spec, state, (count - 1) as u64)
            }
            None => Err(OutOfMemory),
        }
    }

    /// The node has another state, which its watches are shown.
    #[tactic(auto, using(crate::proofs::Boards::ready_for_next))]
    pub fn apply(&mut self, alloc: Global, state: &ClusterState) -> Result<(), OutOfMemory> {
        let place = self.states.len();
        let _count = self.registry.len();
        if place >= 1 << 32 || state.version >= 1 << 32 {
            return Err(OutOfMemory);
        }
        self.states.push(state.copy(alloc)?)?;
        let _ended = self.registry.shown(&mut self.words, 0, state, place as u64);
        Ok(())
    }

    /// All parts of its watches.
    pub fn finish(self) -> Items<WatchPart>
        ensures { result ≡ all_parts self.1.registry }
    {
        self.registry.finish()
    }
}
