ghost use Rattle.std.specs.Prelude.{◌≡◌, ◌+◌, ◌<◌, ◌≤◌, ◌^◌};
ghost use Rattle.meta_state.specs.Hits.{is_newer};
ghost use Rattle.observers.specs.Watchings.{answered_part, final_place, first_part, next_part};

use meta_state::{ClusterState, Pred, WatchId};
use plain_data::{Items, OutOfMemory};
use std::alloc::Global;
use std::marker::Model;

/// What a watch or next step asks of a node.
#[derive(Debug, Drop)]
pub struct WatchSpec {
    pub watch: WatchId,

    /// The version that its first part has to be past, if any.
    pub last: Option<u64>,

    /// The predicates of its parts, the first one and those that follow it.
    pub preds: Items<Pred>,

    /// When it began, in milliseconds.
    pub at: u64,

    /// When it times out, in milliseconds.
    pub deadline: u64,
}

/// A part of a watch: the states of its node that it was shown, one after the other without a gap.
#[derive(Clone, Copy, Debug, PartialEq, Eq)]
pub struct WatchPart {
    pub watch: WatchId,

    /// Which part it is, from 0.
    pub part: u32,

    /// The version that a state has to be past to answer it, if any.
    pub last: Option<u64>,

    /// The place of the first state that it was shown.
    pub place: u64,

    /// How many states it was shown, from its place on.
    pub shown: u64,

    /// The version of the final state shown, where that answered it.
    pub answered: Option<u64>,
}

/// The final state that a watch was shown: its place among its node's states, and its version.
#[derive(Clone, Copy, Debug, PartialEq, Eq)]
pub struct FinalShown {
    pub place: u64,
    pub version: u64,
}

/// A watch that was registered at a node. Memory for all its parts is taken where it begins.
#[derive(Drop)]
pub struct Watching {
    spec: WatchSpec,

    // Its parts before the last one; each was answered. There is room for all that may come.
    before: Vec<WatchPart>,

    // The last part that began.
    part: WatchPart,

    // The version of the final state shown to that part.
    version: u64,

    // Whether it is shown no more states: its last predicate was answered, or it was retired.
    over: bool,
}

impl Model for Watching {
    ghost use Rattle.std.specs.Prelude.{vec_capacity};
    ghost use Rattle.std.specs.Coded.{codes};
    ghost use Rattle.meta_state.specs.contracts.predicates.Pred as pred;
    ghost use Rattle.observers.specs.Watchings.{Watching as Watched, IsWatching};

    ghost Value = { Watched };

    ghost coded = { Prim.hlevel (codes, pred.the_row.coded) };

    ghost view = { λ w. record { spec = w.spec; before = w.before.items; part = w.part; version = w.version; over = w.over } };

    ghost invariant = { λ w. IsWatching w.spec.preds w.before.items w.part (vec_capacity w.before) };
}

impl WatchPart {
    // The first part of a watch, which was shown the state of this place.
    fn first(spec: &WatchSpec, place: u64) -> WatchPart
        ensures { result ≡ first_part spec.now place }
    {
        WatchPart {
            watch: spec.watch,
            part: 0,
            last: spec.last,
            place,
            shown: 1,
            answered: None,
        }
    }

    // The place of the final state that it was shown.
    fn final_place(&self) -> u64
        requires shown { 1 ≤ self.now.shown }
        requires place { self.now.place + self.now.shown ≤ 2 ^ 32 }
        ensures { result ≡ final_place self.now }
    {
        self.place + self.shown - 1
    }

    // Whether a state is newer than what a state has to be past to answer it.
    fn is_before(&self, state: &ClusterState) -> bool
        ensures { result ≡ is_newer self.now.last state.now }
    {
        match self.last {
            None => true,
            Some(last) => last < state.version,
        }
    }

    // It was answered by the final state that it was shown, of this version.
    fn answered_by(self, version: u64) -> WatchPart
        ensures { result ≡ answered_part version self }
    {
        WatchPart {
            answered: Some(version),
            ..self
        }
    }

    // The part behind it, which begins where it was answered by a state of this version.
    fn next(self, version: u64) -> WatchPart
        requires part { self.part < 9 }
        requires shown { 1 ≤ self.shown }
        requires place { self.place + self.shown ≤ 2 ^ 32 }
        ensures { result ≡ next_part version self }
    {
        WatchPart {
            watch: self.watch,
            part: self.part + 1,
            last: Some(version),
            place: self.final_place(),
            shown: 1,
            answered: None,
        }
    }
}

impl Watching {
    ghost use Rattle.std.specs.Prelude.{◌≡◌, ◌+◌, ◌++◌, ◌<◌, ◌≤◌, ◌^◌, true, length, IfOk, vec_capacity, vec_len};
    ghost use Rattle.observers.specs.Watchings.{answered_by_final, begun_by, counted_with, does_hit, final_of, has_more, parts_of, pred_of, shown_to, tested_with};

    /// A watch that is registered at a node which has this state, the one of this place among those that it had. The
    /// state counts as shown, and wasn't tested yet.
    pub(crate) fn begin(
        alloc: Global,
        spec: WatchSpec,
        state: &ClusterState,
        place: u64,
    ) -> Result<Watching, OutOfMemory>
        requires some { 0 < length spec.preds }
        requires few { length spec.preds ≤ 9 }
        requires place { place < 2 ^ 32 }
        ensures { IfOk result (λ made. made ≡ begun_by spec state.now place) }
    {
        let before = Vec::with_capacity(alloc, spec.preds.len())?;
        let part = WatchPart::first(&spec, place);
        Ok(Watching {
            spec,
            before,
            part,
            version: state.version,
            over: false,
        })
    }

    /// What it asks.
    pub fn spec(&self) -> &WatchSpec
        ensures { result.now ≡ self.now.spec }
    {
        &self.spec
    }

    /// Its parts before the last one that began.
    pub fn before(&self) -> &[WatchPart]
        ensures { result.now ≡ self.now.before }
    {
        self.before.as_slice()
    }

    /// The last of its parts that began.
    pub fn part(&self) -> WatchPart
        ensures { result ≡ self.now.part }
    {
        self.part
    }

    /// The version of the final state that it was shown.
    pub fn version(&self) -> u64
        ensures { result ≡ self.now.version }
    {
        self.version
    }

    /// Whether it is shown no more states.
    pub fn is_over(&self) -> bool
        ensures { result ≡ self.now.over }
    {
        self.over
    }

    /// The final state that it was shown.
    pub fn final_shown(&self) -> FinalShown
        ensures { result ≡ final_of self.now }
    {
        FinalShown {
            place: self.part.final_place(),
            version: self.version,
        }
    }

    /// Tests the final state that it was shown. It takes no memory.
    pub(crate) fn test(&mut self, state: &ClusterState)
        ensures { self.new ≡ tested_with state.now self.old }
    {
        if self.does_hit(state) {
            self.answer();
        }
    }

    /// Shows it the state behind the final one, and tests that. It takes no memory.
    pub(crate) fn show(&mut self, state: &ClusterState)
        requires { self.old.part.place + self.old.part.shown < 2 ^ 32 }
        ensures { self.new ≡ shown_to state.now self.old }
    {
        self.part.shown += 1;
        self.version = state.version;
        self.test(state);
    }

    /// Ends it: it is shown no more states.
    pub(crate) fn end(&mut self)
        ensures { self.new ≡ record self.old { over = true } }
    {
        self.over = true;
    }

    /// Adds its parts to a list with room for them. It takes no memory.
    pub(crate) fn add_parts(self, parts: &mut Vec<WatchPart>)
        requires { vec_len parts.old + length self.spec.preds ≤ vec_capacity parts.old }
        ensures parts { parts.new.items ≡ parts.old.items ++ parts_of self }
        ensures len { vec_len parts.new ≤ vec_len parts.old + length self.spec.preds }
        ensures capacity { vec_capacity parts.new ≡ vec_capacity parts.old }
    {
        for part in self.before.as_slice() {
            parts.push_reserved(*part);
        }
        parts.push_reserved(self.part);
    }

    // Whether a state hits its last part.
    fn does_hit(&self, state: &ClusterState) -> bool
        ensures { result ≡ does_hit self.now.part.last (pred_of self.now) state.now }
    {
        match self.spec.preds.get(self.part.part as usize) {
            None => false,
            Some(pred) => self.part.is_before(state) && pred.test(state),
        }
    }

    // Its last part was answered by the final state that it was shown.
    fn answer(&mut self)
        ensures { self.new ≡ answered_by_final self.old }
    {
        let answered = self.part.answered_by(self.version);
        if self.has_more() {
            self.before.push_reserved(answered);
            self.part = self.part.next(self.version);
        } else {
            self.part = answered;
            self.over = true;
        }
    }

    // Whether a predicate is left for a part behind the last one.
    fn has_more(&self) -> bool
        ensures { result ≡ has_more self.now }
    {
        (self.part.part as usize) + 1 < self.spec.preds.len()
    }
}
