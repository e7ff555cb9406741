ghost use Rattle.std.specs.Prelude.{◌≡◌, ◌<◌, ◌^◌, IfOk, count_by, get_or, length, map, set};
ghost use Rattle.observers.specs.declared.watch_words.WatchWord.{WatchWord};
ghost use Rattle.observers.specs.Words.{closed_word, is_waiting, vacant_lane};

use crate::answers::{AnswerTry, WatchExpiry, WatchPoll};
use crate::watch_words::WatchWord;
use meta_state::WatchId;
use plain_data::{Items, OutOfMemory};
use std::alloc::Global;
use std::marker::Model;

/// The words of watches for one thread: a word for each step of each client. Every answer is exact. A call names the lane
/// or the node that makes it; this form doesn't need the lane.
#[derive(Drop)]
pub struct PlainWatches {
    words: Vec<Items<WatchWord>>,
}

impl Model for PlainWatches {
    ghost use Rattle.std.specs.Prelude.{◌<◌, ◌^◌};
    ghost use Rattle.observers.specs.Words.{WatchTable, word_count};

    ghost Value = { WatchTable };

    ghost view = { λ t. t.words.items };

    // No count of words overflows.
    ghost invariant = { λ t. word_count t.words.items < 2 ^ 18 };
}

impl PlainWatches {
    ghost use Rattle.std.specs.Prelude.{◌≡◌, ◌≢◌, ◌<◌, ◌^◌, IfOk, IsTrue, sum};
    ghost use Rattle.observers.specs.Words.{answer_of, answered_word, can_answer, closed_table, closed_word, expiry_of, IsDue, IsWithin, polled, timed_word, vacant_table, waiting_count, waits_on, with_word, word_at};

    /// The words for lanes with so many steps each, with nothing begun. No later call takes memory. The number of nodes
    /// isn't needed.
    pub fn create(alloc: Global, watches: &[u32], _nodes: u32) -> Result<PlainWatches, OutOfMemory>
        requires { sum watches.now < 2 ^ 18 }
        ensures { IfOk result (λ made. made ≡ vacant_table watches.now) }
    {
        let mut words = Vec::new(alloc);
        for steps in watches {
            words.push(vacant_words(alloc, *steps)?)?;
        }
        Ok(PlainWatches { words })
    }

    /// A client begins the watch of its step on a node. The deadline is in milliseconds.
    pub fn arm(&mut self, _lane: u32, watch: WatchId, node: u32, deadline: u64)
        requires watch { IsWithin self.old watch }
        requires vacant { word_at self.old watch ≡ WatchWord.Vacant }
        ensures { self.new ≡ with_word watch (WatchWord.Waiting node deadline) self.old }
    {
        self.put(watch, WatchWord::Waiting { node, deadline });
    }

    /// Lets a watch that was begun time out, at a reading in milliseconds that isn't below its deadline. It wins exactly
    /// where the watch waits; else nothing changes.
    pub fn expire(&mut self, _lane: u32, watch: WatchId, reading: u64) -> WatchExpiry
        requires watch { IsWithin self.old watch }
        requires armed { word_at self.old watch ≢ WatchWord.Vacant }
        requires due { IsDue reading (word_at self.old watch) }
        ensures answer { result ≡ expiry_of (word_at self.old watch) }
        ensures table { self.new ≡ with_word watch (timed_word reading (word_at self.old watch)) self.old }
    {
        match self.word(watch) {
            WatchWord::Waiting { .. } => {
                self.put(watch, WatchWord::Timed { reading });
                WatchExpiry::Won
            }
            WatchWord::Answered { version, .. } => WatchExpiry::Answered { version },
            WatchWord::Timed { reading } => WatchExpiry::TimedBefore { reading },
            WatchWord::Vacant | WatchWord::Closed => WatchExpiry::Closed,
        }
    }

    /// Ends a watch where it waits: for one that began after the close step and wasn't answered at once.
    pub fn close(&mut self, _lane: u32, watch: WatchId)
        requires { IsWithin self.old watch }
        ensures { self.new ≡ with_word watch (closed_word (word_at self.old watch)) self.old }
    {
        close_at(&mut self.words[watch.client as usize], watch.step as usize);
    }

    /// The close step ends each watch that waits. How many these were.
    pub fn close_all(&mut self, _lane: u32) -> u32
        ensures count { result ≡ waiting_count self.old }
        ensures table { self.new ≡ closed_table self.old }
    {
        let mut count: u32 = 0;
        for row in self.words.iter_mut() {
            count += close_row(row);
        }
        count
    }

    /// What a client learns of a watch that it began.
    pub fn poll(&self, _lane: u32, watch: WatchId) -> WatchPoll
        requires watch { IsWithin self.now watch }
        requires armed { word_at self.now watch ≢ WatchWord.Vacant }
        ensures { result ≡ polled (word_at self.now watch) }
    {
        match self.word(watch) {
            WatchWord::Answered { version, .. } => WatchPoll::Answered { version },
            WatchWord::Timed { reading } => WatchPoll::Timed { reading },
            WatchWord::Closed => WatchPoll::Closed,
            WatchWord::Vacant | WatchWord::Waiting { .. } => WatchPoll::NotYet,
        }
    }

    /// Whether a watch waits on a node.
    pub fn waiting(&self, node: u32, watch: WatchId) -> bool
        requires { IsWithin self.now watch }
        ensures { result ≡ waits_on node (word_at self.now watch) }
    {
        match self.word(watch) {
            WatchWord::Waiting { node: here, .. } => here == node,
            WatchWord::Vacant
            | WatchWord::Answered { .. }
            | WatchWord::Timed { .. }
            | WatchWord::Closed => false,
        }
    }

    /// A node answers a watch by a state of this version. It wins exactly where the watch waits; else nothing changes.
    pub fn answer(&mut self, node: u32, watch: WatchId, version: u64) -> AnswerTry
        requires watch { IsWithin self.old watch }
        requires open { IsTrue (can_answer node (word_at self.old watch)) }
        requires version { version < 2 ^ 32 }
        ensures answer { result ≡ answer_of (word_at self.old watch) }
        ensures table { self.new ≡ with_word watch (answered_word node version (word_at self.old watch)) self.old }
    {
        match self.word(watch) {
            WatchWord::Waiting { .. } => {
                self.put(watch, WatchWord::Answered { node, version });
                AnswerTry::Won
            }
            WatchWord::Timed { reading } => AnswerTry::Timed { reading },
            WatchWord::Vacant | WatchWord::Answered { .. } | WatchWord::Closed => {
                AnswerTry::Closed
            }
        }
    }

    /// How far a watch is.
    pub fn word(&self, watch: WatchId) -> WatchWord
        requires { IsWithin self.now watch }
        ensures { result ≡ word_at self.now watch }
    {
        match self.words[watch.client as usize].get(watch.step as usize) {
            Some(word) => *word,
            None => WatchWord::Vacant,
        }
    }

    // Sets the word of a watch.
    fn put(&mut self, watch: WatchId, word: WatchWord)
        requires { IsWithin self.old watch }
        ensures { self.new ≡ with_word watch word self.old }
    {
        self.words[watch.client as usize].set(watch.step as usize, word);
    }
}

// The words of a lane with nothing begun.
fn vacant_words(alloc: Global, steps: u32) -> Result<Items<WatchWord>, OutOfMemory>
    ensures { IfOk result (λ made. made ≡ vacant_lane steps) }
{
    Ok(Items::from_vec(vec![in alloc; WatchWord::Vacant; steps as usize]?))
}

// Ends each watch of a lane that waits. How many these were.
fn close_row(row: &mut Items<WatchWord>) -> u32
    requires { length row.old < 2 ^ 18 }
    ensures count { result ≡ count_by is_waiting row.old }
    ensures words { row.new ≡ map closed_word row.old }
{
    let mut count: u32 = 0;
    for step in 0..row.len() {
        if close_at(row, step) {
            count += 1;
        }
    }
    count
}

// Ends the watch of a step where it waits. Whether it did.
fn close_at(row: &mut Items<WatchWord>, step: usize) -> bool
    requires { step < length row.old }
    ensures waited { result ≡ is_waiting (get_or row.old step WatchWord.Vacant) }
    ensures words { row.new ≡ set row.old step (closed_word (get_or row.old step WatchWord.Vacant)) }
{
    let waits = matches!(row.as_slice()[step], WatchWord::Waiting { .. });
    if waits {
        row.set(step, WatchWord::Closed);
    }
    waits
}
