ghost use Rattle.std.specs.Prelude.{◌≡◌, IfOk, replicate};
ghost use Rattle.task_words.specs.Words.{vacant_lane};

use crate::answers::{Acquired, Expiry, TaskPoll};
use crate::end_codes::EndCode;
use crate::lane_faults::LaneFull;
use crate::words::Word;
use plain_data::{Items, OutOfMemory};
use scripts::TaskId;
use std::alloc::Global;
use std::marker::Model;

/// The words of tasks for one thread: a word for each step of each client, whose words are its lane; a size word for
/// each queue; and a stop word. Every answer is exact. A call names the lane that makes it, which this form doesn't
/// need.
#[derive(Drop)]
pub struct PlainTasks {
    words: Vec<Items<Word>>,
    sizes: Items<u32>,
    stopped: bool,
}

impl Model for PlainTasks {
    ghost use Rattle.task_words.specs.Words.{TaskTable};

    ghost Value = { TaskTable };

    ghost view = { λ t. record { words = t.words.items; sizes = t.sizes; stopped = t.stopped } };
}

impl PlainTasks {
    ghost use Rattle.std.specs.Prelude.{◌≡◌, ◌≢◌, ◌<◌, ◌≤◌, ◌+◌, ◌-◌, ◌^◌, ◌↔◌, ◌==◌, true, length, IfOk, IsTrue, OnErr, OnOk, sum};
    ghost use Rattle.scripts.specs.declared.task_id.TaskId.{TaskId};
    ghost use Rattle.task_words.specs.declared.end_codes.Outcome.{Outcome};
    ghost use Rattle.task_words.specs.declared.words.Word.{Word};
    ghost use Rattle.task_words.specs.Words.{acquired_by, expiry_of, is_open, is_with, IsWithin, lane_of, polled, size_of, taken_by, timed_by, vacant_table, waits_until, with_size, with_word, word_at};

    /// The words for lanes of these lengths and for so many queues, with nothing submitted. No later call takes memory.
    pub fn create(alloc: Global, lanes: &[u32], queues: u32) -> Result<PlainTasks, OutOfMemory>
        requires { sum lanes.now < 2 ^ 18 }
        ensures { IfOk result (λ made. made ≡ vacant_table lanes.now queues) }
    {
        let mut words = Vec::new(alloc);
        for steps in lanes {
            words.push(vacant_words(alloc, *steps)?)?;
        }
        Ok(PlainTasks {
            words,
            sizes: zero_sizes(alloc, queues)?,
            stopped: false,
        })
    }

    /// A client submits the task of its step: the word is queued, with the batches that the client had awaited, and
    /// with the deadline in milliseconds. Where the lane has no word for the step, nothing changes.
    pub fn queued(
        &mut self,
        lane: u32,
        step: u32,
        seen: u32,
        deadline: u64,
    ) -> Result<TaskId, LaneFull>
        requires lane { lane < length self.old.words }
        requires vacant { word_at self.old (record { client = lane; step = step }) ≡ Word.Vacant }

        // It is refused exactly where the lane has no word for the step.
        ensures full { OnErr result (length (lane_of self.old lane) ≤ step) }
        ensures within { OnOk result (step < length (lane_of self.old lane)) }
        ensures id { IfOk result (λ id. id ≡ record { client = lane; step = step }) }
        ensures word { OnOk result (self.new ≡ with_word (record { client = lane; step = step }) (Word.Queued seen deadline) self.old) }
        ensures err { OnErr result (self.new ≡ self.old) }
    {
        if self.words[lane as usize].len() <= step as usize {
            return Err(LaneFull);
        }
        let id = TaskId { client: lane, step };
        self.put(id, Word::Queued { seen, deadline });
        Ok(id)
    }

    /// A client tells a queue of a task that it submitted there. Whether it is the first since the size was covered.
    pub fn announce(&mut self, _lane: u32, queue: u32) -> bool
        requires lane { _lane < length self.old.words }
        requires queue { queue < length self.old.sizes }
        requires room { size_of self.old queue < 2 ^ 32 - 1 }
        ensures first { result ≡ (size_of self.old queue == 0) }
        ensures size { self.new ≡ with_size queue (size_of self.old queue + 1) self.old }
    {
        let size = self.size(queue);
        self.sizes.set(queue as usize, size + 1);
        size == 0
    }

    /// Lets a task time out, at a reading in milliseconds, where it waits and its deadline is at most the reading. Any
    /// lane may ask.
    pub fn expire(&mut self, _lane: u32, id: TaskId, reading: u64) -> Expiry
        requires lane { _lane < length self.old.words }
        requires id { IsWithin self.old id }
        ensures answer { result ≡ expiry_of reading (word_at self.old id) }
        ensures table { self.new ≡ timed_by reading id result self.old }
    {
        match self.word(id) {
            Word::Vacant => Expiry::Vacant,
            Word::Queued { deadline, .. } => self.expire_queued(id, deadline, reading),
            Word::Taken { batch, .. } => Expiry::Taken { batch },
            Word::Ended { code } => Expiry::Ended { code },
            Word::Timed { reading } => Expiry::AlreadyTimed { reading },
        }
    }

    // The same of a task that waits until this deadline.
    fn expire_queued(&mut self, id: TaskId, deadline: u64, reading: u64) -> Expiry
        requires id { IsWithin self.old id }
        requires waits { IsTrue (waits_until deadline (word_at self.old id)) }
        ensures answer { result ≡ expiry_of reading (word_at self.old id) }
        ensures table { self.new ≡ timed_by reading id result self.old }
    {
        if reading < deadline {
            return Expiry::NotDue { deadline };
        }
        self.put(id, Word::Timed { reading });
        Expiry::Won
    }

    /// What a client learns of a task that it submitted.
    pub fn poll(&self, _lane: u32, id: TaskId) -> TaskPoll
        requires lane { _lane < length self.now.words }
        requires id { IsWithin self.now id }
        requires submitted { word_at self.now id ≢ Word.Vacant }
        ensures { result ≡ polled (word_at self.now id) }
    {
        match self.word(id) {
            Word::Ended { code } => TaskPoll::Ended { code },
            Word::Timed { reading } => TaskPoll::Timed { reading },
            Word::Vacant | Word::Queued { .. } | Word::Taken { .. } => TaskPoll::NotYet,
        }
    }

    /// A client lets the master stop.
    pub fn stop(&mut self, _lane: u32)
        requires lane { _lane < length self.old.words }
        ensures { self.new ≡ record self.old { stopped = true } }
    {
        self.stopped = true;
    }

    /// Whether the master is to stop.
    pub fn stopped(&self) -> bool
        ensures { result ≡ self.now.stopped }
    {
        self.stopped
    }

    /// Takes the size of a queue, for a batch that covers so many tasks: the size is 0 then.
    pub fn cover(&mut self, queue: u32) -> u32
        requires queue { queue < length self.old.sizes }
        ensures size { result ≡ size_of self.old queue }
        ensures table { self.new ≡ with_size queue 0 self.old }
    {
        let size = self.size(queue);
        self.sizes.set(queue as usize, 0);
        size
    }

    /// A batch takes a task, where it waits. The batch is 0 for the close at the end.
    pub fn acquire(&mut self, id: TaskId, batch: u32) -> Acquired
        requires id { IsWithin self.old id }
        requires open { IsTrue (is_open (word_at self.old id)) }
        ensures answer { result ≡ acquired_by (word_at self.old id) }
        ensures table { self.new ≡ taken_by batch id result self.old }
    {
        match self.word(id) {
            Word::Queued { seen, .. } => {
                self.put(id, Word::Taken { seen, batch });
                Acquired::Mine { seen }
            }
            Word::Timed { reading } => Acquired::Timed { reading },
            Word::Vacant | Word::Taken { .. } | Word::Ended { .. } => Acquired::Vacant,
        }
    }

    /// Ends a task that the code's batch has.
    pub fn end(&mut self, id: TaskId, code: EndCode)
        requires id { IsWithin self.old id }
        requires taken { IsTrue (is_with code.batch (word_at self.old id)) }
        requires closed { code.outcome ≡ Outcome.Closed ↔ code.batch ≡ 0 }
        requires stopped { code.batch ≡ 0 → self.old.stopped ≡ true }
        ensures { self.new ≡ with_word id (Word.Ended code) self.old }
    {
        self.put(id, Word::Ended { code });
    }

    /// How far a task is.
    pub fn word(&self, id: TaskId) -> Word
        requires { IsWithin self.now id }
        ensures { result ≡ word_at self.now id }
    {
        match self.words[id.client as usize].get(id.step as usize) {
            Some(word) => *word,
            None => Word::Vacant,
        }
    }

    // Sets the word of a task.
    fn put(&mut self, id: TaskId, word: Word)
        requires { IsWithin self.old id }
        ensures { self.new ≡ with_word id word self.old }
    {
        self.words[id.client as usize].set(id.step as usize, word);
    }

    // The size of a queue.
    fn size(&self, queue: u32) -> u32
        requires { queue < length self.now.sizes }
        ensures { result ≡ size_of self.now queue }
    {
        self.sizes.as_slice()[queue as usize]
    }
}

// The words of a lane with nothing submitted.
fn vacant_words(alloc: Global, steps: u32) -> Result<Items<Word>, OutOfMemory>
    ensures { IfOk result (λ made. made ≡ vacant_lane steps) }
{
    Ok(Items::from_vec(vec![in alloc; Word::Vacant; steps as usize]?))
}

// The sizes of so many queues that nobody told of a task.
fn zero_sizes(alloc: Global, queues: u32) -> Result<Items<u32>, OutOfMemory>
    ensures { IfOk result (λ made. made ≡ replicate queues 0) }
{
    Ok(Items::from_vec(vec![in alloc; 0; queues as usize]?))
}
