ghost use Rattle.std.specs.Prelude.{◌≡◌, ◌≤◌, [], length, vec_capacity};
ghost use Rattle.master_intake.specs.Intakes.{ids_of};

use crate::entries::{Submission, Taken, Waiting, WaitingTask};
use crate::parts::{note, part};
use crate::refusals::{IntakeRefusal, NotSubmitted};
use crate::urgencies::{next_turn, priorities_of};
use plain_data::{Items, OutOfMemory};
use scripts::{Priority, QueueSpec, TaskId};
use std::alloc::Global;
use std::marker::Model;
use std::mem;
use task_words::PlainTasks;

/// The waiting list: the tasks that were submitted and not taken yet, in the order of submission, those that timed out
/// too. Which queue is next is found in the time of the number of queues; to take it costs a walk over all that waits.
#[derive(Drop)]
pub struct WaitList {
    alloc: Global,
    priorities: Items<Priority>,
    waiting: Vec<Waiting>,

    // The queues where something waits, in the order of their first entries.
    turns: Vec<u32>,

    // Room for the names of all that waits.
    room: Vec<TaskId>,
}

impl Model for WaitList {
    ghost use Rattle.std.specs.Prelude.{vec_capacity};
    ghost use Rattle.master_intake.specs.Intakes.{WaitTable};
    ghost use Rattle.master_intake.specs.Turns.{IsKept};

    ghost Value = { WaitTable };

    ghost view = { λ l. record { priorities = l.priorities; waiting = l.waiting.items } };

    ghost invariant = { λ l. IsKept l.priorities l.waiting.items l.turns.items l.room.items (vec_capacity l.room) };
}

impl WaitList {
    ghost use Rattle.std.specs.Prelude.{◌≡◌, ◌<◌, ◌≤◌, ◌-◌, ◌+◌, ◌^◌, [], ◌∷◌, ◌++◌, length, IfErr, IfOk, IfSome, None, OnErr, OnOk};
    ghost use Rattle.task_words.specs.declared.words.Word.{Word};
    ghost use Rattle.task_words.specs.Words.{size_of, with_size, with_word, word_at};
    ghost use Rattle.master_intake.specs.Intakes.{batch_of, covered_by, ids_of, left_after, not_submitted, refusal_of, with_entry};
    ghost use Rattle.master_intake.specs.Waitings.{entries_of, left_by, next_queue, priorities_of, taken_from};

    /// A list for these queues, in which nothing waits.
    pub fn create(alloc: Global, queues: &[QueueSpec]) -> Result<WaitList, OutOfMemory>
        ensures { IfOk result (λ made. made ≡ record { priorities = priorities_of queues.now; waiting = [] }) }
    {
        Ok(WaitList {
            alloc,
            priorities: priorities_of(alloc, queues)?,
            waiting: Vec::new(alloc),
            turns: Vec::new(alloc),
            room: Vec::new(alloc),
        })
    }

    /// How many tasks wait.
    pub fn count(&self) -> usize
        ensures { result ≡ length self.now.waiting }
    {
        self.waiting.len()
    }

    /// What waits, in the order of submission.
    pub fn waiting(&self) -> &[Waiting]
        ensures { result.now ≡ self.now.waiting }
    {
        self.waiting.as_slice()
    }

    /// A client submits a task to a queue: its word is queued, its queue is told of it, and it stands at the end of
    /// what waits. It is refused where the master is to stop and where the client's lane has no word for the step;
    /// both change nothing and give the task back. Want of memory leaves what waits as it was.
    pub fn submit(
        &mut self,
        tasks: &mut PlainTasks,
        lane: u32,
        submission: Submission,
    ) -> Result<TaskId, NotSubmitted>
        requires lane { lane < length tasks.old.words }
        requires vacant { word_at tasks.old (record { client = lane; step = submission.step }) ≡ Word.Vacant }
        requires queue { submission.queue < length self.old.priorities }
        requires size { submission.queue < length tasks.old.sizes }
        requires room { size_of tasks.old submission.queue < 2 ^ 32 - 1 }

        // It is submitted only where nothing speaks against it, and each refusal is for the cause that there is.
        ensures allowed { OnOk result (refusal_of tasks.old lane submission.step ≡ None) }
        ensures refused { IfErr result (λ e. e ≡ not_submitted (refusal_of tasks.old lane submission.step) submission.task) }
        ensures id { IfOk result (λ id. id ≡ record { client = lane; step = submission.step }) }
        ensures waiting { OnOk result (self.new ≡ with_entry submission.queue (record { id = record { client = lane; step = submission.step }; task = submission.task }) self.old) }
        ensures tasks { OnOk result (tasks.new ≡ with_size submission.queue (size_of tasks.old submission.queue + 1) (with_word (record { client = lane; step = submission.step }) (Word.Queued submission.seen submission.deadline) tasks.old)) }
        ensures err { OnErr result (self.new ≡ self.old) }
        ensures err_tasks { IfSome (refusal_of tasks.old lane submission.step) (λ _. tasks.new ≡ tasks.old) }
    {
        let Submission {
            step,
            queue,
            task,
            seen,
            deadline,
        } = submission;
        if tasks.stopped() {
            return Err(NotSubmitted {
                why: IntakeRefusal::Closed,
                task: Some(task),
            });
        }
        let id = match tasks.queued(lane, step, seen, deadline) {
            Ok(id) => id,
            Err(_) => {
                return Err(NotSubmitted {
                    why: IntakeRefusal::LaneFull,
                    task: Some(task),
                });
            }
        };
        let _first = tasks.announce(lane, queue);
        match self.add(queue, WaitingTask { id, task }) {
            Ok(()) => Ok(id),
            Err(_) => Err(NotSubmitted {
                why: IntakeRefusal::OutOfMemory,
                task: None,
            }),
        }
    }

    // Adds an entry at the end of what waits.
    fn add(&mut self, queue: u32, entry: WaitingTask) -> Result<(), OutOfMemory>
        requires { queue < length self.old.priorities }
        ensures ok { OnOk result (self.new ≡ with_entry queue entry self.old) }
        ensures err { OnErr result (self.new ≡ self.old) }
    {
        let count = self.waiting.len();
        self.waiting.try_reserve(1)?;
        self.room.try_reserve(count + 1)?;
        note(&mut self.turns, queue)?;
        // The memory for it was taken above.
        if self.waiting.push(Waiting { queue, entry }).is_err() {
            unreachable!()
        }
        Ok(())
    }

    /// Takes all that waits in the queue that is served next, and covers the queue's size; none where nothing waits.
    /// Want of memory leaves the sizes as they were, and nothing that waits.
    pub fn take(&mut self, tasks: &mut PlainTasks) -> Result<Option<Taken>, OutOfMemory>
        requires { length self.old.priorities ≤ length tasks.old.sizes }
        ensures taken { IfOk result (λ made. made ≡ batch_of self.old) }
        ensures left { OnOk result (self.new ≡ left_after self.old) }
        ensures covered { OnOk result (tasks.new ≡ covered_by (next_queue self.old.priorities self.old.waiting) tasks.old) }
        ensures err { OnErr result (self.new ≡ record self.old { waiting = [] }) }
        ensures err_tasks { OnErr result (tasks.new ≡ tasks.old) }
    {
        let Some(queue) = self.next() else {
            return Ok(None);
        };
        let waiting = self.take_from(queue)?;
        let _size = tasks.cover(queue);
        Ok(Some(Taken { queue, waiting }))
    }

    // The queue that is served next; none where nothing waits.
    fn next(&self) -> Option<u32>
        ensures next { result ≡ next_queue self.now.priorities self.now.waiting }
        ensures known { IfSome result (λ queue. queue < length self.now.priorities) }
    {
        next_turn(self.priorities.as_slice(), self.turns.as_slice())
    }

    // Takes all that waits in a queue. Want of memory leaves nothing that waits.
    fn take_from(&mut self, queue: u32) -> Result<Items<WaitingTask>, OutOfMemory>
        ensures taken { IfOk result (λ made. made ≡ entries_of (taken_from queue self.old.waiting)) }
        ensures left { OnOk result (self.new ≡ record self.old { waiting = left_by queue self.old.waiting }) }
        ensures err { OnErr result (self.new ≡ record self.old { waiting = [] }) }
    {
        let all = mem::replace(&mut self.waiting, Vec::new(self.alloc));
        match part(self.alloc, all, queue) {
            Ok(parted) => {
                self.turns.retain(|turn| *turn != queue);
                self.waiting = parted.left;
                Ok(parted.taken)
            }
            Err(error) => {
                self.turns.clear();
                Err(error)
            }
        }
    }

    /// Empties the list, and tells which tasks waited, in the order of submission. It takes no memory.
    pub fn drain(&mut self) -> Items<TaskId>
        ensures ids { result ≡ ids_of self.old.waiting }
        ensures left { self.new ≡ record self.old { waiting = [] } }
    {
        let all = mem::replace(&mut self.waiting, Vec::new(self.alloc));
        let room = mem::replace(&mut self.room, Vec::new(self.alloc));
        self.turns.clear();
        ids_in(room, all)
    }
}

// Fills an empty list with the names of all that waits. It has room for them, so that no memory is taken.
fn ids_in(room: Vec<TaskId>, all: Vec<Waiting>) -> Items<TaskId>
    requires none { room.items ≡ [] }
    requires fits { length all.items ≤ vec_capacity room }
    ensures { result ≡ ids_of all.items }
{
    let mut ids = room;
    for waiting in all {
        if ids.push(waiting.entry.id).is_err() {
            unreachable!()
        }
    }
    Items::from_vec(ids)
}
