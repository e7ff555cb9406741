ghost use Rattle.std.specs.Prelude.{◌≡◌, ◌<◌, ◌^◌, ◌++◌, [], ◌∷◌, IfOk, MatchResult, OnErr, OnOk, Some, length, map, slice_get};
ghost use Rattle.scripts.specs.Scripts.{IsScript};
ghost use Rattle.session_law.specs.BatchSteps.{batch_step};
ghost use Rattle.session_law.specs.Histories.{IsOrdered, tasks_at};
ghost use Rattle.master_run.specs.Books.{CanJoin, CanJoinAt, IsAdded, IsKeptBook, first_book, input_at, last_entries, noted, plan_for};
ghost use Rattle.master_run.specs.Reaches.{IsReached, cut_off};
ghost use Rattle.master_run.specs.Sendings.{AreLinksOf, HaveRoom, IsDecided};

use crate::conclusions::conclude;
use crate::first_worlds::open_world;
use crate::plans::{Plan, Planned, plan_batch};
use crate::sendings::{Sent, send_plan};
use edge_io::Clock;
use meta_state::ClusterState;
use plain_data::{Items, OutOfMemory};
use publication::Link;
use scripts::{QueueSpec, Script};
use session_law::{Batch, BatchResult, Entry, TaskEnd, World};
use std::alloc::Global;
use std::marker::Model;

/// The master's book of a script: its batches, how the tasks of the last one ended, and the world after them. Whatever
/// its links do, no node has a state that wasn't proposed, or another than the current one of the current identifier,
/// and its counters are bounded by its tasks. After want of memory in `add` the session is to be given up.
#[derive(Drop)]
pub struct Book {
    alloc: Global,
    batches: Items<Batch>,
    ends: Items<TaskEnd>,
    world: World,
}

/// What a book holds in the end.
#[derive(Debug, Drop)]
pub struct BookEnd {
    pub batches: Items<Batch>,

    /// The state after all batches.
    pub last: ClusterState,
}

impl Model for Book {
    ghost use Rattle.master_run.specs.Books.{Chronicle};
    ghost use Rattle.master_run.specs.Ledgers.{IsLedger};

    ghost Value = { Chronicle };

    ghost view = { λ b. record { batches = b.batches; ends = b.ends; world = b.world } };

    ghost invariant = { λ b. IsLedger b.batches b.world };
}

impl Book {
    /// The book of a script before its first batch.
    pub fn first(alloc: Global, script: &Script) -> Result<Book, OutOfMemory>
        ensures first { IfOk result (λ made. made ≡ first_book script.now) }
        ensures kept { IfOk result (IsKeptBook script.now) }
    {
        let world = open_world(alloc, script)?;
        Ok(Book {
            alloc,
            batches: Items::new(alloc),
            ends: Items::new(alloc),
            world,
        })
    }

    /// Adds the batch of a queue of the script, by its number, that takes these entries at a moment, in milliseconds.
    /// Where its executor makes a changed state, this is published over the links, of which there is one for each node of
    /// the script, in its order, each with room for a commit; and the clock is read once where it commits. A node is
    /// taken as unreachable where it was sent the state and its link's `receive` failed. With the new batch the entries
    /// of the book have to be in order.
    pub fn add<L: Link, C: Clock>(
        &mut self,
        script: &Script,
        queue: u32,
        entries: Vec<Entry>,
        at: u64,
        links: &mut [L],
        clock: &C,
    ) -> Result<(), OutOfMemory>
        requires script { IsScript script.now }
        requires order { IsOrdered script.now self.old.batches }
        requires joins { CanJoinAt script.now self.old queue entries.items }
        requires links { AreLinksOf script.now.nodes self.old.world (map L.meaning links.old) }
        requires room { HaveRoom (map L.meaning links.old) }
        ensures added { OnOk result (IsAdded script.now queue entries.items at (C.may_read clock.now) (map L.meaning links.old) (map L.meaning links.new) self.old self.new) }
        ensures order { OnOk result (IsOrdered script.now self.new.batches) }
        ensures links { OnOk result (AreLinksOf script.now.nodes self.new.world (map L.meaning links.new)) }
    {
        let queue = queue_at(script, queue);
        let planned = plan_batch(self.alloc, script, &self.world, queue, &entries)?;
        let sent = send_plan(self.alloc, &self.world, &planned, links, clock);
        self.note(script, queue, entries, at, planned, sent)
    }

    // The batch is noted, by its plan and by what was sent for it.
    fn note(
        &mut self,
        script: &Script,
        queue: &QueueSpec,
        entries: Vec<Entry>,
        at: u64,
        planned: Planned,
        sent: Result<Sent, OutOfMemory>,
    ) -> Result<(), OutOfMemory>
        requires script { IsScript script.now }
        requires order { IsOrdered script.now self.old.batches }
        requires joins { CanJoin script.now self.old queue.now entries.items }
        requires plan { planned.plan ≡ plan_for script.now queue.now entries.items self.old.world }
        requires decided { IfOk sent (λ sent. IsDecided sent planned.plan) }
        requires reached { IfOk sent (λ sent. IsReached script.now.nodes self.old.world sent.delivery.answers planned.plan) }
        ensures { OnOk result (MatchResult sent (λ sent. self.new ≡ noted self.old queue.now entries.items at (batch_step (input_at (cut_off script.now.nodes sent.delivery.answers) script.now queue.now entries.items sent.commit) self.old.world)) (λ _. ⊥)) }
    {
        let made = conclude(
            self.alloc,
            script,
            &self.world,
            queue,
            &entries,
            planned,
            sent,
        )?;
        match push_batch(&mut self.batches, queue, entries, at, made.stepped.result) {
            Err(fault) => {
                made.close();
                Err(fault)
            }
            Ok(()) => {
                made.put_into(&mut self.ends, &mut self.world);
                Ok(())
            }
        }
    }

    /// How the tasks of the last batch ended, in order.
    pub fn ends(&self) -> &[TaskEnd]
        ensures { result.now ≡ self.now.ends }
    {
        self.ends.as_slice()
    }

    /// The entries of the last batch; none where there is none.
    pub(crate) fn last_entries(&self) -> &[Entry]
        ensures { result.now ≡ last_entries self.now.batches }
    {
        match self.batches.as_slice().last() {
            None => &[],
            Some(batch) => batch.entries.as_slice(),
        }
    }

    /// The world after the batches.
    pub fn world(&self) -> &World
        ensures { result.now ≡ self.now.world }
    {
        &self.world
    }

    /// How many batches there are.
    pub(crate) fn count(&self) -> u32
        requires { length self.now.batches < 2 ^ 32 }
        ensures { result ≡ length self.now.batches }
    {
        self.batches.len() as u32
    }

    /// The batches and the state after them. It takes no memory.
    pub fn finish(self) -> BookEnd
        ensures batches { result.batches ≡ self.batches }
        ensures last { result.last ≡ self.world.state }
    {
        let Book {
            alloc: _,
            batches,
            ends: _,
            world,
        } = self;
        BookEnd {
            batches,
            last: world.state,
        }
    }
}

/// Notes a batch of a queue. Want of memory leaves the batches as they were.
fn push_batch(
    batches: &mut Items<Batch>,
    queue: &QueueSpec,
    entries: Vec<Entry>,
    at: u64,
    outcome: BatchResult,
) -> Result<(), OutOfMemory>
    ensures ok { OnOk result (batches.new ≡ batches.old ++ record { queue = queue.now.name; at = at; entries = entries.items; result = outcome } ∷ []) }
    ensures err { OnErr result (batches.new ≡ batches.old) }
{
    batches.push(Batch {
        queue: queue.name.copy()?,
        at,
        entries: Items::from_vec(entries),
        result: outcome,
    })?;
    Ok(())
}

/// The queue of a number.
#[tactic(auto, using(std::proofs::lemmas::Option::slice_get_read))]
fn queue_at(script: &Script, number: u32) -> &QueueSpec
    requires { number < length script.now.queues }
    ensures { slice_get script.now.queues number ≡ Some result.now }
{
    &script.queues.as_slice()[number as usize]
}
