ghost use Rattle.std.specs.Prelude.{◌≡◌, ◌<◌, [], false, IfOk, IsTrue, List, OnOk, ◌≤◌, length, map, slice_index_or};
ghost use Rattle.std.specs.Option.{option_copied};
ghost use Rattle.scripts.specs.Scripts.{IsScript};
ghost use Rattle.session_law.specs.Histories.{IsOrdered, step_at};
ghost use Rattle.session_law.specs.Worlds.{first_world};
ghost use Rattle.node_apply.specs.NodeLinks.{NodeLinkView};
ghost use Rattle.master_intake.specs.Waitings.{priorities_of};
ghost use Rattle.ack_words.specs.Acks.{word_at, word_poll};
ghost use Rattle.master_run.specs.AckBooks.{CanCount, IsAckBook, ack_number, is_in_lane, is_not_yet, new_acks, pruned};
ghost use Rattle.master_run.specs.Appliers.{AreNodesOf, courses_of};
ghost use Rattle.master_run.specs.Books.{CanJoinAt, added, last_entries, last_stepped};
ghost use Rattle.master_run.specs.Courses.{first_course, lanes_of, next_at, zeros_of};
ghost use Rattle.master_run.specs.Linked.{AreUsed};
ghost use Rattle.master_run.specs.NodeEnds.{links_for, room_for};
ghost use Rattle.master_run.specs.Nodes.{handed_each};
ghost use Rattle.master_run.specs.Passing.{ArePassed, AreTold, meanings_of};
ghost use Rattle.master_run.specs.Sendings.{AreLinksOf};
ghost use Rattle.master_run.specs.Serials.{after_turn, at_clock, client_turn, first_serial, follow, master_turn, node_number, node_turn, node_turns, play, round_turns, turn_at, turn_of};
ghost use Rattle.master_run.specs.Sessions.{session_of};
ghost use Rattle.master_run.specs.Replays.{AreEnds, CanAwait, CanSleep, CanStep, CanSubmit, HasCounted, IsOverLinks, IsSound, ack_awaited_in, answered_in, awaited_in, code_polled, counted_in, course_of, moved_in, poll_told, seen_in, serial_of, slept_in, submitted_in, times_of};

use crate::acknowledgements::{Acknowledgements, Times};
use crate::applier_lists::{apply_at, finish_all};
use crate::books::{Book, BookEnd};
use crate::endings::{deadline_of, due};
use crate::moments::Moments;
use crate::node_openings::{NodeEnds, open_ends};
use crate::passing::pass_all;
use crate::replies::{collect, collect_acks};
use crate::servings::{end_all, expire_all, gather};
use ack_words::AckPoll;
use edge_io::Frozen;
use executors::Task;
use master_intake::{Submission, Taken, WaitList};
use node_apply::{NodeApplier, NodeLink};
use plain_data::{Items, OutOfMemory, Text};
use publication::Link;
use scripts::{Goal, Script, ScriptTurn, Step, TaskId};
use session_law::{Entry, Session};
use std::alloc::Global;
use task_words::{EndCode, Outcome, PlainTasks, TaskPoll};

/// How far a replay of a script has come.
#[derive(Drop)]
pub(crate) struct Replay {
    book: Book,
    waiting: WaitList,
    tasks: PlainTasks,
    ats: Moments,

    /// The number of each client's next step.
    positions: Items<u32>,

    /// For each client the greatest number of a batch that holds a task whose end it has awaited; 0 if none.
    awaited: Items<u32>,

    /// The nodes of the script, in its order.
    nodes: Vec<NodeApplier>,
    acks: Acknowledgements,

    /// The clock, in milliseconds.
    clock: u64,
}

impl Replay {
    /// The replay of a script before its first turn, and the links to its nodes.
    pub(crate) fn first(
        alloc: Global,
        script: &Script,
    ) -> Result<(Replay, Vec<NodeLink>), OutOfMemory>
        requires { IsScript script.now }
        ensures first { IfOk result (λ made. serial_of made.0 ≡ first_serial script.now) }
        ensures sound { IfOk result (λ made. IsSound script.now made.0) }
        ensures acks { IfOk result (λ made. HasCounted script.now made.0) }
        ensures links { IfOk result (λ made. made.1.items ≡ links_for (room_for script.now) script.now.nodes (first_world script.now).nodes) }
    {
        let mut replay = Replay::unopened(alloc, script)?;
        let NodeEnds { links, appliers } = open_ends(alloc, script, replay.book.world())?;
        replay.nodes = appliers;
        Ok((replay, links))
    }

    // That replay, whose nodes aren't opened yet.
    fn unopened(alloc: Global, script: &Script) -> Result<Replay, OutOfMemory>
        requires { IsScript script.now }
        ensures first { IfOk result (λ made. serial_of made ≡ at_clock 0 (record (first_course script.now) { nodes = [] })) }
        ensures priorities { IfOk result (λ made. made.waiting.priorities ≡ priorities_of script.now.queues) }
        ensures acks { IfOk result (λ made. made.acks ≡ new_acks (lanes_of script.now) (length script.now.nodes)) }
    {
        let lanes = lanes_of(alloc, script)?;
        let positions = zeros(alloc, script)?;
        let awaited = zeros(alloc, script)?;
        let ats = Moments::create(alloc, lanes.as_slice())?;
        let tasks = PlainTasks::create(alloc, lanes.as_slice(), script.queues.len() as u32)?;
        let waiting = WaitList::create(alloc, script.queues.as_slice())?;
        let book = Book::first(alloc, script)?;
        let acks = Acknowledgements::create(alloc, lanes, script.nodes.len() as u32)?;
        Ok(Replay {
            book,
            waiting,
            tasks,
            ats,
            positions,
            awaited,
            nodes: Vec::new(alloc),
            acks,
            clock: 0,
        })
    }

    /// The turns of the script's schedule.
    pub(crate) fn follow(
        &mut self,
        alloc: Global,
        script: &Script,
        links: &mut [NodeLink],
    ) -> Result<(), OutOfMemory>
        requires script { IsScript script.now }
        requires sound { IsSound script.now self.old }
        requires acks { HasCounted script.now self.old }
        requires ends { AreEnds script.now self.old links.old }
        ensures turns { OnOk result (serial_of self.new ≡ follow script.now script.now.schedule (serial_of self.old)) }
        ensures sound { OnOk result (IsSound script.now self.new) }
        ensures acks { OnOk result (HasCounted script.now self.new) }
        ensures ends { OnOk result (AreEnds script.now self.new links.new) }
    {
        for turn in script.schedule.as_slice() {
            let _acted = self.turn(alloc, script, links, turn)?;
        }
        Ok(())
    }

    /// One round: a turn for each client in order, one for the master, and one for each node in order. It answers whether a
    /// turn acted.
    pub(crate) fn round(
        &mut self,
        alloc: Global,
        script: &Script,
        links: &mut [NodeLink],
    ) -> Result<bool, OutOfMemory>
        requires script { IsScript script.now }
        requires sound { IsSound script.now self.old }
        requires acks { HasCounted script.now self.old }
        requires ends { AreEnds script.now self.old links.old }
        ensures round { IfOk result (λ acted. play script.now (round_turns script.now) (false, serial_of self.old) ≡ (acted, serial_of self.new)) }
        ensures sound { OnOk result (IsSound script.now self.new) }
        ensures acks { OnOk result (HasCounted script.now self.new) }
        ensures ends { OnOk result (AreEnds script.now self.new links.new) }
    {
        let mut acted = false;
        let mut client: u32 = 0;
        for _steps in script.clients.as_slice() {
            if self.client_turn(alloc, script, client)? {
                acted = true;
            }
            client += 1;
        }
        if self.master_turn(alloc, script, links)? {
            acted = true;
        }
        self.nodes_round(script, acted)
    }

    /// A turn: it answers whether it acted.
    fn turn(
        &mut self,
        alloc: Global,
        script: &Script,
        links: &mut [NodeLink],
        turn: &ScriptTurn,
    ) -> Result<bool, OutOfMemory>
        requires script { IsScript script.now }
        requires sound { IsSound script.now self.old }
        requires acks { HasCounted script.now self.old }
        requires ends { AreEnds script.now self.old links.old }
        ensures turn { IfOk result (λ acted. after_turn (false, serial_of self.old) (turn_of script.now turn.now (serial_of self.old)) ≡ (acted, serial_of self.new)) }
        ensures sound { OnOk result (IsSound script.now self.new) }
        ensures acks { OnOk result (HasCounted script.now self.new) }
        ensures ends { OnOk result (AreEnds script.now self.new links.new) }
    {
        match turn {
            ScriptTurn::Client(client) => self.client_turn(alloc, script, *client),
            ScriptTurn::Master => self.master_turn(alloc, script, links),
            ScriptTurn::Node(name) => self.node_turn(script, name),
        }
    }

    // ---- a client

    /// A client's turn.
    fn client_turn(
        &mut self,
        alloc: Global,
        script: &Script,
        client: u32,
    ) -> Result<bool, OutOfMemory>
        requires script { IsScript script.now }
        requires sound { IsSound script.now self.old }
        requires acks { HasCounted script.now self.old }
        ensures turn { IfOk result (λ acted. after_turn (false, serial_of self.old) (client_turn script.now client (serial_of self.old)) ≡ (acted, serial_of self.new)) }
        ensures sound { OnOk result (IsSound script.now self.new) }
        ensures acks { OnOk result (HasCounted script.now self.new) }
        ensures ends { OnOk result ((links : List NodeLinkView) → AreEnds script.now self.old links → AreEnds script.now self.new links) }
    {
        self.perform_next(alloc, script, client)
    }

    /// A client performs its next step, where that can act; it answers whether it did.
    fn perform_next(
        &mut self,
        alloc: Global,
        script: &Script,
        client: u32,
    ) -> Result<bool, OutOfMemory>
        requires script { IsScript script.now }
        requires sound { IsSound script.now self.old }
        requires acks { HasCounted script.now self.old }
        ensures turn { IfOk result (λ acted. after_turn (false, serial_of self.old) (client_turn script.now client (serial_of self.old)) ≡ (acted, serial_of self.new)) }
        ensures priorities { OnOk result (self.new.waiting.priorities ≡ self.old.waiting.priorities) }
        ensures nodes { OnOk result (self.new.nodes ≡ self.old.nodes) }
        ensures acks { OnOk result (HasCounted script.now self.new) }
    {
        match step_of(script, client, self.next_of(client)) {
            Some(
                Step::Submit {
                    queue,
                    task,
                    timeout,
                    ack: _,
                },
            ) => {
                self.submit(alloc, client, *queue, task, *timeout)?;
                Ok(true)
            }
            Some(
                Step::Await {
                    step,
                    goal: Goal::Task,
                },
            ) => Ok(self.await_task(client, *step)),
            Some(
                Step::Await {
                    step,
                    goal: Goal::Ack,
                },
            ) => Ok(self.await_ack(script, client, *step)),
            Some(Step::Sleep { ms }) => {
                self.sleep(client, *ms);
                Ok(true)
            }
            _ => Ok(false),
        }
    }

    /// The number of a client's next step; 0 where there is no such client.
    fn next_of(&self, client: u32) -> u32
        ensures { result ≡ next_at self.now.positions client }
    {
        number_at(&self.positions, client)
    }

    /// A client's next step was performed.
    fn step_on(&mut self, client: u32)
        requires { CanStep self.old client }
        ensures { self.new ≡ moved_in self.old client }
    {
        let step = self.next_of(client);
        self.positions.set(client as usize, step + 1);
    }

    /// A client's next step submits a task to a queue: it joins what waits.
    fn submit(
        &mut self,
        alloc: Global,
        client: u32,
        queue: u32,
        task: &Task,
        timeout: Option<u64>,
    ) -> Result<(), OutOfMemory>
        requires { CanSubmit self.old client queue }
        ensures { OnOk result (self.new ≡ submitted_in self.old client queue task.now timeout) }
    {
        let step = self.next_of(client);
        let submission = Submission {
            step,
            queue,
            task: task.copy(alloc)?,
            seen: number_at(&self.awaited, client),
            deadline: deadline_of(self.clock, timeout),
        };
        if self
            .waiting
            .submit(&mut self.tasks, client, submission)
            .is_err()
        {
            return Err(OutOfMemory);
        }
        self.ats.set(client, step, self.clock);
        self.step_on(client);
        Ok(())
    }

    /// A client's next step awaits the task of an earlier one: it is performed where the task has ended.
    fn await_task(&mut self, client: u32, earlier: u32) -> bool
        requires { CanAwait self.old client earlier }
        ensures turn { after_turn (false, serial_of self.old) (awaited_in self.old client earlier) ≡ (result, serial_of self.new) }
        ensures waiting { self.new.waiting ≡ self.old.waiting }
        ensures nodes { self.new.nodes ≡ self.old.nodes }
        ensures book { self.new.book ≡ self.old.book }
        ensures acks { self.new.acks ≡ self.old.acks }
    {
        let id = TaskId {
            client,
            step: earlier,
        };
        let batch = match self.tasks.poll(client, id) {
            TaskPoll::NotYet => return false,
            TaskPoll::Ended { code } => code.batch,
            TaskPoll::Timed { .. } => 0,
        };
        self.has_seen(client, batch);
        true
    }

    /// A client's next step awaits the acknowledgement of an earlier one: it is performed where the task has ended, and
    /// the acknowledgement too if the task's batch published a version.
    fn await_ack(&mut self, script: &Script, client: u32, earlier: u32) -> bool
        requires script { IsScript script.now }
        requires sound { IsSound script.now self.old }
        requires acks { HasCounted script.now self.old }
        requires can { CanAwait self.old client earlier }
        requires inside { IsTrue (is_in_lane self.old.acks.lanes client earlier) }
        ensures turn { after_turn (false, serial_of self.old) (ack_awaited_in script.now self.old client earlier) ≡ (result, serial_of self.new) }
        ensures waiting { self.new.waiting ≡ self.old.waiting }
        ensures nodes { self.new.nodes ≡ self.old.nodes }
        ensures book { self.new.book ≡ self.old.book }
        ensures acks { self.new.acks ≡ self.old.acks }
    {
        let id = TaskId {
            client,
            step: earlier,
        };
        let opened = self.is_open(client, earlier);
        match told_of(self.tasks.poll(client, id), opened) {
            None => false,
            Some(batch) => {
                self.has_seen(client, batch);
                true
            }
        }
    }

    /// Whether a client isn't told the end of the acknowledgement of its step yet.
    fn is_open(&self, client: u32, step: u32) -> bool
        requires { IsTrue (is_in_lane self.now.acks.lanes client step) }
        ensures { result ≡ is_not_yet (word_poll (word_at self.now.acks.words (ack_number self.now.acks.lanes client step))) }
    {
        matches!(self.acks.poll(client, step), AckPoll::NotYet)
    }

    /// A client has seen the end of a task of a batch, and is at its next step.
    fn has_seen(&mut self, client: u32, batch: u32)
        requires steps { CanStep self.old client }
        requires place { client < length self.old.awaited }
        ensures { self.new ≡ seen_in self.old client batch }
    {
        let greatest = number_at(&self.awaited, client).max(batch);
        self.awaited.set(client as usize, greatest);
        self.step_on(client);
    }

    /// A client's next step lets time pass: each task that waits times out whose deadline is there.
    fn sleep(&mut self, client: u32, ms: u64)
        requires { CanSleep self.old client ms }
        ensures slept { self.new ≡ slept_in self.old client ms }
        ensures known { IsAckBook self.old.acks }
    {
        self.step_on(client);
        self.clock = due(self.clock, ms);
        expire_all(&mut self.tasks, self.waiting.waiting(), self.clock);
        self.acks.expire_all(self.clock);
    }

    // ---- the master

    /// The master's turn: it takes all that waits in one queue, and what hasn't timed out is a batch. It does nothing where
    /// nothing waits. Acknowledgements of a batch begin to count as it commits.
    fn master_turn(
        &mut self,
        alloc: Global,
        script: &Script,
        links: &mut [NodeLink],
    ) -> Result<bool, OutOfMemory>
        requires script { IsScript script.now }
        requires sound { IsSound script.now self.old }
        requires acks { HasCounted script.now self.old }
        requires ends { AreEnds script.now self.old links.old }
        ensures turn { IfOk result (λ acted. after_turn (false, serial_of self.old) (master_turn script.now (serial_of self.old)) ≡ (acted, serial_of self.new)) }
        ensures sound { OnOk result (IsSound script.now self.new) }
        ensures acks { OnOk result (HasCounted script.now self.new) }
        ensures ends { OnOk result (AreEnds script.now self.new links.new) }
    {
        let before = self.book.count();
        let acted = self.serve(alloc, script, links)?;
        if before < self.book.count() {
            self.count_acks(script)?;
        }
        Ok(acted)
    }

    /// The acknowledgements of the last batch begin to count.
    fn count_acks(&mut self, script: &Script) -> Result<(), OutOfMemory>
        requires nodes { length script.now.nodes ≤ 30 }
        requires can { IsAckBook self.old.acks → CanCount script.now self.old.book.world.state (times_of self.old) (last_entries self.old.book.batches) self.old.book.ends (pruned self.old.acks) }
        ensures counted { OnOk result (self.new ≡ counted_in script.now self.old) }
        ensures known { IsAckBook self.old.acks }
    {
        let times = Times {
            at: self.clock,
            commit: self.clock,
        };
        self.acks.count_all(
            script,
            &self.book.world().state,
            times,
            self.book.last_entries(),
            self.book.ends(),
        )
    }

    /// What the master's turn does but for acknowledgements.
    fn serve(
        &mut self,
        alloc: Global,
        script: &Script,
        links: &mut [NodeLink],
    ) -> Result<bool, OutOfMemory>
        requires script { IsScript script.now }
        requires sound { IsSound script.now self.old }
        requires ends { AreEnds script.now self.old links.old }
        ensures turn { IfOk result (λ acted. after_turn (false, serial_of self.old) (master_turn script.now (serial_of self.old)) ≡ (acted, serial_of self.new)) }
        ensures sound { OnOk result (IsSound script.now self.new) }
        ensures acks { OnOk result (self.new.acks ≡ self.old.acks) }
        ensures ends { OnOk result (AreEnds script.now self.new links.new) }
    {
        let Some(Taken { queue, waiting }) = self.waiting.take(&mut self.tasks)? else {
            return Ok(false);
        };
        let batch = self.book.count() + 1;
        let entries = gather(alloc, &mut self.tasks, batch, waiting.as_slice())?;
        if entries.as_slice().is_empty() {
            return Ok(true);
        }
        self.run_batch(script, queue, entries, links)?;
        end_all(
            &mut self.tasks,
            batch,
            self.book.last_entries(),
            self.book.ends(),
        );
        Ok(true)
    }

    /// Entries of a queue are added to the book as a batch, and each node is handed its commit, if there is one.
    fn run_batch(
        &mut self,
        script: &Script,
        number: u32,
        entries: Vec<Entry>,
        links: &mut [NodeLink],
    ) -> Result<(), OutOfMemory>
        requires script { IsScript script.now }
        requires order { IsOrdered script.now self.old.book.batches }
        requires joins { CanJoinAt script.now self.old.book number entries.items }
        requires over { IsOverLinks script.now self.old (meanings_of links.old) }
        requires passed { ArePassed links.old self.old.nodes.items }
        requires nodes { AreNodesOf script.now self.old.nodes.items }
        ensures run { OnOk result (self.new ≡ record self.old { book = added script.now self.old.book number entries.items self.old.clock self.old.clock; nodes = self.new.nodes }) }
        ensures handed { OnOk result (courses_of self.new.nodes.items ≡ handed_each script.now (last_stepped self.new.book) script.now.nodes (courses_of self.old.nodes.items)) }
        ensures nodes { OnOk result (AreNodesOf script.now self.new.nodes.items) }
        ensures links { OnOk result (AreLinksOf script.now.nodes self.new.book.world (meanings_of links.new)) }
        ensures used { OnOk result (AreUsed (meanings_of links.old) (meanings_of links.new)) }
        ensures passed { OnOk result (ArePassed links.new self.new.nodes.items) }
    {
        self.add_batch(script, number, entries, links)?;
        pass_all(links, &mut self.nodes)
    }

    /// Entries of a queue are added to the book as a batch, at the moment of the clock.
    #[tactic(auto, using(crate::proofs::Linking::used_by_batch))]
    fn add_batch<L: Link>(
        &mut self,
        script: &Script,
        number: u32,
        entries: Vec<Entry>,
        links: &mut [L],
    ) -> Result<(), OutOfMemory>
        requires script { IsScript script.now }
        requires order { IsOrdered script.now self.old.book.batches }
        requires joins { CanJoinAt script.now self.old.book number entries.items }
        requires over { IsOverLinks script.now self.old (map L.meaning links.old) }
        ensures added { OnOk result (self.new ≡ record self.old { book = added script.now self.old.book number entries.items self.old.clock self.old.clock }) }
        ensures links { OnOk result (AreLinksOf script.now.nodes self.new.book.world (map L.meaning links.new)) }
        ensures used { OnOk result (AreUsed (map L.meaning links.old) (map L.meaning links.new)) }
        ensures told { OnOk result (AreTold script.now (last_stepped self.new.book) (map L.meaning links.old) (map L.meaning links.new)) }
    {
        let clock = Frozen::new(self.clock);
        self.book
            .add(script, number, entries, self.clock, links, &clock)
    }

    // ---- a node

    /// A turn for each node, in order; it answers whether one acted, or a turn before them.
    fn nodes_round(&mut self, script: &Script, before: bool) -> Result<bool, OutOfMemory>
        requires script { IsScript script.now }
        requires sound { IsSound script.now self.old }
        requires acks { HasCounted script.now self.old }
        requires faults { script.now.faults ≡ [] }
        ensures round { IfOk result (λ acted. play script.now (node_turns script.now.nodes) (before, serial_of self.old) ≡ (acted, serial_of self.new)) }
        ensures sound { OnOk result (IsSound script.now self.new) }
        ensures acks { OnOk result (HasCounted script.now self.new) }
        ensures ends { OnOk result ((links : List NodeLinkView) → AreEnds script.now self.old links → AreEnds script.now self.new links) }
    {
        let mut acted = before;
        for (number, _node) in script.nodes.as_slice().iter().enumerate() {
            if self.turn_at(script, number)? {
                acted = true;
            }
        }
        Ok(acted)
    }

    /// A node's turn, by its name.
    fn node_turn(&mut self, script: &Script, name: &Text) -> Result<bool, OutOfMemory>
        requires script { IsScript script.now }
        requires sound { IsSound script.now self.old }
        requires acks { HasCounted script.now self.old }
        requires faults { script.now.faults ≡ [] }
        ensures turn { IfOk result (λ acted. after_turn (false, serial_of self.old) (node_turn script.now name.now (serial_of self.old)) ≡ (acted, serial_of self.new)) }
        ensures sound { OnOk result (IsSound script.now self.new) }
        ensures acks { OnOk result (HasCounted script.now self.new) }
        ensures ends { OnOk result ((links : List NodeLinkView) → AreEnds script.now self.old links → AreEnds script.now self.new links) }
    {
        match number_of(script, name) {
            None => Ok(false),
            Some(number) => self.turn_at(script, number),
        }
    }

    /// The turn of the node of a number: it applies the first commit that it has left, and then answers the
    /// acknowledgements of that version.
    fn turn_at(&mut self, script: &Script, number: usize) -> Result<bool, OutOfMemory>
        requires script { IsScript script.now }
        requires sound { IsSound script.now self.old }
        requires acks { HasCounted script.now self.old }
        requires faults { script.now.faults ≡ [] }
        ensures turn { IfOk result (λ acted. after_turn (false, serial_of self.old) (turn_at script.now number (serial_of self.old)) ≡ (acted, serial_of self.new)) }
        ensures sound { OnOk result (IsSound script.now self.new) }
        ensures acks { OnOk result (HasCounted script.now self.new) }
        ensures ends { OnOk result ((links : List NodeLinkView) → AreEnds script.now self.old links → AreEnds script.now self.new links) }
    {
        let acted = self.apply_at(script, number)?;
        if acted {
            self.answer(number);
        }
        Ok(acted)
    }

    /// A node answers the acknowledgements of the version that it has applied.
    fn answer(&mut self, number: usize)
        requires node { number < length self.old.nodes.items }
        requires few { number < 30 }
        requires applied { number < length self.old.acks.words.applied }
        ensures answered { self.new ≡ answered_in self.old number }
        ensures known { IsAckBook self.old.acks }
    {
        let version = self.nodes[number].state().version;
        self.acks.settle(number as u32, version);
    }

    /// What that turn does but for acknowledgements.
    fn apply_at(&mut self, script: &Script, number: usize) -> Result<bool, OutOfMemory>
        requires script { IsScript script.now }
        requires sound { IsSound script.now self.old }
        requires faults { script.now.faults ≡ [] }
        ensures turn { IfOk result (λ acted. after_turn (false, serial_of self.old) (turn_at script.now number (serial_of self.old)) ≡ (acted, serial_of self.new)) }
        ensures sound { OnOk result (IsSound script.now self.new) }
        ensures acks { OnOk result (self.new.acks ≡ self.old.acks) }
        ensures book { OnOk result (self.new.book ≡ self.old.book) }
        ensures ends { OnOk result ((links : List NodeLinkView) → AreEnds script.now self.old links → AreEnds script.now self.new links) }
    {
        apply_at(&mut self.nodes, number)
    }

    // ---- the end

    /// The session that the replay has made.
    pub(crate) fn finish(self, alloc: Global, script: &Script) -> Result<Session, OutOfMemory>
        requires script { IsScript script.now }
        requires sound { IsSound script.now self }
        requires acks { HasCounted script.now self }
        requires faults { script.now.faults ≡ [] }
        ensures { IfOk result (λ made. made ≡ session_of script.now (course_of self)) }
    {
        let replies = collect(alloc, script, &self.tasks, &self.ats)?;
        let nodes = finish_all(alloc, self.nodes)?;
        let BookEnd { batches, last } = self.book.finish();
        let acks = collect_acks(alloc, script, &self.tasks, &self.acks, &batches)?;
        Ok(Session {
            batches,
            replies,
            acks,
            watches: Items::new(alloc),
            reads: Items::new(alloc),
            nodes,
            last,
        })
    }
}

/// How many steps each client has.
fn lanes_of(alloc: Global, script: &Script) -> Result<Items<u32>, OutOfMemory>
    requires { IsScript script.now }
    ensures { IfOk result (λ made. made ≡ lanes_of script.now) }
{
    let mut lanes = Items::new(alloc);
    for steps in script.clients.as_slice() {
        lanes.push(steps.len() as u32)?;
    }
    Ok(lanes)
}

/// A zero for each client.
fn zeros(alloc: Global, script: &Script) -> Result<Items<u32>, OutOfMemory>
    ensures { IfOk result (λ made. made ≡ zeros_of script.now) }
{
    let mut zeros = Items::new(alloc);
    for _steps in script.clients.as_slice() {
        zeros.push(0)?;
    }
    Ok(zeros)
}

/// A client's number of a list that has one for each client; 0 where there is no such client.
#[tactic(auto, using(crate::proofs::Edges::number_none, crate::proofs::Edges::number_some))]
fn number_at(numbers: &Items<u32>, client: u32) -> u32
    ensures { result ≡ slice_index_or numbers.now client 0 }
{
    match numbers.get(client as usize) {
        None => 0,
        Some(number) => *number,
    }
}

/// A client's step.
fn step_of(script: &Script, client: u32, step: u32) -> Option<&Step>
    ensures { option_copied result ≡ step_at script.now client step }
{
    script.clients.get(client as usize)?.get(step as usize)
}

/// The number of the node of a name, if there is one.
fn number_of(script: &Script, name: &Text) -> Option<usize>
    ensures { result ≡ node_number script.now name.now }
{
    script
        .nodes
        .as_slice()
        .iter()
        .position(|node| *name == node.name)
}

/// The number of the batch that a client is told of which awaits an acknowledgement, by how far the task is; none where it
/// has to wait on. Where the task's batch published a version, the acknowledgement may be open.
fn told_of(task: TaskPoll, opened: bool) -> Option<u32>
    ensures { result ≡ poll_told opened task }
{
    match task {
        TaskPoll::NotYet => None,
        TaskPoll::Timed { .. } => Some(0),
        TaskPoll::Ended { code } => code_told(code, opened),
    }
}

/// The same of a task that ended in its batch.
fn code_told(code: EndCode, opened: bool) -> Option<u32>
    ensures { result ≡ code_polled opened code }
{
    match code.outcome {
        Outcome::Ok { .. } => { if opened { None } else { Some(code.batch) } }
        _ => Some(code.batch),
    }
}
