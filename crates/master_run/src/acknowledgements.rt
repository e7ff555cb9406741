ghost use Rattle.std.specs.Prelude.{◌≡◌, ◌<◌, ◌≤◌, ◌^◌, IfOk, IsFalse, IsTrue, OnOk, Some, bytes_eq, filter, length, option_copied, option_map, sum};
ghost use Rattle.std.specs.List.{list_any};
ghost use Rattle.ack_words.specs.declared.words.AckWord.{AckWord};
ghost use Rattle.ack_words.specs.Acks.{applied_at, expired_by, word_at, word_expiry, word_poll};
ghost use Rattle.ack_words.specs.Masks.{is_without_nodes};
ghost use Rattle.session_law.specs.Acknowledgements.{asked_ack, is_asked, is_over_at};
ghost use Rattle.session_law.specs.DueTimes.{due};
ghost use Rattle.session_law.specs.Histories.{step_at};
ghost use Rattle.master_run.specs.AckBooks.{AreBelow, CanCount, CanCountEntry, IsAckBook, ack_number, answered_at, answered_each, begun_at, counted_all, counted_one, is_in_lane, is_not_yet, loose_book, new_acks, pruned, read_by, reading_at, required_mask, settled, timed_all, timed_each};
ghost use Rattle.master_run.specs.AckCourses.{is_required};

use crate::endings::{deadline_of, due};
use ack_words::{AckExpiry, AckPoll, NodeMask, PlainAcks};
use meta_state::ClusterState;
use plain_data::{Items, OutOfMemory, Text};
use scripts::{Ack, Script, ScriptNode, Step};
use session_law::{Entry, TaskEnd};
use std::alloc::Global;
use std::marker::Model;

/// The acknowledgements of a replay: a word for each step, by a number that goes through the steps of the first client,
/// then of the second, and so on; the reading at which each timed out, if it did so after its commit; and the numbers of
/// those that may be open, so that neither an apply nor the clock walks over the others.
#[derive(Drop)]
pub(crate) struct Acknowledgements {
    alloc: Global,
    lanes: Items<u32>,
    words: PlainAcks,
    readings: Items<Option<u64>>,
    opened: Vec<u32>,
}

impl Model for Acknowledgements {
    ghost use Rattle.master_run.specs.AckBooks.{AckBook, IsAckBook};

    ghost Value = { AckBook };

    ghost view = { λ a. record { lanes = a.lanes; words = a.words; readings = a.readings; opened = a.opened.items } };

    ghost invariant = { λ a. IsAckBook (record { lanes = a.lanes; words = a.words; readings = a.readings; opened = a.opened.items }) };
}

/// When a batch was taken and when it committed, in milliseconds.
#[derive(Clone, Copy, Debug)]
pub(crate) struct Times {
    pub(crate) at: u64,
    pub(crate) commit: u64,
}

impl Acknowledgements {
    /// For lanes of so many steps and so many nodes, with nothing counted.
    pub(crate) fn create(
        alloc: Global,
        lanes: Items<u32>,
        nodes: u32,
    ) -> Result<Acknowledgements, OutOfMemory>
        requires { sum lanes < 2 ^ 18 }
        ensures { IfOk result (λ made. made ≡ new_acks lanes nodes) }
    {
        let words = PlainAcks::create(alloc, lanes.as_slice(), nodes)?;
        let count = sum_of(lanes.as_slice());
        let readings = Items::from_vec(vec![in alloc; None; count as usize]?);
        Ok(Acknowledgements {
            alloc,
            lanes,
            words,
            readings,
            opened: Vec::new(alloc),
        })
    }

    /// A batch published a state: each of its tasks that asks for an acknowledgement, and succeeded, begins to count.
    pub(crate) fn count_all(
        &mut self,
        script: &Script,
        state: &ClusterState,
        times: Times,
        entries: &[Entry],
        ends: &[TaskEnd],
    ) -> Result<(), OutOfMemory>
        requires nodes { length script.now.nodes ≤ 30 }
        requires can { IsAckBook self.old → CanCount script.now state.now times entries.now ends.now (pruned self.old) }
        ensures counted { OnOk result (self.new ≡ counted_all script.now state.now times entries.now ends.now self.old) }
        ensures known { IsAckBook self.old }
    {
        self.prune()?;
        let mut left = ends;
        for entry in entries {
            let Some((end, more)) = left.split_first() else {
                return Ok(());
            };
            self.count_one(script, state, times, entry, *end)?;
            left = more;
        }
        Ok(())
    }

    /// A node applied a version: it answers each acknowledgement that waits for that.
    pub(crate) fn settle(&mut self, node: u32, version: u64)
        requires { node < length self.old.words.applied }
        ensures settled { self.new ≡ settled node version self.old }
        ensures known { IsAckBook self.old }
    {
        self.words.raise_applied(node, version);
        answer_each(&mut self.words, node, version, self.opened.as_slice());
    }

    /// Each open acknowledgement times out whose deadline is at most a reading, in milliseconds.
    pub(crate) fn expire_all(&mut self, reading: u64)
        ensures timed { self.new ≡ timed_all reading self.old }
        ensures known { IsAckBook self.old }
    {
        expire_each(
            &mut self.words,
            &mut self.readings,
            self.opened.as_slice(),
            reading,
        );
    }

    /// What a client learns of the acknowledgement of its step.
    pub(crate) fn poll(&self, client: u32, step: u32) -> AckPoll
        requires { IsTrue (is_in_lane self.now.lanes client step) }
        ensures { result ≡ word_poll (word_at self.now.words (ack_number self.now.lanes client step)) }
    {
        self.words.poll(client, self.number(client, step))
    }

    /// The reading at which it timed out, if it did so after its commit.
    pub(crate) fn reading(&self, client: u32, step: u32) -> Option<u64>
        requires { IsTrue (is_in_lane self.now.lanes client step) }
        ensures { result ≡ reading_at self.now (ack_number self.now.lanes client step) }
    {
        match self.readings.get(self.number(client, step) as usize) {
            Some(reading) => *reading,
            None => None,
        }
    }

    // The number of a step.
    #[tactic(auto, using(crate::proofs::AckNumbers::number_below, crate::proofs::AckBooking::sum_before))]
    fn number(&self, client: u32, step: u32) -> u32
        requires { IsTrue (is_in_lane self.now.lanes client step) }
        ensures number { result ≡ ack_number self.now.lanes client step }
        ensures below { result < sum self.now.lanes }
    {
        sum_of(&self.lanes.as_slice()[..client as usize]) + step
    }

    // Takes out of those that may be open what is decided.
    fn prune(&mut self) -> Result<(), OutOfMemory>
        ensures pruned { OnOk result (self.new ≡ pruned self.old) }
        ensures known { IsAckBook self.old }
    {
        self.opened = open_of(self.alloc, &self.words, self.opened.as_slice())?;
        Ok(())
    }

    // A task of a batch has ended so.
    fn count_one(
        &mut self,
        script: &Script,
        state: &ClusterState,
        times: Times,
        entry: &Entry,
        end: TaskEnd,
    ) -> Result<(), OutOfMemory>
        requires nodes { length script.now.nodes ≤ 30 }
        requires can { CanCountEntry script.now state.now entry.now end self.old }
        ensures { OnOk result (self.new ≡ counted_one script.now state.now times entry.now end self.old) }
    {
        let TaskEnd::Ok { version } = end else {
            return Ok(());
        };
        let Some(asked) = ack_of(script, entry.client, entry.step) else {
            return Ok(());
        };
        let number = self.number(entry.client, entry.step);
        let must = required_mask(asked, state, script.nodes.as_slice());
        self.begin(number, version, must, times, asked.timeout)
    }

    // An acknowledgement begins to count, at the commit of its version.
    fn begin(
        &mut self,
        number: u32,
        version: u64,
        must: NodeMask,
        times: Times,
        timeout: Option<u64>,
    ) -> Result<(), OutOfMemory>
        requires number { number < length self.old.words.words }
        requires vacant { word_at self.old.words number ≡ AckWord.Vacant }
        requires some { IsFalse (is_without_nodes must) }
        requires version { version < 2 ^ 32 }
        ensures { OnOk result (self.new ≡ begun_at number version must times timeout self.old) }
    {
        self.opened.push(number)?;
        self.words.start(number, deadline_of(times.at, timeout));
        self.words
            .committed(number, version, must, is_late(times, timeout));
        Ok(())
    }
}

/// The sum of these.
fn sum_of(numbers: &[u32]) -> u32
    requires { sum numbers.now < 2 ^ 18 }
    ensures { result ≡ sum numbers.now }
{
    numbers.iter().sum()
}

/// Whether a timeout that began as a batch was taken is over as it commits.
fn is_late(times: Times, timeout: Option<u64>) -> bool
    ensures { result ≡ is_over_at times.commit (option_map (due times.at) timeout) }
{
    match timeout {
        None => false,
        Some(timeout) => due(times.at, timeout) <= times.commit,
    }
}

/// The nodes that have to apply a state: of those of the script, by their numbers, the master and those that are asked.
fn required_mask(asked: &Ack, state: &ClusterState, nodes: &[ScriptNode]) -> NodeMask
    requires { length nodes.now ≤ 30 }
    ensures { result ≡ required_mask asked.now state.now nodes.now }
{
    let mut mask = NodeMask::none();
    let mut number: u32 = 0;
    for node in nodes {
        if is_required(asked, state, &node.name) {
            mask = mask.with(number);
        }
        number += 1;
    }
    mask
}

/// Whether a node has to apply a state.
fn is_required(asked: &Ack, state: &ClusterState, name: &Text) -> bool
    ensures { result ≡ is_required asked.now state.now name.now }
{
    state.nodes.contains_key(name) && (*name == state.master || is_asked(&asked.nodes, name))
}

/// Whether a node is asked.
fn is_asked(nodes: &Option<Items<Text>>, name: &Text) -> bool
    ensures { result ≡ is_asked nodes.now name.now }
{
    match nodes {
        None => true,
        Some(names) => is_one_of(names.as_slice(), name),
    }
}

/// Whether a name is one of these.
fn is_one_of(names: &[Text], name: &Text) -> bool
    ensures { result ≡ list_any (bytes_eq name.now) names.now }
{
    names.iter().any(|other| *name == *other)
}

/// The acknowledgement that a step of a script asks for.
fn ack_of(script: &Script, client: u32, step: u32) -> Option<&Ack>
    ensures { option_copied result ≡ asked_ack (step_at script.now client step) }
{
    ack_in(script.clients.get(client as usize)?.get(step as usize)?)
}

/// The acknowledgement that a step asks for.
pub(crate) fn ack_in(step: &Step) -> Option<&Ack>
    ensures { option_copied result ≡ asked_ack (Some step.now) }
{
    match step {
        Step::Submit { ack, .. } => ack.as_ref(),
        _ => None,
    }
}

/// A node that applied a version answers an acknowledgement that waits for that.
fn answer(words: &mut PlainAcks, node: u32, version: u64, number: u32)
    requires number { number < length words.old.words }
    requires applied { version ≤ applied_at words.old node }
    ensures { words.new ≡ answered_at node version words.old number }
{
    if words.asks(node, number) == Some(version) {
        words.node_ok(node, number, version);
    }
}

/// A node that applied a version answers each of these that waits for that.
fn answer_each(words: &mut PlainAcks, node: u32, version: u64, numbers: &[u32])
    requires numbers { AreBelow (length words.old.words) numbers.now }
    requires applied { version ≤ applied_at words.old node }
    ensures { words.new ≡ answered_each node version numbers.now words.old }
{
    for number in numbers {
        answer(words, node, version, *number);
    }
}

/// An acknowledgement times out at a reading, where it is open and its deadline is at most that.
fn expire(words: &mut PlainAcks, readings: &mut Items<Option<u64>>, number: u32, reading: u64)
    requires words { number < length words.old.words }
    requires readings { number < length readings.old }
    ensures words { words.new ≡ expired_by number (word_expiry reading (word_at words.old number)) words.old }
    ensures readings { readings.new ≡ read_by reading number (word_expiry reading (word_at words.old number)) readings.old }
{
    // No client's lane makes this call: the clock has moved.
    if let AckExpiry::Won = words.expire(0, number, reading) {
        readings.set(number as usize, Some(reading));
    }
}

/// Each of these times out at a reading, where it is open and its deadline is at most that.
fn expire_each(
    words: &mut PlainAcks,
    readings: &mut Items<Option<u64>>,
    numbers: &[u32],
    reading: u64,
)
    requires words { AreBelow (length words.old.words) numbers.now }
    requires readings { AreBelow (length readings.old) numbers.now }
    ensures { loose_book words.new readings.new ≡ timed_each reading numbers.now (loose_book words.old readings.old) }
{
    for number in numbers {
        expire(words, readings, *number, reading);
    }
}

/// Those of these numbers of which a client isn't told the end yet.
fn open_of(alloc: Global, words: &PlainAcks, numbers: &[u32]) -> Result<Vec<u32>, OutOfMemory>
    requires { AreBelow (length words.now.words) numbers.now }
    ensures { IfOk result (λ made. made.items ≡ filter (λ n. is_not_yet (word_poll (word_at words.now n))) numbers.now) }
{
    let mut made = Vec::new(alloc);
    for number in numbers {
        if is_open(words, *number) {
            made.push(*number)?;
        }
    }
    Ok(made)
}

/// Whether a client isn't told the end of an acknowledgement yet.
fn is_open(words: &PlainAcks, number: u32) -> bool
    requires { number < length words.now.words }
    ensures { result ≡ is_not_yet (word_poll (word_at words.now number)) }
{
    matches!(words.poll(0, number), AckPoll::NotYet)
}
