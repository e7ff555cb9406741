ghost use Rattle.std.specs.Prelude.{◌≡◌, ◌||◌, ◌⊎◌, is_some, IfOk, IfSome, OnErr};
ghost use Rattle.publication.specs.LinkMeanings.{is_last};
ghost use Rattle.publication.specs.Messages.{is_accepted, received, AcceptsTarget};

use crate::link_faults::LinkFault;
use crate::links::Link;
use crate::messages::{Message, MessageKind};
use crate::receipts::Receipt;
use crate::replicas::Replica;
use meta_state::ClusterState;
use plain_data::{Items, OutOfMemory, Text};
use std::alloc::Global;
use std::marker::Model;

/// A link in memory, which keeps what it was handed. It fails the calls whose numbers, from 0, are listed.
#[derive(Drop)]
pub struct MemLink {
    alloc: Global,
    node: Text,
    replica: Replica,

    // A copy of the state held, from when it is accepted until it is handed.
    waiting: Option<ClusterState>,
    handed: Vec<ClusterState>,

    // The number of the publication with which each of these was handed.
    numbers: Vec<u64>,
    room: u32,

    // The identifier of the state to which the last message led, and how many publications were sent.
    last: Option<u64>,
    sent: u64,
    failing: Vec<u64>,
    calls: u64,
    faults: u64,
    kinds: Items<MessageKind>,
}

impl Model for MemLink {
    ghost use Rattle.std.specs.Prelude.{◌≡◌, ◌≤◌, ◌+◌, None, vec_len, vec_capacity, is_some, IfSome};
    ghost use Rattle.publication.specs.InMemory.{MemLinkView, is_nil};

    ghost Value = { MemLinkView };

    ghost view = { λ l. record {
      meaning = record {
        name = l.node;
        held = l.replica;
        ready = is_some l.waiting;
        handed = l.handed.items;
        room = l.room;
        faults = l.faults;
        reliable = is_nil l.failing.items;
        last = l.last;
        sent = l.sent;
        numbers = l.numbers.items;
        base = None;
      };
      failing = l.failing.items;
      calls = l.calls;
      kinds = l.kinds;
    } };

    ghost invariant = { λ l. (vec_len l.handed + l.room ≤ vec_capacity l.handed) × (vec_len l.numbers + l.room ≤ vec_capacity l.numbers) × IfSome l.waiting (λ waiting. waiting ≡ l.replica) };
}

impl MemLink {
    ghost use Rattle.std.specs.Prelude.{◌≡◌, ◌≤◌, Some, false, IfOk, IsTrue};
    ghost use Rattle.publication.specs.InMemory.{counted_call, new_mem_link};
    ghost use Rattle.publication.specs.LinkMeanings.{after_noted, is_last};

    /// A link to a node that holds what the replica holds, with room for `room` commits. The room is taken here, so
    /// that `hand` takes no memory. Calls whose numbers are in `failing` will fail.
    pub fn new(
        alloc: Global,
        node: Text,
        replica: Replica,
        room: u32,
        failing: Vec<u64>,
    ) -> Result<MemLink, OutOfMemory>
        ensures { IfOk result (λ link. link ≡ new_mem_link node replica room failing.items) }
    {
        Ok(MemLink {
            alloc,
            node,
            replica,
            waiting: None,
            handed: Vec::with_capacity(alloc, room as usize)?,
            numbers: Vec::with_capacity(alloc, room as usize)?,
            room,
            last: None,
            sent: 0,
            failing,
            calls: 0,
            faults: 0,
            kinds: Items::new(alloc),
        })
    }

    /// The state that the node holds.
    pub fn state(&self) -> &ClusterState
        ensures { result.now ≡ self.now.meaning.held }
    {
        self.replica.state()
    }

    /// The states that the node was handed, in order.
    pub fn handed(&self) -> &[ClusterState]
        ensures { result.now ≡ self.now.meaning.handed }
    {
        &self.handed
    }

    /// For each of these, how many publications were sent to the node as it was handed.
    pub fn numbers(&self) -> &[u64]
        ensures { result.now ≡ self.now.meaning.numbers }
    {
        &self.numbers
    }

    /// How many publications were sent to the node.
    pub fn sent(&self) -> u64
        ensures { result ≡ self.now.meaning.sent }
    {
        self.sent
    }

    /// Whether the last message led to a state of this identifier.
    pub fn was_sent(&self, id: u64) -> bool
        ensures { result ≡ is_last self.now.meaning.last id }
    {
        is_last(&self.last, id)
    }

    /// For how many more commits there is room.
    pub fn room(&self) -> u32
        ensures { result ≡ self.now.meaning.room }
    {
        self.room
    }

    /// How many calls have failed.
    pub fn faults(&self) -> u64
        ensures { result ≡ self.now.meaning.faults }
    {
        self.faults
    }

    /// The kinds of the messages that the node answered, in order.
    pub fn kinds(&self) -> &[MessageKind]
        ensures { result.now ≡ self.now.kinds }
    {
        self.kinds.as_slice()
    }

    // Notes that a message leads to a state of this identifier.
    fn note(&mut self, id: u64)
        ensures { self.new ≡ record self.old { meaning = after_noted id self.old.meaning self.old.meaning.faults } }
    {
        if !is_last(&self.last, id) {
            self.sent = self.sent.saturating_add(1);
        }
        self.last = Some(id);
    }

    // Whether this call is one of those that fail. It is counted, and so is its fault.
    #[tactic(auto, using(crate::proofs::Failures::listed_is_not_nil))]
    fn fails(&mut self) -> bool
        ensures counted { (result, self.new) ≡ counted_call self.old }
        ensures never_falls { self.old.meaning.faults ≤ self.new.meaning.faults }
        ensures can { IsTrue result → self.old.meaning.reliable ≡ false }
    {
        let call = self.calls;
        self.calls = call.saturating_add(1);
        let fails = self.failing.contains(&call);
        if fails {
            self.faults = self.faults.saturating_add(1);
        }
        fails
    }
}

// Whether the last message led to a state of this identifier.
fn is_last(last: &Option<u64>, id: u64) -> bool
    ensures { result ≡ is_last last.now id }
{
    matches!(last, Some(last) if *last == id)
}

// Gives a node's replica a message. A copy of what it accepts waits to be handed.
fn take_message(
    alloc: Global,
    replica: &mut Replica,
    waiting: &mut Option<ClusterState>,
    message: &Message,
) -> Result<Receipt, OutOfMemory>
    requires { IfSome waiting.old (λ waiting. waiting ≡ replica.old) }
    ensures received { IfOk result (λ receipt. (receipt, replica.new) ≡ received replica.old message.now) }
    ensures ready { IfOk result (λ receipt. is_some waiting.new ≡ (is_accepted receipt || is_some waiting.old)) }
    ensures leads { IfOk result (λ receipt. AcceptsTarget receipt replica.new message.now) }
    ensures waits { IfSome waiting.new (λ waiting. waiting ≡ replica.new) }
    ensures err { OnErr result ((replica.new ≡ replica.old) ⊎ (replica.new ≡ (received replica.old message.now).1)) }
{
    let receipt = replica.receive(alloc, message)?;
    match receipt {
        Receipt::Incompatible { .. } => {}
        Receipt::Accepted => {
            *waiting = None;
            *waiting = Some(replica.state().copy(alloc)?);
        }
    }
    Ok(receipt)
}

impl Link for MemLink {
    ghost use Rattle.std.specs.Prelude.{◌≡◌, ◌≤◌, ◌<◌, ◌^◌, None, IfOk, IfErr, OnOk, OnErr, IsErrOf, IsTrue, ◌↔◌};
    ghost use Rattle.publication.specs.InMemory.{counted_call, does_fail, mem_handed, mem_missed, mem_received};
    ghost use Rattle.publication.specs.LinkMeanings.{Fails, after_fault, after_hand, after_message, after_missed, HoldsOldOrSent};
    ghost use Rattle.publication.specs.Messages.{received, AcceptsTarget};

    ghost meaning = { λ l. l.meaning };

    ghost script = { λ _. None };

    fn node(&self) -> &Text
        ensures { result.now ≡ self.now.meaning.name }
    {
        &self.node
    }

    fn receive(&mut self, message: &Message) -> Result<Receipt, LinkFault>
        ensures receipt { IfOk result (λ receipt. receipt ≡ (received self.old.meaning.held message.now).0) }
        ensures ok { OnOk result (self.new.meaning ≡ after_message message.now self.old.meaning self.new.meaning.faults) }
        ensures leads { IfOk result (λ receipt. AcceptsTarget receipt self.new.meaning.held message.now) }
        ensures unreachable { IsErrOf result LinkFault.Unreachable → self.new.meaning ≡ after_missed message.now self.old.meaning self.new.meaning.faults }
        ensures cause { IsErrOf result LinkFault.Unreachable → Fails self.old.meaning self.new.meaning }
        ensures out_of_memory { IsErrOf result LinkFault.OutOfMemory → HoldsOldOrSent message.now self.old.meaning self.new.meaning }
        ensures never_falls { self.old.meaning.faults ≤ self.new.meaning.faults }

        // Exactly the listed calls can't reach the node, and each of them is counted.
        ensures failing { IsErrOf result LinkFault.Unreachable ↔ IsTrue (does_fail self.old) }
        ensures failed { IsErrOf result LinkFault.Unreachable → self.new ≡ mem_missed message.now (counted_call self.old).1 }
        ensures taken { OnOk result (self.new ≡ mem_received message.now (counted_call self.old).1) }
    {
        let fails = self.fails();
        self.note(message.target());
        if fails {
            return Err(LinkFault::Unreachable);
        }
        self.kinds.push(message.kind())?;
        Ok(take_message(self.alloc, &mut self.replica, &mut self.waiting, message)?)
    }

    fn hand(&mut self, _version: u64) -> Result<(), LinkFault>
        requires version { self.old.meaning.held.version ≡ _version }
        requires ready { IsTrue self.old.meaning.ready }
        requires room { 0 < self.old.meaning.room }
        requires bound { _version < 2 ^ 32 }
        ensures ok { OnOk result (self.new.meaning ≡ after_hand self.old.meaning self.new.meaning.faults) }
        ensures unreachable { OnErr result (self.new.meaning ≡ after_fault self.old.meaning self.new.meaning.faults) }
        ensures cause { OnErr result (Fails self.old.meaning self.new.meaning) }
        ensures fault { IfErr result (λ fault. fault ≡ LinkFault.Unreachable) }
        ensures never_falls { self.old.meaning.faults ≤ self.new.meaning.faults }

        // Exactly the listed calls can't reach the node, and each of them is counted.
        ensures failing { IsErrOf result LinkFault.Unreachable ↔ IsTrue (does_fail self.old) }
        ensures failed { OnErr result (self.new ≡ (counted_call self.old).1) }
        ensures taken { OnOk result (self.new ≡ mem_handed (counted_call self.old).1) }
    {
        if self.fails() {
            return Err(LinkFault::Unreachable);
        }
        let Some(state) = self.waiting.take() else {
            unreachable!()
        };
        // The memory for it is there since the start.
        self.handed.push_reserved(state);
        self.numbers.push_reserved(self.sent);
        self.room -= 1;
        Ok(())
    }
}
