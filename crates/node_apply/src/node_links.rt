ghost use Rattle.std.specs.Prelude.{◌≡◌, ◌||◌, ◌⊎◌, [], None, Option, Some, is_some, IfOk, IfSome, OnOk, OnErr};
ghost use Rattle.std.specs.Option.{option_or};
ghost use Rattle.meta_state.specs.declared.cluster_state.ClusterState.{ClusterState};
ghost use Rattle.publication.specs.LinkMeanings.{is_last};
ghost use Rattle.publication.specs.Messages.{is_accepted, received, AcceptsTarget};
ghost use Rattle.node_apply.specs.Applying.{last_of_node, passed_on};
ghost use Rattle.node_apply.specs.Commits.{AreLinked, commits_of, last_state};
ghost use Rattle.node_apply.specs.NodeLinks.{IsSince, cuts, cuts_at, fault_on};

use crate::commits::{Commit, CommitStart};
use crate::node_appliers::NodeApplier;
use crate::putting::put;
use crate::sinces::{Since, take_message, told};
use meta_state::ClusterState;
use plain_data::{OutOfMemory, Text};
use publication::{Link, LinkFault, Message, Receipt, Replica};
use scripts::{Fault, FaultKind};
use std::alloc::Global;
use std::marker::Model;
use std::mem;

/// The link to a node that applies what it is handed. It follows a script: a message isn't received, or a commit isn't
/// handed, at the publications for which the script lists it.
#[derive(Drop)]
pub struct NodeLink {
    alloc: Global,
    node: Text,
    replica: Replica,

    // A copy of the state held, from when it is accepted until it is handed.
    waiting: Option<ClusterState>,
    commits: CommitStart,

    // The state of the last commit that was passed on, where it is known, and what may have changed since the last commit.
    base: Option<ClusterState>,
    since: Since,
    failing: Vec<Fault>,

    // The identifier of the state to which the last message led, and how many publications were sent.
    last: Option<u64>,
    sent: u64,
    faults: u64,
}

impl Model for NodeLink {
    ghost use Rattle.std.specs.Prelude.{◌≡◌, not, is_some, map, IfSome};
    ghost use Rattle.std.specs.List.{list_any};
    ghost use Rattle.node_apply.specs.NodeLinks.{IsTiedLink, NodeLinkView, cuts_node};

    ghost Value = { NodeLinkView };

    ghost view = { λ l. record {
      meaning = record {
        name = l.node;
        held = l.replica;
        ready = is_some l.waiting;
        handed = map (λ c. c.state) l.commits.commits;
        room = l.commits.room;
        faults = l.faults;
        reliable = not (list_any (cuts_node l.node) l.failing.items);
        last = l.last;
        sent = l.sent;
        numbers = map (λ c. c.publication) l.commits.commits;
        base = l.base;
      };
      failing = l.failing.items;
    } };

    ghost invariant = { λ l. IsTiedLink l.base l.commits.commits l.since l.replica × IfSome l.waiting (λ waiting. waiting ≡ l.replica) };
}

impl NodeLink {
    ghost use Rattle.std.specs.Prelude.{◌≡◌, ◌≤◌, [], false, true, Some, IfSome, IsTrue, IfOk, OnOk, OnErr};
    ghost use Rattle.edge_io.specs.Causes.{counted_up};
    ghost use Rattle.meta_state.specs.declared.cluster_state.ClusterState.{ClusterState};
    ghost use Rattle.node_apply.specs.Applying.{last_of_node, passed_on};
    ghost use Rattle.node_apply.specs.NodeLinks.{fault_now, is_lost, is_unreachable, new_node_link, noted, passed, told};

    /// A link to a node that holds what the replica holds, which hands commits at this end. It fails at the faults of the
    /// list that name its node.
    pub fn create(
        alloc: Global,
        node: Text,
        replica: Replica,
        commits: CommitStart,
        failing: Vec<Fault>,
    ) -> NodeLink
        requires { commits.commits ≡ [] }
        ensures { result ≡ new_node_link node replica commits.room failing.items }
    {
        NodeLink {
            alloc,
            node,
            replica,
            waiting: None,
            commits,
            base: None,
            since: Since::Unknown,
            failing,
            last: None,
            sent: 0,
            faults: 0,
        }
    }

    /// The state that the node holds.
    pub fn state(&self) -> &ClusterState
        ensures { result.now ≡ self.now.meaning.held }
    {
        self.replica.state()
    }

    /// For how many more commits there is room.
    pub fn room(&self) -> u32
        ensures { result ≡ self.now.meaning.room }
    {
        self.commits.room()
    }

    /// How many calls have failed.
    pub fn faults(&self) -> u64
        ensures { result ≡ self.now.meaning.faults }
    {
        self.faults
    }

    /// How many publications were sent to the node.
    pub fn sent(&self) -> u64
        ensures { result ≡ self.now.meaning.sent }
    {
        self.sent
    }

    /// Passes all commits that were handed to the node's applier, in order. What the first of them changed isn't told, so
    /// that its apply compares whole states. Want of memory leaves both as they were.
    #[tactic(auto, using(crate::proofs::Linking::linked_unknown, crate::proofs::Receiving::tied_passed, crate::proofs::Receiving::applier_passed))]
    pub fn pass(&mut self, applier: &mut NodeApplier) -> Result<(), OutOfMemory>
        requires { self.old.meaning.name ≡ applier.old.name }
        ensures passed { OnOk result (applier.new ≡ passed_on (told self.old.meaning) applier.old) }
        ensures link { OnOk result (self.new ≡ passed self.old) }
        ensures kept { OnErr result (applier.new ≡ applier.old) }
        ensures err { OnErr result (self.new ≡ self.old) }
    {
        self.commits.forget_first();
        pass_on(self.alloc, &mut self.commits, &mut self.base, applier)
    }

    /// The same to an applier which has the state of the last commit that was passed on as that of its last one, as it is
    /// where all were passed to it. So each apply costs what changed.
    #[tactic(auto, using(crate::proofs::Receiving::linked_from, crate::proofs::Receiving::tied_passed_on, crate::proofs::Receiving::applier_told))]
    pub fn pass_next(&mut self, applier: &mut NodeApplier) -> Result<(), OutOfMemory>
        requires name { self.old.meaning.name ≡ applier.old.name }
        requires base { (base : ClusterState) → self.old.meaning.base ≡ Some base → base ≡ last_of_node applier.old }
        ensures passed { OnOk result (applier.new ≡ passed_on (told self.old.meaning) applier.old) }
        ensures link { OnOk result (self.new ≡ passed self.old) }
        ensures kept { OnErr result (applier.new ≡ applier.old) }
        ensures err { OnErr result (self.new ≡ self.old) }
    {
        pass_on(self.alloc, &mut self.commits, &mut self.base, applier)
    }

    // Notes that a message leads to a state of this identifier.
    fn note(&mut self, id: u64)
        ensures { self.new ≡ noted id self.old }
    {
        if !is_last(&self.last, id) {
            self.sent = self.sent.saturating_add(1);
        }
        self.last = Some(id);
    }

    // Whether the script lets no message reach the node at this publication.
    #[tactic(auto, using(crate::proofs::Receiving::listed))]
    fn is_cut(&self) -> bool
        ensures cut { result ≡ is_unreachable (fault_now self.now) }
        ensures can { IsTrue result → self.now.meaning.reliable ≡ false }
    {
        matches!(
            fault_on(&self.failing, &self.node, self.sent),
            Some(FaultKind::Unreachable)
        )
    }

    // Whether the script loses the commit of this publication.
    #[tactic(auto, using(crate::proofs::Receiving::listed))]
    fn loses_commit(&self) -> bool
        ensures lost { result ≡ is_lost (fault_now self.now) }
        ensures can { IsTrue result → self.now.meaning.reliable ≡ false }
    {
        matches!(
            fault_on(&self.failing, &self.node, self.sent),
            Some(FaultKind::LostCommit)
        )
    }

    // Counts a call that failed.
    fn count_fault(&mut self)
        ensures { self.new ≡ record self.old { meaning = record self.old.meaning { faults = counted_up self.old.meaning.faults } } }
    {
        self.faults = self.faults.saturating_add(1);
    }
}

// Passes all commits on to a node's applier, and notes the state of the last one.
#[tactic(auto, using(crate::proofs::Receiving::known_last))]
fn pass_on(
    alloc: Global,
    commits: &mut CommitStart,
    base: &mut Option<ClusterState>,
    applier: &mut NodeApplier,
) -> Result<(), OutOfMemory>
    requires { AreLinked (Some (last_of_node applier.old)) commits.old.commits }
    ensures passed { OnOk result (applier.new ≡ passed_on (commits_of commits.old.commits) applier.old) }
    ensures start { OnOk result (commits.new ≡ record commits.old { commits = [] }) }
    ensures base { OnOk result (base.new ≡ last_state base.old commits.old.commits) }
    ensures kept { OnErr result (applier.new ≡ applier.old) }
    ensures err { OnErr result (commits.new ≡ commits.old) }
    ensures stays { OnErr result (base.new ≡ base.old) }
{
    let last = commits.last(alloc)?;
    let passed = applier.take_over(commits);
    set_last(base, last, passed)
}

// The last value that is known, where one is, after a step that was to be done before.
fn set_last<T: Drop>(
    base: &mut Option<T>,
    last: Option<T>,
    done: Result<(), OutOfMemory>,
) -> Result<(), OutOfMemory>
    ensures done { result ≡ done }
    ensures ok { OnOk result (base.new ≡ option_or last base.old) }
    ensures err { OnErr result (base.new ≡ base.old) }
{
    if done.is_ok() && last.is_some() {
        *base = last;
    }
    done
}

fn is_last(last: &Option<u64>, id: u64) -> bool
    ensures { result ≡ is_last last.now id }
{
    match last {
        None => false,
        Some(last) => *last == id,
    }
}

fn cuts(kind: FaultKind) -> bool
    ensures { result ≡ cuts kind }
{
    match kind {
        FaultKind::Unreachable | FaultKind::LostCommit => true,
        FaultKind::Apply => false,
    }
}

// Whether a fault is one of a link to this node, at a count of publications.
fn cuts_at(fault: &Fault, node: &Text, count: u64) -> bool
    ensures { result ≡ cuts_at node.now count fault.now }
{
    *node == fault.node && cuts(fault.kind) && fault.publication == count
}

// The first fault of a link to this node at a count of publications.
fn fault_on(failing: &[Fault], node: &Text, count: u64) -> Option<FaultKind>
    ensures { result ≡ fault_on failing.now node.now count }
{
    for fault in failing {
        if cuts_at(fault, node, count) {
            return Some(fault.kind);
        }
    }
    None
}

// Gives a node's replica a message, and tells on what may have changed. A copy of what it accepts waits to be handed.
fn accept(
    alloc: Global,
    replica: &mut Replica,
    since: &mut Since,
    waiting: &mut Option<ClusterState>,
    message: &Message,
) -> Result<Receipt, OutOfMemory>
    requires { IfSome waiting.old (λ waiting. waiting ≡ replica.old) }
    ensures received { IfOk result (λ receipt. (receipt, replica.new) ≡ received replica.old message.now) }
    ensures ready { IfOk result (λ receipt. is_some waiting.new ≡ (is_accepted receipt || is_some waiting.old)) }
    ensures leads { IfOk result (λ receipt. AcceptsTarget receipt replica.new message.now) }
    ensures waits { IfSome waiting.new (λ waiting. waiting ≡ replica.new) }
    ensures since { (before : Option ClusterState) → IsSince since.old before replica.old → IsSince since.new before replica.new }
    ensures err { OnErr result ((replica.new ≡ replica.old) ⊎ (replica.new ≡ (received replica.old message.now).1)) }
{
    let receipt = take_message(alloc, replica, since, message)?;
    match receipt {
        Receipt::Incompatible { .. } => {}
        Receipt::Accepted => keep_copy(alloc, replica.state(), waiting)?,
    }
    Ok(receipt)
}

// A copy of a state waits, and no other.
fn keep_copy(
    alloc: Global,
    state: &ClusterState,
    waiting: &mut Option<ClusterState>,
) -> Result<(), OutOfMemory>
    ensures ok { OnOk result (waiting.new ≡ Some state.now) }
    ensures err { OnErr result (waiting.new ≡ None) }
{
    put(waiting, None);
    put(waiting, Some(state.copy(alloc)?));
    Ok(())
}

impl Link for NodeLink {
    ghost use Rattle.std.specs.Prelude.{◌≡◌, ◌≤◌, ◌<◌, ◌^◌, Some, IfOk, IfErr, OnOk, OnErr, IsErrOf, IsTrue, ◌↔◌};
    ghost use Rattle.publication.specs.LinkMeanings.{Fails, after_fault, after_hand, after_message, after_missed, sent_with, HoldsOldOrSent};
    ghost use Rattle.publication.specs.Messages.{received, target_id, AcceptsTarget};
    ghost use Rattle.session_law.specs.NodeRecords.{Commit};
    ghost use Rattle.node_apply.specs.NodeLinks.{fault_now, handed_over, is_lost, is_unreachable, noted, script_of};

    ghost meaning = { λ l. l.meaning };

    ghost script = { λ l. Some (script_of l) };

    fn node(&self) -> &Text
        ensures { result.now ≡ self.now.meaning.name }
    {
        &self.node
    }

    fn receive(&mut self, message: &Message) -> Result<Receipt, LinkFault>
        ensures receipt { IfOk result (λ receipt. receipt ≡ (received self.old.meaning.held message.now).0) }
        ensures ok { OnOk result (self.new.meaning ≡ after_message message.now self.old.meaning self.new.meaning.faults) }
        ensures leads { IfOk result (λ receipt. AcceptsTarget receipt self.new.meaning.held message.now) }
        ensures unreachable { IsErrOf result LinkFault.Unreachable → self.new.meaning ≡ after_missed message.now self.old.meaning self.new.meaning.faults }
        ensures cause { IsErrOf result LinkFault.Unreachable → Fails self.old.meaning self.new.meaning }
        ensures out_of_memory { IsErrOf result LinkFault.OutOfMemory → HoldsOldOrSent message.now self.old.meaning self.new.meaning }
        ensures never_falls { self.old.meaning.faults ≤ self.new.meaning.faults }

        // It can't reach the node exactly at a fault of the script. The publication is counted whatever comes of it, and
        // all but what it means to any caller stays.
        ensures failing { IsErrOf result LinkFault.Unreachable ↔ IsTrue (is_unreachable (fault_now (noted (target_id message.now) self.old))) }
        ensures noted { self.new.meaning.last ≡ Some (target_id message.now) }
        ensures counted { self.new.meaning.sent ≡ sent_with (target_id message.now) self.old.meaning }
        ensures kept { self.new ≡ record self.old { meaning = self.new.meaning } }
        ensures steady { OnOk result (self.new.meaning.faults ≡ self.old.meaning.faults) }
    {
        self.note(message.target());
        if self.is_cut() {
            self.count_fault();
            return Err(LinkFault::Unreachable);
        }
        Ok(accept(
            self.alloc,
            &mut self.replica,
            &mut self.since,
            &mut self.waiting,
            message,
        )?)
    }

    fn hand(&mut self, _version: u64) -> Result<(), LinkFault>
        requires version { self.old.meaning.held.version ≡ _version }
        requires ready { IsTrue self.old.meaning.ready }
        requires room { 0 < self.old.meaning.room }
        requires bound { _version < 2 ^ 32 }
        ensures ok { OnOk result (self.new.meaning ≡ after_hand self.old.meaning self.new.meaning.faults) }
        ensures unreachable { OnErr result (self.new.meaning ≡ after_fault self.old.meaning self.new.meaning.faults) }
        ensures cause { OnErr result (Fails self.old.meaning self.new.meaning) }
        ensures fault { IfErr result (λ fault. fault ≡ LinkFault.Unreachable) }
        ensures never_falls { self.old.meaning.faults ≤ self.new.meaning.faults }

        // The commit is lost exactly at a fault of the script. What is handed has the count of publications as its number.
        ensures failing { IsErrOf result LinkFault.Unreachable ↔ IsTrue (is_lost (fault_now self.old)) }
        ensures handed { OnOk result (self.new ≡ handed_over self.old) }
        ensures kept { OnErr result (self.new ≡ record self.old { meaning = self.new.meaning }) }
    {
        if self.loses_commit() {
            self.count_fault();
            return Err(LinkFault::Unreachable);
        }
        let Some(state) = self.waiting.take() else {
            unreachable!()
        };
        let since = mem::replace(&mut self.since, Since::Same);
        let commit = Commit::new(state, self.sent, told(since));
        self.commits.hand(commit);
        Ok(())
    }
}
