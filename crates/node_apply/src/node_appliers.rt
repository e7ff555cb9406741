ghost use Rattle.std.specs.Prelude.{◌≡◌, IfOk};
ghost use Rattle.session_law.specs.declared.node_records.ApplyEnd.TheVariants.{Failed};
ghost use Rattle.session_law.specs.Changes.{change_between};
ghost use Rattle.session_law.specs.NodeRecords.{apply_of};
ghost use Rattle.node_apply.specs.Commits.{either_touched, since_first};
ghost use Rattle.node_apply.specs.Standing.{IsAt, IsReadyFor};

use crate::applied_states::{Applied, commit_all, first_applied, into_view};
use crate::commits::{CommitEnd, CommitStart};
use crate::outcomes::ApplyOutcome;
use crate::preparing::{prepare_first, touched_before};
use crate::putting::put;
use meta_state::{ClusterState, Touched};
use plain_data::{Items, OutOfMemory, Text};
use session_law::{Apply, ApplyEnd, Change, NodeRec};
use std::alloc::Global;
use std::marker::Model;
use std::mem;

/// A node as it applies, in order, the commits that it is handed (Elasticsearch's `ClusterApplierService`), and keeps a
/// record of it.
#[derive(Drop)]
pub struct NodeApplier {
    alloc: Global,
    node: Text,

    // The numbers of the publications whose apply the script lets fail.
    failing: Vec<u64>,
    first: u64,
    applied: Applied,
    place: u64,

    // The state of the last commit that it took, where this one failed, and what may have changed up to it since the
    // applied state, where that is known.
    missed: Option<ClusterState>,
    behind: Option<Touched>,
    commits: CommitEnd,

    // The versions that it was handed, and a line for each commit that it took.
    handed: Vec<u64>,
    applies: Vec<Apply>,
}

impl Model for NodeApplier {
    ghost use Rattle.std.specs.Prelude.{◌≤◌, unwrap_or, vec_len};
    ghost use Rattle.node_apply.specs.Applying.{Node};
    ghost use Rattle.node_apply.specs.Commits.{commits_of};
    ghost use Rattle.node_apply.specs.Tied.{IsTied};

    ghost Value = { Node };

    ghost view = { λ n. record {
      name = n.node;
      failing = n.failing.items;
      first = n.first;
      state = n.applied.state;
      place = n.place;
      waiting = commits_of n.commits;
      head = unwrap_or n.missed n.applied.state;
      applies = n.applies.items;
    } };

    ghost invariant = { λ n. IsTied n.applied (unwrap_or n.missed n.applied.state) n.behind n.commits n.handed.items n.applies.items × (n.place ≤ vec_len n.applies) };
}

impl NodeApplier {
    ghost use Rattle.std.specs.Prelude.{◌≡◌, true, false, [], Some, IfOk, OnOk, OnErr};
    ghost use Rattle.node_apply.specs.Applying.{after_next, fails_next, last_of_node, new_node, next_of, passed_on, record_of};
    ghost use Rattle.node_apply.specs.Commits.{AreLinked, commits_of};

    /// The applier of a node that has this first state, which finds its commits at this end. The apply of the
    /// publications of these numbers will fail.
    pub fn create(
        alloc: Global,
        node: Text,
        first: ClusterState,
        commits: CommitEnd,
        failing: Vec<u64>,
    ) -> Result<NodeApplier, OutOfMemory>
        requires { commits ≡ [] }
        ensures { IfOk result (λ made. made ≡ new_node node failing.items first) }
    {
        let version = first.version;
        Ok(NodeApplier {
            alloc,
            node,
            failing,
            first: version,
            applied: first_applied(alloc, first)?,
            place: 0,
            missed: None,
            behind: Some(Touched::none(alloc)),
            commits,
            handed: Vec::new(alloc),
            applies: Vec::new(alloc),
        })
    }

    /// The state that the node has applied.
    pub fn state(&self) -> &ClusterState
        ensures { result.now ≡ self.now.state }
    {
        &self.applied.state
    }

    /// This state's place among those that the node had, from 0.
    pub fn place(&self) -> u64
        ensures { result ≡ self.now.place }
    {
        self.place
    }

    /// Applies the next commit that waits, where there is one: all appliers prepare it, and then each phase runs. Where
    /// the script lets it fail nothing is applied. Want of memory leaves all as it was.
    pub fn apply_next(&mut self) -> Result<ApplyOutcome, OutOfMemory>
        ensures ok { IfOk result (λ outcome. (outcome, self.new) ≡ after_next self.old) }
        ensures err { OnErr result (self.new ≡ self.old) }
    {
        if self.fails_next() {
            self.fail_next()
        } else {
            self.apply_waiting()
        }
    }

    // Whether the script lets the apply of the next commit fail.
    fn fails_next(&self) -> bool
        ensures { result ≡ fails_next self.now }
    {
        match self.commits.first() {
            None => false,
            Some(next) => self.failing.contains(&next.publication()),
        }
    }

    // Takes the next commit, whose apply fails.
    #[tactic(auto, using(crate::proofs::Tying::failed_is))]
    fn fail_next(&mut self) -> Result<ApplyOutcome, OutOfMemory>
        requires { fails_next self.old ≡ true }
        ensures ok { IfOk result (λ outcome. (outcome, self.new) ≡ next_of true self.old self.old.waiting) }
        ensures err { OnErr result (self.new ≡ self.old) }
    {
        self.applies.reserve(1)?;
        let behind = behind_next(self.alloc, &self.behind, &self.commits)?;
        let Some(commit) = self.commits.take_first() else {
            unreachable!()
        };
        let version = commit.version();
        let line = failed_line(self.applied.state.version, version);
        self.applies.push_reserved(line);
        put(&mut self.missed, Some(commit.into_state()));
        put(&mut self.behind, behind);
        Ok(ApplyOutcome::FailedByScript { version })
    }

    // Takes the next commit, and applies it.
    #[tactic(auto, using(crate::proofs::Tying::applied_is, crate::proofs::Tying::tied_applied))]
    fn apply_waiting(&mut self) -> Result<ApplyOutcome, OutOfMemory>
        ensures ok { IfOk result (λ outcome. (outcome, self.new) ≡ next_of false self.old self.old.waiting) }
        ensures err { OnErr result (self.new ≡ self.old) }
    {
        self.applies.reserve(1)?;
        let prepared = prepare_first(
            self.alloc,
            &mut self.applied,
            &self.missed,
            &self.behind,
            &self.commits,
        )?;
        let Some(change) = prepared else {
            return Ok(ApplyOutcome::None);
        };
        let Some(commit) = self.commits.take_first() else {
            unreachable!()
        };
        let version = commit.version();
        let line = apply_line(&mut self.applied, commit.into_state(), change);
        self.applies.push_reserved(line);
        self.place += 1;
        put(&mut self.missed, None);
        put(&mut self.behind, Some(Touched::none(self.alloc)));
        Ok(ApplyOutcome::Applied { version })
    }

    // Takes over the commits that were handed at the other end, which go on from what it was passed. Want of memory
    // leaves all as it was.
    #[tactic(auto, using(crate::proofs::Tying::passed_is, crate::proofs::Tying::tied_passed))]
    pub(crate) fn take_over(&mut self, start: &mut CommitStart) -> Result<(), OutOfMemory>
        requires { AreLinked (Some (last_of_node self.old)) start.old.commits }
        ensures ok { OnOk result (self.new ≡ passed_on (commits_of start.old.commits) self.old) }
        ensures passed { OnOk result (start.new ≡ record start.old { commits = [] }) }
        ensures err { OnErr result (self.new ≡ self.old) }
        ensures kept { OnErr result (start.new ≡ start.old) }
    {
        let mut versions = start.versions(self.alloc)?;
        self.handed.reserve(versions.len())?;
        self.commits.take_all(start)?;
        match self.handed.append(&mut versions) {
            Ok(()) => Ok(()),
            Err(_) => unreachable!(),
        }
    }

    /// The record of what the node was handed and applied, with the view of the state that it has. It takes no memory.
    pub fn finish(self) -> NodeRec
        ensures { result ≡ record_of self }
    {
        let NodeApplier {
            node,
            first,
            applied,
            missed,
            behind,
            handed,
            applies,
            ..
        } = self;
        mem::drop((missed, behind));
        NodeRec {
            node,
            handed: Items::from_vec(handed),
            first,
            applies: Items::from_vec(applies),
            view: into_view(applied),
        }
    }
}

// What may have changed since the applied state with the first of these commits.
fn behind_next(
    alloc: Global,
    behind: &Option<Touched>,
    commits: &CommitEnd,
) -> Result<Option<Touched>, OutOfMemory>
    ensures { IfOk result (λ made. made ≡ either_touched behind.now (since_first commits.now)) }
{
    match commits.first() {
        None => Ok(None),
        Some(next) => touched_before(alloc, behind, next.since()),
    }
}

// The line of an apply that failed.
fn failed_line(from: u64, to: u64) -> Apply
    ensures { result ≡ record { from = from; to = to; end = Failed } }
{
    Apply {
        from,
        to,
        end: ApplyEnd::Failed,
    }
}

// Lets all appliers take over the state that they prepared, sets it, and tells of it.
fn apply_line(applied: &mut Applied, new: ClusterState, change: Change) -> Apply
    requires at { IsAt applied.old }
    requires ready { IsReadyFor applied.old new }
    requires change { change ≡ change_between applied.old.state new }
    ensures state { applied.new.state ≡ new }
    ensures at { IsAt applied.new }
    ensures line { result ≡ apply_of applied.old.state new }
{
    let from = applied.state.version;
    let to = new.version;
    let phases = commit_all(applied, new);
    Apply {
        from,
        to,
        end: ApplyEnd::Applied {
            high: phases.high,
            normal: phases.normal,
            low: phases.low,
            listeners: phases.listeners,
            change,
        },
    }
}
