ghost use Rattle.std.specs.Prelude.{◌≡◌, ◌<◌, ◌^◌, [], ◌∷◌, ◌++◌, ◌-◌, None, IfOk, OnOk, OnErr, MatchOption, drop, length};
ghost use Rattle.std.specs.Option.{option_copied};
ghost use Rattle.node_apply.specs.Commits.{first_unknown, last_state, versions_of};

use crate::putting::put;
use meta_state::{ClusterState, Touched};
use plain_data::OutOfMemory;
use std::alloc::Global;
use std::collections::VecDeque;
use std::marker::Model;
use std::mem;

/// A state that was committed, as a node is handed it.
#[derive(Drop)]
pub struct Commit {
    state: ClusterState,
    publication: u64,

    // What may have changed since the commit before, where that is known.
    since: Option<Touched>,
}

impl Model for Commit {
    ghost use Rattle.std.specs.Prelude.{◌<◌, ◌^◌};
    ghost use Rattle.node_apply.specs.Commits.{HandedCommit};

    ghost Value = { HandedCommit };

    ghost view = { λ c. record { state = c.state; publication = c.publication; since = c.since } };

    ghost invariant = { λ c. c.state.version < 2 ^ 32 };
}

impl Commit {
    /// The commit of a state, which was brought to the node by the publication of this number, from 1.
    pub(crate) fn new(state: ClusterState, publication: u64, since: Option<Touched>) -> Commit
        requires { state.version < 2 ^ 32 }
        ensures { result ≡ record { state = state; publication = publication; since = since } }
    {
        Commit {
            state,
            publication,
            since,
        }
    }

    /// The version of its state.
    pub fn version(&self) -> u64
        ensures version { result ≡ self.now.state.version }
        ensures bound { result < 2 ^ 32 }
    {
        self.state.version
    }

    /// Its state.
    pub fn state(&self) -> &ClusterState
        ensures { result.now ≡ self.now.state }
    {
        &self.state
    }

    /// Its number among the publications to the node, from 1.
    pub fn publication(&self) -> u64
        ensures { result ≡ self.now.publication }
    {
        self.publication
    }

    /// What may have changed since the commit before, where that is known.
    pub(crate) fn since(&self) -> &Option<Touched>
        ensures { result.now ≡ self.now.since }
    {
        &self.since
    }

    /// Its state, which it gives up.
    pub(crate) fn into_state(self) -> ClusterState
        ensures { result ≡ self.state }
    {
        let Commit { state, since, .. } = self;
        mem::drop(since);
        state
    }
}

/// The end at which commits are handed to a node. This form keeps them until they are passed to the other end.
#[derive(Drop)]
pub struct CommitStart {
    commits: VecDeque<Commit>,
    room: u32,
}

impl Model for CommitStart {
    ghost use Rattle.std.specs.Prelude.{◌≤◌, ◌+◌};
    ghost use Rattle.std.specs.VecDeque.{deque_len, deque_capacity};
    ghost use Rattle.node_apply.specs.Commits.{Handed};

    ghost Value = { Handed };

    ghost view = { λ s. record { commits = s.commits.items; room = s.room } };

    ghost invariant = { λ s. deque_len s.commits + s.room ≤ deque_capacity s.commits };
}

/// The end at which a node finds the commits that were passed to it.
#[derive(Drop)]
pub struct CommitEnd {
    commits: VecDeque<Commit>,
}

impl Model for CommitEnd {
    ghost use Rattle.std.specs.Prelude.{List};
    ghost use Rattle.node_apply.specs.Commits.{HandedCommit};

    ghost Value = { List HandedCommit };

    ghost view = { λ e. e.commits.items };
}

/// The two ends of the commits of one node, with room for so many that are handed. Nothing was handed yet.
pub fn commit_pair(alloc: Global, room: u32) -> Result<(CommitStart, CommitEnd), OutOfMemory>
    ensures start { IfOk result (λ made. made.0 ≡ record { commits = []; room = room }) }
    ensures end { IfOk result (λ made. made.1 ≡ []) }
{
    let start = CommitStart {
        commits: VecDeque::with_capacity(alloc, room as usize)?,
        room,
    };
    let end = CommitEnd {
        commits: VecDeque::new(alloc),
    };
    Ok((start, end))
}

impl CommitStart {
    /// For how many more commits there is room.
    pub fn room(&self) -> u32
        ensures { result ≡ self.now.room }
    {
        self.room
    }

    /// Hands a commit. It takes no memory.
    pub(crate) fn hand(&mut self, commit: Commit)
        requires { 0 < self.old.room }
        ensures { self.new ≡ record { commits = self.old.commits ++ commit ∷ []; room = self.old.room - 1 } }
    {
        self.commits.push_back_reserved(commit);
        self.room -= 1;
    }

    /// The versions of the commits that wait here.
    pub(crate) fn versions(&self, alloc: Global) -> Result<Vec<u64>, OutOfMemory>
        ensures { IfOk result (λ made. made.items ≡ versions_of self.now.commits) }
    {
        list_versions(alloc, &self.commits)
    }

    /// A copy of the last commit's state, where there is one.
    #[tactic(auto, using(crate::proofs::Linking::last_of_all))]
    pub(crate) fn last(&mut self, alloc: Global) -> Result<Option<ClusterState>, OutOfMemory>
        ensures last { IfOk result (λ last. last ≡ last_state None self.old.commits) }
        ensures kept { self.new ≡ self.old }
    {
        match self.commits.pop_back() {
            None => Ok(None),
            Some(last) => {
                let copied = last.state().copy(alloc);
                self.commits.push_back_reserved(last);
                Ok(Some(copied?))
            }
        }
    }

    /// Lets the first commit not tell what changed, where there is one.
    pub(crate) fn forget_first(&mut self)
        ensures { self.new ≡ record self.old { commits = first_unknown self.old.commits } }
    {
        if let Some(mut first) = self.commits.pop_front() {
            put(&mut first.since, None);
            self.commits.push_front_reserved(first);
        }
    }
}

fn list_versions(alloc: Global, commits: &VecDeque<Commit>) -> Result<Vec<u64>, OutOfMemory>
    ensures { IfOk result (λ made. made.items ≡ versions_of commits.now.items) }
{
    let mut made = Vec::new(alloc);
    for commit in commits.iter() {
        made.push(commit.version())?;
    }
    Ok(made)
}

impl CommitEnd {
    /// How many commits wait.
    pub fn len(&self) -> usize
        ensures { result ≡ length self.now }
    {
        self.commits.len()
    }

    /// The first commit that waits.
    pub fn first(&self) -> Option<&Commit>
        ensures { MatchOption (option_copied result) (self.now ≡ []) (λ first. self.now ≡ first ∷ drop 1 self.now) }
    {
        self.commits.front()
    }

    /// Takes the first commit out, where one waits.
    pub(crate) fn take_first(&mut self) -> Option<Commit>
        ensures { MatchOption result ((self.old ≡ []) × (self.new ≡ [])) (λ first. self.old ≡ first ∷ self.new) }
    {
        self.commits.pop_front()
    }

    /// Takes all commits over that were handed. Want of memory leaves both ends as they were.
    pub(crate) fn take_all(&mut self, start: &mut CommitStart) -> Result<(), OutOfMemory>
        ensures ok { OnOk result (self.new ≡ self.old ++ start.old.commits) }
        ensures passed { OnOk result (start.new ≡ record start.old { commits = [] }) }
        ensures err { OnErr result (self.new ≡ self.old) }
        ensures kept { OnErr result (start.new ≡ start.old) }
    {
        self.commits.append(&mut start.commits)?;
        Ok(())
    }
}
