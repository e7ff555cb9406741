ghost use Rattle.std.specs.Prelude.{◌≡◌, ◌<◌, ◌^◌, IfOk, MatchResult, length, map};
ghost use Rattle.std.specs.List.{AllByRecursion};
ghost use Rattle.session_law.specs.BatchSteps.{all_end, committed_world, dropped_world, end_of};
ghost use Rattle.session_law.specs.Histories.{tasks_at};
ghost use Rattle.master_run.specs.Books.{input_at};
ghost use Rattle.master_run.specs.Conclusions.{end_with, publish_failed, published, world_or};
ghost use Rattle.master_run.specs.Plans.{concluded};
ghost use Rattle.master_run.specs.Reaches.{cut_off, node_after, nodes_after, reach_at, reach_by};
ghost use Rattle.master_run.specs.Rooms.{CanCount, CanPublish, HasRoom};
ghost use Rattle.master_run.specs.Sendings.{IsDecided};

use crate::plans::{Plan, Planned, Proposal, all_ended, ended};
use crate::sendings::Sent;
use executors::{Executor, Kind};
use meta_state::ClusterState;
use plain_data::{Items, OutOfMemory};
use publication::{Answer, Delivery};
use scripts::{QueueSpec, Script};
use session_law::{BatchResult, Entry, NodeWorld, Reach, Stepped, TaskEnd, World};
use std::alloc::Global;

/// What came of a batch in the end, and the world after it; none where the world stays.
#[derive(Drop)]
pub(crate) struct Conclusion {
    pub(crate) stepped: Stepped,
    pub(crate) after: Option<World>,
}

impl Conclusion {
    /// Lets it go.
    pub(crate) fn close(self) {}

    /// It is what holds from now on.
    pub(crate) fn put_into(self, ends: &mut Items<TaskEnd>, world: &mut World)
        ensures ends { ends.new ≡ self.stepped.ends }
        ensures world { world.new ≡ world_or self.after world.old }
    {
        *ends = self.stepped.ends;
        if let Some(after) = self.after {
            *world = after;
        }
    }
}

/// What comes of a batch, by its plan and by what was sent for it.
pub(crate) fn conclude(
    alloc: Global,
    script: &Script,
    world: &World,
    queue: &QueueSpec,
    entries: &[Entry],
    planned: Planned,
    sent: Result<Sent, OutOfMemory>,
) -> Result<Conclusion, OutOfMemory>
    requires room { HasRoom world.now }
    requires each { length (tasks_at script.now entries.now) ≡ length entries.now }
    requires decided { IfOk sent (λ sent. IsDecided sent planned.plan) }
    ensures { IfOk result (λ made. MatchResult sent (λ sent. end_with made world.now ≡ concluded (reach_by world.now.nodes sent.delivery.answers) (input_at (cut_off script.now.nodes sent.delivery.answers) script.now queue.now entries.now sent.commit) world.now planned.plan) (λ _. ⊥)) }
{
    match sent {
        Err(fault) => {
            planned.close();
            Err(fault)
        }
        Ok(sent) => conclude_plan(
            alloc,
            script,
            world,
            queue,
            entries,
            planned.into_plan(),
            &sent,
        ),
    }
}

fn conclude_plan(
    alloc: Global,
    script: &Script,
    world: &World,
    queue: &QueueSpec,
    entries: &[Entry],
    plan: Plan,
    sent: &Sent,
) -> Result<Conclusion, OutOfMemory>
    requires room { HasRoom world.now }
    requires each { length (tasks_at script.now entries.now) ≡ length entries.now }
    requires decided { IsDecided sent.now plan }
    ensures { IfOk result (λ made. end_with made world.now ≡ concluded (reach_by world.now.nodes sent.now.delivery.answers) (input_at (cut_off script.now.nodes sent.now.delivery.answers) script.now queue.now entries.now sent.now.commit) world.now plan) }
{
    match plan {
        Plan::Settled(stepped) => Ok(Conclusion {
            stepped,
            after: None,
        }),
        Plan::Proposed(proposal) => {
            let reach = reach_of(alloc, world, &proposal.new, &sent.delivery)?;
            if sent.delivery.commits {
                commit(alloc, world, queue.executor, proposal, reach, sent.commit)
            } else {
                fail(alloc, world, entries, proposal, reach)
            }
        }
    }
}

/// The new state is current from the reading `at` on, and puts the master into office where its batch doesn't need it.
fn commit(
    alloc: Global,
    world: &World,
    kind: Kind,
    proposal: Proposal,
    reach: Reach,
    at: u64,
) -> Result<Conclusion, OutOfMemory>
    requires room { HasRoom world.now }
    requires counts { CanCount reach }
    ensures { IfOk result (λ made. end_with made world.now ≡ (record { result = published proposal.new at reach; ends = map (end_of (TaskEnd.Ok proposal.new.version)) proposal.marks }, committed_world world.now kind proposal.new reach)) }
{
    let version = proposal.new.version;
    let stepped = Stepped {
        result: published(&proposal.new, at, &reach),
        ends: ended(alloc, TaskEnd::Ok { version }, proposal.marks.as_slice())?,
    };
    let after = World {
        state: proposal.new,
        proposals: world.proposals + 1,
        in_office: world.in_office || !kind.needs_master(),
        nodes: reach.nodes,
    };
    Ok(Conclusion {
        stepped,
        after: Some(after),
    })
}

/// The new state is dropped, and the master out of office.
fn fail(
    alloc: Global,
    world: &World,
    entries: &[Entry],
    proposal: Proposal,
    reach: Reach,
) -> Result<Conclusion, OutOfMemory>
    requires room { HasRoom world.now }
    requires counts { CanCount reach }
    ensures { IfOk result (λ made. end_with made world.now ≡ (record { result = publish_failed proposal.new reach; ends = all_end TaskEnd.PublishFailed (length entries.now) }, dropped_world world.now reach)) }
{
    let stepped = Stepped {
        result: publish_failed(&proposal.new, &reach),
        ends: all_ended(alloc, TaskEnd::PublishFailed, entries)?,
    };
    let after = World {
        state: world.state.copy(alloc)?,
        proposals: world.proposals + 1,
        in_office: false,
        nodes: reach.nodes,
    };
    Ok(Conclusion {
        stepped,
        after: Some(after),
    })
}

/// The result of a batch whose state is current from the reading `at` on.
fn published(new: &ClusterState, at: u64, reach: &Reach) -> BatchResult
    requires { CanCount reach.now }
    ensures { result ≡ published new.now at reach.now }
{
    BatchResult::Published {
        version: new.version,
        id: new.id,
        commit: at,
        diffs: reach.diffs,
        fulls: reach.fulls,
        accepted: reach.diffs + reach.fulls,
    }
}

/// The result of a batch whose state is dropped.
fn publish_failed(new: &ClusterState, reach: &Reach) -> BatchResult
    requires { CanCount reach.now }
    ensures { result ≡ publish_failed new.now reach.now }
{
    BatchResult::PublishFailed {
        id: new.id,
        diffs: reach.diffs,
        fulls: reach.fulls,
        accepted: reach.diffs + reach.fulls,
    }
}

/// What a publication reached.
fn reach_of(
    alloc: Global,
    world: &World,
    new: &ClusterState,
    delivery: &Delivery,
) -> Result<Reach, OutOfMemory>
    requires room { HasRoom world.now }
    ensures reach { IfOk result (λ made. made ≡ reach_at new.now world.now.nodes delivery.now.answers) }
    ensures counts { IfOk result CanCount }
{
    let nodes = step_nodes(
        alloc,
        new,
        world.nodes.as_slice(),
        delivery.answers.as_slice(),
    )?;
    Ok(Reach {
        nodes,
        diffs: delivery.diffs(),
        fulls: delivery.fulls(),
        votes: delivery.votes(),
        master: delivery.has_master(),
    })
}

/// What each node has after its answer.
fn step_nodes(
    alloc: Global,
    new: &ClusterState,
    nodes: &[NodeWorld],
    answers: &[Answer],
) -> Result<Items<NodeWorld>, OutOfMemory>
    requires { AllByRecursion CanPublish nodes.now }
    ensures { IfOk result (λ made. made ≡ nodes_after new.now nodes.now answers.now) }
{
    let mut made = Items::new(alloc);
    let mut left = answers;
    for has in nodes {
        let Some((answer, more)) = left.split_first() else {
            return Ok(made);
        };
        made.push(step_node(alloc, new, has, *answer)?)?;
        left = more;
    }
    Ok(made)
}

fn step_node(
    alloc: Global,
    new: &ClusterState,
    has: &NodeWorld,
    answer: Answer,
) -> Result<NodeWorld, OutOfMemory>
    requires { CanPublish has.now }
    ensures { IfOk result (λ made. made ≡ node_after new.now has.now answer) }
{
    let accepted = if answer.asked && answer.accepted {
        new
    } else {
        &has.accepted
    };
    Ok(NodeWorld {
        accepted: accepted.copy(alloc)?,
        sent: has.sent + u64::from(answer.asked),
    })
}
