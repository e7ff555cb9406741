ghost use Rattle.std.specs.Prelude.{◌≡◌, ◌<◌, ◌^◌, Some, true, IfOk, IsTrue, map};
ghost use Rattle.std.specs.List.{AllByRecursion};
ghost use Rattle.publication.specs.Deliveries.{CanTake};
ghost use Rattle.state_diff.specs.StateDiffs.{applied, state_between};
ghost use Rattle.master_run.specs.Sendings.{CanSend, IsProposed, IsSendable, IsSentFor};
ghost use Rattle.master_run.specs.Touching.{AgreeOutsideThese};

use crate::plans::{Plan, Planned, Proposal};
use edge_io::Clock;
use meta_state::{ClusterState, Touched};
use plain_data::{Items, OutOfMemory};
use publication::{Delivery, Link, deliver};
use session_law::World;
use state_diff::StateDiff;
use std::alloc::Global;

/// What was sent for a batch.
#[derive(Debug, Drop)]
pub struct Sent {
    pub delivery: Delivery,

    /// The reading at which it committed, in milliseconds; 0 if it didn't.
    pub commit: u64,
}

/// Sends what a batch's plan asks for: a proposed state is published over the links, and the clock is read once if it
/// commits. Nothing is sent for a batch that is settled.
pub(crate) fn send_plan<L: Link, C: Clock>(
    alloc: Global,
    world: &World,
    planned: &Planned,
    links: &mut [L],
    clock: &C,
) -> Result<Sent, OutOfMemory>
    requires { CanSend planned.now world.now (map L.meaning links.old) planned.now.plan }
    ensures { IfOk result (λ sent. IsSentFor world.now (C.may_read clock.now) (map L.meaning links.old) (map L.meaning links.new) sent planned.now.plan) }
{
    match &planned.plan {
        Plan::Settled(_) => Ok(nothing_sent(alloc)),
        Plan::Proposed(proposal) => send_proposal(
            alloc,
            world,
            proposal,
            &planned.touched,
            links,
            clock,
        ),
    }
}

fn nothing_sent(alloc: Global) -> Sent {
    Sent {
        delivery: Delivery {
            commits: false,
            answers: Items::new(alloc),
        },
        commit: 0,
    }
}

/// Publishes a proposed state.
fn send_proposal<L: Link, C: Clock>(
    alloc: Global,
    world: &World,
    proposal: &Proposal,
    touched: &Option<Touched>,
    links: &mut [L],
    clock: &C,
) -> Result<Sent, OutOfMemory>
    requires differ { world.now.state.id ≡ proposal.now.new.id → ⊥ }
    requires each { AllByRecursion (CanTake world.now.state proposal.now.new) (map L.meaning links.old) }
    requires bound { proposal.now.new.version < 2 ^ 32 }
    requires agree { AgreeOutsideThese touched.now world.now.state proposal.now.new }
    ensures { IfOk result (λ sent. IsProposed world.now (C.may_read clock.now) (map L.meaning links.old) (map L.meaning links.new) sent proposal.now) }
{
    let diff = diff_between(alloc, &world.state, &proposal.new, touched)?;
    let delivery = deliver(alloc, &world.state, &proposal.new, diff, links)?;
    let commit = commit_reading(delivery.commits, clock);
    Ok(Sent { delivery, commit })
}

/// The diff of two states, over the names that were touched alone where they are known.
fn diff_between(
    alloc: Global,
    prev: &ClusterState,
    new: &ClusterState,
    touched: &Option<Touched>,
) -> Result<StateDiff, OutOfMemory>
    requires differ { prev.now.id ≡ new.now.id → ⊥ }
    requires agree { AgreeOutsideThese touched.now prev.now new.now }
    ensures made { IfOk result (λ made. made ≡ state_between prev.now new.now) }
    ensures leads { IfOk result (λ made. applied made prev.now ≡ Some new.now) }
{
    match touched {
        None => StateDiff::between(alloc, prev, new),
        Some(touched) => StateDiff::between_among(alloc, prev, new, touched),
    }
}

/// The clock's reading where a publication committed; else 0, without one.
fn commit_reading<C: Clock>(commits: bool, clock: &C) -> u64
    ensures { commits ≡ true → IsTrue (C.may_read clock.now result) }
{
    if commits { clock.now() } else { 0 }
}
